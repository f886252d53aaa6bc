//! What a run is: its processes, its bound on failures, and the rule that is broken.
use crate::random::Random;
use causal_name::Pid;
use causal_node::node::Identity;
use causal_wire::RunId;

/// A rule of the protocol or of an embedder that a run breaks.
#[derive(Clone, Copy, Debug, PartialEq, Eq)]
pub enum Rule {
    /// Messages carry nothing.
    Piggyback,
    /// Messages carry nothing that f processes are known to hold.
    Holders,
    /// Who is up replies with an empty log.
    Answer,
    /// Who replies raises no floor for the asker.
    Floor,
    /// Storage is not read.
    NoRead,
    /// Storage is read before the others have replied.
    EarlyRead,
    /// Storage accepts writes of lanes below the view of a reader.
    Fence,
    /// Storage loses what it has confirmed.
    LoseStored,
    /// What storage has not confirmed counts as stored.
    EarlyStored,
    /// The clock of storage is not taken in.
    StorageClock,
    /// The clock of an end is not taken in.
    EndClock,
    /// Parcels carry no clock.
    ParcelClock,
    /// A crash is written without regard to who has come up.
    CrashClock,
    /// A process counts as ended while it is up.
    EarlyEnded,
    /// The report of an end counts for a later round.
    OldReport,
    /// A parcel leaves before its line is written.
    LateLine,
    /// All rounds have one name.
    RoundName,
    /// A lane's number is used again.
    Lane,
    /// What a process sends depends on the time.
    Impure,
    /// More than f processes may be down.
    TooMany,
    /// What a process that came up may have lost is not sent again.
    NoResend,
}

impl Rule {
    /// Returns the rule of this name.
    pub fn of_name(name: &str) -> Option<Rule> {
        Some(match name {
            "piggyback" => Rule::Piggyback,
            "holders" => Rule::Holders,
            "answer" => Rule::Answer,
            "floor" => Rule::Floor,
            "no_read" => Rule::NoRead,
            "early_read" => Rule::EarlyRead,
            "fence" => Rule::Fence,
            "lose_stored" => Rule::LoseStored,
            "early_stored" => Rule::EarlyStored,
            "storage_clock" => Rule::StorageClock,
            "end_clock" => Rule::EndClock,
            "parcel_clock" => Rule::ParcelClock,
            "crash_clock" => Rule::CrashClock,
            "early_ended" => Rule::EarlyEnded,
            "old_report" => Rule::OldReport,
            "late_line" => Rule::LateLine,
            "round_name" => Rule::RoundName,
            "lane" => Rule::Lane,
            "impure" => Rule::Impure,
            "too_many" => Rule::TooMany,
            "no_resend" => Rule::NoResend,
            _ => return None,
        })
    }
}

/// The number of each run.
pub const RUN: u64 = 4711;

/// What a run is.
#[derive(Clone, Copy)]
pub struct Settings {
    pub processes: u8,
    pub faults: u8,
    /// The rule that is broken, if one is.
    pub broken: Option<Rule>,
}

impl Settings {
    /// Returns settings by chance: 2 to 4 processes, of which one or two may be down.
    pub fn by_chance(random: &mut Random, broken: Option<Rule>) -> Settings {
        let (processes, faults) = match random.below(6) {
            0 => (2, 1),
            1 => (3, 1),
            2 => (4, 1),
            3 | 4 => (3, 2),
            _ => (4, 2),
        };
        Settings {
            processes,
            faults,
            broken,
        }
    }

    /// Returns whether this rule is broken.
    pub fn breaks(&self, rule: Rule) -> bool {
        self.broken == Some(rule)
    }

    /// Returns the bound on failures that the processes have.
    fn believed_faults(&self) -> u16 {
        let faults = u16::from(self.faults);
        if self.breaks(Rule::Holders) {
            faults.saturating_sub(1)
        } else {
            faults
        }
    }

    /// Returns what a process is.
    pub fn identity(&self, me: u8) -> Identity {
        Identity {
            processes: u16::from(self.processes),
            me: Pid(me),
            faults: self.believed_faults(),
        }
    }

    /// Returns the run, as parcels name it.
    pub fn run(&self) -> RunId {
        RunId {
            id: RUN,
            processes: u16::from(self.processes),
            f: self.believed_faults(),
        }
    }
}
