//! The content of a line of a recorder file.
ghost use Rattle.std.specs.Prelude.{◌≡◌, length};
ghost use Rattle.causal_merge.specs.EventMerge.{listed_by_action};

use causal_name::{Det, Pid};
use causal_trace::entry::Dets;

/// What a process did.
#[derive(Drop)]
pub(crate) enum Action {
    /// It sends message number `ssn` of its lane (incarnation) to `to`.
    Send {
        to: Pid,
        ssn: u32,
    },
    /// It delivers message number `ssn` of the source's lane `lane`, as delivery number `rsn` of its own lane, and logs
    /// the listed determinants.
    Deliver {
        source: Pid,
        lane: u32,
        ssn: u32,
        rsn: u32,
        listed: Dets,
    },
    /// It knows that the determinant is in stable storage.
    Stable {
        det: Det,
    },
    /// It goes down.
    Crash,
    /// It comes up in its next lane, with the listed determinants in its log.
    Restart {
        listed: Dets,
    },
    /// It removes the listed determinants from its log.
    Forget {
        listed: Dets,
    },
}

impl Action {
    /// Returns the number of determinants that it lists.
    pub(crate) fn listed_count(&self) -> usize
        ensures { result ≡ length (listed_by_action self.now) }
    {
        match self {
            Action::Deliver { listed, .. } => listed.as_slice().len(),
            Action::Restart { listed } => listed.as_slice().len(),
            Action::Forget { listed } => listed.as_slice().len(),
            _ => 0,
        }
    }
}

/// What a process did, and its clock then.
#[derive(Drop)]
pub(crate) struct RecordedEvent {
    pub process: Pid,
    pub clock: u64,
    pub act: Action,
}

/// An event, and the number of its line in the input, from 1.
#[derive(Drop)]
pub(crate) struct EventAtLine {
    pub line: u32,
    pub event: RecordedEvent,
}

/// The run, on which all its headers agree: its number of processes, 1 to 256, and its run number.
#[derive(Clone, Copy)]
pub(crate) struct RunHeader {
    pub processes: u16,
    pub number: u64,
}

/// The content of a line.
#[derive(Drop)]
pub(crate) enum RecorderLine {
    Blank,
    Torn,
    Heard,
    Header { process: Pid, run: RunHeader },
    Event { event: RecordedEvent },
}
