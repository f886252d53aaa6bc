//! The facts that explain a verdict, or say that a recovery strayed.

use crate::cause::Cause;
use crate::event::ChainEvent;
use crate::process_fact::{DownProcess, Holding, Loss};
use crate::stray::Stray;
use causal_name::Det;

/// The delivery that comes closest to having an orphan.
#[derive(Clone, Copy)]
pub struct ClosestFailure {
    /// The least bound f for which it has one.
    pub faults: u16,
    pub delivery: u32,
    /// The first instant with the orphan.
    pub instant: u32,
    pub orphan: u8,
}

/// A fact that explains a verdict, or says that a recovery strayed. Entries are named by their positions, from 0;
/// instants count entries.
#[derive(Clone, Copy)]
pub enum Fact {
    /// A process is down.
    Down(DownProcess),
    /// The delivery that has an orphan, with its determinant.
    Delivery {
        delivery: u32,
        det: Det,
    },
    /// The entry before the instant, by which the instant fails.
    Cause {
        instant: u32,
        cause: Cause,
    },
    /// The determinant is not stable at the instant.
    Unstable {
        instant: u32,
    },
    /// A process holds the determinant.
    Holder(Holding),
    /// No process holds the determinant.
    NoHolder,
    /// A process lost the determinant.
    Loss(Loss),
    /// A process of the crash set.
    Crash {
        process: u8,
    },
    /// An event of the chain from the delivery to the orphan.
    Chain {
        position: u32,
        event: ChainEvent,
    },
    /// The first delivery of the chain after which its receiver's log lacks the determinant: its own, or another one.
    Unlisted {
        position: u32,
        event: ChainEvent,
        is_own: bool,
    },
    /// After each delivery of the chain its receiver has the determinant in its log.
    Listed,
    /// The delivery to a process, of the message that the entry at `send` sends, by which a determinant arrives that was
    /// in transit.
    Underway {
        position: u32,
        send: u32,
        to: u8,
    },
    /// The orphan.
    Orphan {
        process: u8,
    },
    /// The delivery that comes closest to having an orphan.
    Closest(ClosestFailure),
    /// No delivery has an orphan, whatever f is.
    Never,
    /// The first stray.
    Strayed(Stray),
    /// A process has the determinant of a delivery in its log.
    Logged {
        delivery: u32,
        holding: Holding,
    },
    /// The determinant of a delivery is in stable storage.
    Stable {
        delivery: u32,
    },
}

impl Fact {
    ghost use Rattle.std.specs.Prelude.{◌≡◌};
    ghost use Rattle.causal_facts.specs.Entries.{entry_of};
    ghost use Rattle.causal_facts.specs.Words.{word_of};

    /// Returns the word for the kind of the fact: `down`.
    pub fn word(&self) -> &'static str
        ensures { result.now ≡ word_of self.now }
    {
        match self {
            Fact::Down(_) => "down",
            Fact::Delivery { .. } => "delivery",
            Fact::Cause { .. } => "cause",
            Fact::Unstable { .. } => "unstable",
            Fact::Holder(_) | Fact::NoHolder => "holder",
            Fact::Loss(_) => "loss",
            Fact::Crash { .. } => "crash",
            Fact::Chain { .. } => "chain",
            Fact::Unlisted { .. } => "unlisted",
            Fact::Listed => "listed",
            Fact::Underway { .. } => "underway",
            Fact::Orphan { .. } => "orphan",
            Fact::Closest(_) | Fact::Never => "closest",
            Fact::Strayed(_) => "strayed",
            Fact::Logged { .. } => "logged",
            Fact::Stable { .. } => "stable",
        }
    }
    /// Returns the position of the entry on whose line of the trace's text the fact is; None if it has no line, or its
    /// line is the header's.
    pub fn entry(&self) -> Option<u32>
        ensures { result ≡ entry_of self.now }
    {
        match self {
            Fact::Down(down) => Some(down.since),
            Fact::Holder(holding) => Some(holding.since),
            Fact::Logged { holding, .. } => Some(holding.since),
            Fact::Loss(loss) => Some(loss.lost),
            Fact::Delivery { delivery, .. } => Some(*delivery),
            Fact::Closest(closest) => Some(closest.delivery),
            Fact::Cause { instant, .. } => instant.checked_sub(1),
            Fact::Unstable { instant } => instant.checked_sub(1),
            Fact::Chain { position, .. } => Some(*position),
            Fact::Unlisted { position, .. } => Some(*position),
            Fact::Underway { position, .. } => Some(*position),
            Fact::NoHolder
            | Fact::Crash { .. }
            | Fact::Listed
            | Fact::Orphan { .. }
            | Fact::Never
            | Fact::Strayed(_)
            | Fact::Stable { .. } => None,
        }
    }
}
