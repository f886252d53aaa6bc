//! The errors of calls and of `finish`.
ghost use Rattle.std.specs.Prelude.{◌≡◌};
ghost use Rattle.causal_shared.specs.Seat.{shared_fault_of};
ghost use Rattle.causal_shared.specs.declared.fault.LockedFault.TheVariants as locked_fault;

use causal_protocol::request::{CoreFault, FlushFault};
use std::fmt;
use thiserror::Error;

/// The error of an item call of the locked value.
#[derive(Clone, Copy, Debug, Error)]
pub enum LockedFault {
    /// The history could not grow. The core was not called.
    NoRecord,
    /// The core refused the call.
    Core(CoreFault),
    /// The core refused to flush, or stopped before it finished.
    Flush(FlushFault),
}

// The messages are written out here and below: a derived `Display` takes several times as long to prove.
impl fmt::Display for LockedFault {
    fn fmt<W: fmt::Write>(&self, f: &mut fmt::Formatter<W>) -> fmt::Result {
        match self {
            LockedFault::NoRecord => f.write_str("the call could not be recorded"),
            LockedFault::Core(fault) => fmt::Display::fmt(fault, f),
            LockedFault::Flush(stopped) => fmt::Display::fmt(&stopped.fault, f),
        }
    }
}

/// The error of a shared call. If several apply, the first in this order is returned.
#[derive(Clone, Copy, PartialEq, Eq, Debug, Error)]
pub enum SharedFault {
    /// The seat is of another runtime, or does not match its record under the lock.
    WrongSeat,
    /// The history contains the maximum number of items.
    HistoryFull,
    /// The history or the seat's own list could not grow. The core was not called.
    NoRecord,
    /// The core refused the call.
    Core(CoreFault),
    /// The core refused to flush, or stopped before it finished.
    Flush(FlushFault),
}

impl fmt::Display for SharedFault {
    fn fmt<W: fmt::Write>(&self, f: &mut fmt::Formatter<W>) -> fmt::Result {
        match self {
            SharedFault::WrongSeat => f.write_str("the seat is not one of this runtime's"),
            SharedFault::HistoryFull => f.write_str("the history is full"),
            SharedFault::NoRecord => f.write_str("the call could not be recorded"),
            SharedFault::Core(fault) => fmt::Display::fmt(fault, f),
            SharedFault::Flush(stopped) => fmt::Display::fmt(&stopped.fault, f),
        }
    }
}

/// The error of `finish`.
#[derive(Clone, Copy, PartialEq, Eq, Debug, Error)]
pub enum FinishFault {
    /// The list does not contain each of the runtime's seats exactly once.
    Missing,
    /// The own list of the seat with this number differs from the history's items of it.
    Mismatch(u32),
    /// The recording before the first item differs from that of the core given to `open`.
    Opening,
}

impl fmt::Display for FinishFault {
    fn fmt<W: fmt::Write>(&self, f: &mut fmt::Formatter<W>) -> fmt::Result {
        match self {
            FinishFault::Missing => {
                f.write_str("the seats are not those of this runtime, each once")
            }
            FinishFault::Mismatch(seat) => {
                write!(f, "the list of seat {seat} is not the history's part of it")
            }
            FinishFault::Opening => f.write_str("the history begins elsewhere"),
        }
    }
}

impl From<CoreFault> for LockedFault {
    ghost from_gives = { λ fault gives. gives ≡ locked_fault.Core fault };

    fn from(fault: CoreFault) -> LockedFault {
        LockedFault::Core(fault)
    }
}

impl From<FlushFault> for LockedFault {
    ghost from_gives = { λ fault gives. gives ≡ locked_fault.Flush fault };

    fn from(fault: FlushFault) -> LockedFault {
        LockedFault::Flush(fault)
    }
}

impl From<LockedFault> for SharedFault {
    ghost from_gives = { λ fault gives. gives ≡ shared_fault_of fault };

    fn from(fault: LockedFault) -> SharedFault {
        match fault {
            LockedFault::NoRecord => SharedFault::NoRecord,
            LockedFault::Core(fault) => SharedFault::Core(fault),
            LockedFault::Flush(fault) => SharedFault::Flush(fault),
        }
    }
}
