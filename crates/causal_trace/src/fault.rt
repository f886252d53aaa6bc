//! Errors: why an entry, or the start of a trace, is refused.
use crate::entry::Entry;
use causal_name::NoMemory;
use std::alloc::AllocFailed;
use std::fmt;
use thiserror::Error;

/// Why an entry, or the start of a trace, is refused. If several variants apply, the first in this order is returned.
#[derive(Clone, Copy, Debug, PartialEq, Eq, Error)]
pub enum TraceFault {
    /// A trace has from 1 to 256 processes.
    Processes,
    /// A trace has at most 65,536 entries, which list at most 1,048,576 determinants in all, unless the caller sets
    /// other limits.
    TooLong,
    /// The entry names a process that the trace does not have.
    NoProcess,
    /// Only a process that is up sends, delivers, forgets and crashes.
    NotUp,
    /// Only a process that is down restarts.
    NotDown,
    /// A trace has at most 192 restarts, unless the caller's limit of entries allows more.
    Lanes,
    /// A lane (incarnation) numbers its sends from 0, one by one.
    WrongSsn,
    /// A delivery names the position of an earlier send to its receiver.
    NoSend,
    /// A lane numbers its deliveries from 0, one by one.
    WrongRsn,
    /// A lane delivers no message twice.
    Doubled,
    /// Each listed determinant comes before the next.
    Unsorted,
    /// Each determinant that the entry mentions is that of an earlier delivery, or of the entry itself.
    NoDelivery,
    /// An allocation failed.
    NoMemory,
}

// A derived `Display` of this many messages takes ten times as long to prove.
impl fmt::Display for TraceFault {
    fn fmt<W: fmt::Write>(&self, f: &mut fmt::Formatter<W>) -> fmt::Result {
        f.write_str(self.sentence())
    }
}

impl TraceFault {
    /// Returns the error message.
    fn sentence(self) -> &'static str {
        match self {
            TraceFault::Processes => "the number of processes is not from 1 to 256",
            TraceFault::TooLong => "the trace would be too long",
            TraceFault::NoProcess => "there is no such process",
            TraceFault::NotUp => "the process is not up",
            TraceFault::NotDown => "the process is not down",
            TraceFault::Lanes => "too many lanes have been opened",
            TraceFault::WrongSsn => "the send sequence number is not the next one",
            TraceFault::NoSend => "there is no such send",
            TraceFault::WrongRsn => "the receive sequence number is not the next one",
            TraceFault::Doubled => "the message has been delivered",
            TraceFault::Unsorted => "the determinants are not in order",
            TraceFault::NoDelivery => "there is no delivery of this determinant",
            TraceFault::NoMemory => "no memory",
        }
    }
}

/// An entry that a trace refused.
#[derive(Debug, Drop)]
pub struct RefusedEntry {
    pub fault: TraceFault,
    /// The entry as the caller passed it; None if an allocation failed.
    pub entry: Option<Entry>,
}

impl From<NoMemory> for TraceFault {
    ghost use Rattle.causal_trace.specs.declared.fault.TraceFault.TheVariants as fault;
    ghost use Rattle.std.specs.Prelude.{◌≡◌};

    ghost from_gives = { λ _ told. told ≡ fault.NoMemory };

    fn from(_refused: NoMemory) -> TraceFault {
        TraceFault::NoMemory
    }
}

impl<T: Drop> From<AllocFailed<T>> for TraceFault {
    ghost use Rattle.causal_trace.specs.declared.fault.TraceFault.TheVariants as fault;
    ghost use Rattle.std.specs.Prelude.{◌≡◌};

    ghost from_gives = { λ _ told. told ≡ fault.NoMemory };

    fn from(_refused: AllocFailed<T>) -> TraceFault {
        TraceFault::NoMemory
    }
}
