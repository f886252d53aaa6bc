//! The names of message logging: processes, messages, determinants and slots.
//!
//! The determinant of a delivery contains what a replay needs to repeat it: source and send sequence number,
//! destination and receive sequence number. The term is that of Alvisi and Marzullo, "Message Logging: Pessimistic,
//! Optimistic, Causal, and Optimal", IEEE TSE 24(2), 1998. Sequence numbers count from 0 in each incarnation of a
//! process.
//!
//! Start at [`Det`]: its `message` and `slot` return the delivered message and the receiver's slot. `comes_before` is
//! the order of all sorted lists of determinants.
#![tactic(auto)]

/// Contracts of the derived orders and equalities.
pub mod order;

ghost use Rattle.std.specs.Prelude.{◌≡◌};
ghost use Rattle.causal_name.specs.Names.{message_of, slot_of, is_before};

use std::alloc::{AllocError, AllocFailed};
use thiserror::Error;

/// A process, by number; a run numbers its processes from 0.
#[derive(Clone, Copy, Debug, PartialEq, Eq, PartialOrd, Ord, Hash)]
pub struct Pid(pub u8);

/// A message: its source and its send sequence number, which is its index among the sends of that incarnation.
#[derive(Clone, Copy, Debug, PartialEq, Eq, PartialOrd, Ord, Hash)]
pub struct MsgName {
    pub source: Pid,
    pub ssn: u32,
}

/// The determinant of a delivery: the message, its destination, and its index among the receiver's deliveries.
#[derive(Clone, Copy, Debug, PartialEq, Eq, PartialOrd, Ord, Hash)]
pub struct Det {
    pub source: Pid,
    pub ssn: u32,
    pub dest: Pid,
    pub rsn: u32,
}

/// A slot: the index of a delivery among those of a receiver.
#[derive(Clone, Copy, Debug, PartialEq, Eq, PartialOrd, Ord, Hash)]
pub struct Slot {
    pub dest: Pid,
    pub rsn: u32,
}

/// The error that all crates share: an allocation failed.
#[derive(Clone, Copy, Debug, PartialEq, Eq, Error)]
#[error("no memory")]
pub struct NoMemory;

impl From<AllocError> for NoMemory {
    fn from(_refused: AllocError) -> NoMemory {
        NoMemory
    }
}

impl<T: Drop> From<AllocFailed<T>> for NoMemory {
    fn from(_refused: AllocFailed<T>) -> NoMemory {
        NoMemory
    }
}

impl Det {
    /// Returns the delivered message.
    pub fn message(&self) -> MsgName
        ensures { result ≡ message_of self.now }
    {
        MsgName {
            source: self.source,
            ssn: self.ssn,
        }
    }

    /// Returns the slot of the delivery.
    pub fn slot(&self) -> Slot
        ensures { result ≡ slot_of self.now }
    {
        Slot {
            dest: self.dest,
            rsn: self.rsn,
        }
    }

    /// Checks whether this determinant precedes the other, by source, ssn, dest and rsn.
    pub fn comes_before(&self, other: &Det) -> bool
        ensures { result ≡ is_before self.now other.now }
    {
        *self < *other
    }
}
