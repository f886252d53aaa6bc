//! Contracts of the derived comparisons: the orders are lexicographic and the equalities exact. Callers use `<` and
//! `==`; these functions state what those return.
ghost use Rattle.std.specs.Prelude.{◌≡◌, ◌↔◌, IsTrue};
ghost use Rattle.causal_name.specs.Names.{pid_cmp, message_cmp, slot_cmp, det_cmp, same_pid, same_message, same_slot, same_det};

use crate::{Det, MsgName, Pid, Slot};
use std::cmp::Ordering;

/// Compares two processes for equality.
pub fn are_same_processes(process: Pid, other: Pid) -> bool
    ensures tested { result ≡ same_pid process other }
    ensures same { IsTrue result ↔ (process ≡ other) }
{
    process == other
}

/// Compares two determinants for equality.
pub fn are_same_determinants(determinant: Det, other: Det) -> bool
    ensures tested { result ≡ same_det determinant other }
    ensures same { IsTrue result ↔ (determinant ≡ other) }
{
    determinant == other
}

/// Compares two messages for equality.
pub fn are_same_messages(message: MsgName, other: MsgName) -> bool
    ensures same { IsTrue result ↔ (message ≡ other) }
    ensures tested { result ≡ same_message message other }
{
    message == other
}

/// Compares two slots for equality.
pub fn are_same_slots(slot: Slot, other: Slot) -> bool
    ensures same { IsTrue result ↔ (slot ≡ other) }
    ensures tested { result ≡ same_slot slot other }
{
    slot == other
}

/// Compares two processes by number.
pub fn compare_processes(process: Pid, other: Pid) -> Ordering
    ensures { result ≡ pid_cmp process other }
{
    process.cmp(&other)
}

/// Compares two messages by source, then ssn.
pub fn compare_messages(message: MsgName, other: MsgName) -> Ordering
    ensures { result ≡ message_cmp message other }
{
    message.cmp(&other)
}

/// Compares two slots by dest, then rsn.
pub fn compare_slots(slot: Slot, other: Slot) -> Ordering
    ensures { result ≡ slot_cmp slot other }
{
    slot.cmp(&other)
}

/// Compares two determinants by source, ssn, dest and rsn.
pub fn compare_determinants(determinant: Det, other: Det) -> Ordering
    ensures { result ≡ det_cmp determinant other }
{
    determinant.cmp(&other)
}
