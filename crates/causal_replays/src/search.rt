//! The first deliveries of determinants with copies that fill a slot.
ghost use Rattle.std.specs.Prelude.{◌≡◌, Some, MatchBool, MatchOption};
ghost use Rattle.causal_name.specs.declared.Det.{Det as Determinant};
ghost use Rattle.causal_trace.specs.Past.{deliveries_in};
ghost use Rattle.causal_replays.specs.Inside.Copies.{AreSized};
ghost use Rattle.causal_replays.specs.Inside.Rivals.{AreAllOf, AreFirstTwo, HaveTwo, IsCopiedAt, IsFirstOther};

use crate::copies::{CopyTable, has_copy, number_of};
use causal_name::{Det, Slot};
use causal_trace::trace::Trace;

/// Returns the determinant of the delivery at position k if it has a copy and fills the slot.
fn copied_at(trace: &Trace, copies: &CopyTable, slot: Slot, k: u32) -> Option<Det>
    requires { AreSized (deliveries_in trace.now.recording.past) copies.now }
    ensures { MatchOption result
        ((d : Determinant) → IsCopiedAt trace.now.recording.past copies.now slot k d → ⊥)
        (λ d. IsCopiedAt trace.now.recording.past copies.now slot k d) }
{
    let det = trace.det_at(k)?;
    if det.slot() != slot {
        return None;
    }
    let number = number_of(trace, det);
    if has_copy(copies, number) {
        Some(det)
    } else {
        None
    }
}

/// Returns whether a determinant is another one than the known one, if there is one.
fn is_other(known: Option<Det>, det: Det) -> bool
    ensures { MatchBool result (known ≡ Some det → ⊥) (known ≡ Some det) }
{
    match known {
        Some(other) => other != det,
        None => true,
    }
}

/// Returns the position and the determinant of the first delivery before `end` that has a determinant with a copy in
/// this slot, other than the known one.
fn first_other(
    trace: &Trace,
    copies: &CopyTable,
    slot: Slot,
    end: u32,
    known: Option<Det>,
) -> Option<(u32, Det)>
    requires { AreSized (deliveries_in trace.now.recording.past) copies.now }
    ensures { MatchOption result
        (AreAllOf trace.now.recording.past copies.now slot end known)
        (λ found. IsFirstOther trace.now.recording.past copies.now slot end known found.0 found.1) }
{
    for k in 0..end {
        if let Some(det) = copied_at(trace, copies, slot, k) {
            if is_other(known, det) {
                return Some((k, det));
            }
        }
    }
    None
}

/// Returns the position of the first delivery before `end` that has a determinant with a copy in this slot, and of the
/// first that has a different one.
pub fn first_two(trace: &Trace, copies: &CopyTable, slot: Slot, end: u32) -> (u32, u32)
    requires sized { AreSized (deliveries_in trace.now.recording.past) copies.now }
    requires two { HaveTwo trace.now.recording.past copies.now slot end }
    ensures { AreFirstTwo trace.now.recording.past copies.now slot end result.0 result.1 }
{
    let Some((first, det)) = first_other(trace, copies, slot, end, None) else {
        unreachable!();
    };
    let Some((second, _)) = first_other(trace, copies, slot, end, Some(det)) else {
        unreachable!();
    };
    (first, second)
}
