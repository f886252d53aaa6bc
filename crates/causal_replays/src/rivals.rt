//! Slots that different determinants with copies fill.
ghost use Rattle.std.specs.Prelude.{◌≡◌, ◌⊎◌, ◌||◌, ℕ, Bool, true, Some, None, IfOk, MatchBool, vec_len};
ghost use Rattle.causal_name.specs.declared.Det.{Det as Determinant};
ghost use Rattle.causal_name.specs.Names.{same_det};
ghost use Rattle.causal_trace.specs.Past.{deliveries_in, list_has};
ghost use Rattle.causal_replays.specs.Inside.Copies.{AreSized, HasCopy};
ghost use Rattle.causal_replays.specs.Inside.Slots.{slot_number};
ghost use Rattle.causal_replays.specs.Inside.Rivals.{AreNoted, AreOfSlots, IsCopied, IsLesser};

use crate::copies::{CopyTable, has_copy, number_of};
use crate::slots::{set_number, slot_number};
use causal_name::{Det, NoMemory, Slot};
use causal_trace::trace::Trace;

/// Returns the lower one of a slot and of the least so far.
fn lower_slot(least: Option<Slot>, slot: Slot) -> Slot
    ensures { IsLesser least slot result }
{
    match least {
        Some(old) => { if old < slot { old } else { slot } }
        None => slot,
    }
}

/// Returns whether the slot has the number of another determinant with a copy.
fn has_rival(
    slots: &Vec<Vec<Option<u32>>>,
    copies: &CopyTable,
    trace: &Trace,
    slot: Slot,
    number: u32,
) -> bool
    requires count { vec_len slots.now ≡ 256 }
    requires of_slots { AreOfSlots trace.now.recording.past slots.now.items }
    requires sized { AreSized (deliveries_in trace.now.recording.past) copies.now }
    ensures { MatchBool result
        ((j : ℕ) × (slot_number slots.now.items slot.dest.0 slot.rsn ≡ Some j) ×
        (j ≡ number → ⊥) × HasCopy copies.now j)
        ((j : ℕ) → slot_number slots.now.items slot.dest.0 slot.rsn ≡ Some j →
        HasCopy copies.now j → j ≡ number) }
{
    match slot_number(slots, slot) {
        Some(other) => other != number && has_copy(copies, other),
        None => false,
    }
}

/// Notes a determinant with a copy in its slot, unless another one with a copy is there. Returns the least slot with
/// such rivals so far.
fn note_det(
    slots: &mut Vec<Vec<Option<u32>>>,
    copies: &CopyTable,
    trace: &Trace,
    det: Det,
    least: Option<Slot>,
) -> Result<Option<Slot>, NoMemory>
    requires count { vec_len slots.old ≡ 256 }
    requires of_slots { AreOfSlots trace.now.recording.past slots.old.items }
    requires sized { AreSized (deliveries_in trace.now.recording.past) copies.now }
    requires copied { IsCopied trace.now.recording.past copies.now det }
    ensures count { vec_len slots.new ≡ 256 }
    ensures noted { IfOk result (λ now. (test : Determinant → Bool) →
        AreNoted trace.now.recording.past copies.now slots.old.items least test →
        AreNoted trace.now.recording.past copies.now slots.new.items now
        (λ d. test d || same_det d det)) }
    ensures of_slots { IfOk result (λ now.
        AreOfSlots trace.now.recording.past slots.new.items) }
{
    let number = number_of(trace, det);
    if has_rival(slots, copies, trace, det.slot(), number) {
        return Ok(Some(lower_slot(least, det.slot())));
    }
    set_number(slots, det.slot(), number)?;
    Ok(least)
}

/// Notes determinants with copies in their slots. Returns the least slot with another one with a copy, if there is one.
pub fn note_dets(
    slots: &mut Vec<Vec<Option<u32>>>,
    copies: &CopyTable,
    trace: &Trace,
    dets: &[Det],
) -> Result<Option<Slot>, NoMemory>
    requires count { vec_len slots.old ≡ 256 }
    requires of_slots { AreOfSlots trace.now.recording.past slots.old.items }
    requires sized { AreSized (deliveries_in trace.now.recording.past) copies.now }
    requires copied { (d : Determinant) → list_has dets.now d ≡ true →
        IsCopied trace.now.recording.past copies.now d }
    ensures count { vec_len slots.new ≡ 256 }
    ensures noted { IfOk result (λ least. (test : Determinant → Bool) →
        AreNoted trace.now.recording.past copies.now slots.old.items None test →
        AreNoted trace.now.recording.past copies.now slots.new.items least
        (λ d. test d || list_has dets.now d)) }
{
    let mut least = None;
    for det in dets {
        least = note_det(slots, copies, trace, *det, least)?;
    }
    Ok(least)
}
