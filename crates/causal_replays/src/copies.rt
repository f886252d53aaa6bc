//! The copies of all determinants, entry by entry.
ghost use Rattle.std.specs.Prelude.{◌≡◌, ◌<◌, ◌∷◌, ◌||◌, ◌&&◌, ◌==◌, ◌↔◌, ℕ, List, All, not, true, false, Some, IfOk, OnOk};
ghost use Rattle.causal_name.specs.declared.Det.{Det};
ghost use Rattle.causal_name.specs.Names.{same_det};
ghost use Rattle.causal_trace.specs.declared.entry.Entry.{Entry};
ghost use Rattle.causal_trace.specs.Past.{deliveries_in, list_has, mentioned_dets};
ghost use Rattle.causal_replays.specs.Inside.Holdings.{holds};
ghost use Rattle.causal_replays.specs.Inside.Copies.{copied_by, is_stored, number_in, IsCopyTable, AreSized, HasCopy, HasNumber};

use crate::holdings::{add_holder, clear_log, has_holder, remove_holder};
use crate::slots::empty_process_lists;
use causal_holders::Holders;
use causal_name::{Det, NoMemory};
use causal_trace::entry::Entry;
use causal_trace::trace::Trace;
use std::alloc::Global;
use std::slice;

/// The copies of each determinant after some entries, by number. `logs` contains for each process the numbers in its
/// log, and perhaps others.
#[derive(Drop)]
pub struct CopyTable {
    pub holders: Vec<Holders>,
    pub stable: Vec<bool>,
    pub logs: Vec<Vec<u32>>,
}

/// Returns the number of a determinant of this trace.
pub fn number_of(trace: &Trace, det: Det) -> u32
    requires { HasNumber trace.now.recording.past det }
    ensures value { number_in trace.now.recording.past det ≡ Some result }
    ensures below { result < deliveries_in trace.now.recording.past }
{
    let Some(number) = trace.delivery_of(det, trace.deliveries() as usize) else {
        unreachable!();
    };
    number
}

/// Returns the value for `count` determinants without copies.
pub fn empty_copy_table(alloc: Global, count: usize) -> Result<CopyTable, NoMemory>
    ensures sized { IfOk result (AreSized count) }
    ensures unheld { IfOk result (λ c. (i p : ℕ) → holds c.holders.items i p ≡ false) }
    ensures unstored { IfOk result (λ c. (i : ℕ) → is_stored c.stable.items i ≡ false) }
{
    Ok(CopyTable {
        holders: vec![in alloc; Holders::none(); count]?,
        stable: vec![in alloc; false; count]?,
        logs: empty_process_lists(alloc)?,
    })
}

/// Returns whether the determinant with this number has a copy.
pub fn has_copy(copies: &CopyTable, number: u32) -> bool
    requires { (count : ℕ) × AreSized count copies.now × (number < count) }
    ensures { (result ≡ true) ↔ HasCopy copies.now number }
{
    copies.stable[number as usize] || has_holder(&copies.holders, number)
}

/// Adds the determinant to the log of a process.
fn log_det(copies: &mut CopyTable, trace: &Trace, who: u8, det: Det) -> Result<(), NoMemory>
    requires sized { AreSized (deliveries_in trace.now.recording.past) copies.old }
    requires number { HasNumber trace.now.recording.past det }
    ensures held { OnOk result ((d : Det) (i p : ℕ) →
        number_in trace.now.recording.past d ≡ Some i → holds copies.new.holders.items i p ≡
        ((who == p && same_det d det) || holds copies.old.holders.items i p)) }
    ensures stored { copies.new.stable.items ≡ copies.old.stable.items }
    ensures sized { OnOk result
        (AreSized (deliveries_in trace.now.recording.past) copies.new) }
{
    let number = number_of(trace, det);
    add_holder(&mut copies.holders, &mut copies.logs, number, who)
}

/// Adds the determinants to the log of a process.
fn log_dets(copies: &mut CopyTable, trace: &Trace, who: u8, listed: &[Det]) -> Result<(), NoMemory>
    requires sized { AreSized (deliveries_in trace.now.recording.past) copies.old }
    requires numbers { All (HasNumber trace.now.recording.past) listed.now }
    ensures held { OnOk result ((d : Det) (i p : ℕ) →
        number_in trace.now.recording.past d ≡ Some i → holds copies.new.holders.items i p ≡
        ((who == p && list_has listed.now d) || holds copies.old.holders.items i p)) }
    ensures stored { copies.new.stable.items ≡ copies.old.stable.items }
    ensures sized { OnOk result
        (AreSized (deliveries_in trace.now.recording.past) copies.new) }
{
    for det in listed {
        log_det(copies, trace, who, *det)?;
    }
    Ok(())
}

/// Removes the determinant from the log of a process.
fn forget_det(copies: &mut CopyTable, trace: &Trace, who: u8, det: Det)
    requires sized { AreSized (deliveries_in trace.now.recording.past) copies.old }
    requires number { HasNumber trace.now.recording.past det }
    ensures held { (d : Det) (i p : ℕ) →
        number_in trace.now.recording.past d ≡ Some i → holds copies.new.holders.items i p ≡
        (not (who == p && same_det d det) && holds copies.old.holders.items i p) }
    ensures stored { copies.new.stable.items ≡ copies.old.stable.items }
    ensures sized { AreSized (deliveries_in trace.now.recording.past) copies.new }
{
    let number = number_of(trace, det);
    remove_holder(&mut copies.holders, number, who);
}

/// Removes the determinants from the log of a process.
fn forget_dets(copies: &mut CopyTable, trace: &Trace, who: u8, listed: &[Det])
    requires sized { AreSized (deliveries_in trace.now.recording.past) copies.old }
    requires numbers { All (HasNumber trace.now.recording.past) listed.now }
    ensures held { (d : Det) (i p : ℕ) →
        number_in trace.now.recording.past d ≡ Some i → holds copies.new.holders.items i p ≡
        (not (who == p && list_has listed.now d) && holds copies.old.holders.items i p) }
    ensures stored { copies.new.stable.items ≡ copies.old.stable.items }
    ensures sized { AreSized (deliveries_in trace.now.recording.past) copies.new }
{
    for det in listed {
        forget_det(copies, trace, who, *det);
    }
}

/// Writes the determinant to stable storage.
fn store_det(copies: &mut CopyTable, trace: &Trace, det: Det)
    requires sized { AreSized (deliveries_in trace.now.recording.past) copies.old }
    requires number { HasNumber trace.now.recording.past det }
    ensures stored { (d : Det) (i : ℕ) →
        number_in trace.now.recording.past d ≡ Some i → is_stored copies.new.stable.items i ≡
        (same_det d det || is_stored copies.old.stable.items i) }
    ensures held { copies.new.holders.items ≡ copies.old.holders.items }
    ensures sized { AreSized (deliveries_in trace.now.recording.past) copies.new }
{
    let number = number_of(trace, det);
    copies.stable[number as usize] = true;
}

/// Updates the copies by one more entry of the trace.
pub fn apply_entry(copies: &mut CopyTable, trace: &Trace, entry: &Entry) -> Result<(), NoMemory>
    requires sized { AreSized (deliveries_in trace.now.recording.past) copies.old }
    requires numbers { All (HasNumber trace.now.recording.past) (mentioned_dets entry.now) }
    ensures copies { OnOk result ((past : List Entry) →
        IsCopyTable trace.now.recording.past past copies.old →
        IsCopyTable trace.now.recording.past (entry.now ∷ past) copies.new) }
    ensures sized { OnOk result
        (AreSized (deliveries_in trace.now.recording.past) copies.new) }
{
    match entry {
        Entry::Deliver { to, listed, .. } => log_dets(copies, trace, to.0, listed.as_slice()),
        Entry::Restart { who, listed } => log_dets(copies, trace, who.0, listed.as_slice()),
        Entry::Stable { det } => {
            store_det(copies, trace, *det);
            Ok(())
        }
        Entry::Crash { who } => {
            clear_log(&mut copies.holders, &mut copies.logs, who.0);
            Ok(())
        }
        Entry::Forget { who, listed } => {
            forget_dets(copies, trace, who.0, listed.as_slice());
            Ok(())
        }
        Entry::Send { .. } => Ok(()),
    }
}

/// Returns the determinants of which an entry makes copies.
pub fn copied_by(entry: &Entry) -> &[Det]
    ensures { result.now ≡ copied_by entry.now }
{
    match entry {
        Entry::Stable { det } => slice::from_ref(det),
        Entry::Deliver { listed, .. } => listed.as_slice(),
        Entry::Restart { listed, .. } => listed.as_slice(),
        _ => &[],
    }
}
