//! The first instant at which a run strays from what survives.
ghost use Rattle.std.specs.Prelude.{◌≡◌, None, IfOk, MatchOption, vec_len};
ghost use Rattle.causal_trace.specs.Past.{deliveries_in, instant};
ghost use Rattle.causal_trace.specs.Survivors.{IsFollowed, survives};
ghost use Rattle.causal_replays.specs.Strays.{IsFirstStray};
ghost use Rattle.causal_replays.specs.Inside.Copies.{AreSized, IsCopyTable};
ghost use Rattle.causal_replays.specs.Inside.Rivals.{AreNoted};

use crate::copies::{CopyTable, apply_entry, copied_by, empty_copy_table};
use crate::rivals::note_dets;
use crate::search::first_two;
use crate::slots::empty_process_lists;
use causal_facts::Stray;
use causal_name::NoMemory;
use causal_trace::trace::Trace;
use std::alloc::Global;

/// Returns the first instant at which two different determinants that survive fill one slot, the least such slot, and
/// the first deliveries of two such determinants; `None` if each slot has at most one survivor at each instant. A
/// determinant survives if it is stable or in the log of a process (Alvisi and Marzullo 1998).
///
/// One pass: O(entries + listed determinants) steps, each with O(lanes that delivered the message) for a determinant's
/// number. It needs 33 bytes for each delivery, 8 for each slot, and 4 for each determinant in a log.
///
/// # Errors
/// `NoMemory` if an allocation failed.
pub fn first_stray(alloc: Global, trace: &Trace) -> Result<Option<Stray>, NoMemory>
    ensures { IfOk result (λ stray. MatchOption stray
        (IsFollowed trace.now.recording) (IsFirstStray trace.now.recording)) }
{
    let mut copies = empty_copy_table(alloc, trace.deliveries() as usize)?;
    let mut slots = empty_process_lists(alloc)?;
    stray_in(trace, &mut copies, &mut slots)
}

/// Returns the first instant at which a run strays, as `first_stray` does, given the copies and the slots before the first
/// entry.
///
/// # Errors
/// `NoMemory` if an allocation failed.
fn stray_in(
    trace: &Trace,
    copies: &mut CopyTable,
    slots: &mut Vec<Vec<Option<u32>>>,
) -> Result<Option<Stray>, NoMemory>
    requires sized { AreSized (deliveries_in trace.now.recording.past) copies.old }
    requires count { vec_len slots.old ≡ 256 }
    requires copied { IsCopyTable trace.now.recording.past
        (instant trace.now.recording.past 0) copies.old }
    requires noted { AreNoted trace.now.recording.past copies.old slots.old.items None
        (survives trace.now.recording.processes (instant trace.now.recording.past 0)) }
    ensures { IfOk result (λ stray. MatchOption stray
        (IsFollowed trace.now.recording) (IsFirstStray trace.now.recording)) }
{
    let recorded = trace.entries();
    for (t, entry) in recorded.iter().enumerate() {
        apply_entry(copies, trace, entry)?;
        if let Some(slot) = note_dets(slots, &*copies, trace, copied_by(entry))? {
            let instant = t as u32 + 1;
            let (first, second) = first_two(trace, &*copies, slot, instant);
            return Ok(Some(Stray {
                instant,
                slot,
                first,
                second,
            }));
        }
    }
    Ok(None)
}
