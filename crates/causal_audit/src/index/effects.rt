//! When the effect of each event first leaves its process, and which processes the events of each reach: by one pass over
//! the entries, from the last to the first.
ghost use Rattle.std.specs.Prelude.{◌≤◌, IfOk, length};
ghost use Rattle.causal_trace.specs.Limits.{max_entries};
ghost use Rattle.causal_audit.specs.Inside.Index.Parts.{AreEffectsOf};

use crate::index::departures::{event_process, note_departure};
use crate::index::reachability::note_send;
use causal_holders::{Holders, PROCESSES};
use causal_name::NoMemory;
use causal_trace::entry::Entry;
use std::alloc::Global;

/// Returns for each entry the first position at which a message that its process sends from then on is delivered, or
/// the end; and for each process those that its events reach.
///
/// # Errors
/// `NoMemory` if allocation fails.
pub fn effects_of(alloc: Global, entries: &[Entry]) -> Result<(Vec<u32>, Vec<Holders>), NoMemory>
    requires few { length entries.now ≤ max_entries }
    ensures { IfOk result (λ effects. AreEffectsOf entries.now effects.0.items effects.1.items) }
{
    let end = entries.len() as u32;
    let mut departures = vec![in alloc; end; entries.len()]?;
    let mut sets = vec![in alloc; Holders::none(); PROCESSES as usize]?;
    let mut outs = [end; PROCESSES as usize];
    let mut i = end;
    while i > 0 {
        i -= 1;
        let entry = &entries[i as usize];
        note_send(&mut sets, entry);
        note_departure(
            &mut departures,
            &mut outs,
            entry,
            event_process(entry) as usize,
            i,
        );
    }
    Ok((departures, sets))
}
