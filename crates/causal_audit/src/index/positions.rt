//! The positions of the deliveries.
ghost use Rattle.std.specs.Prelude.{◌≤◌, IfOk, length};
ghost use Rattle.causal_trace.specs.declared.entry.Entry.{Entry};
ghost use Rattle.causal_trace.specs.Limits.{max_entries};
ghost use Rattle.causal_audit.specs.Numbers.{ArePositions};
ghost use Rattle.causal_audit.specs.Inside.Index.Lists.{past_of};
ghost use Rattle.causal_audit.specs.Inside.Index.Positions.{ArePositionsAfter};

use causal_name::NoMemory;
use causal_trace::entry::Entry;
use std::alloc::Global;

/// Appends the position of an entry, if it is a delivery.
fn note(positions: &mut Vec<u32>, entry: &Entry, i: u32) -> Result<(), NoMemory>
    ensures { IfOk result
        (λ _. ArePositionsAfter entry.now i positions.old.items positions.new.items) }
{
    match entry {
        Entry::Deliver { .. } => Ok(positions.push(i)?),
        _ => Ok(()),
    }
}

/// Returns the ascending positions of the deliveries.
///
/// # Errors
/// `NoMemory` if allocation fails.
pub fn positions_of(alloc: Global, entries: &[Entry]) -> Result<Vec<u32>, NoMemory>
    requires { length entries.now ≤ max_entries }
    ensures { IfOk result (λ positions. ArePositions (past_of entries.now) positions.items) }
{
    let mut positions = Vec::new(alloc);
    for (i, entry) in entries.iter().enumerate() {
        note(&mut positions, entry, i as u32)?;
    }
    Ok(positions)
}
