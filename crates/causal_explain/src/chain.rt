//! Shortest chains of events to a process.
ghost use Rattle.std.specs.Prelude.{◌≤◌, ℕ, List, IfOk, IfSome, length};
ghost use Rattle.std.specs.Option.{option_map};
ghost use Rattle.causal_trace.specs.declared.entry.Entry.{Entry};
ghost use Rattle.causal_trace.specs.Past.{instant};
ghost use Rattle.causal_explain.specs.Chains.{ShortestChain};
ghost use Rattle.causal_explain.specs.Inside.ShortestPaths.{ArePathSteps, IsLeastDistance, IsPathToNearest};

use crate::paths::{ShortestPaths, path_to, shortest_paths};
use causal_name::NoMemory;
use causal_trace::trace::Trace;
use std::alloc::Global;

/// Returns a shortest list of positions from the event at `from` to an event of the process's present lane
/// (incarnation), among the first `end` entries, in which each event directly precedes the next; None if no list does.
///
/// It takes O(`end`) time and memory, in one scan of these entries. It stores the nearest event of each lane, and the
/// predecessor of each entry.
///
/// # Errors
/// `NoMemory` if an allocation failed.
pub fn shortest_chain(
    alloc: Global,
    trace: &Trace,
    end: u32,
    from: u32,
    process: u8,
) -> Result<Option<Vec<u32>>, NoMemory>
    requires { end ≤ length trace.now.recording.past }
    ensures { IfOk result
        (λ found. ShortestChain (instant trace.now.recording.past end) from process
        (option_map (λ chain. chain.items) found)) }
{
    let ways = shortest_paths(alloc, &trace.entries()[..end as usize], from, process)?;
    trace_back(alloc, &ways)
}

/// Returns the events of the path to the nearest event, from the first on; None if none is reached.
fn trace_back(alloc: Global, ways: &ShortestPaths) -> Result<Option<Vec<u32>>, NoMemory>
    ensures { IfOk result (λ found. (past : List Entry) (i : ℕ) →
        ArePathSteps past i ways.now.each.items
        → IfSome ways.now.nearest (λ x. IsLeastDistance past i x.position x.steps)
        → IsPathToNearest past i ways.now.nearest (option_map (λ chain. chain.items) found)) }
{
    match ways.nearest {
        Some(nearest) => Ok(Some(path_to(alloc, ways.each.as_slice(), nearest)?)),
        None => Ok(None),
    }
}
