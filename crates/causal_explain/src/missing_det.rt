//! The deliveries after which the receiver's log lacks a determinant.
ghost use Rattle.std.specs.Prelude.{◌≡◌, ◌≤◌, IfOk, length};
ghost use Rattle.causal_trace.specs.Past.{instant};
ghost use Rattle.causal_explain.specs.Chains.{first_lacking};
ghost use Rattle.causal_explain.specs.Inside.Marks.{first_in};

use crate::marks::{EventKind, events_of_kind, is_marked};
use causal_name::{Det, NoMemory};
use causal_trace::trace::Trace;
use std::alloc::Global;

/// Returns the first of these positions, among the first `end` entries, with a delivery after which its receiver's log
/// lacks the determinant.
pub(crate) fn first_lacking(
    alloc: Global,
    trace: &Trace,
    end: u32,
    chain: &[u32],
    det: Det,
) -> Result<Option<u32>, NoMemory>
    requires { end ≤ length trace.now.recording.past }
    ensures { IfOk result
        (λ found. found ≡ first_lacking (instant trace.now.recording.past end) det chain.now) }
{
    let marks = events_of_kind(
        alloc,
        EventKind::DeliveryWithoutDet,
        &trace.entries()[..end as usize],
        det,
    )?;
    Ok(first_in(marks.as_slice(), chain))
}

/// Returns the first of these positions that is marked.
fn first_in(marked: &[bool], positions: &[u32]) -> Option<u32>
    ensures { result ≡ first_in marked.now positions.now }
{
    positions
        .iter()
        .copied()
        .find(|position| is_marked(marked, *position))
}
