//! The bounds f for which a run is safe.
ghost use Rattle.std.specs.Prelude.{◌≡◌, ◌<◌, ◌≤◌, ℕ, None, IfOk};
ghost use Rattle.causal_audit.specs.Breaches.{FirstExcess};
ghost use Rattle.causal_explain.specs.Ranges.{HasExcessInstant, IsSafeRange};

use crate::closest::{Closest, closest_failure};
use causal_audit::{Verdict, first_excess_in, verdict_of};
use causal_name::NoMemory;
use causal_trace::trace::Trace;
use std::alloc::Global;

/// Bounds f: those that are at least `from` and, if `below` is given, less than `below`.
#[derive(Clone, Copy)]
pub struct SafeRange {
    pub from: u16,
    pub below: Option<u16>,
}

/// Returns the bounds f for which a run is safe: from the greatest number of processes that are down at once up to, but
/// without, the least bound for which a delivery has an orphan. There may be none between.
///
/// The first bound takes at most ten passes over the entries, the other at most some twenty audits
/// ([`closest_failure`]).
///
/// # Errors
/// `NoMemory` if an allocation failed.
pub fn safe_range(alloc: Global, trace: &Trace) -> Result<SafeRange, NoMemory>
    ensures { IfOk result (IsSafeRange trace.now.recording) }
{
    let from = most_down(trace);
    match verdict_of(alloc, trace, from)? {
        Verdict::Accept => match closest_failure(alloc, trace, from)? {
            Closest::Never => Ok(SafeRange { from, below: None }),
            Closest::At { faults, .. } => Ok(SafeRange {
                from,
                below: Some(faults),
            }),
        },
        _ => Ok(SafeRange {
            from,
            below: Some(from),
        }),
    }
}

/// Returns the greatest number of processes that are down at once. Each pass over the entries halves the interval.
#[tactic(auto, using(crate::proofs::RangeLemmas::all_at_most))]
fn most_down(trace: &Trace) -> u16
    ensures most { FirstExcess trace.now.recording result None }
    ensures fewer { (f : ℕ) → f < result → HasExcessInstant trace.now.recording f }
{
    let mut low = 0;
    let mut high = trace.processes();
    while low < high {
        let asked = low + (high - low) / 2;
        match first_excess_in(trace, asked) {
            Some(_) => low = asked + 1,
            None => high = asked,
        }
    }
    low
}
