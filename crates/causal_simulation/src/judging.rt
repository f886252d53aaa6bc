//! What becomes of a run: its recordings are merged, audited, and its recoveries compared.
use crate::settings::Rule;
use crate::stop::{Stop, Wrong};
use causal_audit::{Verdict, verdict_of};
use causal_line::kind::TextKind;
use causal_merge::{MergeKind, merge_text};
use causal_name::NoMemory;
use causal_replays::first_stray;
use causal_trace::trace::Trace;
use std::alloc::Global;

/// Returns what the audit and the comparison say of a trace.
fn judge_trace(alloc: Global, trace: &Trace, faults: u8) -> Result<Option<Wrong>, NoMemory> {
    match verdict_of(alloc, trace, u16::from(faults))? {
        Verdict::Exceeded { .. } => return Ok(Some(Wrong::Exceeded)),
        Verdict::Orphan { .. } => return Ok(Some(Wrong::Orphan)),
        Verdict::Accept => {}
    }
    match first_stray(alloc, trace)? {
        Some(_) => Ok(Some(Wrong::Strayed)),
        None => Ok(None),
    }
}

/// Returns what is wrong with recordings that have so many events.
pub fn judge_recordings(
    alloc: Global,
    text: &[u8],
    events: u32,
    faults: u8,
) -> Result<Option<Wrong>, NoMemory> {
    let trace = match merge_text(alloc, text) {
        Ok(merged) => merged.trace,
        Err(fault) if fault.kind == MergeKind::Line(TextKind::NoMemory) => return Err(NoMemory),
        Err(_) => return Ok(Some(Wrong::Merge)),
    };
    if trace.len() != events {
        return Ok(Some(Wrong::Lines));
    }
    judge_trace(alloc, &trace, faults)
}

/// Returns what is wrong with a run that ended so, and whose recordings gave this. A broken rule has to be found in
/// what the processes did: that they cannot go on counts only if nothing else follows from it.
pub fn conclude(
    broken: Option<Rule>,
    outcome: Result<(), Stop>,
    found: Option<Wrong>,
) -> Option<Wrong> {
    match (outcome, found) {
        (_, Some(wrong)) => Some(wrong),
        (Err(Stop::Wrong(Wrong::Differs)), None) => Some(Wrong::Differs),
        (Err(Stop::Wrong(wrong)), None) => match broken {
            None | Some(Rule::NoResend) => Some(wrong),
            _ => None,
        },
        _ => None,
    }
}
