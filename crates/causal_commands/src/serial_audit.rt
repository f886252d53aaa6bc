//! The audit of a trace by the calling thread alone.
ghost use Rattle.std.specs.Prelude.{IfOk};
ghost use Rattle.causal_audit.specs.Judgements.{IsJudgedOf};

use causal_audit::{Judged, verdict_of};
use causal_name::NoMemory;
use causal_trace::trace::Trace;
use std::alloc::Global;

/// Returns the verdict on a trace for f, with the trace's counts.
pub(crate) fn judge_serially(alloc: Global, trace: &Trace, f: u16) -> Result<Judged, NoMemory>
    ensures { IfOk result (IsJudgedOf trace.now.recording f) }
{
    Ok(Judged {
        verdict: verdict_of(alloc, trace, f)?,
        entries: trace.len(),
        deliveries: trace.deliveries(),
    })
}
