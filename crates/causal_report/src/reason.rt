//! The text that explains a verdict on a trace.
ghost use Rattle.std.specs.Prelude.{◌≡◌, ◌++◌, ℕ, List, IfOk};
ghost use Rattle.causal_audit.specs.Verdicts.{IsVerdict};
ghost use Rattle.causal_report.specs.Reasons.{IsReasonText};

use crate::facts::facts_of;
use causal_answers::facts_text;
use causal_audit::Verdict;
use causal_name::NoMemory;
use causal_trace::trace::Trace;
use std::alloc::Global;

/// Appends the lines of [`facts_of`] to the line of the verdict on a trace for f.
///
/// # Errors
/// `NoMemory` if allocation failed.
pub fn line_with_reason(
    alloc: Global,
    line: Vec<u8>,
    trace: &Trace,
    f: u16,
    verdict: Verdict,
) -> Result<Vec<u8>, NoMemory>
    requires { IsVerdict trace.now.recording f verdict }
    ensures { IfOk result (λ text. (reason : List ℕ)
        × IsReasonText trace.now.recording f verdict reason × (text.items ≡ line.items ++ reason)) }
{
    let facts = facts_of(alloc, trace, f, verdict)?;
    let reason = facts_text(alloc, facts.as_slice())?;
    let mut text = line;
    text.extend_from_slice(reason.as_slice())?;
    Ok(text)
}
