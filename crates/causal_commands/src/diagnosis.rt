//! The diagnosis of an invalid trace: what is wrong with the line of its first error, and the verdict on the entries
//! before that line. It is computed from the error's context, after the answer is written.
ghost use Rattle.std.specs.Prelude.{List, ℕ, IfOk, IfSome};
ghost use Rattle.causal_text.specs.FaultContexts.{IsContextWithin};
ghost use Rattle.causal_commands.specs.Inside.Refusals.{IsTrueRefusal};
ghost use Rattle.causal_outcomes.specs.Diagnostics.{IsTrueDiagnosis, IsDiagnosticOf};
ghost use Rattle.causal_audit.specs.Judgements.{IsJudgedOf};

use crate::serial_audit::judge_serially;
use causal_name::NoMemory;
use causal_outcomes::{DiagnosedFault, Diagnostic};
use causal_text::{FaultContext, ParsedLine, TextFault, TextRefusal, fault_detail};
use causal_trace::trace::Trace;
use causal_workers::Judged;
use std::alloc::Global;

/// Returns the error of a text with its diagnostic for f. It audits the entries before the error on the calling thread.
pub(crate) fn diagnose(
    alloc: Global,
    f: u16,
    rejected: Option<TextRefusal>,
) -> Option<DiagnosedFault>
    ensures { (most : ℕ) (text : List ℕ) → IfSome rejected (IsTrueRefusal most text)
        → IfSome result (IsTrueDiagnosis most text f) }
{
    let TextRefusal {
        fault,
        context: before,
    } = rejected?;
    Some(DiagnosedFault {
        fault,
        diagnostic: diagnostic_of(alloc, f, fault, before),
    })
}

fn diagnostic_of(
    alloc: Global,
    f: u16,
    fault: TextFault,
    before: Option<FaultContext>,
) -> Option<Diagnostic>
    ensures { (most : ℕ) (text : List ℕ)
        → IfSome before (λ at. IsContextWithin most text fault.line at.trace.recording at.parsed_line)
        → IfSome result (IsDiagnosticOf most text f fault) }
{
    let before = before?;
    match make_diagnostic(alloc, &before, f, fault) {
        Ok(remark) => Some(remark),
        Err(NoMemory) => None,
    }
}

fn make_diagnostic(
    alloc: Global,
    before: &FaultContext,
    f: u16,
    fault: TextFault,
) -> Result<Diagnostic, NoMemory>
    ensures { IfOk result (λ remark. (most : ℕ) (text : List ℕ)
        → IsContextWithin most text fault.line before.now.trace.recording before.now.parsed_line
        → IsDiagnosticOf most text f fault remark) }
{
    Ok(Diagnostic {
        wrong: fault_detail(alloc, &before.trace, &before.parsed_line, fault.kind)?,
        before: judge_entries_before(alloc, &before.trace, &before.parsed_line, f)?,
    })
}

/// Returns the verdict on the entries before a line, with their counts; None if the line is not an entry.
fn judge_entries_before(
    alloc: Global,
    trace: &Trace,
    says: &ParsedLine,
    f: u16,
) -> Result<Option<Judged>, NoMemory>
    ensures { IfOk result (λ told. IfSome told (IsJudgedOf trace.now.recording f)) }
{
    match says {
        ParsedLine::Entry { .. } => Ok(Some(judge_serially(alloc, trace, f)?)),
        ParsedLine::Header { .. } | ParsedLine::End { .. } => Ok(None),
    }
}
