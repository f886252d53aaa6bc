//! Audits of texts and traces on the calling thread.
ghost use Rattle.std.specs.Prelude.{◌≡◌, IfOk, IfErr};
ghost use Rattle.causal_text.specs.Spelling.{Spells};
ghost use Rattle.causal_audit.specs.Judgements.{IsJudgedOf};
ghost use Rattle.nixu.specs.CVerdicts.{IsJudgementOfText};
ghost use Rattle.nixu.specs.TextErrors.{IsTextErrorOf};

use causal_audit::{Judged, verdict_of};
use causal_text::{TextFault, TextKind, read_trace};
use causal_trace::Trace;
use std::alloc::Global;

/// Why a text was not audited.
#[derive(Clone, Copy)]
pub(crate) enum TextError {
    /// The text does not spell a trace; this is its first error.
    Fault(TextFault),
    /// Allocation failed.
    NoMemory,
}

impl From<causal_name::NoMemory> for TextError {
    ghost use Rattle.nixu.specs.declared.judgement.TextError.TheVariants as failure;
    ghost use Rattle.std.specs.Prelude.{◌≡◌};

    ghost from_gives = { λ _ verdict. verdict ≡ failure.NoMemory };

    fn from(_refused: causal_name::NoMemory) -> TextError {
        TextError::NoMemory
    }
}

/// Parses the trace that a text spells.
///
/// # Errors
/// `Fault` with the first error if the text does not spell a trace; `NoMemory` if allocation failed.
pub(crate) fn parse_trace(alloc: Global, text: &[u8]) -> Result<Trace, TextError>
    ensures ok { IfOk result (λ trace. Spells text.now trace.recording) }
    ensures err { IfErr result (IsTextErrorOf text.now) }
{
    match read_trace(alloc, text) {
        Ok(trace) => Ok(trace),
        Err(fault) => match fault.kind {
            TextKind::NoMemory => Err(TextError::NoMemory),
            _ => Err(TextError::Fault(fault)),
        },
    }
}

/// The verdict on a trace with failure bound `faults`, and the trace's counts.
///
/// # Errors
/// `NoMemory` if allocation failed.
pub(crate) fn judgement_of(
    alloc: Global,
    trace: &Trace,
    faults: u16,
) -> Result<Judged, causal_name::NoMemory>
    ensures { IfOk result (IsJudgedOf trace.now.recording faults) }
{
    Ok(Judged {
        verdict: verdict_of(alloc, trace, faults)?,
        entries: trace.len(),
        deliveries: trace.deliveries(),
    })
}

/// The verdict on the trace that a text spells, with failure bound `faults`.
///
/// # Errors
/// Those of [`parse_trace`].
pub(crate) fn judge_text(alloc: Global, text: &[u8], faults: u16) -> Result<Judged, TextError>
    ensures ok { IfOk result (IsJudgementOfText text.now faults) }
    ensures err { IfErr result (IsTextErrorOf text.now) }
{
    let trace = parse_trace(alloc, text)?;
    let judged = judgement_of(alloc, &trace, faults)?;
    Ok(judged)
}
