//! The answer to the text of a trace, and its output.
ghost use Rattle.std.specs.Prelude.{◌≡◌, ◌≢◌, ℕ, List, Option};
ghost use Rattle.causal_outcomes.specs.Diagnostics.{IsDiagnosisFor};
ghost use Rattle.causal_commands.specs.Inside.Answers.{WritesWholeAnswer, IsWritten};
ghost use Rattle.causal_commands.specs.Inside.Refusals.{IsTrueRefusalFor};

use crate::diagnosis::diagnose;
use causal_audit::verdict::Verdict;
use causal_outcomes::{DiagnosedFault, Ended, Outcome};
use causal_text::{TextRefusal, write_whole};
use std::alloc::Global;
use std::io::Write;

/// The line that answers a text, the ending after it is written, and, if it reports an error, that error with its
/// context.
#[derive(Drop)]
pub(crate) struct PrintedAnswer {
    pub ended: Ended,
    pub line: Vec<u8>,
    pub refusal: Option<TextRefusal>,
}

/// Writes an answer and returns the outcome: the ending, and the diagnosis for f of the error that the answer reports,
/// if any.
pub(crate) fn write_answer<O: Write>(
    alloc: Global,
    output: &mut O,
    f: u16,
    answer: PrintedAnswer,
) -> Outcome<DiagnosedFault>
    requires { WritesWholeAnswer answer.ended }
    ensures written { IsWritten answer result.ended
        (O.contents output.old) (O.contents output.new) }
    ensures fault { (most : ℕ) (given : Option (List ℕ)) →
        IsTrueRefusalFor most given answer.refusal
        → IsDiagnosisFor most given f result.fault }
    ensures never_no_worker { result.ended ≢ Ended.NoWorker }
{
    let PrintedAnswer {
        ended,
        line,
        refusal: rejected,
    } = answer;
    let ended = match write_whole(line.as_slice(), output) {
        Ok(()) => ended,
        Err(_) => Ended::WriteFault,
    };
    let fault = diagnose(alloc, f, rejected);
    Outcome { ended, fault }
}

/// Returns the ending after the line of this verdict is written.
pub(crate) fn ended_of(verdict: Verdict) -> Ended
    ensures accepted { verdict ≡ Verdict.Accept → result ≡ Ended.Accepted }
    ensures breached { verdict ≢ Verdict.Accept → result ≡ Ended.Breached }
    ensures whole_answer { WritesWholeAnswer result }
{
    match verdict {
        Verdict::Accept => Ended::Accepted,
        Verdict::Exceeded { .. } | Verdict::Orphan { .. } => Ended::Breached,
    }
}
