//! The command `draw`, over any reader and writer: a picture of a trace with its verdict.
ghost use Rattle.std.specs.Prelude.{◌≡◌, ◌≢◌, ◌≤◌, ℕ, List, IfOk, IfErr, IfSome, Err};
ghost use Rattle.causal_text.specs.Spelling.{SpellsWithin};
ghost use Rattle.causal_text.specs.Streams.{StopsWithin};
ghost use Rattle.causal_reading.specs.Reads.{max_read};
ghost use Rattle.causal_picture.specs.declared.selection.Selection.{Selection};
ghost use Rattle.causal_commands.specs.Drawings.{WritesDrawingFor, IsDrawingAnswer, IsDrawn};
ghost use Rattle.causal_outcomes.specs.Diagnostics.{IsDiagnosisFor};
ghost use Rattle.causal_commands.specs.Inside.Answers.{IsDrawingAnswerFor, WritesNothing, WritesWholeAnswer, AnswerRefusalIsTrue};
ghost use Rattle.causal_commands.specs.Inside.Refusals.{ExplainsRefusal, IsTrueRefusal};

use crate::answer::{PrintedAnswer, ended_of, write_answer};
use crate::response::fault_response;
use crate::serial_audit::judge_serially;
use causal_name::NoMemory;
use causal_outcomes::{DiagnosedFault, Ended, Outcome};
use causal_picture::Selection;
use causal_reading::read_by;
use causal_report::selected_picture_with_verdict;
use causal_trace::limits::Limits;
use causal_trace::trace::Trace;
use causal_workers::{AuditFault, Judged, VerdictError};
use std::alloc::Global;
use std::io::{Read, Write};
use std::thread::Threads;

/// Reads the text of a trace within the limits by 1 to 64 workers, audits it for f by one, and writes the selected part of
/// its space-time diagram, as SVG. If the text is invalid, it writes nothing. The outcome reports a failure of the
/// reader, the writer or an allocation, and is never `NoWorker`.
///
/// The text is read in pieces, of 4,096 bytes with one worker and otherwise as `read_by` reads it, to its end or to the
/// piece with its first error.
pub fn answer_drawing<R: Threads, I: Read, O: Write>(
    rt: &R,
    alloc: Global,
    input: &mut I,
    output: &mut O,
    limits: Limits,
    f: u16,
    workers: u32,
    selection: Selection,
) -> Outcome<DiagnosedFault>
    requires { (1 ≤ workers) × (workers ≤ 64) }
    ensures writes { WritesDrawingFor limits.entries selection (I.remaining input.old) f
        result.ended (O.contents output.old) (O.contents output.new) }
    ensures fault { IsDiagnosisFor limits.entries (I.remaining input.old) f result.fault }
    ensures stops { StopsWithin limits.entries (max_read workers)
        (I.remaining input.old) (I.remaining input.new) }
    ensures never_no_worker { result.ended ≢ Ended.NoWorker }
{
    match drawing_answer(rt, alloc, input, limits, f, workers, selection) {
        Ok(answer) => write_answer(alloc, output, f, answer),
        Err(ended) => Outcome { ended, fault: None },
    }
}

fn drawing_answer<I: Read, R: Threads>(
    rt: &R,
    alloc: Global,
    input: &mut I,
    limits: Limits,
    f: u16,
    workers: u32,
    selection: Selection,
) -> Result<PrintedAnswer, Ended>
    requires { (1 ≤ workers) × (workers ≤ 64) }
    ensures ok { IfOk result (λ answer. IsDrawingAnswerFor limits.entries selection
        (I.remaining input.old) f answer.ended answer.line.items) }
    ensures rejected { AnswerRefusalIsTrue limits.entries (I.remaining input.old) result }
    ensures whole_answer { IfOk result (λ answer. WritesWholeAnswer answer.ended) }
    ensures err { IfErr result WritesNothing }
    ensures stops { StopsWithin limits.entries (max_read workers)
        (I.remaining input.old) (I.remaining input.new) }
    ensures never_no_worker { result ≢ Err Ended.NoWorker }
{
    let trace = match read_by(rt, alloc, input, limits, workers) {
        Ok(trace) => trace,
        Err(unread) => return fault_answer(alloc, VerdictError::Input(unread)),
    };
    match draw_trace(alloc, &trace, f, selection) {
        Ok(drawn) => Ok(PrintedAnswer {
            ended: ended_of(drawn.judged.verdict),
            line: drawn.picture,
            refusal: None,
        }),
        Err(NoMemory) => Err(Ended::NoMemory),
    }
}

/// Returns the answer to a text with an error, which draws nothing, or the ending if there is nothing to write.
fn fault_answer(alloc: Global, unjudged: VerdictError) -> Result<PrintedAnswer, Ended>
    ensures ok { IfOk result (λ answer. (most : ℕ) (selection : Selection) (text : List ℕ) (f : ℕ)
        → ExplainsRefusal most text unjudged
        → IsDrawingAnswer most selection text f answer.ended answer.line.items) }
    ensures rejected { IfOk result (λ answer. (most : ℕ) (text : List ℕ)
        → ExplainsRefusal most text unjudged
        → IfSome answer.refusal (IsTrueRefusal most text)) }
    ensures whole_answer { IfOk result (λ answer. WritesWholeAnswer answer.ended) }
    ensures err { IfErr result WritesNothing }
    ensures no_worker { result ≡ Err Ended.NoWorker
        → unjudged ≡ VerdictError.Audit AuditFault.NoWorker }
{
    match fault_response(alloc, unjudged) {
        Ok(response) => Ok(PrintedAnswer {
            ended: response.ended,
            line: Vec::new(alloc),
            refusal: response.refusal,
        }),
        Err(ended) => Err(ended),
    }
}

/// The verdict on a trace, and a picture of both.
#[derive(Drop)]
struct Drawn {
    judged: Judged,
    picture: Vec<u8>,
}

/// Audits a trace for f, and draws the selected part of it with its verdict.
fn draw_trace(alloc: Global, trace: &Trace, f: u16, selection: Selection) -> Result<Drawn, NoMemory>
    ensures { IfOk result (λ drawn. (most : ℕ) (text : List ℕ)
        → SpellsWithin most text trace.now.recording
        → IsDrawn most selection text f drawn.judged drawn.picture.items) }
{
    let judged = judge_serially(alloc, trace, f)?;
    let picture = selected_picture_with_verdict(alloc, trace, f, judged.verdict, selection)?;
    Ok(Drawn { judged, picture })
}
