//! Questions on a trace, and their answers, over any reader and writer.
ghost use Rattle.std.specs.Prelude.{◌≡◌, ◌≤◌, IfOk, IfErr, IfSome, Err};
ghost use Rattle.causal_commands.specs.PrintedAnswers.{WritesFor};
ghost use Rattle.causal_outcomes.specs.Diagnostics.{IsDiagnosisFor};
ghost use Rattle.causal_commands.specs.Questions as questions;
ghost use Rattle.causal_commands.specs.Answers.{IsAnswer};
ghost use Rattle.causal_commands.specs.Inside.Answers.{IsFaultless, IsOnWholeText, IsAnswerFor, IsAnswerOrError, AnswersOn, WritesNothing, WritesWholeAnswer, RefusalIsTrue};

use crate::answer::write_answer;
use crate::range::range_response;
use crate::reason::reason_response;
use crate::replays::replays_response;
use crate::response::{
    Response, fault_response, printed_answer, stream_response, verdict_response,
};
use causal_facts::Form;
use causal_outcomes::{DiagnosedFault, Ended, Outcome};
use causal_reading::read_by;
use causal_trace::limits::Limits;
use causal_trace::trace::Trace;
use causal_workers::{AuditFault, Gate, Looks, VerdictError, judge_stream, judge_trace};
use std::alloc::Global;
use std::io::{Read, Write};
use std::rt::Clock;
use std::sync::Wait;
use std::thread::Threads;

/// What is reported besides a stray.
#[derive(Clone, Copy)]
pub enum StrayDetail {
    /// Nothing.
    Line,
    /// The processes that have one of its two determinants in their logs at its instant, and stable storage if it has
    /// one.
    WithSurvivors,
}

/// A question on a trace.
#[derive(Clone, Copy)]
pub enum Question {
    /// The verdict for at most `faults` processes down at once, by `workers` threads.
    Verdict {
        faults: u16,
        workers: u32,
    },
    /// The verdict at the first audit that finds a breach, without reading on; if none does, the verdict on the whole
    /// text. [`judge_stream`] defines these audits.
    Breach {
        faults: u16,
        workers: u32,
        looks: Looks,
    },
    /// The verdict on the whole text, by one worker, and the reason for it. `workers` threads read.
    Reason {
        faults: u16,
        workers: u32,
    },
    /// The bounds f for which the trace is safe. `workers` threads read.
    Range {
        workers: u32,
    },
    /// Whether recoveries follow what survives; if not, the first stray. `workers` threads read.
    Replays {
        workers: u32,
        detail: StrayDetail,
    },
}

impl Question {
    /// Returns the bound f of the question; 0 for `Range` and `Replays`, which have none.
    pub fn faults(self) -> u16
        ensures { result ≡ questions.faults_of self }
    {
        match self {
            Question::Verdict { faults, .. }
            | Question::Breach { faults, .. }
            | Question::Reason { faults, .. } => faults,
            Question::Range { .. } | Question::Replays { .. } => 0,
        }
    }

    /// Returns the number of workers that read and audit.
    fn workers(self) -> u32
        ensures { result ≡ questions.workers_of self }
    {
        match self {
            Question::Verdict { workers, .. }
            | Question::Breach { workers, .. }
            | Question::Reason { workers, .. }
            | Question::Range { workers }
            | Question::Replays { workers, .. } => workers,
        }
    }
}

/// Reads the text of a trace within the limits, and writes the answer to a question, as lines or as one JSON object on
/// one line. If the text is invalid, the answer is its first error, and the outcome has that with its diagnostic, which
/// is computed after the answer is written. The outcome also reports a failure of the reader, the writer, an allocation
/// or a thread start. With one worker it is never `NoWorker`.
///
/// The text is read in pieces of 4,096 bytes, to its end or to the piece with its first error; by several workers, except
/// for `Breach`, as `read_by` reads it. `Breach` also stops at the first audit that finds one; its answer then has the
/// number of entries that were read, and an error in the rest of the text is not reported.
pub fn answer_question<R: Threads + Wait + Clock, I: Read, O: Write, G: Gate + Sync>(
    rt: &R,
    alloc: Global,
    input: &mut I,
    output: &mut O,
    limits: Limits,
    question: Question,
    form: Form,
    gate: &G,
) -> Outcome<DiagnosedFault>
    requires { questions.HasFewWorkers question }
    ensures writes { WritesFor limits.entries form question (I.remaining input.old)
        result.ended (O.contents output.old) (O.contents output.new) }
    ensures fault { IsDiagnosisFor limits.entries (I.remaining input.old)
        (questions.faults_of question) result.fault }
    ensures stops { questions.StopsFor limits.entries question
        (I.remaining input.old) (I.remaining input.new) }
    ensures one_worker { result.ended ≡ Ended.NoWorker → 2 ≤ questions.workers_of question }
{
    let response = match response_to(rt, alloc, input, limits, question, gate) {
        Ok(response) => response,
        Err(ended) => return Outcome { ended, fault: None },
    };
    match printed_answer(alloc, form, response) {
        Ok(answer) => write_answer(alloc, output, question.faults(), answer),
        Err(ended) => Outcome { ended, fault: None },
    }
}

fn response_to<I: Read, G: Gate + Sync, R: Threads + Wait + Clock>(
    rt: &R,
    alloc: Global,
    input: &mut I,
    limits: Limits,
    question: Question,
    gate: &G,
) -> Result<Response, Ended>
    requires { questions.HasFewWorkers question }
    ensures ok { IfOk result (λ response. IsAnswerFor limits.entries question
        (I.remaining input.old) response.ended response.answer) }
    ensures rejected { RefusalIsTrue limits.entries (I.remaining input.old) result }
    ensures whole_answer { IfOk result (λ response. WritesWholeAnswer response.ended) }
    ensures err { IfErr result WritesNothing }
    ensures stops { questions.StopsFor limits.entries question
        (I.remaining input.old) (I.remaining input.new) }
    ensures one_worker { result ≡ Err Ended.NoWorker → 2 ≤ questions.workers_of question }
{
    match read_answer(rt, alloc, input, limits, question, gate) {
        Ok(response) => Ok(response),
        Err(unjudged) => fault_response(alloc, unjudged),
    }
}

/// Reads a text, and returns the answer to a question on its trace, or why there is none.
fn read_answer<I: Read, G: Gate + Sync, R: Threads + Wait + Clock>(
    rt: &R,
    alloc: Global,
    input: &mut I,
    limits: Limits,
    question: Question,
    gate: &G,
) -> Result<Response, VerdictError>
    requires { questions.HasFewWorkers question }
    ensures reads { IfSome (I.remaining input.old)
        (λ text. IsAnswerOrError limits.entries question text result) }
    ensures faultless { IfOk result IsFaultless }
    ensures stops { questions.StopsFor limits.entries question
        (I.remaining input.old) (I.remaining input.new) }
    ensures one_worker { result ≡ Err (VerdictError.Audit AuditFault.NoWorker)
        → 2 ≤ questions.workers_of question }
{
    match question {
        Question::Breach {
            faults,
            workers,
            looks,
        } => {
            let known = judge_stream(rt, alloc, input, limits, looks, faults, workers, gate)?;
            Ok(stream_response(alloc, faults, known))
        }
        _ => {
            let trace = match read_by(rt, alloc, input, limits, question.workers()) {
                Ok(trace) => trace,
                Err(unread) => return Err(VerdictError::Input(unread)),
            };
            match trace_response(rt, alloc, &trace, question, gate) {
                Ok(response) => Ok(response),
                Err(fault) => Err(VerdictError::Audit(fault)),
            }
        }
    }
}

/// Returns the answer to a question on a trace that was read whole.
fn trace_response<G: Gate + Sync, R: Threads + Wait>(
    rt: &R,
    alloc: Global,
    trace: &Trace,
    question: Question,
    gate: &G,
) -> Result<Response, AuditFault>
    requires few { questions.HasFewWorkers question }
    requires whole { IsOnWholeText question }
    ensures answer { IfOk result (AnswersOn trace.now.recording
        (λ most text. IsAnswer most question text)) }
    ensures faultless { IfOk result IsFaultless }
    ensures one_worker { result ≡ Err AuditFault.NoWorker → 2 ≤ questions.workers_of question }
{
    match question {
        Question::Verdict { faults, workers } => {
            let judged = judge_trace(rt, alloc, trace, faults, workers, gate)?;
            Ok(verdict_response(alloc, faults, judged))
        }
        Question::Breach { .. } => unreachable!(),
        Question::Reason { faults, .. } => Ok(reason_response(alloc, trace, faults)?),
        Question::Range { .. } => Ok(range_response(alloc, trace)?),
        Question::Replays { detail, .. } => Ok(replays_response(alloc, trace, detail)?),
    }
}
