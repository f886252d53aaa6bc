//! The answer to the text of a trace, before it is printed.
ghost use Rattle.std.specs.Prelude.{◌≡◌, ℕ, List, [], IfOk, IfErr, Err};
ghost use Rattle.causal_answers.specs.Answers.{IsAnswerText};
ghost use Rattle.causal_workers.specs.Judgements.{IsJudgementWithin};
ghost use Rattle.causal_workers.specs.Streaming.{IsStreamVerdict};
ghost use Rattle.causal_workers.specs.declared.looks.Looks.{Looks};
ghost use Rattle.causal_commands.specs.Answers.{IsEarlyAnswer, IsFound, IsVerdictAnswer};
ghost use Rattle.causal_commands.specs.Inside.Answers.{IsFaultless, ReportsFault, WritesNothing};

use crate::answer::{PrintedAnswer, ended_of};
use causal_answers::{Answer, Finding, answer_text};
use causal_facts::Form;
use causal_name::NoMemory;
use causal_outcomes::Ended;
use causal_text::{ReadError, TextKind, TextRefusal};
use causal_workers::{AuditFault, Judged, StreamVerdict, VerdictError};
use std::alloc::Global;

/// The answer to a text, the ending after it is written, and, if it reports an error, that error with its context.
#[derive(Drop)]
pub(crate) struct Response {
    pub ended: Ended,
    pub answer: Answer,
    pub refusal: Option<TextRefusal>,
}

/// Prints an answer, as lines or as JSON.
pub(crate) fn printed_answer(
    alloc: Global,
    form: Form,
    response: Response,
) -> Result<PrintedAnswer, Ended>
    ensures line { IfOk result (λ answer. IsAnswerText form response.answer answer.line.items) }
    ensures ended { IfOk result (λ answer. answer.ended ≡ response.ended) }
    ensures rejected { IfOk result (λ answer. answer.refusal ≡ response.refusal) }
    ensures err { IfErr result (λ ended. ended ≡ Ended.NoMemory) }
{
    let Response {
        ended,
        answer,
        refusal,
    } = response;
    match answer_text(alloc, form, &answer) {
        Ok(line) => Ok(PrintedAnswer {
            ended,
            line,
            refusal,
        }),
        Err(NoMemory) => Err(Ended::NoMemory),
    }
}

/// Returns the response with a finding that no facts explain.
pub(crate) fn found(
    alloc: Global,
    ended: Ended,
    finding: Finding,
    refusal: Option<TextRefusal>,
) -> Response
    ensures ended { result.ended ≡ ended }
    ensures answer { IsFound finding [] result.answer }
    ensures refusal { result.refusal ≡ refusal }
{
    Response {
        ended,
        answer: Answer::Found {
            finding,
            facts: Vec::new(alloc),
        },
        refusal,
    }
}

/// Returns the answer with a verdict.
pub(crate) fn verdict_response(alloc: Global, f: u16, judged: Judged) -> Response
    ensures answer { (most : ℕ) (text : List ℕ) → IsJudgementWithin most text f judged
        → IsVerdictAnswer most text f result.ended result.answer }
    ensures faultless { IsFaultless result }
{
    let ended = ended_of(judged.verdict);
    found(alloc, ended, Finding::Verdict { f, judged }, None)
}

/// Returns the answer with an early or whole verdict.
pub(crate) fn stream_response(alloc: Global, f: u16, known: StreamVerdict) -> Response
    ensures answer { (looks : Looks) (most : ℕ) (text : List ℕ)
        → IsStreamVerdict looks most text f known
        → IsEarlyAnswer looks most text f result.ended result.answer }
    ensures faultless { IsFaultless result }
{
    match known {
        StreamVerdict::Early(judged) => {
            found(
                alloc,
                Ended::Breached,
                Finding::EarlyBreach { f, judged },
                None,
            )
        }
        StreamVerdict::Whole(judged) => {
            let ended = ended_of(judged.verdict);
            found(alloc, ended, Finding::Verdict { f, judged }, None)
        }
    }
}

/// Returns the answer with the first error of a text without answer, or the ending if there is nothing to write.
pub(crate) fn fault_response(alloc: Global, unjudged: VerdictError) -> Result<Response, Ended>
    ensures ok { IfOk result (ReportsFault unjudged) }
    ensures err { IfErr result WritesNothing }
    ensures no_worker { result ≡ Err Ended.NoWorker
        → unjudged ≡ VerdictError.Audit AuditFault.NoWorker }
{
    match unjudged {
        VerdictError::Input(ReadError::Text(rejected)) => match rejected.fault.kind {
            TextKind::NoMemory => Err(Ended::NoMemory),
            _ => {
                let finding = Finding::Fault(rejected.fault);
                Ok(found(alloc, Ended::Faulted, finding, Some(rejected)))
            }
        },
        VerdictError::Input(ReadError::Source) => Err(Ended::ReadFault),
        VerdictError::Audit(AuditFault::NoMemory) => Err(Ended::NoMemory),
        VerdictError::Audit(AuditFault::NoWorker) => Err(Ended::NoWorker),
    }
}
