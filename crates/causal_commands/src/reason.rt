//! The verdict on a trace, with the facts that explain it.
ghost use Rattle.std.specs.Prelude.{ℕ, List, IfOk};
ghost use Rattle.causal_text.specs.Spelling.{SpellsWithin};
ghost use Rattle.causal_commands.specs.Answers.{IsExplained, IsReasonAnswer};
ghost use Rattle.causal_commands.specs.Inside.Answers.{IsFaultless, AnswersOn};

use crate::answer::ended_of;
use crate::response::Response;
use crate::serial_audit::judge_serially;
use causal_answers::{Answer, Finding};
use causal_audit::Judged;
use causal_facts::Fact;
use causal_name::NoMemory;
use causal_report::facts_of;
use causal_trace::trace::Trace;
use std::alloc::Global;

/// The verdict on a trace, and the facts that explain it.
#[derive(Drop)]
pub(crate) struct ExplainedVerdict {
    pub judged: Judged,
    pub facts: Vec<Fact>,
}

/// Returns the answer with the verdict on a trace for f and the facts that explain it.
pub(crate) fn reason_response(alloc: Global, trace: &Trace, f: u16) -> Result<Response, NoMemory>
    ensures answer { IfOk result (AnswersOn trace.now.recording
        (λ most text. IsReasonAnswer most text f)) }
    ensures faultless { IfOk result IsFaultless }
{
    let known = explain_trace(alloc, trace, f)?;
    let judged = known.judged;
    Ok(Response {
        ended: ended_of(judged.verdict),
        answer: Answer::Found {
            finding: Finding::Verdict { f, judged },
            facts: known.facts,
        },
        refusal: None,
    })
}

/// Returns the verdict on a trace for f, and the facts that explain it.
pub(crate) fn explain_trace(
    alloc: Global,
    trace: &Trace,
    f: u16,
) -> Result<ExplainedVerdict, NoMemory>
    ensures { IfOk result (λ known. (most : ℕ) (text : List ℕ)
        → SpellsWithin most text trace.now.recording
        → IsExplained most text f known.judged known.facts.items) }
{
    let judged = judge_serially(alloc, trace, f)?;
    let facts = facts_of(alloc, trace, f, judged.verdict)?;
    Ok(ExplainedVerdict { judged, facts })
}
