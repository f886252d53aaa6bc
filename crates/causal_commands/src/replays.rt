//! Whether the recoveries of a trace follow the determinants that survive.
ghost use Rattle.std.specs.Prelude.{IfOk};
ghost use Rattle.causal_replays.specs.Strays.{IsFirstStray};
ghost use Rattle.causal_commands.specs.Answers as answers;
ghost use Rattle.causal_commands.specs.Inside.Answers.{IsFaultless};

use crate::question::StrayDetail;
use crate::response::{Response, found};
use causal_answers::{Answer, Finding};
use causal_facts::{Fact, Stray};
use causal_name::NoMemory;
use causal_outcomes::Ended;
use causal_replays::first_stray;
use causal_report::survivor_facts;
use causal_trace::trace::Trace;
use std::alloc::Global;

/// Returns the answer that each slot of a trace has at most one surviving determinant at each instant, or the first instant
/// that strays from this.
pub(crate) fn replays_response(
    alloc: Global,
    trace: &Trace,
    detail: StrayDetail,
) -> Result<Response, NoMemory>
    ensures answer { IfOk result (λ response.
        answers.IsReplaysOf detail trace.now.recording response.ended response.answer) }
    ensures faultless { IfOk result IsFaultless }
{
    match first_stray(alloc, trace)? {
        None => {
            let finding = Finding::Followed {
                entries: trace.len(),
                deliveries: trace.deliveries(),
            };
            Ok(found(alloc, Ended::Followed, finding, None))
        }
        Some(stray) => Ok(Response {
            ended: Ended::Strayed,
            answer: Answer::Found {
                finding: Finding::Strayed(stray),
                facts: details_of(alloc, trace, stray, detail)?,
            },
            refusal: None,
        }),
    }
}

/// Returns what is reported besides a stray.
fn details_of(
    alloc: Global,
    trace: &Trace,
    stray: Stray,
    detail: StrayDetail,
) -> Result<Vec<Fact>, NoMemory>
    requires { IsFirstStray trace.now.recording stray }
    ensures { IfOk result
        (λ facts. answers.AreDetails detail trace.now.recording stray facts.items) }
{
    match detail {
        StrayDetail::Line => Ok(Vec::new(alloc)),
        StrayDetail::WithSurvivors => survivor_facts(alloc, trace, stray),
    }
}
