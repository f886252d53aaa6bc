//! The bounds f for which a run is safe.
ghost use Rattle.std.specs.Prelude.{◌≡◌, IfOk};
ghost use Rattle.causal_commands.specs.Ranges as ranges;
ghost use Rattle.causal_commands.specs.Answers.{IsRangeAnswer};
ghost use Rattle.causal_commands.specs.Inside.Answers.{IsFaultless, AnswersOn};

use crate::response::Response;
use causal_answers::{Answer, Bounds};
use causal_explain::{SafeRange, safe_range};
use causal_name::NoMemory;
use causal_outcomes::Ended;
use causal_trace::trace::Trace;
use std::alloc::{AllocError, Global};

/// Returns the answer with the bounds f for which a trace is safe.
pub(crate) fn range_response(alloc: Global, trace: &Trace) -> Result<Response, NoMemory>
    ensures answer { IfOk result (AnswersOn trace.now.recording IsRangeAnswer) }
    ensures faultless { IfOk result IsFaultless }
{
    let range = safe_range(alloc, trace)?;
    Ok(Response {
        ended: Ended::Ranged,
        answer: Answer::Ranges {
            ranges: ranges_of(alloc, range)?,
        },
        refusal: None,
    })
}

/// Returns up to three ranges of the bounds f: those that the number of down processes exceeds at some instant, those for
/// which the run is safe, and those for which a delivery has an orphan.
fn ranges_of(alloc: Global, range: SafeRange) -> Result<Vec<Bounds>, AllocError>
    ensures { IfOk result (λ found. found.items ≡ ranges.ranges_of range) }
{
    let mut found = exceeded_below(alloc, range.from)?;
    let rest = bounds_from(alloc, range.from, range.below)?;
    found.extend_from_slice(rest.as_slice())?;
    Ok(found)
}

fn exceeded_below(alloc: Global, from: u16) -> Result<Vec<Bounds>, AllocError>
    ensures { IfOk result (λ found. found.items ≡ ranges.exceeded_below from) }
{
    let mut found = Vec::new(alloc);
    if from > 0 {
        found.push(Bounds::Exceeded { last: from - 1 })?;
    }
    Ok(found)
}

fn bounds_from(alloc: Global, from: u16, below: Option<u16>) -> Result<Vec<Bounds>, AllocError>
    ensures { IfOk result (λ found. found.items ≡ ranges.bounds_from from below) }
{
    match below {
        None => {
            let mut found = Vec::new(alloc);
            found.push(Bounds::AcceptFrom { first: from })?;
            Ok(found)
        }
        Some(end) => {
            let mut found = accept_below(alloc, from, end)?;
            found.push(Bounds::Orphan { first: end })?;
            Ok(found)
        }
    }
}

fn accept_below(alloc: Global, from: u16, end: u16) -> Result<Vec<Bounds>, AllocError>
    ensures { IfOk result (λ found. found.items ≡ ranges.accept_below from end) }
{
    let mut found = Vec::new(alloc);
    if from < end {
        found.push(Bounds::Accept {
            first: from,
            last: end - 1,
        })?;
    }
    Ok(found)
}
