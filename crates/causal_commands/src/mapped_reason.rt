//! The command `explain --map`, over any readers and writer.
ghost use Rattle.std.specs.Prelude.{◌≡◌, ◌≢◌, ◌≤◌, ◌++◌, ℕ, List, IfOk, IfErr, IfSome, Err, None};
ghost use Rattle.causal_audit.specs.VerdictLines.{verdict_line};
ghost use Rattle.causal_text.specs.Streams.{StopsWithin};
ghost use Rattle.causal_reading.specs.Reads.{max_read};
ghost use Rattle.causal_outcomes.specs.Diagnostics.{IsDiagnosisFor};
ghost use Rattle.causal_outcomes.specs.Merges.{ReadsAtMostRecordings};
ghost use Rattle.causal_commands.specs.MappedReasons.{WritesMappedFor};
ghost use Rattle.causal_commands.specs.Inside.Answers.{WritesNothing, WritesWholeAnswer};
ghost use Rattle.causal_commands.specs.PlacedLines.{IsPlacedText, whole_lines, map_fault};
ghost use Rattle.causal_commands.specs.Inside.Placing.{ReturnsPlaced};
ghost use Rattle.causal_commands.specs.Inside.Refusals.{ExplainsRefusal, IsTrueRefusal, IsTrueRefusalFor};
ghost use Rattle.causal_commands.specs.Inside.MappedAnswers.{IsMappedFaultAnswer, IsMappedFor, IsPlacedFor, IsPlaced};

use crate::answer::{PrintedAnswer, ended_of, write_answer};
use crate::placed_lines::{PlaceError, placed_text};
use crate::reason::{ExplainedVerdict, explain_trace};
use crate::response::{fault_response, printed_answer};
use causal_facts::Form;
use causal_merge::max_input_len;
use causal_name::NoMemory;
use causal_outcomes::{DiagnosedFault, Ended, MapFault, Outcome, ReadFault, read_at_most};
use causal_reading::read_by;
use causal_trace::limits::Limits;
use causal_workers::{AuditFault, Judged, VerdictError, verdict_line};
use std::alloc::Global;
use std::io::{Read, Write};
use std::thread::Threads;

/// The outcome of an explanation with places: that of the explanation, and the error of the map.
#[derive(Clone, Copy)]
pub struct MappedOutcome {
    pub outcome: Outcome<DiagnosedFault>,
    /// Why the map is not that of the trace. The ending is then `Faulted`, and nothing was written.
    pub map_fault: Option<MapFault>,
}

/// Explains the verdict for f on a trace as [`Question::Reason`](crate::Question) does, in lines with the places that a map
/// has: each line with a field `line=L` gets the fields ` at=FILE:LINE clock=CLOCK` of that entry. The map is read after the
/// trace, if that is valid: at most one byte more than a map may have, which is as many bytes as recordings.
///
/// A map that is too long, has another number of lines than the trace has entries, or has another line for an entry that
/// is named is an error, after which nothing is written. A map that cannot be read is `ReadFault`.
pub fn answer_mapped_reason<R: Threads, I: Read, M: Read, O: Write>(
    rt: &R,
    alloc: Global,
    input: &mut I,
    map: &mut M,
    output: &mut O,
    limits: Limits,
    f: u16,
    workers: u32,
) -> MappedOutcome
    requires { (1 ≤ workers) × (workers ≤ 64) }
    ensures writes { WritesMappedFor limits.entries (I.remaining input.old)
        (M.remaining map.old) f result (O.contents output.old) (O.contents output.new) }
    ensures fault { IsDiagnosisFor limits.entries (I.remaining input.old)
        f result.outcome.fault }
    ensures stops { StopsWithin limits.entries (max_read workers)
        (I.remaining input.old) (I.remaining input.new) }
    ensures map { ReadsAtMostRecordings limits.entries (M.remaining map.old)
        (M.remaining map.new) }
    ensures never_no_worker { result.outcome.ended ≢ Ended.NoWorker }
{
    match mapped_answer(rt, alloc, input, map, limits, f, workers) {
        Ok(MappedAnswer { answer, map_fault }) => MappedOutcome {
            outcome: write_answer(alloc, output, f, answer),
            map_fault,
        },
        Err(ended) => MappedOutcome {
            outcome: Outcome { ended, fault: None },
            map_fault: None,
        },
    }
}

/// The answer, and the error of the map, if that is the reason for its ending.
#[derive(Drop)]
struct MappedAnswer {
    answer: PrintedAnswer,
    map_fault: Option<MapFault>,
}

fn mapped_answer<I: Read, M: Read, R: Threads>(
    rt: &R,
    alloc: Global,
    input: &mut I,
    map: &mut M,
    limits: Limits,
    f: u16,
    workers: u32,
) -> Result<MappedAnswer, Ended>
    requires { (1 ≤ workers) × (workers ≤ 64) }
    ensures ok { IfOk result (λ given. IsMappedFor limits.entries (I.remaining input.old)
        (M.remaining map.old) f given) }
    ensures rejected { IfOk result (λ given. IsTrueRefusalFor limits.entries
        (I.remaining input.old) given.answer.refusal) }
    ensures whole_answer { IfOk result (λ given. WritesWholeAnswer given.answer.ended) }
    ensures err { IfErr result WritesNothing }
    ensures stops { StopsWithin limits.entries (max_read workers)
        (I.remaining input.old) (I.remaining input.new) }
    ensures map { ReadsAtMostRecordings limits.entries (M.remaining map.old)
        (M.remaining map.new) }
    ensures never_no_worker { result ≢ Err Ended.NoWorker }
{
    let trace = match read_by(rt, alloc, input, limits, workers) {
        Ok(trace) => trace,
        Err(unread) => return fault_answer(alloc, VerdictError::Input(unread)),
    };
    match explain_trace(alloc, &trace, f) {
        Ok(known) => with_places(alloc, map, limits, f, known),
        Err(NoMemory) => Err(Ended::NoMemory),
    }
}

/// Returns the answer with the first error of a text without verdict, or the ending if there is nothing to write.
fn fault_answer(alloc: Global, unjudged: VerdictError) -> Result<MappedAnswer, Ended>
    ensures ok { IfOk result (IsMappedFaultAnswer unjudged) }
    ensures rejected { IfOk result (λ given. (most : ℕ) (text : List ℕ)
        → ExplainsRefusal most text unjudged →
        IfSome given.answer.refusal (IsTrueRefusal most text)) }
    ensures whole_answer { IfOk result (λ given. WritesWholeAnswer given.answer.ended) }
    ensures err { IfErr result WritesNothing }
    ensures no_worker { result ≡ Err Ended.NoWorker
        → unjudged ≡ VerdictError.Audit AuditFault.NoWorker }
{
    let response = match fault_response(alloc, unjudged) {
        Ok(response) => response,
        Err(ended) => return Err(ended),
    };
    match printed_answer(alloc, Form::Lines, response) {
        Ok(answer) => Ok(MappedAnswer {
            answer,
            map_fault: None,
        }),
        Err(ended) => Err(ended),
    }
}

/// Reads a map, and returns the answer with an explanation and the places of its entries.
fn with_places<M: Read>(
    alloc: Global,
    map: &mut M,
    limits: Limits,
    f: u16,
    known: ExplainedVerdict,
) -> Result<MappedAnswer, Ended>
    ensures ok { IfOk result (λ given. IsPlacedFor limits.entries (M.remaining map.old)
        f known given) }
    ensures none { IfOk result (λ given. given.answer.refusal ≡ None) }
    ensures whole_answer { IfOk result (λ given. WritesWholeAnswer given.answer.ended) }
    ensures err { IfErr result WritesNothing }
    ensures map { ReadsAtMostRecordings limits.entries (M.remaining map.old)
        (M.remaining map.new) }
    ensures never_no_worker { result ≢ Err Ended.NoWorker }
{
    match read_at_most(alloc, map, max_input_len(limits) + 1) {
        Ok(map) => placed_answer(alloc, map.as_slice(), limits, f, known),
        Err(ReadFault::Read) => Err(Ended::ReadFault),
        Err(ReadFault::NoMemory) => Err(Ended::NoMemory),
    }
}

fn placed_answer(
    alloc: Global,
    map: &[u8],
    limits: Limits,
    f: u16,
    known: ExplainedVerdict,
) -> Result<MappedAnswer, Ended>
    ensures ok { IfOk result (λ given. IsPlaced limits.entries map.now f known given) }
    ensures none { IfOk result (λ given. given.answer.refusal ≡ None) }
    ensures whole_answer { IfOk result (λ given. WritesWholeAnswer given.answer.ended) }
    ensures err { IfErr result (λ ended. ended ≡ Ended.NoMemory) }
{
    match placed_reason(alloc, map, limits, f, &known) {
        Ok(line) => Ok(MappedAnswer {
            answer: PrintedAnswer {
                ended: ended_of(known.judged.verdict),
                line,
                refusal: None,
            },
            map_fault: None,
        }),
        Err(PlaceError::Map(fault)) => Ok(MappedAnswer {
            answer: PrintedAnswer {
                ended: Ended::Faulted,
                line: Vec::new(alloc),
                refusal: None,
            },
            map_fault: Some(fault),
        }),
        Err(PlaceError::NoMemory) => Err(Ended::NoMemory),
    }
}

/// Returns the line of the verdict for f, and the lines of its facts with the places of their entries.
fn placed_reason(
    alloc: Global,
    map: &[u8],
    limits: Limits,
    f: u16,
    known: &ExplainedVerdict,
) -> Result<Vec<u8>, PlaceError>
    ensures { ReturnsPlaced (λ out. out.items) result
        (map_fault limits.entries map.now known.now.judged.entries known.now.facts.items)
        (IsPlacedText (whole_lines map.now) known.now.facts.items (verdict_line f known.now.judged)) }
{
    let entries = known.judged.entries;
    match placed_text(alloc, limits, map, entries, known.facts.as_slice()) {
        Ok(reason) => match line_and_text(alloc, f, &known.judged, reason.as_slice()) {
            Ok(text) => Ok(text),
            Err(NoMemory) => Err(PlaceError::NoMemory),
        },
        Err(error) => Err(error),
    }
}

fn line_and_text(alloc: Global, f: u16, judged: &Judged, reason: &[u8]) -> Result<Vec<u8>, NoMemory>
    ensures { IfOk result (λ text. text.items ≡ verdict_line f judged.now ++ reason.now) }
{
    let mut text = verdict_line(alloc, f, judged)?;
    text.extend_from_slice(reason)?;
    Ok(text)
}
