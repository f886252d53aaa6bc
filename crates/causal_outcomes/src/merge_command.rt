//! The command `merge`, over any reader and writer.
ghost use Rattle.std.specs.Prelude.{◌≡◌, ◌≤◌, None, IfOk, IfErr};
ghost use Rattle.causal_outcomes.specs.Merges.{WritesMergeFor, ReturnsNothing, HasExcerpt, HasExcerptFor, ReadsAtMostRecordings};
ghost use Rattle.causal_outcomes.specs.Inside.MergeOutcomes.{IsFaultOutcome, IsTraceOutcome, IsMerge, IsMergeFor, MergeWritesNothing};

use crate::bounded_read::{ReadFault, read_at_most};
use crate::ended::Ended;
use crate::excerpt::line_excerpt;
use causal_merge::{
    MappedTrace, MergeFault, MergeKind, MergedTrace, Origin, max_input_len, merge_fault_line,
};
use causal_reading::{merge_by, merge_mapped_by};
use causal_text::{TextKind, text_of, write_whole};
use causal_trace::limits::Limits;
use std::alloc::Global;
use std::io::{Read, Write};
use std::thread::Threads;

/// Whether the origins of the entries are returned. They need 16 bytes for each.
#[derive(Clone, Copy)]
pub enum Mapping {
    Mapped,
    Unmapped,
}

/// The outcome of a merge: how it ended, the torn lines, the origins of the entries, and the error.
#[derive(Drop)]
pub struct MergeOutcome {
    pub ended: Ended,
    /// The numbers of the lines that a kill cut short and that are skipped, from 1, ascending; empty if there is no
    /// trace.
    pub torn: Vec<u32>,
    /// Where the entries of the trace come from, in their order; empty if they are not wanted, or there is no trace.
    pub origins: Vec<Origin>,
    /// The first error of the recorder files, if its line was written or would have been.
    pub fault: Option<MergeFault>,
    /// The first 80 bytes of the line of that error, without its line feed; empty if there is no error.
    pub excerpt: Vec<u8>,
}

/// Reads the recorder files of all processes of one run within the limits, with their lines in any order, and writes
/// the merged trace, or the line of their first error. 1 to 64 workers parse the lines. The outcome reports a failure of
/// the reader, the writer or an allocation; of a trace it has the origins of the entries, if they are wanted.
///
/// At most one byte more than the limit is read (67,108,865 bytes by the default limits), so that input that is too
/// long is detected. The input is read in pieces of 4,096 bytes, before anything is written.
pub fn answer_merge<R: Threads, I: Read, O: Write>(
    rt: &R,
    alloc: Global,
    input: &mut I,
    output: &mut O,
    limits: Limits,
    workers: u32,
    mapping: Mapping,
) -> MergeOutcome
    requires { (1 ≤ workers) × (workers ≤ 64) }
    ensures writes { WritesMergeFor limits.entries mapping (I.remaining input.old) result
        (O.contents output.old) (O.contents output.new) }
    ensures excerpt { HasExcerptFor limits.entries (I.remaining input.old) result }
    ensures most { ReadsAtMostRecordings limits.entries (I.remaining input.old)
        (I.remaining input.new) }
{
    let MergeAnswer { merging, text } = match answer_from(
        rt, alloc, input, limits, workers, mapping,
    ) {
        Ok(answer) => answer,
        Err(ended) => return empty_outcome(alloc, ended),
    };
    match write_whole(text.as_slice(), output) {
        Ok(()) => merging,
        Err(_) => MergeOutcome {
            ended: Ended::WriteFault,
            torn: merging.torn,
            origins: merging.origins,
            fault: merging.fault,
            excerpt: merging.excerpt,
        },
    }
}

/// Returns an outcome without torn lines, origins and error.
fn empty_outcome(alloc: Global, ended: Ended) -> MergeOutcome
    ensures ended { result.ended ≡ ended }
    ensures empty { ReturnsNothing result }
{
    MergeOutcome {
        ended,
        torn: Vec::new(alloc),
        origins: Vec::new(alloc),
        fault: None,
        excerpt: Vec::new(alloc),
    }
}

/// The text that answers the recorder files, and the outcome after it is written.
#[derive(Drop)]
struct MergeAnswer {
    merging: MergeOutcome,
    text: Vec<u8>,
}

fn answer_from<R: Threads, I: Read>(
    rt: &R,
    alloc: Global,
    input: &mut I,
    limits: Limits,
    workers: u32,
    mapping: Mapping,
) -> Result<MergeAnswer, Ended>
    requires { (1 ≤ workers) × (workers ≤ 64) }
    ensures ok { IfOk result (λ answer. IsMergeFor limits.entries mapping
        (I.remaining input.old) answer.merging answer.text.items) }
    ensures err { IfErr result MergeWritesNothing }
    ensures excerpt { IfOk result
        (λ answer. HasExcerptFor limits.entries (I.remaining input.old) answer.merging) }
    ensures most { ReadsAtMostRecordings limits.entries (I.remaining input.old)
        (I.remaining input.new) }
{
    match read_at_most(alloc, input, max_input_len(limits) + 1) {
        Ok(text) => answer_to(rt, alloc, text.as_slice(), limits, workers, mapping),
        Err(ReadFault::Read) => Err(Ended::ReadFault),
        Err(ReadFault::NoMemory) => Err(Ended::NoMemory),
    }
}

fn answer_to<R: Threads>(
    rt: &R,
    alloc: Global,
    text: &[u8],
    limits: Limits,
    workers: u32,
    mapping: Mapping,
) -> Result<MergeAnswer, Ended>
    requires { (1 ≤ workers) × (workers ≤ 64) }
    ensures ok { IfOk result (λ answer. IsMerge limits.entries mapping text.now
        answer.merging answer.text.items) }
    ensures err { IfErr result MergeWritesNothing }
    ensures excerpt { IfOk result (λ answer. HasExcerpt text.now answer.merging) }
{
    match mapping {
        Mapping::Unmapped => match merge_by(rt, alloc, text, limits, workers) {
            Ok(merged) => trace_answer(alloc, merged, Vec::new(alloc)),
            Err(fault) => fault_answer(alloc, text, fault),
        },
        Mapping::Mapped => match merge_mapped_by(rt, alloc, text, limits, workers) {
            Ok(MappedTrace { merged, origins }) => trace_answer(alloc, merged, origins),
            Err(fault) => fault_answer(alloc, text, fault),
        },
    }
}

/// Returns the answer with the text of a merged trace, and with these origins.
fn trace_answer(
    alloc: Global,
    merged: MergedTrace,
    origins: Vec<Origin>,
) -> Result<MergeAnswer, Ended>
    ensures ok { IfOk result (λ answer. IsTraceOutcome merged origins.items
        answer.merging answer.text.items) }
    ensures err { IfErr result MergeWritesNothing }
    ensures faultless { IfOk result (λ answer. answer.merging.fault ≡ None) }
{
    let MergedTrace { trace, torn } = merged;
    let Ok(text) = text_of(alloc, &trace) else {
        return Err(Ended::NoMemory);
    };
    let merging = MergeOutcome {
        ended: Ended::Merged,
        torn,
        origins,
        fault: None,
        excerpt: Vec::new(alloc),
    };
    Ok(MergeAnswer { merging, text })
}

fn fault_answer(alloc: Global, input: &[u8], fault: MergeFault) -> Result<MergeAnswer, Ended>
    ensures ok { IfOk result (λ answer. IsFaultOutcome fault answer.merging answer.text.items) }
    ensures err { IfErr result MergeWritesNothing }
    ensures excerpt { IfOk result (λ answer. HasExcerpt input.now answer.merging) }
{
    if matches!(fault.kind, MergeKind::Line(TextKind::NoMemory)) {
        return Err(Ended::NoMemory);
    }
    let (Ok(text), Ok(excerpt)) = (
        merge_fault_line(alloc, &fault),
        line_excerpt(alloc, input, fault.line),
    ) else {
        return Err(Ended::NoMemory);
    };
    let merging = MergeOutcome {
        ended: Ended::Faulted,
        torn: Vec::new(alloc),
        origins: Vec::new(alloc),
        fault: Some(fault),
        excerpt,
    };
    Ok(MergeAnswer { merging, text })
}
