//! Merging recorder files, whose lines several workers parse.
ghost use Rattle.std.specs.Prelude.{◌≡◌, ◌≢◌, ◌≤◌, IfOk, IfErr};
ghost use Rattle.causal_line.specs.Lines.{lines};
ghost use Rattle.causal_merge.specs.Merges.{MergesFrom, MergesWithin, IsFirstMergeFaultWithin};
ghost use Rattle.causal_merge.specs.RecordingReaders.{IsReadBy};

use crate::chunks::split_lines;
use crate::reading::shared_read;
use crate::recorded_chunks::read_lines_by;
use causal_merge::{MappedTrace, MergeFault, MergeKind, MergedTrace, RecordingReader};
use causal_text::TextKind;
use causal_trace::limits::Limits;
use std::alloc::Global;
use std::thread::Threads;

/// Returns the trace merged from recorder files, as [`merge_within`](causal_merge::merge_within) does, by 1 to 64
/// workers, who parse the lines; the calling thread checks, sorts and merges them. The result is the same for every
/// number of workers. With one worker no thread starts.
///
/// Memory, besides that of `merge_within`: for the parsed lines as in [`read_by`](crate::read_by).
///
/// # Errors
/// Those of `merge_within`. `NoMemory` in a worker is returned when the line or chunk has its turn.
pub fn merge_by<R: Threads>(
    rt: &R,
    alloc: Global,
    text: &[u8],
    limits: Limits,
    workers: u32,
) -> Result<MergedTrace, MergeFault>
    requires { (1 ≤ workers) × (workers ≤ 64) }
    ensures ok { IfOk result
        (λ merged. MergesWithin limits.entries text.now merged.trace.recording merged.torn.items) }
    ensures err { IfErr result (λ fault. fault.kind ≢ MergeKind.Line TextKind.NoMemory
        → IsFirstMergeFaultWithin limits.entries text.now fault) }
{
    let before = RecordingReader::within(alloc, limits);
    let reader = read_all_by(rt, alloc, before, text, workers)?;
    reader.merge()
}

/// Merges as `merge_by` does, and returns where each entry comes from, in 16 more bytes for each.
///
/// # Errors
/// Those of `merge_by`.
pub fn merge_mapped_by<R: Threads>(
    rt: &R,
    alloc: Global,
    text: &[u8],
    limits: Limits,
    workers: u32,
) -> Result<MappedTrace, MergeFault>
    requires { (1 ≤ workers) × (workers ≤ 64) }
    ensures ok { IfOk result (λ mapped. MergesFrom limits.entries text.now
        mapped.merged.trace.recording mapped.merged.torn.items mapped.origins.items) }
    ensures err { IfErr result (λ fault. fault.kind ≢ MergeKind.Line TextKind.NoMemory
        → IsFirstMergeFaultWithin limits.entries text.now fault) }
{
    let before = RecordingReader::within(alloc, limits);
    let reader = read_all_by(rt, alloc, before, text, workers)?;
    reader.merge_mapped()
}

/// Reads all lines of a text, as much at a time as the workers share.
fn read_all_by<R: Threads>(
    rt: &R,
    alloc: Global,
    before: RecordingReader,
    text: &[u8],
    workers: u32,
) -> Result<RecordingReader, MergeFault>
    requires { (1 ≤ workers) × (workers ≤ 64) }
    ensures { IsReadBy before (lines text.now) result }
{
    let size = shared_read(workers);
    let mut reader = before;
    let mut left = text;
    while !left.is_empty() {
        let (piece, after) = split_lines(left, left.len().min(size));
        match read_lines_by(rt, alloc, reader, piece, workers) {
            Ok(next) => reader = next,
            Err(fault) => return Err(fault),
        }
        left = after;
    }
    Ok(reader)
}
