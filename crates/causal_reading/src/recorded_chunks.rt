//! More lines of recorder files, cut into chunks that several workers parse.
ghost use Rattle.std.specs.Prelude.{◌≡◌, ◌≤◌, ◌++◌, List, ℕ, IfOk};
ghost use Rattle.causal_line.specs.Lines.{lines};
ghost use Rattle.causal_merge.specs.RecordingReaders.{RecordingReaderState, IsReadBy};

use crate::chunks::{CHUNK, Lengths, UNDIVIDED, checking_percent, front_len, split_lines};
use causal_merge::{MergeFault, RecorderChunk, RecordingReader, parse_recordings};
use causal_name::NoMemory;
use std::alloc::Global;
use std::thread::{Threads, join};

/// Reads more whole lines. Several workers parse them if they are many.
pub(crate) fn read_lines_by<R: Threads>(
    rt: &R,
    alloc: Global,
    reader: RecordingReader,
    bytes: &[u8],
    workers: u32,
) -> Result<RecordingReader, MergeFault>
    ensures { IsReadBy reader (lines bytes.now) result }
{
    if bytes.len() <= UNDIVIDED {
        return reader.feed(bytes);
    }
    let chunks = (bytes.len() / CHUNK).min(workers as usize);
    let lengths = Lengths::in_turn(checking_percent(bytes));
    read_chunks(rt, alloc, reader, bytes, chunks, lengths)
}

/// Reads more whole lines, whose chunks are parsed at the same time: the last by a thread of its own, those before it in
/// the same way, the first by the calling thread.
#[cycle(chunks)]
fn read_chunks<R: Threads>(
    rt: &R,
    alloc: Global,
    reader: RecordingReader,
    bytes: &[u8],
    chunks: usize,
    lengths: Lengths,
) -> Result<RecordingReader, MergeFault>
    ensures { IsReadBy reader (lines bytes.now) result }
{
    if chunks < 2 {
        return reader.feed(bytes);
    }
    let (front, last) = split_lines(bytes, front_len(bytes.len(), chunks, lengths));
    if last.is_empty() {
        return read_chunks(rt, alloc, reader, bytes, chunks - 1, lengths);
    }
    let parse = move || -> Result<RecorderChunk<'_>, NoMemory>
        ensures { IfOk result (λ chunk. chunk ≡ lines last.entry.now) }
    { parse_recordings(alloc, last) };
    let read = move || -> Result<RecordingReader, MergeFault>
        requires { 2 ≤ chunks }
        ensures { IsReadBy reader (lines front.entry.now) result }
    { read_chunks(rt, alloc, reader, front, chunks - 1, lengths) };
    let (parsed, begun) = join(rt, parse, read);
    read_after(begun, parsed)
}

/// Reads a parsed chunk after the lines before it.
fn read_after(
    begun: Result<RecordingReader, MergeFault>,
    parsed: Result<RecorderChunk<'_>, NoMemory>,
) -> Result<RecordingReader, MergeFault>
    ensures { (reader : RecordingReaderState) (front last : List (List ℕ)) → IsReadBy reader front begun
        → IfOk parsed.entry (λ chunk. chunk ≡ last) → IsReadBy reader (front ++ last) result }
{
    let reader = match begun {
        Ok(reader) => reader,
        Err(fault) => return Err(fault),
    };
    match parsed {
        Ok(chunk) => reader.feed_parsed(chunk),
        Err(NoMemory) => Err(reader.no_memory()),
    }
}
