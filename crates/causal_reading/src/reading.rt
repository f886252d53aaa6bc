//! Reading a trace from a byte source or a text in memory, with lines that several workers parse.
ghost use Rattle.std.specs.Prelude.{◌≡◌, ◌≢◌, ◌<◌, ◌≤◌, ℕ, List, IfOk, IfErr, IfSome, vec_len};
ghost use Rattle.causal_text.specs.FaultContexts.{ExplainsReadErrorWithin};
ghost use Rattle.causal_text.specs.PushReaders.{HasReceived};
ghost use Rattle.causal_text.specs.Spelling.{Spells, SpellsWithin, IsFirstFault, IsReadUpTo};
ghost use Rattle.causal_trace.specs.Limits.{default_entries};
ghost use Rattle.causal_text.specs.Streams.{StopsWithin};
ghost use Rattle.causal_reading.specs.Reads.{max_read, shared_read};
ghost use Rattle.causal_reading.specs.Inside.Feeding.{IsBufferSize};

use crate::readers::feed_by;
use causal_text::{PushReader, ReadError, TextFault, TextKind, max_text_len, read_within};
use causal_trace::limits::Limits;
use causal_trace::trace::Trace;
use std::alloc::Global;
use std::io::Read;
use std::thread::Threads;

/// The size of the first read in bytes.
const PIECE: usize = 4_096;

/// The least number of bytes that several workers take at a time: so many that starting their threads takes little of the
/// time, and so few that the parsed lines take little memory.
const LEAST_SHARED: usize = 524_288;

/// The least number of these bytes for each worker.
const READ_PER_WORKER: usize = 65_536;

/// Returns how many bytes several workers take at a time.
#[tactic(auto, unfolding(crate::specs::Reads::shared_read))]
pub(crate) fn shared_read(workers: u32) -> usize
    requires { workers ≤ 64 }
    ensures value { result ≡ shared_read workers }
    ensures some { 0 < result }
{
    LEAST_SHARED.max(READ_PER_WORKER * workers as usize)
}

/// Returns the trace that the bytes of a source spell, as [`read_within`] does, by 1 to 64 workers. The result is the
/// same for every number of workers.
///
/// A read asks for 4,096 bytes at first, and for twice as many after each read that got them all, up to 524,288, or 65,536
/// for each worker if that is more. What it gets is read at once, so a live source is never waited for. A piece of more
/// than 32,768 bytes is cut at line feeds into chunks of about 8,192 bytes. Each worker parses the next chunk that no other
/// has taken. The calling thread checks the lines in order, and parses chunks only while the next one to check is not
/// parsed. If a thread cannot start, the others parse its share. With one worker no thread starts.
///
/// Memory, besides that of the trace: the bytes of a read, and about 5 times as much for the parsed lines.
///
/// # Errors
/// Those of [`read_within`]. A chunk for which a worker had no memory is parsed again when it has its turn, and only then
/// `NoMemory` is returned.
pub fn read_by<I: Read, R: Threads>(
    rt: &R,
    alloc: Global,
    source: &mut I,
    limits: Limits,
    workers: u32,
) -> Result<Trace, ReadError>
    requires { (1 ≤ workers) × (workers ≤ 64) }
    ensures ok { IfOk result (λ trace. IfSome (I.remaining source.old)
        (λ text. SpellsWithin limits.entries text trace.recording)) }
    ensures err { IfErr result (λ unread. IfSome (I.remaining source.old)
        (λ text. ExplainsReadErrorWithin limits.entries text unread)) }
    ensures stops { StopsWithin limits.entries (max_read workers)
        (I.remaining source.old) (I.remaining source.new) }
{
    if workers > 1 {
        if let Ok(buffer) = vec![in alloc; 0u8; PIECE] {
            return read_pieces(rt, alloc, source, buffer, limits, workers);
        }
    }
    read_within(alloc, source, limits)
}

fn read_pieces<I: Read, R: Threads>(
    rt: &R,
    alloc: Global,
    source: &mut I,
    buffer: Vec<u8>,
    limits: Limits,
    workers: u32,
) -> Result<Trace, ReadError>
    requires workers { (2 ≤ workers) × (workers ≤ 64) }
    requires buffer { IsBufferSize workers (vec_len buffer) }
    ensures ok { IfOk result (λ trace. IfSome (I.remaining source.old)
        (λ text. SpellsWithin limits.entries text trace.recording)) }
    ensures err { IfErr result (λ unread. IfSome (I.remaining source.old)
        (λ text. ExplainsReadErrorWithin limits.entries text unread)) }
    ensures stops { StopsWithin limits.entries (max_read workers)
        (I.remaining source.old) (I.remaining source.new) }
{
    let mut reader = PushReader::within(alloc, limits);
    let mut buffer = buffer;
    for _i in 0..max_text_len(limits) + 2 {
        let Ok(n) = source.read(buffer.as_mut_slice()) else {
            return Err(ReadError::Source);
        };
        if n == 0 {
            return finish(reader);
        }
        let (piece, _) = buffer.as_slice().split_at(n);
        match feed_by(rt, alloc, reader, piece, workers) {
            Ok(next) => reader = next,
            Err(refusal) => return Err(ReadError::Text(refusal)),
        }
        grow_buffer(&mut buffer, n, workers);
    }
    unreachable!()
}

/// Returns the trace, if the bytes so far are the whole text.
fn finish(reader: PushReader) -> Result<Trace, ReadError>
    ensures ok { IfOk result (λ trace. (most : ℕ) (b : List ℕ) → HasReceived most reader b
        → SpellsWithin most b trace.recording) }
    ensures err { IfErr result (λ unread. (most : ℕ) (b : List ℕ) → HasReceived most reader b
        → ExplainsReadErrorWithin most b unread) }
{
    match reader.finish() {
        Ok(trace) => Ok(trace),
        Err(refusal) => Err(ReadError::Text(refusal)),
    }
}

/// Doubles the buffer after a read that filled it, up to what the workers take at a time.
fn grow_buffer(buffer: &mut Vec<u8>, n: usize, workers: u32)
    requires workers { workers ≤ 64 }
    requires size { IsBufferSize workers (vec_len buffer.old) }
    ensures { IsBufferSize workers (vec_len buffer.new) }
{
    let size = buffer.len();
    if n == size && size * 2 <= shared_read(workers) {
        // if the allocation fails, the buffer is long enough as it is
        let _ = buffer.resize(size * 2, 0);
    }
}

/// Returns the trace that a text spells, under the default limits, as `read_trace` of `causal_text` does, by 1 to 64
/// workers. The result is the same for every number of workers. It reads as much at a time as `read_by`.
///
/// # Errors
/// Those of `read_trace`. A chunk for which a worker had no memory is parsed again when it has its turn, and only then
/// `NoMemory` is returned.
pub fn read_trace_by<R: Threads>(
    rt: &R,
    alloc: Global,
    bytes: &[u8],
    workers: u32,
) -> Result<Trace, TextFault>
    requires { (1 ≤ workers) × (workers ≤ 64) }
    ensures ok { IfOk result (λ trace. Spells bytes.now trace.recording) }
    ensures err { IfErr result
        (λ fault. fault.kind ≢ TextKind.NoMemory → IsFirstFault bytes.now fault) }
    ensures memory { IfErr result (λ fault. fault.kind ≡ TextKind.NoMemory
        → IsReadUpTo default_entries bytes.now fault.line) }
{
    let size = shared_read(workers);
    let mut reader = PushReader::new(alloc);
    let mut left = bytes;
    while !left.is_empty() {
        let (piece, after) = left.split_at(left.len().min(size));
        match feed_by(rt, alloc, reader, piece, workers) {
            Ok(next) => reader = next,
            Err(refusal) => return Err(refusal.into_fault()),
        }
        left = after;
    }
    match reader.finish() {
        Ok(trace) => Ok(trace),
        Err(refusal) => Err(refusal.into_fault()),
    }
}
