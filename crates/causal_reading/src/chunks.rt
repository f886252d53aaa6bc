//! How long the chunks are that several workers parse, and where bytes are cut.
ghost use Rattle.std.specs.Prelude.{◌≡◌, ◌+◌, ◌≤◌, ◌++◌, length};
ghost use Rattle.causal_line.specs.Lines.{lines};

use causal_text::lines::split_complete;

/// A piece of at most this many bytes is not divided. So a text below 64 KB starts no thread: of its pieces, each as
/// long as all before it and 4,096 bytes, none is longer.
pub(crate) const UNDIVIDED: usize = 32_768;

/// About how long a chunk of a text is, in bytes: so long that taking and checking it costs little beside parsing it, and so short
/// that the workers end a piece at about the same time. Chunks of recorder files are at least so long on average.
pub(crate) const CHUNK: usize = 8_192;

/// How many bytes at the beginning of a piece show how long its lines are.
const SAMPLE: usize = 4_096;

/// The lengths of chunks of recorder files, in percent of the length of the second: that of the first, and how much longer
/// each is than the one before it from the third on.
#[derive(Clone, Copy)]
pub(crate) struct Lengths {
    pub first: usize,
    pub more: usize,
}

/// Returns how long the calling thread takes to check lines, in percent of the time in which a worker parses them. It takes
/// about as long for any line, but a worker as long as the line's bytes.
pub(crate) fn checking_percent(piece: &[u8]) -> usize
    ensures { result ≤ 100 }
{
    let (sample, _) = piece.split_at(piece.len().min(SAMPLE));
    let feeds = sample.iter().filter(|byte| **byte == b'\n').count();
    if feeds > SAMPLE / 128 { 18 } else { 8 }
}

impl Lengths {
    /// Returns the lengths at which each chunk is parsed when the calling thread has checked those before it.
    pub(crate) fn in_turn(checking: usize) -> Lengths
        requires { checking ≤ 100 }
    {
        Lengths {
            first: 10_000 / (100 + checking),
            more: checking,
        }
    }
}

/// Returns about how many of `len` bytes lie before the last chunk.
pub(crate) fn front_len(len: usize, chunks: usize, lengths: Lengths) -> usize
    requires { 2 ≤ chunks }
    ensures { result ≤ len }
{
    let last = lengths.more.saturating_mul(chunks - 2).saturating_add(100);
    let behind_first = last.saturating_add(100).saturating_mul(chunks - 1) / 2;
    let all = behind_first.saturating_add(lengths.first).max(1);
    len.saturating_sub((len / all).saturating_mul(last))
}

/// Splits bytes after the first line feed from index `at` on; the second part is empty if there is none.
pub(crate) fn split_lines(bytes: &[u8], at: usize) -> (&[u8], &[u8])
    requires { at ≤ length bytes.now }
    ensures whole { bytes.now ≡ result.0.now ++ result.1.now }
    ensures parts { lines bytes.now ≡ lines result.0.now ++ lines result.1.now }
    ensures shorter { at + length result.1.now ≤ length bytes.now }
{
    let (_, back) = bytes.split_at(at);
    match split_complete(back) {
        Some((_, after)) => bytes.split_at(bytes.len() - after.len()),
        None => (bytes, &[]),
    }
}
