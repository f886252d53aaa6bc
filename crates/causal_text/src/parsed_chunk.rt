//! A chunk of a text whose lines are parsed before their turn, by any thread.
ghost use Rattle.std.specs.Prelude.{◌≡◌, IfOk};
ghost use Rattle.causal_line.specs.Lines.{IsComplete};
ghost use Rattle.causal_line.specs.Returns.{Returns};
ghost use Rattle.causal_line.specs.Values.{parse_line};

use causal_line::kind::TextKind;
use causal_line::lines::split_complete;
use causal_line::parsed_line::{ParsedLine, parse_line};
use causal_name::NoMemory;
use std::alloc::Global;
use std::marker::Model;

/// A complete line, with its line feed, and its parsed form or its error.
#[derive(Drop)]
pub(crate) struct ChunkLine<'a> {
    pub bytes: &'a [u8],
    pub parsed: Result<ParsedLine, TextKind>,
}

/// A chunk of a text, any bytes of it: its first lines, each parsed, and the bytes after them. The model is the bytes
/// of the chunk.
#[derive(Drop)]
pub struct ParsedChunk<'a> {
    pub(crate) lines: Vec<ChunkLine<'a>>,
    pub(crate) rest: &'a [u8],
}

impl<'a> Model for ParsedChunk<'a> {
    ghost use Rattle.std.specs.Prelude.{ℕ, List, ◌++◌};
    ghost use Rattle.causal_text.specs.Inside.Chunks.{bytes_of, AreParsed};

    ghost Value = { List ℕ };

    ghost view = { λ chunk. bytes_of chunk.lines.items ++ chunk.rest.now };

    ghost invariant = { λ chunk. AreParsed chunk.lines.items };
}

/// About how long the shortest line of an entry is, in bytes.
const SHORTEST: usize = 14;

/// How many bytes at the beginning of a chunk show how long its lines are. To count all line feeds takes longer than to find each.
const SAMPLE: usize = 1_024;

/// Estimates how many complete lines these bytes have, at most as many as entries have room in them.
fn estimate_lines(bytes: &[u8]) -> usize {
    let (sample, rest) = bytes.split_at(bytes.len().min(SAMPLE));
    let feeds = sample.iter().filter(|byte| **byte == b'\n').count();
    let lines = (feeds + 1).saturating_mul(rest.len() / SAMPLE + 1);
    lines.min(bytes.len() / SHORTEST)
}

/// Parses the complete lines of a chunk, up to the first with an error. Needs nothing of the text before it, so several
/// threads can parse chunks at the same time; [`PushReader::feed_parsed`](crate::PushReader::feed_parsed) then reads
/// them in order. O(bytes) time; about 5 times the chunk's size in memory.
///
/// # Errors
/// `NoMemory` if the list of lines could not be allocated. If a line's memory could not, the line has that error.
pub fn parse_chunk(alloc: Global, bytes: &[u8]) -> Result<ParsedChunk<'_>, NoMemory>
    ensures { IfOk result (λ chunk. chunk ≡ bytes.now) }
{
    let mut lines = Vec::with_capacity(alloc, estimate_lines(bytes))?;
    let mut rest = bytes;
    while let Some((line, after)) = split_complete(rest) {
        let parsed = parse_line(alloc, line);
        let goes_on = parsed.is_ok();
        lines.push(ChunkLine {
            bytes: line,
            parsed,
        })?;
        if !goes_on {
            return Ok(ParsedChunk { lines, rest: after });
        }
        rest = after;
    }
    Ok(ParsedChunk { lines, rest })
}
