//! A chunk of recorder files whose lines are parsed before their turn, by any thread.
ghost use Rattle.std.specs.Prelude.{◌≡◌, IfOk};
ghost use Rattle.causal_line.specs.Lines.{lines};

use crate::event::RecorderLine;
use crate::line_parser::parse_recorder_line;
use causal_line::kind::TextKind;
use causal_line::lines::split_line;
use causal_name::NoMemory;
use std::alloc::Global;
use std::marker::Model;

/// A line, with its line feed if it has one, and its content or its error.
#[derive(Drop)]
pub(crate) struct RecorderChunkLine<'a> {
    pub bytes: &'a [u8],
    pub content: Result<RecorderLine, TextKind>,
}

/// A chunk of recorder files: its first lines, each parsed, and the bytes after them. The model is the lines of the
/// chunk.
#[derive(Drop)]
pub struct RecorderChunk<'a> {
    pub(crate) parsed: Vec<RecorderChunkLine<'a>>,
    pub(crate) rest: &'a [u8],
}

impl<'a> Model for RecorderChunk<'a> {
    ghost use Rattle.std.specs.Prelude.{ℕ, List, ◌++◌};
    ghost use Rattle.causal_line.specs.Lines.{lines};
    ghost use Rattle.causal_merge.specs.Inside.RecorderChunks.{lines_of, AreParsedLines};

    ghost Value = { List (List ℕ) };

    ghost view = { λ chunk. lines_of chunk.parsed.items ++ lines chunk.rest.now };

    ghost invariant = { λ chunk. AreParsedLines chunk.parsed.items };
}

/// The size of the shortest line that is neither blank nor torn, `["crash",0,1]` with its line feed.
const SHORTEST: usize = 14;

/// Parses the lines of a chunk, up to the first with an error, and no more than whole lines of it there can be. Needs
/// nothing of the lines before it, so several threads can parse chunks at the same time;
/// [`RecordingReader::feed_parsed`](crate::RecordingReader::feed_parsed) then reads them in order, and those that were
/// not parsed. O(bytes) time; at most about 8 times the chunk's size in memory.
///
/// # Errors
/// `NoMemory` if the list of lines could not be allocated. If a line's memory could not, the line has that error.
pub fn parse_recordings(alloc: Global, bytes: &[u8]) -> Result<RecorderChunk<'_>, NoMemory>
    ensures { IfOk result (λ chunk. chunk ≡ lines bytes.now) }
{
    let mut parsed = Vec::new(alloc);
    let mut rest = bytes;
    while let Some((line, after)) = split_line(rest) {
        let content = parse_recorder_line(alloc, line);
        let goes_on = content.is_ok() && parsed.len() < bytes.len() / SHORTEST;
        parsed.push(RecorderChunkLine {
            bytes: line,
            content,
        })?;
        if !goes_on {
            return Ok(RecorderChunk {
                parsed,
                rest: after,
            });
        }
        rest = after;
    }
    Ok(RecorderChunk { parsed, rest })
}
