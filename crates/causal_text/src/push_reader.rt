//! A push reader: the caller passes a text piece by piece or line by line, as it arrives, and can query the trace of the
//! complete lines.
ghost use Rattle.std.specs.Prelude.{◌≡◌, ◌++◌, ◌⊎◌, List, [], ℕ, true, IfOk, IfErr, IfSome, IfNone, OnOk};
ghost use Rattle.causal_trace.specs.Limits.{default_entries};
ghost use Rattle.causal_trace.specs.Rows.{Recording};
ghost use Rattle.causal_text.specs.FaultContexts.{IsTrueRefusalWithin, IsTrueRefusalAlways};
ghost use Rattle.causal_text.specs.Prefixes.{HasPrefixSpelling, SpellsLines, SpellsSoFar, IsRefusedAt};
ghost use Rattle.causal_text.specs.PushReaders.{HasReceived};
ghost use Rattle.causal_text.specs.Inside.Chunks.{IsParsed};
ghost use Rattle.causal_line.specs.Lines.{IsComplete, no_feed};
ghost use Rattle.causal_text.specs.Spelling.{SpellsWithin};

use crate::parsed_chunk::{ChunkLine, ParsedChunk};
use crate::reader::PieceReader;
use causal_line::kind::TextKind;
use causal_line::text_refusal::TextRefusal;
use causal_trace::limits::{DEFAULT_LIMITS, Limits};
use causal_trace::trace::Trace;
use std::alloc::Global;
use std::marker::Model;

/// A reader of a text in parts of any length. It buffers only the partial line and the trace, and no byte of a line
/// that is too long or follows the end line.
#[derive(Drop)]
pub struct PushReader {
    alloc: Global,
    limits: Limits,
    pieces: PieceReader,
}

impl Model for PushReader {
    ghost use Rattle.causal_text.specs.PushReaders.{PushReaderState};

    ghost Value = { PushReaderState };

    ghost view = { λ r. record { most = r.limits.entries; pieces = r.pieces } };
}

impl PushReader {
    /// Returns a reader before the first byte, with the default limits.
    pub fn new(alloc: Global) -> PushReader
        ensures read { HasReceived default_entries result [] }
        ensures none { (most : ℕ) (r : Recording) → HasPrefixSpelling most [] r → ⊥ }
    {
        PushReader::within(alloc, DEFAULT_LIMITS)
    }

    /// Returns a reader before the first byte, with these limits. A trace has at most `limits.entries` entries, and
    /// 16 times as many listed determinants; a text has at most 512 times as many bytes.
    pub fn within(alloc: Global, limits: Limits) -> PushReader
        ensures read { HasReceived limits.entries result [] }
        ensures none { (most : ℕ) (r : Recording) → HasPrefixSpelling most [] r → ⊥ }
    {
        PushReader {
            alloc,
            limits,
            pieces: PieceReader::new(alloc),
        }
    }

    /// Reads one more piece, which may be empty. A line is checked when its line feed arrives, or when the text
    /// exceeds its limit; a line after the end line, at its first byte.
    ///
    /// # Errors
    /// The first error of the text, whatever follows, with its context where there is one; or `NoMemory` if an
    /// allocation failed: the lines before it are correct.
    pub fn feed(self, piece: &[u8]) -> Result<PushReader, TextRefusal>
        ensures ok { IfOk result (λ next. (most : ℕ) (b : List ℕ) → HasReceived most self b
            → HasReceived most next (b ++ piece.now)) }
        ensures err { IfErr result (λ rejected. (most : ℕ) (b : List ℕ) → HasReceived most self b
            → IsTrueRefusalAlways most (b ++ piece.now) rejected) }
    {
        let PushReader {
            alloc,
            limits,
            pieces,
        } = self;
        match pieces.feed(alloc, limits, piece) {
            Ok(pieces) => Ok(PushReader {
                alloc,
                limits,
                pieces,
            }),
            Err(rejected) => Err(rejected),
        }
    }

    /// Reads the rest of a line, with its line feed.
    ///
    /// # Errors
    /// Those of `feed`.
    pub fn push_line(self, line: &[u8]) -> Result<PushReader, TextRefusal>
        requires { IsComplete line.now }
        ensures ok { IfOk result (λ next. (most : ℕ) (b : List ℕ) → HasReceived most self b
            → HasReceived most next (b ++ line.now)) }
        ensures new_prefixes { OnOk result ((most : ℕ) (b : List ℕ) (r : Recording) → HasReceived most self b
            → HasPrefixSpelling most (b ++ line.now) r
            → HasPrefixSpelling most b r ⊎ SpellsSoFar most (b ++ line.now) r) }
        ensures err { IfErr result (λ rejected. (most : ℕ) (b : List ℕ) → HasReceived most self b
            → IsRefusedAt most b line.now rejected) }
    {
        let PushReader {
            alloc,
            limits,
            pieces,
        } = self;
        match pieces.finish_line(alloc, limits, line) {
            Ok(pieces) => Ok(PushReader {
                alloc,
                limits,
                pieces,
            }),
            Err(rejected) => Err(rejected),
        }
    }

    /// Reads more of a line, without its line feed.
    ///
    /// # Errors
    /// Those of `feed`. A part is already an error if it follows the end line, or exceeds the text's limit.
    pub fn push_part(self, part: &[u8]) -> Result<PushReader, TextRefusal>
        requires { no_feed part.now ≡ true }
        ensures ok { IfOk result (λ next. (most : ℕ) (b : List ℕ) → HasReceived most self b
            → HasReceived most next (b ++ part.now)) }
        ensures no_new_prefix { OnOk result ((most : ℕ) (b : List ℕ) (r : Recording) → HasReceived most self b
            → HasPrefixSpelling most (b ++ part.now) r → HasPrefixSpelling most b r) }
        ensures err { IfErr result (λ rejected. (most : ℕ) (b : List ℕ) → HasReceived most self b
            → IsRefusedAt most b part.now rejected) }
    {
        let PushReader {
            alloc,
            limits,
            pieces,
        } = self;
        match pieces.buffer_part(limits, part) {
            Ok(pieces) => Ok(PushReader {
                alloc,
                limits,
                pieces,
            }),
            Err(rejected) => Err(rejected),
        }
    }

    // reads a complete line that was parsed before its turn
    fn push_parsed_line(self, line: ChunkLine<'_>) -> Result<PushReader, TextRefusal>
        requires { IsParsed line }
        ensures ok { IfOk result (λ next. (most : ℕ) (b : List ℕ) → HasReceived most self b
            → HasReceived most next (b ++ line.entry.bytes.now)) }
        ensures err { IfErr result (λ rejected. (most : ℕ) (b : List ℕ) → HasReceived most self b
            → IsRefusedAt most b line.entry.bytes.now rejected) }
    {
        let PushReader {
            alloc,
            limits,
            pieces,
        } = self;
        match pieces.finish_parsed_line(alloc, limits, line) {
            Ok(pieces) => Ok(PushReader {
                alloc,
                limits,
                pieces,
            }),
            Err(rejected) => Err(rejected),
        }
    }

    // reads a parsed line in place if it is a legal entry's; otherwise leaves the reader unchanged and returns the line
    fn try_parsed_line<'a>(&mut self, line: ChunkLine<'a>) -> Option<ChunkLine<'a>>
        requires { IsParsed line }
        ensures read { IfNone result ((most : ℕ) (b : List ℕ) → HasReceived most self.old b
            → HasReceived most self.new (b ++ line.entry.bytes.now)) }
        ensures unchanged { IfSome result (λ left. self.new ≡ self.old) }
        ensures left { IfSome result
            (λ left. IsParsed left × (left.bytes.now ≡ line.entry.bytes.now)) }
    {
        self.pieces.try_parsed_line(self.limits, line)
    }

    /// Reads the bytes of a chunk whose lines were parsed before. If a partial line is buffered, the chunk's first line
    /// is its rest, and is parsed again with it.
    ///
    /// # Errors
    /// Those of `feed`.
    pub fn feed_parsed(self, chunk: ParsedChunk<'_>) -> Result<PushReader, TextRefusal>
        ensures ok { IfOk result (λ next. (most : ℕ) (b : List ℕ) → HasReceived most self b
            → HasReceived most next (b ++ chunk.entry)) }
        ensures err { IfErr result (λ rejected. (most : ℕ) (b : List ℕ) → HasReceived most self b
            → IsTrueRefusalAlways most (b ++ chunk.entry) rejected) }
    {
        let ParsedChunk { lines, rest } = chunk;
        let mut reader = self;
        for line in lines {
            let Some(line) = reader.try_parsed_line(line) else {
                continue;
            };
            match reader.push_parsed_line(line) {
                Ok(next) => reader = next,
                Err(rejected) => return Err(rejected),
            }
        }
        reader.feed(rest)
    }

    /// Returns `NoMemory` as the error of the line that is being read.
    pub fn no_memory(&self) -> TextRefusal
        ensures kind { result.fault.kind ≡ TextKind.NoMemory }
        ensures refusal { (most : ℕ) (b : List ℕ) → HasReceived most self.now b
            → IsTrueRefusalAlways most b result }
    {
        TextRefusal::without_context(self.pieces.no_memory())
    }

    /// Returns the trace of the complete lines; None before the header and after the end line.
    pub fn trace(&self) -> Option<&Trace>
        ensures spells { IfSome result (λ trace. (most : ℕ) (b : List ℕ) → HasReceived most self.now b
            → SpellsSoFar most b trace.now.recording) }
        ensures unique { IfSome result (λ trace. (most : ℕ) (b : List ℕ) (r : Recording)
            → HasReceived most self.now b → SpellsSoFar most b r → trace.now.recording ≡ r) }
        ensures none { IfNone result ((most : ℕ) (b : List ℕ) (r : Recording)
            → HasReceived most self.now b → SpellsSoFar most b r → ⊥) }
    {
        self.pieces.trace()
    }

    /// Returns the trace of the complete lines, also after the end line; None before the header.
    pub fn trace_so_far(&self) -> Option<&Trace>
        ensures spells { IfSome result (λ trace. (most : ℕ) (b : List ℕ) → HasReceived most self.now b
            → SpellsLines most b trace.now.recording) }
        ensures none { IfNone result ((most : ℕ) (b : List ℕ) (r : Recording)
            → HasReceived most self.now b → SpellsLines most b r → ⊥) }
    {
        self.pieces.trace_so_far()
    }

    /// Returns the trace, if the bytes so far are the whole text.
    ///
    /// # Errors
    /// The first error of the text, or `NoMemory` if an allocation failed.
    pub fn finish(self) -> Result<Trace, TextRefusal>
        ensures ok { IfOk result (λ trace. (most : ℕ) (b : List ℕ) → HasReceived most self b
            → SpellsWithin most b trace.recording) }
        ensures err { IfErr result (λ rejected. (most : ℕ) (b : List ℕ) → HasReceived most self b
            → IsTrueRefusalWithin most b rejected) }
    {
        let PushReader {
            alloc,
            limits,
            pieces,
        } = self;
        match pieces.end(alloc, limits) {
            Ok(recorded) => Ok(recorded.into_trace()),
            Err(rejected) => Err(rejected),
        }
    }
}
