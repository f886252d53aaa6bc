//! Reading a text, whole or in pieces, up to its end or its first error.
ghost use Rattle.std.specs.Prelude.{◌≡◌, ◌≢◌, ◌++◌, ◌+◌, ◌<◌, ◌≤◌, List, [], ℕ, length, None, Some, Ok, IfOk, IfErr, IfSome, IfNone};
ghost use Rattle.causal_trace.specs.Limits.{default_entries};
ghost use Rattle.causal_trace.specs.Rows.{Recording};
ghost use Rattle.causal_text.specs.FaultContexts.{HasTrueContextWithin};
ghost use Rattle.causal_line.specs.Refusals.{ReturnsTextRefusal, IsWithinText, IsContextAt};
ghost use Rattle.causal_text.specs.Inside.Chunks.{IsParsed};
ghost use Rattle.causal_text.specs.Inside.Contexts.{HasTrueContextAlways};
ghost use Rattle.causal_text.specs.Pieces.{RepresentsBytes};
ghost use Rattle.causal_text.specs.Streams.{HasNothingAfterEnd};
ghost use Rattle.causal_text.specs.Inside.PartialLines.{IsFaultOfAll, with_line, IsLimitFault, finish_reading, FitsLimit};
ghost use Rattle.causal_lines.specs.ReadPositions.{recording_at};
ghost use Rattle.causal_text.specs.Spelling.{Spells, IsFirstFault, IsReadUpTo, IsReadAt};

use crate::parsed_chunk::ChunkLine;
use crate::push_reader::PushReader;
use causal_line::kind::{TextFault, TextKind};
use causal_line::lines::split_complete;
use causal_line::parsed_line::ParsedLine;
use causal_line::text_refusal::TextRefusal;
use causal_line::trace_builder::TraceBuilder;
use causal_lines::line_reader::LineReader;
use causal_trace::limits::Limits;
use causal_trace::trace::Trace;
use std::alloc::Global;
use std::marker::Model;

/// A reader of pieces: the reader of the complete lines, and the partial line.
#[derive(Drop)]
pub(crate) struct PieceReader {
    lines: LineReader,
    partial_line: Vec<u8>,
}

impl Model for PieceReader {
    ghost use Rattle.causal_text.specs.Pieces.{PieceState};

    ghost Value = { PieceState };

    ghost view = { λ r. record { place = r.lines; rest = r.partial_line.items } };
}

impl PieceReader {
    /// Returns a reader before the first piece.
    pub(crate) fn new(alloc: Global) -> PieceReader
        ensures bytes { (most : ℕ) → RepresentsBytes most result [] }
        ensures nothing { HasNothingAfterEnd result }
    {
        PieceReader {
            lines: LineReader::new(),
            partial_line: Vec::new(alloc),
        }
    }

    /// Returns `NoMemory` as the error of the line that is being read.
    pub(crate) fn no_memory(&self) -> TextFault
        ensures kind { result.kind ≡ TextKind.NoMemory }
        ensures line { result.line ≡ self.now.place.count + 1 }
    {
        self.lines.no_memory()
    }

    /// Returns the trace of the complete lines; None before the header and after the end line.
    pub(crate) fn trace(&self) -> Option<&Trace>
        ensures some { IfSome result
            (λ trace. IsWithinText self.now.place.stage trace.now.recording) }
        ensures none { IfNone result ((r : Recording) → IsWithinText self.now.place.stage r → ⊥) }
    {
        self.lines.trace()
    }

    /// Returns the trace of the complete lines, also after the end line; None before the header.
    pub(crate) fn trace_so_far(&self) -> Option<&Trace>
        ensures some { IfSome result
            (λ trace. recording_at self.now.place.stage ≡ Some trace.now.recording) }
        ensures none { IfNone result (recording_at self.now.place.stage ≡ None) }
    {
        self.lines.trace_so_far()
    }

    /// Reads the rest of a line, with its line feed.
    pub(crate) fn finish_line(
        self,
        alloc: Global,
        limits: Limits,
        line: &[u8],
    ) -> Result<PieceReader, TextRefusal>
        requires { 0 < length line.now }
        ensures value { ReturnsTextRefusal result (with_line limits.entries self line.now) }
        ensures line { IfErr result (λ rejected. rejected.fault.line ≡ self.place.count + 1) }
        ensures before { IfErr result
            (λ rejected. IsContextAt self.place.stage (self.rest ++ line.now) rejected.context) }
    {
        if self.partial_line.is_empty() {
            let PieceReader {
                lines,
                partial_line: rest,
            } = self;
            let lines = lines.push_line(alloc, limits, line)?;
            return Ok(PieceReader {
                lines,
                partial_line: rest,
            });
        }
        let PieceReader {
            lines,
            partial_line: mut rest,
        } = self.buffer_part(limits, line)?;
        let lines = lines.push_line(alloc, limits, rest.as_slice())?;
        rest.clear();
        Ok(PieceReader {
            lines,
            partial_line: rest,
        })
    }

    /// Reads the rest of a line, with its line feed, which was parsed as a line of its own: as far as it is one.
    pub(crate) fn finish_parsed_line(
        self,
        alloc: Global,
        limits: Limits,
        line: ChunkLine<'_>,
    ) -> Result<PieceReader, TextRefusal>
        requires some { 0 < length line.bytes.now }
        requires parsed { IsParsed line }
        ensures value { ReturnsTextRefusal result (with_line limits.entries self line.entry.bytes.now) }
        ensures line { IfErr result (λ rejected. rejected.fault.line ≡ self.place.count + 1) }
        ensures before { IfErr result (λ rejected.
            IsContextAt self.place.stage (self.rest ++ line.entry.bytes.now) rejected.context) }
    {
        let ChunkLine { bytes, parsed } = line;
        if !self.partial_line.is_empty() {
            return self.finish_line(alloc, limits, bytes);
        }
        let PieceReader {
            lines,
            partial_line,
        } = self;
        let lines = lines.push_parsed_line(alloc, limits, bytes, parsed)?;
        Ok(PieceReader {
            lines,
            partial_line,
        })
    }

    /// Reads a complete line in place that was parsed before its turn, if it is a legal entry's and no partial line is
    /// buffered. Otherwise leaves the reader unchanged and returns the line, with `NoMemory` if an allocation failed.
    pub(crate) fn try_parsed_line<'a>(
        &mut self,
        limits: Limits,
        line: ChunkLine<'a>,
    ) -> Option<ChunkLine<'a>>
        requires { IsParsed line }
        ensures read { IfNone result
            (with_line limits.entries self.old line.entry.bytes.now ≡ Ok self.new) }
        ensures unchanged { IfSome result (λ left. self.new ≡ self.old) }
        ensures left { IfSome result
            (λ left. IsParsed left × (left.bytes.now ≡ line.entry.bytes.now)) }
    {
        let ChunkLine { bytes, parsed } = line;
        if !self.partial_line.is_empty() {
            return Some(ChunkLine { bytes, parsed });
        }
        let entry = match parsed {
            Ok(ParsedLine::Entry { entry }) => entry,
            parsed => return Some(ChunkLine { bytes, parsed }),
        };
        match self.lines.try_push_entry(limits, bytes, entry) {
            Ok(()) => None,
            Err(Some(entry)) => Some(ChunkLine {
                bytes,
                parsed: Ok(ParsedLine::Entry { entry }),
            }),
            Err(None) => Some(ChunkLine {
                bytes,
                parsed: Err(TextKind::NoMemory),
            }),
        }
    }

    /// Buffers more of a line, unless it follows the end line or exceeds the text's limit.
    pub(crate) fn buffer_part(self, limits: Limits, part: &[u8]) -> Result<PieceReader, TextRefusal>
        ensures ok { IfOk result
            (λ r. r ≡ record { place = self.place; rest = self.rest ++ part.now }) }
        ensures room { IfOk result (FitsLimit limits.entries) }
        ensures err { IfErr result (λ rejected. rejected.fault.kind ≢ TextKind.NoMemory
            → (0 < length (self.rest ++ part.now))
            × IsLimitFault limits.entries (record { place = self.place; rest = self.rest ++ part.now }) rejected.fault) }
        ensures line { IfErr result (λ rejected. rejected.fault.line ≡ self.place.count + 1) }
        ensures before { IfErr result (λ rejected. rejected.context ≡ None) }
    {
        let PieceReader {
            lines,
            partial_line: mut rest,
        } = self;
        if let Some(fault) = lines.limit_fault(limits, rest.len().saturating_add(part.len())) {
            return Err(TextRefusal::without_context(fault));
        }
        if rest.extend_from_slice(part).is_err() {
            return Err(TextRefusal::without_context(lines.no_memory()));
        }
        Ok(PieceReader {
            lines,
            partial_line: rest,
        })
    }

    /// Reads the next piece of the text.
    pub(crate) fn feed(
        self,
        alloc: Global,
        limits: Limits,
        piece: &[u8],
    ) -> Result<PieceReader, TextRefusal>
        ensures ok { IfOk result (λ r. (b : List ℕ) → RepresentsBytes limits.entries self b
            → RepresentsBytes limits.entries r (b ++ piece.now)) }
        ensures room { IfOk result (FitsLimit limits.entries) }
        ensures err { IfErr result (λ rejected. rejected.fault.kind ≢ TextKind.NoMemory
            → (b : List ℕ) → RepresentsBytes limits.entries self b
            → IsFaultOfAll limits.entries (b ++ piece.now) rejected.fault) }
        ensures line { IfErr result (λ rejected. (b : List ℕ) →
            RepresentsBytes limits.entries self b
            → IsReadAt limits.entries (b ++ piece.now) rejected.fault.line) }
        ensures before { IfErr result (λ rejected. (b : List ℕ) →
            RepresentsBytes limits.entries self b
            → HasTrueContextAlways limits.entries (b ++ piece.now) rejected) }
    {
        let mut reader = self;
        let mut left = piece;
        while let Some((line, after)) = split_complete(left) {
            reader = reader.finish_line(alloc, limits, line)?;
            left = after;
        }
        reader.buffer_part(limits, left)
    }

    /// Returns the trace, if the bytes so far are the whole text.
    pub(crate) fn end(self, alloc: Global, limits: Limits) -> Result<TraceBuilder, TextRefusal>
        ensures value { ReturnsTextRefusal result (finish_reading limits.entries self) }
        ensures memory { IfErr result (λ rejected. rejected.fault.kind ≡ TextKind.NoMemory
            → rejected.fault.line ≡ self.place.count + 1) }
        ensures before { IfErr result (λ rejected. (b : List ℕ) →
            RepresentsBytes limits.entries self b
            → HasTrueContextWithin limits.entries b rejected) }
    {
        let PieceReader {
            lines,
            partial_line: rest,
        } = self;
        if rest.is_empty() {
            return lines.finish();
        }
        let lines = lines.push_line(alloc, limits, rest.as_slice())?;
        lines.finish()
    }
}

/// Returns the trace that a text spells, under the default limits; such a text has at most 33,554,432 bytes.
///
/// # Errors
/// The first error of the text: the first faulty line, counted from 1, with the first kind of [`TextKind`] that
/// applies. `NoMemory`, only if an allocation failed, with the line that was being read; the lines before it are
/// correct.
pub fn read_trace(alloc: Global, bytes: &[u8]) -> Result<Trace, TextFault>
    ensures ok { IfOk result (λ trace. Spells bytes.now trace.recording) }
    ensures err { IfErr result
        (λ fault. fault.kind ≢ TextKind.NoMemory → IsFirstFault bytes.now fault) }
    ensures memory { IfErr result (λ fault. fault.kind ≡ TextKind.NoMemory
        → IsReadUpTo default_entries bytes.now fault.line) }
{
    match PushReader::new(alloc).feed(bytes) {
        Ok(reader) => match reader.finish() {
            Ok(trace) => Ok(trace),
            Err(rejected) => Err(rejected.into_fault()),
        },
        Err(rejected) => Err(rejected.into_fault()),
    }
}
