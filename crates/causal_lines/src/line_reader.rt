//! The reader of lines.
ghost use Rattle.std.specs.Prelude.{◌≡◌, ◌≢◌, ◌+◌, ◌<◌, ◌≤◌, length, None, Some, Ok, IfSome, IfNone, IfErr, IsErr, OnErr, OnOk};
ghost use Rattle.causal_trace.specs.Rows.{Recording};
ghost use Rattle.causal_lines.specs.ReadPositions.{start_position, position_after, finish_at, recording_at, IsFaultFrom, HasRoomFor};
ghost use Rattle.causal_line.specs.Refusals.{ReturnsTextRefusal, IsWithinText, IsContextAt};
ghost use Rattle.causal_line.specs.Returns.{Returns};
ghost use Rattle.causal_line.specs.Values.{parse_line};

use causal_line::kind::{TextFault, TextKind};
use causal_line::parsed_line::ParsedLine;
use causal_line::stage::{Stage, advance_parsed, advance_stage, max_text_len, try_push_entry};
use causal_line::text_refusal::TextRefusal;
use causal_line::trace_builder::TraceBuilder;
use causal_trace::entry::Entry;
use causal_trace::limits::Limits;
use causal_trace::trace::Trace;
use std::alloc::Global;
use std::marker::Model;

/// A reader of lines: the stage after the lines so far, their number, and their size in bytes.
#[derive(Drop)]
pub struct LineReader {
    stage: Stage,
    count: u32,
    size: usize,
}

impl Model for LineReader {
    ghost use Rattle.std.specs.Prelude.{◌≡◌, ◌+◌, ◌≤◌};
    ghost use Rattle.causal_trace.specs.Limits.{max_entries};
    ghost use Rattle.causal_lines.specs.ReadPositions.{ReadPosition};
    ghost use Rattle.causal_lines.specs.ReadPositions.{lines_in, entries_in};
    ghost use Rattle.causal_line.specs.Stages.{longest_text};

    ghost Value = { ReadPosition };

    ghost view = { λ r. record { stage = r.stage; count = r.count; size = r.size } };

    ghost invariant = { λ r. (r.count ≡ lines_in r.stage) × (r.count ≤ max_entries + 2) × (entries_in r.stage ≤ max_entries) × (r.size ≤ longest_text) };
}

impl LineReader {
    /// Returns a reader before the first line.
    pub fn new() -> LineReader
        ensures { result ≡ start_position }
    {
        LineReader {
            stage: Stage::Opening,
            count: 0,
            size: 0,
        }
    }

    /// Reads the next line.
    ///
    /// # Errors
    /// The first error of the line, or `NoMemory` if an allocation failed; with its context where there is one.
    pub fn push_line(
        self,
        alloc: Global,
        limits: Limits,
        line: &[u8],
    ) -> Result<LineReader, TextRefusal>
        requires { 0 < length line.now }
        ensures value { ReturnsTextRefusal result (position_after limits.entries self line.now) }
        ensures line { IfErr result (λ rejected. rejected.fault.line ≡ self.count + 1) }
        ensures context { IfErr result
            (λ rejected. IsContextAt self.stage line.now rejected.context) }
    {
        let LineReader { stage, count, size } = self;
        let end = size.saturating_add(line.len());
        let stage = advance_stage(alloc, limits, stage, count + 1, end, line)?;
        Ok(LineReader {
            stage,
            count: count + 1,
            size: end,
        })
    }

    /// Reads the next line, which was parsed before its turn.
    ///
    /// # Errors
    /// Those of `push_line`.
    pub fn push_parsed_line(
        self,
        alloc: Global,
        limits: Limits,
        line: &[u8],
        parsed: Result<ParsedLine, TextKind>,
    ) -> Result<LineReader, TextRefusal>
        requires some { 0 < length line.now }
        requires parsed { Returns parsed (parse_line line.now) }
        ensures value { ReturnsTextRefusal result (position_after limits.entries self line.now) }
        ensures line { IfErr result (λ rejected. rejected.fault.line ≡ self.count + 1) }
        ensures context { IfErr result
            (λ rejected. IsContextAt self.stage line.now rejected.context) }
    {
        let LineReader { stage, count, size } = self;
        let end = size.saturating_add(line.len());
        let stage = advance_parsed(alloc, limits, stage, count + 1, end, line, parsed)?;
        Ok(LineReader {
            stage,
            count: count + 1,
            size: end,
        })
    }

    /// Reads in place the line of this entry, which was parsed before its turn, if the entry is legal. Otherwise the reader
    /// is unchanged.
    ///
    /// # Errors
    /// The entry; None if an allocation failed.
    pub fn try_push_entry(
        &mut self,
        limits: Limits,
        line: &[u8],
        entry: Entry,
    ) -> Result<(), Option<Entry>>
        requires { parse_line line.now ≡ Ok (ParsedLine.Entry entry) }
        ensures value { OnOk result
            (position_after limits.entries self.old line.now ≡ Ok self.new) }
        ensures unchanged { OnErr result (self.new ≡ self.old) }
        ensures returned { IfErr result (λ left. IfSome left (λ it. it ≡ entry)) }
        ensures refused { IfErr result (λ left. IfSome left
            (λ it. IsErr (position_after limits.entries self.old line.now))) }
    {
        let end = self.size.saturating_add(line.len());
        try_push_entry(&mut self.stage, limits, end, entry)?;
        self.count += 1;
        self.size = end;
        Ok(())
    }

    /// Returns `NoMemory` as the error of the line that is being read.
    pub fn no_memory(&self) -> TextFault
        ensures kind { result.kind ≡ TextKind.NoMemory }
        ensures line { result.line ≡ self.now.count + 1 }
    {
        TextFault {
            line: self.count + 1,
            kind: TextKind::NoMemory,
        }
    }

    /// Returns the error that every line of `len` or more bytes has here, if there is one. No byte may follow the end
    /// line, or exceed the text's limit. So a caller can check before it buffers the bytes.
    pub fn limit_fault(&self, limits: Limits, len: usize) -> Option<TextFault>
        ensures fault { IfSome result
            (λ fault. (0 < len) × IsFaultFrom limits.entries self.now len fault) }
        ensures line { IfSome result (λ fault. fault.line ≡ self.now.count + 1) }
        ensures room { IfNone result (HasRoomFor limits.entries self.now len) }
    {
        let end = self.size.saturating_add(len);
        if len == 0 {
            return None;
        }
        let most = max_text_len(limits);
        let kind = match self.stage {
            Stage::Ended { .. } => TextKind::After,
            _ if end > most => TextKind::Big,
            _ => return None,
        };
        Some(TextFault {
            line: self.count + 1,
            kind,
        })
    }

    /// Returns the trace so far; None before the header and after the end line.
    pub fn trace(&self) -> Option<&Trace>
        ensures some { IfSome result (λ trace. IsWithinText self.now.stage trace.now.recording) }
        ensures none { IfNone result ((r : Recording) → IsWithinText self.now.stage r → ⊥) }
    {
        match &self.stage {
            Stage::Within { trace, .. } => Some(trace.trace()),
            _ => None,
        }
    }

    /// Returns the trace so far, also after the end line; None before the header.
    pub fn trace_so_far(&self) -> Option<&Trace>
        ensures some { IfSome result
            (λ trace. recording_at self.now.stage ≡ Some trace.now.recording) }
        ensures none { IfNone result (recording_at self.now.stage ≡ None) }
    {
        match &self.stage {
            Stage::Opening => None,
            Stage::Within { trace, .. } => Some(trace.trace()),
            Stage::Ended { trace, .. } => Some(trace.trace()),
        }
    }

    /// Returns the trace, if its end line was read.
    ///
    /// # Errors
    /// `Cut` without an end line.
    pub fn finish(self) -> Result<TraceBuilder, TextRefusal>
        ensures value { ReturnsTextRefusal result (finish_at self self.stage) }
        ensures kind { IfErr result (λ rejected. rejected.fault.kind ≢ TextKind.NoMemory) }
        ensures context { IfErr result (λ rejected. rejected.context ≡ None) }
    {
        match self.stage {
            Stage::Ended { trace, .. } => Ok(trace),
            _ => Err(TextRefusal::without_context(TextFault {
                line: self.count + 1,
                kind: TextKind::Cut,
            })),
        }
    }
}
