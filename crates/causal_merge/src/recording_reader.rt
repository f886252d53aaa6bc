//! A reader of recorder files: the caller passes their lines part by part.
ghost use Rattle.std.specs.Prelude.{◌≡◌, ◌≢◌, ◌+◌, ◌<◌, ◌≤◌, ◌∷◌, [], ℕ, List, length, reverse, IfOk, IfErr, OnOk};
ghost use Rattle.causal_line.specs.Lines.{lines};
ghost use Rattle.causal_line.specs.Returns.{Returns};
ghost use Rattle.causal_merge.specs.Merges.{MergesFrom, MergesWithin, IsFirstMergeFaultWithin};
ghost use Rattle.causal_merge.specs.ParsedFiles.{IsSoundLine};
ghost use Rattle.causal_merge.specs.Reading.{max_bytes, next_line, line_fault};
ghost use Rattle.causal_merge.specs.RecordingReaders.{HasReadLines, IsReadBy};
ghost use Rattle.causal_merge.specs.Inside.RecorderChunks.{IsParsedLine};

use crate::event::RecorderLine;
use crate::fault::{MergeFault, MergeKind};
use crate::line_parser::{next_line, next_parsed_line};
use crate::merge::{MappedTrace, MergedTrace, map_run, merge_run, order_run};
use crate::parsed_files::ParsedFiles;
use crate::recorder_chunk::{RecorderChunk, RecorderChunkLine};
use causal_line::kind::TextKind;
use causal_line::lines::split_line;
use causal_trace::limits::Limits;
use std::alloc::Global;
use std::marker::Model;

/// A reader of the lines of recorder files, in order.
#[derive(Drop)]
pub struct RecordingReader {
    alloc: Global,
    limits: Limits,
    files: ParsedFiles,
    size: usize,
}

impl Model for RecordingReader {
    ghost use Rattle.std.specs.Prelude.{List, ◌≤◌};
    ghost use Rattle.causal_merge.specs.declared.event.RecorderLine.{RecorderLine};
    ghost use Rattle.causal_merge.specs.ParsedFiles.{AreParsedFiles};
    ghost use Rattle.causal_merge.specs.Reading.{max_bytes};
    ghost use Rattle.causal_merge.specs.RecordingReaders.{RecordingReaderState};

    ghost Value = { RecordingReaderState };

    ghost view = { λ r. record { most = r.limits.entries; files = r.files; size = r.size } };

    ghost invariant = { λ r. (said : List RecorderLine) × AreParsedFiles r.files said × (r.files.count ≤ r.size) × (r.size ≤ max_bytes) };
}

impl RecordingReader {
    /// Returns a reader before the first line, with these limits, as `merge_within` has them.
    pub fn within(alloc: Global, limits: Limits) -> RecordingReader
        ensures { HasReadLines limits.entries result [] }
    {
        RecordingReader {
            alloc,
            limits,
            files: ParsedFiles::new(alloc),
            size: 0,
        }
    }

    // adds the content of the next line, or returns its error
    fn push_content(
        self,
        line: &[u8],
        content: Result<RecorderLine, TextKind>,
    ) -> Result<RecordingReader, MergeFault>
        requires some { 0 < length line.now }
        requires value { Returns content
            (next_line self.most self.files.run (self.size + length line.now) line.now) }
        requires sound { IfOk content IsSoundLine }
        requires within { OnOk content (self.size + length line.now ≤ max_bytes) }
        ensures { IsReadBy self (line.now ∷ []) result }
    {
        let RecordingReader {
            alloc,
            limits,
            mut files,
            size,
        } = self;
        let number = files.count + 1;
        let content = match content {
            Ok(content) => content,
            Err(kind) => return Err(line_fault(number, kind)),
        };
        match files.note(content) {
            Ok(()) => Ok(RecordingReader {
                alloc,
                limits,
                files,
                size: size.saturating_add(line.len()),
            }),
            Err(kind) => Err(line_fault(number, kind)),
        }
    }

    // reads the next line
    fn push_line(self, line: &[u8]) -> Result<RecordingReader, MergeFault>
        requires { 0 < length line.now }
        ensures { IsReadBy self (line.now ∷ []) result }
    {
        let end = self.size.saturating_add(line.len());
        let content = next_line(self.alloc, self.limits, self.files.run, end, line);
        self.push_content(line, content)
    }

    // reads the next line, which was parsed before its turn
    fn push_parsed_line(self, line: RecorderChunkLine<'_>) -> Result<RecordingReader, MergeFault>
        requires { IsParsedLine line }
        ensures { IsReadBy self (line.entry.bytes.now ∷ []) result }
    {
        let bytes = line.bytes;
        let end = self.size.saturating_add(bytes.len());
        let content = next_parsed_line(self.limits, self.files.run, end, line);
        self.push_content(bytes, content)
    }

    /// Reads whole lines. The last one of the files may have no line feed.
    ///
    /// # Errors
    /// The first error of a line, or `NoMemory` if an allocation failed: the lines before it have no error.
    pub fn feed(self, text: &[u8]) -> Result<RecordingReader, MergeFault>
        ensures { IsReadBy self (lines text.now) result }
    {
        let mut reader = self;
        let mut left = text;
        while let Some((line, after)) = split_line(left) {
            match reader.push_line(line) {
                Ok(next) => reader = next,
                Err(fault) => return Err(fault),
            }
            left = after;
        }
        Ok(reader)
    }

    /// Reads the lines of a chunk, which were parsed before their turn.
    ///
    /// # Errors
    /// Those of `feed`.
    pub fn feed_parsed(self, chunk: RecorderChunk<'_>) -> Result<RecordingReader, MergeFault>
        ensures { IsReadBy self chunk.entry result }
    {
        let RecorderChunk { parsed, rest } = chunk;
        let mut reader = self;
        for line in parsed {
            match reader.push_parsed_line(line) {
                Ok(next) => reader = next,
                Err(fault) => return Err(fault),
            }
        }
        reader.feed(rest)
    }

    /// Returns `NoMemory` as the error of the next line.
    pub fn no_memory(&self) -> MergeFault
        ensures { result.kind ≡ MergeKind.Line TextKind.NoMemory }
    {
        line_fault(self.files.count + 1, TextKind::NoMemory)
    }

    /// Returns the trace of the files, whose lines have all been read.
    ///
    /// # Errors
    /// The first of a missing header and of the events in the merge order, or `NoMemory` if an allocation failed.
    pub fn merge(self) -> Result<MergedTrace, MergeFault>
        ensures ok { IfOk result (λ merged. (most : ℕ) (text : List ℕ)
            → HasReadLines most self (reverse (lines text))
            → MergesWithin most text merged.trace.recording merged.torn.items) }
        ensures err { IfErr result (λ fault. (most : ℕ) (text : List ℕ)
            → HasReadLines most self (reverse (lines text))
            → fault.kind ≢ MergeKind.Line TextKind.NoMemory → IsFirstMergeFaultWithin most text fault) }
    {
        let RecordingReader {
            alloc,
            limits,
            files,
            ..
        } = self;
        let ordered = order_run(files)?;
        merge_run(alloc, limits, ordered)
    }

    /// Returns the trace as `merge` does, and where each entry comes from, in 16 more bytes for each.
    ///
    /// # Errors
    /// Those of `merge`.
    pub fn merge_mapped(self) -> Result<MappedTrace, MergeFault>
        ensures ok { IfOk result (λ mapped. (most : ℕ) (text : List ℕ)
            → HasReadLines most self (reverse (lines text))
            → MergesFrom most text mapped.merged.trace.recording mapped.merged.torn.items
            mapped.origins.items) }
        ensures err { IfErr result (λ fault. (most : ℕ) (text : List ℕ)
            → HasReadLines most self (reverse (lines text))
            → fault.kind ≢ MergeKind.Line TextKind.NoMemory → IsFirstMergeFaultWithin most text fault) }
    {
        let RecordingReader {
            alloc,
            limits,
            files,
            ..
        } = self;
        let ordered = order_run(files)?;
        map_run(alloc, limits, ordered)
    }
}

/// Returns an error of a line.
fn line_fault(line: u32, kind: TextKind) -> MergeFault
    ensures { result ≡ line_fault line kind }
{
    MergeFault {
        line,
        kind: MergeKind::Line(kind),
        detail: None,
    }
}
