//! The content of the lines read so far, as the merge needs it.
ghost use Rattle.std.specs.Prelude.{◌≡◌, ◌+◌, ◌<◌, ◌≤◌, ◌∷◌, ℕ, List, [], length, slice_index_or, true, false, Ok, OnOk, IfOk, IfErr, not};
ghost use Rattle.std.specs.Ordering.{nat_cmp};
ghost use Rattle.std.specs.FinSet.{FinSet};
ghost use Rattle.causal_holders.specs.Members.{HasMembers};
ghost use Rattle.causal_trace.specs.Limits.{IsProcessCount};
ghost use Rattle.causal_merge.specs.declared.event.RecorderLine.{RecorderLine};
ghost use Rattle.causal_merge.specs.ReadLines.{HasAllHeaders, LacksHeader, header_fault};
ghost use Rattle.causal_merge.specs.Reading.{max_bytes};
ghost use Rattle.causal_merge.specs.ParsedFiles.{AreParsedFiles, HasParsedLines, IsSoundLine};

use crate::event::{EventAtLine, RecorderLine, RunHeader};
use crate::fault::{MergeFault, MergeKind};
use causal_holders::ByteSet;
use causal_line::kind::TextKind;
use std::alloc::Global;

// those of the first n flags that are not set
#[tactic(auto, using(crate::proofs::ReadLemmas::of_missing))]
fn unset_among(headers_seen: &[bool; 256], n: u16) -> ByteSet
    requires { n ≤ 256 }
    ensures { HasMembers n result (λ p. not (slice_index_or headers_seen.now p false)) }
{
    let mut missing = ByteSet::none();
    for p in 0..n {
        if !headers_seen[p as usize] {
            missing.insert(p as u8);
        }
    }
    missing
}

/// Returns the error that these processes have no header.
fn header_fault(line: u32, missing: ByteSet) -> MergeFault
    ensures { result ≡ header_fault line missing }
{
    MergeFault {
        line,
        kind: MergeKind::NoHeader { missing },
        detail: None,
    }
}

/// The run of the first header, which processes have headers, the events in the order of the input, the numbers of the
/// torn lines, and the number of lines.
#[derive(Drop)]
pub(crate) struct ParsedFiles {
    pub run: Option<RunHeader>,
    pub headers_seen: [bool; 256],
    pub events: Vec<EventAtLine>,
    pub torn: Vec<u32>,
    pub count: u32,
}

impl ParsedFiles {
    /// Starts before the first line.
    pub(crate) fn new(alloc: Global) -> ParsedFiles
        ensures read { (most : ℕ) → HasParsedLines most result [] }
        ensures count { result.count ≡ 0 }
    {
        ParsedFiles {
            run: None,
            headers_seen: [false; 256],
            events: Vec::new(alloc),
            torn: Vec::new(alloc),
            count: 0,
        }
    }

    /// Adds the content of one more line.
    pub(crate) fn note(&mut self, line: RecorderLine) -> Result<(), TextKind>
        requires few { self.old.count ≤ max_bytes }
        requires sound { IsSoundLine line }
        ensures ok { OnOk result
            ((said : List RecorderLine) → AreParsedFiles self.old said →
            AreParsedFiles self.new (line ∷ said)) }
        ensures err { IfErr result (λ kind. kind ≡ TextKind.NoMemory) }
        ensures count { OnOk result (self.new.count ≡ self.old.count + 1) }
    {
        let number = self.count + 1;
        match line {
            RecorderLine::Header { process, run } => {
                self.headers_seen[process.0 as usize] = true;
                self.run = Some(self.run.unwrap_or(run));
            }
            RecorderLine::Event { event } => self.events.push(EventAtLine {
                line: number,
                event,
            })?,
            RecorderLine::Torn => self.torn.push(number)?,
            RecorderLine::Blank => {}
            RecorderLine::Heard => {}
        }
        self.count = number;
        Ok(())
    }

    /// Returns the run, if each of its processes has a header; else the error `NoHeader`.
    pub(crate) fn whole_run(&self) -> Result<RunHeader, MergeFault>
        requires few { self.now.count ≤ max_bytes }
        requires said { (said : List RecorderLine) × AreParsedFiles self.now said }
        ensures ok { IfOk result
            (λ run. (said : List RecorderLine) → AreParsedFiles self.now said → HasAllHeaders said run) }
        ensures few { IfOk result
            (λ run. (said : List RecorderLine) → AreParsedFiles self.now said →
            IsProcessCount run.processes) }
        ensures err { IfErr result (λ fault. (said : List RecorderLine) → AreParsedFiles self.now said
            → (missing : FinSet nat_cmp) × LacksHeader said missing
            × (fault ≡ header_fault (length said + 1) missing)) }
    {
        let line = self.count + 1;
        let Some(run) = self.run else {
            return Err(header_fault(line, ByteSet::none()));
        };
        let missing = unset_among(&self.headers_seen, run.processes);
        match missing.least() {
            None => Ok(run),
            Some(_process) => Err(header_fault(line, missing)),
        }
    }
}
