//! The stage after the lines so far, and the transition by one more line.
ghost use Rattle.std.specs.Prelude.{◌≡◌, ℕ, List, ◌≤◌, None, Ok, Err, Result, IfErr, IfNone, IfSome, OnErr, OnOk};
ghost use Rattle.causal_line.specs.Inside.Parsed.{apply_result};
ghost use Rattle.causal_line.specs.declared.kind.TextKind.{TextKind};
ghost use Rattle.causal_line.specs.declared.parsed_line.ParsedLine.{ParsedLine};
ghost use Rattle.causal_line.specs.Returns.{Returns};
ghost use Rattle.causal_line.specs.Refusals.{◌at◌, ReturnsTextRefusal, IsContextAt, IsContextOf, IsWithinText};
ghost use Rattle.causal_line.specs.Stages.{max_text_len, longest_text, open_text, apply_line, advance_stage, IsAppliedEntry, IsRefusedEntry};
ghost use Rattle.causal_line.specs.Values.{parse_line};
ghost use Rattle.causal_line.specs.Versions.{version_of};

use crate::kind::{TextFault, TextKind};
use crate::parsed_line::{ParsedLine, parse_line};
use crate::text_refusal::{FaultContext, TextRefusal};
use crate::trace_builder::TraceBuilder;
use crate::version::Version;
use causal_trace::entry::Entry;
use causal_trace::fault::{RefusedEntry, TraceFault};
use causal_trace::limits::Limits;
use std::alloc::Global;

/// Returns the maximum size in bytes of a text under these limits: 512 for each entry.
pub fn max_text_len(limits: Limits) -> usize
    ensures value { result ≡ max_text_len limits.entries }
    ensures few { result ≤ longest_text }
{
    limits.entries as usize * 512
}

/// The stage of a text: before its first line, within its entries, or after its end line.
#[derive(Drop)]
pub enum Stage {
    Opening,
    Within {
        version: Version,
        trace: TraceBuilder,
    },
    Ended {
        version: Version,
        trace: TraceBuilder,
    },
}

fn open_text(alloc: Global, number: u32, processes: u32) -> Result<Stage, TextKind>
    ensures { Returns result (open_text (version_of number) processes) }
{
    let Some(version) = Version::of(number) else {
        return Err(TextKind::Version);
    };
    if processes < 1 || processes > version.max_processes() {
        return Err(TextKind::Processes);
    }
    let trace = TraceBuilder::new(alloc, processes as u16)?;
    Ok(Stage::Within { version, trace })
}

fn refusal_without_context(number: u32, kind: TextKind) -> TextRefusal
    ensures line { result.fault.line ≡ number }
    ensures kind { result.fault.kind ≡ kind }
    ensures context { result.context ≡ None }
{
    TextRefusal::without_context(TextFault { line: number, kind })
}

// drops the stage; in a function of its own, since each drop makes a proof long
fn refuse(stage: Stage, number: u32, kind: TextKind) -> TextRefusal
    ensures line { result.fault.line ≡ number }
    ensures kind { result.fault.kind ≡ kind }
    ensures context { result.context ≡ None }
{
    let _stage = stage;
    refusal_without_context(number, kind)
}

// with the trace of the lines before, and the parsed line
fn refusal_with_context(
    number: u32,
    trace: TraceBuilder,
    parsed_line: ParsedLine,
    kind: TextKind,
) -> TextRefusal
    ensures line { result.fault.line ≡ number }
    ensures kind { result.fault.kind ≡ kind }
    ensures context { IfSome result.context
        (λ context. (context.trace.recording ≡ trace) × (context.parsed_line ≡ parsed_line)) }
{
    let trace = trace.into_trace();
    TextRefusal {
        fault: TextFault { line: number, kind },
        context: Some(FaultContext { trace, parsed_line }),
    }
}

// drops a line; in a function of its own, since each drop makes a proof long
fn discard<T: Drop>(line: T) {
    let _line = line;
}

// applies the first line
fn apply_first_line(alloc: Global, limits: Limits, shape: ParsedLine) -> Result<Stage, TextKind>
    ensures { Returns result (apply_line limits.entries Stage.Opening shape) }
{
    match shape {
        ParsedLine::Header { version, processes } => open_text(alloc, version, processes),
        _ => {
            discard(shape);
            Err(TextKind::Header)
        }
    }
}

// applies an entry within a text
fn push_entry(
    limits: Limits,
    number: u32,
    version: Version,
    mut trace: TraceBuilder,
    entry: Entry,
) -> Result<Stage, TextRefusal>
    ensures value { ReturnsTextRefusal result
        (apply_line limits.entries (Stage.Within version trace) (ParsedLine.Entry entry) at number) }
    ensures line { IfErr result (λ refused. refused.fault.line ≡ number) }
    ensures before { IfErr result (λ refused.
        IsContextOf (Stage.Within version trace) (ParsedLine.Entry entry) refused.context) }
{
    if !version.allows(&entry) {
        return Err(refusal_with_context(
            number,
            trace,
            ParsedLine::Entry { entry },
            TextKind::Form,
        ));
    }
    match trace.try_push(limits, entry) {
        Ok(()) => Ok(Stage::Within { version, trace }),
        Err(RefusedEntry { fault, entry }) => {
            let kind = TextKind::from(fault);
            match entry {
                Some(entry) => Err(refusal_with_context(
                    number,
                    trace,
                    ParsedLine::Entry { entry },
                    kind,
                )),
                None => Err(refusal_without_context(number, kind)),
            }
        }
    }
}

// applies a line within a text
fn apply_later_line(
    limits: Limits,
    number: u32,
    version: Version,
    trace: TraceBuilder,
    shape: ParsedLine,
) -> Result<Stage, TextRefusal>
    ensures value { ReturnsTextRefusal result
        (apply_line limits.entries (Stage.Within version trace) shape at number) }
    ensures line { IfErr result (λ refused. refused.fault.line ≡ number) }
    ensures before { IfErr result
        (λ refused. IsContextOf (Stage.Within version trace) shape refused.context) }
{
    match shape {
        ParsedLine::Header { .. } => Err(refusal_with_context(
            number,
            trace,
            shape,
            TextKind::Header,
        )),
        ParsedLine::Entry { entry } => push_entry(limits, number, version, trace, entry),
        ParsedLine::End { entries } => {
            if entries == trace.len() {
                Ok(Stage::Ended { version, trace })
            } else {
                Err(refusal_with_context(number, trace, shape, TextKind::Count))
            }
        }
    }
}

fn apply_line(
    alloc: Global,
    limits: Limits,
    stage: Stage,
    number: u32,
    shape: ParsedLine,
) -> Result<Stage, TextRefusal>
    ensures value { ReturnsTextRefusal result (apply_line limits.entries stage shape at number) }
    ensures line { IfErr result (λ refused. refused.fault.line ≡ number) }
    ensures before { IfErr result (λ refused. IsContextOf stage shape refused.context) }
{
    match stage {
        Stage::Opening => match apply_first_line(alloc, limits, shape) {
            Ok(begun) => Ok(begun),
            Err(kind) => Err(refusal_without_context(number, kind)),
        },
        Stage::Within { version, trace } => apply_later_line(limits, number, version, trace, shape),
        Stage::Ended { .. } => {
            discard(shape);
            Err(refuse(stage, number, TextKind::After))
        }
    }
}

/// The fault of the next line that does not depend on its content: it follows the end line, or ends beyond the limit.
#[tactic(auto, using(crate::proofs::Lemmas::Passed::in_limit, crate::proofs::Lemmas::Passed::too_long))]
fn early_fault(limits: Limits, stage: &Stage, end: usize) -> Option<TextKind>
    ensures some { IfSome result (λ kind. (line : List ℕ)
        → advance_stage limits.entries stage.now end line ≡ Err kind) }
    ensures none { IfNone result ((line : List ℕ) → advance_stage limits.entries stage.now end line
        ≡ apply_result limits.entries stage.now (parse_line line)) }
    ensures within { IfNone result (end ≤ max_text_len limits.entries) }
{
    if let Stage::Ended { .. } = stage {
        return Some(TextKind::After);
    }
    if end > max_text_len(limits) {
        return Some(TextKind::Big);
    }
    None
}

// applies a parsed line, or passes on the error of the parser
fn apply_parsed(
    alloc: Global,
    limits: Limits,
    stage: Stage,
    number: u32,
    parsed: Result<ParsedLine, TextKind>,
) -> Result<Stage, TextRefusal>
    ensures value { (read : Result ParsedLine TextKind) → Returns parsed read
        → ReturnsTextRefusal result (apply_result limits.entries stage read at number) }
    ensures line { IfErr result (λ refused. refused.fault.line ≡ number) }
    ensures context { IfErr result (λ refused. IfSome refused.context
        (λ context. IsWithinText stage context.trace.recording × (parsed ≡ Ok context.parsed_line))) }
{
    match parsed {
        Ok(parsed_line) => apply_line(alloc, limits, stage, number, parsed_line),
        Err(kind) => Err(refuse(stage, number, kind)),
    }
}

/// Applies the next line, which has this number and ends at byte number `end` of the text.
///
/// # Errors
/// The first error of the line in the order of [`TextKind`], or `NoMemory` if an allocation failed; with its context
/// where there is one.
pub fn advance_stage(
    alloc: Global,
    limits: Limits,
    stage: Stage,
    number: u32,
    end: usize,
    line: &[u8],
) -> Result<Stage, TextRefusal>
    ensures value { ReturnsTextRefusal result
        (advance_stage limits.entries stage end line.now at number) }
    ensures line { IfErr result (λ refused. refused.fault.line ≡ number) }
    ensures within { OnOk result (end ≤ max_text_len limits.entries) }
    ensures few { OnOk result (end ≤ longest_text) }
    ensures context { IfErr result (λ refused. IsContextAt stage line.now refused.context) }
{
    match early_fault(limits, &stage, end) {
        Some(kind) => Err(refuse(stage, number, kind)),
        None => apply_parsed(alloc, limits, stage, number, parse_line(alloc, line)),
    }
}

/// Applies the next line, which was parsed before its turn, as by another thread.
///
/// # Errors
/// Those of [`advance_stage`].
pub fn advance_parsed(
    alloc: Global,
    limits: Limits,
    stage: Stage,
    number: u32,
    end: usize,
    line: &[u8],
    parsed: Result<ParsedLine, TextKind>,
) -> Result<Stage, TextRefusal>
    requires { Returns parsed (parse_line line.now) }
    ensures value { ReturnsTextRefusal result
        (advance_stage limits.entries stage end line.now at number) }
    ensures line { IfErr result (λ refused. refused.fault.line ≡ number) }
    ensures within { OnOk result (end ≤ max_text_len limits.entries) }
    ensures few { OnOk result (end ≤ longest_text) }
    ensures context { IfErr result (λ refused. IsContextAt stage line.now refused.context) }
{
    let _line = line;
    match early_fault(limits, &stage, end) {
        Some(kind) => {
            discard(parsed);
            Err(refuse(stage, number, kind))
        }
        None => apply_parsed(alloc, limits, stage, number, parsed),
    }
}

/// Applies in place the line of this entry, which was parsed before its turn and ends at byte number `end` of the text, if
/// the entry is legal. Otherwise the stage is unchanged.
///
/// # Errors
/// The entry; None if an allocation failed.
pub fn try_push_entry(
    stage: &mut Stage,
    limits: Limits,
    end: usize,
    entry: Entry,
) -> Result<(), Option<Entry>>
    ensures value { OnOk result (IsAppliedEntry limits.entries stage.old end entry stage.new) }
    ensures few { OnOk result (end ≤ longest_text) }
    ensures unchanged { OnErr result (stage.new ≡ stage.old) }
    ensures returned { IfErr result (λ left. IfSome left (λ it. it ≡ entry)) }
    ensures refused { IfErr result (λ left. IfSome left
        (λ it. IsRefusedEntry limits.entries stage.old end entry)) }
{
    let Stage::Within { version, trace } = stage else {
        return Err(Some(entry));
    };
    if end > max_text_len(limits) {
        return Err(Some(entry));
    }
    if !version.allows(&entry) {
        return Err(Some(entry));
    }
    match trace.try_push(limits, entry) {
        Ok(()) => Ok(()),
        Err(refused) => Err(refused.entry),
    }
}
