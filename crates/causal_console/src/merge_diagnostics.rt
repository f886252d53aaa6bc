//! Messages on recorder files for standard error.
ghost use Rattle.std.specs.Prelude.{◌≡◌};

use crate::diagnostics::{print_at_line, print_error_line};
use crate::hints::{FileContent, print_hints};
use crate::place::InputNames;
use causal_merge::{MergeFault, MergeKind, merge_sentence};
use causal_outcomes::{Ended, MergeOutcome};

// maximum number of torn lines that are printed one by one
const MAX_TORN_PRINTED: usize = 1000;

/// Prints the torn lines, which a kill cut short, or the error of the recorder files with its possible cause. It
/// returns the ending.
pub fn print_merge_diagnostics<R: Eprint + AllocGlobal, S: Drop>(
    rt: &R,
    command: &str,
    input: &InputNames<'_, S>,
    told: MergeOutcome,
) -> Ended
    ensures { result ≡ told.ended }
{
    print_torn_lines(rt, command, input, told.torn.as_slice());
    if let Some(fault) = &told.fault {
        print_merge_fault(rt, command, input, fault, told.excerpt.as_slice());
    }
    told.ended
}

fn print_torn_lines<R: Eprint, S: Drop>(
    rt: &R,
    command: &str,
    input: &InputNames<'_, S>,
    torn: &[u32],
) {
    for line in torn.iter().take(MAX_TORN_PRINTED) {
        print_torn_line(rt, command, input, *line);
    }
    if torn.len() > MAX_TORN_PRINTED {
        let more = torn.len() - MAX_TORN_PRINTED;
        let _ = eprintln!(rt; "{command}: {more} more torn lines: passed over");
    }
}

fn print_torn_line<R: Eprint, S: Drop>(
    rt: &R,
    command: &str,
    input: &InputNames<'_, S>,
    line: u32,
) {
    let _ = match input.file_label(line) {
        Some(label) => eprintln!(rt; "{command}: {label}: torn line={line}: passed over"),
        None => eprintln!(rt; "{command}: torn line={line}: passed over"),
    };
}

/// Prints each process that has no header, if that is the error.
fn print_missing_headers<R: Eprint>(rt: &R, command: &str, kind: &MergeKind) {
    let MergeKind::NoHeader { missing } = kind else {
        return;
    };
    for process in missing.iter() {
        let _ = eprintln!(rt; "{command}: process {process} has no header");
    }
}

fn print_merge_fault<R: Eprint + AllocGlobal, S: Drop>(
    rt: &R,
    command: &str,
    input: &InputNames<'_, S>,
    fault: &MergeFault,
    start: &[u8],
) {
    match merge_sentence(rt.alloc(), fault) {
        Ok(text) => print_at_line(rt, command, input, fault.line, &text),
        Err(_) => print_at_line(rt, command, input, fault.line, fault),
    }
    print_missing_headers(rt, command, &fault.kind);
    if let MergeKind::Line(kind) = &fault.kind {
        print_hints(rt, command, FileContent::Recordings, *kind, Some(start));
    }
    if let Some(hint) = fault.kind.hint() {
        print_error_line(rt, command, &hint);
    }
}
