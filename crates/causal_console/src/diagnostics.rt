//! Messages on the input of a command, for standard error.
ghost use Rattle.std.specs.Prelude.{◌≡◌};

use crate::hints::{FileContent, print_hints};
use crate::place::InputNames;
use causal_outcomes::{DiagnosedFault, Ended, MapFault, Outcome, diagnostic_text};
use causal_text::TextFault;
use std::fmt::Display;

/// Prints a message as one line on standard error, if it can be written.
pub fn print_error_line<R: Eprint, D: Display>(rt: &R, command: &str, said: &D) {
    let _ = eprintln!(rt; "{command}: {said}");
}

/// Prints a message that names a line of the input, `line LINE: ..`. If that line is of a file, `FILE:LINE` replaces
/// `line LINE`.
pub fn print_at_line<R: Eprint + AllocGlobal, D: Display, S: Drop>(
    rt: &R,
    command: &str,
    input: &InputNames<'_, S>,
    line: u32,
    said: &D,
) {
    let Ok(said) = format!(in rt.alloc(); "{said}") else {
        return;
    };
    match after_line_number(said.as_str()) {
        Some(rest) => {
            let label = input.label(line);
            let _ = eprintln!(rt; "{command}: {label}{rest}");
        }
        None => print_error_line(rt, command, &said),
    }
}

/// Returns what follows `line LINE` at the beginning of a message, if it begins so.
fn after_line_number(message: &str) -> Option<&str> {
    let numbered = message.strip_prefix("line ")?;
    Some(numbered.trim_start_matches(|c: char| c.is_ascii_digit()))
}

/// Returns what follows `COMMAND: line LINE` at the beginning of a diagnostic, if it begins so.
fn after_place<'a>(command: &str, diagnostic: &'a str) -> Option<&'a str> {
    let message = diagnostic.strip_prefix(command)?.strip_prefix(": ")?;
    after_line_number(message)
}

/// Prints the diagnostic of a trace, if it is invalid, and returns how the command ended.
pub fn print_trace_outcome<R: Eprint + AllocGlobal, S: Drop>(
    rt: &R,
    command: &str,
    input: &InputNames<'_, S>,
    f: u16,
    outcome: Outcome<DiagnosedFault>,
) -> Ended
    ensures { result ≡ outcome.ended }
{
    if let Some(fault) = &outcome.fault {
        print_trace_fault(rt, command, input, f, fault);
        print_trace_hints(rt, command, input, fault);
    }
    outcome.ended
}

/// Prints why a map is not that of the trace, with its file's name.
pub fn print_map_fault<R: Eprint>(rt: &R, command: &str, map: &str, fault: &MapFault) {
    let _ = match fault {
        MapFault::Entry { position, .. } => {
            let line = position.saturating_add(1);
            eprintln!(rt; "{command}: {map}:{line}: {fault}")
        }
        _ => eprintln!(rt; "{command}: {map}: {fault}"),
    };
    let _ = eprintln!(rt; "{command}: give the map that merge wrote with this trace");
}

/// Prints the diagnostic of an invalid trace.
fn print_trace_fault<R: Eprint + AllocGlobal, S: Drop>(
    rt: &R,
    command: &str,
    input: &InputNames<'_, S>,
    f: u16,
    fault: &DiagnosedFault,
) {
    let Ok(bytes) = diagnostic_text(rt.alloc(), command, f, fault) else {
        return;
    };
    let Ok(text) = String::from_utf8_lossy(rt.alloc(), bytes.as_slice()) else {
        return;
    };
    match after_place(command, text.as_str()) {
        Some(rest) => {
            let label = input.label(fault.fault.line);
            let _ = eprint!(rt; "{command}: {label}{rest}");
        }
        None => {
            let _ = rt.eprint(text.as_str());
        }
    }
}

/// Prints what helps to mend the error of a trace.
fn print_trace_hints<R: Eprint, S: Drop>(
    rt: &R,
    command: &str,
    input: &InputNames<'_, S>,
    fault: &DiagnosedFault,
) {
    let TextFault { line, kind } = fault.fault;
    let start = input.line_start(line);
    let start = start.as_ref().map(|start| start.as_slice());
    print_hints(rt, command, FileContent::Trace, kind, start);
}
