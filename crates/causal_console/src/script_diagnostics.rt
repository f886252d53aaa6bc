//! Messages on a script, for standard error.
use crate::diagnostics::{print_at_line, print_error_line};
use crate::place::InputNames;
use causal_name::{MsgName, Pid};
use std::fmt::Display;

// maximum number of pending messages that are printed one by one
const MAX_PENDING_PRINTED: usize = 100;

/// Prints why a script was not run to its end, at the line where it was not, if one is known, and what was expected in its
/// place.
pub fn print_script_fault<R: Eprint + AllocGlobal, D: Display, S: Drop>(
    rt: &R,
    command: &str,
    input: &InputNames<'_, S>,
    line: Option<u32>,
    fault: &D,
    expected: Option<&str>,
) {
    match line {
        Some(line) => print_at_line(rt, command, input, line, fault),
        None => print_error_line(rt, command, fault),
    }
    if let Some(expected) = expected {
        print_error_line(rt, command, &expected);
    }
}

/// Prints what was pending for the receiver of a refused delivery.
pub fn print_pending<R: Eprint>(rt: &R, command: &str, names: &[MsgName]) {
    if names.is_empty() {
        return print_error_line(rt, command, &"no message is pending there");
    }
    for name in names.iter().take(MAX_PENDING_PRINTED) {
        let MsgName {
            source: Pid(source),
            ssn,
        } = *name;
        let _ = eprintln!(rt; "{command}: pending there: message {ssn} of process {source}");
    }
    if names.len() > MAX_PENDING_PRINTED {
        let more = names.len() - MAX_PENDING_PRINTED;
        let _ = eprintln!(rt; "{command}: {more} more are pending there");
    }
}
