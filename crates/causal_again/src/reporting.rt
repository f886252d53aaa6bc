//! The output for each call: results on standard output, refusals on standard error.
use std::fmt::{Debug, Display};

/// The maximum number of tries of a call, or of a sequence of calls.
pub const TRIES: u32 = 32;

/// Prints the result of a call.
pub fn print_result<P: Print, A: Debug>(rt: &P, call: &str, answer: &A) -> bool {
    println!(rt; "{call}: {answer:?}").is_ok()
}

/// Prints a refusal, and whether the state was unchanged.
pub fn print_refusal<P: Eprint, F: Display>(rt: &P, call: &str, fault: &F, is_left: bool) -> bool {
    let left = if is_left { "as it was" } else { "changed" };
    let _ = eprintln!(rt; "{call}: {fault}, {left}");
    false
}
