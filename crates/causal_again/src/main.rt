//! Performs calls of the libraries, each again if allocation failed. Standard output contains their results, which are
//! the same whichever allocation fails; standard error each refusal, and whether the state was unchanged.
//!
//! A trial of the built program lets each allocation fail in turn. No proof shows that a refused call succeeds once
//! memory is available.
#![tactic(auto)]

/// The calls of a core.
mod cores;
/// Texts of a trace: reading, printing and audits.
mod readings;
/// The processes of the runs: a ring of three.
mod rings;
/// A script and its run.
mod scripts;
/// The calls of a shared runtime, by one seat.
mod seats;
/// The output for each call: results on standard output, refusals on standard error.
mod reporting;

use std::alloc::Global;
use std::process::ExitCode;
use std::rt::Clock;
use std::sync::Wait;
use std::thread::Threads;

/// Runs a script, and audits its trace.
fn of_a_script<R: Print + Eprint + Threads + Wait>(rt: &R, alloc: Global) -> bool {
    match scripts::trace_of_script(rt, alloc) {
        Some(trace) => readings::is_judged(rt, alloc, &trace),
        None => false,
    }
}

/// Reads the text of a trace, and audits it.
fn of_a_text<R: Print + Eprint + Threads + Wait + Clock>(rt: &R, alloc: Global) -> bool {
    match readings::retry_read(rt, alloc) {
        Some(trace) => readings::is_judged(rt, alloc, &trace) && readings::are_read(rt, alloc),
        None => false,
    }
}

fn main(rt: HostRuntime) -> ExitCode {
    let alloc = rt.alloc();
    let came_through = rings::are_run(&rt, alloc)
        && of_a_script(&rt, alloc)
        && of_a_text(&rt, alloc);
    ExitCode::from(u8::from(!came_through))
}
