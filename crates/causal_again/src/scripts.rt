//! A script and its run.
use crate::reporting::{TRIES, print_refusal};
use causal_run::run_script;
use causal_script::{Script, parse_script};
use causal_trace::trace::Trace;
use std::alloc::Global;
use std::sync::Wait;

const SCRIPT: &str =
    "start ring 3 1 2\ndeliver 1 0 0\ndeliver 2 1 0\ndeliver 0 2 0\nflush 2\nforget 2\n\
    crash 1\nrestart 1\ndeliver 1 0 0\n";

fn parse<P: Print + Eprint>(rt: &P, alloc: Global) -> Option<Script> {
    for _ in 0..TRIES {
        match parse_script(alloc, SCRIPT.as_bytes()) {
            Ok(script) => return Some(script),
            Err(fault) => print_refusal(rt, "parse_script", &fault, true),
        };
    }
    None
}

fn run<R: Print + Eprint + Wait>(rt: &R, alloc: Global, script: &Script) -> Option<Trace> {
    if script.n == 0 || script.n > 256 {
        return None;
    }
    for _ in 0..TRIES {
        match run_script(rt, alloc, script, 0) {
            Ok(trace) => return Some(trace),
            Err(fault) => print_refusal(rt, "run_script", &fault, true),
        };
    }
    None
}

/// Runs the script, until it succeeds, and returns the trace.
pub fn trace_of_script<R: Print + Eprint + Wait>(rt: &R, alloc: Global) -> Option<Trace> {
    match parse(rt, alloc) {
        Some(script) => run(rt, alloc, &script),
        None => None,
    }
}
