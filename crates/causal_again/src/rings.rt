//! The processes of the runs: a ring of three.
use crate::cores::Boxed;
use crate::reporting::{TRIES, print_refusal};
use crate::{cores, seats};
use causal_name::NoMemory;
use causal_process::Ring;
use std::alloc::Global;
use std::sync::Wait;
use std::thread::Threads;

/// The number of processes.
const PROCESSES: u8 = 3;

/// The number of hops that the message makes.
const HOPS: u8 = 9;

// A function that returns a box would hide its content from the proof; so the function that makes the boxes runs them.

/// Makes the processes and a spare and runs them, in a shared runtime or in a core. Returns whether all calls
/// succeeded.
fn make_and_run<R: Print + Eprint + Threads + Wait>(
    rt: &R,
    alloc: Global,
    is_shared: bool,
) -> Result<bool, NoMemory> {
    let mut boxes: Vec<Boxed> = Vec::new(alloc);
    for me in 0..PROCESSES {
        boxes.push(Box::new(alloc, Ring::new(u16::from(PROCESSES), me, HOPS))?)?;
    }
    let spare: Boxed = Box::new(alloc, Ring::new(u16::from(PROCESSES), 1, HOPS))?;
    Ok(if is_shared {
        seats::run_seats(rt, alloc, boxes, spare)
    } else {
        cores::run_cores(rt, alloc, boxes, spare)
    })
}

/// Returns whether the processes were allocated and all calls succeeded.
fn is_made<P: Eprint>(rt: &P, made: Result<bool, NoMemory>) -> bool {
    match made {
        Ok(is_run) => is_run,
        Err(fault) => print_refusal(rt, "boxes", &fault, true),
    }
}

/// Runs a core and then a shared runtime, each with new processes until the processes and the runtime are allocated.
pub fn are_run<R: Print + Eprint + Threads + Wait>(rt: &R, alloc: Global) -> bool {
    let mut by_core = false;
    let mut by_seat = false;
    for _ in 0..TRIES {
        by_core = by_core || is_made(rt, make_and_run(rt, alloc, false));
        by_seat = by_seat || (by_core && is_made(rt, make_and_run(rt, alloc, true)));
    }
    by_seat
}
