//! A job queue on the runtime: a dispatcher and three workers, driven through crashes and recoveries by the schedules of
//! some seeds. It prints for each seed how the run ended, and how many messages the dispatcher has received: one from
//! each worker that asks, and one for each of the ten jobs.
#![tactic(auto)]

/// The dispatcher.
mod dispatcher;
/// A worker.
mod worker;

use crate::dispatcher::Dispatcher;
use crate::worker::Worker;
use causal_core::Core;
use causal_driver::{End, Schedule, drive};
use causal_log::MemStable;
use causal_name::{NoMemory, Pid};
use causal_process::Process;
use causal_trace::entry::Entry;
use causal_trace::trace::Trace;
use std::alloc::Global;
use std::process::ExitCode;

/// The number of jobs.
const JOBS: u8 = 10;

/// The number of processes.
const PROCESSES: u8 = 4;

/// The number of spares of each process: one more than the restarts after which none crashes, since one may be down then.
const SPARES: u8 = 6;

/// Returns how many messages process 0 has received since it was started last.
fn received(trace: &Trace) -> u32 {
    let mut count = 0u32;
    for entry in trace.entries() {
        match entry {
            Entry::Deliver { to, .. } if *to == Pid(0) => count = count.saturating_add(1),
            Entry::Crash { who } if *who == Pid(0) => count = 0,
            _ => {}
        }
    }
    count
}

/// Runs the queue by the schedule of a seed, and prints how it ended.
fn run<R: Print>(rt: &R, alloc: Global, seed: u64) -> Result<bool, NoMemory> {
    let mut processes: Vec<Box<dyn Process + Send>> = Vec::new(alloc);
    processes.push(Box::new(alloc, Dispatcher { left: JOBS })?)?;
    for _ in 1..PROCESSES {
        processes.push(Box::new(alloc, Worker {})?)?;
    }
    let mut of_dispatcher: Vec<Box<dyn Process + Send>> = Vec::new(alloc);
    for _ in 0..SPARES {
        of_dispatcher.push(Box::new(alloc, Dispatcher { left: JOBS })?)?;
    }
    let mut spares: Vec<Vec<Box<dyn Process + Send>>> = Vec::new(alloc);
    spares.push(of_dispatcher)?;
    for _ in 1..PROCESSES {
        let mut of_worker: Vec<Box<dyn Process + Send>> = Vec::new(alloc);
        for _ in 0..SPARES {
            of_worker.push(Box::new(alloc, Worker {})?)?;
        }
        spares.push(of_worker)?;
    }
    let Ok(mut core) = Core::start(alloc, 1, processes, MemStable::new(alloc)) else {
        return Err(NoMemory);
    };
    let schedule = Schedule {
        seed,
        steps: 1_000,
        restarts: 5,
    };
    let driven = drive(alloc, &mut core, schedule, spares.as_mut_slice());
    let end = match driven.end {
        End::Quiet => "all is delivered",
        End::Steps => "the schedule ended",
        End::NoSpare => "no spare is left",
        End::NoMemory => "no memory",
    };
    let count = received(core.trace());
    Ok(println!(rt; "seed {seed}: {end}, the dispatcher has received {count}").is_ok())
}

fn main(rt: HostRuntime) -> ExitCode {
    let alloc = rt.alloc();
    for seed in 0..8u64 {
        if !matches!(run(&rt, alloc, seed), Ok(true)) {
            return ExitCode::from(1);
        }
    }
    ExitCode::from(0)
}
