//! Runs processes of causal message logging over a network and a storage that seeds disturb, and judges their
//! recordings.
//!
//!     causal_simulation FROM COUNT [RULE]
//!
//! It makes COUNT runs, of the seeds from FROM on, and prints how many; what happened in them is counted on standard
//! error. At the first run that is wrong it ends with status 1, and prints the run's recordings. With RULE the embedder, the network or storage breaks that rule.
#![tactic(auto)]

/// What processes that are up have delivered.
mod books;
/// Parcels of a process that breaks a rule.
mod broken;
/// What becomes of a run.
mod judging;
/// A process, and its application.
mod life;
/// What is under way.
mod network;
/// Reproducible pseudorandom numbers.
mod random;
/// What a process receives.
mod receiving;
/// The recordings.
mod recording;
/// The recovery of a process.
mod recovering;
/// A run.
mod running;
/// What a run is.
mod settings;
/// Why a process stops.
mod stop;
/// Stable storage.
mod storage;
/// What surrounds the processes.
mod world;

use crate::judging::{conclude, judge_recordings};
use crate::running::Simulation;
use crate::settings::Rule;
use crate::stop::{Stop, Wrong};
use crate::world::RunCounts;
use causal_name::NoMemory;
use std::alloc::Global;
use std::env;
use std::process::ExitCode;
use std::rt::Env;

/// The arguments.
#[derive(Clone, Copy)]
struct Arguments {
    from: u64,
    count: u64,
    broken: Option<Rule>,
}

/// Reads the arguments, of which the first is the program's name.
fn parse(words: &[String]) -> Option<Arguments> {
    let from = words.get(1)?.as_str().parse::<u64>().ok()?;
    let count = words.get(2)?.as_str().parse::<u64>().ok()?;
    let broken = match words.get(3) {
        Some(name) => Some(Rule::of_name(name.as_str())?),
        None => None,
    };
    Some(Arguments {
        from,
        count,
        broken,
    })
}

/// Returns the arguments.
fn read_request<R: Env + AllocGlobal>(rt: &R) -> Option<Arguments> {
    let words = env::args(rt).ok()?.collect::<Vec<String>>(rt.alloc()).ok()?;
    parse(words.as_slice())
}

/// Adds the counts of one run.
fn add(total: &mut RunCounts, run: &RunCounts) {
    total.deliveries = total.deliveries.saturating_add(run.deliveries);
    total.crashes = total.crashes.saturating_add(run.crashes);
    total.restarts = total.restarts.saturating_add(run.restarts);
    total.stored = total.stored.saturating_add(run.stored);
}

/// Makes the run of a seed, and returns what is wrong with it, after its recordings were printed.
fn run_seed<R: Print>(
    rt: &R,
    alloc: Global,
    seed: u64,
    broken: Option<Rule>,
    total: &mut RunCounts,
) -> Result<Option<Wrong>, NoMemory> {
    let mut simulation = Simulation::new(alloc, seed, broken)?;
    let outcome = simulation.run();
    if outcome == Err(Stop::NoMemory) {
        return Err(NoMemory);
    }
    let world = &simulation.world;
    add(total, &world.counts);
    let text = world.recording.text.as_slice();
    let faults = world.settings.faults;
    let found = judge_recordings(alloc, text, world.recording.events, faults)?;
    let found = conclude(broken, outcome, found);
    if let Some(wrong) = found {
        print_wrong(rt, alloc, seed, faults, wrong, text)?;
    }
    Ok(found)
}

/// Prints a run that is wrong.
fn print_wrong<R: Print>(
    rt: &R,
    alloc: Global,
    seed: u64,
    faults: u8,
    wrong: Wrong,
    text: &[u8],
) -> Result<(), NoMemory> {
    let bytes = Vec::from_slice(alloc, text)?;
    if let Ok(lines) = String::from_utf8(bytes) {
        let _ = print!(rt; "wrong seed={seed} f={faults}: {wrong:?}\n{lines}");
    }
    Ok(())
}

/// Makes the runs, and prints how many; counts of what happened are on standard error.
fn run_all<R: Print + Eprint>(rt: &R, alloc: Global, request: Arguments) -> Result<bool, NoMemory> {
    let mut total = RunCounts {
        deliveries: 0,
        crashes: 0,
        restarts: 0,
        stored: 0,
    };
    let mut runs = 0u64;
    let mut wrong = 0u64;
    for i in 0..request.count {
        runs = i.saturating_add(1);
        let seed = request.from.wrapping_add(i);
        if run_seed(rt, alloc, seed, request.broken, &mut total)?.is_some() {
            wrong = 1;
            break;
        }
    }
    let RunCounts {
        deliveries,
        crashes,
        restarts,
        stored,
    } = total;
    let _ = eprintln!(rt;
        "deliveries={deliveries} crashes={crashes} restarts={restarts} stored={stored}"
    );
    let is_printed = println!(rt; "runs={runs} wrong={wrong}").is_ok();
    Ok(is_printed && wrong == 0)
}

fn main(rt: HostRuntime) -> ExitCode {
    let alloc = rt.alloc();
    let Some(request) = read_request(&rt) else {
        let _ = eprintln!(rt; "causal_simulation FROM COUNT [RULE]");
        return ExitCode::from(3);
    };
    ExitCode::from(match run_all(&rt, alloc, request) {
        Ok(true) => 0,
        Ok(false) => 1,
        Err(_) => 5,
    })
}
