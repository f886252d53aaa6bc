//! How a run goes on after the commands of a script.
ghost use Rattle.std.specs.Prelude.{◌≡◌, ◌≤◌, Some, OnOk};
ghost use Rattle.causal_core.specs.CoreView.{core_run};
ghost use Rattle.causal_run.specs.Explorations.{IsExplored};

use causal_core::Core;
use causal_driver::{End, Schedule, drive};
use causal_log::MemStable;
use causal_name::NoMemory;
use causal_process::Process;
use causal_script::{Exploration, Script};
use std::alloc::Global;

/// Once this many restarts have been made, no process crashes.
const RESTARTS: u32 = 64;

/// Returns how many spares an exploration of a script needs: as many for each process as restarts may be made, at most
/// one for each step.
pub(crate) fn exploration_spares(script: &Script) -> u32
    requires { script.now.n ≤ 256 }
{
    match script.exploration {
        Some(exploration) => u32::from(script.n) * exploration.steps.min(RESTARTS),
        None => 0,
    }
}

/// Sorts spares by process, of which there are n: they come in turn.
pub(crate) fn by_process(
    alloc: Global,
    n: u16,
    spares: Vec<Box<dyn Process + Send>>,
) -> Result<Vec<Vec<Box<dyn Process + Send>>>, NoMemory> {
    let mut lists: Vec<Vec<Box<dyn Process + Send>>> = Vec::new(alloc);
    for _ in 0..n {
        lists.push(Vec::new(alloc))?;
    }
    let mut next: usize = 0;
    for spare in spares {
        if let Some(list) = lists.get_mut(next) {
            list.push(spare)?;
        }
        let after = next.saturating_add(1);
        next = if after < usize::from(n) { after } else { 0 };
    }
    Ok(lists)
}

/// Makes the calls that the seed of an exploration chooses, until nothing leads on or its steps are made.
fn explore(
    alloc: Global,
    core: &mut Core<MemStable>,
    exploration: Exploration,
    spares: &mut [Vec<Box<dyn Process + Send>>],
) -> Result<(), NoMemory>
    ensures run { OnOk result
        (IsExplored (Some exploration) (core_run core.old) (core_run core.new)) }
    ensures faults { (core_run core.new).faults ≡ (core_run core.old).faults }
{
    let schedule = Schedule {
        seed: exploration.seed as u64,
        steps: exploration.steps,
        restarts: RESTARTS,
    };
    let driven = drive(alloc, core, schedule, spares);
    match driven.end {
        End::NoMemory => Err(NoMemory),
        _ => Ok(()),
    }
}

/// Explores a run, if there is an exploration.
pub(crate) fn explore_as(
    alloc: Global,
    core: &mut Core<MemStable>,
    exploration: Option<Exploration>,
    spares: &mut [Vec<Box<dyn Process + Send>>],
) -> Result<(), NoMemory>
    ensures run { OnOk result (IsExplored exploration (core_run core.old) (core_run core.new)) }
    ensures faults { (core_run core.new).faults ≡ (core_run core.old).faults }
{
    match exploration {
        Some(exploration) => explore(alloc, core, exploration, spares),
        None => Ok(()),
    }
}
