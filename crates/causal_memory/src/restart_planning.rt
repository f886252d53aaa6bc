//! The making of a restart plan.
ghost use Rattle.std.specs.Prelude.{◌≡◌, IfOk};
ghost use Rattle.causal_log.specs.Logs.{batch_items};
ghost use Rattle.causal_memory.specs.RestartPlans.{IsRestartPlan};

use crate::new_memory::new_process_memory;
use crate::restart_plan::RestartPlan;
use causal_log::{Batch, Log};
use causal_name::NoMemory;
use std::alloc::Global;

/// Returns the batch that a log chooses for f failures, and stores it in the log.
pub fn choose_and_cache(alloc: Global, f: u16, log: &mut Log) -> Result<Batch, NoMemory>
    ensures map { log.new.map ≡ log.old.map }
    ensures batch { IfOk result (λ batch. batch ≡ batch_items f log.old.map) }
{
    let batch = log.choose(alloc, f)?;
    let share = batch.share()?;
    log.cache_batch(f, batch);
    Ok(share)
}

/// Returns the restart plan of a process that restarts with this log, and whose sends carry its batch.
pub fn restart_plan_with(alloc: Global, f: u16, mut log: Log) -> Result<RestartPlan, NoMemory>
    ensures { IfOk result (λ g. IsRestartPlan f log.map g) }
{
    let listed = log.dets(alloc)?;
    let batch = choose_and_cache(alloc, f, &mut log)?;
    let process_memory = new_process_memory(alloc, log, batch)?;
    Ok(RestartPlan {
        listed,
        process_memory,
    })
}
