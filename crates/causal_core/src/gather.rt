//! The log that a restart gathers.
ghost use Rattle.std.specs.Prelude.{◌≡◌, IfOk, OnOk};
ghost use Rattle.std.specs.FinMap as fin;
ghost use Rattle.causal_protocol.specs.Gathering.{with_logs_of};
ghost use Rattle.causal_core.specs.Inside.Gathers.{log_with_gathered, gathered_log_of};
ghost use Rattle.causal_core.specs.Inside.Memories.{memories_in};

use causal_log::Log;
use causal_memory::learning::{learn_own_holding, learn_stored};
use causal_memory::process_memory::ProcessMemory;
use causal_name::{Det, NoMemory, Pid};
use std::alloc::Global;

/// Adds the logs of the up processes to a log.
#[tactic(auto, unfolding(causal_protocol::specs::Gathering::with_logs_of))]
fn learn_logs(log: &mut Log, process_memories: &[Option<ProcessMemory>]) -> Result<(), NoMemory>
    ensures { OnOk result (log.new.map
        ≡ with_logs_of (memories_in process_memories.now) log.old.map) }
{
    for process_memory in process_memories {
        if let Some(process_memory) = process_memory {
            log.union_from(&process_memory.log)?;
        }
    }
    Ok(())
}

/// Adds the logs of the up processes and the stored determinants to a log, and that p holds all of them.
fn gather_into(
    alloc: Global,
    log: &mut Log,
    process_memories: &[Option<ProcessMemory>],
    stored: &[Det],
    p: Pid,
) -> Result<(), NoMemory>
    ensures { OnOk result
        (log.new.map ≡ log_with_gathered log.old.map
        (memories_in process_memories.now) stored.now p) }
{
    learn_logs(log, process_memories)?;
    learn_own_holding(alloc, log, p)?;
    learn_stored(log, stored, p)
}

/// Returns the log of p after it has gathered the logs of the up processes and the stored determinants.
pub(crate) fn gather(
    alloc: Global,
    seed: u64,
    process_memories: &[Option<ProcessMemory>],
    stored: &[Det],
    p: Pid,
) -> Result<Log, NoMemory>
    ensures { IfOk result (λ log. log.map
        ≡ gathered_log_of (memories_in process_memories.now) stored.now p) }
{
    let mut log = Log::with_seed(alloc, seed);
    // The log goes through `and`: each exit that drops a log needs a long proof.
    gather_into(alloc, &mut log, process_memories, stored, p).and(Ok(log))
}
