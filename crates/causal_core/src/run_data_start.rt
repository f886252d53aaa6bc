//! The start of the processes, on the run data.
ghost use Rattle.std.specs.Prelude.{◌≡◌, ◌≤◌, ◌<◌, [], length, replicate, OnOk, IfOk, Some};
ghost use Rattle.std.specs.FinMap as fin;
ghost use Rattle.causal_protocol.specs.Memory.{new_memory};
ghost use Rattle.causal_core.specs.Starts.{opening};
ghost use Rattle.causal_core.specs.Inside.Begins.{CanBegin, BeginsWithSends};
ghost use Rattle.causal_memory.specs.RestartPlans.{IsRestartPlan};
ghost use Rattle.causal_core.specs.Inside.Memories.{memories_in, bodies_in};
ghost use Rattle.causal_trace.specs.Limits.{max_processes};

use crate::run_data::RunData;
use crate::run_data_restart::put_memory;
use crate::sends::append_sends;
use causal_log::Log;
use causal_memory::outbox::Outbox;
use causal_memory::process_memory::ProcessMemory;
use causal_memory::restart_plan::RestartPlan;
use causal_memory::restart_planning::restart_plan_with;
use causal_name::{NoMemory, Pid};
use causal_process::Outgoing;
use causal_trace::fault::TraceFault;
use causal_trace::trace::Trace;
use std::alloc::Global;

/// Returns the memories of n processes before they begin.
fn new_process_memories(
    alloc: Global,
    n: u16,
    seed: u64,
) -> Result<Vec<Option<ProcessMemory>>, NoMemory>
    ensures memories { IfOk result
        (λ process_memories. memories_in process_memories.items
        ≡ replicate n (Some (new_memory fin.empty))) }
    ensures bodies { IfOk result (λ process_memories. bodies_in process_memories.items
        ≡ replicate n []) }
{
    let mut process_memories = Vec::new(alloc);
    for i in 0..n {
        let log = Log::with_seed(alloc, seed);
        let sent = Outbox::new(alloc);
        let received = Vec::new(alloc);
        process_memories.push(Some(ProcessMemory {
            log,
            sent,
            received,
        }))?;
    }
    Ok(process_memories)
}

/// Returns a trace of n processes with no entries.
fn new_trace(alloc: Global, n: u16) -> Result<Trace, NoMemory>
    requires { (1 ≤ n) × (n ≤ max_processes) }
    ensures { IfOk result (λ trace. trace.recording ≡ record { processes = n; past = [] }) }
{
    match Trace::new(alloc, n) {
        Ok(trace) => Ok(trace),
        Err(TraceFault::NoMemory) => Err(NoMemory),
        Err(_) => unreachable!(),
    }
}

impl RunData {
    /// Returns the data of a run of n processes with the bound f, in which nothing has happened. Logs hash with the seed.
    pub(crate) fn open(alloc: Global, n: u16, f: u16, seed: u64) -> Result<RunData, NoMemory>
        requires some { 1 ≤ n }
        requires few { n ≤ max_processes }
        ensures run { IfOk result (λ run_data. run_data.run ≡ opening n f []) }
        ensures bodies { IfOk result (λ run_data. run_data.bodies ≡ replicate n []) }
    {
        let process_memories = new_process_memories(alloc, n, seed)?;
        let trace = match new_trace(alloc, n) {
            Ok(trace) => trace,
            Err(fault) => {
                drop(process_memories);
                return Err(fault);
            }
        };
        Ok(RunData {
            trace,
            faults: f,
            writers: Vec::new(alloc),
            process_memories: process_memories,
            seed,
        })
    }

    /// Returns the seed of p's log: another one for each process, so that logs do not all grow at the same time.
    pub(crate) fn log_seed(&self, p: Pid) -> u64 {
        self.seed.wrapping_add(u64::from(p.0))
    }

    /// Makes everything that process p must allocate when it begins.
    pub(crate) fn prepare_begin(&mut self, alloc: Global, p: Pid) -> Result<RestartPlan, NoMemory>
        ensures run { self.new.run ≡ self.old.run }
        ensures bodies { self.new.bodies ≡ self.old.bodies }
        ensures gathered { IfOk result (λ g. IsRestartPlan self.old.run.faults fin.empty g) }
        ensures room { OnOk result (8 ≤ self.new.spare) }
    {
        self.trace.reserve(8)?;
        restart_plan_with(alloc, self.faults, Log::with_seed(alloc, self.log_seed(p)))
    }

    /// Records what process p sends as it begins.
    #[tactic(auto, using(crate::proofs::Rules::of_choosing))]
    pub(crate) fn record_begin(&mut self, p: Pid, fresh: RestartPlan, sends: Vec<Outgoing>)
        requires may { CanBegin p.0 self.old.run }
        requires fresh { IsRestartPlan self.old.run.faults fin.empty fresh }
        requires few { length sends.items ≤ 8 }
        requires room { 8 ≤ self.old.spare }
        ensures { BeginsWithSends p.0 sends.items self.old self.new }
    {
        let RestartPlan {
            listed: _,
            mut process_memory,
        } = fresh;
        let _number = append_sends(&mut self.trace, &mut process_memory, p, sends);
        put_memory(&mut self.process_memories, usize::from(p.0), process_memory);
    }
}
