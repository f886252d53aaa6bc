//! Restart, on the run data.
ghost use Rattle.std.specs.Prelude.{◌≡◌, ◌≤◌, ◌<◌, length, OnOk, IfOk, IfErr, None, Some, slice_set, vec_len, nat_le, unwrap_or, ◌||◌, is_some, false};
ghost use Rattle.std.specs.FinMap as fin;
ghost use Rattle.causal_trace.specs.Past.{restarts};
ghost use Rattle.causal_protocol.specs.declared.request.Request.TheVariants as Requests;
ghost use Rattle.causal_protocol.specs.declared.request.Reply.TheVariants as Replies;
ghost use Rattle.causal_protocol.specs.Gathering.{restart_log};
ghost use Rattle.causal_protocol.specs.Refusals.{request_fault, exceeds_limits};
ghost use Rattle.causal_protocol.specs.Run.{memories_of, stable_of};
ghost use Rattle.causal_protocol.specs.Steps.{Steps};
ghost use Rattle.causal_core.specs.Inside.Stables.{IsStored};
ghost use Rattle.causal_core.specs.Inside.Gathers.{listing_fault, IsRestartPlanFor};
ghost use Rattle.causal_memory.specs.RestartPlans.{IsRestartPlan};
ghost use Rattle.causal_core.specs.View.{sent_in, with_restart, IsFirstRefusal};
ghost use Rattle.causal_core.specs.Inside.GatherCaches.{IsGatherCache};
ghost use Rattle.causal_protocol.specs.Memory.{present_at};
ghost use Rattle.causal_memory.specs.ProcessMemories.{memory_of, bodies_of};
ghost use Rattle.causal_core.specs.Inside.Memories.{memories_in, bodies_in};

use crate::gather_cache::{GatherCache, cache_gathered, cached_log};
use crate::gathered_count::count_gathered;
use crate::run_data::{RunData, exceeds_limits};
use crate::sends::append_sends;
use causal_log::{Log, Stable};
use causal_memory::process_memory::ProcessMemory;
use causal_memory::restart_plan::RestartPlan;
use causal_memory::restart_planning::restart_plan_with;
use causal_name::{NoMemory, Pid};
use causal_process::Outgoing;
use causal_protocol::request::{CoreFault, Restarted};
use causal_trace::entry::{Dets, Entry};
use causal_trace::limits::DEFAULT_RESTARTS;
use std::alloc::Global;
use std::mem;

/// Stores the memory of process p.
#[tactic(auto, using(crate::proofs::Rules::of_maps))]
pub(crate) fn put_memory(
    process_memories: &mut Vec<Option<ProcessMemory>>,
    p: usize,
    process_memory: ProcessMemory,
)
    requires { p < vec_len process_memories.old }
    ensures memories { memories_in process_memories.new.items
        ≡ slice_set (memories_in process_memories.old.items) p (Some (memory_of process_memory)) }
    ensures bodies { bodies_in process_memories.new.items
        ≡ slice_set (bodies_in process_memories.old.items) p (bodies_of process_memory) }
{
    drop(process_memories[p].replace(process_memory));
}

/// Returns the refusal, or `NoMemory` if there is none.
fn reason_or_no_memory(reason: Option<CoreFault>) -> CoreFault
    ensures { result ≡ unwrap_or reason CoreFault.NoMemory }
{
    reason.unwrap_or(CoreFault::NoMemory)
}

impl RunData {
    /// Returns whether a restart that lists the given number of determinants would exceed a limit.
    fn exceeds_limits_for(&self, listed: usize) -> bool
        ensures { result
            ≡ (exceeds_limits self.now.run 9 listed || nat_le 192
            (restarts self.now.run.recording.past)) }
    {
        self.trace.restarts() >= DEFAULT_RESTARTS || exceeds_limits(&self.trace, 9, listed)
    }

    /// Returns the first refusal that applies to a restart of p that lists the given number of determinants, if there
    /// is one.
    #[tactic(auto, using(crate::proofs::RuntimeRestart::gathering_told, crate::proofs::RuntimeRestart::listing_full))]
    fn listing_fault(&self, p: Pid, listed: usize) -> Option<CoreFault>
        ensures { result ≡ listing_fault self.now.run p listed }
    {
        if let Some(fault) = self.gathering_fault(p) {
            return Some(fault);
        }
        if self.exceeds_limits_for(listed) {
            return Some(CoreFault::Full);
        }
        None
    }

    /// Returns the first refusal that applies to a restart of p, if there is one. The store must contain exactly what
    /// is stable. It allocates nothing: it searches the preceding logs for each logged determinant.
    fn restart_fault<S: Stable>(&self, p: Pid, store: &S) -> Option<CoreFault>
        requires { IsStored (S.contents store.now) self.now.run.recording.past }
        ensures { result ≡ request_fault self.now.run (Requests.Restart p) }
    {
        self.listing_fault(p, count_gathered(self.process_memories.as_slice(), store))
    }

    /// Returns the log that p gathers, from the cache if that is p's, and otherwise gathered again and cached.
    fn reuse_or_gather<S: Stable>(
        &self,
        alloc: Global,
        p: Pid,
        store: &S,
        gather_cache: &mut Option<GatherCache>,
    ) -> Result<Log, NoMemory>
        requires stored { IsStored (S.contents store.now) self.now.run.recording.past }
        requires down { is_some (present_at (memories_of self.now.run) p.0) ≡ false }
        requires cache_is_right { IsGatherCache self.now.run gather_cache.old }
        ensures log { IfOk result
            (λ log. log.map ≡ restart_log (memories_of self.now.run) (stable_of self.now.run) p) }
        ensures cache_is_right { IsGatherCache self.now.run gather_cache.new }
    {
        if let Some(log) = cached_log(gather_cache, p) {
            return log.try_clone();
        }
        let mut log = self.gather(alloc, p, store)?;
        // A copy of a sorted log is sorted. If allocation fails here, each copy must be sorted.
        let _ = log.sort();
        drop(mem::replace(gather_cache, cache_gathered(&log, p)));
        Ok(log)
    }

    /// Returns the log that p would have after a restart. The store must contain exactly what is stable.
    ///
    /// # Errors
    /// If allocation failed, the first refusal of the restart that applies, or `NoMemory` if none does.
    #[tactic(auto, using(crate::proofs::MemoriesFit::reason_or))]
    fn restart_log<S: Stable>(
        &self,
        alloc: Global,
        p: Pid,
        store: &S,
        gather_cache: &mut Option<GatherCache>,
    ) -> Result<Log, CoreFault>
        requires stored { IsStored (S.contents store.now) self.now.run.recording.past }
        requires down { is_some (present_at (memories_of self.now.run) p.0) ≡ false }
        requires cache_is_right { IsGatherCache self.now.run gather_cache.old }
        ensures ok { IfOk result
            (λ log. log.map ≡ restart_log (memories_of self.now.run) (stable_of self.now.run) p) }
        ensures refused { IfErr result (IsFirstRefusal self.now.run (Requests.Restart p)) }
        ensures cache_is_right { IsGatherCache self.now.run gather_cache.new }
    {
        match self.reuse_or_gather(alloc, p, store, gather_cache) {
            Ok(log) => Ok(log),
            Err(_) => Err(reason_or_no_memory(self.restart_fault(p, store))),
        }
    }

    /// Reserves capacity for a restart of p and its sends, and returns the plan of a restart with this log.
    fn plan_restart(&mut self, alloc: Global, log: Log) -> Result<RestartPlan, NoMemory>
        ensures run { self.new.run ≡ self.old.run }
        ensures bodies { self.new.bodies ≡ self.old.bodies }
        ensures gathered { IfOk result (IsRestartPlan self.old.run.faults log.map) }
        ensures room { OnOk result (9 ≤ self.new.spare) }
    {
        if self.trace.reserve(9).is_err() {
            drop(log);
            return Err(NoMemory);
        }
        restart_plan_with(alloc, self.faults, log)
    }

    /// Returns the plan of a restart of p with the log that it gathers, if the restart is not refused.
    fn checked_restart_plan(
        &mut self,
        alloc: Global,
        p: Pid,
        log: Log,
    ) -> Result<RestartPlan, CoreFault>
        requires { log.map ≡ restart_log (memories_of self.old.run) (stable_of self.old.run) p }
        ensures run { self.new.run ≡ self.old.run }
        ensures bodies { self.new.bodies ≡ self.old.bodies }
        ensures legal { OnOk result (request_fault self.old.run (Requests.Restart p) ≡ None) }
        ensures refused { IfErr result (IsFirstRefusal self.old.run (Requests.Restart p)) }
        ensures gathered { IfOk result (IsRestartPlanFor self.old.run p) }
        ensures room { OnOk result (9 ≤ self.new.spare) }
    {
        if let Some(fault) = self.listing_fault(p, log.len() as usize) {
            drop(log);
            return Err(fault);
        }
        match self.plan_restart(alloc, log) {
            Ok(gathered) => Ok(gathered),
            Err(_) => Err(CoreFault::NoMemory),
        }
    }

    /// Checks a restart of p, and makes everything that it must allocate. The store must contain exactly what is
    /// stable.
    pub(crate) fn prepare_restart<S: Stable>(
        &mut self,
        alloc: Global,
        p: Pid,
        store: &S,
        gather_cache: &mut Option<GatherCache>,
    ) -> Result<RestartPlan, CoreFault>
        requires stored { IsStored (S.contents store.now) self.old.run.recording.past }
        requires cache_is_right { IsGatherCache self.old.run gather_cache.old }
        ensures run { self.new.run ≡ self.old.run }
        ensures bodies { self.new.bodies ≡ self.old.bodies }
        ensures legal { OnOk result (request_fault self.old.run (Requests.Restart p) ≡ None) }
        ensures refused { IfErr result (IsFirstRefusal self.old.run (Requests.Restart p)) }
        ensures gathered { IfOk result (IsRestartPlanFor self.old.run p) }
        ensures room { OnOk result (9 ≤ self.new.spare) }
        ensures cache_is_right { IsGatherCache self.new.run gather_cache.new }
    {
        // At the limit of entries or restarts even an empty list is refused. Checking this first avoids a gathering.
        if let Some(fault) = self.listing_fault(p, 0) {
            return Err(fault);
        }
        match self.restart_log(alloc, p, store, gather_cache) {
            Ok(log) => self.checked_restart_plan(alloc, p, log),
            Err(fault) => Err(fault),
        }
    }

    /// Records a restart of p and its sends, after the spare has begun.
    #[tactic(auto, using(crate::proofs::Rules::of_restarting))]
    pub(crate) fn finish_restart(
        &mut self,
        p: Pid,
        gathered: RestartPlan,
        sends: Vec<Outgoing>,
    ) -> Restarted
        requires legal { request_fault self.old.run (Requests.Restart p) ≡ None }
        requires gathered { IsRestartPlanFor self.old.run p gathered }
        requires few { length sends.items ≤ 8 }
        requires room { 9 ≤ self.old.spare }
        ensures run { self.new.run ≡ with_restart self.old.run p sends.items }
        ensures step { Steps self.old.run (Requests.Restart p)
            (Replies.Restarted result) self.new.run }
        ensures bodies { self.new.bodies
            ≡ slice_set self.old.bodies p.0 (sent_in self.old.run sends.items) }
    {
        let first = self.trace.len();
        let RestartPlan {
            listed,
            mut process_memory,
        } = gathered;
        let count = listed.len() as u32;
        self.trace.push_reserved(Entry::Restart {
            who: p,
            listed: Dets::new(listed),
        });
        let sends = append_sends(&mut self.trace, &mut process_memory, p, sends);
        put_memory(&mut self.process_memories, usize::from(p.0), process_memory);
        Restarted {
            first,
            listed: count,
            sends,
        }
    }
}
