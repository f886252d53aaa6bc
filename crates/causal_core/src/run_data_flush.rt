//! Flush and forget, on the run data.
ghost use Rattle.std.specs.Prelude.{◌≡◌, ◌≤◌, ◌∷◌, [], length, OnOk, IfOk, IfErr, None, true, false, is_some};
ghost use Rattle.causal_log.specs.Logs.{after_drop_stable};
ghost use Rattle.causal_trace.specs.declared.entry.Entry.TheVariants as Entries;
ghost use Rattle.causal_protocol.specs.declared.request.Request.TheVariants as Requests;
ghost use Rattle.causal_protocol.specs.Memory.{present_at, update_at, with_log};
ghost use Rattle.causal_protocol.specs.Refusals.{request_fault, dets_to_flush, dets_to_forget};
ghost use Rattle.causal_protocol.specs.Steps.{extend_run, Steps, reply_of_forget};
ghost use Rattle.causal_core.specs.Flushes.{HasUnflushed};
ghost use Rattle.causal_core.specs.View.{IsFirstRefusal};
ghost use Rattle.causal_core.specs.Inside.Memories.{memories_in, bodies_in};
ghost use Rattle.causal_trace.specs.Limits.{max_entries};

use crate::memory_lookup::process_memory_at;
use crate::run_data::{RunData, exceeds_entries, exceeds_limits, is_process};
use causal_memory::process_memory::ProcessMemory;
use causal_name::{Det, NoMemory, Pid};
use causal_protocol::request::CoreFault;
use causal_trace::entry::{Dets, Entry};
use std::alloc::Global;

/// Removes from p's log the determinants that p knows to be stable.
fn drop_stable_at(process_memories: &mut Vec<Option<ProcessMemory>>, p: Pid)
    requires { is_some (present_at (memories_in process_memories.old.items) p.0) ≡ true }
    ensures memories { memories_in process_memories.new.items
        ≡ update_at (with_log after_drop_stable) (memories_in process_memories.old.items) p.0 }
    ensures bodies { bodies_in process_memories.new.items ≡ bodies_in process_memories.old.items }
{
    let Some(process_memory) = &mut process_memories[usize::from(p.0)] else {
        unreachable!()
    };
    process_memory.drop_stable();
}

impl RunData {
    /// Returns the first refusal that applies to a flush of p, if there is one.
    #[tactic(auto, unfolding(causal_protocol::specs::Refusals::request_refusals))]
    fn flush_fault(&self, p: Pid) -> Option<CoreFault>
        ensures { result ≡ request_fault self.now.run (Requests.Flush p) }
    {
        if !is_process(p, self.trace.processes()) {
            return Some(CoreFault::NoProcess);
        }
        let Some(process_memory) = process_memory_at(self.process_memories.as_slice(), p) else {
            return Some(CoreFault::Down);
        };
        if exceeds_entries(&self.trace, process_memory.log.unstable_len()) {
            return Some(CoreFault::Full);
        }
        None
    }

    /// Returns whether a flush of p writes a determinant: no refusal applies, and one is to be written. Allocates nothing.
    pub(crate) fn has_unflushed(&self, p: Pid) -> bool
        ensures some { result ≡ true → HasUnflushed self.now.run p }
        ensures none { result ≡ false → HasUnflushed self.now.run p → ⊥ }
    {
        let Some(process_memory) = process_memory_at(self.process_memories.as_slice(), p) else {
            return false;
        };
        process_memory.log.unstable_len() > 0 && self.flush_fault(p).is_none()
    }

    /// Returns the determinants that p logs and does not know to be stable; none if p is down.
    fn dets_to_flush(&self, alloc: Global, p: Pid) -> Result<Vec<Det>, NoMemory>
        ensures { IfOk result (λ dets. dets.items ≡ dets_to_flush self.now.run p) }
    {
        match process_memory_at(self.process_memories.as_slice(), p) {
            Some(process_memory) => process_memory.log.unstable_dets(alloc),
            None => Ok(Vec::new(alloc)),
        }
    }

    /// Reserves capacity for `count` stable entries and their writers.
    fn reserve_flush(&mut self, count: usize) -> Result<(), NoMemory>
        requires { count ≤ max_entries }
        ensures run { self.new.run ≡ self.old.run }
        ensures bodies { self.new.bodies ≡ self.old.bodies }
        ensures room { OnOk result (count ≤ self.new.stable_capacity) }
    {
        self.trace.reserve_stable(count as u32)?;
        self.writers.reserve(count)?;
        Ok(())
    }

    /// Checks a flush of p, and returns the determinants that it writes, with reserved capacity for their entries.
    #[tactic(auto, using(crate::proofs::MemoriesFit::tells_reason))]
    pub(crate) fn prepare_flush(&mut self, alloc: Global, p: Pid) -> Result<Vec<Det>, CoreFault>
        ensures run { self.new.run ≡ self.old.run }
        ensures bodies { self.new.bodies ≡ self.old.bodies }
        ensures legal { OnOk result (request_fault self.old.run (Requests.Flush p) ≡ None) }
        ensures refused { IfErr result (IsFirstRefusal self.old.run (Requests.Flush p)) }
        ensures dets { IfOk result (λ dets. dets.items ≡ dets_to_flush self.old.run p) }
        ensures room { IfOk result (λ dets. length dets.items ≤ self.new.stable_capacity) }
    {
        if let Some(fault) = self.flush_fault(p) {
            return Err(fault);
        }
        let Ok(dets) = self.dets_to_flush(alloc, p) else {
            return Err(CoreFault::NoMemory);
        };
        if self.reserve_flush(dets.len()).is_err() {
            return Err(CoreFault::NoMemory);
        }
        Ok(dets)
    }

    /// Returns the first refusal that applies to a forget of p, if there is one.
    #[tactic(auto, unfolding(causal_protocol::specs::Refusals::request_refusals))]
    fn forget_fault(&self, p: Pid) -> Option<CoreFault>
        ensures { result ≡ request_fault self.now.run (Requests.Forget p) }
    {
        if !is_process(p, self.trace.processes()) {
            return Some(CoreFault::NoProcess);
        }
        let Some(process_memory) = process_memory_at(self.process_memories.as_slice(), p) else {
            return Some(CoreFault::Down);
        };
        let count = process_memory.log.stable_len();
        if count > 0 && exceeds_limits(&self.trace, 1, count as usize) {
            return Some(CoreFault::Full);
        }
        None
    }

    /// Returns the determinants that p knows to be stable; none if p is down.
    fn dets_to_forget(&self, alloc: Global, p: Pid) -> Result<Vec<Det>, NoMemory>
        ensures { IfOk result (λ dets. dets.items ≡ dets_to_forget self.now.run p) }
    {
        match process_memory_at(self.process_memories.as_slice(), p) {
            Some(process_memory) => process_memory.log.stable_dets(alloc),
            None => Ok(Vec::new(alloc)),
        }
    }

    /// Removes from p's log the determinants that p knows to be stable, and returns their number.
    #[tactic(auto, unfolding(causal_protocol::specs::Steps::LegalStep))]
    pub(crate) fn forget(&mut self, alloc: Global, p: Pid) -> Result<u32, CoreFault>
        ensures step { Steps self.old.run (Requests.Forget p)
            (reply_of_forget result) self.new.run }
        ensures bodies { self.new.bodies ≡ self.old.bodies }
    {
        if let Some(fault) = self.forget_fault(p) {
            return Err(fault);
        }
        let Ok(listed) = self.dets_to_forget(alloc, p) else {
            return Err(CoreFault::NoMemory);
        };
        if listed.is_empty() {
            return Ok(0);
        }
        if self.trace.reserve(1).is_err() {
            return Err(CoreFault::NoMemory);
        }
        Ok(self.record_forget(p, listed))
    }

    /// Records that p forgets these determinants, which must be all that it knows to be stable.
    fn record_forget(&mut self, p: Pid, listed: Vec<Det>) -> u32
        requires legal { request_fault self.old.run (Requests.Forget p) ≡ None }
        requires listed { listed.items ≡ dets_to_forget self.old.run p }
        requires some { 1 ≤ length listed.items }
        requires spare { 1 ≤ self.old.spare }
        ensures count { result ≡ length listed.items }
        ensures run { self.new.run
            ≡ extend_run self.old.run (Requests.Forget p) (Entries.Forget p listed.items ∷ []) }
        ensures bodies { self.new.bodies ≡ self.old.bodies }
    {
        let count = listed.len() as u32;
        self.trace.push_reserved(Entry::Forget {
            who: p,
            listed: Dets::new(listed),
        });
        drop_stable_at(&mut self.process_memories, p);
        count
    }
}
