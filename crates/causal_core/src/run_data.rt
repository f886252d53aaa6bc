//! The run data of a core: the trace, and the memory of each process.
ghost use Rattle.std.specs.Prelude.{◌≡◌, ◌<◌, ◌≤◌, ◌+◌, [], ◌∷◌, length, OnOk, OnErr, IfOk, IfErr, is_none, is_some, nat_lt, ◌&&◌, true, None, Some, slice_set, vec_len};
ghost use Rattle.causal_name.specs.Names.{message_of};
ghost use Rattle.causal_trace.specs.Past.{det_at};
ghost use Rattle.causal_protocol.specs.declared.request.Request.TheVariants as Requests;
ghost use Rattle.causal_protocol.specs.declared.request.Reply.TheVariants as Replies;
ghost use Rattle.std.specs.FinMap as fin;
ghost use Rattle.causal_protocol.specs.Memory.{present_at, update_at};
ghost use Rattle.causal_protocol.specs.Gathering.{restart_log};
ghost use Rattle.causal_protocol.specs.Run.{memories_of, stable_of};
ghost use Rattle.causal_protocol.specs.Naming.{message_name, next_rsn};
ghost use Rattle.causal_protocol.specs.Refusals.{request_fault, restart_list};
ghost use Rattle.causal_protocol.specs.Steps.{Steps, reply_of_crash};
ghost use Rattle.causal_core.specs.Inside.Stables.{IsStored, run_after_flush};
ghost use Rattle.causal_core.specs.Inside.DeliveryRecords.{delivery_request_of};
ghost use Rattle.causal_core.specs.Inside.Limits.{exceeds_limits_with, exceeds_entries_with};
ghost use Rattle.causal_memory.specs.ProcessMemories.{with_stable};
ghost use Rattle.causal_core.specs.View.{sent_in, gathering_fault, named_message_of, with_delivery, with_bodies, IsFirstRefusal};
ghost use Rattle.causal_core.specs.Inside.Memories.{log_at, memories_in, bodies_in, stored_for, HasCapacity};
ghost use Rattle.causal_core.specs.Inside.DeliveryPlans.{IsDeliveryPlan};
ghost use Rattle.causal_trace.specs.Limits.{max_entries};

use crate::delivery_recording::{record_delivery_at, reserve_delivery_at};
use crate::gather::gather;
use crate::memory_lookup::{count_down, kept_message, process_memory_at};
use causal_log::{Log, Stable};
use causal_memory::delivery_list::listed_len;
use causal_memory::delivery_plan::DeliveryPlan;
use causal_memory::delivery_planning::plan_delivery;
use causal_memory::naming::{must_replay_fault, named_message};
use causal_memory::process_memory::ProcessMemory;
use causal_name::{Det, MsgName, NoMemory, Pid};
use causal_process::Outgoing;
use causal_protocol::limits::{MAX_RUN_ENTRIES, MAX_RUN_LISTED};
use causal_protocol::request::{CoreFault, Delivered};
use causal_trace::entry::Entry;
use causal_trace::trace::Trace;
use std::alloc::Global;
use std::marker::Model;

/// The recorded run, and the volatile memory of each process.
#[derive(Drop)]
pub struct RunData {
    pub(crate) trace: Trace,
    pub(crate) faults: u16,
    pub(crate) writers: Vec<Pid>,
    pub(crate) process_memories: Vec<Option<ProcessMemory>>,
    /// The seed with which logs hash their entries.
    pub(crate) seed: u64,
}

impl Model for RunData {
    ghost use Rattle.std.specs.Prelude.{◌-◌, min, vec_capacity, vec_len};
    ghost use Rattle.causal_core.specs.Inside.MemoryInvariant.{IsRunData};
    ghost use Rattle.causal_core.specs.View.{RunDataState, run_from};
    ghost use Rattle.causal_core.specs.Inside.Memories.{memories_in, bodies_in, capacities_in};

    ghost Value = { RunDataState };

    ghost view = { λ d. record { run = run_from d.trace.recording d.faults d.writers.items; bodies = bodies_in d.process_memories.items; spare = d.trace.spare; capacities = capacities_in d.process_memories.items; stable_capacity = min (vec_capacity d.writers - vec_len d.writers) d.trace.stable_spare } };

    ghost invariant = { λ d. IsRunData (run_from d.trace.recording d.faults d.writers.items) (memories_in d.process_memories.items) };
}

/// Returns whether the number is that of a process of the run.
pub(crate) fn is_process(p: Pid, n: u16) -> bool
    ensures { result ≡ nat_lt p.0 n }
{
    u16::from(p.0) < n
}

/// Returns whether both numbers are those of processes of the run.
fn are_processes(q: Pid, source: Pid, n: u16) -> bool
    ensures { result ≡ (nat_lt q.0 n && nat_lt source.0 n) }
{
    is_process(q, n) && is_process(source, n)
}

/// Returns whether this number of further entries would exceed the limit.
pub(crate) fn exceeds_entries(trace: &Trace, entries: u32) -> bool
    ensures { result ≡ exceeds_entries_with trace.now.recording.past entries }
{
    trace.len().saturating_add(entries) > MAX_RUN_ENTRIES
}

/// Returns whether this number of further entries, or a list of this length, would exceed a limit.
pub(crate) fn exceeds_limits(trace: &Trace, entries: u32, listed: usize) -> bool
    ensures { result ≡ exceeds_limits_with trace.now.recording.past entries listed }
{
    exceeds_entries(trace, entries)
        || listed.saturating_add(trace.listed() as usize) > MAX_RUN_LISTED
}

/// Drops the memory of a process.
#[tactic(auto, using(crate::proofs::Rules::of_maps))]
fn drop_memory(process_memories: &mut Vec<Option<ProcessMemory>>, p: usize)
    requires { p < vec_len process_memories.old }
    ensures memories { memories_in process_memories.new.items
        ≡ slice_set (memories_in process_memories.old.items) p None }
    ensures bodies { bodies_in process_memories.new.items
        ≡ slice_set (bodies_in process_memories.old.items) p [] }
{
    drop(process_memories[p].take());
}

/// Marks a determinant as stable in p's log.
fn mark_det_stable_at(process_memories: &mut Vec<Option<ProcessMemory>>, p: Pid, det: Det)
    requires { is_some (present_at (memories_in process_memories.old.items) p.0) ≡ true }
    ensures memories { memories_in process_memories.new.items
        ≡ update_at (with_stable det) (memories_in process_memories.old.items) p.0 }
    ensures bodies { bodies_in process_memories.new.items ≡ bodies_in process_memories.old.items }
{
    let Some(process_memory) = &mut process_memories[usize::from(p.0)] else {
        unreachable!()
    };
    process_memory.mark_stable(det);
}

impl RunData {
    /// Returns the recorded trace.
    pub fn trace(&self) -> &Trace
        ensures { result.now.recording ≡ self.now.run.recording }
    {
        &self.trace
    }

    /// Returns the recorded trace, and drops the rest.
    pub(crate) fn into_trace(self) -> Trace
        ensures { result.recording ≡ self.run.recording }
    {
        let RunData {
            trace,
            writers,
            process_memories,
            ..
        } = self;
        drop(writers);
        drop(process_memories);
        trace
    }

    /// Returns the bound f on failures.
    pub fn faults(&self) -> u16
        ensures { result ≡ self.now.run.faults }
    {
        self.faults
    }

    /// Returns the first refusal that applies to a crash of p, if there is one.
    #[tactic(auto, unfolding(causal_protocol::specs::Refusals::request_refusals))]
    fn crash_fault(&self, p: Pid) -> Option<CoreFault>
        ensures { result ≡ request_fault self.now.run (Requests.Crash p) }
    {
        if !is_process(p, self.trace.processes()) {
            return Some(CoreFault::NoProcess);
        }
        if process_memory_at(self.process_memories.as_slice(), p).is_none() {
            return Some(CoreFault::Down);
        }
        if count_down(self.process_memories.as_slice()) >= usize::from(self.faults) {
            return Some(CoreFault::OverFaults);
        }
        if exceeds_entries(&self.trace, 1) {
            return Some(CoreFault::Full);
        }
        None
    }

    /// Records a crash of process p, and drops its memory.
    #[tactic(auto, unfolding(causal_protocol::specs::Steps::LegalStep), using(crate::proofs::MemoriesFit::tells_reason))]
    pub(crate) fn crash(&mut self, p: Pid) -> Result<u32, CoreFault>
        ensures step { Steps self.old.run (Requests.Crash p) (reply_of_crash result) self.new.run }
        ensures ok { OnOk result (self.new.bodies ≡ slice_set self.old.bodies p.0 []) }
        ensures err { OnErr result (self.new.bodies ≡ self.old.bodies) }
    {
        if let Some(fault) = self.crash_fault(p) {
            return Err(fault);
        }
        if self.trace.reserve(1).is_err() {
            return Err(CoreFault::NoMemory);
        }
        let first = self.trace.len();
        self.trace.push_reserved(Entry::Crash { who: p });
        drop_memory(&mut self.process_memories, usize::from(p.0));
        Ok(first)
    }

    /// Returns the first refusal that applies to the delivery, if there is one. `stored` is what stable storage
    /// contains for q's next delivery.
    #[tactic(auto, unfolding(causal_protocol::specs::Refusals::request_refusals))]
    fn delivery_fault(
        &self,
        q: Pid,
        source: Pid,
        ssn: u32,
        stored: Option<Det>,
    ) -> Option<CoreFault>
        requires { stored ≡ stored_for self.now.run q }
        ensures { result ≡ request_fault self.now.run (Requests.Deliver q source ssn) }
    {
        if !are_processes(q, source, self.trace.processes()) {
            return Some(CoreFault::NoProcess);
        }
        let process_memories = self.process_memories.as_slice();
        let Some(process_memory) = process_memory_at(process_memories, q) else {
            return Some(CoreFault::Down);
        };
        let asked = MsgName { source, ssn };
        if let Some(fault) = must_replay_fault(process_memory, q, stored, asked) {
            return Some(fault);
        }
        let Some(message) = kept_message(process_memories, q, source, ssn) else {
            return Some(CoreFault::NotAvailable);
        };
        if self.trace.has_delivered(q, asked) {
            return Some(CoreFault::AlreadyDelivered);
        }
        let own = Det {
            source,
            ssn,
            dest: q,
            rsn: process_memory.received.len() as u32,
        };
        if exceeds_limits(&self.trace, 9, listed_len(own, message.batch)) {
            return Some(CoreFault::Full);
        }
        None
    }

    /// Returns the number of messages that q's current lane has received; 0 if q is down.
    pub(crate) fn next_rsn(&self, q: Pid) -> u32
        ensures { result ≡ next_rsn (memories_of self.now.run) q }
    {
        match process_memory_at(self.process_memories.as_slice(), q) {
            Some(process_memory) => process_memory.received.len() as u32,
            None => 0,
        }
    }

    /// Returns the plan of a delivery that is not refused.
    fn delivery_plan_for(
        &self,
        alloc: Global,
        q: Pid,
        source: Pid,
        ssn: u32,
    ) -> Result<DeliveryPlan, NoMemory>
        requires { request_fault self.now.run (Requests.Deliver q source ssn) ≡ None }
        ensures { IfOk result (λ g. IsDeliveryPlan self.now q (message_name source ssn) g) }
    {
        let process_memories = self.process_memories.as_slice();
        let Some(message) = kept_message(process_memories, q, source, ssn) else {
            unreachable!()
        };
        let Some(process_memory) = process_memory_at(process_memories, q) else {
            unreachable!()
        };
        let own = Det {
            source,
            ssn,
            dest: q,
            rsn: process_memory.received.len() as u32,
        };
        plan_delivery(alloc, self.faults, own, process_memory, message)
    }

    /// Reserves capacity for a delivery to q that logs the given number of determinants, and for its sends.
    fn reserve_delivery(&mut self, q: Pid, logged: u32) -> Result<(), NoMemory>
        requires { is_some (present_at (memories_of self.old.run) q.0) ≡ true }
        ensures run { self.new.run ≡ self.old.run }
        ensures bodies { self.new.bodies ≡ self.old.bodies }
        ensures ok { OnOk result (HasCapacity q.0 logged self.new) }
    {
        self.trace.reserve(9)?;
        reserve_delivery_at(&mut self.process_memories, q, logged)?;
        Ok(())
    }

    /// Checks a delivery, and makes everything that it must allocate: its plan and the reserved capacity.
    pub(crate) fn prepare(
        &mut self,
        alloc: Global,
        q: Pid,
        source: Pid,
        ssn: u32,
        stored: Option<Det>,
    ) -> Result<DeliveryPlan, CoreFault>
        requires { stored ≡ stored_for self.old.run q }
        ensures run { self.new.run ≡ self.old.run }
        ensures bodies { self.new.bodies ≡ self.old.bodies }
        ensures legal { OnOk result (request_fault self.old.run (Requests.Deliver q source ssn)
            ≡ None) }
        ensures refused { IfErr result (IsFirstRefusal self.old.run (Requests.Deliver q source ssn)) }
        ensures grown { IfOk result (λ g. IsDeliveryPlan self.new q (message_name source ssn) g) }
        ensures room { IfOk result (λ g. HasCapacity q.0 (length g.piggyback + 1) self.new) }
    {
        if let Some(fault) = self.delivery_fault(q, source, ssn, stored) {
            return Err(fault);
        }
        let Ok(grown) = self.delivery_plan_for(alloc, q, source, ssn) else {
            return Err(CoreFault::NoMemory);
        };
        // The entry lists what the message carries, and the delivery's own determinant.
        let logged = grown.listed.as_slice().len() as u32 + 1;
        match self.reserve_delivery(q, logged) {
            Ok(()) => Ok(grown),
            Err(_) => {
                drop(grown);
                Err(CoreFault::NoMemory)
            }
        }
    }

    /// Records a delivery to q and its sends, after the box has stepped.
    #[tactic(auto, using(crate::proofs::LegalDelivery::delivery_steps))]
    pub(crate) fn finish(&mut self, q: Pid, grown: DeliveryPlan, sends: Vec<Outgoing>) -> Delivered
        requires legal { request_fault self.old.run (delivery_request_of q grown) ≡ None }
        requires grown { IsDeliveryPlan self.old q (message_of grown.own) grown }
        requires few { length sends.items ≤ 8 }
        requires room { HasCapacity q.0 (length grown.piggyback + 1) self.old }
        ensures run { self.new.run
            ≡ with_delivery self.old.run q (message_of grown.own) sends.items }
        ensures step { Steps self.old.run (delivery_request_of q grown)
            (Replies.Delivered result) self.new.run }
        ensures det { det_at self.new.run.recording.past result.first ≡ Some result.det }
        ensures bodies { self.new.bodies
            ≡ with_bodies self.old.bodies q.0 (sent_in self.old.run sends.items) }
    {
        let first = self.trace.len();
        let det = grown.own;
        let f = self.faults;
        #[tactic(auto, using(crate::proofs::Rules::of_recording))]
        let sends = record_delivery_at(
            &mut self.trace,
            &mut self.process_memories,
            q,
            f,
            grown,
            sends,
        );
        Delivered { first, det, sends }
    }

    /// Returns the message that is named for q's next delivery. `stored` is what stable storage contains for that
    /// delivery.
    pub(crate) fn named_message(
        &self,
        q: Pid,
        stored: Option<Det>,
    ) -> Result<Option<MsgName>, CoreFault>
        requires { stored ≡ stored_for self.now.run q }
        ensures { result ≡ named_message_of self.now.run q }
    {
        if !is_process(q, self.trace.processes()) {
            return Err(CoreFault::NoProcess);
        }
        let Some(process_memory) = process_memory_at(self.process_memories.as_slice(), q) else {
            return Err(CoreFault::Down);
        };
        Ok(named_message(process_memory, q, stored))
    }

    /// Returns the first refusal that applies to a gathering for p, if there is one.
    pub(crate) fn gathering_fault(&self, p: Pid) -> Option<CoreFault>
        ensures { result ≡ gathering_fault self.now.run p }
    {
        if !is_process(p, self.trace.processes()) {
            return Some(CoreFault::NoProcess);
        }
        if process_memory_at(self.process_memories.as_slice(), p).is_some() {
            return Some(CoreFault::NotDown);
        }
        None
    }

    /// Returns the log that p would have after a restart. The store must contain exactly what is stable.
    pub(crate) fn gather<S: Stable>(
        &self,
        alloc: Global,
        p: Pid,
        store: &S,
    ) -> Result<Log, NoMemory>
        requires { IsStored (S.contents store.now) self.now.run.recording.past }
        ensures { IfOk result
            (λ log. log.map ≡ restart_log (memories_of self.now.run) (stable_of self.now.run) p) }
    {
        let stored = store.all(alloc)?;
        gather(
            alloc,
            self.log_seed(p),
            self.process_memories.as_slice(),
            stored.as_slice(),
            p,
        )
    }

    /// Returns the determinants that a restart of p would list. The store must contain exactly what is stable.
    pub(crate) fn restart_list<S: Stable>(
        &self,
        alloc: Global,
        p: Pid,
        store: &S,
    ) -> Result<Vec<Det>, NoMemory>
        requires { IsStored (S.contents store.now) self.now.run.recording.past }
        ensures { IfOk result (λ dets. dets.items ≡ restart_list self.now.run p) }
    {
        let log = self.gather(alloc, p, store)?;
        let dets = log.dets(alloc);
        drop(log);
        dets
    }

    /// Records that a flush of p wrote a determinant.
    pub(crate) fn record_stable(&mut self, p: Pid, det: Det)
        requires process { p.0 < self.old.run.recording.processes }
        requires up { is_some (present_at (memories_of self.old.run) p.0) ≡ true }
        requires logged { is_some (fin.get (log_at (memories_of self.old.run) p.0) det) ≡ true }
        requires short { length self.old.run.recording.past < max_entries }
        requires room { 1 ≤ self.old.stable_capacity }
        ensures run { self.new.run ≡ run_after_flush self.old.run p (det ∷ []) }
        ensures bodies { self.new.bodies ≡ self.old.bodies }
        ensures room { self.old.stable_capacity ≤ self.new.stable_capacity + 1 }
    {
        self.trace.push_stable_reserved(det);
        self.writers.push_reserved(p);
        mark_det_stable_at(&mut self.process_memories, p, det);
    }
}
