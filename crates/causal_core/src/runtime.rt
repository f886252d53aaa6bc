//! The runtime: processes in boxes, the recorded run, and stable storage.
ghost use Rattle.std.specs.Prelude.{◌≡◌, ◌<◌, map, is_some, None, Some, OnOk, OnErr, IfOk, IfErr};
ghost use Rattle.causal_name.specs.declared.Det.{Det as Determinant};
ghost use Rattle.causal_log.specs.Stores.{set_has};
ghost use Rattle.causal_trace.specs.Past.{is_stable};
ghost use Rattle.causal_protocol.specs.Run.{memories_of};
ghost use Rattle.causal_protocol.specs.Runs.{SatisfiesInvariant};
ghost use Rattle.std.proofs.Props.{props};
ghost use Rattle.causal_core.specs.Inside.GatherCaches.{coded_map, IsGatherCache};

use crate::boxes::drop_box;
use crate::gather_cache::{GatherCache, invalidate_except};
use crate::run_data::RunData;
use causal_log::Stable;
use causal_name::{Det, MsgName, Pid, Slot};
use causal_process::Process;
use causal_protocol::request::{CoreFault, Delivered};
use causal_trace::trace::Trace;
use std::alloc::Global;

/// Processes that run, crash and restart, with the recorded run. A slot contains a box exactly if its process is up,
/// the store contains exactly the determinants of the stable entries, and the recorded run satisfies the protocol's
/// invariant.
#[derive(Drop)]
pub struct Core<S: Stable, B = Box<dyn Process + Send>> {
    pub(crate) alloc: Global,
    pub(crate) run_data: RunData,
    pub(crate) slots: Vec<Option<B>>,
    pub(crate) store: S,
    pub(crate) gather_cache: Option<GatherCache>,
    pub(crate) replay_refusal: Option<CoreFault>,
    ghost filled: { map is_some slots.items ≡ map is_some (memories_of run_data.run) },
    ghost stored: { (d : Determinant) → set_has (S.contents store) d ≡ is_stable run_data.run.recording.past d },
    ghost cache_is_right: { IsGatherCache run_data.run gather_cache } by { Prim.hlevel (props, coded_map) },
    ghost invariant_holds: { ∥ SatisfiesInvariant run_data.run ∥₁ },
}

impl<S: Stable> Core<S> {
    ghost use Rattle.causal_trace.specs.Past.{det_at};
    ghost use Rattle.causal_trace.specs.Judgement.{IsSafeTrace};
    ghost use Rattle.causal_trace.specs.Survivors.{IsFollowed};
    ghost use Rattle.causal_protocol.specs.Invariant.{SlotsAreSingle};
    ghost use Rattle.causal_core.specs.CoreView.{core_run, core_state, core_store, IsUnchanged, Delivers, Crashes};
    ghost use Rattle.causal_core.specs.View.{named_message_of, gathering_fault};
    ghost use Rattle.causal_protocol.specs.Refusals.{restart_list};
    ghost use Rattle.causal_protocol.specs.Steps.{reason_of, Steps, reply_of_delivery, reply_of_crash};
    ghost use Rattle.causal_protocol.specs.declared.request.Request.TheVariants as Requests;

    /// Returns the recorded trace. It is safe for the bound that `faults` returns: at no instant does a crash of at
    /// most that many processes leave an orphan (Alvisi and Marzullo 1998). No two different determinants that up
    /// processes log, or that are in stable storage, are of the same delivery, at any instant: recoveries follow what
    /// survives.
    #[tactic(auto, using(crate::proofs::Rules::of_safety))]
    pub fn trace(&self) -> &Trace
        ensures recording { result.now.recording ≡ (core_run self.now).recording }
        ensures safe { IsSafeTrace result.now.recording (core_run self.now).faults }
        ensures single { SlotsAreSingle result.now.recording.processes result.now.recording.past }
        ensures followed { IsFollowed result.now.recording }
    {
        self.run_data.trace()
    }

    /// Returns the recorded trace, without a copy; it is safe and followed like that of `trace`. The processes and the
    /// store are dropped.
    #[tactic(auto, using(causal_protocol::proofs::Lemmas::KeptByType::invariant_followed))]
    pub fn into_trace(self) -> Trace
        ensures recording { result.recording ≡ (core_run self).recording }
        ensures safe { IsSafeTrace result.recording (core_run self).faults }
        ensures followed { IsFollowed result.recording }
    {
        let Core {
            run_data,
            slots,
            store,
            gather_cache,
            ..
        } = self;
        drop(slots);
        drop(store);
        drop(gather_cache);
        run_data.into_trace()
    }

    /// Law: a slot contains a box exactly if its process is up, the store contains exactly the determinants of the
    /// stable entries, and the run satisfies the protocol's invariant.
    pub fn state_invariant(&self)
        ensures boxes { map is_some (core_state self.now).slots
            ≡ map is_some (memories_of (core_run self.now)) }
        ensures store { (d : Determinant) → set_has (S.contents (core_store self.now)) d
            ≡ is_stable (core_run self.now).recording.past d }
        ensures run { ∥ SatisfiesInvariant (core_run self.now) ∥₁ }
    {}

    /// Returns the bound f on failures.
    pub fn faults(&self) -> u16
        ensures { result ≡ (core_run self.now).faults }
    {
        self.run_data.faults()
    }

    /// Crashes process p: its box, its log and the messages that it has sent are dropped. Returns the position of the
    /// crash entry.
    ///
    /// # Errors
    /// The first refusal that applies; if none does, `NoMemory` if allocation failed. A refusal changes nothing.
    pub fn crash(&mut self, p: Pid) -> Result<u32, CoreFault>
        requires { p.0 < 256 }
        ensures step { Steps (core_run self.old) (Requests.Crash p) (reply_of_crash result)
            (core_run self.new) }
        ensures ok { OnOk result (Crashes answers p (core_state self.old) (core_state self.new)) }
        ensures refused { OnErr result
            (IsUnchanged answers (core_state self.old) (core_state self.new)) }
    {
        let first = match self.run_data.crash(p) {
            Ok(first) => first,
            Err(fault) => return Err(fault),
        };
        invalidate_except(&mut self.gather_cache, p);
        drop_box(&mut self.slots, usize::from(p.0));
        Ok(first)
    }

    /// Delivers to q the message with this sender and number.
    ///
    /// # Errors
    /// The first refusal that applies; if none does, `NoMemory` if allocation failed. A refusal changes nothing.
    pub fn deliver(&mut self, q: Pid, source: Pid, ssn: u32) -> Result<Delivered, CoreFault>
        requires { q.0 < 256 }
        ensures step { Steps (core_run self.old)
            (Requests.Deliver q source ssn) (reply_of_delivery result) (core_run self.new) }
        ensures det { IfOk result
            (λ d. det_at (core_run self.new).recording.past d.first ≡ Some d.det) }
        ensures ok { OnOk result
            (Delivers answers q source ssn (core_state self.old) (core_state self.new)) }
        ensures refused { OnErr result
            (IsUnchanged answers (core_state self.old) (core_state self.new)) }
    {
        let rsn = self.run_data.next_rsn(q);
        let stored = self.store.least_of(Slot { dest: q, rsn });
        let grown = match self.run_data.prepare(self.alloc, q, source, ssn, stored) {
            Ok(grown) => grown,
            Err(fault) => return Err(fault),
        };
        match self
            .run_data
            .step_with_message(&mut self.slots, self.alloc, q, source, ssn)
        {
            Ok(sends) => {
                invalidate_except(&mut self.gather_cache, q);
                Ok(self.run_data.finish(q, grown, sends))
            }
            Err(_) => {
                drop(grown);
                Err(CoreFault::NoMemory)
            }
        }
    }

    /// Returns the message that is named for q's next delivery: that of the least determinant of this delivery in q's
    /// log or in stable storage.
    ///
    /// # Errors
    /// `NoProcess`, `Down`.
    pub fn named(&self, q: Pid) -> Result<Option<MsgName>, CoreFault>
        requires { q.0 < 256 }
        ensures { result ≡ named_message_of (core_run self.now) q }
    {
        let rsn = self.run_data.next_rsn(q);
        let stored = self.store.least_of(Slot { dest: q, rsn });
        self.run_data.named_message(q, stored)
    }

    /// Returns the determinants that a restart of p would list.
    ///
    /// # Errors
    /// `NoProcess`, `NotDown`; if neither applies, `NoMemory` if allocation failed.
    pub fn gathered(&self, p: Pid) -> Result<Vec<Det>, CoreFault>
        requires { p.0 < 256 }
        ensures ok { IfOk result (λ dets. dets.items ≡ restart_list (core_run self.now) p) }
        ensures legal { OnOk result (gathering_fault (core_run self.now) p ≡ None) }
        ensures refused { IfErr result
            (λ fault. gathering_fault (core_run self.now) p ≡ reason_of fault) }
    {
        if let Some(fault) = self.run_data.gathering_fault(p) {
            return Err(fault);
        }
        match self.run_data.restart_list(self.alloc, p, &self.store) {
            Ok(dets) => Ok(dets),
            Err(_) => Err(CoreFault::NoMemory),
        }
    }
}
