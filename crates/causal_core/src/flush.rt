//! Flush: determinants of a log become stable.
ghost use Rattle.std.specs.Prelude.{◌≡◌, ◌<◌, ◌≤◌, ◌+◌, ◌∷◌, [], length, map, take, is_some, true, None, Err, OnOk, OnErr, IfOk, IfErr};
ghost use Rattle.std.specs.FinMap as fin;
ghost use Rattle.std.specs.List.{list_all};
ghost use Rattle.causal_protocol.specs.declared.request.Request.TheVariants as Requests;
ghost use Rattle.causal_protocol.specs.Memory.{present_at};
ghost use Rattle.causal_protocol.specs.Run.{memories_of};
ghost use Rattle.causal_protocol.specs.Steps.{flush_reason_of, Steps, reply_of_flush};
ghost use Rattle.causal_core.specs.Boxes.{SameAnswers};
ghost use Rattle.causal_core.specs.Inside.Memories.{log_at};
ghost use Rattle.causal_core.specs.Flushes.{HasFailed, FaultMeansFailure, StoreFaultIsFirst};
ghost use Rattle.causal_core.specs.Inside.Stables.{written_count, IsStored, run_after_flush};
ghost use Rattle.causal_core.specs.CoreView.{core_run, core_state, core_store};
ghost use Rattle.causal_trace.specs.Limits.{max_entries};

use crate::run_data::RunData;
use crate::runtime::Core;
use causal_log::{PutFault, Stable};
use causal_name::{Det, Pid};
use causal_protocol::request::{CoreFault, FlushFault};

/// Stores one determinant of p's log, records its stable entry, and marks it as stable in the log. Only the store may
/// allocate.
fn flush_one<S: Stable>(
    run_data: &mut RunData,
    store: &mut S,
    p: Pid,
    det: Det,
) -> Result<(), CoreFault>
    requires process { p.0 < run_data.old.run.recording.processes }
    requires up { is_some (present_at (memories_of run_data.old.run) p.0) ≡ true }
    requires logged { is_some (fin.get (log_at (memories_of run_data.old.run) p.0) det) ≡ true }
    requires short { length run_data.old.run.recording.past < max_entries }
    requires room { 1 ≤ run_data.old.stable_capacity }
    requires stored { IsStored (S.contents store.old) run_data.old.run.recording.past }
    ensures ok { OnOk result (run_data.new.run ≡ run_after_flush run_data.old.run p (det ∷ [])) }
    ensures err { OnErr result (run_data.new.run ≡ run_data.old.run) }
    ensures stored { IsStored (S.contents store.new) run_data.new.run.recording.past }
    ensures filled { map is_some (memories_of run_data.new.run)
        ≡ map is_some (memories_of run_data.old.run) }
    ensures why { IfErr result (λ fault. flush_reason_of fault ≡ None) }
    ensures fault { result ≡ Err CoreFault.StoreFault
        → HasFailed (S.faults store.old) (S.faults store.new) }
    ensures faults { S.faults store.old ≤ S.faults store.new }
    ensures bodies { run_data.new.bodies ≡ run_data.old.bodies }
    ensures room { run_data.old.stable_capacity ≤ run_data.new.stable_capacity + 1 }
{
    if store.failures() == u64::MAX {
        return Err(CoreFault::StoreFault);
    }
    match store.put(det) {
        Ok(()) => {
            run_data.record_stable(p, det);
            Ok(())
        }
        Err(PutFault::Device) => Err(CoreFault::StoreFault),
        Err(PutFault::NoMemory) => Err(CoreFault::NoMemory),
    }
}

/// Stores determinants of p's log, in order; each gets its stable entry and its mark. Returns their number.
fn flush_all<S: Stable>(
    run_data: &mut RunData,
    store: &mut S,
    p: Pid,
    dets: &[Det],
) -> Result<u32, FlushFault>
    requires process { p.0 < run_data.old.run.recording.processes }
    requires up { is_some (present_at (memories_of run_data.old.run) p.0) ≡ true }
    requires logged { list_all
        (λ d. is_some (fin.get (log_at (memories_of run_data.old.run) p.0) d)) dets.now ≡ true }
    requires short { length run_data.old.run.recording.past + length dets.now ≤ max_entries }
    requires room { length dets.now ≤ run_data.old.stable_capacity }
    requires stored { IsStored (S.contents store.old) run_data.old.run.recording.past }
    ensures run { run_data.new.run ≡ run_after_flush run_data.old.run p (take
        (written_count result) dets.now) }
    ensures ok { IfOk result (λ count. count ≡ length dets.now) }
    ensures part { IfErr result (λ f. f.done < length dets.now) }
    ensures why { IfErr result (λ f. flush_reason_of f.fault ≡ None) }
    ensures fault { IfErr result (FaultMeansFailure (S.faults store.old) (S.faults store.new)) }
    ensures stored { IsStored (S.contents store.new) run_data.new.run.recording.past }
    ensures filled { map is_some (memories_of run_data.new.run)
        ≡ map is_some (memories_of run_data.old.run) }
    ensures bodies { run_data.new.bodies ≡ run_data.old.bodies }
{
    let mut done = 0;
    for det in dets {
        if let Err(fault) = flush_one(run_data, store, p, *det) {
            return Err(FlushFault { fault, done });
        }
        done += 1;
    }
    Ok(done)
}

impl<S: Stable> Core<S> {
    /// Stores the determinants that p logs and does not know to be stable, in ascending order, and returns their
    /// number. Each gets its stable entry in the trace, and p then knows it to be stable (asynchronous logging of
    /// determinants: Elnozahy, Alvisi, Wang and Johnson 2002). It takes O(logged determinants) time up to logarithmic
    /// factors. A refusal as `Full` takes O(logged determinants) too, since it counts those that are not known to be
    /// stable.
    ///
    /// # Errors
    /// The first of `NoProcess`, `Down`, and `Full` if an entry for each determinant would exceed the limit; these
    /// change nothing. If none applies: `StoreFault` if a put failed or the store's count of faults is at its maximum,
    /// which is checked first, and `NoMemory` if allocation failed. `done` is the number of determinants stored and
    /// recorded before.
    #[tactic(auto, using(crate::proofs::Rules::of_flushing))]
    pub fn flush(&mut self, p: Pid) -> Result<u32, FlushFault>
        requires { p.0 < 256 }
        ensures step { Steps (core_run self.old) (Requests.Flush p) (reply_of_flush result)
            (core_run self.new) }
        ensures fault { IfErr result
            (FaultMeansFailure (S.faults (core_store self.old)) (S.faults (core_store self.new))) }
        ensures order { StoreFaultIsFirst (S.faults (core_store self.old)) (core_run self.old) p
            result }
        ensures bodies { (core_state self.new).bodies ≡ (core_state self.old).bodies }
        ensures boxes { SameAnswers answers (core_state self.old).slots
            (core_state self.new).slots }
    {
        if self.store.failures() == u64::MAX && self.run_data.has_unflushed(p) {
            return Err(FlushFault {
                fault: CoreFault::StoreFault,
                done: 0,
            });
        }
        let dets = match self.run_data.prepare_flush(self.alloc, p) {
            Ok(dets) => dets,
            Err(fault) => return Err(FlushFault { fault, done: 0 }),
        };
        drop(self.gather_cache.take());
        flush_all(&mut self.run_data, &mut self.store, p, dets.as_slice())
    }
}
