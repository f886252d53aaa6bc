//! A script's commands, issued in order by one seat.
ghost use Rattle.std.specs.Prelude.{◌≡◌, ◌≤◌, [], length, drop, Err, IfOk, IfErr, IsOk, OnOk};
ghost use Rattle.std.specs.Vec.Iter.{into_iter_items};
ghost use Rattle.causal_trace.specs.Judgement.{IsSafeTrace};
ghost use Rattle.causal_core.specs.CoreView.{core_run};
ghost use Rattle.causal_run.specs.Runs.{spares_for, spares_in, IsRunOf, IsRunTo, IsStarted, ExplainsRunFault};
ghost use Rattle.causal_run.specs.Inside.IssuedRequests.{RecordsRequest, ArePerformed, IsRefusedRun};

use crate::fault::RunFault;
use crate::run_refusals::run_fault_at;
use causal_core::Core;
use causal_log::MemStable;
use causal_process::Process;
use causal_protocol::request::Request;
use causal_script::{Command, Script};
use causal_shared::fault::SharedFault;
use causal_shared::seat::Seat;
use causal_shared::shared::{Finished, Shared, finish};
use causal_trace::trace::Trace;
use std::alloc::Global;
use std::sync::Wait;
use std::vec::IntoIter;

/// Issues one request; a restart takes the next spare.
fn issue<R: Wait>(
    rt: &R,
    shared: &Shared<MemStable>,
    seat: &mut Seat,
    request: Request,
    spares: &mut IntoIter<Box<dyn Process + Send>>,
) -> Result<(), SharedFault>
    requires { spares_for request ≤ length (into_iter_items spares.old) }
    ensures item { RecordsRequest seat.old.view seat.new.view request result }
    ensures spares { into_iter_items spares.new
        ≡ drop (spares_for request) (into_iter_items spares.old) }
{
    match request {
        Request::Deliver { q, source, ssn } => {
            shared.deliver(rt, seat, q, source, ssn)?;
            Ok(())
        }
        Request::Crash { p } => {
            shared.crash(rt, seat, p)?;
            Ok(())
        }
        Request::Restart { p } => {
            let Some(spare) = spares.next() else {
                unreachable!()
            };
            match shared.restart(rt, seat, p, spare) {
                Ok(_) => Ok(()),
                Err(refused) => Err(refused.fault),
            }
        }
        Request::Flush { p } => {
            shared.flush(rt, seat, p)?;
            Ok(())
        }
        Request::Forget { p } => {
            shared.forget(rt, seat, p)?;
            Ok(())
        }
    }
}

/// Issues the commands' requests in order, up to the first that fails.
fn issue_all<R: Wait>(
    rt: &R,
    shared: &Shared<MemStable>,
    seat: &mut Seat,
    commands: &[Command],
    spares: Vec<Box<dyn Process + Send>>,
) -> Result<(), RunFault>
    requires fresh { seat.old.view.items ≡ [] }
    requires spares { length spares.items ≡ spares_in commands.now }
    ensures ok { OnOk result (ArePerformed commands.now seat.new.view.items) }
    ensures err { IfErr result (IsRefusedRun commands.now seat.new.view.items) }
{
    let mut spares = spares.into_iter();
    for command in commands {
        if let Err(fault) = issue(rt, shared, seat, command.request, &mut spares) {
            return Err(run_fault_at(command.line, fault));
        }
    }
    Ok(())
}

/// Drops the core. In a function of its own, since each function that drops a core has a long proof.
pub(crate) fn discard(core: Core<MemStable>) {
    let _core = core;
}

/// The core of a finished run, unless a call failed.
fn core_unless(
    outcome: Result<(), RunFault>,
    finished: Finished<MemStable>,
) -> Result<Core<MemStable>, RunFault>
    ensures ok { IfOk result (λ core. IsOk outcome × (core_run core ≡ core_run finished.core)) }
    ensures err { IfErr result (λ fault. outcome ≡ Err fault) }
{
    let core = finished.core;
    match outcome {
        Ok(()) => Ok(core),
        Err(fault) => {
            discard(core);
            Err(fault)
        }
    }
}

/// Starts these processes for the bound f of a script, issues commands through the shared runtime, with one seat and
/// stable storage in memory, and returns the core after them.
pub(crate) fn core_after<R: Wait>(
    rt: &R,
    alloc: Global,
    script: &Script,
    commands: &[Command],
    boxes: Vec<Box<dyn Process + Send>>,
    spares: Vec<Box<dyn Process + Send>>,
    seed: u64,
) -> Result<Core<MemStable>, RunFault>
    requires some { 1 ≤ script.now.n }
    requires few { script.now.n ≤ 256 }
    requires boxes { length boxes.items ≡ script.now.n }
    requires spares { length spares.items ≡ spares_in commands.now }
    ensures run { IfOk result (λ core. IsRunTo
        (IsStarted answers script.now.f boxes.items) commands.now (core_run core)) }
    ensures faults { IfOk result (λ core. (core_run core).faults ≡ script.now.f) }
    ensures refused { IfErr result
        (ExplainsRunFault (IsStarted answers script.now.f boxes.items) commands.now) }
{
    let store = MemStable::with_seed(alloc, seed);
    let core = Core::start_seeded(alloc, script.f, boxes, store, seed)?;
    let (shared, mut seats) = Shared::open(alloc, core, 1, 0)?;
    let outcome = issue_all(rt, &shared, &mut seats[0], commands, spares);
    let finished = finish(shared, seats)?;
    core_unless(outcome, finished)
}

/// Runs the commands of a script through the shared runtime, with one seat and stable storage in memory, and returns the
/// recorded trace. It starts these processes and issues the commands in order; each restart takes the next spare. It
/// explores nothing; `run_script` does.
///
/// # Errors
/// `Refused` with the line of the first refused command; `Memory` if allocation failed; `Lock`. If the shared runtime
/// cannot be finished, the call returns `Finish` instead of a refusal.
pub fn perform<R: Wait>(
    rt: &R,
    alloc: Global,
    script: &Script,
    boxes: Vec<Box<dyn Process + Send>>,
    spares: Vec<Box<dyn Process + Send>>,
) -> Result<Trace, RunFault>
    requires some { 1 ≤ script.now.n }
    requires few { script.now.n ≤ 256 }
    requires boxes { length boxes.items ≡ script.now.n }
    requires spares { length spares.items ≡ spares_in script.now.commands }
    ensures run { IfOk result (λ trace. IsRunOf answers script.now boxes.items trace.recording) }
    ensures safe { IfOk result (λ trace. IsSafeTrace trace.recording script.now.f) }
    ensures refused { IfErr result
        (ExplainsRunFault (IsStarted answers script.now.f boxes.items) script.now.commands) }
{
    perform_seeded(rt, alloc, script, boxes, spares, 0)
}

/// Runs the commands of a script as `perform` does. The logs and the store hash with this seed; only costs depend on it.
///
/// # Errors
/// Those of `perform`.
pub fn perform_seeded<R: Wait>(
    rt: &R,
    alloc: Global,
    script: &Script,
    boxes: Vec<Box<dyn Process + Send>>,
    spares: Vec<Box<dyn Process + Send>>,
    seed: u64,
) -> Result<Trace, RunFault>
    requires some { 1 ≤ script.now.n }
    requires few { script.now.n ≤ 256 }
    requires boxes { length boxes.items ≡ script.now.n }
    requires spares { length spares.items ≡ spares_in script.now.commands }
    ensures run { IfOk result (λ trace. IsRunOf answers script.now boxes.items trace.recording) }
    ensures safe { IfOk result (λ trace. IsSafeTrace trace.recording script.now.f) }
    ensures refused { IfErr result
        (ExplainsRunFault (IsStarted answers script.now.f boxes.items) script.now.commands) }
{
    let commands = script.commands.as_slice();
    Ok(core_after(rt, alloc, script, commands, boxes, spares, seed)?.into_trace())
}
