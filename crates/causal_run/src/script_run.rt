//! A script, run by processes of its kind.
ghost use Rattle.std.specs.Prelude.{◌≡◌, ◌≤◌, ◌<◌, length, IfOk, IfErr, IfSome};
ghost use Rattle.causal_trace.specs.Judgement.{IsSafeTrace};
ghost use Rattle.causal_protocol.specs.Run.{memories_of};
ghost use Rattle.causal_core.specs.CoreView.{core_run};
ghost use Rattle.causal_core.specs.Pendings.{pending_in};
ghost use Rattle.causal_run.specs.Pending.{IsDeliverCommandAt, IsPendingBefore};
ghost use Rattle.causal_run.specs.Runs.{spares_in, IsStarted, IsRunFrom, ExplainsRunFault};
ghost use Rattle.causal_run.specs.ScriptProcesses.{IsStartOf};

use crate::exploration::{by_process, exploration_spares, explore_as};
use crate::fault::RunFault;
use crate::script_commands::{core_after, discard};
use crate::script_process::ScriptProcess;
use causal_core::Core;
use causal_log::MemStable;
use causal_name::{MsgName, Pid};
use causal_process::Process;
use causal_protocol::request::{CoreFault, Request};
use causal_script::{Command, Script};
use causal_trace::trace::Trace;
use std::alloc::Global;
use std::sync::Wait;

/// Returns the number with which the spare for a restart of `p` is made: `p`, or 0 if `p` is not a process of the
/// script. The core then refuses the restart.
fn spare_for(script: &Script, p: u8) -> u8
    requires { 1 ≤ script.now.n }
    ensures below { result < script.now.n }
    ensures own { p < script.now.n → result ≡ p }
{
    if u16::from(p) < script.n { p } else { 0 }
}

/// Runs a script: makes its processes and the spares of its restarts, performs its commands, and then explores, if the
/// script says so. The logs and the store hash with this seed; only costs depend on it.
///
/// # Errors
/// The errors of `perform`.
pub fn run_script<R: Wait>(
    rt: &R,
    alloc: Global,
    script: &Script,
    seed: u64,
) -> Result<Trace, RunFault>
    requires some { 1 ≤ script.now.n }
    requires few { script.now.n ≤ 256 }
    ensures run { IfOk result
        (λ trace. IsRunFrom (IsStartOf script.now) script.now.commands
        script.now.exploration trace.recording) }
    ensures safe { IfOk result (λ trace. IsSafeTrace trace.recording script.now.f) }
    ensures refused { IfErr result (ExplainsRunFault (IsStartOf script.now) script.now.commands) }
{
    let mut boxes: Vec<Box<dyn Process + Send>> = Vec::new(alloc);
    for me in 0..script.n {
        boxes.push(Box::new(alloc, ScriptProcess::new(script, me as u8))?)?;
    }
    let commands = script.commands.as_slice();
    let mut spares: Vec<Box<dyn Process + Send>> = Vec::new(alloc);
    for command in commands {
        if let Request::Restart { p } = command.request {
            let me = spare_for(script, p.0);
            spares.push(Box::new(alloc, ScriptProcess::new(script, me))?)?;
        }
    }
    let mut later: Vec<Box<dyn Process + Send>> = Vec::new(alloc);
    for place in 0..exploration_spares(script) {
        let me = (place % u32::from(script.n)) as u8;
        later.push(Box::new(alloc, ScriptProcess::new(script, me))?)?;
    }
    perform_and_explore(rt, alloc, script, boxes, spares, later, seed)
}

/// Performs the commands of a script with these boxes and spares, and then explores with the later ones, if the script
/// says so.
fn perform_and_explore<R: Wait>(
    rt: &R,
    alloc: Global,
    script: &Script,
    boxes: Vec<Box<dyn Process + Send>>,
    spares: Vec<Box<dyn Process + Send>>,
    later: Vec<Box<dyn Process + Send>>,
    seed: u64,
) -> Result<Trace, RunFault>
    requires some { 1 ≤ script.now.n }
    requires few { script.now.n ≤ 256 }
    requires boxes { length boxes.items ≡ script.now.n }
    requires spares { length spares.items ≡ spares_in script.now.commands }
    ensures run { IfOk result
        (λ trace. IsRunFrom (IsStarted answers script.now.f boxes.items) script.now.commands
        script.now.exploration trace.recording) }
    ensures safe { IfOk result (λ trace. IsSafeTrace trace.recording script.now.f) }
    ensures refused { IfErr result
        (ExplainsRunFault (IsStarted answers script.now.f boxes.items) script.now.commands) }
{
    let mut lists = by_process(alloc, script.n, later)?;
    let commands = script.commands.as_slice();
    let mut core = core_after(rt, alloc, script, commands, boxes, spares, seed)?;
    match explore_as(alloc, &mut core, script.exploration, lists.as_mut_slice()) {
        Ok(()) => Ok(core.into_trace()),
        Err(fault) => {
            discard(core);
            Err(RunFault::from(fault))
        }
    }
}

/// What is pending for q in a run that goes no further; None if q is down or no process.
fn pending_at_end(core: Core<MemStable>, q: Pid) -> Result<Option<Vec<MsgName>>, RunFault>
    ensures { IfOk result (λ found. IfSome found
        (λ names. names.items ≡ pending_in (memories_of (core_run core)) q)) }
{
    let pending = core.pending(q);
    discard(core);
    match pending {
        Ok(names) => Ok(Some(names)),
        Err(CoreFault::NoMemory) => Err(RunFault::Memory),
        Err(_) => Ok(None),
    }
}

/// Performs the commands of a script before this line again, and returns the messages that are pending then for the
/// receiver of the line's delivery, by sender and number. Without a delivery on that line there is no list, nor if the
/// receiver is down or no process.
///
/// # Errors
/// The errors of `perform`.
pub fn pending_before<R: Wait>(
    rt: &R,
    alloc: Global,
    script: &Script,
    line: u32,
    seed: u64,
) -> Result<Option<Vec<MsgName>>, RunFault>
    requires some { 1 ≤ script.now.n }
    requires few { script.now.n ≤ 256 }
    ensures pending { IfOk result (λ found. IfSome found (λ names.
        IsPendingBefore (IsStartOf script.now) script.now.commands line names.items)) }
{
    let Some((place, q)) = receiver_at(script.commands.as_slice(), line) else {
        return Ok(None);
    };
    // as in `run_script`: no function may make boxes of a trait and return them
    let mut boxes: Vec<Box<dyn Process + Send>> = Vec::new(alloc);
    for me in 0..script.n {
        boxes.push(Box::new(alloc, ScriptProcess::new(script, me as u8))?)?;
    }
    let commands = &script.commands.as_slice()[..place];
    let mut spares: Vec<Box<dyn Process + Send>> = Vec::new(alloc);
    for command in commands {
        if let Request::Restart { p } = command.request {
            let me = spare_for(script, p.0);
            spares.push(Box::new(alloc, ScriptProcess::new(script, me))?)?;
        }
    }
    let core = core_after(rt, alloc, script, commands, boxes, spares, seed)?;
    pending_at_end(core, q)
}

/// Returns the index of the command on this line, and its receiver, if it is a delivery.
fn receiver_at(commands: &[Command], line: u32) -> Option<(usize, Pid)>
    ensures { IfSome result (λ found. IsDeliverCommandAt commands.now found.0 line found.1) }
{
    let place = commands.iter().position(|command| command.line == line)?;
    match commands[place].request {
        Request::Deliver { q, .. } => Some((place, q)),
        _ => None,
    }
}
