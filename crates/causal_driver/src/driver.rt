//! The driver.
#![tactic(auto, using(crate::proofs::CallLemmas::one_more, crate::proofs::CallLemmas::none_made, crate::proofs::CallLemmas::picked))]

ghost use Rattle.std.specs.Prelude.{◌≡◌, ◌<◌, ◌≤◌, ◌^◌, IfOk, OnErr, Some, length};
ghost use Rattle.causal_name.specs.declared.Pid.{Pid};
ghost use Rattle.causal_protocol.specs.declared.request.Request.TheVariants as Requests;
ghost use Rattle.causal_protocol.specs.Steps.{Steps};
ghost use Rattle.causal_core.specs.CoreView.{core_run};
ghost use Rattle.causal_driver.specs.Schedules.{chosen_among, first_word, AreCalls, HasScheduleEnded};
ghost use Rattle.causal_driver.specs.Inside.Turns.{IsTurn};

use crate::options::{disturbance, moves};
use crate::schedule::{Call, Driven, End, Schedule, next_word};
use causal_core::Core;
use causal_log::Stable;
use causal_name::{NoMemory, Pid};
use causal_process::Process;
use causal_protocol::request::{Reply, Request};
use std::alloc::Global;

/// What a turn does.
#[derive(Clone, Copy)]
enum TurnOutcome {
    /// It makes a call.
    Made,
    /// It finds nothing that leads on.
    Quiet,
    /// It finds no spare for a restart.
    NoSpare,
}

/// No spare is left for a restart.
#[derive(Drop)]
struct NoSpare;

/// Takes a spare for p out of the lists of spares, which are by process.
fn take_spare(
    spares: &mut [Vec<Box<dyn Process + Send>>],
    p: Pid,
) -> Option<Box<dyn Process + Send>> {
    spares.get_mut(usize::from(p.0))?.pop()
}

/// Returns a spare for p to its list, from which it was taken last, so that the list has space for it.
fn return_spare(
    spares: &mut [Vec<Box<dyn Process + Send>>],
    p: Pid,
    spare: Box<dyn Process + Send>,
) {
    if let Some(list) = spares.get_mut(usize::from(p.0)) {
        let _ = list.push(spare);
    }
}

/// Restarts p as a spare, which goes back to its list if that is refused.
fn restart<S: Stable>(
    core: &mut Core<S>,
    spares: &mut [Vec<Box<dyn Process + Send>>],
    p: Pid,
) -> Result<Reply, NoSpare>
    requires { p.0 < 256 }
    ensures ok { IfOk result
        (λ reply. Steps (core_run core.old) (Requests.Restart p) reply (core_run core.new)) }
    ensures err { OnErr result (core_run core.new ≡ core_run core.old) }
{
    let Some(spare) = take_spare(spares, p) else {
        return Err(NoSpare);
    };
    let answer = match core.restart(p, spare) {
        Ok(restarted) => Ok(restarted),
        Err(refused) => {
            return_spare(spares, p, refused.spare);
            Err(refused.fault)
        }
    };
    Ok(Reply::of_restart(answer))
}

/// Makes a request.
fn issue<S: Stable>(
    core: &mut Core<S>,
    spares: &mut [Vec<Box<dyn Process + Send>>],
    request: Request,
) -> Result<Reply, NoSpare>
    ensures ok { IfOk result
        (λ reply. Steps (core_run core.old) request reply (core_run core.new)) }
    ensures err { OnErr result (core_run core.new ≡ core_run core.old) }
    ensures restart { OnErr result ((p : Pid) × (request ≡ Requests.Restart p)) }
{
    match request {
        Request::Deliver { q, source, ssn } => Ok(Reply::of_delivery(core.deliver(q, source, ssn))),
        Request::Crash { p } => Ok(Reply::of_crash(core.crash(p))),
        Request::Restart { p } => restart(core, spares, p),
        Request::Flush { p } => Ok(Reply::of_flush(core.flush(p))),
        Request::Forget { p } => Ok(Reply::of_forget(core.forget(p))),
    }
}

/// Returns one of these moves, or what disturbs the run, as a number chooses it.
fn choose<S: Stable>(core: &Core<S>, few: u32, choice: u32, found: &[Request]) -> Request
    requires { 0 < length found.now }
    ensures { chosen_among (core_run core.now) few choice found.now ≡ Some result }
{
    if choice % 8 == 0 {
        return disturbance(core, few, choice / 8);
    }
    found[(choice / 8) as usize % found.len()]
}

/// Makes the call that a word chooses, and appends it.
fn turn<S: Stable>(
    alloc: Global,
    core: &mut Core<S>,
    schedule: Schedule,
    word: u64,
    spares: &mut [Vec<Box<dyn Process + Send>>],
    calls: &mut Vec<Call>,
) -> Result<TurnOutcome, NoMemory>
    ensures turn { IfOk result (λ made. IsTurn schedule word made
        calls.old.items calls.new.items (core_run core.old) (core_run core.new)) }
    ensures calls { OnErr result (calls.new.items ≡ calls.old.items) }
    ensures run { OnErr result (core_run core.new ≡ core_run core.old) }
{
    calls.reserve(1)?;
    let found = moves(alloc, core)?;
    if found.is_empty() {
        return Ok(TurnOutcome::Quiet);
    }
    let choice = (word >> 32) as u32;
    let request = choose(core, schedule.restarts, choice, found.as_slice());
    let Ok(reply) = issue(core, spares, request) else {
        return Ok(TurnOutcome::NoSpare);
    };
    calls.push_reserved(Call { request, reply });
    Ok(TurnOutcome::Made)
}

/// Makes the calls of a schedule, until nothing leads on or the schedule's maximum is reached: deliveries that the
/// processes may make and restarts of those that are down, in an order that the seed gives, and now and then a crash, a
/// flush or a forgetting. A refused call changes nothing, and the next one follows; a crash is refused if too many
/// processes would be down. Equal seeds make equal calls on equal runs.
///
/// A restart takes the last of the spares of its process; `spares` has their lists by process. A refused one puts it
/// back. Each call takes the time of one `pending` for each process, besides its own.
pub fn drive<S: Stable>(
    alloc: Global,
    core: &mut Core<S>,
    schedule: Schedule,
    spares: &mut [Vec<Box<dyn Process + Send>>],
) -> Driven
    requires { schedule.steps < 2 ^ 32 }
    ensures calls { AreCalls schedule (first_word schedule)
        result.calls.items (core_run core.old) (core_run core.new) }
    ensures few { length result.calls.items ≤ schedule.steps }
    ensures end { HasScheduleEnded schedule result.end (length result.calls.items) (core_run core.new) }
{
    let mut calls = Vec::new(alloc);
    let first = next_word(schedule.seed);
    let mut word = first;
    for made in 0..schedule.steps {
        match turn(alloc, core, schedule, word, spares, &mut calls) {
            Ok(TurnOutcome::Made) => word = next_word(word),
            Ok(TurnOutcome::Quiet) => {
                return Driven {
                    calls,
                    end: End::Quiet,
                };
            }
            Ok(TurnOutcome::NoSpare) => {
                return Driven {
                    calls,
                    end: End::NoSpare,
                };
            }
            Err(_) => {
                return Driven {
                    calls,
                    end: End::NoMemory,
                };
            }
        }
    }
    Driven {
        calls,
        end: End::Steps,
    }
}
