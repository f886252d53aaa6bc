//! What may be requested next.
#![tactic(auto, using(crate::proofs::MoveLemmas::moves_at_next))]

ghost use Rattle.std.specs.Prelude.{◌≡◌, ◌<◌, ◌++◌, OnOk, IfOk, map, filter, Err};
ghost use Rattle.causal_protocol.specs.Run.{memories_of};
ghost use Rattle.causal_core.specs.CoreView.{core_run};
ghost use Rattle.causal_core.specs.View.{named_message_of};
ghost use Rattle.causal_driver.specs.Options.{may_follow, delivery, moves_at, moves_of, moves, disturbance_at, disturbance};

use causal_core::Core;
use causal_log::Stable;
use causal_name::{MsgName, NoMemory, Pid};
use causal_protocol::request::Request;
use std::alloc::Global;

/// Returns whether a message may be the next delivery of a process for which `named` is named.
fn may_follow(named: Option<MsgName>, name: MsgName) -> bool
    ensures { result ≡ may_follow named name }
{
    match named {
        Some(named) => named == name,
        None => true,
    }
}

/// Returns q's delivery of each of these messages that may be its next.
fn deliveries(
    alloc: Global,
    q: Pid,
    named: Option<MsgName>,
    pending: &[MsgName],
) -> Result<Vec<Request>, NoMemory>
    ensures { IfOk result (λ found. found.items
        ≡ map (delivery q) (filter (may_follow named) pending.now)) }
{
    let next = pending.iter().filter(|name| may_follow(named, **name));
    let requests = next.map(|name| Request::Deliver {
        q,
        source: name.source,
        ssn: name.ssn,
    });
    Ok(requests.collect(alloc)?)
}

/// Appends what leads on at p.
fn push_moves<S: Stable>(
    alloc: Global,
    core: &Core<S>,
    moves: &mut Vec<Request>,
    p: u8,
) -> Result<(), NoMemory>
    requires { p < (core_run core.now).recording.processes }
    ensures { OnOk result (moves.new.items ≡ moves.old.items ++ moves_of (core_run core.now) p) }
{
    let p = Pid(p);
    let Ok(named) = core.named(p) else {
        moves.push(Request::Restart { p })?;
        return Ok(());
    };
    let Ok(pending) = core.pending(p) else {
        return Err(NoMemory);
    };
    let found = deliveries(alloc, p, named, pending.as_slice())?;
    Ok(moves.extend_from_slice(found.as_slice())?)
}

/// Returns what leads on, by process. Takes the time of a `pending` for each process.
pub(crate) fn moves<S: Stable>(alloc: Global, core: &Core<S>) -> Result<Vec<Request>, NoMemory>
    ensures { IfOk result (λ found. found.items ≡ moves (core_run core.now)) }
{
    let mut found = Vec::new(alloc);
    for p in 0..core.trace().processes() {
        push_moves(alloc, core, &mut found, p as u8)?;
    }
    Ok(found)
}

/// Returns what disturbs the run, as a number chooses it.
pub(crate) fn disturbance<S: Stable>(core: &Core<S>, few: u32, choice: u32) -> Request
    ensures { result ≡ disturbance (core_run core.now) few choice }
{
    let trace = core.trace();
    let p = Pid(((choice / 4) % u32::from(trace.processes())) as u8);
    match choice % 4 {
        0 if trace.restarts() < few => Request::Crash { p },
        1 => Request::Forget { p },
        _ => Request::Flush { p },
    }
}
