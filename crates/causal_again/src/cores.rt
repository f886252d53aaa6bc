//! The calls of a core.
use crate::readings::is_judged;
use crate::reporting::{TRIES, print_refusal, print_result};
use causal_core::{Core, CoreFault, FlushFault};
use causal_log::{MemStable, Stable};
use causal_name::Pid;
use causal_process::Process;
use causal_runtime_audit::audit_core;
use std::alloc::Global;
use std::sync::Wait;
use std::thread::Threads;

pub type Boxed = Box<dyn Process + Send>;

/// A call of a core, with its arguments in order.
#[derive(Clone, Copy)]
enum Call {
    Deliver(u8, u8, u32),
    Crash(u8),
    Gathered(u8),
    Replay(u8),
    Pending(u8),
    Flush(u8),
    Forget(u8),
}

/// A call, and its name in the output.
type Named = (&'static str, Call);

/// Two rounds of the ring; then process 1 crashes.
const BEFORE: [Named; 10] = [
    ("core.deliver", Call::Deliver(1, 0, 0)),
    ("core.deliver", Call::Deliver(2, 1, 0)),
    ("core.deliver", Call::Deliver(0, 2, 0)),
    ("core.deliver", Call::Deliver(1, 0, 1)),
    ("core.deliver", Call::Deliver(2, 1, 1)),
    ("core.deliver", Call::Deliver(0, 2, 1)),
    ("core.flush", Call::Flush(2)),
    ("core.forget", Call::Forget(2)),
    ("core.crash", Call::Crash(1)),
    ("core.gathered", Call::Gathered(1)),
];

/// The replay of process 1, its pending messages, and two further deliveries.
const AFTER: [Named; 4] = [
    ("core.replay", Call::Replay(1)),
    ("core.pending", Call::Pending(1)),
    ("core.deliver", Call::Deliver(1, 0, 2)),
    ("core.deliver", Call::Deliver(2, 1, 2)),
];

/// An upper bound on the deliveries of a replay here.
const MOST: u32 = 16;

/// The number of recorded entries and of listed determinants.
fn extent<S: Stable>(core: &Core<S>) -> (u32, u32) {
    (core.trace().len(), core.trace().listed())
}

/// Returns whether a message is named for the next delivery of a process that is up.
fn is_named<S: Stable>(core: &Core<S>, p: u8) -> bool {
    matches!(core.named(Pid(p)), Ok(Some(_)))
}

fn none_done(fault: CoreFault) -> FlushFault {
    FlushFault { fault, done: 0 }
}

/// Replays. If a message is still named afterwards, the next delivery was refused.
fn replay<S: Stable>(core: &mut Core<S>, p: u8) -> Result<(), FlushFault> {
    let before = core.trace().len();
    match core.replay(Pid(p), MOST) {
        Ok(_) if is_named(core, p) => Err(FlushFault {
            fault: CoreFault::NoMemory,
            done: core.trace().len().saturating_sub(before),
        }),
        Ok(_) => Ok(()),
        Err(fault) => Err(none_done(fault)),
    }
}

/// Performs a call that changes the core. An error contains the number of entries that the call recorded.
fn call_core<S: Stable>(core: &mut Core<S>, call: Call) -> Result<(), FlushFault> {
    match call {
        Call::Deliver(q, source, ssn) => match core.deliver(Pid(q), Pid(source), ssn) {
            Ok(_) => Ok(()),
            Err(fault) => Err(none_done(fault)),
        },
        Call::Crash(p) => match core.crash(Pid(p)) {
            Ok(_) => Ok(()),
            Err(fault) => Err(none_done(fault)),
        },
        Call::Flush(p) => match core.flush(Pid(p)) {
            Ok(_) => Ok(()),
            Err(refused) => Err(refused),
        },
        Call::Forget(p) => match core.forget(Pid(p)) {
            Ok(_) => Ok(()),
            Err(fault) => Err(none_done(fault)),
        },
        Call::Replay(p) => replay(core, p),
        Call::Gathered(_) | Call::Pending(_) => Ok(()),
    }
}

/// Returns whether a refused call left the core unchanged, except for the entries that it recorded.
fn is_left(before: (u32, u32), done: u32, after: (u32, u32)) -> bool {
    if done == 0 {
        before == after
    } else {
        before.0.saturating_add(done) == after.0
    }
}

/// Performs a call that changes the core, once. Returns whether it succeeded.
fn try_change<P: Print + Eprint, S: Stable>(
    rt: &P,
    core: &mut Core<S>,
    (name, call): Named,
) -> bool {
    let before = extent(core);
    match call_core(core, call) {
        Ok(()) => print_result(rt, name, &extent(core)),
        Err(stopped) => {
            let is_left = is_left(before, stopped.done, extent(core));
            print_refusal(rt, name, &stopped.fault, is_left)
        }
    }
}

/// Performs a call once. Returns whether it succeeded.
fn try_call<P: Print + Eprint, S: Stable>(rt: &P, core: &mut Core<S>, (name, call): Named) -> bool {
    match call {
        Call::Gathered(p) => match core.gathered(Pid(p)) {
            Ok(dets) => print_result(rt, name, &dets.len()),
            Err(fault) => print_refusal(rt, name, &fault, true),
        },
        Call::Pending(q) => match core.pending(Pid(q)) {
            Ok(names) => print_result(rt, name, &names.len()),
            Err(fault) => print_refusal(rt, name, &fault, true),
        },
        _ => try_change(rt, core, (name, call)),
    }
}

/// Performs the calls in order, each until it succeeds.
fn all_made<P: Print + Eprint, S: Stable>(rt: &P, core: &mut Core<S>, calls: &[Named]) -> bool {
    let mut done = 0;
    for _ in 0..TRIES {
        if done < calls.len() && try_call(rt, core, calls[done]) {
            done += 1;
        }
    }
    done == calls.len()
}

/// Restarts process 1, once. Returns the spare if the restart is refused.
fn try_restart<P: Print + Eprint, S: Stable>(
    rt: &P,
    core: &mut Core<S>,
    spare: Boxed,
) -> Option<Boxed> {
    let before = extent(core);
    match core.restart(Pid(1), spare) {
        Ok(_) => {
            print_result(rt, "core.restart", &extent(core));
            None
        }
        Err(back) => {
            print_refusal(rt, "core.restart", &back.fault, extent(core) == before);
            Some(back.spare)
        }
    }
}

/// Restarts process 1 with the spare, until it succeeds.
fn restarted_again<P: Print + Eprint, S: Stable>(rt: &P, core: &mut Core<S>, spare: Boxed) -> bool {
    let mut spare = Some(spare);
    for _ in 0..TRIES {
        spare = match spare {
            Some(boxed) => try_restart(rt, core, boxed),
            None => None,
        };
    }
    spare.is_none()
}

/// Performs each call of a core until it succeeds.
fn all_calls<P: Print + Eprint, S: Stable>(rt: &P, core: &mut Core<S>, spare: Boxed) -> bool {
    all_made(rt, core, &BEFORE) && restarted_again(rt, core, spare) && all_made(rt, core, &AFTER)
}

/// Starts a core of these processes with failure bound 1. If the start is refused, they are dropped.
pub fn start_core<P: Print + Eprint>(
    rt: &P,
    alloc: Global,
    boxes: Vec<Boxed>,
) -> Option<Core<MemStable>> {
    match Core::start(alloc, 1, boxes, MemStable::new(alloc)) {
        Ok(core) => Some(core),
        Err(fault) => {
            print_refusal(rt, "core.start", &fault, true);
            None
        }
    }
}

/// Audits the core's trace, until it succeeds.
fn is_audited<P: Print + Eprint, S: Stable>(rt: &P, alloc: Global, core: &Core<S>) -> bool {
    for _ in 0..TRIES {
        match audit_core(alloc, core) {
            Ok(verdict) => return print_result(rt, "audited", &verdict),
            Err(fault) => print_refusal(rt, "audited", &fault, true),
        };
    }
    false
}

/// Starts a core of these processes, performs all its calls and audits its trace. Returns whether all succeeded.
pub fn run_cores<R: Print + Eprint + Threads + Wait>(
    rt: &R,
    alloc: Global,
    boxes: Vec<Boxed>,
    spare: Boxed,
) -> bool {
    match start_core(rt, alloc, boxes) {
        Some(mut core) => {
            all_calls(rt, &mut core, spare)
                && is_judged(rt, alloc, core.trace())
                && is_audited(rt, alloc, &core)
        }
        None => false,
    }
}
