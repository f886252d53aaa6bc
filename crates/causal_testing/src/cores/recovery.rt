//! Recovery from crash to end of replay.
use super::Call::Deliver;
use super::*;
use crate::names::{are, name};
use causal_name::MsgName;
use causal_process::{Counted, Ring};
use std::sync::Arc;
use std::sync::atomic::{AtomicU64, Ordering};

/// Process 1 of a ring of three, which counts its drops.
fn counted_process(alloc: Global, drops: &Arc<AtomicU64>) -> Result<Boxed, NoMemory> {
    let process = Counted::new(Ring::new(3, 1, 2), Arc::try_clone(drops)?);
    let boxed: Boxed = Box::new(alloc, process)?;
    Ok(boxed)
}

/// A message goes once around a ring.
const ROUND: [(Call, ExpectedReply); 3] = [
    (
        Deliver(1, 0, 0),
        ExpectedReply::Delivered(1, (0, 0, 1, 0), 1),
    ),
    (
        Deliver(2, 1, 0),
        ExpectedReply::Delivered(3, (1, 0, 2, 0), 1),
    ),
    (
        Deliver(0, 2, 0),
        ExpectedReply::Delivered(5, (2, 0, 0, 0), 0),
    ),
];

/// Delivers another message than the named one, after process 1 has restarted.
const ANOTHER: [(Call, ExpectedReply); 1] = [(
    Deliver(1, 2, 0),
    ExpectedReply::Refused(CoreFault::MustReplay(MsgName {
        source: Pid(0),
        ssn: 0,
    })),
)];

fn gathers(core: &Runtime, p: u8, fields: &[Fields]) -> bool {
    match core.gathered(Pid(p)) {
        Ok(dets) => are(dets.as_slice(), fields),
        Err(_) => false,
    }
}

fn are_pending(core: &Runtime, q: u8, names: &[MsgName]) -> bool {
    match core.pending(Pid(q)) {
        Ok(pending) => pending.as_slice() == names,
        Err(_) => false,
    }
}

/// The determinants in the logs of 1 and 2 when 1 crashed after the round.
const GATHERED: [Fields; 3] = [(0, 0, 1, 0), (1, 0, 2, 0), (2, 0, 0, 0)];

/// Checks the core's queries while process 1 is down.
fn is_shown_down(core: &Runtime) -> bool {
    gathers(core, 1, &GATHERED) && core.pending(Pid(1)).err() == Some(CoreFault::Down)
}

/// Returns whether the spare is returned for 2, which is up, and then restarts 1.
fn is_restarted(alloc: Global, core: &mut Runtime) -> bool {
    let spare = test_process(alloc, TestProcess::Ring(2), 3, 1);
    let answer = ExpectedReply::Restarted(7, 3, 0);
    gives_back(core, (2, CoreFault::NotDown), (1, answer), spare)
}

fn is_replayed(core: &mut Runtime) -> bool {
    core.replay(Pid(1), 10) == Ok(1) && core.replay(Pid(1), 10) == Ok(0)
}

/// Returns whether all results are as expected, from the crash to the end of the replay. Then nothing is pending at 2:
/// it has received the message that 1 sent again.
fn comes_back(alloc: Global, core: &mut Runtime) -> bool {
    is_shown_down(core)
        && is_restarted(alloc, core)
        && are_pending(core, 1, &[name(0, 0)])
        && core.named(Pid(1)) == Ok(Some(name(0, 0)))
        && are_answered(alloc, core, &ANOTHER)
        && is_replayed(core)
        && are_pending(core, 2, &[])
        && core.trace().len() == 10
}

/// Returns whether recovery succeeds, and the crashed process is dropped exactly once, at its crash.
fn is_dropped_once(alloc: Global, core: &mut Runtime, drops: &Arc<AtomicU64>) -> bool {
    drops.load(Ordering::SeqCst) == 0
        && are_answered(alloc, core, &ROUND)
        && core.crash(Pid(1)) == Ok(6)
        && drops.load(Ordering::SeqCst) == 1
        && comes_back(alloc, core)
        && drops.load(Ordering::SeqCst) == 1
}

fn counting_core(alloc: Global, drops: &Arc<AtomicU64>) -> Result<Runtime, StartFault> {
    match ring_with(alloc, counted_process(alloc, drops)) {
        Ok(boxes) => Core::start(alloc, 1, boxes, steady(alloc, 0)),
        Err(NoMemory) => Err(StartFault::NoMemory),
    }
}

fn are_counted(alloc: Global, drops: &Arc<AtomicU64>) -> bool {
    match counting_core(alloc, drops) {
        Ok(mut core) => is_dropped_once(alloc, &mut core, drops),
        Err(_) => false,
    }
}

fn counts_drops(alloc: Global) -> bool {
    match Arc::new(alloc, AtomicU64::new(0)) {
        Ok(drops) => are_counted(alloc, &drops),
        Err(_) => false,
    }
}

#[test]
fn process_recovers(rt: HostRuntime) {
    assert!(rt; counts_drops(rt.alloc()));
}

/// Two crashes after the round, and one restart, which gathers what process 2 holds.
const TWO_CRASHES: [(Call, ExpectedReply); 3] = [
    (Call::Crash(0), ExpectedReply::Crashed(6)),
    (Call::Crash(1), ExpectedReply::Crashed(7)),
    (
        Call::Restart(1, TestProcess::Ring(2)),
        ExpectedReply::Restarted(8, 2, 0),
    ),
];

/// Returns whether a replay stops at a refusal: the sender of the named message is down.
pub(super) fn stops(alloc: Global, core: &mut Runtime) -> bool {
    are_answered(alloc, core, &ROUND)
        && are_answered(alloc, core, &TWO_CRASHES)
        && core.replay(Pid(1), 10) == Err(CoreFault::NotAvailable)
        && core.trace().len() == 9
}

/// A flush of five deliveries, a crash and a restart.
const STABLE: [(Call, ExpectedReply); 3] = [
    (Call::Flush(0), ExpectedReply::Flushed(5)),
    (Call::Crash(0), ExpectedReply::Crashed(16)),
    (
        Call::Restart(0, TestProcess::Ring(9)),
        ExpectedReply::Restarted(17, 5, 1),
    ),
];

/// Returns whether the replay of five deliveries makes five.
pub(super) fn makes_five(alloc: Global, core: &mut Runtime) -> bool {
    are_delivered(core, 5) && are_answered(alloc, core, &STABLE) && core.replay(Pid(0), 10) == Ok(5)
}
