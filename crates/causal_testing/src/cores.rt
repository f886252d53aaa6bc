//! Recovery from crash to end of replay, failures of allocation and of stores, and the limit on entries, on cores of
//! the runtime's process kinds.
use crate::failing::FailingStore;
use crate::names::{Fields, det};
use crate::runtime::*;
use causal_core::{Core, CoreFault, Delivered, FlushFault, Reply, Restarted, StartFault};
use causal_log::MemStable;
use causal_name::{NoMemory, Pid};
use std::alloc::Global;

/// The state of a core after a failed allocation or write.
mod faults;
/// Recovery from crash to end of replay.
mod recovery;

/// All cores here have a store that may fail, so that one function owns all of them.
type Runtime = Core<FailingStore>;

/// A store that never fails, with this count of failures so far.
fn steady(alloc: Global, failures: u64) -> FailingStore {
    FailingStore {
        store: MemStable::new(alloc),
        before_fault: None,
        failures,
    }
}

/// A ring of three with another process 1.
fn ring_with(alloc: Global, second: Result<Boxed, NoMemory>) -> Result<Vec<Boxed>, NoMemory> {
    let mut boxes = processes(alloc, TestProcess::Ring(2), 3)?;
    if let Some(other) = boxes.get_mut(1) {
        *other = second?;
    }
    Ok(boxes)
}

/// A test case on a core.
#[derive(Clone, Copy)]
enum Scene {
    ReplayOfFive,
    ReplayThatStops,
    SpareThatComesBack,
    DeliveryMadeAgain,
    FlushMadeAgain,
    FlushOfAWearyStore,
    Flood,
}

impl Scene {
    /// The failure bound.
    fn faults(self) -> u16 {
        match self {
            Scene::ReplayThatStops => 2,
            Scene::Flood => 0,
            _ => 1,
        }
    }

    fn processes(self, alloc: Global) -> Result<Vec<Boxed>, NoMemory> {
        match self {
            Scene::ReplayOfFive => processes(alloc, TestProcess::Ring(9), 1),
            Scene::ReplayThatStops | Scene::SpareThatComesBack => {
                processes(alloc, TestProcess::Ring(2), 3)
            }
            Scene::DeliveryMadeAgain => faults::refusing_ring(alloc, 1),
            Scene::FlushMadeAgain | Scene::FlushOfAWearyStore => {
                processes(alloc, TestProcess::Tally, 3)
            }
            Scene::Flood => processes(alloc, TestProcess::Flood, 1),
        }
    }

    fn store(self, alloc: Global) -> FailingStore {
        match self {
            Scene::FlushMadeAgain => FailingStore::new(alloc, 1),
            Scene::FlushOfAWearyStore => steady(alloc, u64::MAX),
            _ => steady(alloc, 0),
        }
    }

    fn is_right_on(self, alloc: Global, core: &mut Runtime) -> bool {
        match self {
            Scene::ReplayOfFive => recovery::makes_five(alloc, core),
            Scene::ReplayThatStops => recovery::stops(alloc, core),
            Scene::SpareThatComesBack => faults::spare_comes_back(alloc, core),
            Scene::DeliveryMadeAgain => faults::delivers_again(alloc, core),
            Scene::FlushMadeAgain => faults::flushes_again(alloc, core),
            Scene::FlushOfAWearyStore => faults::is_not_written_to(alloc, core),
            Scene::Flood => fills(core),
        }
    }

    fn start_core(self, alloc: Global) -> Result<Runtime, StartFault> {
        match self.processes(alloc) {
            Ok(boxes) => Core::start(alloc, self.faults(), boxes, self.store(alloc)),
            Err(NoMemory) => Err(StartFault::NoMemory),
        }
    }

    /// Returns whether all results, states and entries are as expected.
    fn is_right(self, alloc: Global) -> bool {
        match self.start_core(alloc) {
            Ok(mut core) => self.is_right_on(alloc, &mut core),
            Err(_) => false,
        }
    }
}

const SCENES: [Scene; 7] = [
    Scene::ReplayOfFive,
    Scene::ReplayThatStops,
    Scene::SpareThatComesBack,
    Scene::DeliveryMadeAgain,
    Scene::FlushMadeAgain,
    Scene::FlushOfAWearyStore,
    Scene::Flood,
];

#[test]
fn core_scenes(rt: HostRuntime) {
    for (number, scene) in SCENES.iter().enumerate() {
        assert!(rt; scene.is_right(rt.alloc()), "scene {number}");
    }
}

/// A call of a core, with its arguments in order. A restart is by a process of that kind.
#[derive(Clone, Copy)]
enum Call {
    Deliver(u8, u8, u32),
    Crash(u8),
    Restart(u8, TestProcess),
    Flush(u8),
}

fn restart(core: &mut Runtime, p: u8, spare: Boxed) -> Reply {
    match core.restart(Pid(p), spare) {
        Ok(restarted) => Reply::Restarted(restarted),
        Err(refused) => Reply::Refused(refused.fault),
    }
}

/// Restarts p with a new process of a kind.
fn restarted_by(alloc: Global, core: &mut Runtime, p: u8, process: TestProcess) -> Option<Reply> {
    match test_process(alloc, process, core.trace().processes(), p) {
        Ok(spare) => Some(restart(core, p, spare)),
        Err(NoMemory) => None,
    }
}

/// Performs one call and returns its result.
fn call_core(alloc: Global, core: &mut Runtime, call: Call) -> Option<Reply> {
    match call {
        Call::Deliver(q, source, ssn) => {
            let answer = core.deliver(Pid(q), Pid(source), ssn);
            Some(Reply::of_delivery(answer))
        }
        Call::Crash(p) => Some(Reply::of_crash(core.crash(Pid(p)))),
        Call::Restart(p, process) => restarted_by(alloc, core, p, process),
        Call::Flush(p) => Some(Reply::of_flush(core.flush(Pid(p)))),
    }
}

/// The expected result of a call, with its values in order; `Stopped` is a flush that wrote that many determinants.
#[derive(Clone, Copy)]
enum ExpectedReply {
    Delivered(u32, Fields, u32),
    Crashed(u32),
    Restarted(u32, u32, u32),
    Flushed(u32),
    Refused(CoreFault),
    Stopped(CoreFault, u32),
}

impl ExpectedReply {
    fn reply(self) -> Reply {
        match self {
            ExpectedReply::Delivered(first, fields, sends) => Reply::Delivered(Delivered {
                first,
                det: det(fields),
                sends,
            }),
            ExpectedReply::Crashed(first) => Reply::Crashed { first },
            ExpectedReply::Restarted(first, listed, sends) => Reply::Restarted(Restarted {
                first,
                listed,
                sends,
            }),
            ExpectedReply::Flushed(count) => Reply::Flushed { count },
            ExpectedReply::Refused(fault) => Reply::Refused(fault),
            ExpectedReply::Stopped(fault, done) => Reply::FlushRefused(FlushFault { fault, done }),
        }
    }
}

/// Returns whether the calls, performed in order, return these results.
fn are_answered(alloc: Global, core: &mut Runtime, calls: &[(Call, ExpectedReply)]) -> bool {
    for (call, answer) in calls {
        if call_core(alloc, core, *call) != Some(answer.reply()) {
            return false;
        }
    }
    true
}

/// Returns whether a restart of p is refused with that error, and a restart of `then` with the returned spare has this
/// result.
fn gives_back(
    core: &mut Runtime,
    (p, fault): (u8, CoreFault),
    (then, answer): (u8, ExpectedReply),
    spare: Result<Boxed, NoMemory>,
) -> bool {
    let Ok(spare) = spare else {
        return false;
    };
    match core.restart(Pid(p), spare) {
        Ok(_) => false,
        Err(refused) => {
            refused.fault == fault && restart(core, then, refused.spare) == answer.reply()
        }
    }
}

/// Returns whether a trace fills up, with a process that answers each message by eight. Its start records eight
/// entries, each delivery nine; after 7,280 deliveries the ninth entry does not fit. That a run ends there, and after
/// the maximum number of restarts, are rows for the built program (`examples/commands/`).
fn fills(core: &mut Runtime) -> bool {
    are_delivered(core, 7_280)
        && core.deliver(Pid(0), Pid(0), 7_280).err() == Some(CoreFault::Full)
        && core.trace().len() == 65_528
}

/// Returns whether `count` deliveries to process 0 of its own messages succeed, in order.
fn are_delivered(core: &mut Runtime, count: u32) -> bool {
    for ssn in 0..count {
        if core.deliver(Pid(0), Pid(0), ssn).is_err() {
            return false;
        }
    }
    true
}
