//! The state of a core after a failed allocation or write.
use super::*;
use causal_trace::entry::Entry;
use causal_trace::trace::Trace;

/// A ring of three; process 1 returns `NoMemory` once, after this number of steps.
pub(super) fn refusing_ring(alloc: Global, steps: u64) -> Result<Vec<Boxed>, NoMemory> {
    ring_with(
        alloc,
        test_process(alloc, TestProcess::Refusing(2, steps), 3, 1),
    )
}

const MADE_AGAIN: [(Call, ExpectedReply); 2] = [
    (
        Call::Deliver(1, 0, 0),
        ExpectedReply::Refused(CoreFault::NoMemory),
    ),
    (
        Call::Deliver(1, 0, 0),
        ExpectedReply::Delivered(1, (0, 0, 1, 0), 1),
    ),
];

/// Returns whether a delivery whose step returned `NoMemory` succeeds when it is repeated.
pub(super) fn delivers_again(alloc: Global, core: &mut Runtime) -> bool {
    are_answered(alloc, core, &MADE_AGAIN) && core.trace().len() == 3
}

/// Returns whether a spare that fails with `NoMemory` in a restart of process 0 is returned, and then restarts it.
pub(super) fn spare_comes_back(alloc: Global, core: &mut Runtime) -> bool {
    let is_down = core.crash(Pid(0)) == Ok(1);
    let spare = test_process(alloc, TestProcess::Refusing(2, 0), 3, 0);
    let answer = ExpectedReply::Restarted(2, 0, 1);
    gives_back(core, (0, CoreFault::NoMemory), (0, answer), spare)
        && is_down
        && core.trace().len() == 4
}

/// Returns whether exactly these determinants were written, after the five entries of a tally that delivers two
/// messages.
fn has_written(trace: &Trace, dets: &[Fields]) -> bool {
    let mut place: u32 = 5;
    for fields in dets {
        match trace.entry(place) {
            Some(Entry::Stable { det: written }) if *written == det(*fields) => {}
            _ => return false,
        }
        place = place.saturating_add(1);
    }
    trace.len() == place
}

/// The second write of a tally's flush fails.
const STOPPED: [(Call, ExpectedReply); 3] = [
    (
        Call::Deliver(0, 2, 0),
        ExpectedReply::Delivered(2, (2, 0, 0, 0), 1),
    ),
    (
        Call::Deliver(2, 0, 0),
        ExpectedReply::Delivered(4, (0, 0, 2, 0), 0),
    ),
    (
        Call::Flush(2),
        ExpectedReply::Stopped(CoreFault::StoreFault, 1),
    ),
];

/// The flush that stopped writes the rest, and another flush writes its determinants; no write fails.
const WRITTEN: [(Call, ExpectedReply); 2] = [
    (Call::Flush(2), ExpectedReply::Flushed(1)),
    (Call::Flush(0), ExpectedReply::Flushed(1)),
];

/// All written determinants: process 2 flushes its log, then 0 those that it did not know to be stable.
const ALL_WRITTEN: [Fields; 3] = [(0, 0, 2, 0), (2, 0, 0, 0), (2, 0, 0, 0)];

/// Returns whether the determinants written before the failure are recorded, and in the end all of them.
pub(super) fn flushes_again(alloc: Global, core: &mut Runtime) -> bool {
    are_answered(alloc, core, &STOPPED)
        && has_written(core.trace(), &ALL_WRITTEN[..1])
        && are_answered(alloc, core, &WRITTEN)
        && has_written(core.trace(), &ALL_WRITTEN)
}

/// A flush with nothing to write does not call the store.
const UNWRITTEN: [(Call, ExpectedReply); 4] = [
    (Call::Flush(0), ExpectedReply::Flushed(0)),
    (
        Call::Deliver(0, 2, 0),
        ExpectedReply::Delivered(2, (2, 0, 0, 0), 1),
    ),
    (
        Call::Deliver(2, 0, 0),
        ExpectedReply::Delivered(4, (0, 0, 2, 0), 0),
    ),
    (
        Call::Flush(2),
        ExpectedReply::Stopped(CoreFault::StoreFault, 0),
    ),
];

/// Returns whether nothing is written to a store whose failure count is at its maximum.
pub(super) fn is_not_written_to(alloc: Global, core: &mut Runtime) -> bool {
    are_answered(alloc, core, &UNWRITTEN) && core.trace().len() == 5
}
