//! Seats on their own threads, hand-computed calls, random calls, and a full history.
use crate::runtime::{TestProcess, processes};
use causal_audit::{Verdict, verdict_of};
use causal_core::Core;
use causal_log::MemStable;
use causal_shared::fault::FinishFault;
use causal_shared::locked::Locked;
use causal_shared::seat::Seat;
use causal_shared::shared::{Finished, Shared, finish};
use std::alloc::Global;
use std::sync::Wait;
use std::thread::Threads;

/// Calls with one seat: their results, and the seat's view after them.
mod calls;
/// Seats on their own threads.
mod threads;

/// The runtime behind the lock.
type Runtime = Shared<MemStable>;

/// The processes of a runtime, its failure bound, and its number of seats, 1 to 64.
type Parts = (TestProcess, u8, u16, u32);

/// How a runtime ends: with that many items and an accepted trace, or with that error.
type End = Result<usize, FinishFault>;

/// A test case on a runtime, which one function owns and lends.
#[derive(Clone, Copy)]
enum Scene {
    Refusal,
    AllPending,
    StepMadeAgain,
    FullHistory,
    ForeignSeat,
    NamesakeSeat,
    SeatLeftOut,
    /// That many seats deliver to their own processes, each on its own thread.
    Overlap(u8),
    /// Seat 0 audits a snapshot while seat 1 delivers.
    Beside,
    /// Eight seats make random calls, each on its own thread.
    Random,
}

/// The tag of the runtimes here.
const TAG: u64 = 7;

/// The core of a runtime.
fn start_core(alloc: Global, (process, n, faults, _): Parts) -> Option<Core<MemStable>> {
    match processes(alloc, process, n) {
        Ok(boxes) => Core::start(alloc, faults, boxes, MemStable::new(alloc)).ok(),
        Err(_) => None,
    }
}

/// Opens a runtime with this tag.
fn open_shared(alloc: Global, parts: Parts, tag: u64) -> Option<(Runtime, Vec<Seat>)> {
    match start_core(alloc, parts) {
        Some(core) => Shared::open(alloc, core, parts.3.clamp(1, 64), tag).ok(),
        None => None,
    }
}

impl Scene {
    fn parts(self) -> Parts {
        match self {
            Scene::Refusal | Scene::FullHistory => (TestProcess::Ring(0), 1, 0, 1),
            Scene::AllPending => (TestProcess::Tally, 3, 1, 1),
            Scene::StepMadeAgain => (TestProcess::Refusing(1, 1), 1, 0, 1),
            Scene::ForeignSeat | Scene::NamesakeSeat => (TestProcess::Echo(3), 2, 1, 1),
            Scene::SeatLeftOut => (TestProcess::Echo(3), 2, 1, 2),
            Scene::Overlap(n) => (TestProcess::Echo(3), n, 1, u32::from(n)),
            Scene::Beside => (TestProcess::Echo(200), 2, 1, 2),
            Scene::Random => (
                TestProcess::Echo(200),
                threads::SEATS,
                2,
                u32::from(threads::SEATS),
            ),
        }
    }

    /// The number of seats that are there at the end.
    fn seats_left(self) -> usize {
        match self {
            Scene::SeatLeftOut => 1,
            _ => 64,
        }
    }

    fn end(self) -> End {
        match self {
            Scene::Refusal => Ok(1),
            Scene::AllPending | Scene::ForeignSeat => Ok(0),
            Scene::StepMadeAgain => Ok(2),
            Scene::FullHistory => Ok(1_048_576),
            Scene::NamesakeSeat => Err(FinishFault::Mismatch(0)),
            Scene::SeatLeftOut => Err(FinishFault::Missing),
            Scene::Overlap(n) => Ok(4 * usize::from(n)),
            Scene::Beside => Ok(402),
            Scene::Random => Ok(2_464),
        }
    }

    fn is_end(self, alloc: Global, end: &Finished<MemStable>) -> bool {
        let verdict = verdict_of(alloc, end.core.trace(), end.core.faults());
        self.end() == Ok(end.history.as_slice().len()) && matches!(verdict, Ok(Verdict::Accept))
    }

    /// Returns whether the runtime finishes with these seats as expected.
    fn ends(self, alloc: Global, shared: Runtime, seats: Vec<Seat>) -> bool {
        match finish(shared, seats) {
            Ok(end) => self.is_end(alloc, &end),
            Err(fault) => self.end() == Err(fault),
        }
    }

    fn is_right_with<R: Wait>(
        self,
        rt: &R,
        alloc: Global,
        shared: &Runtime,
        seat: &mut Seat,
    ) -> bool {
        match self {
            Scene::Refusal => calls::is_refused(rt, shared, seat),
            Scene::AllPending => calls::are_all_pending(rt, shared, seat),
            Scene::StepMadeAgain => calls::is_made_again(rt, shared, seat),
            Scene::FullHistory => calls::fills_up(rt, shared, seat),
            Scene::ForeignSeat => calls::refuses_foreign(rt, alloc, shared) && seat.count() == 0,
            Scene::NamesakeSeat => calls::takes_namesake(rt, alloc, shared),
            Scene::Random => threads::is_eventful(rt, shared, seat),
            Scene::SeatLeftOut | Scene::Overlap(_) | Scene::Beside => true,
        }
    }

    fn is_right_on<R: Threads + Wait + Sync>(
        self,
        rt: &R,
        alloc: Global,
        shared: &Runtime,
        seats: &mut [Seat],
    ) -> bool {
        let threads_are_right = match self {
            Scene::Overlap(_) | Scene::Beside | Scene::Random => {
                self.are_right(rt, alloc, shared, seats)
            }
            _ => true,
        };
        match seats.first_mut() {
            Some(seat) => threads_are_right && self.is_right_with(rt, alloc, shared, seat),
            None => false,
        }
    }

    /// Returns whether all results are as expected, and the runtime finishes as expected.
    fn is_right<R: Threads + Wait + Sync>(self, rt: &R, alloc: Global) -> bool {
        match open_shared(alloc, self.parts(), TAG) {
            Some((shared, mut seats)) => {
                let is_right = self.is_right_on(rt, alloc, &shared, seats.as_mut_slice());
                seats.truncate(self.seats_left());
                self.ends(alloc, shared, seats) && is_right
            }
            None => false,
        }
    }
}

/// Calls with one seat.
const SCENES: [Scene; 3] = [Scene::Refusal, Scene::AllPending, Scene::StepMadeAgain];

#[test]
fn seat_scenes(rt: HostRuntime) {
    for (number, scene) in SCENES.iter().enumerate() {
        assert!(rt; scene.is_right(&rt, rt.alloc()), "scene {number}");
    }
}

#[test]
fn a_history_fills_up(rt: HostRuntime) {
    assert!(rt; Scene::FullHistory.is_right(&rt, rt.alloc()));
}

// A seat that differs in its tag only is refused, and not recorded.
#[test]
fn wrong_seat(rt: HostRuntime) {
    assert!(rt; Scene::ForeignSeat.is_right(&rt, rt.alloc()));
}

// A seat with the same tag and number is taken as the runtime's own. Then the history has an item that the own seat
// lacks.
#[test]
fn finish_missing(rt: HostRuntime) {
    assert!(rt; Scene::SeatLeftOut.is_right(&rt, rt.alloc()));
    assert!(rt; Scene::NamesakeSeat.is_right(&rt, rt.alloc()));
}

#[test]
fn seats_overlap(rt: HostRuntime) {
    assert!(rt; Scene::Overlap(2).is_right(&rt, rt.alloc()));
}

#[test]
fn all_64_seats_overlap(rt: HostRuntime) {
    assert!(rt; Scene::Overlap(64).is_right(&rt, rt.alloc()));
}

#[test]
fn snapshot_beside(rt: HostRuntime) {
    assert!(rt; Scene::Beside.is_right(&rt, rt.alloc()));
}

#[test]
fn seats_call_at_random(rt: HostRuntime) {
    assert!(rt; Scene::Random.is_right(&rt, rt.alloc()));
}

/// Returns whether the value under the lock matches its own seat and no other, and its history is not full.
fn holds_its_seat(locked: &Locked<MemStable>) -> bool {
    locked.holds(0, 0, 1, None)
        && !locked.holds(1, 0, 1, None)
        && !locked.holds(0, 1, 1, None)
        && !locked.full()
}

/// Returns whether the value of this core and one seat is as expected.
fn is_new(alloc: Global, core: Core<MemStable>) -> bool {
    match Locked::new(alloc, core, 1) {
        Ok(locked) => holds_its_seat(&locked),
        Err(_) => false,
    }
}

// A ring of one process begins with a message to itself, which is one entry.
#[test]
fn new_lock_holds_its_seat(rt: HostRuntime) {
    let is_right = match start_core(rt.alloc(), Scene::Refusal.parts()) {
        Some(core) => is_new(rt.alloc(), core),
        None => false,
    };
    assert!(rt; is_right);
}
