//! Seats on their own threads, which one function lends to them. No seat can end before each other one has begun.
use super::{Runtime, Scene};
use crate::numbers::Numbers;
use crate::runtime::{TestProcess, test_process};
use causal_audit::{Verdict, verdict_of};
use causal_core::Reply;
use causal_name::Pid;
use causal_shared::item::Snapshot;
use causal_shared::seat::Seat;
use causal_trace::trace::Trace;
use std::alloc::Global;
use std::sync::Wait;
use std::sync::atomic::{AtomicU64, Ordering};
use std::thread;
use std::thread::Threads;

/// The number of processes and of seats that make random calls.
pub(super) const SEATS: u8 = 8;

/// The number of recorded calls of each of these seats, before it restarts what is down.
const CALLS: u32 = 300;

/// How often a thread tries before it stops.
const TURNS: u32 = 10_000_000;

/// The number of deliveries before the random calls; too few to end the count of any process.
const ENOUGH: u32 = 100;

/// What the threads see of each other.
#[derive(Drop)]
struct Stage {
    /// The number of deliveries so far.
    delivered: AtomicU64,
    /// 1 once a snapshot is taken.
    looked: AtomicU64,
    /// The number of threads that have seen what they should.
    right: AtomicU64,
}

/// Waits until a number is at least `least`. Returns whether it is.
fn waits_for(number: &AtomicU64, least: u64) -> bool {
    for _ in 0..TURNS {
        if number.load(Ordering::SeqCst) >= least {
            return true;
        }
        thread::yield_now();
    }
    false
}

/// Delivers the first message that is pending at q. Returns whether there was one and the delivery succeeded.
fn deliver_first<R: Wait>(rt: &R, shared: &Runtime, seat: &mut Seat, q: Pid) -> bool {
    match shared.pending(rt, seat, q) {
        Ok(names) => match names.first() {
            Some(name) => shared.deliver(rt, seat, q, name.source, name.ssn).is_ok(),
            None => false,
        },
        Err(_) => false,
    }
}

/// Returns whether a snapshot is accepted for f = 1, and each of its calls is a delivery.
fn is_accepted(alloc: Global, seen: &Snapshot) -> bool {
    let verdict = verdict_of(alloc, &seen.trace, 1);
    matches!(verdict, Ok(Verdict::Accept))
        && seen.faults == 1
        && seen.calls == seen.trace.deliveries()
}

/// Returns whether the trace contains the seat's last delivery, if any, at its position.
fn shows_last(trace: &Trace, seat: &Seat) -> bool {
    match seat.last() {
        Some(item) => match item.reply {
            Reply::Delivered(delivered) => trace.det_at(item.first) == Some(delivered.det),
            _ => false,
        },
        None => true,
    }
}

/// Restarts p, if it is down. Returns whether it was.
fn restart<R: Wait>(rt: &R, alloc: Global, shared: &Runtime, seat: &mut Seat, p: Pid) -> bool {
    match test_process(alloc, TestProcess::Echo(200), u16::from(SEATS), p.0) {
        Ok(spare) => shared.restart(rt, seat, p, spare).is_ok(),
        Err(_) => false,
    }
}

/// Makes the call with this number for process p. Returns whether it succeeded.
fn call<R: Wait>(
    rt: &R,
    alloc: Global,
    shared: &Runtime,
    seat: &mut Seat,
    (number, p): (u8, Pid),
) -> bool {
    match number % 16 {
        0 => shared.crash(rt, seat, p).is_ok(),
        1 | 2 => restart(rt, alloc, shared, seat, p),
        3 => shared.flush(rt, seat, p).is_ok(),
        4 => shared.forget(rt, seat, p).is_ok(),
        _ => deliver_first(rt, shared, seat, p),
    }
}

/// Makes random calls until the seat has its items, and then restarts what is down. Returns whether each call was
/// recorded.
fn calls_at_random<R: Wait>(rt: &R, alloc: Global, shared: &Runtime, seat: &mut Seat) -> bool {
    let mut numbers = Numbers {
        state: u64::from(seat.number()),
    };
    for _ in 0..TURNS {
        if seat.count() >= CALLS {
            return restarts_all(rt, alloc, shared, seat);
        }
        let number = numbers.below(256) as u8;
        let p = Pid((numbers.below(256) as u8) % SEATS);
        call(rt, alloc, shared, seat, (number, p));
    }
    false
}

/// Restarts all processes that are down. Returns whether each call was recorded, also if it was refused.
fn restarts_all<R: Wait>(rt: &R, alloc: Global, shared: &Runtime, seat: &mut Seat) -> bool {
    for p in 0..SEATS {
        restart(rt, alloc, shared, seat, Pid(p));
    }
    seat.count() == CALLS + u32::from(SEATS)
}

/// Returns whether the trace contains enough deliveries and a restart, which follows a crash. The first crash call of
/// all is never refused, and each seat makes one; each thread ends with a restart of what is down. So it does in each
/// order of the calls.
pub(super) fn is_eventful<R: Wait>(rt: &R, shared: &Runtime, seat: &mut Seat) -> bool {
    match shared.snapshot(rt, seat) {
        Ok(whole) => whole.trace.deliveries() >= ENOUGH && whole.trace.restarts() > 0,
        Err(_) => false,
    }
}

impl Scene {
    /// The number of deliveries of all threads, each with one message sent before it.
    fn deliveries(self) -> u64 {
        match self {
            Scene::Overlap(n) => 4 * u64::from(n),
            _ => 402,
        }
    }

    /// The process to which a seat delivers next: that of its number, or each of them in turn, where a message is
    /// always pending.
    fn receiver(self, seat: &Seat) -> Pid {
        let p = match self {
            Scene::Overlap(_) => seat.number(),
            Scene::Beside => seat.count() % 2,
            _ => seat.count() % 8,
        };
        Pid(p.min(255) as u8)
    }

    /// Delivers until the seat has `count` items. Returns whether it has.
    fn delivers<R: Wait>(
        self,
        rt: &R,
        shared: &Runtime,
        seat: &mut Seat,
        stage: &Stage,
        count: u32,
    ) -> bool {
        for _ in 0..TURNS {
            if seat.count() >= count {
                return true;
            }
            if deliver_first(rt, shared, seat, self.receiver(seat)) {
                stage.delivered.fetch_add(1, Ordering::SeqCst);
            } else {
                thread::yield_now();
            }
        }
        false
    }

    /// Goes on after a snapshot: seat 0 of `Beside` waits for a delivery since, the others make their own.
    fn goes_on<R: Wait>(
        self,
        rt: &R,
        shared: &Runtime,
        seat: &mut Seat,
        stage: &Stage,
        calls: u32,
    ) -> bool {
        match self {
            Scene::Beside => waits_for(&stage.delivered, u64::from(calls) + 1),
            _ => self.delivers(rt, shared, seat, stage, 4),
        }
    }

    /// Returns whether a trace has all deliveries and their sends, and begins with a part that is shorter.
    fn is_whole(self, trace: &Trace, part: &Trace) -> bool {
        u64::from(trace.len()) == self.deliveries().saturating_mul(2)
            && part.len() < trace.len()
            && trace.entries().starts_with(part.entries())
    }

    /// Returns whether the trace in the end is whole and begins with this part.
    fn ends_whole<R: Wait>(self, rt: &R, shared: &Runtime, seat: &mut Seat, part: &Trace) -> bool {
        match shared.snapshot(rt, seat) {
            Ok(whole) => self.is_whole(&whole.trace, part),
            Err(_) => false,
        }
    }

    /// Returns whether this snapshot is right, and so is the trace after all deliveries.
    fn has_seen<R: Wait>(
        self,
        rt: &R,
        alloc: Global,
        shared: &Runtime,
        seat: &mut Seat,
        (stage, seen): (&Stage, &Snapshot),
    ) -> bool {
        is_accepted(alloc, seen)
            && shows_last(&seen.trace, seat)
            && self.goes_on(rt, shared, seat, stage, seen.calls)
            && waits_for(&stage.delivered, self.deliveries())
            && self.ends_whole(rt, shared, seat, &seen.trace)
    }

    /// Takes a snapshot, and audits it while the other seats continue. Returns whether all is right.
    fn looks<R: Wait>(
        self,
        rt: &R,
        alloc: Global,
        shared: &Runtime,
        seat: &mut Seat,
        stage: &Stage,
    ) -> bool {
        match shared.snapshot(rt, seat) {
            Ok(seen) => {
                stage.looked.store(1, Ordering::SeqCst);
                self.has_seen(rt, alloc, shared, seat, (stage, &seen))
            }
            Err(_) => false,
        }
    }

    /// What one thread does with its seat. Returns whether all is right. In `Beside`, seat 1 delivers the messages of
    /// both processes, and leaves the last 200 until seat 0 has taken its snapshot. In `Random`, seat 0 makes enough
    /// deliveries before any random call.
    fn plays<R: Wait>(
        self,
        rt: &R,
        alloc: Global,
        shared: &Runtime,
        seat: &mut Seat,
        stage: &Stage,
    ) -> bool {
        match (self, seat.number()) {
            (Scene::Overlap(_), _) => {
                self.delivers(rt, shared, seat, stage, 1)
                    && self.looks(rt, alloc, shared, seat, stage)
            }
            (Scene::Beside, 0) => {
                waits_for(&stage.delivered, 1) && self.looks(rt, alloc, shared, seat, stage)
            }
            (Scene::Beside, _) => {
                self.delivers(rt, shared, seat, stage, 202)
                    && waits_for(&stage.looked, 1)
                    && self.delivers(rt, shared, seat, stage, 402)
            }
            (Scene::Random, 0) => {
                self.delivers(rt, shared, seat, stage, ENOUGH)
                    && calls_at_random(rt, alloc, shared, seat)
            }
            (_, _) => {
                waits_for(&stage.delivered, u64::from(ENOUGH))
                    && calls_at_random(rt, alloc, shared, seat)
            }
        }
    }

    /// Counts a thread that has seen what it should.
    fn count_right<R: Wait>(
        self,
        rt: &R,
        alloc: Global,
        shared: &Runtime,
        seat: &mut Seat,
        stage: &Stage,
    ) {
        if self.plays(rt, alloc, shared, seat, stage) {
            stage.right.fetch_add(1, Ordering::SeqCst);
        }
    }

    /// Lends each seat to a thread of its own. Returns whether all threads have seen what they should.
    pub(super) fn are_right<R: Threads + Wait + Sync>(
        self,
        rt: &R,
        alloc: Global,
        shared: &Runtime,
        seats: &mut [Seat],
    ) -> bool {
        let threads = seats.len();
        if threads == 0 {
            return false;
        }
        let stage = Stage {
            delivered: AtomicU64::new(0),
            looked: AtomicU64::new(0),
            right: AtomicU64::new(0),
        };
        thread::for_each_mut(
            rt,
            seats,
            threads,
            &|_, seat| { self.count_right(rt, alloc, shared, seat, &stage) },
        );
        stage.right.load(Ordering::SeqCst) == threads as u64
    }
}
