//! The calls of a shared runtime, by one seat.
ghost use Rattle.std.specs.Prelude.{◌≤◌};

use crate::cores::{Boxed, start_core};
use crate::readings::is_judged;
use crate::reporting::{TRIES, print_refusal, print_result};
use causal_log::MemStable;
use causal_name::Pid;
use causal_shared::fault::SharedFault;
use causal_shared::seat::Seat;
use causal_shared::shared::{Shared, finish};
use std::alloc::Global;
use std::sync::Wait;
use std::thread::Threads;

// The precondition of the functions below always holds. Without it their proofs are refused, since a box behind the
// lock is hidden.

/// A call of a seat, with its arguments in order.
#[derive(Clone, Copy)]
enum Call {
    Deliver(u8, u8, u32),
    Crash(u8),
    Flush(u8),
    Forget(u8),
    Pending(u8),
    Snapshot,
}

/// A call, and its name in the output.
type Named = (&'static str, Call);

/// One round of the ring; then process 1 crashes.
const BEFORE: [Named; 6] = [
    ("shared.deliver", Call::Deliver(1, 0, 0)),
    ("shared.deliver", Call::Deliver(2, 1, 0)),
    ("shared.deliver", Call::Deliver(0, 2, 0)),
    ("shared.flush", Call::Flush(2)),
    ("shared.forget", Call::Forget(2)),
    ("shared.crash", Call::Crash(1)),
];

/// The delivery of process 1, replayed, and two calls that make no item.
const AFTER: [Named; 3] = [
    ("shared.deliver", Call::Deliver(1, 0, 0)),
    ("shared.pending", Call::Pending(1)),
    ("shared.snapshot", Call::Snapshot),
];

/// The seat's number of items and its `seen` count.
fn seat_counts(seat: &Seat) -> (u32, u32) {
    (seat.count(), seat.seen())
}

/// The counts after a refusal. An error of the core is recorded as an item, and changes only what a flush has stored.
fn left_by(fault: SharedFault, before: (u32, u32)) -> (u32, u32) {
    let (count, seen) = before;
    match fault {
        SharedFault::Core(_) => (count.saturating_add(1), seen),
        SharedFault::Flush(stopped) => {
            (count.saturating_add(1), seen.saturating_add(stopped.done))
        }
        _ => before,
    }
}

/// A shared runtime, and the output for the results of its calls.
#[derive(Drop)]
struct SeatCaller<'a, R> {
    rt: &'a R,
    shared: &'a Shared<MemStable>,
}

impl<'a, R: Print + Eprint + Wait> SeatCaller<'a, R> {
    /// Performs a call that makes an item.
    fn call_shared(&self, seat: &mut Seat, call: Call) -> Result<(), SharedFault>
        requires { 1 ≤ TRIES }
    {
        match call {
            Call::Deliver(q, source, ssn) => {
                match self.shared.deliver(self.rt, seat, Pid(q), Pid(source), ssn) {
                    Ok(_) => Ok(()),
                    Err(fault) => Err(fault),
                }
            }
            Call::Crash(p) => match self.shared.crash(self.rt, seat, Pid(p)) {
                Ok(_) => Ok(()),
                Err(fault) => Err(fault),
            },
            Call::Flush(p) => match self.shared.flush(self.rt, seat, Pid(p)) {
                Ok(_) => Ok(()),
                Err(fault) => Err(fault),
            },
            Call::Forget(p) => match self.shared.forget(self.rt, seat, Pid(p)) {
                Ok(_) => Ok(()),
                Err(fault) => Err(fault),
            },
            Call::Pending(_) | Call::Snapshot => Ok(()),
        }
    }

    /// Performs a call that makes an item, once. Returns whether it succeeded.
    fn try_item_call(&self, seat: &mut Seat, named: Named) -> bool
        requires { 1 ≤ TRIES }
    {
        let (name, call) = named;
        let before = seat_counts(seat);
        match self.call_shared(seat, call) {
            Ok(()) => print_result(self.rt, name, &seat.seen()),
            Err(fault) => {
                let is_left = seat_counts(seat) == left_by(fault, before);
                print_refusal(self.rt, name, &fault, is_left)
            }
        }
    }

    /// Performs a call once. Returns whether it succeeded.
    fn try_call(&self, seat: &mut Seat, named: Named) -> bool
        requires { 1 ≤ TRIES }
    {
        let (name, call) = named;
        let before = seat_counts(seat);
        match call {
            Call::Pending(q) => match self.shared.pending(self.rt, seat, Pid(q)) {
                Ok(names) => print_result(self.rt, name, &names.len()),
                Err(fault) => print_refusal(self.rt, name, &fault, true),
            },
            Call::Snapshot => match self.shared.snapshot(self.rt, seat) {
                Ok(shown) => print_result(self.rt, name, &shown.trace.len()),
                Err(fault) => print_refusal(self.rt, name, &fault, seat_counts(seat) == before),
            },
            _ => self.try_item_call(seat, named),
        }
    }

    /// Performs the calls in order, each until it succeeds.
    fn all_made(&self, seat: &mut Seat, calls: &[Named]) -> bool
        requires { 1 ≤ TRIES }
    {
        let mut done = 0;
        for _ in 0..TRIES {
            if done < calls.len() && self.try_call(seat, calls[done]) {
                done += 1;
            }
        }
        done == calls.len()
    }

    /// Restarts process 1, once. Returns the spare if the restart is refused.
    fn try_restart(&self, seat: &mut Seat, spare: Boxed) -> Option<Boxed>
        requires { 1 ≤ TRIES }
    {
        let before = seat_counts(seat);
        match self.shared.restart(self.rt, seat, Pid(1), spare) {
            Ok(_) => {
                print_result(self.rt, "shared.restart", &seat.seen());
                None
            }
            Err(back) => {
                let is_left = seat_counts(seat) == left_by(back.fault, before);
                print_refusal(self.rt, "shared.restart", &back.fault, is_left);
                Some(back.spare)
            }
        }
    }

    /// Restarts process 1 with the spare, until it succeeds.
    fn restarted_again(&self, seat: &mut Seat, spare: Boxed) -> bool
        requires { 1 ≤ TRIES }
    {
        let mut spare = Some(spare);
        for _ in 0..TRIES {
            spare = match spare {
                Some(boxed) => self.try_restart(seat, boxed),
                None => None,
            };
        }
        spare.is_none()
    }

    /// Performs each call of a seat until it succeeds.
    fn all_calls(&self, seat: &mut Seat, spare: Boxed) -> bool
        requires { 1 ≤ TRIES }
    {
        self.all_made(seat, &BEFORE)
            && self.restarted_again(seat, spare)
            && self.all_made(seat, &AFTER)
    }

    /// Performs each call of the first seat until it succeeds.
    fn all_calls_of(&self, seats: &mut Vec<Seat>, spare: Boxed) -> bool
        requires { 1 ≤ TRIES }
    {
        match seats.first_mut() {
            Some(seat) => self.all_calls(seat, spare),
            None => false,
        }
    }
}

/// Finishes the runtime and audits its trace.
fn finish_and_audit<R: Print + Eprint + Threads + Wait>(
    rt: &R,
    alloc: Global,
    shared: Shared<MemStable>,
    seats: Vec<Seat>,
) -> bool
    requires { 1 ≤ TRIES }
{
    match finish(shared, seats) {
        Ok(finished) => is_judged(rt, alloc, finished.core.trace()),
        Err(fault) => print_refusal(rt, "finish", &fault, false),
    }
}

/// Performs all calls of a shared runtime, finishes it and audits its trace.
fn call_and_finish<R: Print + Eprint + Threads + Wait>(
    rt: &R,
    alloc: Global,
    shared: Shared<MemStable>,
    seats: Vec<Seat>,
    spare: Boxed,
) -> bool
    requires { 1 ≤ TRIES }
{
    let mut seats = seats;
    let calling = SeatCaller {
        rt,
        shared: &shared,
    };
    calling.all_calls_of(&mut seats, spare) && finish_and_audit(rt, alloc, shared, seats)
}

/// Opens a shared runtime of these processes with one seat, performs all its calls and audits its trace. Returns
/// whether all succeeded. If `open` is refused, the core is dropped.
pub fn run_seats<R: Print + Eprint + Threads + Wait>(
    rt: &R,
    alloc: Global,
    boxes: Vec<Boxed>,
    spare: Boxed,
) -> bool
    requires { 1 ≤ TRIES }
{
    let Some(core) = start_core(rt, alloc, boxes) else {
        return false;
    };
    match Shared::open(alloc, core, 1, 7) {
        Ok((shared, seats)) => call_and_finish(rt, alloc, shared, seats, spare),
        Err(fault) => print_refusal(rt, "shared.open", &fault, true),
    }
}
