//! Calls with one seat: their results, and the seat's view after them.
use super::{Runtime, Scene, open_shared};
use crate::names::name;
use causal_core::{CoreFault, Reply};
use causal_name::Pid;
use causal_shared::fault::SharedFault;
use causal_shared::limits::MAX_ITEMS;
use causal_shared::seat::Seat;
use std::alloc::Global;
use std::sync::Wait;

/// Crashes a process and returns the error, if any.
fn crash<R: Wait>(rt: &R, shared: &Runtime, seat: &mut Seat, p: u8) -> Option<SharedFault> {
    shared.crash(rt, seat, Pid(p)).err()
}

/// Returns whether the crash of a process that does not exist is refused, recorded as a refusal, and leaves the `seen`
/// count unchanged.
pub(super) fn is_refused<R: Wait>(rt: &R, shared: &Runtime, seat: &mut Seat) -> bool {
    let seen = seat.seen();
    crash(rt, shared, seat, 9) == Some(SharedFault::Core(CoreFault::NoProcess))
        && matches!(seat.last(), Some(item) if item.reply == Reply::Refused(CoreFault::NoProcess))
        && seat.count() == 1
        && seat.seen() == seen
}

/// Returns whether both messages of a tally are pending at 0, by source, and a process that does not exist is refused.
pub(super) fn are_all_pending<R: Wait>(rt: &R, shared: &Runtime, seat: &Seat) -> bool {
    let none = shared.pending(rt, seat, Pid(9)).err();
    match shared.pending(rt, seat, Pid(0)) {
        Ok(names) => {
            names.as_slice() == [name(1, 0), name(2, 0)].as_slice()
                && none == Some(SharedFault::Core(CoreFault::NoProcess))
        }
        Err(_) => false,
    }
}

/// Delivers the message that the process sends to itself at its start, and returns the error, if any. There is no other
/// message.
fn deliver_own<R: Wait>(rt: &R, shared: &Runtime, seat: &mut Seat) -> Option<SharedFault> {
    shared.deliver(rt, seat, Pid(0), Pid(0), 0).err()
}

/// Returns whether a snapshot has one entry, and one call was made before it.
fn is_as_begun<R: Wait>(rt: &R, shared: &Runtime, seat: &mut Seat) -> bool {
    match shared.snapshot(rt, seat) {
        Ok(shown) => shown.trace.len() == 1 && shown.calls == 1,
        Err(_) => false,
    }
}

/// Returns whether that delivery is refused with `NoMemory`, the refusal is an item and changes nothing else, and the
/// repeated delivery succeeds.
pub(super) fn is_made_again<R: Wait>(rt: &R, shared: &Runtime, seat: &mut Seat) -> bool {
    deliver_own(rt, shared, seat) == Some(SharedFault::Core(CoreFault::NoMemory))
        && (seat.count(), seat.seen()) == (1, 1)
        && is_as_begun(rt, shared, seat)
        && deliver_own(rt, shared, seat).is_none()
}

/// Crashes a process that does not exist `calls` times, and returns how many were refused for that.
fn count_refusals<R: Wait>(rt: &R, shared: &Runtime, seat: &mut Seat, calls: usize) -> usize {
    let mut refused = 0_usize;
    for _ in 0..calls {
        if crash(rt, shared, seat, 9) == Some(SharedFault::Core(CoreFault::NoProcess)) {
            refused = refused.saturating_add(1);
        }
    }
    refused
}

/// Returns whether the maximum number of items is recorded, all of them refusals, and a further call returns
/// `HistoryFull`.
pub(super) fn fills_up<R: Wait>(rt: &R, shared: &Runtime, seat: &mut Seat) -> bool {
    count_refusals(rt, shared, seat, MAX_ITEMS) == 1_048_576
        && crash(rt, shared, seat, 9) == Some(SharedFault::HistoryFull)
        && seat.count() == 1_048_576
}

/// Crashes process 0 with a seat of another runtime, which has this tag. Returns the error, if any, and the seat's
/// count then.
fn crash_with_another<R: Wait>(
    rt: &R,
    alloc: Global,
    shared: &Runtime,
    tag: u64,
) -> Option<(Option<SharedFault>, u32)> {
    let (_other, mut seats) = open_shared(alloc, Scene::ForeignSeat.parts(), tag)?;
    let seat = seats.first_mut()?;
    let fault = crash(rt, shared, seat, 0);
    Some((fault, seat.count()))
}

pub(super) fn refuses_foreign<R: Wait>(rt: &R, alloc: Global, shared: &Runtime) -> bool {
    crash_with_another(rt, alloc, shared, 8) == Some((Some(SharedFault::WrongSeat), 0))
}

pub(super) fn takes_namesake<R: Wait>(rt: &R, alloc: Global, shared: &Runtime) -> bool {
    crash_with_another(rt, alloc, shared, super::TAG) == Some((None, 1))
}
