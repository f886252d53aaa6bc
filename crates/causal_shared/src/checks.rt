//! The checks of `finish`.
ghost use Rattle.std.specs.Prelude.{◌≡◌, ◌≢◌, ◌<◌, ◌↔◌, All, AllPairs, Any, IsTrue, IfSome, IfNone};
ghost use Rattle.causal_shared.specs.History.{items_of, AllLegal};
ghost use Rattle.causal_core.specs.CoreView.{core_run};
ghost use Rattle.causal_shared.specs.Finish.{HasSeatHistory, AreAllSeats, IsOwnOf, HasSeat, AllHaveSeats};
ghost use Rattle.causal_shared.specs.Inside.FinishChecks.{IsLeastMismatch, HasOpening, entries_before};

use crate::item::Item;
use crate::same::{same_entries, same_item};
use crate::seat::Seat;
use causal_core::runtime::Core;
use causal_log::Stable;
use causal_trace::entry::Entry;
use causal_trace::trace::Trace;

/// Returns whether the history's items of the seat equal `own`.
pub(crate) fn is_seat_history(history: &[Item], seat: u32, own: &[Item]) -> bool
    ensures { IsTrue result ↔ (items_of seat history.now ≡ own.now) }
{
    let mut rest = own;
    for item in history {
        if item.seat != seat {
            continue;
        }
        match rest {
            [first, others @ ..] if same_item(first, item) => rest = others,
            _ => return false,
        }
    }
    rest.is_empty()
}

/// Returns whether one of the seats has the number.
fn is_among(seats: &[Seat], number: u32) -> bool
    ensures { IsTrue result ↔ Any (λ seat. seat.view.number ≡ number) seats.now }
{
    seats.iter().any(|seat| seat.number() == number)
}

/// Returns whether the item belongs to one of the seats.
fn has_seat(seats: &[Seat], item: &Item) -> bool
    ensures { IsTrue result ↔ HasSeat seats.now item.now }
{
    is_among(seats, item.seat)
}

/// Returns whether each item belongs to one of the seats.
pub(crate) fn all_have_seats(history: &[Item], seats: &[Seat]) -> bool
    ensures { IsTrue result ↔ AllHaveSeats seats.now history.now }
{
    for item in history {
        if !has_seat(seats, item) {
            return false;
        }
    }
    true
}

/// The lowest number of a seat whose own list differs from the history's items of it.
pub(crate) fn first_mismatch(history: &[Item], seats: &[Seat]) -> Option<u32>
    ensures some { IfSome result (IsLeastMismatch history.now seats.now) }
    ensures none { IfNone result (All (HasSeatHistory history.now) seats.now) }
{
    let mut least = None;
    for seat in seats {
        if !is_seat_history(history, seat.number(), seat.items()) {
            least = Some(match least {
                Some(n) if n < seat.number() => n,
                _ => seat.number(),
            });
        }
    }
    least
}

/// Returns whether the list contains each of the runtime's k seats exactly once.
pub(crate) fn is_complete(seats: &[Seat], tag: u64, k: u32) -> bool
    ensures { IsTrue result ↔ AreAllSeats tag k seats.now }
{
    if seats.len() != k as usize {
        return false;
    }
    if !all_of_runtime(seats, tag, k) {
        return false;
    }
    all_distinct(seats)
}

/// Returns whether each seat has the tag and a number below k.
fn all_of_runtime(seats: &[Seat], tag: u64, k: u32) -> bool
    ensures { IsTrue result ↔ All (IsOwnOf tag k) seats.now }
{
    seats
        .iter()
        .all(|seat| seat.tag() == tag && seat.number() < k)
}

/// Returns whether all seats have different numbers. O(seats²) time, at most 64 seats.
fn all_distinct(seats: &[Seat]) -> bool
    ensures { IsTrue result ↔ AllPairs (λ a b. a.view.number ≢ b.view.number) seats.now }
{
    for i in 0..seats.len() {
        for j in 0..i {
            if seats[j].number() == seats[i].number() {
                return false;
            }
        }
    }
    true
}

/// The entries before the first item.
fn entries_before_first<'a>(entries: &'a [Entry], history: &[Item]) -> &'a [Entry]
    ensures { result.now ≡ entries_before entries.now history.now }
{
    match history {
        [] => entries,
        [first, ..] if (first.first as usize) < entries.len() => &entries[..first.first as usize],
        _ => entries,
    }
}

/// Returns whether the core's recording before the first item equals the opening, with the same failure bound.
pub(crate) fn is_opening<S: Stable>(
    core: &Core<S>,
    history: &[Item],
    opening: &Trace,
    faults: u16,
) -> bool
    requires { AllLegal (core_run core.now) history.now }
    ensures { IsTrue result
        ↔ HasOpening (core_run core.now) history.now opening.now.recording faults }
{
    if core.trace().processes() != opening.processes() {
        return false;
    }
    if core.faults() != faults {
        return false;
    }
    same_entries(
        entries_before_first(core.trace().entries(), history),
        opening.entries(),
    )
}
