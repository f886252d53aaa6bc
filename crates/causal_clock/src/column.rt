//! Columns: for a lane and a source lane, the places at which the count of the source's events rises.
ghost use Rattle.std.specs.Prelude.{◌≡◌, ℕ, ◌-◌, ◌<◌, ◌≤◌, length, OnOk, vec_len, vec_capacity};
ghost use Rattle.causal_clock.specs.Rises.{rise_at, count_at, RisesStrictly};
ghost use Rattle.causal_clock.specs.Inside.Columns.{IsSplitAt};

use crate::Rise;
use std::alloc::AllocError;

// Returns where to begin the search for a place: all rises before it are at or before the place. Searches from the
// end in doubling steps, since the place is usually a late one.
#[tactic(auto, using(crate::proofs::Columns::up_to))]
fn search_start(column: &[Rise], place: u32) -> usize
    requires strictly { RisesStrictly column.now }
    ensures inside { result ≤ length column.now }
    ensures passed { (i : ℕ) → i < result → (rise_at column.now i).place ≤ place }
{
    let mut back = 1;
    while back < column.len() && place < column[column.len() - back].place {
        back *= 2;
    }
    column.len().saturating_sub(back)
}

// Returns how many rises are at or before the place. Takes O(log n) time for n rises after it.
fn count_up_to(column: &[Rise], place: u32) -> usize
    requires strictly { RisesStrictly column.now }
    ensures { IsSplitAt column.now place result }
{
    let start = search_start(column, place);
    start + column[start..].partition_point(|rise| rise.place <= place)
}

/// Returns how many events of the source lane reach that place of the lane: the count of the last rise at or before
/// it. Takes O(log n) time for n rises after it.
#[tactic(auto, using(crate::proofs::Columns::count_of_none, crate::proofs::Columns::count_of_last))]
pub fn count_at(column: &[Rise], place: u32) -> u32
    requires strictly { RisesStrictly column.now }
    ensures { result ≡ count_at column.now place }
{
    match count_up_to(column, place) {
        0 => 0,
        passed => column[passed - 1].count,
    }
}

/// Reserves capacity for one more rise, if the count is greater than the known one. Changes nothing else.
pub fn reserve_rise(column: &mut Vec<Rise>, known: u32, count: u32) -> Result<(), AllocError>
    ensures items { column.new.items ≡ column.old.items }
    ensures room { OnOk result (known < count → 0 < vec_capacity column.new - vec_len column.new) }
{
    if known < count {
        column.reserve(1)?;
    }
    Ok(())
}
