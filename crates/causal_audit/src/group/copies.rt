//! Where each determinant of a group has copies, by place: in which logs, and whether in stable storage.
ghost use Rattle.std.specs.Prelude.{◌≡◌, ◌<◌, ◌⊎◌, ℕ, true, false, length};
ghost use Rattle.std.specs.FinSet as set;
ghost use Rattle.causal_audit.specs.Inside.Group.Walk.{AreCopiesAfter, copies_at, no_copies};
ghost use Rattle.causal_trace.specs.Laws.{is_crash};

use crate::delivery_state::stable_after;
use crate::group::Places;
use crate::holders::holders_after;
use causal_holders::Holders;
use causal_trace::entry::Entry;

/// The copies of one determinant.
#[derive(Clone, Copy)]
pub struct DetCopies {
    pub holders: Holders,
    pub stable: bool,
}

/// Returns a value without copies.
pub fn no_copies() -> DetCopies
    ensures { result ≡ no_copies }
{
    DetCopies {
        holders: Holders::none(),
        stable: false,
    }
}

/// Removes the copies of each determinant.
#[tactic(auto, using(crate::proofs::Rules::of_rows))]
pub fn clear_copies(copies: &mut Vec<DetCopies>)
    ensures count { length copies.new.items ≡ length copies.old.items }
    ensures none { (j : ℕ) → j < length copies.old.items →
        copies_at copies.new.items j ≡ no_copies }
{
    copies.fill(no_copies());
}

/// Returns the copies of a determinant after one more entry. `mentioned`: the entry mentions it.
fn copies_after(copies: DetCopies, entry: &Entry, mentioned: bool) -> DetCopies
    ensures { AreCopiesAfter entry.now mentioned copies result }
{
    DetCopies {
        holders: holders_after(copies.holders, entry, mentioned),
        stable: stable_after(copies.stable, entry, mentioned),
    }
}

/// Returns the places whose copies an entry may change. A crash may change all. Another entry may change those that it
/// mentions, except those that the receiver holds already.
pub fn changed_places(entry: &Entry, mentioned: Places, held: Places, all: Places) -> Places
    ensures quiet { (j : ℕ) → set.contains all j ≡ true → set.contains result j ≡ false →
        (is_crash entry.now ≡ false) × ((set.contains mentioned j ≡ false) ⊎
        (set.contains held j ≡ true)) }
{
    match entry {
        Entry::Crash { .. } => all,
        _ => mentioned.minus(held),
    }
}

/// Updates the copies at the places `touched` by one entry, which mentions the determinants of the places `mentioned`.
/// Takes O(places in `touched`) time.
#[tactic(auto, using(crate::proofs::group::GroupReach::fewer))]
pub fn update_copies(copies: &mut Vec<DetCopies>, entry: &Entry, mentioned: Places, touched: Places)
    requires buffers { length copies.old.items ≡ 256 }
    ensures count { length copies.new.items ≡ length copies.old.items }
    ensures others { (j : ℕ) → set.contains touched j ≡ false →
        copies_at copies.new.items j ≡ copies_at copies.old.items j }
    ensures renewed { (j : ℕ) → set.contains touched j ≡ true → AreCopiesAfter entry.now
        (set.contains mentioned j) (copies_at copies.old.items j) (copies_at copies.new.items j) }
{
    let mut rest = touched;
    while let Some(place) = rest.least() {
        rest.remove(place);
        let i = usize::from(place);
        copies[i] = copies_after(copies[i], entry, mentioned.contains(place));
    }
}
