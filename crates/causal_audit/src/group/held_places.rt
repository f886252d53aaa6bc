//! For each process, the determinants of a group that it is known to hold, by place.
ghost use Rattle.std.specs.Prelude.{◌≡◌, ℕ, true, length};
ghost use Rattle.std.specs.FinSet as set;
ghost use Rattle.causal_audit.specs.Inside.Group.Walk.{IsHeldBy, KeepsHeld, row};

use crate::group::Places;
use crate::group::rows::set_at;
use causal_trace::entry::Entry;

/// Returns the places whose determinants the receiver of a delivery is known to hold; no place for another entry.
pub fn held_by_receiver(held: &[Places], entry: &Entry) -> Places
    ensures { IsHeldBy entry.now held.now result }
{
    match entry {
        Entry::Deliver { to, .. } => set_at(held, usize::from(to.0)),
        _ => Places::none(),
    }
}

/// Replaces the row of a process, if it has one.
#[tactic(auto, using(crate::proofs::Rules::of_rows))]
fn put_row(rows: &mut Vec<Places>, p: u8, places: Places)
    ensures count { length rows.new.items ≡ length rows.old.items }
    ensures others { (i : ℕ) → (i ≡ p → ⊥) → row rows.new.items i ≡ row rows.old.items i }
    ensures here { (j : ℕ) → set.contains (row rows.new.items p) j ≡ true →
        set.contains places j ≡ true }
{
    let i = usize::from(p);
    if i < rows.len() {
        rows[i] = places;
    }
}

/// Updates the determinants that each process is known to hold by one more entry, which mentions those of the places
/// `mentioned`.
pub fn note_held(held: &mut Vec<Places>, entry: &Entry, mentioned: Places)
    ensures count { length held.new.items ≡ length held.old.items }
    ensures keeps { KeepsHeld entry.now mentioned held.old.items held.new.items }
{
    match entry {
        Entry::Deliver { to, .. } => {
            let before = set_at(held, usize::from(to.0));
            put_row(held, to.0, before.union(mentioned));
        }
        Entry::Restart { who, .. } => put_row(held, who.0, mentioned),
        Entry::Forget { who, .. } => {
            let before = set_at(held, usize::from(who.0));
            put_row(held, who.0, before.minus(mentioned));
        }
        Entry::Crash { who } => put_row(held, who.0, Places::none()),
        Entry::Send { .. } | Entry::Stable { .. } => {}
    }
}
