//! Which deliveries of a group an entry may newly orphan.
ghost use Rattle.std.specs.Prelude.{◌≡◌, ◌<◌, ◌&&◌, ℕ, true, false};
ghost use Rattle.std.specs.FinSet as set;
ghost use Rattle.causal_audit.specs.Inside.Group.Walk.{IsLacked, IsSuspect};

use crate::group::Places;
use crate::group::rows::set_at;
use causal_trace::entry::Entry;

/// One step of a walk: the entry at position t, the places of the deliveries that newly reach its process, and of those
/// whose determinants it mentions.
#[derive(Clone, Copy)]
pub struct WalkStep<'a> {
    pub entry: &'a Entry,
    pub t: u32,
    pub newly: Places,
    pub mentioned: Places,
}

/// Returns the places in both sets.
pub fn intersection(one: Places, other: Places) -> Places
    ensures { (j : ℕ) → set.contains result j ≡ (set.contains one j && set.contains other j) }
{
    one.minus(one.minus(other))
}

/// Returns the places on which some process depends without being known to hold the determinant.
fn lacking_places(present: &[Places], held: &[Places], processes: u16) -> Places
    ensures { (j : ℕ) → IsLacked present.now held.now processes j → set.contains result j ≡ true }
{
    let mut lacked = Places::none();
    for p in 0..processes {
        let depends = set_at(present, usize::from(p));
        lacked = lacked.union(depends.minus(set_at(held, usize::from(p))));
    }
    lacked
}

/// Returns the places on which some process depends without being known to hold the determinant, if a forgetting lists
/// it. Reads no row if it lists none.
fn forgotten_places(
    present: &[Places],
    held: &[Places],
    processes: u16,
    mentioned: Places,
) -> Places
    ensures { (j : ℕ) → set.contains mentioned j ≡ true →
        IsLacked present.now held.now processes j →
        set.contains result j ≡ true }
{
    match mentioned.least() {
        Some(_) => intersection(mentioned, lacking_places(present, held, processes)),
        None => Places::none(),
    }
}

/// Returns the places that the entry of a step may newly orphan. After the entry the processes depend on the places
/// `present` and are known to hold the determinants of the places `held`. A crash orphans no delivery.
pub fn suspect_places(
    step: &WalkStep<'_>,
    present: &[Places],
    held: &[Places],
    processes: u16,
) -> Places
    ensures { (j : ℕ) →
        IsSuspect step.now.entry.now step.now.newly step.now.mentioned present.now held.now processes j →
        set.contains result j ≡ true }
{
    match step.entry {
        Entry::Deliver { to, .. } => step.newly.minus(set_at(held, usize::from(to.0))),
        Entry::Restart { .. } => lacking_places(present, held, processes).minus(step.mentioned),
        Entry::Forget { .. } => forgotten_places(present, held, processes, step.mentioned),
        _ => Places::none(),
    }
}
