//! The state of one delivery at an instant, and how one more entry changes it. An orphan is found by counting: no crash
//! set is enumerated.
ghost use Rattle.std.specs.Prelude.{◌≡◌};
ghost use Rattle.std.specs.FinSet as set;
ghost use Rattle.causal_audit.specs.Inside.DeliveryStates.{FindsLeastOrphan, IsBreachForState, IsStateAfter, IsInitialState, ShowsDependentsAfter, ShowsDownAfter, ShowsStableAfter};

use crate::breach::Breach;
use crate::holders::holders_after;
use causal_holders::Holders;
use causal_trace::entry::Entry;

/// The state of one delivery at an instant: the down processes, the holders of its determinant, whether that is stable,
/// and the processes that depend on the delivery.
#[derive(Clone, Copy)]
pub struct DeliveryState {
    pub down: Holders,
    pub holders: Holders,
    pub stable: bool,
    pub dependents: Holders,
}

/// A crash set, and an orphan under it.
#[derive(Clone, Copy)]
pub struct CrashSetAndOrphan {
    pub crash: Holders,
    pub orphan: u8,
}

/// Returns the set with one more member.
pub fn with_member(mut members: Holders, p: u8) -> Holders
    ensures { result ≡ set.insert members p }
{
    members.insert(p);
    members
}

/// Returns the set without one member.
pub fn without_member(mut members: Holders, p: u8) -> Holders
    ensures { result ≡ set.remove members p }
{
    members.remove(p);
    members
}

/// Returns the processes that are down after one more entry.
#[tactic(auto, using(crate::proofs::Shown::shows_with, crate::proofs::Shown::shows_without))]
pub fn down_after(down: Holders, entry: &Entry) -> Holders
    ensures { ShowsDownAfter entry.now down result }
{
    match entry {
        Entry::Crash { who } => with_member(down, who.0),
        Entry::Restart { who, .. } => without_member(down, who.0),
        Entry::Send { .. } => down,
        Entry::Deliver { .. } => down,
        Entry::Stable { .. } => down,
        Entry::Forget { .. } => down,
    }
}

/// Returns whether a determinant is stable after one more entry. `mentioned`: the entry mentions it.
pub fn stable_after(stable: bool, entry: &Entry, mentioned: bool) -> bool
    ensures { ShowsStableAfter entry.now mentioned stable result }
{
    match entry {
        Entry::Stable { .. } => mentioned || stable,
        _ => stable,
    }
}

/// Returns the processes that depend on the delivery after one more entry. `reached`: the delivery reaches the entry.
/// An event that is reached adds its process; a crash or restart removes its process.
fn dependents_after(dependents: Holders, entry: &Entry, reached: bool) -> Holders
    ensures { ShowsDependentsAfter entry.now reached dependents result }
{
    match entry {
        Entry::Send { from, .. } => {
            if reached {
                with_member(dependents, from.0)
            } else {
                dependents
            }
        }
        Entry::Deliver { to, .. } => {
            if reached {
                with_member(dependents, to.0)
            } else {
                dependents
            }
        }
        Entry::Crash { who } => without_member(dependents, who.0),
        Entry::Restart { who, .. } => without_member(dependents, who.0),
        Entry::Stable { .. } => dependents,
        Entry::Forget { .. } => dependents,
    }
}

impl DeliveryState {
    /// Returns the state of a delivery before anything depends on it or holds its determinant. `down` are the down
    /// processes.
    pub fn begin(down: Holders) -> DeliveryState
        ensures { IsInitialState down result }
    {
        DeliveryState {
            down,
            holders: Holders::none(),
            stable: false,
            dependents: Holders::none(),
        }
    }

    /// Updates the state by one more entry. `mentioned`: the entry mentions the determinant. `reached`: the delivery
    /// reaches the entry.
    pub fn apply_entry(&mut self, entry: &Entry, mentioned: bool, reached: bool)
        ensures { IsStateAfter entry.now mentioned reached self.old self.new }
    {
        *self = DeliveryState {
            down: down_after(self.down, entry),
            holders: holders_after(self.holders, entry, mentioned),
            stable: stable_after(self.stable, entry, mentioned),
            dependents: dependents_after(self.dependents, entry, reached),
        };
    }

    /// Returns the smallest crash set that gives the delivery an orphan, and the least orphan under it. There is an
    /// orphan exactly if the determinant is not stable, at most f processes are down or hold it, and some dependent
    /// does not hold it. No crash set is enumerated.
    pub fn find_orphan(self, f: u16) -> Option<CrashSetAndOrphan>
        ensures { FindsLeastOrphan f self result }
    {
        if self.stable {
            return None;
        }
        let Some(orphan) = self.dependents.minus(self.holders).least() else {
            return None;
        };
        let crash = self.down.union(self.holders);
        if crash.len() > u32::from(f) {
            return None;
        }
        Some(CrashSetAndOrphan { crash, orphan })
    }
}

/// Returns the breach of the delivery at position k at the instant t; `None` if it has no orphan then, as before it
/// happens.
pub fn breach_at(state: &DeliveryState, f: u16, k: u32, t: u32) -> Option<Breach>
    ensures { IsBreachForState f k t state.now result }
{
    if t <= k {
        return None;
    }
    let found = state.find_orphan(f)?;
    Some(Breach {
        instant: t,
        delivery: k,
        crash: found.crash,
        orphan: found.orphan,
    })
}
