//! The check whether a delivery of a group has an orphan at one instant.
ghost use Rattle.std.specs.Prelude.{◌≡◌, ◌<◌, ◌≤◌, ◌+◌, ℕ, length};
ghost use Rattle.std.specs.FinSet as set;
ghost use Rattle.std.specs.List.{All};
ghost use Rattle.causal_audit.specs.Inside.Among.{EarliestAmongBy};
ghost use Rattle.causal_audit.specs.Inside.Group.OpenDeliveries.{IsOpenDelivery, positions_of};
ghost use Rattle.causal_audit.specs.Inside.Group.Walk.{AreStillOpen, HaveNoOrphans, IsWalkState, IsWalkStep, IsBreachOfPlace, row};

use crate::breach::{Breach, earlier_breach};
use crate::delivery_state::{DeliveryState, breach_at};
use crate::group::Places;
use crate::group::buffers::WalkBuffers;
use crate::group::suspects::{WalkStep, intersection, suspect_places};
use crate::group::walk_input::OpenDelivery;
use causal_holders::Holders;
use causal_trace::trace::Trace;

/// Returns the processes that depend on the delivery of a place.
#[tactic(auto, using(causal_holders::proofs::Lemmas::Sets::inserted, crate::proofs::Rules::of_rows))]
fn dependents_of(present: &[Places], place: u8) -> Holders
    requires { length present.now ≤ 256 }
    ensures { (p : ℕ) → set.contains result p ≡ set.contains (row present.now p) place }
{
    let mut dependents = Holders::none();
    for (p, places) in present.iter().enumerate() {
        if places.contains(place) {
            dependents.insert(p as u8);
        }
    }
    dependents
}

/// Returns the breach at the instant t of the delivery of a place, whose position is k; `None` if it has no orphan
/// then.
fn check_place(buffers: &WalkBuffers, f: u16, k: u32, place: u8, t: u32) -> Option<Breach>
    requires copies { length buffers.now.copies.items ≡ 256 }
    requires present { length buffers.now.reach.present.items ≡ 256 }
    ensures { IsBreachOfPlace buffers.now f k place t result }
{
    let copies = buffers.copies[usize::from(place)];
    if copies.stable {
        return None;
    }
    let gone = buffers.down.union(copies.holders);
    if gone.len() > u32::from(f) {
        return None;
    }
    let state = DeliveryState {
        down: buffers.down,
        holders: copies.holders,
        stable: copies.stable,
        dependents: dependents_of(&buffers.reach.present, place),
    };
    breach_at(&state, f, k, t)
}

/// Returns the breach of a group after the entry of a step: that of the lowest position; `None` if no delivery has an
/// orphan. Only deliveries that are still open and that the entry may newly orphan are checked. A delivery that has
/// closed is removed from the open ones.
#[tactic(auto, using(crate::proofs::group::GroupReach::fewer, crate::proofs::group::GroupWalk::judged_none))]
pub fn check_step(
    buffers: &WalkBuffers,
    trace: &Trace,
    f: u16,
    candidates: &[OpenDelivery],
    step: &WalkStep<'_>,
    unresolved: &mut Places,
) -> Option<Breach>
    requires candidates { All (IsOpenDelivery trace.now.recording f
        (step.now.t + 1)) candidates.now }
    requires unresolved { AreStillOpen candidates.now step.now.t unresolved.old }
    requires copies { length buffers.now.copies.items ≡ 256 }
    requires present { length buffers.now.reach.present.items ≡ 256 }
    requires step { IsWalkStep trace.now.recording candidates.now step.now }
    requires followed { IsWalkState
        trace.now.recording candidates.now buffers.now.reach.start (step.now.t + 1) buffers.now }
    requires none { HaveNoOrphans trace.now.recording f candidates.now step.now.t }
    ensures unresolved { AreStillOpen candidates.now (step.now.t + 1) unresolved.new }
    ensures followed { IsWalkState
        trace.now.recording candidates.now buffers.now.reach.start (step.now.t + 1) buffers.now }
    ensures found { EarliestAmongBy
        trace.now.recording f (step.now.t + 1) (positions_of candidates.now) result }
{
    let places = suspect_places(
        step,
        &buffers.reach.present,
        &buffers.held_places,
        trace.processes(),
    );
    let mut least = None;
    let mut rest = intersection(*unresolved, places);
    while let Some(place) = rest.least() {
        rest.remove(place);
        let delivery = candidates[usize::from(place)];
        if delivery.until <= step.t + 1 {
            unresolved.remove(place);
        } else {
            let found = check_place(buffers, f, delivery.position, place, step.t + 1);
            least = earlier_breach(least, found);
        }
    }
    least
}
