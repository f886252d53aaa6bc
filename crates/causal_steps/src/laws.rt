//! Laws over the definitions. Each function does nothing: what it ensures is the law.
ghost use Rattle.causal_steps.specs.Steps.{EachStepPreserves};
ghost use Rattle.causal_steps.specs.Reachable.{ReachableAreFollowed, ReachableAreSafe, ReachableShareNoSlot, ReachableSurvivorsAreDelivered};

/// Each legal step preserves the invariant.
#[tactic(auto, using(crate::proofs::StepPreserves::step_preserves))]
pub fn steps_preserve_invariant()
    ensures preserved { EachStepPreserves }
{}

/// Each state that legal steps reach is safe at each of its instants for its number of failures. No two determinants that survive in it
/// share a slot, and each of them is that of a delivery.
#[tactic(auto, using(crate::proofs::Lemmas::Reachable::reachable_safe))]
pub fn reachable_states_are_safe()
    ensures safe { ReachableAreSafe }
    ensures single { ReachableShareNoSlot }
    ensures delivered { ReachableSurvivorsAreDelivered }
{}

/// In each state that legal steps reach, at each of its instants, no two different determinants that are stable or
/// logged share a slot: a recovery delivers what the survivors say.
#[tactic(auto, using(crate::proofs::Lemmas::Followed::reachable_followed))]
pub fn reachable_states_are_followed()
    ensures { ReachableAreFollowed }
{}
