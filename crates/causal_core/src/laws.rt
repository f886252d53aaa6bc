//! Laws over the definitions. Each function has an empty body; its `ensures` clause is the law.
ghost use Rattle.causal_core.specs.Pendings.{PendingIsExact};

/// The messages pending for an up process are exactly those that a delivery to it finds available and not yet
/// delivered.
#[tactic(auto, using(crate::proofs::Members::pending_are_these))]
pub fn pending_is_exact()
    ensures { PendingIsExact }
{}
