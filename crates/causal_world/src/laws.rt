//! Laws over the definitions. Each function has an empty body: its contract is the law.
ghost use Rattle.causal_world.specs.Invariant.{WorldStepsPreserve};
ghost use Rattle.causal_world.specs.Reachable.{WorldsAreSafe, WorldsShareNoSlot, RecoveriesAreReachable};

/// Each step of a process preserves the invariant of the world.
pub fn world_steps_preserve()
    ensures preserved { WorldStepsPreserve }
{}

/// Each world that processes reach which share nothing is safe at each instant of its recording, for its bound f. No two
/// determinants that survive in it share a slot, in transit or in a log.
pub fn worlds_are_safe()
    ensures safe { WorldsAreSafe }
    ensures single { WorldsShareNoSlot }
{}

/// A world is reachable in which a process has crashed and come up again.
pub fn recoveries_are_reachable()
    ensures reachable { RecoveriesAreReachable }
{}
