//! Laws about the audit of recorded runs. Each function does nothing: its contract is the law.
ghost use Rattle.causal_audit.specs.HeldOutside.{SafeIffHeld};
ghost use Rattle.causal_audit.specs.NoRelease.{OrphansEnd};
ghost use Rattle.causal_audit.specs.Quiet.{InstantsAgree, OrphansAgree};
ghost use Rattle.causal_audit.specs.Covered.{LocalHasNoOtherDependents, CoveredHasNoOrphan, CrashedHasNoDependents};
ghost use Rattle.causal_audit.specs.NewOrphans.{NewOrphansLaw, OneNewOrphan};
ghost use Rattle.causal_audit.specs.Laws.{OrphansByCounting, CrashSetsContain, DownOrHoldingIsCrashSet, NoOrphansCondition, VerdictIsUnique, PrefixBreachIsFinal};

/// States safety by who holds the determinants. An instant is safe exactly if at most f processes are down and the
/// following holds. For each crash set and each delivery on which a process outside it depends, the determinant is in
/// stable storage or in the log of a process outside it. (Safety itself is defined by the absence of orphans.)
pub fn safe_iff_held()
    ensures { SafeIffHeld }
{}

/// States that orphans can be found by counting, without enumerating crash sets. A delivery has an orphan under some
/// crash set exactly if three conditions hold. Its determinant is not stable, at most f processes are down or hold it,
/// and some dependent does not hold it. These processes are then the smallest crash set that gives an orphan, and its
/// orphans are the dependents that do not hold the determinant. (Orphans are those of Elnozahy, Alvisi, Wang and
/// Johnson 2002; the bound f is this project's.)
#[tactic(auto, using(crate::proofs::Lemmas::OrphansByCounts::contained, crate::proofs::Lemmas::OrphansByCounts::gone_is))]
pub fn orphans_by_counting()
    ensures counted { OrphansByCounting }
    ensures contained { CrashSetsContain }
    ensures least { DownOrHoldingIsCrashSet }
{}

/// States safety for f at least the number of processes. An instant is then safe exactly if the always-no-orphans
/// condition of Elnozahy, Alvisi, Wang and Johnson (2002) holds over the processes that are up. That is, the
/// determinant of each delivery is stable, or every process that depends on the delivery has it in its log.
pub fn no_orphans_condition()
    ensures { NoOrphansCondition }
{}

/// States that a recorded run has exactly one verdict for f: the first unsafe instant, the delivery, the crash set and
/// the orphan are unique.
#[tactic(auto, using(crate::proofs::Lemmas::OneVerdict::one_verdict))]
pub fn verdict_is_unique()
    ensures { VerdictIsUnique }
{}

/// States that a verdict on a prefix of a run, if it does not accept, is the verdict on the whole run.
#[tactic(auto, using(crate::proofs::Lemmas::Beginnings::beginnings_decide))]
pub fn prefix_breach_is_final()
    ensures { PrefixBreachIsFinal }
{}

/// States when a delivery has no orphan from an instant on. Its determinant is stable, or more than f processes are
/// down or hold it and no later entry restarts a process or forgets.
pub fn orphans_end()
    ensures { OrphansEnd }
{}

/// States that the instants between two changes agree. It requires that no entry in between crashes or restarts a
/// process, mentions the delivery's determinant, or adds a dependent. Then the state of the delivery is the same at
/// both instants, and after the delivery it has an orphan at both or at neither.
pub fn instants_agree()
    ensures agree { InstantsAgree }
    ensures orphans { OrphansAgree }
{}

/// States which deliveries one more entry may newly orphan. A delivery entry: those on which its receiver newly
/// depends, and the receiver is then their only orphan. A restart: those whose determinants it does not list. A
/// forgetting: those whose determinants it lists.
pub fn new_orphans_law()
    ensures newly { NewOrphansLaw }
    ensures receiver { OneNewOrphan }
{}

/// States when a delivery that has not left its receiver has no orphan. It has not left until a message that the
/// receiver's lane sends from then on is delivered; until then only the receiver depends on it. It has no orphan while
/// the receiver is down or holds its determinant, or more than f processes are down or hold it. Nor has it one after
/// its receiver crashes, even if that is up again: no process depends on it then.
pub fn covered_deliveries_are_safe()
    ensures only_receiver { LocalHasNoOtherDependents }
    ensures covered { CoveredHasNoOrphan }
    ensures crashed { CrashedHasNoDependents }
{}
