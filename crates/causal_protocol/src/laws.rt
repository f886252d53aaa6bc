//! Laws over the definitions. Each function has an empty body: its contract is the law.
ghost use Rattle.causal_protocol.specs.Runs.{StartSatisfiesInvariant, RequestsPreserveInvariant, RefusalsChangeNothing, RepliesMatchEntries, OfInvariantRuns, OfReachableRuns};
ghost use Rattle.causal_protocol.specs.Runs.{IsSafeRun, IsFollowedRun, HasSingleSlots, HasDeliveredSurvivors, StepsEstablish};
ghost use Rattle.causal_protocol.specs.Runs.{IsDeliveryRequest, IsCrash, IsRestartRequest, IsFlush, IsForgetting};
ghost use Rattle.causal_protocol.specs.Contributions.{HoldersAreContributed, MarksAreContributed};
ghost use Rattle.causal_protocol.specs.EntryLists.{DeliveryListsAreExact, RestartListsAreExact};
ghost use Rattle.causal_protocol.specs.Invariant.{FewAreDown, KnownHoldersAreTrue, CarriedHoldersAreTrue, MarksAreTrue, DependentsLog, MessagesCarry, ReceiversHaveSurvivors, SendersHaveCarried};

/// Each reachable run is safe at each of its instants for its bound f: no crash that f allows leaves an orphan. No
/// two surviving determinants fill one slot, and each surviving determinant is that of a delivery.
pub fn reachable_runs_are_safe()
    ensures safe { OfReachableRuns IsSafeRun }
    ensures single { OfReachableRuns HasSingleSlots }
    ensures delivered { OfReachableRuns HasDeliveredSurvivors }
{}

/// Each run that satisfies the invariant is safe at each of its instants; no two surviving determinants fill one
/// slot; each surviving determinant is that of a delivery.
pub fn invariant_implies_safe()
    ensures safe { OfInvariantRuns IsSafeRun }
    ensures single { OfInvariantRuns HasSingleSlots }
    ensures delivered { OfInvariantRuns HasDeliveredSurvivors }
{}

/// No run strays from what survives: at each of its instants no two different surviving determinants fill one slot.
#[tactic(auto, using(crate::proofs::Facts::followed, crate::proofs::StepKeeps::made_runs))]
pub fn runs_are_followed()
    ensures reachable { OfReachableRuns IsFollowedRun }
    ensures invariant { OfInvariantRuns IsFollowedRun }
{}

/// The initial state, in which all processes have begun, satisfies the invariant, and each legal step preserves it.
pub fn requests_preserve_invariant()
    ensures start { StartSatisfiesInvariant }
    ensures steps { RequestsPreserveInvariant }
{}

/// A refused call other than a flush leaves the run unchanged; each reply gives the number of entries that
/// its step appended.
pub fn replies_match_entries()
    ensures refused { RefusalsChangeNothing }
    ensures entries { RepliesMatchEntries }
{}

/// A delivery lists exactly its own determinant and what the message carries. A restart lists exactly what survives,
/// in the log of an up process or in stable storage.
#[tactic(auto, using(crate::proofs::Lemmas::LogMembers::own_have, crate::proofs::LearnedLogs::keys_have, crate::proofs::SoundSteps::gathered_survivors))]
pub fn entry_lists_are_exact()
    ensures delivery { DeliveryListsAreExact }
    ensures restart { OfInvariantRuns RestartListsAreExact }
{}

/// What an up process knows of holders and marks is exactly what its present lane (incarnation) contributed by its
/// deliveries, its restart and its flushes, since it last forgot the determinant.
#[tactic(auto, using(crate::proofs::Contributions::holders_are_contributed, crate::proofs::Contributions::marks_are_contributed))]
pub fn knowledge_is_contributed()
    ensures holders { HoldersAreContributed }
    ensures marks { MarksAreContributed }
{}

/// Each delivery, refused or not, preserves each of the eight facts of the invariant.
pub fn deliveries_preserve_invariant()
    ensures few { StepsEstablish IsDeliveryRequest FewAreDown }
    ensures holders { StepsEstablish IsDeliveryRequest KnownHoldersAreTrue }
    ensures named { StepsEstablish IsDeliveryRequest CarriedHoldersAreTrue }
    ensures marks { StepsEstablish IsDeliveryRequest MarksAreTrue }
    ensures dependents { StepsEstablish IsDeliveryRequest DependentsLog }
    ensures messages { StepsEstablish IsDeliveryRequest MessagesCarry }
    ensures receivers { StepsEstablish IsDeliveryRequest ReceiversHaveSurvivors }
    ensures senders { StepsEstablish IsDeliveryRequest SendersHaveCarried }
{}

/// Each crash, refused or not, preserves each of the eight facts of the invariant.
pub fn crashes_preserve_invariant()
    ensures few { StepsEstablish IsCrash FewAreDown }
    ensures holders { StepsEstablish IsCrash KnownHoldersAreTrue }
    ensures named { StepsEstablish IsCrash CarriedHoldersAreTrue }
    ensures marks { StepsEstablish IsCrash MarksAreTrue }
    ensures dependents { StepsEstablish IsCrash DependentsLog }
    ensures messages { StepsEstablish IsCrash MessagesCarry }
    ensures receivers { StepsEstablish IsCrash ReceiversHaveSurvivors }
    ensures senders { StepsEstablish IsCrash SendersHaveCarried }
{}

/// Each restart, refused or not, preserves each of the eight facts of the invariant.
pub fn restarts_preserve_invariant()
    ensures few { StepsEstablish IsRestartRequest FewAreDown }
    ensures holders { StepsEstablish IsRestartRequest KnownHoldersAreTrue }
    ensures named { StepsEstablish IsRestartRequest CarriedHoldersAreTrue }
    ensures marks { StepsEstablish IsRestartRequest MarksAreTrue }
    ensures dependents { StepsEstablish IsRestartRequest DependentsLog }
    ensures messages { StepsEstablish IsRestartRequest MessagesCarry }
    ensures receivers { StepsEstablish IsRestartRequest ReceiversHaveSurvivors }
    ensures senders { StepsEstablish IsRestartRequest SendersHaveCarried }
{}

/// Each flush, complete, partial or refused, preserves each of the eight facts of the invariant.
pub fn flushes_preserve_invariant()
    ensures few { StepsEstablish IsFlush FewAreDown }
    ensures holders { StepsEstablish IsFlush KnownHoldersAreTrue }
    ensures named { StepsEstablish IsFlush CarriedHoldersAreTrue }
    ensures marks { StepsEstablish IsFlush MarksAreTrue }
    ensures dependents { StepsEstablish IsFlush DependentsLog }
    ensures messages { StepsEstablish IsFlush MessagesCarry }
    ensures receivers { StepsEstablish IsFlush ReceiversHaveSurvivors }
    ensures senders { StepsEstablish IsFlush SendersHaveCarried }
{}

/// Each forgetting, refused or not, preserves each of the eight facts of the invariant.
pub fn forgets_preserve_invariant()
    ensures few { StepsEstablish IsForgetting FewAreDown }
    ensures holders { StepsEstablish IsForgetting KnownHoldersAreTrue }
    ensures named { StepsEstablish IsForgetting CarriedHoldersAreTrue }
    ensures marks { StepsEstablish IsForgetting MarksAreTrue }
    ensures dependents { StepsEstablish IsForgetting DependentsLog }
    ensures messages { StepsEstablish IsForgetting MessagesCarry }
    ensures receivers { StepsEstablish IsForgetting ReceiversHaveSurvivors }
    ensures senders { StepsEstablish IsForgetting SendersHaveCarried }
{}
