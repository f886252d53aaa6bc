//! Laws of events in lanes, for callers and for proofs of other crates.
ghost use Rattle.std.specs.Prelude.{◌≡◌, ℕ, ◌<◌, ◌≤◌, ◌↔◌, Bool, List, [], ◌∷◌, ◌++◌, length};
ghost use Rattle.causal_clock.specs.declared.Event.{Event};
ghost use Rattle.causal_clock.specs.Precedence.{Precedes, IsReachedThrough, FirstReach, IsReachTest, count_in_lane};

/// "Happened before or equals" is a partial order in which no event precedes an earlier one.
#[tactic(auto, using(crate::specs::Precedence::itself, crate::proofs::Chains::reaches_forward, crate::proofs::Chains::reaches_through))]
pub fn order_law()
    ensures itself { (events : List Event) (i : ℕ) → i < length events → Precedes events i i }
    ensures through { (events : List Event) (i j k : ℕ) → Precedes events i j → Precedes events j k →
        Precedes events i k }
    ensures forward { (events : List Event) (i j : ℕ) → Precedes events i j → i ≤ j }
{}

/// One more event changes nothing among the older ones. It is reached from itself, and from whatever reaches an event
/// of its lane or its send.
#[tactic(auto, using(crate::proofs::Chains::older, crate::proofs::Chains::newest))]
pub fn growth_law()
    ensures older { (events : List Event) (e : Event) (i j : ℕ) → j < length events →
        Precedes (events ++ e ∷ []) i j ↔ Precedes events i j }
    ensures newest { (events : List Event) (e : Event) (i : ℕ) →
        Precedes (events ++ e ∷ []) i (length events) ↔ IsReachedThrough events e i }
{}

/// The number that [`crate::Clocks::reach`] returns is unique and counts events.
///
/// `counted`: if exactly the first n events of a lane reach an event, n of the lane's events reach it. `unique`:
/// there is only one such n.
pub fn reach_law()
    ensures counted { (events : List Event) (j lane n : ℕ) (test : ℕ → Bool) →
        FirstReach events j lane n →
        IsReachTest events j test → count_in_lane events lane test ≡ n }
    ensures unique { (events : List Event) (j lane n m : ℕ) → FirstReach events j lane n →
        FirstReach events j lane m → n ≡ m }
{}
