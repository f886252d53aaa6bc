//! Whether a fact holds of each process and since when, updated entry by entry.
ghost use Rattle.std.specs.Prelude.{◌≡◌, ◌∷◌, ◌&&◌, ℕ, Bool, true, false, not, List, MatchOption, length};
ghost use Rattle.causal_trace.specs.declared.entry.Entry.{Entry};
ghost use Rattle.causal_explain.specs.Inside.Validities.{AreValidities, IsLastSpan, IsValidity, IsChangeOf};
ghost use Rattle.causal_explain.specs.ProcessFacts.{HoldsSince, ever_holds};

/// The time that a fact held: the position of the entry by which it began, and of the one by which it ended.
#[derive(Clone, Copy)]
pub struct Span {
    pub from: u32,
    pub to: u32,
}

/// Whether a fact holds of a process, and since the entry at which position.
#[derive(Clone, Copy)]
pub enum Validity {
    /// It never held.
    Never,
    /// It holds.
    Holds { since: u32 },
    /// It held before, last in this span, and does not hold.
    Ended { span: Span },
}

/// How an entry changes a fact: not at all, or it begins or ends for a process.
#[derive(Clone, Copy)]
pub enum Change {
    Nothing,
    Begins { process: u8 },
    Ends { process: u8 },
}

impl Validity {
    /// Returns the value after the entry at position i, if the fact then holds.
    fn begin_at(self, i: u32) -> Validity
        ensures { (test : List Entry → Bool) (e : Entry) (past : List Entry) → length past ≡ i →
            test (e ∷ past) ≡ true → IsValidity past test self → IsValidity (e ∷ past) test result }
    {
        match self {
            Validity::Never => Validity::Holds { since: i },
            Validity::Holds { since } => Validity::Holds { since },
            Validity::Ended { .. } => Validity::Holds { since: i },
        }
    }

    /// Returns the value after the entry at position i, if the fact then does not hold.
    fn end_at(self, i: u32) -> Validity
        ensures { (test : List Entry → Bool) (e : Entry) (past : List Entry) → length past ≡ i →
            test (e ∷ past) ≡ false → IsValidity past test self →
            IsValidity (e ∷ past) test result }
    {
        match self {
            Validity::Never => Validity::Never,
            Validity::Holds { since } => Validity::Ended {
                span: Span { from: since, to: i },
            },
            Validity::Ended { span } => Validity::Ended { span },
        }
    }

    /// Returns since when the fact holds; None if it does not hold.
    #[tactic(auto, using(crate::proofs::StandingLemmas::fails_now))]
    pub fn holds_since(self) -> Option<u32>
        ensures { (past : List Entry) (test : List Entry → Bool) → IsValidity past test self →
            MatchOption result (test past ≡ false) (HoldsSince past test) }
    {
        match self {
            Validity::Never => None,
            Validity::Holds { since } => Some(since),
            Validity::Ended { .. } => None,
        }
    }

    /// Returns when the fact last held, if it does not hold any more; None if it holds or never held.
    pub fn last_span(self) -> Option<Span>
        ensures { (past : List Entry) (test : List Entry → Bool) → IsValidity past test self →
            MatchOption result ((ever_holds test past && not (test past))
            ≡ false) (IsLastSpan past test) }
    {
        match self {
            Validity::Never => None,
            Validity::Holds { .. } => None,
            Validity::Ended { span } => Some(span),
        }
    }
}

/// Applies the change by the entry at position i.
pub fn apply_change(standings: &mut [Validity], change: Change, i: u32)
    requires { length standings.old ≡ 256 }
    ensures { (test : ℕ → List Entry → Bool) (e : Entry) (past : List Entry) → length past ≡ i →
        IsChangeOf test e change → AreValidities past test standings.old →
        AreValidities (e ∷ past) test standings.new }
{
    match change {
        Change::Nothing => {}
        Change::Begins { process } => {
            let p = process as usize;
            standings[p] = standings[p].begin_at(i);
        }
        Change::Ends { process } => {
            let p = process as usize;
            standings[p] = standings[p].end_at(i);
        }
    }
}
