//! Laws over the definitions. Each function does nothing: what it ensures is the law.
ghost use Rattle.causal_rounds.specs.Rounds.{RoundStepsPreserve};
ghost use Rattle.causal_rounds.specs.Gathered.{DetStepsPreserve};
ghost use Rattle.causal_rounds.specs.Acceptance.{AcceptanceNeedsSending, RestartsMissNothing};

/// Each step preserves the invariant of the rounds: who has replied to whom.
pub fn round_steps_preserve()
    ensures preserved { RoundStepsPreserve }
{}

/// Each step preserves the invariant of one determinant: what the rounds have gathered of it.
pub fn det_steps_preserve()
    ensures preserved { DetStepsPreserve }
{}

/// Nothing becomes acceptable but by being sent.
pub fn acceptance_needs_sending()
    ensures sent { AcceptanceNeedsSending }
{}

/// A restart has gathered what it has to recover, unless that is stable, if any process logs it or anything acceptable carries it.
pub fn restarts_miss_nothing()
    ensures gathered { RestartsMissNothing }
{}
