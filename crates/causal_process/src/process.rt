//! The interface of a process.
ghost use Rattle.std.specs.Prelude.{◌≡◌, ◌∷◌, List, IfOk, OnErr};
ghost use Rattle.causal_process.specs.declared.message.Input.{Input};
ghost use Rattle.causal_process.specs.declared.message.Outgoing.{Outgoing};
ghost use Rattle.causal_process.specs.Laws.{AnswersEach, AnswersInOrder};
ghost use Rattle.causal_process.specs.Limits.{IsWithinLimits};

use crate::message::{Input, Outgoing};
use causal_name::NoMemory;
use std::alloc::Global;

/// A process whose sends are a function of its initial state and of the inputs so far (piecewise determinism: Elnozahy,
/// Alvisi, Wang, Johnson 2002). The crate's documentation lists what an implementation must guarantee.
pub trait Process: Drop {
    /// Returns, for each input of a list, what the process sends to it if it is given that list next.
    ghost answers: { Self → List Input → List (List Outgoing) };

    /// Gives the process its next input and returns what it sends: at most eight messages of at most 1,024 bytes each.
    ///
    /// # Errors
    ///
    /// `NoMemory` if allocation failed. Later answers are then those of a process that was not given the input, so the
    /// caller may give the same input again.
    fn step(&mut self, alloc: Global, input: &Input) -> Result<Vec<Outgoing>, NoMemory>
        // The sends are the first answer; later answers are those that would have followed this input.
        ensures ok { IfOk result (λ sends. (inputs : List Input) →
            answers self.old (input.now ∷ inputs) ≡ sends.items ∷ answers self.new inputs) }
        ensures limits { IfOk result (λ sends. IsWithinLimits sends.items) }
        ensures err { OnErr result ((inputs : List Input) →
            answers self.new inputs ≡ answers self.old inputs) };

    /// There is one list of sends for each input.
    ghost each: { AnswersEach answers };

    /// The answers to a prefix of a list of inputs are a prefix of the answers to the list.
    ghost in_order: { AnswersInOrder answers };
}
