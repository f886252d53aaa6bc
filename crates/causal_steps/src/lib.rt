//! The legal steps of causal message logging, so weak that a runtime in one program makes them, and so do processes that share nothing.
//!
//! It is a theory without code. Begin at `specs/Steps.antt` for what a step may do; [`laws::reachable_states_are_safe`] is the theorem.
#![tactic(auto)]

/// Laws over the definitions.
pub mod laws;
