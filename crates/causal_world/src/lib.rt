//! Processes that share nothing make the legal steps of causal message logging, also while several recover at once.
#![tactic(auto)]

/// Laws over the definitions.
pub mod laws;
