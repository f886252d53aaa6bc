//! That the calls of an endpoint are calls of its node, and so each system of endpoints that exchange bytes is safe.
//!
//! It is a theory without code. [`laws::endpoint_systems_are_safe`] is the theorem.
#![tactic(auto)]

/// Laws over the definitions.
pub mod laws;
