//! That the calls of a node are steps of the theory of nodes, and so each system of processes that make only these calls
//! is safe.
//!
//! It is a theory without code. [`laws::systems_are_safe`] is the theorem.
#![tactic(auto)]

/// Laws over the definitions.
pub mod laws;
