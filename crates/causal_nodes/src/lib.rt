//! Nodes: processes that share no memory, over a network that loses, duplicates, reorders and delays packets.
//!
//! It is a theory without code. [`laws::nodes_are_safe`] is the theorem.
#![tactic(auto)]

/// Laws over the definitions.
pub mod laws;
