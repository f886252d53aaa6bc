//! Who has replied to whom, and what a round has gathered, while several processes recover at once and the others go on.
//!
//! It is a theory without code. [`laws::restarts_miss_nothing`] is the theorem.
#![tactic(auto)]

/// Laws over the definitions.
pub mod laws;
