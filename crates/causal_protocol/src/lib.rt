//! The protocol of a causal message logging runtime: which entry may come next, what each process then knows, and
//! that no crash of at most f processes leaves an orphan.
//!
//! The crate is a theory with little code. Begin at `specs/Steps.antt` for what one call may do;
//! [`laws::reachable_runs_are_safe`] is the theorem. [`request`] has the requests, replies and faults of a runtime.
#![tactic(auto)]

/// Laws over the definitions.
pub mod laws;
/// Limits on the length of a core's run.
pub mod limits;
/// Requests to the runtime, and their replies.
pub mod request;
