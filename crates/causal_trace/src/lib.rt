//! Traces: recorded runs of processes that send, deliver, log, crash and restart. `Trace::push` appends an `Entry`,
//! or returns a `TraceFault` that names the first violated precondition.
#![tactic(auto)]

/// Chains of the deliveries of each message.
mod chains;
/// Entries and lists of determinants.
pub mod entry;
/// Errors of entries and traces.
pub mod fault;
/// The present lane of each process.
mod lanes;
/// Laws: other forms of the definitions, and bounds on all numbers.
pub mod laws;
/// The limits of a trace.
pub mod limits;
/// Linear scans of the entries.
mod scans;
/// The deliveries in the order of their determinants.
mod sorted_deliveries;
/// The trace, `push` and the queries.
pub mod trace;

pub use entry::{Dets, Entry};
pub use fault::{RefusedEntry, TraceFault};
pub use trace::Trace;
