//! Explains the verdict on a recorded run: who holds the determinant and who lost it, who is down, and by which events
//! an orphan comes to depend on the delivery. Start at [`Explanation`]; for an accepted run, at [`Closest`].
#![tactic(auto)]

/// The entry by which the instant of a verdict fails, and what it does.
pub mod cause;
/// Shortest chains of events to a process.
pub mod chain;
/// The delivery of a run closest to failing, as the bound f grows.
pub mod closest;
/// Which processes are down at an instant, and since when.
pub mod down_processes;
/// How a delivery comes to have an orphan.
pub mod breach_explanation;
/// The value that explains how a delivery comes to have an orphan.
pub mod explanation;
/// Which volatile logs contain a determinant at an instant and since when, and which lost it.
pub mod holdings;
/// Marks of the events of a kind, by the logs that contain a determinant.
mod marks;
/// The deliveries after which the receiver's log lacks a determinant.
mod missing_det;
/// The bounds f for which a run is safe.
pub mod range;
/// The first delivery by which a determinant that was in transit at an instant arrives.
mod underway;
/// Whether a fact holds of each process and since when, updated entry by entry.
mod validity;
/// Shortest paths from an event to the others; each step goes from an event to one that it directly precedes.
mod paths;

pub use breach_explanation::explain;
pub use causal_facts::{Cause, DownProcess, Holding, Loss, LostBy};
pub use cause::cause_of;
pub use chain::shortest_chain;
pub use closest::{Closest, closest_failure};
pub use down_processes::down_since;
pub use explanation::Explanation;
pub use holdings::{HolderHistory, holder_history};
pub use range::{SafeRange, safe_range};
