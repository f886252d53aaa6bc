//! Finds the first orphan of one delivery, from change to change, by vector clocks.

/// The clock of a run, with one event for each entry.
pub mod events;
/// The first instant at which a delivery has an orphan.
pub mod orphans;
