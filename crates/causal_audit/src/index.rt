//! Indexes of a run, built before any delivery is followed.

/// The crashes of each process, and its restarts.
pub mod by_process;
/// A cursor over a list of positions.
pub mod cursor;
/// The restarts by the number of processes that are down after them.
pub mod falls;
/// Numbered lists of positions.
pub mod lists;
/// The positions at which each determinant is mentioned.
pub mod mentions;
/// Lists of positions in one vector.
pub mod packed_lists;
/// The trace with its crashes and restarts, which give the down processes at an instant.
pub mod indexed_trace;
/// The positions of the deliveries.
pub mod positions;
/// The departures and the reached processes, by one pass.
pub mod effects;
/// The processes that the events of each process reach.
pub mod reachability;
/// The index of a run.
pub mod run_index;
/// The position from which no process is released.
pub mod releases;
/// When the effect of each entry first leaves its process.
pub mod departures;
/// The crashes and restarts, in order.
pub mod transitions;
