//! The audit of recorded runs: is each delivery's determinant safe from f crashes at every instant?
//!
//! [`verdict_of`] returns the verdict on a trace for f. A caller that divides the work among threads calls the steps:
//! [`first_excess_in`] returns the first instant with too many processes down, and [`index_early`] an instant beyond
//! which nothing decides. [`PreparedRun::of`] finds the deliveries that must be followed up to there, [`Part::earliest_breach`]
//! follows a part of them, and [`decide_verdict`] combines the results into the verdict. [`Tables`] and [`check_step`] return the
//! same verdict by vector clocks, [`verdict_line`] prints it, and [`laws`] states the facts behind the audit.
#![tactic(auto)]

// Public interface.

/// The audit on the calling thread.
pub mod audit;
/// The breaches and excesses of a run.
pub mod breach;
/// The first instant with too many processes down.
pub mod excess;
/// The verdict by vector clocks.
pub mod clock_audit;
/// The parts of the index of a run.
pub mod index_parts;
/// A run indexed for its audit, and the search for the deliveries that must be followed.
pub mod indexed_run;
/// A verdict with the counts of its trace.
pub mod judged;
/// The laws behind the audit.
pub mod laws;
/// The printed line of a verdict.
pub mod line;
/// A run prepared for its audit, and parts of its deliveries.
pub mod prepared_run;
/// A run with its vector clocks.
pub mod tables;
/// The verdict on a run.
pub mod verdict;

// Implementation.

/// The first orphan of one delivery, by vector clocks.
mod by_clock;
/// The walk over the entries for a group of deliveries.
mod group;
/// The holders of a determinant after one more entry.
mod holders;
/// Indexes of a run, built before any delivery is followed.
mod index;
/// The scan of one determinant, and the deliveries that may have an orphan.
mod safety_scan;
/// The state of one delivery at an instant.
mod delivery_state;

pub use audit::{earliest_breach, index_early, verdict_of};
pub use breach::{Breach, Excess, earlier_breach};
pub use clock_audit::{decide_verdict, first_breach, first_excess, judge};
pub use excess::{first_excess_in, last_deciding_instant};
pub use index_parts::{EffectIndex, PrefixIndex, TransitionIndex};
pub use indexed_run::{IndexedRun, OpenDeliveries};
pub use judged::Judged;
pub use line::verdict_line;
pub use prepared_run::{Part, PreparedRun};
pub use tables::Tables;
pub use verdict::Verdict;
