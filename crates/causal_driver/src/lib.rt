//! A driver of a runtime: from a seed it delivers what is pending, crashes, restarts, flushes and forgets, until nothing
//! is left to deliver.
//!
//! Start at [`drive`], which makes the calls of a [`Schedule`] on a core and returns them, with their replies.
#![tactic(auto)]

/// The driver.
mod driver;
/// What may be requested next.
mod options;
/// Schedules, and what driving returns.
mod schedule;

pub use driver::drive;
pub use schedule::{Call, Driven, End, Schedule};
