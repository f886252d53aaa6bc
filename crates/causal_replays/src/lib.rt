//! Whether the recoveries of a recorded run follow what survives. A determinant survives if it is stable or in the log
//! of a process. If two different ones fill one slot, a process has delivered another message than a survivor names.
//! Start at [`first_stray`](crate::replays::first_stray).
#![tactic(auto)]

/// The copies of all determinants, entry by entry.
mod copies;
/// The processes that hold each determinant, by number.
mod holdings;
/// The first instant at which a run strays from what survives.
pub mod replays;
/// Slots that different determinants with copies fill.
mod rivals;
/// The first deliveries of determinants with copies that fill a slot.
mod search;
/// One number for each slot.
mod slots;

pub use causal_facts::Stray;
pub use replays::first_stray;
