//! A core behind one lock, with a history of its calls that stays legal.
//!
//! Begin at [`Shared`]. `Shared::open` places a core behind the lock and returns one [`Seat`] for each caller; a seat
//! makes the core's calls from any thread. `snapshot` copies the trace between calls. [`finish`] compares the history
//! with each seat's own list and returns the core with the history.
#![tactic(auto)]

/// The checks of `finish`.
mod checks;
/// The errors of calls and of `finish`.
pub mod fault;
/// History items: the request and the reply of one call.
pub mod item;
/// The limits of a shared runtime.
pub mod limits;
/// The value under the lock.
pub mod locked;
/// The error of a restart, which contains the spare.
pub mod refused;
/// The item replies for results.
mod replies;
/// Equality of items and entries.
mod same;
/// A caller's seat, with its own list of its calls.
pub mod seat;
/// The core that several threads share.
pub mod shared;
/// The calls about one process that return a number.
mod counting_call;

pub use causal_protocol::request::{CoreFault, Delivered, FlushFault, Reply, Request, Restarted};
pub use fault::{FinishFault, LockedFault, SharedFault};
pub use item::{Item, Items, Snapshot};
pub use locked::Locked;
pub use refused::{LockedRefused, SharedRefused};
pub use seat::Seat;
pub use shared::{Finished, Shared, finish};
