//! The wire format: the bytes of the parcels that processes of causal message logging send each other.
//!
//! A [`Parcel`] is a message with the determinants that it carries (Alvisi and Marzullo, "Message Logging: Pessimistic,
//! Optimistic, Causal, and Optimal", IEEE TSE 24(2), 1998), an acknowledgement, or a part of a recovery. [`write`]
//! returns the one sequence of bytes of a parcel, [`read`] the parcel of such bytes, or the first error from left to
//! right.
#![tactic(auto)]

/// Why bytes are refused.
mod fault;
/// Reading of single fields.
mod fields;
/// Laws of parcels.
pub mod laws;
/// Reading of holders, items and lists.
mod lists;
/// What processes send each other.
mod parcel;
/// Reading of whole parcels.
mod reading;
/// Writing of parcels.
mod writing;

pub use fault::{ParcelFault, WireFault};
pub use parcel::{Content, Head, LogEntry, Parcel, ParcelItem, RunId};
pub use reading::read;
pub use writing::{write, write_message};
