//! One process of a run, over the bytes of parcels: an embedder moves bytes, and writes what a call returns into the
//! recording before anything leaves.
#![tactic(auto)]

/// Sending of acknowledgements.
pub mod acknowledging;
/// A process of a run, over the bytes of parcels.
pub mod endpoint;
/// Why an endpoint refuses a call.
pub mod fault;
/// Forgetting of what is known to be stable.
pub mod forgetting;
/// Items and log entries, in a log and in a parcel.
mod items;
/// The lines of a recording.
pub mod lines;
/// Receiving of parcels.
pub mod receiving;
/// Recovery: rounds, what storage has, and the restart.
pub mod recovery;
/// Sending of kept messages again.
pub mod resending;
/// Sending of messages.
pub mod sending;
