//! One process of a run as a static library, for C and for languages that call C: a proved [`Endpoint`] behind a handle.
//!
//! Each exported function is declared in nixu.h, with the same contract in C's terms. No function has static state,
//! prints, aborts, starts a thread, reads a clock or waits; none keeps a pointer from its arguments.
//!
//! Begin at [`opening::nixu_node_open`].
//!
//! [`Endpoint`]: causal_endpoint::endpoint::Endpoint
#![tactic(auto)]

/// Acknowledgements.
pub mod acknowledging;
/// Identities, and what calls return, in C's layout.
pub mod c_node;
/// Handles and what they own.
pub mod handle;
/// The state of a node.
pub mod inspection;
/// What the last call has kept.
pub mod keeping;
/// The lines of the recording.
pub mod lines;
/// An open node.
pub mod open_node;
/// Opening and closing.
pub mod opening;
/// Receiving of parcels.
pub mod receiving;
/// Recovery.
pub mod recovery;
/// The numbers and sentences of refusals.
pub mod refusals;
/// Sending of messages.
pub mod sending;
/// Stable storage.
pub mod storing;
