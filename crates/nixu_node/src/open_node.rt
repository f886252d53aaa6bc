//! An open node, with what its last call has kept for its caller.
use causal_endpoint::endpoint::Endpoint;
use causal_endpoint::forgetting::Forgotten;
use causal_endpoint::receiving::Received;
use causal_endpoint::recovery::RestartRecord;
use causal_endpoint::sending::SendRecord;
use causal_name::{Det, Pid};

/// What the last call that changed a node has kept: from it the line of the recording, the parcel, the body and the
/// list are written, as often as is needed.
#[derive(Drop)]
pub enum Kept {
    /// There is nothing to write.
    Nothing,
    /// A message that was sent to a process.
    Sent(Pid, SendRecord),
    /// What was received.
    Received(Received),
    /// A parcel, which has no line.
    Parcel(Vec<u8>),
    /// That a determinant is stable, at this clock.
    Stored(u64, Det),
    /// A restart.
    Restarted(RestartRecord),
    /// A forgetting.
    Forgotten(Forgotten),
}

/// An open node: one process of a run, and what its last call has kept.
#[derive(Drop)]
pub struct OpenNode {
    pub endpoint: Endpoint,
    pub kept: Kept,
}
