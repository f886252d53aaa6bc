//! One process of a run without shared memory, as a value that sends, delivers and recovers without input or output.
#![tactic(auto)]

/// One process of a run, without input or output.
pub mod node;
/// A node sends an acknowledgement, and learns holders from one.
pub mod node_acknowledgement;
/// A node replies to another process's round.
pub mod node_answer;
/// A node delivers a message.
pub mod node_delivery;
/// Why a node refuses a call.
pub mod node_fault;
/// A node forgets what is known to be stable.
pub mod node_forgetting;
/// A node begins.
pub mod node_opening;
/// A node recovers.
pub mod node_recovery;
/// The round of a node that recovers.
pub mod node_round;
/// The messages that a node keeps.
pub mod node_sent;
/// A node sends a message.
pub mod node_sending;
/// The names of the messages that a lane has received.
mod received_names;
