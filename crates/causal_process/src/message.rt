//! The inputs of a process and the messages that it sends.
use crate::body::Body;
use causal_name::Pid;

/// An input of a process.
#[derive(Drop)]
pub enum Input {
    /// The process begins, in its initial state. A run gives this input once, before all others.
    Begin,
    /// A message is delivered to the process: its sender and its body.
    Message { from: Pid, body: Body },
}

/// A message that a process sends. The receiver may be the sender itself, or a number that is not a process of the run.
#[derive(Drop)]
pub struct Outgoing {
    pub to: Pid,
    pub body: Body,
}
