//! Why a node refuses a call.
use causal_name::MsgName;
use thiserror::Error;

/// Why a node refuses a call. If several reasons apply, the first in the order of the call's documentation is returned.
#[derive(Clone, Copy, Debug, PartialEq, Eq, Error)]
pub enum NodeFault {
    /// The run has no process of this number.
    #[error("there is no such process")]
    NoProcess,
    /// The process has not come up.
    #[error("the process is not up")]
    NotUp,
    /// The process is up.
    #[error("the process is up")]
    Up,
    /// No round has begun.
    #[error("no round has begun")]
    NoRound,
    /// The reply is to another round, or its process has replied.
    #[error("the reply was not awaited")]
    Unasked,
    /// The message is of a lane that is not accepted any more.
    #[error("the lane is refused")]
    OldLane,
    /// The process's present lane has received the message.
    #[error("the message has been delivered")]
    Duplicate,
    /// Another message is named for the next delivery.
    #[error("another message has to be delivered first")]
    MustReplay(MsgName),
    /// The message is named for a later delivery.
    #[error("the message has to be delivered later")]
    Reserved,
    /// The view has another number of processes.
    #[error("the view has another number of processes")]
    View,
    /// The process gathers, and goes before the asker.
    #[error("the process gathers first")]
    NotYet,
    /// Some process, or stable storage, has still to reply.
    #[error("a process or stable storage has still to reply")]
    Waiting,
    /// A limit would be exceeded.
    #[error("a limit would be exceeded")]
    Full,
    /// Allocation failed.
    #[error("no memory")]
    NoMemory,
}
