//! Requests to the runtime, and their replies.
use causal_name::{Det, MsgName, Pid};
use thiserror::Error;

/// A request of a caller.
#[derive(Clone, Copy, PartialEq, Eq)]
pub enum Request {
    /// `q` delivers the message of that sender and number.
    Deliver { q: Pid, source: Pid, ssn: u32 },
    /// `p` crashes.
    Crash { p: Pid },
    /// `p` restarts.
    Restart { p: Pid },
    /// The determinants that `p` logs and does not know to be stable become stable.
    Flush { p: Pid },
    /// `p` removes from its log what it knows to be stable.
    Forget { p: Pid },
}

/// Why the runtime refuses a request. If several reasons hold, the first in this order is returned.
#[derive(Clone, Copy, Debug, PartialEq, Eq, Error)]
pub enum CoreFault {
    /// The request names a process that the run does not have.
    #[error("there is no such process")]
    NoProcess,
    /// Only a process that is up delivers, crashes, flushes and forgets.
    #[error("the process is down")]
    Down,
    /// Only a process that is down restarts.
    #[error("the process is up")]
    NotDown,
    /// One more down process would exceed the bound f.
    #[error("too many processes would be down")]
    OverFaults,
    /// Another message is named for the process's next delivery.
    #[error("another message has to be delivered first")]
    MustReplay(MsgName),
    /// The sender is down, or its present lane sent the process no such message.
    #[error("the message is not available")]
    NotAvailable,
    /// The process's present lane has delivered the message.
    #[error("the message has been delivered")]
    AlreadyDelivered,
    /// The call could exceed a limit on the trace.
    #[error("the trace is full")]
    Full,
    /// Stable storage failed.
    #[error("stable storage failed")]
    StoreFault,
    /// Allocation failed.
    #[error("no memory")]
    NoMemory,
}

/// The result of a delivery.
#[derive(Clone, Copy, PartialEq, Eq)]
pub struct Delivered {
    /// The position of the deliver entry.
    pub first: u32,
    /// The delivery's determinant.
    pub det: Det,
    /// How many send entries follow the deliver entry.
    pub sends: u32,
}

/// The result of a restart.
#[derive(Clone, Copy, PartialEq, Eq)]
pub struct Restarted {
    /// The position of the restart entry.
    pub first: u32,
    /// How many determinants the restart entry lists.
    pub listed: u32,
    /// How many send entries follow the restart entry.
    pub sends: u32,
}

/// Why a flush stopped, and how many determinants it had stored and recorded before.
#[derive(Clone, Copy, Debug, PartialEq, Eq)]
pub struct FlushFault {
    pub fault: CoreFault,
    pub done: u32,
}

/// The reply to a request.
#[derive(Clone, Copy, PartialEq, Eq)]
pub enum Reply {
    Delivered(Delivered),
    /// The position of the crash entry.
    Crashed { first: u32 },
    Restarted(Restarted),
    /// How many determinants became stable, an entry each.
    Flushed { count: u32 },
    /// How many determinants were removed from the log, listed in one entry; if there were none, no entry was
    /// appended.
    Forgotten { count: u32 },
    Refused(CoreFault),
    FlushRefused(FlushFault),
}

impl Reply {
    ghost use Rattle.std.specs.Prelude.{◌≡◌};
    ghost use Rattle.causal_protocol.specs.Steps.{reply_of_delivery, reply_of_crash, reply_of_restart, reply_of_flush, reply_of_forget};

    /// Returns the reply of a delivery that returned `answer`.
    pub fn of_delivery(answer: Result<Delivered, CoreFault>) -> Reply
        ensures { result ≡ reply_of_delivery answer }
    {
        answer.map_or_else(Reply::Refused, Reply::Delivered)
    }

    /// Returns the reply of a crash that returned `answer`.
    pub fn of_crash(answer: Result<u32, CoreFault>) -> Reply
        ensures { result ≡ reply_of_crash answer }
    {
        answer.map_or_else(Reply::Refused, |first| Reply::Crashed { first })
    }

    /// Returns the reply of a restart that returned `answer`. The error that the runtime returns with a refused
    /// restart also contains the spare; only its fault is passed here.
    pub fn of_restart(answer: Result<Restarted, CoreFault>) -> Reply
        ensures { result ≡ reply_of_restart (λ fault. fault) answer }
    {
        answer.map_or_else(Reply::Refused, Reply::Restarted)
    }

    /// Returns the reply of a flush that returned `answer`.
    pub fn of_flush(answer: Result<u32, FlushFault>) -> Reply
        ensures { result ≡ reply_of_flush answer }
    {
        answer.map_or_else(Reply::FlushRefused, |count| Reply::Flushed { count })
    }

    /// Returns the reply of a forgetting that returned `answer`.
    pub fn of_forget(answer: Result<u32, CoreFault>) -> Reply
        ensures { result ≡ reply_of_forget answer }
    {
        answer.map_or_else(Reply::Refused, |count| Reply::Forgotten { count })
    }
}
