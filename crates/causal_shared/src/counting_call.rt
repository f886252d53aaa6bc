//! The calls about one process that return a number.
ghost use Rattle.std.specs.Prelude.{◌≡◌};
ghost use Rattle.causal_shared.specs.Inside.CountingCalls.{reply_of, request_of};
ghost use Rattle.causal_shared.specs.Locked.{IsNextCall, IsRecordedResult, locked_state};

use crate::fault::LockedFault;
use crate::locked::Locked;
use causal_log::Stable;
use causal_name::Pid;
use causal_protocol::request::{Reply, Request};

/// A call about one process that returns a number.
#[derive(Clone, Copy)]
pub(crate) enum CountingCall {
    Crash,
    Flush,
    Forget,
}

impl CountingCall {
    /// The request of the call.
    pub(crate) fn request(self, p: Pid) -> Request
        ensures { result ≡ request_of self p }
    {
        match self {
            CountingCall::Crash => Request::Crash { p },
            CountingCall::Flush => Request::Flush { p },
            CountingCall::Forget => Request::Forget { p },
        }
    }

    /// The reply that contains the number.
    pub(crate) fn reply(self, answer: u32) -> Reply
        ensures { result ≡ reply_of self answer }
    {
        match self {
            CountingCall::Crash => Reply::Crashed { first: answer },
            CountingCall::Flush => Reply::Flushed { count: answer },
            CountingCall::Forget => Reply::Forgotten { count: answer },
        }
    }

    /// Performs the call on process p. `call` is the number of the seat's items.
    pub(crate) fn perform<S: Stable>(
        self,
        locked: &mut Locked<S>,
        seat: u32,
        call: u32,
        p: Pid,
    ) -> Result<u32, LockedFault>
        requires { IsNextCall (locked_state locked.old) seat call }
        ensures { IsRecordedResult locked.old locked.new seat call
            (request_of self p) (reply_of self) result }
    {
        match self {
            CountingCall::Crash => locked.crash(seat, call, p),
            CountingCall::Flush => locked.flush(seat, call, p),
            CountingCall::Forget => locked.forget(seat, call, p),
        }
    }
}
