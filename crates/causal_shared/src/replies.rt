//! The item replies for results, and conversions of results.
ghost use Rattle.std.specs.Prelude.{◌≡◌};
ghost use Rattle.causal_shared.specs.Locked.{item_reply, fault_item_reply, restart_item_reply};
ghost use Rattle.causal_shared.specs.Inside.ResultConversions.{map_refusal, core_refusal, shared_refusal};
ghost use Rattle.causal_shared.specs.declared.fault.LockedFault.TheVariants as Fault;
ghost use Rattle.causal_shared.specs.Inside.SeatChecks.{shared_result};
ghost use Rattle.causal_shared.specs.Inside.CountingCalls.{reply_of};
ghost use Rattle.causal_protocol.specs.declared.request.Reply.TheVariants as Replies;

use crate::counting_call::CountingCall;
use crate::fault::{LockedFault, SharedFault};
use crate::refused::{LockedRefused, SharedRefused};
use causal_core::restart::Refused;
use causal_protocol::request::{CoreFault, Delivered, FlushFault, Reply, Restarted};

/// The item reply for an error; none if the call could not be recorded.
pub(crate) fn fault_item_reply(fault: LockedFault) -> Option<Reply>
    ensures { result ≡ fault_item_reply fault }
{
    match fault {
        LockedFault::NoRecord => None,
        LockedFault::Core(fault) => Some(Reply::Refused(fault)),
        LockedFault::Flush(fault) => Some(Reply::FlushRefused(fault)),
    }
}

pub(crate) fn delivery_item_reply(answer: Result<Delivered, LockedFault>) -> Option<Reply>
    ensures { result ≡ item_reply Replies.Delivered answer }
{
    match answer {
        Ok(delivered) => Some(Reply::Delivered(delivered)),
        Err(fault) => fault_item_reply(fault),
    }
}

pub(crate) fn count_item_reply(
    task: CountingCall,
    answer: Result<u32, LockedFault>,
) -> Option<Reply>
    ensures { result ≡ item_reply (reply_of task) answer }
{
    match answer {
        Ok(number) => Some(task.reply(number)),
        Err(fault) => fault_item_reply(fault),
    }
}

pub(crate) fn restart_item_reply(answer: &Result<Restarted, LockedRefused>) -> Option<Reply>
    ensures { result ≡ restart_item_reply answer.now }
{
    match answer {
        Ok(restarted) => Some(Reply::Restarted(*restarted)),
        Err(refused) => fault_item_reply(refused.fault),
    }
}

/// Converts a result of the core.
pub(crate) fn from_core_result<A: Drop>(answer: Result<A, CoreFault>) -> Result<A, LockedFault>
    ensures { result ≡ map_refusal Fault.Core answer }
{
    Ok(answer?)
}

/// Converts the result of a flush.
pub(crate) fn from_flush_result(answer: Result<u32, FlushFault>) -> Result<u32, LockedFault>
    ensures { result ≡ map_refusal Fault.Flush answer }
{
    Ok(answer?)
}

/// Converts the result of a restart, whose error contains the spare.
pub(crate) fn from_restart_result(
    answer: Result<Restarted, Refused>,
) -> Result<Restarted, LockedRefused>
    ensures { result ≡ map_refusal core_refusal answer }
{
    Ok(answer?)
}

/// Converts a result of the locked value to one of the shared runtime.
pub(crate) fn to_shared_result<A: Drop>(answer: Result<A, LockedFault>) -> Result<A, SharedFault>
    ensures { result ≡ shared_result answer }
{
    match answer {
        Ok(value) => Ok(value),
        Err(fault) => Err(SharedFault::from(fault)),
    }
}

/// Converts a restart's result, whose error contains the spare, to one of the shared runtime.
pub(crate) fn to_shared_restart(
    answer: Result<Restarted, LockedRefused>,
) -> Result<Restarted, SharedRefused>
    ensures { result ≡ map_refusal shared_refusal answer }
{
    Ok(answer?)
}
