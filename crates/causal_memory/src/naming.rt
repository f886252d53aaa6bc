//! The message that is named for a process's next delivery.
ghost use Rattle.std.specs.Prelude.{◌≡◌, ◌<◌, ◌^◌, vec_len};
ghost use Rattle.causal_protocol.specs.Refusals.{fault_unless_named};
ghost use Rattle.causal_memory.specs.Namings.{named_message_by};
ghost use Rattle.causal_memory.specs.ProcessMemories.{memory_of};

use crate::process_memory::ProcessMemory;
use causal_name::{Det, MsgName, Pid};
use causal_protocol::request::CoreFault;

/// Returns the message that is named for q's next delivery, by q's log or by what stable storage contains for it.
pub fn named_message(process_memory: &ProcessMemory, q: Pid, stored: Option<Det>) -> Option<MsgName>
    requires { vec_len process_memory.now.received < 2 ^ 32 }
    ensures { result ≡ named_message_by q (memory_of process_memory.now) stored }
{
    let rsn = process_memory.received.len() as u32;
    let Some(logged) = process_memory.log.for_slot(q, rsn) else {
        return stored.map(|det| det.message());
    };
    let Some(other) = stored else {
        return Some(logged);
    };
    let own = Det {
        source: logged.source,
        ssn: logged.ssn,
        dest: q,
        rsn,
    };
    if other.comes_before(&own) {
        return Some(other.message());
    }
    Some(logged)
}

/// Returns the refusal of a delivery if another message than the requested one is named.
pub fn must_replay_fault(
    process_memory: &ProcessMemory,
    q: Pid,
    stored: Option<Det>,
    asked: MsgName,
) -> Option<CoreFault>
    requires { vec_len process_memory.now.received < 2 ^ 32 }
    ensures { result ≡ fault_unless_named asked (named_message_by q
        (memory_of process_memory.now) stored) }
{
    match named_message(process_memory, q, stored) {
        Some(other) if other != asked => Some(CoreFault::MustReplay(other)),
        _ => None,
    }
}
