//! The sends of the kinds: one message, or none.
ghost use Rattle.std.specs.Prelude.{◌≡◌, IfOk};
ghost use Rattle.causal_process.specs.Kinds.{one_message, count_less_one};

use crate::body::Body;
use crate::message::Outgoing;
use causal_name::{NoMemory, Pid};
use std::alloc::Global;

/// Returns the sends of one message with these bytes.
///
/// # Errors
/// `NoMemory` if an allocation failed.
pub fn send_one(alloc: Global, to: Pid, bytes: &[u8]) -> Result<Vec<Outgoing>, NoMemory>
    ensures { IfOk result (λ sends. sends.items ≡ one_message to bytes.now) }
{
    let body = Body::of(alloc, bytes)?;
    Ok(vec![in alloc; Outgoing { to, body }]?)
}

// Returns the sends of one message with the count less 1, or no sends if the count is 0.
pub(crate) fn send_countdown(alloc: Global, to: Pid, count: u8) -> Result<Vec<Outgoing>, NoMemory>
    ensures { IfOk result (λ sends. sends.items ≡ count_less_one to count) }
{
    match count.checked_sub(1) {
        Some(less) => send_one(alloc, to, &[less]),
        None => Ok(Vec::new(alloc)),
    }
}
