//! Sending of messages, and of kept messages again.
ghost use Rattle.std.specs.Prelude.{◌≡◌, ◌≢◌, ◌≤◌, ◌⊎◌, ◌↔◌, None, length, slice_get};
ghost use Rattle.causal_endpoint.specs.Sending.{send_fault};
ghost use Rattle.causal_endpoint.specs.Resending.{resend_fault};
ghost use Rattle.nixu_node.specs.OpenNodes.{OfNode, IsReceiver};
ghost use Rattle.nixu_node.specs.Structs.{pid};
ghost use Rattle.nixu_node.specs.Refusals.{IsNumberOf};
ghost use Rattle.nixu_node.specs.Calls.{HasSentMessage, HasResent};

use crate::c_node::{CSent, c_sent_of};
use crate::handle::NodeHandle;
use crate::open_node::{Kept, OpenNode};
use crate::refusals::refuse;
use causal_name::Pid;
use nixu_boundary::content_owner::ContentOwner;
use nixu_boundary::status::{CLOSED, FAULT, MISUSED, NO_MEMORY, OK};
use std::alloc::Global;

/// Sends a message to process `to`, and keeps it, its line and its parcel.
///
/// Returns [`OK`]; [`FAULT`], with the number of the first refusal in `fault`; [`NO_MEMORY`]; or [`CLOSED`] if no node is
/// open. Unless `OK` is returned, the node and `sent` are unchanged.
#[unsafe(no_mangle)]
pub extern "C" fn nixu_node_send(
    alloc: Global,
    node: &mut NodeHandle,
    now: u64,
    to: u8,
    body: &[u8],
    sent: &mut CSent,
    fault: &mut u32,
) -> u32
    ensures ok { result ≡ OK → OfNode node.old.held.value (λ o. OfNode node.new.held.value
        (HasSentMessage o.endpoint now (pid to) body.now sent.new)) }
    ensures fault { result ≡ FAULT → OfNode node.old.held.value
        (λ o. IsNumberOf (send_fault o.endpoint now (pid to) (length body.now)) fault.new) }
    ensures legal { result ≡ OK → OfNode node.old.held.value
        (λ o. send_fault o.endpoint now (pid to) (length body.now) ≡ None) }
    ensures no_memory { result ≡ NO_MEMORY → OfNode node.old.held.value
        (λ o. send_fault o.endpoint now (pid to) (length body.now) ≡ None) }
    ensures closed { (result ≡ CLOSED) ↔ (node.old.held.value ≡ None) }
    ensures node_unchanged { result ≢ OK → node.new.held.value ≡ node.old.held.value }
    ensures unchanged { result ≢ OK → sent.new ≡ sent.old }
    ensures fault_unchanged { result ≢ FAULT → fault.new ≡ fault.old }
    ensures status { (result ≢ MISUSED) × (result ≤ CLOSED) }
{
    let Some(mut open) = node.take(alloc) else {
        return CLOSED;
    };
    let status = send(&mut *open, now, Pid(to), body, sent, fault);
    node.fill(open);
    status
}

/// Sends the message.
fn send(
    node: &mut OpenNode,
    now: u64,
    to: Pid,
    body: &[u8],
    sent: &mut CSent,
    fault: &mut u32,
) -> u32
    ensures ok { result ≡ OK → HasSentMessage node.old.endpoint now to body.now sent.new node.new }
    ensures fault { result ≡ FAULT → IsNumberOf (send_fault node.old.endpoint now to
        (length body.now)) fault.new }
    ensures legal { result ≡ OK → send_fault node.old.endpoint now to (length body.now) ≡ None }
    ensures no_memory { result ≡ NO_MEMORY
        → send_fault node.old.endpoint now to (length body.now) ≡ None }
    ensures node_unchanged { result ≢ OK → node.new ≡ node.old }
    ensures unchanged { result ≢ OK → sent.new ≡ sent.old }
    ensures fault_unchanged { result ≢ FAULT → fault.new ≡ fault.old }
    ensures status { result ≤ NO_MEMORY }
{
    match node.endpoint.send(now, to, body) {
        Ok(message) => {
            *sent = c_sent_of(&message);
            node.kept = Kept::Sent(to, message);
            OK
        }
        Err(refused) => refuse(refused, fault),
    }
}

/// Writes to which process the message of this number was sent.
///
/// Returns [`OK`]; [`MISUSED`] if the present lane has sent no such message; or [`CLOSED`] if no node is open. After the
/// last two, nothing is written.
#[unsafe(no_mangle)]
pub extern "C" fn nixu_node_receiver(
    alloc: Global,
    node: &mut NodeHandle,
    ssn: u32,
    to: &mut u8,
) -> u32
    ensures ok { result ≡ OK → OfNode node.old.held.value (λ o. IsReceiver o ssn to.new) }
    ensures misused { result ≡ MISUSED → OfNode node.old.held.value
        (λ o. slice_get o.endpoint.node.memory.sent ssn ≡ None) }
    ensures closed { (result ≡ CLOSED) ↔ (node.old.held.value ≡ None) }
    ensures node_unchanged { node.new.held.value ≡ node.old.held.value }
    ensures unchanged { result ≢ OK → to.new ≡ to.old }
    ensures status { (result ≡ OK) ⊎ ((result ≡ MISUSED) ⊎ (result ≡ CLOSED)) }
{
    let Some(open) = node.take(alloc) else {
        return CLOSED;
    };
    let status = match open.endpoint.node().message(ssn) {
        Some(message) => {
            *to = message.to.0;
            OK
        }
        None => MISUSED,
    };
    node.fill(open);
    status
}

/// Keeps the parcel of the message of this number again, with what it carried.
///
/// Returns [`OK`]; [`FAULT`], with the number of the first refusal in `fault`; [`MISUSED`] if the present lane has sent no
/// such message; [`NO_MEMORY`]; or [`CLOSED`] if no node is open. Unless `OK` is returned, the node is unchanged.
#[unsafe(no_mangle)]
pub extern "C" fn nixu_node_resend(
    alloc: Global,
    node: &mut NodeHandle,
    ssn: u32,
    fault: &mut u32,
) -> u32
    ensures ok { result ≡ OK → OfNode node.old.held.value (λ o. OfNode node.new.held.value
        (HasResent o.endpoint ssn)) }
    ensures fault { result ≡ FAULT → OfNode node.old.held.value
        (λ o. IsNumberOf (resend_fault o.endpoint ssn
        (slice_get o.endpoint.node.memory.sent ssn)) fault.new) }
    ensures legal { result ≡ OK → OfNode node.old.held.value
        (λ o. resend_fault o.endpoint ssn (slice_get o.endpoint.node.memory.sent ssn) ≡ None) }
    ensures no_memory { result ≡ NO_MEMORY → OfNode node.old.held.value
        (λ o. resend_fault o.endpoint ssn (slice_get o.endpoint.node.memory.sent ssn) ≡ None) }
    ensures misused { result ≡ MISUSED → OfNode node.old.held.value
        (λ o. slice_get o.endpoint.node.memory.sent ssn ≡ None) }
    ensures closed { (result ≡ CLOSED) ↔ (node.old.held.value ≡ None) }
    ensures node_unchanged { result ≢ OK → node.new.held.value ≡ node.old.held.value }
    ensures fault_unchanged { result ≢ FAULT → fault.new ≡ fault.old }
    ensures status { result ≤ CLOSED }
{
    let Some(mut open) = node.take(alloc) else {
        return CLOSED;
    };
    let status = match open.endpoint.resend(ssn) {
        Ok(Some(parcel)) => {
            open.kept = Kept::Parcel(parcel);
            OK
        }
        Ok(None) => MISUSED,
        Err(refused) => refuse(refused, fault),
    };
    node.fill(open);
    status
}
