//! Receiving of parcels.
ghost use Rattle.std.specs.Prelude.{◌≡◌, ◌≢◌, ◌≤◌, ◌⊎◌, ◌↔◌, None};
ghost use Rattle.causal_wire.specs.Reading.{read_parcel};
ghost use Rattle.causal_memory.specs.Namings.{named_message_by};
ghost use Rattle.causal_endpoint.specs.Endpoints.{run_of};
ghost use Rattle.causal_endpoint.specs.Receiving.{receive_fault};
ghost use Rattle.nixu_node.specs.OpenNodes.{OfNode};
ghost use Rattle.nixu_node.specs.Structs.{c_message_of};
ghost use Rattle.nixu_node.specs.Refusals.{IsNumberOf};
ghost use Rattle.nixu_node.specs.Calls.{HasReceivedParcel};

use crate::c_node::{CMessage, CReceived, c_message_of, c_received_of};
use crate::handle::NodeHandle;
use crate::open_node::Kept;
use crate::refusals::refuse;
use nixu_boundary::content_owner::ContentOwner;
use nixu_boundary::status::{CLOSED, FAULT, MISUSED, NO_MEMORY, OK};
use std::alloc::Global;

/// Receives a parcel: delivers a message, learns from an acknowledgement, replies to a question, or takes a reply.
///
/// Returns [`OK`]; [`FAULT`], with the number of the first refusal in `fault`; [`NO_MEMORY`]; or [`CLOSED`] if no node is
/// open. Unless `OK` is returned, the node and `received` are unchanged.
#[unsafe(no_mangle)]
pub extern "C" fn nixu_node_receive(
    alloc: Global,
    node: &mut NodeHandle,
    now: u64,
    bytes: &[u8],
    received: &mut CReceived,
    fault: &mut u32,
) -> u32
    ensures ok { result ≡ OK → OfNode node.old.held.value (λ o. OfNode node.new.held.value
        (HasReceivedParcel o.endpoint now bytes.now received.new)) }
    ensures fault { result ≡ FAULT → OfNode node.old.held.value
        (λ o. IsNumberOf (receive_fault o.endpoint now (read_parcel
        (run_of o.endpoint) bytes.now)) fault.new) }
    ensures legal { result ≡ OK → OfNode node.old.held.value
        (λ o. receive_fault o.endpoint now (read_parcel (run_of o.endpoint) bytes.now) ≡ None) }
    ensures closed { (result ≡ CLOSED) ↔ (node.old.held.value ≡ None) }
    ensures node_unchanged { result ≢ OK → node.new.held.value ≡ node.old.held.value }
    ensures unchanged { result ≢ OK → received.new ≡ received.old }
    ensures fault_unchanged { result ≢ FAULT → fault.new ≡ fault.old }
    ensures status { (result ≢ MISUSED) × (result ≤ CLOSED) }
{
    let Some(mut open) = node.take(alloc) else {
        return CLOSED;
    };
    let status = match open.endpoint.receive(now, bytes) {
        Ok(receipt) => {
            *received = c_received_of(&receipt);
            open.kept = Kept::Received(receipt);
            OK
        }
        Err(refused) => refuse(refused, fault),
    };
    node.fill(open);
    status
}

/// Writes which message has to be delivered next, if the log names one.
///
/// Returns [`OK`]; or [`CLOSED`] if no node is open, and nothing is written.
#[unsafe(no_mangle)]
pub extern "C" fn nixu_node_due(alloc: Global, node: &mut NodeHandle, due: &mut CMessage) -> u32
    ensures ok { result ≡ OK → OfNode node.old.held.value (λ o. due.new ≡ c_message_of
        (named_message_by o.endpoint.node.identity.me o.endpoint.node.memory None)) }
    ensures closed { (result ≡ CLOSED) ↔ (node.old.held.value ≡ None) }
    ensures node_unchanged { node.new.held.value ≡ node.old.held.value }
    ensures unchanged { result ≢ OK → due.new ≡ due.old }
    ensures status { (result ≡ OK) ⊎ (result ≡ CLOSED) }
{
    let Some(open) = node.take(alloc) else {
        return CLOSED;
    };
    *due = c_message_of(open.endpoint.node().due());
    node.fill(open);
    OK
}
