//! Stable storage, and forgetting of what it has.
ghost use Rattle.std.specs.Prelude.{◌≡◌, ◌≢◌, ◌≤◌, ◌⊎◌, ◌↔◌, None};
ghost use Rattle.causal_log.specs.Logs.{unstable_in};
ghost use Rattle.causal_endpoint.specs.Recovering.{stored_fault};
ghost use Rattle.causal_endpoint.specs.Forgetting.{forget_fault};
ghost use Rattle.nixu_boundary.specs.Determinants.{det_from_c, AreCopiedOut};
ghost use Rattle.nixu_node.specs.OpenNodes.{OfNode};
ghost use Rattle.nixu_node.specs.Refusals.{IsNumberOf};
ghost use Rattle.nixu_node.specs.Calls.{HasStored, HasForgotten};

use crate::handle::NodeHandle;
use crate::open_node::{Kept, OpenNode};
use crate::refusals::refuse;
use causal_name::NoMemory;
use nixu_boundary::c_determinant::{CDeterminant, copy_dets, det_from_c};
use nixu_boundary::content_owner::ContentOwner;
use nixu_boundary::status::{CLOSED, FAULT, MISUSED, NO_MEMORY, OK};
use std::alloc::Global;

/// Writes the determinants that the node logs and does not know to be stable: as many as fit to `out`, and their number
/// to `needed`.
///
/// Returns [`OK`]; [`NO_MEMORY`]; or [`CLOSED`] if no node is open. After the last two, nothing is written.
#[unsafe(no_mangle)]
pub extern "C" fn nixu_node_unstored(
    alloc: Global,
    node: &mut NodeHandle,
    out: &mut [CDeterminant],
    needed: &mut usize,
) -> u32
    ensures ok { result ≡ OK → OfNode node.old.held.value (λ o. AreCopiedOut
        (unstable_in o.endpoint.node.memory.log) out.old out.new needed.new) }
    ensures closed { (result ≡ CLOSED) ↔ (node.old.held.value ≡ None) }
    ensures node_unchanged { node.new.held.value ≡ node.old.held.value }
    ensures unchanged { result ≢ OK → (out.new ≡ out.old) × (needed.new ≡ needed.old) }
    ensures status { (result ≡ OK) ⊎ ((result ≡ NO_MEMORY) ⊎ (result ≡ CLOSED)) }
{
    let Some(open) = node.take(alloc) else {
        return CLOSED;
    };
    let status = match open.endpoint.node().unstored() {
        Ok(dets) => {
            copy_dets(dets.as_slice(), out, needed);
            OK
        }
        Err(NoMemory) => NO_MEMORY,
    };
    node.fill(open);
    status
}

/// Stable storage has this determinant: it has confirmed a write, or it was read for a recovery. Keeps the line.
///
/// Returns [`OK`]; [`FAULT`], with the number of the first refusal in `fault`; [`NO_MEMORY`]; or [`CLOSED`] if no node is
/// open. Unless `OK` is returned, the node is unchanged.
#[unsafe(no_mangle)]
pub extern "C" fn nixu_node_stored(
    alloc: Global,
    node: &mut NodeHandle,
    now: u64,
    determinant: &CDeterminant,
    fault: &mut u32,
) -> u32
    ensures ok { result ≡ OK → OfNode node.old.held.value (λ o. OfNode node.new.held.value
        (HasStored o.endpoint now (det_from_c determinant.now))) }
    ensures fault { result ≡ FAULT → OfNode node.old.held.value
        (λ o. IsNumberOf (stored_fault o.endpoint now) fault.new) }
    ensures legal { result ≡ OK → OfNode node.old.held.value
        (λ o. stored_fault o.endpoint now ≡ None) }
    ensures no_memory { result ≡ NO_MEMORY → OfNode node.old.held.value
        (λ o. stored_fault o.endpoint now ≡ None) }
    ensures closed { (result ≡ CLOSED) ↔ (node.old.held.value ≡ None) }
    ensures node_unchanged { result ≢ OK → node.new.held.value ≡ node.old.held.value }
    ensures fault_unchanged { result ≢ FAULT → fault.new ≡ fault.old }
    ensures status { (result ≢ MISUSED) × (result ≤ CLOSED) }
{
    let Some(mut open) = node.take(alloc) else {
        return CLOSED;
    };
    let det = det_from_c(*determinant);
    let status = match open.endpoint.stored(now, det) {
        Ok(clock) => {
            open.kept = Kept::Stored(clock, det);
            OK
        }
        Err(refused) => refuse(refused, fault),
    };
    node.fill(open);
    status
}

/// Removes from the log what is known to be stable, except of deliveries that have still to be made. Keeps the line,
/// unless nothing is listed, and the list.
///
/// Returns [`OK`]; [`FAULT`], with the number of the first refusal in `fault`; [`NO_MEMORY`]; or [`CLOSED`] if no node is
/// open. Unless `OK` is returned, the node is unchanged.
#[unsafe(no_mangle)]
pub extern "C" fn nixu_node_forget(
    alloc: Global,
    node: &mut NodeHandle,
    now: u64,
    fault: &mut u32,
) -> u32
    ensures ok { result ≡ OK → OfNode node.old.held.value (λ o. OfNode node.new.held.value
        (HasForgotten o.endpoint now)) }
    ensures fault { result ≡ FAULT → OfNode node.old.held.value
        (λ o. IsNumberOf (forget_fault o.endpoint now) fault.new) }
    ensures legal { result ≡ OK → OfNode node.old.held.value
        (λ o. forget_fault o.endpoint now ≡ None) }
    ensures no_memory { result ≡ NO_MEMORY → OfNode node.old.held.value
        (λ o. forget_fault o.endpoint now ≡ None) }
    ensures closed { (result ≡ CLOSED) ↔ (node.old.held.value ≡ None) }
    ensures node_unchanged { result ≢ OK → node.new.held.value ≡ node.old.held.value }
    ensures fault_unchanged { result ≢ FAULT → fault.new ≡ fault.old }
    ensures status { (result ≢ MISUSED) × (result ≤ CLOSED) }
{
    let Some(mut open) = node.take(alloc) else {
        return CLOSED;
    };
    let status = forget(&mut *open, now, fault);
    node.fill(open);
    status
}

/// Forgets.
fn forget(node: &mut OpenNode, now: u64, fault: &mut u32) -> u32
    ensures ok { result ≡ OK → HasForgotten node.old.endpoint now node.new }
    ensures fault { result ≡ FAULT → IsNumberOf (forget_fault node.old.endpoint now) fault.new }
    ensures legal { result ≡ OK → forget_fault node.old.endpoint now ≡ None }
    ensures no_memory { result ≡ NO_MEMORY → forget_fault node.old.endpoint now ≡ None }
    ensures node_unchanged { result ≢ OK → node.new ≡ node.old }
    ensures fault_unchanged { result ≢ FAULT → fault.new ≡ fault.old }
    ensures status { result ≤ NO_MEMORY }
{
    match node.endpoint.forget(now) {
        Ok(forgotten) => {
            node.kept = Kept::Forgotten(forgotten);
            OK
        }
        Err(refused) => refuse(refused, fault),
    }
}
