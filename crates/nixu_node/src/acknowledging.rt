//! Acknowledgements.
ghost use Rattle.std.specs.Prelude.{◌≡◌, ◌≢◌, ◌≤◌, ◌↔◌, false, None, length, map};
ghost use Rattle.causal_name.specs.Names.{is_ascending};
ghost use Rattle.causal_endpoint.specs.Acknowledging.{acknowledge_fault};
ghost use Rattle.nixu_boundary.specs.Determinants.{det_from_c};
ghost use Rattle.nixu_node.specs.OpenNodes.{OfNode};
ghost use Rattle.nixu_node.specs.Structs.{pid};
ghost use Rattle.nixu_node.specs.Refusals.{IsNumberOf};
ghost use Rattle.nixu_node.specs.Calls.{HasAcknowledged};

use crate::handle::NodeHandle;
use crate::open_node::{Kept, OpenNode};
use crate::refusals::refuse;
use causal_name::{NoMemory, Pid};
use causal_trace::entry::Dets;
use nixu_boundary::c_determinant::{CDeterminant, dets_from_c};
use nixu_boundary::content_owner::ContentOwner;
use nixu_boundary::status::{CLOSED, FAULT, MISUSED, NO_MEMORY, OK};
use std::alloc::Global;

/// Keeps the parcel of an acknowledgement to process `to` of these determinants: of those that are logged, who is known
/// to hold them.
///
/// Returns [`OK`]; [`FAULT`], with the number of the first refusal in `fault`; [`MISUSED`] if the determinants do not
/// ascend; [`NO_MEMORY`]; or [`CLOSED`] if no node is open. Unless `OK` is returned, the node is unchanged.
#[unsafe(no_mangle)]
pub extern "C" fn nixu_node_acknowledge(
    alloc: Global,
    node: &mut NodeHandle,
    now: u64,
    to: u8,
    listed: &[CDeterminant],
    fault: &mut u32,
) -> u32
    ensures ok { result ≡ OK → OfNode node.old.held.value (λ o. OfNode node.new.held.value
        (HasAcknowledged o.endpoint now (pid to) (map det_from_c listed.now))) }
    ensures fault { result ≡ FAULT → OfNode node.old.held.value
        (λ o. IsNumberOf (acknowledge_fault o.endpoint now (pid to) (length listed.now))
        fault.new) }
    ensures legal { result ≡ OK → OfNode node.old.held.value
        (λ o. acknowledge_fault o.endpoint now (pid to) (length listed.now) ≡ None) }
    ensures misused { result ≡ MISUSED → is_ascending (map det_from_c listed.now) ≡ false }
    ensures closed { (result ≡ CLOSED) ↔ (node.old.held.value ≡ None) }
    ensures node_unchanged { result ≢ OK → node.new.held.value ≡ node.old.held.value }
    ensures fault_unchanged { result ≢ FAULT → fault.new ≡ fault.old }
    ensures status { result ≤ CLOSED }
{
    let Some(mut open) = node.take(alloc) else {
        return CLOSED;
    };
    let status = acknowledge(alloc, &mut *open, now, Pid(to), listed, fault);
    node.fill(open);
    status
}

/// Converts the determinants, and keeps the parcel.
fn acknowledge(
    alloc: Global,
    node: &mut OpenNode,
    now: u64,
    to: Pid,
    listed: &[CDeterminant],
    fault: &mut u32,
) -> u32
    ensures ok { result ≡ OK → HasAcknowledged node.old.endpoint now to
        (map det_from_c listed.now) node.new }
    ensures fault { result ≡ FAULT → IsNumberOf
        (acknowledge_fault node.old.endpoint now to (length listed.now)) fault.new }
    ensures legal { result ≡ OK
        → acknowledge_fault node.old.endpoint now to (length listed.now) ≡ None }
    ensures misused { result ≡ MISUSED → is_ascending (map det_from_c listed.now) ≡ false }
    ensures node_unchanged { result ≢ OK → node.new ≡ node.old }
    ensures fault_unchanged { result ≢ FAULT → fault.new ≡ fault.old }
    ensures status { result ≤ MISUSED }
{
    match dets_from_c(alloc, listed) {
        Ok(dets) => acknowledge_dets(node, now, to, Dets::new(dets), fault),
        Err(NoMemory) => NO_MEMORY,
    }
}

/// Keeps the parcel.
fn acknowledge_dets(node: &mut OpenNode, now: u64, to: Pid, listed: Dets, fault: &mut u32) -> u32
    ensures ok { result ≡ OK → HasAcknowledged node.old.endpoint now to listed node.new }
    ensures fault { result ≡ FAULT → IsNumberOf
        (acknowledge_fault node.old.endpoint now to (length listed)) fault.new }
    ensures legal { result ≡ OK → acknowledge_fault node.old.endpoint now to
        (length listed) ≡ None }
    ensures misused { result ≡ MISUSED → is_ascending listed ≡ false }
    ensures node_unchanged { result ≢ OK → node.new ≡ node.old }
    ensures fault_unchanged { result ≢ FAULT → fault.new ≡ fault.old }
    ensures status { result ≤ MISUSED }
{
    if !listed.is_ascending() {
        return MISUSED;
    }
    match node.endpoint.acknowledge(now, to, listed.as_slice()) {
        Ok(parcel) => {
            node.kept = Kept::Parcel(parcel);
            OK
        }
        Err(refused) => refuse(refused, fault),
    }
}
