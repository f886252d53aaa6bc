//! Opening and closing of nodes.
ghost use Rattle.std.specs.Prelude.{◌≡◌, ◌≢◌, ◌≤◌, ◌↔◌, None, Some, IsSome};
ghost use Rattle.causal_node.specs.NodeRecovery.{opened_node};
ghost use Rattle.causal_endpoint.specs.Opening.{open_fault};
ghost use Rattle.nixu_node.specs.OpenNodes.{OfNode, IsOpened};
ghost use Rattle.nixu_node.specs.Structs.{identity_from_c};
ghost use Rattle.nixu_node.specs.Refusals.{IsNumberOf};

use crate::c_node::{CIdentity, identity_from_c};
use crate::handle::NodeHandle;
use crate::open_node::{Kept, OpenNode};
use crate::refusals::refuse;
use causal_endpoint::endpoint::Endpoint;
use nixu_boundary::content_owner::ContentOwner;
use nixu_boundary::status::{FAULT, MISUSED, NO_MEMORY, OK};
use std::alloc::Global;

/// Opens the node of a process. In lane 0 it is up; in a later lane it has to recover first.
///
/// Returns [`OK`]; [`FAULT`], with the number of the first refusal in `fault`; [`MISUSED`] if it is already open; or
/// [`NO_MEMORY`]. Unless `OK` is returned, the handle is unchanged.
#[unsafe(no_mangle)]
pub extern "C" fn nixu_node_open(
    alloc: Global,
    node: &mut NodeHandle,
    identity: &CIdentity,
    fault: &mut u32,
) -> u32
    ensures ok { result ≡ OK → OfNode node.new.held.value (IsOpened identity.now) }
    ensures fault { result ≡ FAULT
        → IsNumberOf (open_fault (identity_from_c identity.now) identity.now.clock) fault.new }
    ensures legal { result ≡ OK
        → open_fault (identity_from_c identity.now) identity.now.clock ≡ None }
    ensures no_memory { result ≡ NO_MEMORY
        → open_fault (identity_from_c identity.now) identity.now.clock ≡ None }
    ensures misused { (result ≡ MISUSED) ↔ IsSome node.old.held.value }
    ensures unchanged { result ≢ OK → node.new.held.value ≡ node.old.held.value }
    ensures fault_unchanged { result ≢ FAULT → fault.new ≡ fault.old }
    ensures status { result ≤ MISUSED }
{
    if node.is_open() {
        return MISUSED;
    }
    let who = identity_from_c(identity);
    let (run, lane) = (identity.run, identity.lane);
    match Endpoint::open(alloc, who, run, lane, identity.clock, identity.seed) {
        Ok(endpoint) => node.keep(
            alloc,
            OpenNode {
                endpoint,
                kept: Kept::Nothing,
            },
        ),
        Err(refused) => refuse(refused, fault),
    }
}

/// Closes a node and frees its memory; does nothing if it is not open.
#[unsafe(no_mangle)]
pub extern "C" fn nixu_node_close(alloc: Global, node: &mut NodeHandle)
    ensures { node.new.held.value ≡ None }
{
    node.close(alloc);
}
