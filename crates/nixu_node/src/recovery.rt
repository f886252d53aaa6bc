//! Recovery: rounds, and the restart.
ghost use Rattle.std.specs.Prelude.{◌≡◌, ◌≢◌, ◌≤◌, ◌⊎◌, ◌↔◌, None};
ghost use Rattle.causal_node.specs.NodeRecovery.{begin_fault, reply_fault, read_fault};
ghost use Rattle.causal_node.specs.NodeRounds.{awaited_in};
ghost use Rattle.causal_endpoint.specs.Refusals.{node_or};
ghost use Rattle.causal_endpoint.specs.Recovering.{question_fault, restart_fault};
ghost use Rattle.nixu_boundary.specs.Buffers.{IsCopiedOut, IsUntouched};
ghost use Rattle.nixu_boundary.specs.Flags.{flags};
ghost use Rattle.nixu_node.specs.OpenNodes.{OfNode};
ghost use Rattle.nixu_node.specs.Structs.{pid};
ghost use Rattle.nixu_node.specs.Refusals.{IsNumberOf};
ghost use Rattle.nixu_node.specs.Calls.{HasBegun, HasAsked, HasTakenEnded, HasReadStorage, HasRestarted};

use crate::handle::NodeHandle;
use crate::open_node::{Kept, OpenNode};
use crate::refusals::refuse;
use causal_name::Pid;
use nixu_boundary::buffer::copy_numbers;
use nixu_boundary::content_owner::ContentOwner;
use nixu_boundary::flags::flags_of;
use nixu_boundary::status::{CLOSED, FAULT, MISUSED, NO_MEMORY, OK};
use std::alloc::Global;

/// Begins a round of this name, which no other round of the process has had, also in earlier lanes.
///
/// Returns [`OK`]; [`FAULT`], with the number of the first refusal in `fault`; [`NO_MEMORY`]; or [`CLOSED`] if no node is
/// open. Unless `OK` is returned, the node is unchanged.
#[unsafe(no_mangle)]
pub extern "C" fn nixu_node_begin_round(
    alloc: Global,
    node: &mut NodeHandle,
    round: u64,
    fault: &mut u32,
) -> u32
    ensures ok { result ≡ OK → OfNode node.old.held.value (λ o. OfNode node.new.held.value
        (HasBegun o.endpoint round)) }
    ensures fault { result ≡ FAULT → OfNode node.old.held.value
        (λ o. IsNumberOf (node_or (begin_fault o.endpoint.node.recovery) None) fault.new) }
    ensures legal { result ≡ OK → OfNode node.old.held.value
        (λ o. node_or (begin_fault o.endpoint.node.recovery) None ≡ None) }
    ensures no_memory { result ≡ NO_MEMORY → OfNode node.old.held.value
        (λ o. node_or (begin_fault o.endpoint.node.recovery) None ≡ None) }
    ensures closed { (result ≡ CLOSED) ↔ (node.old.held.value ≡ None) }
    ensures node_unchanged { result ≢ OK → node.new.held.value ≡ node.old.held.value }
    ensures fault_unchanged { result ≢ FAULT → fault.new ≡ fault.old }
    ensures status { (result ≢ MISUSED) × (result ≤ CLOSED) }
{
    let Some(mut open) = node.take(alloc) else {
        return CLOSED;
    };
    let status = match open.endpoint.begin_round(round) {
        Ok(()) => {
            open.kept = Kept::Nothing;
            OK
        }
        Err(refused) => refuse(refused, fault),
    };
    node.fill(open);
    status
}

/// Keeps the parcel of the round's question to process `to`, which may be asked again.
///
/// Returns [`OK`]; [`FAULT`], with the number of the first refusal in `fault`; [`NO_MEMORY`]; or [`CLOSED`] if no node is
/// open. Unless `OK` is returned, the node is unchanged.
#[unsafe(no_mangle)]
pub extern "C" fn nixu_node_question(
    alloc: Global,
    node: &mut NodeHandle,
    now: u64,
    to: u8,
    fault: &mut u32,
) -> u32
    ensures ok { result ≡ OK → OfNode node.old.held.value (λ o. OfNode node.new.held.value
        (HasAsked o.endpoint now (pid to))) }
    ensures fault { result ≡ FAULT → OfNode node.old.held.value
        (λ o. IsNumberOf (question_fault o.endpoint now (pid to)) fault.new) }
    ensures legal { result ≡ OK → OfNode node.old.held.value
        (λ o. question_fault o.endpoint now (pid to) ≡ None) }
    ensures no_memory { result ≡ NO_MEMORY → OfNode node.old.held.value
        (λ o. question_fault o.endpoint now (pid to) ≡ None) }
    ensures closed { (result ≡ CLOSED) ↔ (node.old.held.value ≡ None) }
    ensures node_unchanged { result ≢ OK → node.new.held.value ≡ node.old.held.value }
    ensures fault_unchanged { result ≢ FAULT → fault.new ≡ fault.old }
    ensures status { (result ≢ MISUSED) × (result ≤ CLOSED) }
{
    let Some(mut open) = node.take(alloc) else {
        return CLOSED;
    };
    let status = match open.endpoint.question(now, Pid(to)) {
        Ok(parcel) => {
            open.kept = Kept::Parcel(parcel);
            OK
        }
        Err(refused) => refuse(refused, fault),
    };
    node.fill(open);
    status
}

/// Writes 1 for each process that has still to reply to the round, 0 for the others.
///
/// Returns [`OK`]; or [`CLOSED`] if no node is open, and nothing is written.
#[unsafe(no_mangle)]
pub extern "C" fn nixu_node_awaited(
    alloc: Global,
    node: &mut NodeHandle,
    processes: &mut [u8; 256],
) -> u32
    ensures ok { result ≡ OK → OfNode node.old.held.value
        (λ o. processes.new ≡ flags (awaited_in o.endpoint.node.recovery)) }
    ensures closed { (result ≡ CLOSED) ↔ (node.old.held.value ≡ None) }
    ensures node_unchanged { node.new.held.value ≡ node.old.held.value }
    ensures unchanged { result ≢ OK → processes.new ≡ processes.old }
    ensures status { (result ≡ OK) ⊎ (result ≡ CLOSED) }
{
    let Some(open) = node.take(alloc) else {
        return CLOSED;
    };
    *processes = flags_of(open.endpoint.node().awaited());
    node.fill(open);
    OK
}

/// Writes the least lane of each process that is accepted; while the node is not up, the view of its round. As many as
/// fit go to `out`, and their number to `needed`.
///
/// Returns [`OK`]; or [`CLOSED`] if no node is open, and nothing is written.
#[unsafe(no_mangle)]
pub extern "C" fn nixu_node_view(
    alloc: Global,
    node: &mut NodeHandle,
    out: &mut [u32],
    needed: &mut usize,
) -> u32
    ensures ok { result ≡ OK → OfNode node.old.held.value
        (λ o. IsCopiedOut o.endpoint.node.floors out.old out.new needed.new) }
    ensures closed { (result ≡ CLOSED) ↔ (node.old.held.value ≡ None) }
    ensures node_unchanged { node.new.held.value ≡ node.old.held.value }
    ensures unchanged { result ≢ OK → IsUntouched out.old out.new needed.old needed.new }
    ensures status { (result ≡ OK) ⊎ (result ≡ CLOSED) }
{
    let Some(open) = node.take(alloc) else {
        return CLOSED;
    };
    copy_numbers(open.endpoint.node().floors(), out, needed);
    node.fill(open);
    OK
}

/// Takes from the caller, who knows that process `who` has ended and how often it has restarted, that it is not up and
/// that `lane` is its next lane: in the place of its reply to the round of this name.
///
/// Returns [`OK`]; [`FAULT`], with the number of the first refusal in `fault`; [`NO_MEMORY`]; or [`CLOSED`] if no node is
/// open. Unless `OK` is returned, the node is unchanged.
#[unsafe(no_mangle)]
pub extern "C" fn nixu_node_take_ended(
    alloc: Global,
    node: &mut NodeHandle,
    round: u64,
    who: u8,
    lane: u32,
    fault: &mut u32,
) -> u32
    ensures ok { result ≡ OK → OfNode node.old.held.value (λ o. OfNode node.new.held.value
        (HasTakenEnded o.endpoint (pid who) lane)) }
    ensures fault { result ≡ FAULT → OfNode node.old.held.value
        (λ o. IsNumberOf (node_or (reply_fault o.endpoint.node.recovery round
        (pid who)) None) fault.new) }
    ensures legal { result ≡ OK → OfNode node.old.held.value
        (λ o. node_or (reply_fault o.endpoint.node.recovery round (pid who)) None ≡ None) }
    ensures no_memory { result ≡ NO_MEMORY → OfNode node.old.held.value
        (λ o. node_or (reply_fault o.endpoint.node.recovery round (pid who)) None ≡ None) }
    ensures closed { (result ≡ CLOSED) ↔ (node.old.held.value ≡ None) }
    ensures node_unchanged { result ≢ OK → node.new.held.value ≡ node.old.held.value }
    ensures fault_unchanged { result ≢ FAULT → fault.new ≡ fault.old }
    ensures status { (result ≢ MISUSED) × (result ≤ CLOSED) }
{
    let Some(mut open) = node.take(alloc) else {
        return CLOSED;
    };
    let status = match open.endpoint.take_ended(round, Pid(who), lane) {
        Ok(()) => {
            open.kept = Kept::Nothing;
            OK
        }
        Err(refused) => refuse(refused, fault),
    };
    node.fill(open);
    status
}

/// Ends the reading of stable storage for the round of this name: [`nixu_node_stored`] has been called for each
/// determinant that it has.
///
/// Returns [`OK`]; [`FAULT`], with the number of the first refusal in `fault`; or [`CLOSED`] if no node is open. Unless
/// `OK` is returned, the node is unchanged.
///
/// [`nixu_node_stored`]: crate::storing::nixu_node_stored
#[unsafe(no_mangle)]
pub extern "C" fn nixu_node_finish_read(
    alloc: Global,
    node: &mut NodeHandle,
    round: u64,
    fault: &mut u32,
) -> u32
    ensures ok { result ≡ OK → OfNode node.old.held.value (λ o. OfNode node.new.held.value
        (HasReadStorage o.endpoint)) }
    ensures fault { result ≡ FAULT → OfNode node.old.held.value
        (λ o. IsNumberOf (node_or (read_fault o.endpoint.node.recovery round) None) fault.new) }
    ensures legal { result ≡ OK → OfNode node.old.held.value
        (λ o. node_or (read_fault o.endpoint.node.recovery round) None ≡ None) }
    ensures closed { (result ≡ CLOSED) ↔ (node.old.held.value ≡ None) }
    ensures node_unchanged { result ≢ OK → node.new.held.value ≡ node.old.held.value }
    ensures fault_unchanged { result ≢ FAULT → fault.new ≡ fault.old }
    ensures status { (result ≤ FAULT) ⊎ (result ≡ CLOSED) }
{
    let Some(mut open) = node.take(alloc) else {
        return CLOSED;
    };
    let status = match open.endpoint.finish_read(round) {
        Ok(()) => {
            open.kept = Kept::Nothing;
            OK
        }
        Err(refused) => refuse(refused, fault),
    };
    node.fill(open);
    status
}

/// Restarts: the process is up, with what its round has gathered. Keeps the line and the list.
///
/// Returns [`OK`]; [`FAULT`], with the number of the first refusal in `fault`; [`NO_MEMORY`]; or [`CLOSED`] if no node is
/// open. Unless `OK` is returned, the node is unchanged.
#[unsafe(no_mangle)]
pub extern "C" fn nixu_node_restart(
    alloc: Global,
    node: &mut NodeHandle,
    now: u64,
    fault: &mut u32,
) -> u32
    ensures ok { result ≡ OK → OfNode node.old.held.value (λ o. OfNode node.new.held.value
        (HasRestarted o.endpoint now)) }
    ensures fault { result ≡ FAULT → OfNode node.old.held.value
        (λ o. IsNumberOf (restart_fault o.endpoint now) fault.new) }
    ensures legal { result ≡ OK → OfNode node.old.held.value
        (λ o. restart_fault o.endpoint now ≡ None) }
    ensures no_memory { result ≡ NO_MEMORY → OfNode node.old.held.value
        (λ o. restart_fault o.endpoint now ≡ None) }
    ensures closed { (result ≡ CLOSED) ↔ (node.old.held.value ≡ None) }
    ensures node_unchanged { result ≢ OK → node.new.held.value ≡ node.old.held.value }
    ensures fault_unchanged { result ≢ FAULT → fault.new ≡ fault.old }
    ensures status { (result ≢ MISUSED) × (result ≤ CLOSED) }
{
    let Some(mut open) = node.take(alloc) else {
        return CLOSED;
    };
    let status = restart(&mut *open, now, fault);
    node.fill(open);
    status
}

/// Restarts.
fn restart(node: &mut OpenNode, now: u64, fault: &mut u32) -> u32
    ensures ok { result ≡ OK → HasRestarted node.old.endpoint now node.new }
    ensures fault { result ≡ FAULT → IsNumberOf (restart_fault node.old.endpoint now) fault.new }
    ensures legal { result ≡ OK → restart_fault node.old.endpoint now ≡ None }
    ensures no_memory { result ≡ NO_MEMORY → restart_fault node.old.endpoint now ≡ None }
    ensures node_unchanged { result ≢ OK → node.new ≡ node.old }
    ensures fault_unchanged { result ≢ FAULT → fault.new ≡ fault.old }
    ensures status { result ≤ NO_MEMORY }
{
    match node.endpoint.restart(now) {
        Ok(restarted) => {
            node.kept = Kept::Restarted(restarted);
            OK
        }
        Err(refused) => refuse(refused, fault),
    }
}
