//! The state of a node, and how much it holds.
ghost use Rattle.std.specs.Prelude.{◌≡◌, ◌≢◌, ◌⊎◌, ◌↔◌, None};
ghost use Rattle.nixu_node.specs.OpenNodes.{OfNode};
ghost use Rattle.nixu_node.specs.Structs.{stage_of, c_state_of};

use crate::handle::NodeHandle;
use crate::open_node::OpenNode;
use causal_node::node::Node;
use causal_node::node_fault::NodeFault;
use nixu_boundary::content_owner::ContentOwner;
use nixu_boundary::status::{CLOSED, OK};
use std::alloc::Global;

/// The state of a node.
#[repr(C)]
#[derive(Clone, Copy)]
pub struct CState {
    /// The greatest clock so far.
    pub clock: u64,
    /// The name of the round; 0 if there is none.
    pub round: u64,
    /// 0 up, 1 no round has begun, 2 processes have still to reply, 3 stable storage has to be read, 4 it can restart.
    pub stage: u32,
    /// The lane, or the next one if it is not up.
    pub lane: u32,
    /// The number of determinants in the log.
    pub logged: u32,
    /// The number of messages that the lane has sent.
    pub sent: u32,
    /// The number of messages that the lane has delivered.
    pub received: u32,
}

/// Returns the number of a node's stage.
fn stage_of(node: &Node) -> u32
    ensures { result ≡ stage_of node.now.recovery }
{
    match node.restart_fault() {
        Some(NodeFault::Up) => 0,
        Some(NodeFault::NoRound) => 1,
        Some(_) if node.awaited().len() > 0 => 2,
        Some(_) => 3,
        None => 4,
    }
}

/// Returns the struct of a node's state.
fn c_state_of(node: &OpenNode) -> CState
    ensures { result ≡ c_state_of node.now.endpoint }
{
    let inner = node.endpoint.node();
    CState {
        clock: node.endpoint.clock(),
        round: inner.round_name().unwrap_or(0),
        stage: stage_of(inner),
        lane: inner.lane(),
        logged: inner.log().len(),
        sent: inner.sent_len(),
        received: inner.received_len(),
    }
}

/// Writes the state of a node, and how much it holds.
///
/// Returns [`OK`]; or [`CLOSED`] if no node is open, and nothing is written.
#[unsafe(no_mangle)]
pub extern "C" fn nixu_node_inspect(alloc: Global, node: &mut NodeHandle, state: &mut CState) -> u32
    ensures ok { result ≡ OK → OfNode node.old.held.value
        (λ o. state.new ≡ c_state_of o.endpoint) }
    ensures closed { (result ≡ CLOSED) ↔ (node.old.held.value ≡ None) }
    ensures node_unchanged { node.new.held.value ≡ node.old.held.value }
    ensures unchanged { result ≢ OK → state.new ≡ state.old }
    ensures status { (result ≡ OK) ⊎ (result ≡ CLOSED) }
{
    let Some(open) = node.take(alloc) else {
        return CLOSED;
    };
    *state = c_state_of(&*open);
    node.fill(open);
    OK
}
