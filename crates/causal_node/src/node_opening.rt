//! A node begins.
ghost use Rattle.std.specs.Prelude.{◌≡◌, ◌<◌, ◌≤◌, IfOk, IfErr, OnOk, None};
ghost use Rattle.causal_trace.specs.Limits.{max_processes};
ghost use Rattle.causal_node.specs.NodeRecovery.{node_open_fault, opened_node, processes_below};
ghost use Rattle.causal_node.specs.NodeRefusals.{node_reason_of};

use crate::node::{Identity, Node, NodeStage};
use crate::node_fault::NodeFault;
use crate::received_names::ReceivedNames;
use causal_holders::Holders;
use causal_log::Log;
use causal_memory::restart_plan::RestartPlan;
use causal_memory::restart_planning::restart_plan_with;
use causal_name::NoMemory;
use std::alloc::Global;
use std::collections::BTreeSet;

/// Returns the processes below n.
pub(crate) fn processes_below(n: u16) -> Holders
    requires { n ≤ max_processes }
    ensures { result ≡ processes_below n }
{
    let mut processes = Holders::none();
    for p in 0..n {
        processes.insert(p as u8);
    }
    processes
}

impl Node {
    /// Returns the node of a process. In lane 0 it begins and is up. After a crash `lane` is one more than the number of
    /// its restarts so far, and the process has to recover before it comes up. Logs hash their entries with the seed,
    /// which strangers should not know: only costs depend on it.
    ///
    /// # Errors
    /// `NoProcess` if a run cannot have so many processes or `me` is none of them; otherwise `NoMemory` if allocation
    /// failed.
    pub fn open(alloc: Global, identity: Identity, lane: u32, seed: u64) -> Result<Node, NodeFault>
        ensures ok { IfOk result (λ node. node ≡ opened_node identity lane) }
        ensures legal { OnOk result (node_open_fault identity ≡ None) }
        ensures refused { IfErr result (λ fault. node_open_fault identity ≡ node_reason_of fault) }
    {
        if identity.processes > 256 || u16::from(identity.me.0) >= identity.processes {
            return Err(NodeFault::NoProcess);
        }
        match Node::new(alloc, identity, lane, seed) {
            Ok(node) => Ok(node),
            Err(_) => Err(NodeFault::NoMemory),
        }
    }

    /// Returns that node.
    fn new(alloc: Global, identity: Identity, lane: u32, seed: u64) -> Result<Node, NoMemory>
        requires few { identity.processes ≤ max_processes }
        requires mine { identity.me.0 < identity.processes }
        ensures { IfOk result (λ node. node ≡ opened_node identity lane) }
    {
        let mut floors = vec![in alloc; 0; usize::from(identity.processes)]?;
        floors[usize::from(identity.me.0)] = lane;
        let plan = restart_plan_with(alloc, identity.faults, Log::with_seed(alloc, seed))?;
        let RestartPlan {
            listed: _,
            process_memory,
        } = plan;
        Ok(Node {
            alloc,
            seed,
            identity,
            lane,
            floors,
            memory: process_memory,
            next_batch: None,
            received: ReceivedNames::new(alloc),
            reserved: BTreeSet::new(alloc),
            stage: if lane == 0 {
                NodeStage::Up
            } else {
                NodeStage::Down
            },
        })
    }
}
