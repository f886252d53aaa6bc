//! A node forgets what is known to be stable.
ghost use Rattle.std.specs.Prelude.{◌≡◌, IfOk, IfErr, OnOk, OnErr, None, length};
ghost use Rattle.causal_log.specs.Logs.{forgotten_in};
ghost use Rattle.causal_node.specs.NodeForgetting.{next_slot, node_forget_fault, node_after_forget};
ghost use Rattle.causal_node.specs.NodeRefusals.{node_reason_of};

use crate::node::{Node, NodeStage};
use crate::node_fault::NodeFault;
use causal_name::{Det, Slot};

impl Node {
    /// Returns the slot of the next delivery.
    fn next_slot(&self) -> Slot
        ensures { result ≡ next_slot self.now }
    {
        Slot {
            dest: self.identity.me,
            rsn: self.memory.received.len() as u32,
        }
    }

    /// Returns the first refusal that applies to a forgetting, if there is one.
    pub fn forget_fault(&self) -> Option<NodeFault>
        ensures { result ≡ node_forget_fault self.now }
    {
        match self.stage {
            NodeStage::Up => None,
            _ => Some(NodeFault::NotUp),
        }
    }

    /// Removes from the log what is known to be stable, except of deliveries that the process has still to make. Returns
    /// what was removed, ascending. Takes O(n log n) time for n logged determinants.
    ///
    /// # Errors
    /// `NotUp`; otherwise `NoMemory` if allocation failed. A refusal changes nothing.
    pub fn forget(&mut self) -> Result<Vec<Det>, NodeFault>
        ensures ok { OnOk result (self.new ≡ node_after_forget self.old) }
        ensures listed { IfOk result (λ dets.
            dets.items ≡ forgotten_in (next_slot self.old) self.old.memory.log) }
        ensures legal { OnOk result (node_forget_fault self.old ≡ None) }
        ensures refused { IfErr result (λ fault. node_forget_fault self.old ≡ node_reason_of fault) }
        ensures unchanged { OnErr result (self.new ≡ self.old) }
    {
        if let Some(fault) = self.forget_fault() {
            return Err(fault);
        }
        let next = self.next_slot();
        let Ok(listed) = self.memory.log.forgotten_dets(self.alloc, next) else {
            return Err(NodeFault::NoMemory);
        };
        self.memory.log.forget(next);
        self.next_batch = None;
        Ok(listed)
    }
}
