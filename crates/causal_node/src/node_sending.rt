//! A node sends a message.
ghost use Rattle.std.specs.Prelude.{◌≡◌, IfOk, IfErr, OnOk, OnErr, None, length};
ghost use Rattle.causal_log.specs.Logs.{batch_items};
ghost use Rattle.causal_node.specs.NodeRefusals.{node_reason_of, node_send_fault};
ghost use Rattle.causal_node.specs.NodeSteps.{node_after_send};

use crate::node::{Node, NodeStage};
use crate::node_fault::NodeFault;
use causal_log::Batch;
use causal_memory::restart_planning::choose_and_cache;
use causal_name::{NoMemory, Pid};
use causal_process::Body;
use causal_protocol::limits::MAX_RUN_ENTRIES;

impl Node {
    /// Returns the first refusal that applies to a send, if there is one.
    pub fn send_fault(&self, to: Pid) -> Option<NodeFault>
        ensures { result ≡ node_send_fault self.now to }
    {
        if !matches!(self.stage, NodeStage::Up) {
            return Some(NodeFault::NotUp);
        }
        if u16::from(to.0) >= self.identity.processes {
            return Some(NodeFault::NoProcess);
        }
        if self.memory.sent.len() >= MAX_RUN_ENTRIES as usize {
            return Some(NodeFault::Full);
        }
        None
    }

    /// Returns the batch that messages carry now, and caches it. Takes O(items + changes * log changes) time, where
    /// changes are determinants learned or marked since it was last chosen, or O(n log n) for n logged ones where no batch
    /// is cached: then as many have changed, or the log was read whole since. Fails only if out of memory.
    pub fn current_batch(&mut self) -> Result<Batch, NoMemory>
        ensures state { self.new ≡ self.old }
        ensures batch { IfOk result (λ batch.
            batch ≡ batch_items self.old.identity.faults self.old.memory.log) }
    {
        if let Some(batch) = &self.next_batch {
            return batch.share();
        }
        let batch = choose_and_cache(self.alloc, self.identity.faults, &mut self.memory.log)?;
        self.next_batch = Some(batch.share()?);
        Ok(batch)
    }

    /// Sends a message: keeps it, with what the log chooses for the bound on failures, and returns its number.
    ///
    /// # Errors
    /// The first of `NotUp`, `NoProcess` and `Full`; if none applies, `NoMemory` if allocation failed. A refusal
    /// changes nothing.
    pub fn send(&mut self, to: Pid, body: Body) -> Result<u32, NodeFault>
        ensures ok { OnOk result (self.new ≡ node_after_send self.old to body) }
        ensures number { IfOk result (λ ssn. ssn ≡ length self.old.memory.sent) }
        ensures legal { OnOk result (node_send_fault self.old to ≡ None) }
        ensures refused { IfErr result (λ fault. node_send_fault self.old to ≡ node_reason_of fault) }
        ensures unchanged { OnErr result (self.new ≡ self.old) }
    {
        if let Some(fault) = self.send_fault(to) {
            return Err(fault);
        }
        let Ok(batch) = self.current_batch() else {
            return Err(NodeFault::NoMemory);
        };
        if self.memory.sent.reserve(1).is_err() {
            return Err(NodeFault::NoMemory);
        }
        let ssn = self.memory.sent.len() as u32;
        self.memory.sent.begin_step(batch);
        self.memory.keep_message(to, ssn, body);
        Ok(ssn)
    }
}
