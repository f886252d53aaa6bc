//! A node sends an acknowledgement, and learns holders from one.
ghost use Rattle.std.specs.Prelude.{◌≡◌, IfOk, IfErr, OnOk, OnErr, None, map};
ghost use Rattle.causal_node.specs.NodeAcknowledgements.{known_by_item, logged_items, node_acknowledge_fault, learn_fault, after_acknowledgement};
ghost use Rattle.causal_node.specs.NodeRefusals.{node_reason_of};

use crate::node::{Node, NodeStage};
use crate::node_fault::NodeFault;
use causal_log::{Batch, Item, Known, Log};
use causal_name::{Det, NoMemory, Pid};
use std::alloc::Global;

/// Returns what the items say of the determinants that are logged.
fn news_of(alloc: Global, log: &Log, items: &[Item]) -> Result<Vec<(Det, Known)>, NoMemory>
    ensures { IfOk result (λ news. news.items
        ≡ map known_by_item (logged_items log.now.map items.now)) }
{
    let logged = items.iter().filter(|item| log.known(item.det).is_some());
    let news = logged.map(|item| {
        let known = Known {
            holders: item.holders,
            stable: false,
        };
        (item.det, known)
    });
    Ok(news.collect(alloc)?)
}

impl Node {
    /// Returns the first refusal that applies to sending an acknowledgement, if there is one: `NotUp` or `NoProcess`.
    pub fn acknowledge_fault(&self, to: Pid) -> Option<NodeFault>
        ensures { result ≡ node_acknowledge_fault self.now to }
    {
        if !matches!(self.stage, NodeStage::Up) {
            return Some(NodeFault::NotUp);
        }
        if u16::from(to.0) >= self.identity.processes {
            return Some(NodeFault::NoProcess);
        }
        None
    }

    /// Returns the first refusal that applies to an acknowledgement, if there is one.
    pub fn learn_fault(&self, lane: u32, from: Pid) -> Option<NodeFault>
        ensures { result ≡ learn_fault self.now lane from }
    {
        if !matches!(self.stage, NodeStage::Up) {
            return Some(NodeFault::NotUp);
        }
        if u16::from(from.0) >= self.identity.processes {
            return Some(NodeFault::NoProcess);
        }
        if lane < self.floor(from) {
            return Some(NodeFault::OldLane);
        }
        None
    }

    /// Learns the holders that an acknowledgement names, of the determinants that are logged. Its sender, which is one
    /// of them, sent it from `lane`.
    ///
    /// # Errors
    /// The first of `NotUp`, `NoProcess` and `OldLane`; if none applies, `NoMemory` if allocation failed. A refusal
    /// changes nothing.
    pub fn learn(&mut self, lane: u32, from: Pid, items: &Batch) -> Result<(), NodeFault>
        ensures ok { OnOk result (self.new ≡ after_acknowledgement self.old items.now) }
        ensures legal { OnOk result (learn_fault self.old lane from ≡ None) }
        ensures refused { IfErr result (λ fault.
            learn_fault self.old lane from ≡ node_reason_of fault) }
        ensures unchanged { OnErr result (self.new ≡ self.old) }
    {
        if let Some(fault) = self.learn_fault(lane, from) {
            return Err(fault);
        }
        let Ok(news) = news_of(self.alloc, &self.memory.log, items.as_slice()) else {
            return Err(NodeFault::NoMemory);
        };
        if self.memory.log.learn_all(news.as_slice()).is_err() {
            return Err(NodeFault::NoMemory);
        }
        self.next_batch = None;
        Ok(())
    }
}
