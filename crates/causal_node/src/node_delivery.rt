//! A node delivers a message.
#![tactic(auto, using(causal_memory::proofs::Lemmas::ListInsert::items_listed))]

ghost use Rattle.std.specs.Prelude.{◌≡◌, ◌≤◌, IfOk, IfErr, OnOk, OnErr, None, length};
ghost use Rattle.causal_trace.specs.Past.{det_from};
ghost use Rattle.causal_log.specs.Logs.{dets_of};
ghost use Rattle.causal_protocol.specs.Naming.{with_own};
ghost use Rattle.causal_node.specs.NodeRefusals.{deliver_fault, node_reason_of};
ghost use Rattle.causal_node.specs.NodeSteps.{node_after_delivery, IsDelivery};

use crate::node::{Node, NodeStage};
use crate::node_fault::NodeFault;
use causal_log::Batch;
use causal_memory::delivery_list::{listed_dets, listed_len};
use causal_name::{Det, MsgName, NoMemory};
use causal_protocol::limits::{MAX_RUN_ENTRIES, MAX_RUN_LISTED};
use causal_trace::entry::Dets;

/// A delivery, for the recording.
#[derive(Drop)]
pub struct Delivery {
    pub det: Det,
    /// The determinants that the deliver entry lists.
    pub listed: Dets,
}

impl Node {
    /// Returns the determinant of the next delivery, if it is of this message.
    fn next_det(&self, name: MsgName) -> Det
        ensures { result ≡ det_from self.now.identity.me (length self.now.memory.received) name }
    {
        Det {
            source: name.source,
            ssn: name.ssn,
            dest: self.identity.me,
            rsn: self.memory.received.len() as u32,
        }
    }

    /// Returns the first refusal that applies to a delivery, if there is one.
    pub fn deliver_fault(&self, lane: u32, name: MsgName, batch: &Batch) -> Option<NodeFault>
        ensures { result ≡ deliver_fault self.now lane name batch.now }
    {
        if !matches!(self.stage, NodeStage::Up) {
            return Some(NodeFault::NotUp);
        }
        if u16::from(name.source.0) >= self.identity.processes {
            return Some(NodeFault::NoProcess);
        }
        if lane < self.floor(name.source) {
            return Some(NodeFault::OldLane);
        }
        if self.received.contains(name) {
            return Some(NodeFault::Duplicate);
        }
        match self.due() {
            Some(other) if other != name => return Some(NodeFault::MustReplay(other)),
            None if self.reserved.contains(&name) => return Some(NodeFault::Reserved),
            _ => (),
        }
        if self.memory.received.len() >= MAX_RUN_ENTRIES as usize
            || listed_len(self.next_det(name), batch) > MAX_RUN_LISTED
        {
            return Some(NodeFault::Full);
        }
        None
    }

    /// Returns the determinants that the entry of a delivery as this determinant lists: what the message carries, and the
    /// delivery's own.
    fn listed_for(&self, det: Det, piggyback: &Batch) -> Result<Dets, NoMemory>
        ensures listed { IfOk result (λ listed. listed ≡ with_own det (dets_of piggyback.now)) }
        ensures longer { IfOk result (λ listed. length piggyback.now ≤ length listed) }
    {
        listed_dets(self.alloc, det, piggyback)
    }

    /// Delivers a message with this piggyback, which `name`'s sender sent from `lane`. The process acts on the message
    /// after the delivery is recorded. Takes O(log messages) time, and O(1) for each determinant that the message carries.
    ///
    /// # Errors
    /// The first of `NotUp`, `NoProcess`, `OldLane`, `Duplicate`, `MustReplay` or `Reserved`, and `Full`; if none
    /// applies, `NoMemory` if allocation failed. A refusal changes nothing. After `MustReplay` and `Reserved` the
    /// message may be delivered later, after `OldLane` and `Duplicate` never.
    pub fn deliver(
        &mut self,
        lane: u32,
        name: MsgName,
        piggyback: &Batch,
    ) -> Result<Delivery, NodeFault>
        ensures ok { OnOk result
            (self.new ≡ node_after_delivery self.old name piggyback.now) }
        ensures listed { IfOk result (IsDelivery self.old name piggyback.now) }
        ensures legal { OnOk result
            (deliver_fault self.old lane name piggyback.now ≡ None) }
        ensures refused { IfErr result (λ fault.
            deliver_fault self.old lane name piggyback.now ≡ node_reason_of fault) }
        ensures unchanged { OnErr result (self.new ≡ self.old) }
    {
        if let Some(fault) = self.deliver_fault(lane, name, piggyback) {
            return Err(fault);
        }
        let det = self.next_det(name);
        let Ok(listed) = self.listed_for(det, piggyback) else {
            return Err(NodeFault::NoMemory);
        };
        let logged = listed.as_slice().len() as u32 + 1;
        if self
            .memory
            .reserve_delivery(self.identity.me, logged)
            .is_err()
        {
            return Err(NodeFault::NoMemory);
        }
        if self.received.insert(name).is_err() {
            return Err(NodeFault::NoMemory);
        }
        self.memory.learn_delivery(det, piggyback);
        self.next_batch = None;
        Ok(Delivery { det, listed })
    }
}
