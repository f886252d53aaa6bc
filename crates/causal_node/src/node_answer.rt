//! A node replies to another process's round.
ghost use Rattle.std.specs.Prelude.{◌≡◌, IfOk, IfErr, OnOk, OnErr, None};
ghost use Rattle.causal_node.specs.NodeAnswers.{node_after_answer, answer_fault, raised_floors, round_reply};
ghost use Rattle.causal_node.specs.NodeRefusals.{node_reason_of};
ghost use Rattle.causal_node.specs.NodeStates.{floor_of};

use crate::node::{Node, NodeStage};
use crate::node_fault::NodeFault;
use causal_name::{NoMemory, Pid};
use std::alloc::Global;

/// The reply to a question.
#[derive(Clone, Copy)]
pub enum RoundReply {
    /// The process is up: its log goes to the asker.
    Log,
    /// The view has a wrong number for the process, whose lane is the right one.
    OwnNumber,
    /// The process is not up, and has given up its round.
    NotUp,
}

/// Returns the greater of each floor and the number in the view.
fn raised_floors(alloc: Global, floors: &[u32], view: &[u32]) -> Result<Vec<u32>, NoMemory>
    ensures { IfOk result (λ new. new.items ≡ raised_floors floors.now view.now) }
{
    let pairs = floors.iter().zip(view);
    Ok(
        pairs
            .map(|(floor, number)| (*floor).max(*number))
            .collect(alloc)?,
    )
}

impl Node {
    /// Returns the number that the view has for a process; 0 if it has none.
    fn number_in(view: &[u32], p: Pid) -> u32
        ensures { result ≡ floor_of view.now p }
    {
        view.get(usize::from(p.0)).copied().unwrap_or(0)
    }

    /// Returns the first refusal that applies to a question, if there is one.
    pub fn answer_fault(&self, asker: Pid, view: &[u32]) -> Option<NodeFault>
        ensures { result ≡ answer_fault self.now asker view.now }
    {
        if u16::from(asker.0) >= self.identity.processes || asker == self.identity.me {
            return Some(NodeFault::NoProcess);
        }
        if view.len() != usize::from(self.identity.processes) {
            return Some(NodeFault::View);
        }
        if Node::number_in(view, asker) < self.floor(asker) {
            return Some(NodeFault::OldLane);
        }
        let right = Node::number_in(view, self.identity.me) == self.lane;
        match self.stage {
            NodeStage::Gathering(_) if right && asker > self.identity.me => Some(NodeFault::NotYet),
            _ => None,
        }
    }

    /// Returns the reply to a question with this view.
    pub fn reply(&self, view: &[u32]) -> RoundReply
        ensures { result ≡ round_reply self.now view.now }
    {
        if Node::number_in(view, self.identity.me) != self.lane {
            return RoundReply::OwnNumber;
        }
        match self.stage {
            NodeStage::Up => RoundReply::Log,
            _ => RoundReply::NotUp,
        }
    }

    /// Replies to the question of a process that has begun a round with this view: a number for each process, its lane,
    /// or its next one if it is not up. If this process is up, it accepts from now on nothing from lanes below the view.
    /// If it is not up, it gives up its own round.
    ///
    /// # Errors
    /// The first of `NoProcess`, `View`, `OldLane`, and `NotYet`: this process gathers, and goes first, since its number
    /// is less; if none applies, `NoMemory` if allocation failed. A refusal changes nothing.
    pub fn answer(&mut self, asker: Pid, view: &[u32]) -> Result<RoundReply, NodeFault>
        ensures ok { IfOk result (λ reply. reply ≡ round_reply self.old view.now) }
        ensures after { OnOk result (self.new ≡ node_after_answer self.old view.now) }
        ensures legal { OnOk result (answer_fault self.old asker view.now ≡ None) }
        ensures refused { IfErr result
            (λ fault. answer_fault self.old asker view.now ≡ node_reason_of fault) }
        ensures unchanged { OnErr result (self.new ≡ self.old) }
    {
        if let Some(fault) = self.answer_fault(asker, view) {
            return Err(fault);
        }
        let reply = self.reply(view);
        match reply {
            RoundReply::OwnNumber => (),
            RoundReply::NotUp => self.stage = NodeStage::Down,
            RoundReply::Log => match raised_floors(self.alloc, self.floors.as_slice(), view) {
                Ok(floors) => self.floors = floors,
                Err(_) => return Err(NodeFault::NoMemory),
            },
        }
        Ok(reply)
    }
}
