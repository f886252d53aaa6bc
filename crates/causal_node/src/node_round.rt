//! The round of a node that recovers.
ghost use Rattle.std.specs.Prelude.{◌≡◌};
ghost use Rattle.causal_node.specs.NodeRounds.{round_name, awaited_in, node_question_fault};

use crate::node::{Node, NodeStage};
use crate::node_fault::NodeFault;
use causal_holders::Holders;
use causal_name::Pid;

impl Node {
    /// Returns the name of the present round, if there is one.
    pub fn round_name(&self) -> Option<u64>
        ensures { result ≡ round_name self.now.recovery }
    {
        match &self.stage {
            NodeStage::Gathering(round) => Some(round.name),
            _ => None,
        }
    }

    /// Returns the processes that have still to reply to the present round.
    pub fn awaited(&self) -> Holders
        ensures { result ≡ awaited_in self.now.recovery }
    {
        match &self.stage {
            NodeStage::Gathering(round) => round.awaited,
            _ => Holders::none(),
        }
    }

    /// Returns the first refusal that applies to a question to a process, if there is one: `Up`, `NoRound`, or
    /// `NoProcess`.
    pub fn question_fault(&self, to: Pid) -> Option<NodeFault>
        ensures { result ≡ node_question_fault self.now to }
    {
        match &self.stage {
            NodeStage::Up => Some(NodeFault::Up),
            NodeStage::Down => Some(NodeFault::NoRound),
            NodeStage::Gathering(_)
                if u16::from(to.0) >= self.identity.processes || to == self.identity.me => {
                Some(NodeFault::NoProcess)
            }
            NodeStage::Gathering(_) => None,
        }
    }
}
