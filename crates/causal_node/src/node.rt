//! One process of a run, without input or output.
ghost use Rattle.std.specs.Prelude.{◌≡◌, None, IfOk, length, slice_get};
ghost use Rattle.std.specs.Option.{option_map};
ghost use Rattle.std.specs.FinMap as fin;
ghost use Rattle.causal_log.specs.Logs.{unstable_in};
ghost use Rattle.causal_memory.specs.Outboxes.{kept_message_of};
ghost use Rattle.causal_memory.specs.Namings.{named_message_by};
ghost use Rattle.causal_node.specs.NodeStates.{floor_of};

use crate::received_names::ReceivedNames;
use causal_holders::Holders;
use causal_log::{Batch, Log};
use causal_memory::naming::named_message;
use causal_memory::outbox::Envelope;
use causal_memory::process_memory::ProcessMemory;
use causal_name::{Det, MsgName, NoMemory, Pid};
use std::alloc::Global;
use std::collections::BTreeSet;
use std::marker::Model;

/// Which process of a run a node is.
#[derive(Clone, Copy)]
pub struct Identity {
    /// The number of processes.
    pub processes: u16,
    pub me: Pid,
    /// The bound f on failures.
    pub faults: u16,
}

/// A round of a recovery: the process asks all others for their logs.
#[derive(Drop)]
pub struct Round {
    /// A number that no other round of the process has.
    pub name: u64,
    /// The processes that have still to reply.
    pub awaited: Holders,
    /// The union of the logs that were received.
    pub log: Log,
    /// Whether stable storage has been read.
    pub read: bool,
}

/// Whether a process is up.
#[derive(Drop)]
pub enum NodeStage {
    Up,
    /// It is not up, and has no round.
    Down,
    /// It is not up, and has begun a round.
    Gathering(Round),
}

/// One process's side of causal message logging (Alvisi and Marzullo 1998) in a run of processes without shared memory.
/// It has no input and no output: its embedder moves what it sends, writes the recording, and keeps what is stable.
#[derive(Drop)]
pub struct Node {
    pub(crate) alloc: Global,
    /// The seed with which logs hash their entries.
    pub(crate) seed: u64,
    pub(crate) identity: Identity,
    pub(crate) lane: u32,
    /// The least lane of each process that is accepted. While the process is not up: the numbers that processes have
    /// told, which are the view of its round.
    pub(crate) floors: Vec<u32>,
    pub(crate) memory: ProcessMemory,
    /// The batch that the next messages carry, if it is known.
    pub(crate) next_batch: Option<Batch>,
    /// The names of the messages that the present lane has received.
    pub(crate) received: ReceivedNames,
    /// The names of the messages that the log of the restart has for this process.
    pub(crate) reserved: BTreeSet<MsgName, Global>,
    pub(crate) stage: NodeStage,
}

impl Model for Node {
    ghost use Rattle.causal_memory.specs.ProcessMemories.{memory_of, bodies_of};
    ghost use Rattle.causal_node.specs.NodeStates.{coded_node, recovery_of, IsNode, NodeState};

    ghost Value = { NodeState };

    ghost coded = { coded_node };

    ghost view = { λ n. record { identity = n.identity; lane = n.lane; floors = n.floors.items; memory = memory_of n.memory; bodies = bodies_of n.memory; received_names = n.received; reserved_names = n.reserved.keys; recovery = recovery_of n.stage } };

    ghost invariant = { λ n. IsNode n.identity n.next_batch (memory_of n.memory) };
}

impl Node {
    /// Returns the message that has to be delivered next, if the log names one.
    pub fn due(&self) -> Option<MsgName>
        ensures { result ≡ named_message_by self.now.identity.me self.now.memory None }
    {
        named_message(&self.memory, self.identity.me, None)
    }

    /// Returns which process of the run the node is.
    pub fn identity(&self) -> Identity
        ensures { result ≡ self.now.identity }
    {
        self.identity
    }

    /// Returns how many messages the present lane has sent.
    pub fn sent_len(&self) -> u32
        ensures { result ≡ length self.now.memory.sent }
    {
        self.memory.sent.len() as u32
    }

    /// Returns how many messages the present lane has received.
    pub fn received_len(&self) -> u32
        ensures { result ≡ length self.now.memory.received }
    {
        self.memory.received.len() as u32
    }

    /// Returns the least lane of a process that is accepted.
    pub fn floor(&self, p: Pid) -> u32
        ensures { result ≡ floor_of self.now.floors p }
    {
        self.floors.get(usize::from(p.0)).copied().unwrap_or(0)
    }

    /// Returns the present lane (incarnation), or the next one if the process is not up.
    pub fn lane(&self) -> u32
        ensures { result ≡ self.now.lane }
    {
        self.lane
    }

    /// Returns an empty log, which hashes its entries as the node's logs do.
    pub fn new_log(&self) -> Log
        ensures { result.map ≡ fin.empty }
    {
        Log::with_seed(self.alloc, self.seed)
    }

    /// Returns the log, which a process that is up gives to one that gathers.
    pub fn log(&self) -> &Log
        ensures { result.now.map ≡ self.now.memory.log }
    {
        &self.memory.log
    }

    /// Returns the least lane of each process that is accepted. While the process is not up: its view, the greatest
    /// number that each process has told.
    pub fn floors(&self) -> &[u32]
        ensures { result.now ≡ self.now.floors }
    {
        self.floors.as_slice()
    }

    /// Returns the kept message of this number, without its body.
    pub fn message(&self, ssn: u32) -> Option<Envelope<'_>>
        ensures { option_map kept_message_of result ≡ slice_get self.now.memory.sent ssn }
    {
        self.memory.sent.get(ssn as usize)
    }

    /// Returns the determinants that the process logs and does not know to be stable, ascending.
    ///
    /// # Errors
    /// `NoMemory` if allocation failed.
    pub fn unstored(&self) -> Result<Vec<Det>, NoMemory>
        ensures { IfOk result (λ dets. dets.items ≡ unstable_in self.now.memory.log) }
    {
        self.memory.log.unstable_dets(self.alloc)
    }
}
