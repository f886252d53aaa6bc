//! The names of the messages that a lane has received.
ghost use Rattle.std.specs.Prelude.{◌≡◌, OnOk, OnErr, []};
ghost use Rattle.std.specs.BTreeSet.{insert_key};
ghost use Rattle.causal_name.specs.Names.{message_cmp};
ghost use Rattle.causal_node.specs.NodeStates.{has_name};
ghost use Rattle.causal_node.specs.Inside.ReceivedNames.{block_of};

use causal_name::{MsgName, NoMemory, Pid};
use std::alloc::Global;
use std::collections::BTreeMap;
use std::marker::Model;

/// The number of numbers in a block.
const BLOCK: u32 = 64;

/// The numbers of one sender from [`BLOCK`] times this number on.
#[derive(Clone, Copy, Debug, PartialEq, Eq, PartialOrd, Ord)]
pub struct Block {
    pub source: Pid,
    pub number: u32,
}

/// The names of the messages that a lane has received. A sender's numbers count its messages to all processes, so that
/// those to one have gaps: they are kept in blocks of 64, with a bit for each.
#[derive(Drop)]
pub struct ReceivedNames {
    blocks: BTreeMap<Block, u64, Global>,
}

impl Model for ReceivedNames {
    ghost use Rattle.std.specs.Prelude.{List};
    ghost use Rattle.std.specs.Coded.{coded_list};
    ghost use Rattle.std.specs.List.Sorted.{IsStrictlySortedBy};
    ghost use Rattle.std.specs.Map.{keys_of};
    ghost use Rattle.causal_name.specs.declared.MsgName.{MsgName};
    ghost use Rattle.causal_node.specs.MessageNames.{coded_name};
    ghost use Rattle.causal_node.specs.Inside.ReceivedNames.{block_cmp, names_in};

    ghost Value = { List MsgName };

    ghost coded = { coded_list coded_name };

    ghost view = { λ a. names_in a.blocks.entries };

    ghost invariant = { λ a. IsStrictlySortedBy block_cmp (keys_of a.blocks.entries) };
}

/// Returns the block of a name.
fn block_of(name: MsgName) -> Block
    ensures { result ≡ block_of name }
{
    Block {
        source: name.source,
        number: name.ssn / BLOCK,
    }
}

impl ReceivedNames {
    /// Returns no names. Allocates nothing.
    pub fn new(alloc: Global) -> ReceivedNames
        ensures { result ≡ [] }
    {
        ReceivedNames {
            blocks: BTreeMap::new(alloc),
        }
    }

    /// Returns whether this is one of the names. Takes O(log blocks) time.
    pub fn contains(&self, name: MsgName) -> bool
        ensures { result ≡ has_name self.now name }
    {
        let bits = self.blocks.get(&block_of(name)).copied().unwrap_or(0);
        bits >> (name.ssn % BLOCK) & 1 == 1
    }

    /// Adds a name; does nothing if it is one of them. Takes O(log blocks) time.
    ///
    /// # Errors
    /// `NoMemory` if allocation failed.
    pub fn insert(&mut self, name: MsgName) -> Result<(), NoMemory>
        ensures ok { OnOk result (self.new ≡ insert_key message_cmp self.old name) }
        ensures unchanged { OnErr result (self.new ≡ self.old) }
    {
        let block = block_of(name);
        let bits = self.blocks.get(&block).copied().unwrap_or(0);
        match self.blocks.insert(block, bits | 1 << (name.ssn % BLOCK)) {
            Ok(_) => Ok(()),
            Err(_) => Err(NoMemory),
        }
    }
}
