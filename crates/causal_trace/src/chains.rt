//! The deliveries of each message, in linked chains. There is no hash, so no input makes a search long.
ghost use Rattle.std.specs.Prelude.{◌≡◌, ◌<◌, ◌≤◌, ◌+◌, ◌&&◌, ℕ, nat_lt, [], length, map, replicate, Some, IfOk, OnOk, OnErr, vec_len};
ghost use Rattle.causal_trace.specs.Limits.{max_entries};
ghost use Rattle.causal_name.specs.Names.{message_of};
ghost use Rattle.causal_trace.specs.Inside.Chains.{chain_of, head_of, is_newest_in, is_receipt_of, least_room, receipt_index, with_head, with_message, with_receipt, AreLinked, HasHead, IfFinished, IsPlaceBelow};

use causal_name::{Det, MsgName, NoMemory, Pid};
use std::alloc::Global;
use std::marker::Model;

/// The least number of messages and receipts that one reservation covers, since a reservation visits every list of
/// heads.
const RESERVE_STEP: usize = 128;

/// A delivery of a message: the receiver, its lane (incarnation), and the delivery's number in that lane.
#[derive(Clone, Copy)]
pub(crate) struct MessageReceipt {
    pub dest: Pid,
    pub lane: u32,
    pub rsn: u32,
}

/// A receipt, and the index of the next older receipt of the same message.
#[derive(Clone, Copy)]
pub(crate) struct ReceiptNode {
    pub receipt: MessageReceipt,
    pub next: Option<u32>,
}

/// The number of receipts that a search visits before it turns to another structure, if there is one.
const FEW_STEPS: usize = 16;

/// The result of a search that visits few receipts: what was found, or that the chain continues.
#[derive(Clone, Copy)]
pub(crate) enum Search {
    Finished(Option<u32>),
    Unfinished,
}

/// The receipts of each message. Each process has a list of heads, indexed by send sequence number. A head is the
/// index of the message's newest receipt, and each node links to the next older receipt.
///
/// A lane delivers a message at most once, so a message has at most one receipt for each lane, and a search takes
/// O(lanes) steps.
#[derive(Drop)]
pub(crate) struct Chains {
    heads: Vec<Vec<Option<u32>>>,
    nodes: Vec<ReceiptNode>,
    /// A lower bound on how many more messages and receipts fit in reserved capacity.
    reserved: usize,
}

impl Model for Chains {
    ghost use Rattle.std.specs.Prelude.{◌-◌, ◌≤◌, map, reverse, vec_len, vec_capacity};
    ghost use Rattle.causal_trace.specs.Inside.Chains.{least_room, ChainsState};

    ghost Value = { ChainsState };

    ghost view = { λ a. record { heads = map (λ list. list.items) a.heads.items; nodes = reverse a.nodes.items; spare = least_room a.heads.items (vec_capacity a.nodes - vec_len a.nodes) } };

    ghost invariant = { λ a. a.reserved ≤ least_room a.heads.items (vec_capacity a.nodes - vec_len a.nodes) };
}

impl Chains {
    /// Returns empty chains: no receipts, and `processes` empty lists of heads.
    pub(crate) fn new(alloc: Global, processes: usize) -> Result<Chains, NoMemory>
        ensures heads { IfOk result (λ chains. chains.heads ≡ replicate processes []) }
        ensures nodes { IfOk result (λ chains. chains.nodes ≡ []) }
    {
        Ok(Chains {
            heads: empty_lists(alloc, processes)?,
            nodes: Vec::new(alloc),
            reserved: 0,
        })
    }

    /// Returns the number of receipts.
    pub(crate) fn len(&self) -> usize
        ensures { result ≡ length self.now.nodes }
    {
        self.nodes.len()
    }

    /// Adds an empty chain for a message whose number is its source's next; any other message changes nothing.
    pub(crate) fn add_message(&mut self, message: MsgName) -> Result<(), NoMemory>
        requires { message.source.0 < length self.old.heads }
        ensures heads { OnOk result (self.new.heads ≡ with_message self.old.heads message) }
        ensures nodes { self.new.nodes ≡ self.old.nodes }
        ensures same { OnErr result (self.new.heads ≡ self.old.heads) }
        ensures spare { self.old.spare ≤ self.new.spare + 1 }
        ensures full { OnErr result (self.old.spare ≡ 0) }
    {
        self.reserved = self.reserved.saturating_sub(1);
        let heads = &mut self.heads[message.source.0 as usize];
        if heads.len() != message.ssn as usize {
            return Ok(());
        }
        heads.push(None)?;
        Ok(())
    }

    /// Adds a receipt at the front of its message's chain.
    pub(crate) fn add_receipt(
        &mut self,
        message: MsgName,
        receipt: MessageReceipt,
    ) -> Result<(), NoMemory>
        requires head { HasHead self.old.heads message }
        requires few { length self.old.nodes < max_entries }
        ensures heads { OnOk result (self.new.heads ≡
            with_head self.old.heads message (Some (length self.old.nodes))) }
        ensures nodes { OnOk result (self.new.nodes ≡ with_receipt self.old message receipt) }
        ensures same { OnErr result ((self.new.heads ≡ self.old.heads) ×
            (self.new.nodes ≡ self.old.nodes)) }
        ensures spare { self.old.spare ≤ self.new.spare + 1 }
        ensures full { OnErr result (self.old.spare ≡ 0) }
    {
        self.reserved = self.reserved.saturating_sub(1);
        let place = self.nodes.len() as u32;
        let next = self.head(message);
        self.nodes.push(ReceiptNode { receipt, next })?;
        self.heads[message.source.0 as usize][message.ssn as usize] = Some(place);
        Ok(())
    }

    /// Checks whether the process's newest receipt of the message belongs to this lane. Older receipts belong to
    /// older lanes. O(lanes) time.
    pub(crate) fn is_newest_in(&self, message: MsgName, dest: Pid, lane: u32) -> bool
        requires { AreLinked self.now.heads self.now.nodes }
        ensures { result ≡ is_newest_in dest lane (chain_of self.now message) }
    {
        let mut place = self.head(message);
        while let Some(k) = place {
            let node = self.nodes[k as usize];
            if node.receipt.dest == dest {
                return node.receipt.lane == lane;
            }
            place = node.next;
        }
        false
    }

    /// Returns the index of the newest receipt with this determinant among the first `among`. O(lanes) time.
    pub(crate) fn find(&self, det: Det, among: usize) -> Option<u32>
        requires { AreLinked self.now.heads self.now.nodes }
        ensures { result ≡ receipt_index among det self.now.nodes
            (head_of self.now.heads (message_of det)) }
    {
        self.find_from(self.head(det.message()), det, among)
    }

    /// Searches as `find` does, from the node `begin` of a chain.
    #[tactic(auto, using(crate::proofs::DeliveryPlaces::place_none))]
    pub(crate) fn find_from(&self, begin: Option<u32>, det: Det, among: usize) -> Option<u32>
        requires linked { AreLinked self.now.heads self.now.nodes }
        requires begin { IsPlaceBelow begin (length self.now.nodes) }
        ensures { result ≡ receipt_index among det self.now.nodes begin }
    {
        let mut place = begin;
        while let Some(k) = place {
            let node = self.nodes[k as usize];
            if is_of_first(among, det, k, node.receipt) {
                return Some(k);
            }
            place = node.next;
        }
        None
    }

    /// Searches as `find_from` does, but visits at most 16 receipts.
    #[tactic(auto, using(crate::proofs::DeliveryPlaces::place_none))]
    pub(crate) fn find_near(&self, begin: Option<u32>, det: Det, among: usize) -> Search
        requires linked { AreLinked self.now.heads self.now.nodes }
        requires begin { IsPlaceBelow begin (length self.now.nodes) }
        ensures { IfFinished result (λ found. found ≡ receipt_index among det self.now.nodes begin) }
    {
        let mut place = begin;
        for _ in 0..FEW_STEPS {
            let Some(k) = place else {
                return Search::Finished(None);
            };
            let node = self.nodes[k as usize];
            if is_of_first(among, det, k, node.receipt) {
                return Search::Finished(Some(k));
            }
            place = node.next;
        }
        Search::Unfinished
    }

    /// Returns the index of the message's newest receipt.
    pub(crate) fn head(&self, message: MsgName) -> Option<u32>
        ensures { result ≡ head_of self.now.heads message }
    {
        let heads = self.heads.get(message.source.0 as usize)?;
        *heads.get(message.ssn as usize)?
    }

    /// Reserves capacity for the next `entries` messages and receipts; if it allocates, for at least 128 where memory
    /// allows.
    pub(crate) fn reserve(&mut self, entries: usize) -> Result<(), NoMemory>
        ensures heads { self.new.heads ≡ self.old.heads }
        ensures nodes { self.new.nodes ≡ self.old.nodes }
        ensures ok { OnOk result (entries ≤ self.new.spare) }
        ensures spare { self.old.spare ≤ self.new.spare }
        ensures full { OnErr result (self.old.spare < entries) }
    {
        if entries <= self.reserved {
            return Ok(());
        }
        if self.reserve_now(entries.max(RESERVE_STEP)).is_err() {
            self.reserve_now(entries)?;
        }
        Ok(())
    }

    /// Reserves capacity for exactly `entries` more in each list of heads and in the nodes.
    fn reserve_now(&mut self, entries: usize) -> Result<(), NoMemory>
        ensures heads { self.new.heads ≡ self.old.heads }
        ensures nodes { self.new.nodes ≡ self.old.nodes }
        ensures ok { OnOk result (entries ≤ self.new.spare) }
        ensures spare { self.old.spare ≤ self.new.spare }
        ensures full { OnErr result (self.old.spare < entries) }
    {
        reserve_each(self.heads.as_mut_slice(), entries)?;
        self.nodes.reserve(entries)?;
        self.reserved = entries;
        Ok(())
    }

    /// Returns a copy.
    pub(crate) fn try_clone(&self) -> Result<Chains, NoMemory>
        ensures heads { IfOk result (λ copy. copy.heads ≡ self.now.heads) }
        ensures nodes { IfOk result (λ copy. copy.nodes ≡ self.now.nodes) }
    {
        let heads = clone_lists(self.heads.as_slice(), *self.heads.allocator())?;
        let nodes = self.nodes.clone()?;
        Ok(Chains {
            heads,
            nodes,
            reserved: 0,
        })
    }
}

/// Checks whether a receipt of the determinant's message is a delivery with it, and its index is below `among`.
fn is_of_first(among: usize, det: Det, place: u32, receipt: MessageReceipt) -> bool
    ensures { result ≡ (nat_lt place among && is_receipt_of det receipt) }
{
    (place as usize) < among && receipt.dest == det.dest && receipt.rsn == det.rsn
}

/// Returns `count` empty lists.
fn empty_lists(alloc: Global, count: usize) -> Result<Vec<Vec<Option<u32>>>, NoMemory>
    ensures { IfOk result (λ lists. map (λ list. list.items) lists.items ≡ replicate count []) }
{
    let mut lists = Vec::new(alloc);
    for _ in 0..count {
        lists.push(Vec::new(alloc))?;
    }
    Ok(lists)
}

/// Reserves capacity for this many more items in each list.
fn reserve_each(lists: &mut [Vec<Option<u32>>], room: usize) -> Result<(), NoMemory>
    ensures items { map (λ list. list.items) lists.new ≡ map (λ list. list.items) lists.old }
    ensures ok { OnOk result ((other : ℕ) → room ≤ other → room ≤ least_room lists.new other) }
    ensures grown { (other : ℕ) → least_room lists.old other ≤ least_room lists.new other }
    ensures full { OnErr result ((other : ℕ) → least_room lists.old other < room) }
{
    for list in lists.iter_mut() {
        list.reserve(room)?;
    }
    Ok(())
}

/// Returns a copy of each list.
fn clone_lists(lists: &[Vec<Option<u32>>], alloc: Global) -> Result<Vec<Vec<Option<u32>>>, NoMemory>
    ensures { IfOk result (λ copy. map (λ list. list.items) copy.items ≡ map
        (λ list. list.items) lists.now) }
{
    let mut copied = Vec::new(alloc);
    for list in lists {
        copied.push(clone_list(list)?)?;
    }
    Ok(copied)
}

/// Returns a copy of a list.
fn clone_list(list: &Vec<Option<u32>>) -> Result<Vec<Option<u32>>, NoMemory>
    ensures { IfOk result (λ copy. copy.items ≡ list.now.items) }
{
    Ok(list.clone()?)
}
