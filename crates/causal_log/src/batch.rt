//! The piggyback of a message.
#![tactic(auto, using(crate::proofs::Rules::of_batch))]

ghost use Rattle.std.specs.Prelude.{◌≡◌, ◌≤◌, true, false, [], Some, take, drop, slice_get, length, IfOk, IfSome, IsNone};
ghost use Rattle.causal_name.specs.Names.{is_ascending, same_det};
ghost use Rattle.causal_log.specs.Knowledge.{union_with};
ghost use Rattle.causal_log.specs.Inside.BatchCache.{known_of_item};
ghost use Rattle.causal_log.specs.Inside.Merges.{NextIsNotBefore};
ghost use Rattle.causal_log.specs.Logs.{dets_of, names_det, AllBefore, AllAfter};

use crate::known::Known;
use causal_holders::Holders;
use causal_name::{Det, NoMemory};
use std::alloc::Global;
use std::marker::Model;
use std::sync::Arc;

/// A determinant that a message carries, with the processes that its sender knew to hold it.
#[derive(Clone, Copy, PartialEq, Eq)]
pub struct Item {
    pub det: Det,
    pub holders: Holders,
}

impl Item {
    /// Returns what the sender knew of the determinant.
    pub(crate) fn sender_knowledge(&self) -> Known
        ensures { result ≡ known_of_item self.now }
    {
        Known {
            holders: self.holders,
            stable: false,
        }
    }

    /// Returns what the receiver learns from the item, if `both` says that the sender and the receiver hold its
    /// determinant.
    pub(crate) fn receiver_knowledge(&self, both: &Known) -> Known
        ensures { result ≡ union_with (known_of_item self.now) both.now }
    {
        self.sender_knowledge().union_with(*both)
    }
}

/// The piggyback of a message: items whose determinants strictly ascend. `Log::choose` and `Log::choose_after_delivery` return
/// one.
///
/// All messages of a step carry the same batch, which they, the outbox and the log share: a copy for each would multiply
/// the memory of a long one. An empty batch is shared without a count, and allocates nothing.
#[derive(Drop)]
pub struct Batch {
    /// `None` if there are none.
    items: Option<Arc<Vec<Item>>>,
}

impl Model for Batch {
    ghost use Rattle.std.specs.Prelude.{◌≡◌, true, List};
    ghost use Rattle.causal_log.specs.declared.batch.Item.{Item};
    ghost use Rattle.std.specs.Coded.{coded_list};
    ghost use Rattle.causal_log.specs.Knowledge.{coded_item};

    ghost Value = { List Item };

    ghost coded = { coded_list coded_item };

    ghost use Rattle.causal_name.specs.Names.{is_ascending};
    ghost use Rattle.causal_log.specs.Logs.{dets_of};
    ghost use Rattle.causal_log.specs.Inside.SharedItems.{shared_items};

    ghost view = { λ batch. shared_items batch.items };

    ghost invariant = { λ batch. is_ascending (dets_of (shared_items batch.items)) ≡ true };
}

impl Batch {
    /// Returns the batch of no items. It allocates nothing.
    pub fn empty() -> Batch
        ensures { result ≡ [] }
    {
        Batch { items: None }
    }

    /// Returns the batch of these items, whose determinants strictly ascend. Fails only if out of memory; if there are
    /// none, it allocates nothing.
    pub fn new(alloc: Global, items: Vec<Item>) -> Result<Batch, NoMemory>
        requires { is_ascending (dets_of items.items) ≡ true }
        ensures { IfOk result (λ batch. batch ≡ items.items) }
    {
        if items.is_empty() {
            return Ok(Batch::empty());
        }
        let shared = Arc::new(alloc, items)?;
        Ok(Batch {
            items: Some(shared),
        })
    }

    /// Returns the same batch, shared with this one. It copies no item and allocates nothing. Fails only if too many
    /// share it to be counted.
    pub fn share(&self) -> Result<Batch, NoMemory>
        ensures { IfOk result (λ batch. batch ≡ self.now) }
    {
        let items = match &self.items {
            Some(shared) => Some(Arc::try_clone(shared)?),
            None => None,
        };
        Ok(Batch { items })
    }

    /// Returns the items, by strictly ascending determinant.
    pub fn as_slice(&self) -> &[Item]
        ensures items { result.now ≡ self.now }
        ensures ascending { is_ascending (dets_of self.now) ≡ true }
    {
        match &self.items {
            Some(shared) => shared.as_slice(),
            None => &[],
        }
    }

    /// Returns the index at which a determinant would be inserted, or `None` if an item names it. Takes O(log items)
    /// time.
    pub fn place_for(&self, det: Det) -> Option<usize>
        ensures named { IsNone result → names_det det self.now ≡ true }
        ensures within { IfSome result (λ place. place ≤ length self.now) }
        ensures before { IfSome result (λ place. AllBefore (take place self.now) det) }
        ensures after { IfSome result (λ place. AllAfter det (drop place self.now)) }
    {
        let items = self.as_slice();
        let place = item_index(items, det);
        match next_of(items, place, det) {
            Some(_) => None,
            None => Some(place),
        }
    }
}

/// Returns the index of the first of ascending items that does not come before a determinant.
pub(crate) fn item_index(items: &[Item], det: Det) -> usize
    requires { is_ascending (dets_of items.now) ≡ true }
    ensures within { result ≤ length items.now }
    ensures before { AllBefore (take result items.now) det }
    ensures next { NextIsNotBefore items.now result det }
{
    let mut place = 0;
    let mut end = items.len();
    while place < end {
        let middle = place + (end - place) / 2;
        if items[middle].det.comes_before(&det) {
            place = middle + 1;
        } else {
            end = middle;
        }
    }
    place
}

/// Returns the item at an index, if it names this determinant.
pub(crate) fn next_of(kept: &[Item], place: usize, det: Det) -> Option<Item>
    ensures found { IfSome result (λ item. slice_get kept.now place ≡ Some item) }
    ensures same { IfSome result (λ item. item.det ≡ det) }
    ensures other { IsNone result →
        IfSome (slice_get kept.now place) (λ item. same_det item.det det ≡ false) }
{
    let item = *kept.get(place)?;
    if item.det == det { Some(item) } else { None }
}

/// Whether one of ascending items names a determinant.
#[tactic(auto, using(crate::proofs::Rules::of_batch, crate::proofs::MergeLemmas::unnamed_at))]
pub(crate) fn names_det(items: &[Item], det: Det) -> bool
    requires { is_ascending (dets_of items.now) ≡ true }
    ensures { result ≡ names_det det items.now }
{
    next_of(items, item_index(items, det), det).is_some()
}
