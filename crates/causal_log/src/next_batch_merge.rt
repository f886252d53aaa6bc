//! What messages carry after a delivery, computed without changing the log. What they carry before it and the
//! delivery's items both ascend, and are merged in one pass. At each step the copied items and the rest of the old
//! ones are what messages carry of a log that has learned the items so far.
#![tactic(auto, using(crate::proofs::Rules::of_merging))]

ghost use Rattle.std.specs.Prelude.{◌≡◌, ◌≤◌, ◌<◌, ◌-◌, ◌++◌, true, false, Some, is_some, take, drop, slice_get, length, vec_len, IfOk, OnOk, IfSome, IsNone};
ghost use Rattle.std.specs.List.{list_all};
ghost use Rattle.std.specs.FinMap as fin;
ghost use Rattle.causal_name.specs.declared.Det.{Det};
ghost use Rattle.causal_name.specs.Names.{is_ascending, is_before, same_det};
ghost use Rattle.causal_log.specs.declared.batch.Item.{Item};
ghost use Rattle.causal_log.specs.Knowledge.{knowledge_from_item, is_carried};
ghost use Rattle.causal_log.specs.Logs.{LogMap, log_of, batch_items, dets_of, AllBefore};
ghost use Rattle.causal_log.specs.Inside.BatchCache.{held_by_both, with_carried, LearnsItem};
ghost use Rattle.causal_log.specs.Inside.Merges.{AreDisjoint, NextIsNotBefore, are_known_to_hold, log_before, log_after_items, log_after};

use crate::batch::{Batch, Item, item_index, names_det, next_of};
use crate::known::{Known, knowledge_from_item};
use crate::table::Table;
use causal_holders::Holders;
use causal_name::{Det, NoMemory, Pid};
use std::alloc::Global;

/// A delivery to be added to a log's entries: the items of its message, which process `from` sent to `me`, its own
/// determinant, and the bound `f` by which messages carry determinants.
#[derive(Clone, Copy)]
pub(crate) struct AppliedDelivery<'a> {
    pub entries: &'a Table,
    pub items: &'a [Item],
    pub own: Det,
    pub from: Pid,
    pub me: Pid,
    pub f: u16,
}

impl AppliedDelivery<'_> {
    /// Whether messages may carry the delivery's items on. The sender and the receiver hold them all, and may already
    /// be more than f.
    fn may_carry(&self) -> bool
        ensures { result ≡ false → (item : Item) →
            is_carried self.now.f (knowledge_from_item self.now.from self.now.me item).1 ≡ false }
    {
        self.f > u16::from(self.me != self.from)
    }
}

fn are_known_to_hold(entries: &Table, det: Det, holders: Holders) -> bool
    ensures { result ≡ are_known_to_hold (log_of entries.now.entries) det holders }
{
    entries
        .find(det)
        .is_some_and(|(_, known)| holders.is_subset(known.holders))
}

fn are_items_known(delivery: &AppliedDelivery<'_>) -> bool
    ensures { result ≡ list_all (λ item. are_known_to_hold (log_before delivery.now) item.det
        (knowledge_from_item delivery.now.from delivery.now.me item).1.holders) delivery.now.items.now }
{
    delivery.items.iter().all(|item| {
        let news = knowledge_from_item(delivery.from, delivery.me, item);
        are_known_to_hold(delivery.entries, item.det, news.holders)
    })
}

/// Whether messages are found to carry the same after a delivery, as in a replay where all that it brings is known.
/// Reads the items only if messages may carry them.
fn changes_nothing(kept: &[Item], delivery: &AppliedDelivery<'_>) -> bool
    ensures { result ≡ true → kept.now ≡ batch_items delivery.now.f (log_before delivery.now) →
        kept.now ≡ batch_items delivery.now.f (log_after delivery.now) }
{
    if delivery.items.is_empty() && kept.is_empty() && delivery.f == 0 {
        return true;
    }
    if !delivery.items.is_empty() && !delivery.may_carry() {
        return false;
    }
    let held = Known::held_by(delivery.me);
    are_known_to_hold(delivery.entries, delivery.own, held.holders) && are_items_known(delivery)
}

/// Returns the first index from `from` on whose item does not come before a determinant.
fn end_before(kept: &[Item], from: usize, det: Det) -> usize
    requires { from ≤ length kept.now }
    ensures from { from ≤ result }
    ensures within { result ≤ length kept.now }
    ensures next { NextIsNotBefore kept.now result det }
    ensures last { from < result →
        IfSome (slice_get kept.now (result - 1)) (λ item. is_before item.det det ≡ true) }
{
    let mut place = from;
    while place < kept.len() && kept[place].det.comes_before(&det) {
        place += 1;
    }
    place
}

/// Copies the items that come before a determinant, and returns the index of the next one.
pub(crate) fn copy_before(
    out: &mut Vec<Item>,
    kept: &[Item],
    from: usize,
    det: Det,
) -> Result<usize, NoMemory>
    requires within { from ≤ length kept.now }
    requires ascending { is_ascending (dets_of (out.old.items ++ drop from kept.now)) ≡ true }
    requires before { AllBefore out.old.items det }
    ensures within { IfOk result (λ next. next ≤ length kept.now) }
    ensures same { IfOk result
        (λ next. out.new.items ++ drop next kept.now ≡ out.old.items ++ drop from kept.now) }
    ensures before { OnOk result (AllBefore out.new.items det) }
    ensures next { IfOk result (λ next. NextIsNotBefore kept.now next det) }
{
    let next = end_before(kept, from, det);
    if next == from {
        return Ok(next);
    }
    out.extend_from_slice(&kept[from..next])?;
    Ok(next)
}

/// Appends a determinant of which this is known, if messages carry it.
pub(crate) fn push_if_carried(
    out: &mut Vec<Item>,
    det: Det,
    known: Known,
    f: u16,
) -> Result<(), NoMemory>
    ensures { OnOk result (out.new.items ≡ with_carried f det known out.old.items) }
{
    if known.is_carried(f) {
        let holders = known.holders;
        out.push(Item { det, holders })?;
    }
    Ok(())
}

/// Merges one item: appends its determinant if it is that of the next kept item, or is not logged. A determinant that
/// is logged but not carried stays so.
fn merge_item(
    out: &mut Vec<Item>,
    kept: &[Item],
    place: usize,
    delivery: &AppliedDelivery<'_>,
    both: &Known,
    item: &Item,
) -> Result<usize, NoMemory>
    requires within { place ≤ length kept.now }
    requires both { both.now ≡ held_by_both delivery.now.from delivery.now.me }
    requires before { AllBefore out.old.items item.now.det }
    requires next { NextIsNotBefore kept.now place item.now.det }
    ensures within { IfOk result (λ next. next ≤ length kept.now) }
    ensures news { IfOk result (λ next. (log : LogMap) →
        is_some (fin.get log item.now.det)
        ≡ is_some (fin.get (log_before delivery.now) item.now.det) →
        LearnsItem delivery.now.f item.now.det
        (knowledge_from_item delivery.now.from delivery.now.me item.now).1 log
        (out.old.items ++ drop place kept.now) (out.new.items ++ drop next kept.now)) }
    ensures before { OnOk result
        ((d : Det) → is_before item.now.det d ≡ true → AllBefore out.new.items d) }
{
    let news = item.receiver_knowledge(both);
    if let Some(next) = next_of(kept, place, item.det) {
        push_if_carried(
            out,
            item.det,
            next.sender_knowledge().union_with(news),
            delivery.f,
        )?;
        return Ok(place + 1);
    }
    if !news.is_carried(delivery.f) || delivery.entries.find(item.det).is_some() {
        return Ok(place);
    }
    push_if_carried(out, item.det, news, delivery.f)?;
    Ok(place)
}

/// Whether the items are found to be between two neighbours of what messages carry, which then carry none of them.
fn fit_between(kept: &[Item], items: &[Item]) -> bool
    requires kept { is_ascending (dets_of kept.now) ≡ true }
    requires ascending { is_ascending (dets_of items.now) ≡ true }
    ensures { result ≡ true → AreDisjoint items.now kept.now }
{
    let (Some(first), Some(last)) = (items.first(), items.last()) else {
        return true;
    };
    match kept.get(item_index(kept, first.det)) {
        Some(next) => last.det.comes_before(&next.det),
        None => true,
    }
}

/// Returns what messages carry once the items are learned.
fn merge_batches(
    alloc: Global,
    kept: &[Item],
    delivery: &AppliedDelivery<'_>,
) -> Result<Vec<Item>, NoMemory>
    requires kept { kept.now ≡ batch_items delivery.now.f (log_before delivery.now) }
    requires ascending { is_ascending (dets_of delivery.now.items.now) ≡ true }
    ensures { IfOk result (λ out. out.items
        ≡ batch_items delivery.now.f (log_after_items delivery.now)) }
{
    let items = delivery.items;
    let more = if delivery.may_carry() { items.len() } else { 0 };
    let most = kept.len().saturating_add(more);
    let mut out = Vec::with_capacity(alloc, most.saturating_add(1))?;
    if !delivery.may_carry() && fit_between(kept, items) {
        out.extend_from_slice(kept)?;
        return Ok(out);
    }
    let both = Known::held_by_both(delivery.from, delivery.me);
    let mut place = 0;
    for item in items {
        place = copy_before(&mut out, kept, place, item.det)?;
        place = merge_item(&mut out, kept, place, delivery, &both, item)?;
    }
    out.extend_from_slice(&kept[place..])?;
    Ok(out)
}

/// Inserts a determinant of which this is known at an index, if messages carry it.
fn insert_if_carried(
    out: &mut Vec<Item>,
    place: usize,
    det: Det,
    known: Known,
    f: u16,
) -> Result<(), NoMemory>
    requires { place ≤ vec_len out.old }
    ensures { OnOk result (out.new.items ≡
        with_carried f det known (take place out.old.items) ++ drop place out.old.items) }
{
    if known.is_carried(f) {
        let holders = known.holders;
        out.insert(place, Item { det, holders })?;
    }
    Ok(())
}

/// Adds the delivery's own determinant, which only its receiver holds.
fn insert_own(out: &mut Vec<Item>, delivery: &AppliedDelivery<'_>) -> Result<(), NoMemory>
    requires news { out.old.items ≡ batch_items delivery.now.f (log_after_items delivery.now) }
    requires ascending { is_ascending (dets_of delivery.now.items.now) ≡ true }
    ensures { OnOk result (out.new.items ≡ batch_items delivery.now.f (log_after delivery.now)) }
{
    let det = delivery.own;
    let held = Known::held_by(delivery.me);
    let items = out.as_slice();
    let place = item_index(items, det);
    if let Some(item) = next_of(items, place, det) {
        out.remove(place);
        return insert_if_carried(
            out,
            place,
            det,
            item.sender_knowledge().union_with(held),
            delivery.f,
        );
    }
    if delivery.entries.find(det).is_some() || names_det(delivery.items, det) {
        return Ok(());
    }
    insert_if_carried(out, place, det, held, delivery.f)
}

/// Returns the batch that messages carry after a delivery, given the one that they carry before it; it is the same
/// batch if it is found to stay the same.
pub(crate) fn next_batch(
    alloc: Global,
    batch: &Batch,
    delivery: &AppliedDelivery<'_>,
) -> Result<Batch, NoMemory>
    requires kept { batch.now ≡ batch_items delivery.now.f (log_before delivery.now) }
    requires ascending { is_ascending (dets_of delivery.now.items.now) ≡ true }
    ensures { IfOk result (λ next. next
        ≡ batch_items delivery.now.f (log_after delivery.now)) }
{
    let kept = batch.as_slice();
    if changes_nothing(kept, delivery) {
        return batch.share();
    }
    let mut items = merge_batches(alloc, kept, delivery)?;
    insert_own(&mut items, delivery)?;
    items.shrink_to_fit();
    Batch::new(alloc, items)
}
