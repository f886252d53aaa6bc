//! What messages carry now, given what they carried before some determinants changed. Those ascend, as the items do, and
//! are merged into them in one pass.
#![tactic(auto, using(crate::proofs::Rules::of_changes))]

ghost use Rattle.std.specs.Prelude.{◌≡◌, ◌≤◌, ◌++◌, ◌∷◌, List, true, false, drop, length, IfOk, OnOk};
ghost use Rattle.std.specs.List.{list_any};
ghost use Rattle.std.specs.Map.{lookup};
ghost use Rattle.std.specs.FinMap as fin;
ghost use Rattle.causal_name.specs.declared.Det.{Det};
ghost use Rattle.causal_name.specs.Names.{is_ascending, is_before, same_det};
ghost use Rattle.causal_log.specs.Logs.{log_of, batch_items, dets_of, AllBefore};
ghost use Rattle.causal_log.specs.Inside.BatchCache.{item_entries, with_knowledge, CarriesBut};
ghost use Rattle.causal_log.specs.Inside.Merges.{NextIsNotBefore};

use crate::batch::{Item, next_of};
use crate::next_batch_merge::{copy_before, push_if_carried};
use crate::table::Table;
use causal_name::{Det, NoMemory};
use std::alloc::Global;

/// Returns the determinants in ascending order, each once.
pub(crate) fn in_order_once(alloc: Global, dets: &[Det]) -> Result<Vec<Det>, NoMemory>
    ensures ascending { IfOk result (λ sorted. is_ascending sorted.items ≡ true) }
    ensures all { IfOk result (λ sorted. (q : Det) →
        list_any (same_det q) sorted.items ≡ false → list_any (same_det q) dets.now ≡ false) }
{
    let mut sorted = Vec::from_slice(alloc, dets)?;
    sorted.sort()?;
    sorted.dedup();
    Ok(sorted)
}

/// Appends a determinant with its known holders, if messages carry it.
fn push_if_open(out: &mut Vec<Item>, entries: &Table, det: Det, f: u16) -> Result<(), NoMemory>
    ensures { OnOk result (out.new.items
        ≡ with_knowledge f det (fin.get (log_of entries.now.entries) det) out.old.items) }
{
    match entries.find(det) {
        Some((_, known)) => push_if_carried(out, det, known, f),
        None => Ok(()),
    }
}

/// Returns the index of the first item after a determinant, given the first that does not come before it.
fn first_after(kept: &[Item], place: usize, det: Det) -> usize
    requires within { place ≤ length kept.now }
    requires ascending { is_ascending (dets_of (drop place kept.now)) ≡ true }
    requires next { NextIsNotBefore kept.now place det }
    ensures within { result ≤ length kept.now }
    ensures after { is_ascending (det ∷ dets_of (drop result kept.now)) ≡ true }
    ensures elsewhere { (q : Det) → same_det q det ≡ false →
        lookup (same_det q) (item_entries (drop result kept.now))
        ≡ lookup (same_det q) (item_entries (drop place kept.now)) }
{
    match next_of(kept, place, det) {
        Some(_) => place + 1,
        None => place,
    }
}

/// Copies the items that come before a determinant that has changed, then appends it, if messages carry it. Returns the
/// index of the first item after it.
fn merge_change(
    out: &mut Vec<Item>,
    kept: &[Item],
    place: usize,
    det: Det,
    f: u16,
    entries: &Table,
) -> Result<usize, NoMemory>
    requires within { place ≤ length kept.now }
    requires ascending { is_ascending (dets_of (out.old.items ++ drop place kept.now)) ≡ true }
    requires before { AllBefore out.old.items det }
    ensures within { IfOk result (λ next. next ≤ length kept.now) }
    ensures ascending { IfOk result
        (λ next. is_ascending (dets_of (out.new.items ++ drop next kept.now)) ≡ true) }
    ensures right { IfOk result (λ next. (others : List Det) →
        CarriesBut (det ∷ others) f (log_of entries.now.entries) (out.old.items ++ drop place kept.now) →
        CarriesBut others f (log_of entries.now.entries) (out.new.items ++ drop next kept.now)) }
    ensures before { OnOk result
        ((d : Det) → is_before det d ≡ true → AllBefore out.new.items d) }
{
    let next = copy_before(out, kept, place, det)?;
    push_if_open(out, entries, det, f)?;
    Ok(first_after(kept, next, det))
}

/// Returns the items that messages carry, given items that are right except for determinants that have changed.
pub(crate) fn merge_changes(
    alloc: Global,
    kept: &[Item],
    changed: &[Det],
    f: u16,
    entries: &Table,
) -> Result<Vec<Item>, NoMemory>
    requires kept { is_ascending (dets_of kept.now) ≡ true }
    requires ascending { is_ascending changed.now ≡ true }
    requires right { CarriesBut changed.now f (log_of entries.now.entries) kept.now }
    ensures { IfOk result (λ out. out.items ≡ batch_items f (log_of entries.now.entries)) }
{
    let most = kept.len().saturating_add(changed.len());
    let mut out = Vec::with_capacity(alloc, most)?;
    let mut place = 0;
    for det in changed {
        place = merge_change(&mut out, kept, place, *det, f, entries)?;
    }
    out.extend_from_slice(&kept[place..])?;
    out.shrink_to_fit();
    Ok(out)
}
