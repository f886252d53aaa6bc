//! What messages carried when it was last chosen, and which determinants have changed since.
#![tactic(auto, using(crate::proofs::Rules::of_changes))]

ghost use Rattle.std.specs.Prelude.{◌≡◌, [], ◌∷◌, List, IfOk};
ghost use Rattle.std.specs.Map.{keys_of};
ghost use Rattle.causal_name.specs.declared.Det.{Det};
ghost use Rattle.causal_log.specs.Logs.{LogMap, log_of, batch_items, dets_of};
ghost use Rattle.causal_log.specs.Inside.BatchCache.{CacheIsRight, CacheIsRightBut, CarriesBut};

use crate::batch::{Batch, Item};
use crate::changed_batch::{in_order_once, merge_changes};
use crate::known::Known;
use crate::table::Table;
use causal_name::{Det, NoMemory};
use std::alloc::Global;

/// The batch that messages carried for a bound `f` when it was last chosen, shared with them, and what has changed since.
#[derive(Drop)]
pub(crate) struct CachedBatch {
    pub f: u16,
    pub batch: Batch,
    /// The determinants of which something was learned since, in any order and perhaps more than once.
    pub changed: Vec<Det>,
}

impl CachedBatch {
    /// Returns the items that messages carry now. Takes O(items + changes * log changes) time.
    pub(crate) fn current_items(
        &self,
        alloc: Global,
        entries: &Table,
    ) -> Result<Vec<Item>, NoMemory>
        requires { CarriesBut self.now.changed.items self.now.f (log_of entries.now.entries)
            self.now.batch }
        ensures { IfOk result (λ items. items.items
            ≡ batch_items self.now.f (log_of entries.now.entries)) }
    {
        let items = self.batch.as_slice();
        let changed = in_order_once(alloc, self.changed.as_slice())?;
        merge_changes(alloc, items, changed.as_slice(), self.f, entries)
    }
}

/// Notes that a determinant changes. Once more have changed than the log has, or if there is no memory for one more, the
/// batch is dropped: then it takes no longer to choose one from all entries.
pub(crate) fn note_change(cached: &mut Option<CachedBatch>, det: Det, most: usize)
    ensures { (log : LogMap) (others : List Det) →
        CacheIsRightBut (det ∷ others) cached.old log → CacheIsRightBut others cached.new log }
{
    let Some(kept) = cached else {
        return;
    };
    if kept.changed.len() >= most || kept.changed.push(det).is_err() {
        *cached = None;
    }
}

/// Notes that the determinants of items change.
pub(crate) fn note_items(cached: &mut Option<CachedBatch>, items: &[Item], most: usize)
    ensures { (log : LogMap) →
        CacheIsRightBut (dets_of items.now) cached.old log → CacheIsRight cached.new log }
{
    for item in items {
        note_change(cached, item.det, most);
    }
}

/// Notes that the determinants of entries change.
pub(crate) fn note_entries(cached: &mut Option<CachedBatch>, entries: &[(Det, Known)], most: usize)
    ensures { (log : LogMap) →
        CacheIsRightBut (keys_of entries.now) cached.old log → CacheIsRight cached.new log }
{
    for (det, _) in entries {
        note_change(cached, *det, most);
    }
}
