//! The deliveries of a trace in the order of their determinants, for traces with many restarts.
ghost use Rattle.std.specs.Prelude.{◌≡◌, ◌+◌, ◌<◌, ◌≤◌, ◌∷◌, ℕ, true, List, length};
ghost use Rattle.std.specs.Option.{option_map_or};
ghost use Rattle.causal_name.specs.declared.Det.{Det};
ghost use Rattle.causal_trace.specs.Limits.{max_entries};
ghost use Rattle.causal_trace.specs.declared.entry.Entry.{Entry};
ghost use Rattle.causal_trace.specs.Numbers.{delivered_dets, number_of};
ghost use Rattle.causal_trace.specs.State.{past_at};
ghost use Rattle.causal_trace.specs.Inside.SortedDeliveries.{AreDeliveries};

use crate::entry::Entry;
use crate::limits::MAX_ENTRIES;
use crate::scans;
use causal_name::Det;
use std::alloc::Global;
use std::collections::BTreeSet;

/// A delivery: its determinant, and its number, counted from 0.
#[derive(Clone, Copy, Debug, PartialEq, Eq, PartialOrd, Ord)]
pub(crate) struct NumberedDelivery {
    pub det: Det,
    pub number: u32,
}

/// The deliveries of a trace, sorted by determinant, then number. The set is complete, or unused and empty: if an
/// allocation fails, it is emptied for good. It takes 20 bytes for each delivery, besides the spare capacity of its
/// nodes.
#[derive(Drop)]
pub(crate) struct SortedDeliveries {
    deliveries: BTreeSet<NumberedDelivery>,
    complete: bool,
}

impl SortedDeliveries {
    /// Returns an unused set. Allocates nothing.
    pub(crate) fn new(alloc: Global) -> SortedDeliveries
        ensures { (dets : List Det) → AreDeliveries result dets }
    {
        SortedDeliveries {
            deliveries: BTreeSet::new(alloc),
            complete: false,
        }
    }

    /// Returns whether the set is complete.
    pub(crate) fn is_complete(&self) -> bool
        ensures { result ≡ self.now.complete }
    {
        self.complete
    }

    /// Adds a delivery with this number if the set is complete. O(log deliveries) time.
    fn add(&mut self, det: Det, number: u32)
        ensures { (dets : List Det) → length dets ≡ number → AreDeliveries self.old dets →
            AreDeliveries self.new (det ∷ dets) }
    {
        if !self.complete {
            return;
        }
        let Ok(_) = self.deliveries.insert(NumberedDelivery { det, number }) else {
            self.deliveries.clear();
            self.complete = false;
            return;
        };
    }

    /// Adds the delivery with determinant `own`, if there is one and the set is complete; it has this number.
    /// O(log deliveries) time.
    pub(crate) fn add_own(&mut self, own: Option<Det>, number: u32)
        ensures { (dets : List Det) → length dets ≡ number → AreDeliveries self.old dets →
            AreDeliveries self.new (option_map_or (λ det. det ∷ dets) own dets) }
    {
        match own {
            Some(det) => self.add(det, number),
            None => {}
        }
    }

    /// Adds all deliveries of these entries to an empty set, which is then complete unless an allocation failed.
    /// O(entries + deliveries log deliveries) time.
    pub(crate) fn fill(&mut self, entries: &[Entry])
        requires { length entries.now ≤ max_entries }
        ensures { AreDeliveries self.new
            (delivered_dets (past_at entries.now (length entries.now))) }
    {
        self.deliveries.clear();
        self.complete = true;
        let mut number = 0;
        for (t, entry) in entries.iter().enumerate() {
            let own = scans::det_of(entries, t, entry);
            self.add_own(own, number);
            number += delivery_in(own);
        }
    }

    /// Fills the set as `fill` does, if it `begins`.
    pub(crate) fn fill_if(&mut self, begins: bool, entries: &[Entry])
        requires { length entries.now ≤ max_entries }
        ensures { AreDeliveries self.old (delivered_dets (past_at entries.now (length entries.now)))
            → AreDeliveries self.new (delivered_dets (past_at entries.now (length entries.now))) }
    {
        if begins {
            self.fill(entries);
        }
    }

    /// Adds the delivery that an entry is, if it is one, after those of these entries, of which there are `number`, if the
    /// set is complete or `begins`; if it begins, it is filled first. Most traces have few restarts, and so need no such
    /// set: for them this is a test. O(log deliveries) time unless it begins.
    #[inline]
    pub(crate) fn add_next(&mut self, begins: bool, entries: &[Entry], entry: &Entry, number: u32)
        requires { length entries.now ≤ max_entries }
        ensures { (past : List Entry) → past ≡ past_at entries.now (length entries.now) →
            length (delivered_dets past) ≡ number →
            AreDeliveries self.old (delivered_dets past) →
            AreDeliveries self.new (delivered_dets (entry.now ∷ past)) }
    {
        if begins || self.complete {
            self.add_entry(begins, entries, entry, number);
        }
    }

    /// Adds the delivery as `add_next` does, whether or not the set is complete. It is a call, so that a push which makes
    /// none does not prepare for it.
    #[inline(never)]
    fn add_entry(&mut self, begins: bool, entries: &[Entry], entry: &Entry, number: u32)
        requires { length entries.now ≤ max_entries }
        ensures { (past : List Entry) → past ≡ past_at entries.now (length entries.now) →
            length (delivered_dets past) ≡ number →
            AreDeliveries self.old (delivered_dets past) →
            AreDeliveries self.new (delivered_dets (entry.now ∷ past)) }
    {
        self.fill_if(begins, entries);
        let own = scans::det_of_next(entries, entry);
        self.add_own(own, number);
    }

    /// Returns the number of the newest delivery with this determinant among the first `among` deliveries.
    /// O(log deliveries) time.
    pub(crate) fn newest(&self, det: Det, among: usize) -> Option<u32>
        requires { self.now.complete ≡ true }
        ensures { (dets : List Det) → length dets ≤ max_entries → AreDeliveries self.now dets →
            result ≡ number_of among dets det }
    {
        let number = number_within(among);
        let begin = NumberedDelivery { det, number: 0 };
        let end = NumberedDelivery { det, number };
        match self.deliveries.range(begin..end).next_back() {
            Some(found) => Some(found.number),
            None => None,
        }
    }
}

/// Returns 1 for the determinant of a delivery, and 0 for none.
fn delivery_in(own: Option<Det>) -> u32
    ensures few { result ≤ 1 }
    ensures count { (dets : List Det) →
        length (option_map_or (λ det. det ∷ dets) own dets) ≡ length dets + result }
{
    match own {
        Some(_) => 1,
        None => 0,
    }
}

/// Returns this number, or 16,777,216 if it is greater: no trace has more deliveries.
fn number_within(among: usize) -> u32
    ensures low { result ≤ among }
    ensures high { (j : ℕ) → j < among → j < max_entries → j < result }
{
    if among < MAX_ENTRIES {
        among as u32
    } else {
        MAX_ENTRIES as u32
    }
}
