//! The volatile log of a process.
#![tactic(auto, using(crate::proofs::Rules::of_log))]

ghost use Rattle.std.specs.Prelude.{◌≡◌, ◌↔◌, ◌<◌, ◌≤◌, ◌+◌, ◌^◌, IsTrue, IsSome, IsOk, true, IfOk, OnOk, OnErr, length, slice_get};
ghost use Rattle.std.specs.Map.{keys_of};
ghost use Rattle.std.specs.FinMap as fin;
ghost use Rattle.causal_name.specs.Names.{is_ascending};
ghost use Rattle.causal_log.specs.Knowledge.{held_by, stable_and_held_by};
ghost use Rattle.causal_log.specs.Logs.{log_of, after_learn, after_learn_all, dets_of, after_absorb, after_delivery, after_union, after_mark, stable_in, unstable_in, after_drop_stable, forgotten_in, after_forget, batch_items, named_message, SameMultiset};

use crate::batch::{Batch, Item};
use crate::cached_batch::{CachedBatch, note_change, note_entries, note_items};
use crate::known::Known;
use crate::limits::MAX_LOGGED;
use crate::next_batch_merge::{AppliedDelivery, next_batch};
use crate::table::{
    Table, chosen_items, det_at_rank, dets, forgotten_dets, in_order, learn, learn_entries,
    learn_items, marked_dets, sorted_chosen_items, unstable_len,
};
use causal_name::{Det, MsgName, NoMemory, Pid, Slot};
use std::alloc::Global;
use std::marker::Model;

/// The volatile log of a process: what it knows of each determinant that it logs (`Log(e)` of Elnozahy, Alvisi, Wang
/// and Johnson 2002, from one process's side).
///
/// Contracts see a finite map, and the number of insertions that cannot fail to allocate, which equality ignores. A
/// log has at most [`MAX_LOGGED`] entries; `NoMemory` refuses further ones.
#[derive(Drop)]
pub struct Log {
    alloc: Global,
    /// In insertion order, or sorted.
    entries: Table,
    /// Whether the entries ascend.
    sorted: bool,
    /// What messages carry, if that is known without reading all entries.
    cached_batch: Option<CachedBatch>,
}

impl Model for Log {
    ghost use Rattle.std.specs.Map.{keys_of};
    ghost use Rattle.causal_log.specs.Logs.{LogState, coded_log, log_of};
    ghost use Rattle.causal_log.specs.Inside.BatchCache.{IsLogState};

    ghost Value = { LogState };

    ghost coded = { coded_log };

    ghost view = { λ log. record { map = log_of log.entries.entries; spare = log.entries.spare } };

    ghost invariant = { λ log.
        IsLogState (keys_of log.entries.entries) log.sorted log.cached_batch (log_of log.entries.entries) };
}

impl Log {
    /// Returns an empty log.
    pub fn new(alloc: Global) -> Log
        ensures { result.map ≡ fin.empty }
    {
        Log::with_seed(alloc, 0)
    }

    /// Returns an empty log whose entries are hashed with this seed. Only costs depend on it: a caller who does not
    /// know the seed cannot pick determinants whose hashes collide.
    pub fn with_seed(alloc: Global, seed: u64) -> Log
        ensures { result.map ≡ fin.empty }
    {
        Log {
            alloc,
            entries: Table::new(alloc, seed),
            sorted: true,
            cached_batch: None,
        }
    }

    /// Returns what is known of a determinant, if it is logged. Takes one look-up.
    pub fn known(&self, det: Det) -> Option<Known>
        ensures { result ≡ fin.get self.now.map det }
    {
        self.entries.find(det).map(|(_, known)| known)
    }

    /// Returns the number of determinants. Takes O(1) time.
    pub fn len(&self) -> u32
        ensures value { result ≡ fin.len self.now.map }
        ensures limit { result + self.now.spare ≤ MAX_LOGGED }
    {
        self.entries.entries().len() as u32
    }

    /// Returns the entry at an index, in ascending order of determinants, or `None` if the index is `len` or more.
    /// Allocates nothing. Takes O(1) time in a sorted log, and O(entries²) in any other; a caller that reads many
    /// indexes calls `sort` first.
    pub fn at(&self, i: u32) -> Option<(Det, Known)>
        ensures { result ≡ slice_get (fin.entries self.now.map) i }
    {
        if self.sorted {
            return self.entries.entries().get(i as usize).copied();
        }
        let det = det_at_rank(self.entries.entries(), i)?;
        self.known(det).map(|known| (det, known))
    }

    /// Returns the determinants, ascending. Fails only if out of memory.
    pub fn dets(&self, alloc: Global) -> Result<Vec<Det>, NoMemory>
        ensures { IfOk result (λ dets. dets.items ≡ fin.keys self.now.map) }
    {
        if self.sorted {
            return dets(alloc, self.entries.entries());
        }
        let sorted = in_order(alloc, self.entries.entries())?;
        dets(alloc, sorted.as_slice())
    }

    /// Returns the entries, one for each determinant, in an unspecified order. Allocates nothing; takes O(1) time.
    pub fn entries_unordered(&self) -> &[(Det, Known)]
        ensures entries { log_of result.now ≡ self.now.map }
        ensures counted { SameMultiset (keys_of result.now) (fin.keys self.now.map) }
        ensures few { length result.now ≤ MAX_LOGGED }
    {
        self.entries.entries()
    }

    /// Returns a copy. Fails only if out of memory.
    pub fn try_clone(&self) -> Result<Log, NoMemory>
        ensures { IfOk result (λ copy. copy.map ≡ self.now.map) }
    {
        let entries = self.entries.try_clone()?;
        Ok(Log {
            alloc: self.alloc,
            entries,
            sorted: self.sorted,
            cached_batch: None,
        })
    }

    /// Returns what the messages of a step carry: the determinants that are not known to be stable and have at most
    /// `f` known holders, ascending. All other logged determinants are safe if at most `f` processes fail. Fails only
    /// if out of memory.
    pub fn choose(&self, alloc: Global, f: u16) -> Result<Batch, NoMemory>
        ensures { IfOk result (λ batch. batch ≡ batch_items f self.now.map) }
    {
        Batch::new(alloc, self.piggyback_items(alloc, f)?)
    }

    /// Returns the items that messages carry.
    fn piggyback_items(&self, alloc: Global, f: u16) -> Result<Vec<Item>, NoMemory>
        ensures { IfOk result (λ items. items.items ≡ batch_items f self.now.map) }
    {
        match &self.cached_batch {
            Some(cached) if cached.f == f => cached.current_items(alloc, &self.entries),
            _ if self.sorted => chosen_items(alloc, self.entries.entries(), f),
            _ => sorted_chosen_items(alloc, self.entries.entries(), f),
        }
    }

    /// Caches what messages carry, which is what `choose` returns, so that the next `choose` or `choose_after_delivery` with
    /// the same `f` reads only the entries that have changed since. A runtime shares the batch between the log and the
    /// messages that it sends.
    pub fn cache_batch(&mut self, f: u16, batch: Batch)
        requires { batch ≡ batch_items f self.old.map }
        ensures map { self.new.map ≡ self.old.map }
        ensures spare { self.new.spare ≡ self.old.spare }
    {
        let changed = Vec::new(self.alloc);
        self.cached_batch = Some(CachedBatch { f, batch, changed });
    }

    /// Returns what the messages of a step will carry once `apply_delivery` has added a delivery. It is shared with the
    /// cached batch if that is found to stay the same. Fails only if out of memory.
    pub fn choose_after_delivery(
        &self,
        alloc: Global,
        carried: &Batch,
        own: Det,
        from: Pid,
        me: Pid,
        f: u16,
    ) -> Result<Batch, NoMemory>
        ensures { IfOk result (λ batch. batch ≡
            batch_items f (after_delivery carried.now own from me self.now.map)) }
    {
        let delivery = AppliedDelivery {
            entries: &self.entries,
            items: carried.as_slice(),
            own,
            from,
            me,
            f,
        };
        match &self.cached_batch {
            Some(now) if now.f == f && now.changed.is_empty() => {
                // for the proof: the contract of `as_slice` states that the items ascend
                let _items = now.batch.as_slice();
                next_batch(alloc, &now.batch, &delivery)
            }
            _ => {
                let batch = self.choose(alloc, f)?;
                next_batch(alloc, &batch, &delivery)
            }
        }
    }

    /// Returns the determinants that are known to be stable, ascending. Fails only if out of memory.
    pub fn stable_dets(&self, alloc: Global) -> Result<Vec<Det>, NoMemory>
        ensures { IfOk result (λ dets. dets.items ≡ stable_in self.now.map) }
    {
        marked_dets(alloc, self.entries.entries(), true)
    }

    /// Returns the determinants that are not known to be stable, ascending. Fails only if out of memory.
    pub fn unstable_dets(&self, alloc: Global) -> Result<Vec<Det>, NoMemory>
        ensures { IfOk result (λ dets. dets.items ≡ unstable_in self.now.map) }
    {
        marked_dets(alloc, self.entries.entries(), false)
    }

    /// Returns how many determinants are known to be stable. Allocates nothing.
    pub fn stable_len(&self) -> u32
        ensures { result ≡ length (stable_in self.now.map) }
    {
        self.len() - self.unstable_len()
    }

    /// Returns how many determinants are not known to be stable. Allocates nothing.
    pub fn unstable_len(&self) -> u32
        ensures { result ≡ length (unstable_in self.now.map) }
    {
        unstable_len(self.entries.entries())
    }

    /// Returns the message that the log names for the slot (`dest`, `rsn`): that of the least determinant logged for
    /// it.
    pub fn for_slot(&self, dest: Pid, rsn: u32) -> Option<MsgName>
        ensures { result ≡ named_message dest rsn self.now.map }
    {
        let least = self.entries.least_of(Slot { dest, rsn });
        least.map(|det| det.message())
    }

    /// Reserves capacity for `more` insertions, which then cannot fail to allocate. Fails only if out of memory, or if
    /// the log would then exceed [`MAX_LOGGED`]; it then changes nothing.
    pub fn reserve(&mut self, more: u32) -> Result<(), NoMemory>
        ensures map { self.new.map ≡ self.old.map }
        ensures ok { OnOk result (more ≤ self.new.spare) }
        ensures spare { self.old.spare ≤ self.new.spare }
        ensures refused { OnErr result ((self.new ≡ self.old) × (self.old.spare < more)) }
    {
        self.entries.reserve(more as usize)
    }

    /// Sorts the entries, so that `at` takes O(1) time until a determinant is added. If out of memory, leaves them
    /// unsorted.
    pub fn sort(&mut self) -> Result<(), NoMemory>
        ensures map { self.new.map ≡ self.old.map }
        ensures spare { self.new.spare ≡ self.old.spare }
    {
        if self.sorted {
            return Ok(());
        }
        self.entries.sort()?;
        self.sorted = true;
        Ok(())
    }

    /// Learns something of one determinant. Fails only if out of memory, and only for a determinant that is not
    /// logged yet.
    fn learn(&mut self, det: Det, news: Known) -> Result<(), NoMemory>
        ensures ok { OnOk result (self.new.map ≡ after_learn self.old.map det news) }
        ensures err { OnErr result (self.new.map ≡ self.old.map) }
        ensures logged { IsSome (fin.get self.old.map det) → IsOk result }
        ensures succeeds { 1 ≤ self.old.spare → IsOk result }
        ensures spare { self.old.spare ≤ self.new.spare + 1 }
    {
        self.entries.reserve_for(det)?;
        learn(&mut self.entries, det, news);
        self.sorted = false;
        let most = self.entries.entries().len();
        note_change(&mut self.cached_batch, det, most);
        Ok(())
    }

    /// Adds a determinant that process `me` has created by a delivery; `me` becomes a known holder. Fails only if out
    /// of memory, and never for a logged determinant or in reserved capacity.
    pub fn add_own(&mut self, det: Det, me: Pid) -> Result<(), NoMemory>
        ensures ok { OnOk result (self.new.map ≡ after_learn self.old.map det (held_by me)) }
        ensures err { OnErr result (self.new.map ≡ self.old.map) }
        ensures logged { IsSome (fin.get self.old.map det) → IsOk result }
        ensures succeeds { 1 ≤ self.old.spare → IsOk result }
        ensures spare { self.old.spare ≤ self.new.spare + 1 }
    {
        self.entries.watch(me);
        self.learn(det, Known::held_by(me))
    }

    /// Adds a determinant that process `me` has read from stable storage: `me` becomes a known holder, and the
    /// determinant is known to be stable. Fails only if out of memory, and never for a logged determinant or in
    /// reserved capacity.
    pub fn add_stable(&mut self, det: Det, me: Pid) -> Result<(), NoMemory>
        ensures ok { OnOk result
            (self.new.map ≡ after_learn self.old.map det (stable_and_held_by me)) }
        ensures err { OnErr result (self.new.map ≡ self.old.map) }
        ensures logged { IsSome (fin.get self.old.map det) → IsOk result }
        ensures succeeds { 1 ≤ self.old.spare → IsOk result }
        ensures spare { self.old.spare ≤ self.new.spare + 1 }
    {
        self.learn(det, Known::held_by(me).as_stable())
    }

    /// Adds what a message from process `from` carries to process `me`: the known holders of each of its determinants
    /// grow by the item's holders, the sender and the receiver. If out of memory, changes nothing.
    pub fn absorb(&mut self, batch: &Batch, from: Pid, me: Pid) -> Result<(), NoMemory>
        ensures ok { OnOk result (self.new.map ≡ after_absorb batch.now from me self.old.map) }
        ensures err { OnErr result (self.new.map ≡ self.old.map) }
        ensures succeeds { length batch.now ≤ self.old.spare → IsOk result }
        ensures spare { self.old.spare ≤ self.new.spare + length batch.now }
    {
        let items = batch.as_slice();
        self.entries.reserve(items.len())?;
        learn_items(&mut self.entries, items, from, me);
        self.sorted = false;
        let most = self.entries.entries().len();
        note_items(&mut self.cached_batch, items, most);
        Ok(())
    }

    /// Adds a delivery to process `me`, in capacity that `reserve` made: what the message from process `from`
    /// carries, as `absorb` does, and then the delivery's own determinant, as `add_own` does. It allocates nothing
    /// and cannot fail, so it can follow all calls that may be refused.
    pub fn apply_delivery(&mut self, carried: &Batch, own: Det, from: Pid, me: Pid)
        requires room { length carried.now + 1 ≤ self.old.spare }
        ensures map { self.new.map ≡ after_delivery carried.now own from me self.old.map }
        ensures spare { self.old.spare ≤ self.new.spare + (length carried.now + 1) }
    {
        self.entries.watch(me);
        learn_items(&mut self.entries, carried.as_slice(), from, me);
        learn(&mut self.entries, own, Known::held_by(me));
        self.sorted = false;
        self.cached_batch = None;
    }

    /// Adds all that another log knows: the union of the holders, and the mark if either log has it. If out of
    /// memory, changes nothing.
    pub fn union_from(&mut self, other: &Log) -> Result<(), NoMemory>
        ensures ok { OnOk result (self.new.map ≡ after_union self.old.map other.now.map) }
        ensures err { OnErr result (self.new.map ≡ self.old.map) }
        ensures succeeds { fin.len other.now.map ≤ self.old.spare → IsOk result }
        ensures spare { self.old.spare ≤ self.new.spare + fin.len other.now.map }
    {
        self.learn_all(other.entries.entries())
    }

    /// Learns what these entries contain, one after the other. If out of memory, changes
    /// nothing. Takes one look-up for each.
    pub fn learn_all(&mut self, entries: &[(Det, Known)]) -> Result<(), NoMemory>
        ensures ok { OnOk result (self.new.map ≡ after_learn_all entries.now self.old.map) }
        ensures err { OnErr result (self.new.map ≡ self.old.map) }
        ensures succeeds { length entries.now ≤ self.old.spare → IsOk result }
        ensures spare { self.old.spare ≤ self.new.spare + length entries.now }
    {
        self.entries.reserve(entries.len())?;
        learn_entries(&mut self.entries, entries);
        self.sorted = false;
        let most = self.entries.entries().len();
        note_entries(&mut self.cached_batch, entries, most);
        Ok(())
    }

    /// Marks a determinant as stable, and returns whether it is logged; if it is not, changes nothing. Cannot fail: if
    /// there is no memory to note the change, the next `choose` reads all entries.
    pub fn mark_stable(&mut self, det: Det) -> bool
        ensures found { IsTrue result ↔ IsSome (fin.get self.old.map det) }
        ensures marked { self.new.map ≡ after_mark self.old.map det }
        ensures spare { self.new.spare ≡ self.old.spare }
    {
        let Some((place, _)) = self.entries.find(det) else {
            return false;
        };
        self.entries.merge_at(place, Known::unknown().as_stable());
        let most = self.entries.entries().len();
        note_change(&mut self.cached_batch, det, most);
        true
    }

    /// Removes the determinants that are known to be stable, and returns how many there were. Takes O(entries) time
    /// and allocates nothing.
    pub fn drop_stable(&mut self) -> u32
        ensures left { self.new.map ≡ after_drop_stable self.old.map }
        ensures count { result ≡ length (stable_in self.old.map) }
        ensures spare { self.new.spare ≡ self.old.spare }
    {
        self.cached_batch = None;
        self.entries.drop_stable()
    }
}

impl Log {
    /// Returns the determinants that a process whose next delivery has this slot forgets, ascending: those known to be
    /// stable, except of deliveries that it has still to make. Fails only if out of memory.
    pub fn forgotten_dets(&self, alloc: Global, next: Slot) -> Result<Vec<Det>, NoMemory>
        ensures { IfOk result (λ dets. dets.items ≡ forgotten_in next self.now.map) }
    {
        forgotten_dets(alloc, self.entries.entries(), next)
    }

    /// Removes these determinants. Takes O(entries) time and allocates nothing.
    pub fn forget(&mut self, next: Slot)
        ensures left { self.new.map ≡ after_forget next self.old.map }
        ensures spare { self.new.spare ≡ self.old.spare }
    {
        self.cached_batch = None;
        self.entries.forget(next);
    }
}
