//! Log entries in insertion order, found by the slot of their determinant, and scans of all of them.
#![tactic(auto, using(crate::proofs::Rules::of_table))]

ghost use Rattle.std.specs.Prelude.{◌≡◌, ◌<◌, ◌≤◌, ◌+◌, ◌^◌, ◌++◌, ◌∷◌, [], cond, not, filter, find, map, true, false, All, Some, None, IfSome, IsNone, IsSome, IsOk, IfOk, OnOk, OnErr, length, slice_get};
ghost use Rattle.std.specs.List.{IsDistinct, list_any};
ghost use Rattle.std.specs.Map.{keys_of};
ghost use Rattle.std.specs.FinMap as fin;
ghost use Rattle.std.specs.Option.{option_map};
ghost use Rattle.indexmap.specs.IndexMap.{get, spare, values, IsUnique};
ghost use Rattle.causal_name.specs.declared.Det.{Det};
ghost use Rattle.causal_name.specs.Names.{same_det, is_ascending, is_before};
ghost use Rattle.causal_log.specs.declared.known.Known.{Known};
ghost use Rattle.causal_log.specs.Knowledge.{union_with, is_carried};
ghost use Rattle.causal_log.specs.Logs.{forgotten_in, is_forgotten, log_of, item_of, batch_items, after_learn, IsLogged, after_absorb, after_learn_all};
ghost use Rattle.causal_log.specs.Inside.Ranks.{IsLeastOfSlot, has_rank, lesser_det};
ghost use Rattle.causal_log.specs.Inside.Tables.{HasSlotKey, is_later, key_word, slot_key, same_slot_key};

use crate::batch::Item;
use crate::hashing::SeededState;
use crate::known::Known;
use crate::limits::MAX_LOGGED;
use causal_name::{Det, NoMemory, Pid, Slot};
use indexmap::IndexMap;
use indexmap::map::Entry;
use std::alloc::Global;
use std::hash::{Hash, Hasher};
use std::marker::Model;

/// The key of an entry: its determinant's slot, and a number that tells apart entries of one slot. In a run each slot
/// has one entry, whose number is 0.
#[derive(Clone, Copy, PartialEq, Eq)]
pub(crate) struct SlotKey {
    pub slot: Slot,
    pub number: u32,
}

impl SlotKey {
    /// Returns a word that few keys share: none in a run, and of one slot none whose numbers are below 2^24.
    fn word(self) -> u64
        ensures { result ≡ key_word self }
    {
        let place = u64::from(self.slot.dest.0) * 4_294_967_296 + u64::from(self.slot.rsn);
        place.wrapping_add(u64::from(self.number).wrapping_mul(1_099_511_627_776))
    }
}

/// A key is hashed as one word: three parts would take a step of the hasher each.
impl Hash for SlotKey {
    ghost use Rattle.std.specs.Hash as fed;
    ghost use Rattle.causal_log.specs.Inside.Tables.{key_word};
    ghost use Rattle.causal_log.specs.Inside.KeyWords.{same_words};

    ghost hash_input = { λ key. fed.u64 (key_word key) };

    ghost respects_eq = { same_words };

    fn hash<H: Hasher>(&self, state: &mut H) {
        state.write_u64(self.word());
    }
}

/// Tables with a larger capacity leave a smaller share of it unused: an eighth.
const SMALL_CAPACITY: usize = 1152;

/// Entries in insertion order, unless they were sorted since.
#[derive(Drop)]
pub(crate) struct Table {
    entries: IndexMap<SlotKey, (Det, Known), SeededState>,
    /// The number of each entry's key is less than this; at most 1 in a run.
    numbers: u32,
    /// No entry has a later slot of the same process, so looking up a later one needs no hash. `None` before `watch`.
    last: Option<Slot>,
    /// How many more entries can be added without allocation.
    room: usize,
    /// Which share of a capacity up to `SMALL_CAPACITY` stays unused, in parts of 512. Capacities are 9 times a power of
    /// two, so logs of one run would all grow during the same deliveries; with different shares they do not.
    unused: u8,
}

impl Model for Table {
    ghost use Rattle.std.specs.Map.{values_of};
    ghost use Rattle.indexmap.specs.IndexMap.{spare};
    ghost use Rattle.causal_log.specs.Inside.Tables.{TableState, IsTable, coded_table};

    ghost Value = { TableState };

    ghost coded = { coded_table };

    ghost view = { λ t. record { entries = values_of t.entries.entries; spare = t.room } };

    ghost invariant = { λ t.
        IsTable t.entries.entries t.numbers t.last t.room (spare t.entries) };
}

impl Table {
    pub(crate) fn new(alloc: Global, seed: u64) -> Table
        ensures entries { result.entries ≡ [] }
    {
        Table {
            entries: IndexMap::with_hasher(alloc, SeededState::new(seed)),
            numbers: 0,
            last: None,
            room: 0,
            unused: unused_share(seed),
        }
    }

    pub(crate) fn entries(&self) -> &[(Det, Known)]
        ensures entries { result.now ≡ self.now.entries }
        ensures distinct { IsDistinct same_det (keys_of self.now.entries) }
        ensures few { length self.now.entries + self.now.spare ≤ MAX_LOGGED }
    {
        self.entries.values().as_slice()
    }

    /// Returns the index of a determinant's entry, and what is known of it.
    pub(crate) fn find(&self, det: Det) -> Option<(usize, Known)>
        ensures known { option_map (λ found. found.1) result ≡
            fin.get (log_of self.now.entries) det }
        ensures place { IfSome result (λ found. slice_get self.now.entries found.0 ≡
            Some (det, found.1)) }
        ensures within { IfSome result (λ found. found.0 < length self.now.entries) }
    {
        if is_later(self.last, det.slot()) {
            return None;
        }
        search(&self.entries, self.numbers, det)
    }

    /// Returns what is known of a determinant, if its entry is at this index.
    fn known_at(&self, place: usize, det: Det) -> Option<Known>
        ensures known { IfSome result (IsLogged (log_of self.now.entries) det) }
        ensures place { IfSome result
            (λ known. slice_get self.now.entries place ≡ Some (det, known)) }
        ensures within { IfSome result (λ known. place < length self.now.entries) }
    {
        if place >= self.entries.len() {
            return None;
        }
        let (other, known) = self.entries[place];
        if other == det { Some(known) } else { None }
    }

    #[inline]
    pub(crate) fn least_of(&self, slot: Slot) -> Option<Det>
        ensures { IsLeastOfSlot slot.dest slot.rsn (keys_of self.now.entries) result }
    {
        if is_later(self.last, slot) {
            return None;
        }
        least_of_slot(&self.entries, self.numbers, slot)
    }

    /// Keeps the last slot of this process from now on, unless that of a process is kept.
    #[inline]
    pub(crate) fn watch(&mut self, dest: Pid)
        ensures { self.new ≡ self.old }
    {
        if self.last.is_none() {
            self.last = last_slot(self.entries.keys().as_slice(), dest);
        }
    }

    /// Adds knowledge to the entry at an index, and returns the index.
    pub(crate) fn merge_at(&mut self, place: usize, news: Known) -> usize
        requires { place < length self.old.entries }
        ensures place { result ≡ place }
        ensures put { (det : Det) (was : Known) →
            slice_get self.old.entries place ≡ Some (det, was) →
            log_of self.new.entries ≡ fin.insert (log_of self.old.entries) det
            (union_with was news) }
        ensures keys { keys_of self.new.entries ≡ keys_of self.old.entries }
        ensures spare { self.new.spare ≡ self.old.spare }
    {
        let entry = &mut self.entries[place];
        entry.1 = entry.1.union_with(news);
        place
    }

    /// Appends an entry in reserved capacity, and returns its index.
    pub(crate) fn add(&mut self, det: Det, known: Known) -> usize
        requires room { 1 ≤ self.old.spare }
        requires new { fin.get (log_of self.old.entries) det ≡ None }
        ensures put { log_of self.new.entries ≡ fin.insert (log_of self.old.entries) det known }
        ensures keys { keys_of self.new.entries ≡ keys_of self.old.entries ++ det ∷ [] }
        ensures spare { self.old.spare ≡ self.new.spare + 1 }
        ensures place { result ≡ length self.old.entries }
    {
        let slot = det.slot();
        let number = unused_number(&self.entries, self.numbers, slot);
        insert_new(&mut self.entries, SlotKey { slot, number }, (det, known));
        self.numbers = self.numbers.max(number + 1);
        self.last = last_with(self.last, slot);
        self.room -= 1;
        self.entries.len() - 1
    }

    /// Appends an entry in reserved capacity and returns its index, if its slot has none. Otherwise changes nothing,
    /// and returns the index of the slot's entry if that is the only one; the caller has to check it.
    fn add_first(&mut self, det: Det, known: &Known) -> Result<usize, usize>
        ensures new { OnOk result (fin.get (log_of self.old.entries) det ≡ None) }
        ensures put { OnOk result
            (log_of self.new.entries ≡ fin.insert (log_of self.old.entries) det known.now) }
        ensures spare { OnOk result (self.old.spare ≡ self.new.spare + 1) }
        ensures same { OnErr result (self.new ≡ self.old) }
    {
        if self.room == 0 || self.numbers > 1 {
            return Err(self.entries.len());
        }
        let slot = det.slot();
        let key = SlotKey { slot, number: 0 };
        let place = insert_unless_used(&mut self.entries, key, (det, *known))?;
        self.numbers = 1;
        self.last = last_with(self.last, slot);
        self.room -= 1;
        Ok(place)
    }

    /// Returns how many more entries the limit allows.
    fn most_more(&self) -> usize
        ensures { length self.now.entries + result ≡ MAX_LOGGED }
    {
        MAX_LOGGED as usize - self.entries.len()
    }

    /// Reserves capacity for `more` further entries. Fails only if an allocation fails, or the limit would be exceeded.
    pub(crate) fn reserve(&mut self, more: usize) -> Result<(), NoMemory>
        ensures entries { self.new.entries ≡ self.old.entries }
        ensures ok { OnOk result (more ≤ self.new.spare) }
        ensures spare { self.old.spare ≤ self.new.spare }
        ensures refused { OnErr result ((self.new ≡ self.old) × (self.old.spare < more)) }
    {
        if more <= self.room {
            return Ok(());
        }
        let most = self.most_more();
        if more > most {
            return Err(NoMemory);
        }
        grow(&mut self.entries, self.unused, more)?;
        let room = usable_spare(&self.entries, self.unused).max(more);
        self.room = room.min(most);
        Ok(())
    }

    /// Reserves capacity for a determinant, unless it is logged. Looks for it only if there is no capacity.
    pub(crate) fn reserve_for(&mut self, det: Det) -> Result<(), NoMemory>
        ensures entries { self.new.entries ≡ self.old.entries }
        ensures ok { OnOk result
            (fin.get (log_of self.old.entries) det ≡ None → 1 ≤ self.new.spare) }
        ensures spare { self.old.spare ≤ self.new.spare }
        ensures logged { IsSome (fin.get (log_of self.old.entries) det) → IsOk result }
        ensures succeeds { 1 ≤ self.old.spare → IsOk result }
    {
        if self.room > 0 || self.find(det).is_some() {
            return Ok(());
        }
        self.reserve(1)
    }

    /// Returns a copy of the entries, with no reserved capacity.
    pub(crate) fn try_clone(&self) -> Result<Table, NoMemory>
        ensures { IfOk result (λ copy. copy.entries ≡ self.now.entries) }
    {
        Ok(Table {
            entries: self.entries.clone()?,
            numbers: self.numbers,
            last: self.last,
            room: 0,
            unused: self.unused,
        })
    }

    pub(crate) fn drop_stable(&mut self) -> u32
        ensures left { self.new.entries ≡ filter (λ e. not e.1.stable) self.old.entries }
        ensures distinct { IsDistinct same_det (keys_of self.old.entries) }
        ensures count { result + length self.new.entries ≡ length self.old.entries }
        ensures spare { self.new.spare ≡ self.old.spare }
    {
        let before = self.entries.len();
        self.entries.retain(
            |_key: &SlotKey, entry: &mut (Det, Known)| -> bool
                ensures { (result ≡ not entry.old.1.stable) × (entry.new ≡ entry.old) }
            { !entry.1.stable },
        );
        (before - self.entries.len()) as u32
    }

    pub(crate) fn forget(&mut self, next: Slot)
        ensures left { self.new.entries ≡ filter (λ e. not (is_forgotten next e)) self.old.entries }
        ensures distinct { IsDistinct same_det (keys_of self.old.entries) }
        ensures spare { self.new.spare ≡ self.old.spare }
    {
        self.entries.retain(
            |_key: &SlotKey, entry: &mut (Det, Known)| -> bool
                ensures { (result ≡ not (is_forgotten next entry.old)) × (entry.new ≡ entry.old) }
            { !is_forgotten(next, entry) },
        );
    }

    pub(crate) fn sort(&mut self) -> Result<(), NoMemory>
        ensures same { log_of self.new.entries ≡ log_of self.old.entries }
        ensures ascending { OnOk result (is_ascending (keys_of self.new.entries) ≡ true) }
        ensures spare { self.new.spare ≡ self.old.spare }
        ensures err { OnErr result (self.new.entries ≡ self.old.entries) }
    {
        self.entries.sort_by_key(
            |_key: &SlotKey, entry: &(Det, Known)| -> Det
                ensures { result ≡ entry.now.0 }
            { entry.0 },
        )?;
        Ok(())
    }
}

/// Returns whether a process whose next delivery has this slot forgets an entry.
fn is_forgotten(next: Slot, entry: &(Det, Known)) -> bool
    ensures { result ≡ is_forgotten next entry.now }
{
    let (det, known) = entry;
    known.stable && !(det.dest == next.dest && det.rsn >= next.rsn)
}

/// Entries by slot and number.
type Entries = IndexMap<SlotKey, (Det, Known), SeededState>;

/// Returns which share of a small capacity a table with this seed leaves unused, in parts of 512: less than a half. The
/// shares of consecutive seeds are far apart.
fn unused_share(seed: u64) -> u8 {
    ((seed % 256) as u8).wrapping_mul(159)
}

/// Returns how many more entries the capacity holds.
fn spare_of(entries: &Entries) -> usize
    ensures { result ≡ spare entries.now }
{
    entries.capacity() - entries.len()
}

/// Makes room for this many more entries. Grows too if they only fit into the unused share.
fn grow(entries: &mut Entries, unused: u8, more: usize) -> Result<(), NoMemory>
    ensures entries { entries.new.entries ≡ entries.old.entries }
    ensures ok { OnOk result (more ≤ spare entries.new) }
    ensures spare { spare entries.old ≤ spare entries.new }
{
    if usable_spare(entries, unused) < more && more <= spare_of(entries) {
        // if this fails, the unused share is used
        let _ = entries.reserve(spare_of(entries).saturating_add(1));
    }
    entries.reserve(more)?;
    Ok(())
}

/// Returns how many more entries it holds without the unused share: so many parts of 512 of a small capacity, and of 4096
/// of a larger one.
fn usable_spare(entries: &Entries, unused: u8) -> usize
    ensures { result ≤ spare entries.now }
{
    let capacity = entries.capacity();
    let parts = if capacity > SMALL_CAPACITY { 4096 } else { 512 };
    let left = capacity.saturating_mul(usize::from(unused)) / parts;
    spare_of(entries).saturating_sub(left)
}

/// Returns the index of a determinant's entry, and what is known of it. Each entry's number is less than `numbers`.
fn search(entries: &Entries, numbers: u32, det: Det) -> Option<(usize, Known)>
    requires { All (HasSlotKey numbers) entries.now.entries }
    ensures place { IfSome result (λ found. slice_get (values entries.now) found.0 ≡
        Some (det, found.1)) }
    ensures within { IfSome result (λ found. found.0 < length (values entries.now)) }
    ensures absent { IsNone result →
        list_any (same_det det) (keys_of (values entries.now)) ≡ false }
{
    // for the proof: the contract of `len` states that keys are unique
    let _len = entries.len();
    let slot = det.slot();
    for number in 0..numbers {
        if let Some(index) = entries.get_index_of(&SlotKey { slot, number }) {
            let (other, known) = entries[index];
            if other == det {
                return Some((index, known));
            }
        }
    }
    None
}

/// Returns the determinant of the entry with this slot and number.
fn det_of_key(entries: &Entries, slot: Slot, number: u32) -> Option<Det>
    ensures { result ≡ option_map (λ e. e.0)
        (get same_slot_key entries.now (slot_key slot number)) }
{
    let (det, _) = *entries.get(&SlotKey { slot, number })?;
    Some(det)
}

/// Returns whether a slot is later than the last one that is kept, and of the same process.
#[inline]
fn is_later(last: Option<Slot>, slot: Slot) -> bool
    ensures { result ≡ is_later last slot }
{
    let Some(last) = last else {
        return false;
    };
    slot.dest == last.dest && last.rsn < slot.rsn
}

/// Returns the last slot to keep once an entry has this one.
#[inline]
fn last_with(last: Option<Slot>, slot: Slot) -> Option<Slot>
    ensures kept { (each : Slot) → is_later last each ≡ false → is_later result each ≡ false }
    ensures new { is_later result slot ≡ false }
{
    if is_later(last, slot) {
        Some(slot)
    } else {
        last
    }
}

/// Returns the last slot of a process among these keys.
fn last_slot(keys: &[SlotKey], dest: Pid) -> Option<Slot>
    ensures { All (λ key. is_later result key.slot ≡ false) keys.now }
{
    let mut last = Some(Slot { dest, rsn: 0 });
    for key in keys {
        last = last_with(last, key.slot);
    }
    last
}

/// Returns the lesser of two determinants, or the only one.
fn lesser_det(found: Option<Det>, other: Option<Det>) -> Option<Det>
    ensures { result ≡ lesser_det found other }
{
    let Some(det) = found else {
        return other;
    };
    match other {
        Some(lower) if lower.comes_before(&det) => Some(lower),
        _ => Some(det),
    }
}

/// Returns the least determinant of a slot. Each entry's number is less than `numbers`.
fn least_of_slot(entries: &Entries, numbers: u32, slot: Slot) -> Option<Det>
    requires { All (HasSlotKey numbers) entries.now.entries }
    ensures { IsLeastOfSlot slot.dest slot.rsn (keys_of (values entries.now)) result }
{
    // for the proof: the contract of `len` states that keys are unique
    let _len = entries.len();
    let mut least = None;
    for number in 0..numbers {
        least = lesser_det(least, det_of_key(entries, slot, number));
    }
    least
}

/// Appends an entry under a new key, in reserved capacity.
fn insert_new(entries: &mut Entries, key: SlotKey, entry: (Det, Known))
    requires room { 0 < spare entries.old }
    requires new { get same_slot_key entries.old key ≡ None }
    ensures entries { entries.new.entries ≡ entries.old.entries ++ (key, entry) ∷ [] }
    ensures room { spare entries.old ≤ spare entries.new + 1 }
{
    entries.insert(key, entry).unwrap();
}

/// Appends an entry in reserved capacity and returns its index, unless another has the key: then returns the index of
/// that one as an error.
fn insert_unless_used(
    entries: &mut Entries,
    key: SlotKey,
    entry: (Det, Known),
) -> Result<usize, usize>
    requires room { 0 < spare entries.old }
    ensures new { OnOk result (get same_slot_key entries.old key ≡ None) }
    ensures entries { OnOk result
        (entries.new.entries ≡ entries.old.entries ++ (key, entry) ∷ []) }
    ensures same { OnErr result (entries.new.entries ≡ entries.old.entries) }
    ensures room { spare entries.old ≤ spare entries.new + 1 }
    ensures kept { OnErr result (spare entries.old ≤ spare entries.new) }
    ensures unique { IsUnique same_slot_key entries.old }
{
    match entries.entry(key) {
        Ok(Entry::Vacant(vacant)) => {
            let place = vacant.index();
            vacant.insert(entry);
            Ok(place)
        }
        Ok(Entry::Occupied(occupied)) => Err(occupied.index()),
        Err(_) => unreachable!(),
    }
}

/// Returns the least number that no entry of this slot has.
fn unused_number(entries: &Entries, numbers: u32, slot: Slot) -> u32
    requires { All (HasSlotKey numbers) entries.now.entries }
    ensures within { result ≤ numbers }
    ensures few { result ≤ length entries.now.entries }
    ensures unused { get same_slot_key entries.now (slot_key slot result) ≡ None }
{
    for number in 0..numbers {
        if det_of_key(entries, slot, number).is_none() {
            return number;
        }
    }
    numbers
}

/// Learns something of one determinant, in reserved capacity if it is not logged; returns the index of its entry. One
/// look-up suffices if no slot has had two determinants, as in every run.
#[inline(never)]
pub(crate) fn learn(entries: &mut Table, det: Det, news: Known) -> usize
    requires room { fin.get (log_of entries.old.entries) det ≡ None → 1 ≤ entries.old.spare }
    ensures learned { log_of entries.new.entries
        ≡ after_learn (log_of entries.old.entries) det news }
    ensures spare { entries.old.spare ≤ entries.new.spare + 1 }
{
    match entries.add_first(det, &news) {
        Ok(place) => place,
        Err(place) => learn_at(entries, place, det, news),
    }
}

/// Learns something of one determinant, whose entry may be at this index.
fn learn_at(entries: &mut Table, place: usize, det: Det, news: Known) -> usize
    requires room { fin.get (log_of entries.old.entries) det ≡ None → 1 ≤ entries.old.spare }
    ensures learned { log_of entries.new.entries
        ≡ after_learn (log_of entries.old.entries) det news }
    ensures spare { entries.old.spare ≤ entries.new.spare + 1 }
{
    match entries.known_at(place, det) {
        Some(_) => entries.merge_at(place, news),
        None => learn_among_others(entries, det, news),
    }
}

/// Learns something of one determinant, as `learn` does, whatever other determinants its slot has.
fn learn_among_others(entries: &mut Table, det: Det, news: Known) -> usize
    requires room { fin.get (log_of entries.old.entries) det ≡ None → 1 ≤ entries.old.spare }
    ensures learned { log_of entries.new.entries
        ≡ after_learn (log_of entries.old.entries) det news }
    ensures spare { entries.old.spare ≤ entries.new.spare + 1 }
{
    match entries.find(det) {
        Some((place, _)) => entries.merge_at(place, news),
        None => entries.add(det, news),
    }
}

/// Learns something of one determinant, as `learn` does; looks first at an index where its entry is likely to be.
#[inline]
fn learn_guessed(entries: &mut Table, guess: usize, det: Det, news: Known) -> usize
    requires room { fin.get (log_of entries.old.entries) det ≡ None → 1 ≤ entries.old.spare }
    ensures learned { log_of entries.new.entries
        ≡ after_learn (log_of entries.old.entries) det news }
    ensures spare { entries.old.spare ≤ entries.new.spare + 1 }
{
    match entries.known_at(guess, det) {
        Some(_) => entries.merge_at(guess, news),
        None => learn(entries, det, news),
    }
}

/// Learns the items of a message, in reserved capacity. Entries of a list were usually added in the order of its
/// determinants, at a constant distance. So the index of each is guessed from the two before it, and looked up if the
/// guess is wrong.
pub(crate) fn learn_items(entries: &mut Table, items: &[Item], from: Pid, me: Pid)
    requires room { length items.now ≤ entries.old.spare }
    ensures learned { log_of entries.new.entries ≡
        after_absorb items.now from me (log_of entries.old.entries) }
    ensures spare { entries.old.spare ≤ entries.new.spare + length items.now }
{
    if items.is_empty() {
        return;
    }
    let both = Known::held_by_both(from, me);
    let (mut last, mut place): (usize, usize) = (0, 0);
    for item in items {
        let guess = place.wrapping_mul(2).wrapping_sub(last);
        last = place;
        let news = item.receiver_knowledge(&both);
        place = learn_guessed(entries, guess, item.det, news);
    }
}

/// Learns the entries of another log, in reserved capacity. Indices are guessed as in `learn_items`: logs often list
/// the same determinants in the same order.
pub(crate) fn learn_entries(entries: &mut Table, others: &[(Det, Known)])
    requires room { length others.now ≤ entries.old.spare }
    ensures learned { log_of entries.new.entries ≡
        after_learn_all others.now (log_of entries.old.entries) }
    ensures spare { entries.old.spare ≤ entries.new.spare + length others.now }
{
    let (mut last, mut place): (usize, usize) = (0, 0);
    for (det, news) in others {
        let guess = place.wrapping_mul(2).wrapping_sub(last);
        last = place;
        place = learn_guessed(entries, guess, *det, *news);
    }
}

pub(crate) fn dets(alloc: Global, entries: &[(Det, Known)]) -> Result<Vec<Det>, NoMemory>
    ensures { IfOk result (λ dets. dets.items ≡ keys_of entries.now) }
{
    Ok(entries.iter().map(|(det, _)| *det).collect(alloc)?)
}

pub(crate) fn unstable_len(entries: &[(Det, Known)]) -> u32
    requires { length entries.now < 2 ^ 32 }
    ensures { result ≡ length (filter (λ e. not e.1.stable) entries.now) }
{
    entries.iter().filter(|(_, known)| !known.stable).count() as u32
}

pub(crate) fn chosen_items(
    alloc: Global,
    entries: &[(Det, Known)],
    f: u16,
) -> Result<Vec<Item>, NoMemory>
    ensures { IfOk result (λ items. items.items ≡
        map item_of (filter (λ e. is_carried f e.1) entries.now)) }
{
    let carried = entries.iter().filter(|(_, known)| known.is_carried(f));
    let items = carried.map(|(det, known)| Item {
        det: *det,
        holders: known.holders,
    });
    Ok(items.collect(alloc)?)
}

pub(crate) fn sorted_chosen_items(
    alloc: Global,
    entries: &[(Det, Known)],
    f: u16,
) -> Result<Vec<Item>, NoMemory>
    requires { IsDistinct same_det (keys_of entries.now) }
    ensures { IfOk result (λ items. items.items ≡ batch_items f (log_of entries.now)) }
{
    let copy = in_order(alloc, entries)?;
    chosen_items(alloc, copy.as_slice(), f)
}

/// Returns a copy of the entries in ascending order.
pub(crate) fn in_order(
    alloc: Global,
    entries: &[(Det, Known)],
) -> Result<Vec<(Det, Known)>, NoMemory>
    requires { IsDistinct same_det (keys_of entries.now) }
    ensures { IfOk result (λ copy. copy.items ≡ fin.entries (log_of entries.now)) }
{
    let mut copy = Vec::from_slice(alloc, entries)?;
    sort(&mut copy)?;
    Ok(copy)
}

/// Returns the determinants that are known to be stable, or those that are not, ascending.
pub(crate) fn marked_dets(
    alloc: Global,
    entries: &[(Det, Known)],
    stable: bool,
) -> Result<Vec<Det>, NoMemory>
    requires { IsDistinct same_det (keys_of entries.now) }
    ensures { IfOk result (λ dets. dets.items ≡ keys_of
        (filter (λ e. cond stable e.1.stable (not e.1.stable)) (fin.entries (log_of entries.now)))) }
{
    let mut sorted = in_order(alloc, entries)?;
    sorted.retain(
        |entry: &(Det, Known)| -> bool
            ensures { result ≡ cond stable entry.now.1.stable (not entry.now.1.stable) }
        { entry.1.stable == stable },
    );
    dets(alloc, sorted.as_slice())
}

/// Returns the determinants that a process whose next delivery has this slot forgets, ascending.
pub(crate) fn forgotten_dets(
    alloc: Global,
    entries: &[(Det, Known)],
    next: Slot,
) -> Result<Vec<Det>, NoMemory>
    requires { IsDistinct same_det (keys_of entries.now) }
    ensures { IfOk result (λ dets. dets.items ≡ forgotten_in next (log_of entries.now)) }
{
    let mut sorted = in_order(alloc, entries)?;
    sorted.retain(
        |entry: &(Det, Known)| -> bool
            ensures { result ≡ is_forgotten next entry.now }
        { is_forgotten(next, entry) },
    );
    dets(alloc, sorted.as_slice())
}

/// Sorts entries; takes O(entries) time if they are a few ascending runs.
fn sort(entries: &mut Vec<(Det, Known)>) -> Result<(), NoMemory>
    requires { IsDistinct same_det (keys_of entries.old.items) }
    ensures same { log_of entries.new.items ≡ log_of entries.old.items }
    ensures ascending { OnOk result (is_ascending (keys_of entries.new.items) ≡ true) }
{
    entries.sort_by_key(
        |entry: &(Det, Known)| -> Det
            ensures { result ≡ entry.now.0 }
        { entry.0 },
    )?;
    Ok(())
}

fn rank(entries: &[(Det, Known)], det: &Det) -> usize
    ensures { result ≡ length (filter (λ e. is_before e.0 det.now) entries.now) }
{
    entries
        .iter()
        .filter(|(each, _)| each.comes_before(det))
        .count()
}

/// Returns the determinant that exactly `place` others come before.
pub(crate) fn det_at_rank(entries: &[(Det, Known)], place: u32) -> Option<Det>
    ensures { result ≡ find (λ d. has_rank entries.now place d) (keys_of entries.now) }
{
    for (det, _) in entries {
        if rank(entries, det) == place as usize {
            return Some(*det);
        }
    }
    None
}
