//! The sets of the entries of a walk. Many are empty and many are equal.
ghost use Rattle.std.specs.Prelude.{◌≡◌, ◌<◌, ◌≤◌, [], ℕ, true, IfOk, OnOk, OnErr, length, nat_le, slice_set};
ghost use Rattle.std.specs.FinSet as set;
ghost use Rattle.causal_audit.specs.Inside.Group.Rows.{AreFirst, IsAdded, IsAt, IsSlotOf, max_slots, row};

use crate::group::Places;
use causal_holders::PROCESSES;
use causal_name::NoMemory;
use std::alloc::Global;
use std::marker::Model;

/// Returns the set at an index; the empty set if there is none.
pub fn set_at(rows: &[Places], i: usize) -> Places
    ensures { result ≡ row rows.now i }
{
    match rows.get(i) {
        Some(set) => *set,
        None => Places::none(),
    }
}

/// A set for each entry of a walk. The model is the list of these sets.
///
/// An entry takes 4 bytes, the number of its slot, and a slot takes 32 bytes. All empty sets of a new walk share one
/// slot; an entry whose set got places has its own slot, and a send shares that of its process's previous send if their
/// sets are equal. Within a lane the set of a process only grows. So there is at most one slot for each entry that
/// mentions a determinant or sends, and 257 for the sends of each lane. Slots for sends are allocated as they are needed.
#[derive(Drop)]
pub struct Rows {
    slots: Vec<u32>,
    sets: Vec<Places>,
    /// Whether no two entries share a slot, except slot 0.
    unshared: bool,
    /// For each process a slot that probably contains its latest set.
    latest: [u32; PROCESSES as usize],
}

impl Model for Rows {
    ghost use Rattle.std.specs.Prelude.{List};
    ghost use Rattle.std.specs.Ordering.{nat_cmp};
    ghost use Rattle.std.specs.FinSet as set;
    ghost use Rattle.std.specs.Coded.{coded_list, coded_ℕ};
    ghost use Rattle.causal_audit.specs.Inside.Group.Rows.{AreSlots, sets_of};

    ghost Value = { List (set.FinSet nat_cmp) };

    ghost coded = { coded_list (set.code coded_ℕ) };

    ghost view = { λ a. sets_of a.slots.items a.sets.items };

    ghost invariant = { λ a. AreSlots a.slots.items a.sets.items a.unshared };
}

/// Returns whether a slot contains this set.
#[tactic(auto, using(causal_holders::specs::SameMembers::same_members_equal))]
fn is_at(sets: &[Places], slot: u32, places: Places) -> bool
    ensures { result ≡ true → IsAt sets.now slot places }
{
    match sets.get(slot as usize) {
        Some(set) => *set == places,
        None => false,
    }
}

/// The maximum number of slots: a slot number has 32 bits.
const MAX_SLOTS: usize = 4_294_967_296;

/// Checks whether each slot number is taken.
fn are_full(sets: &[Places]) -> bool
    ensures { result ≡ nat_le max_slots (length sets.now) }
{
    sets.len() >= MAX_SLOTS
}

/// Appends a set and returns its slot.
///
/// # Errors
/// `NoMemory` if allocation fails or each slot number is taken.
#[tactic(auto, using(crate::proofs::group::RowSlots::slot_added))]
fn add(sets: &mut Vec<Places>, places: Places) -> Result<u32, NoMemory>
    ensures added { IfOk result (IsAdded sets.old.items sets.new.items places) }
    ensures err { OnErr result (sets.new.items ≡ sets.old.items) }
{
    if are_full(sets) {
        return Err(NoMemory);
    }
    let slot = sets.len() as u32;
    sets.push(places)?;
    Ok(slot)
}

/// Returns the slot of a set: `like` if it contains the set, otherwise a new slot.
#[tactic(auto, using(crate::proofs::group::RowSlots::slot_found))]
fn slot_of(sets: &mut Vec<Places>, like: u32, places: Places) -> Result<u32, NoMemory>
    ensures slot { IfOk result (IsSlotOf sets.old.items sets.new.items places) }
    ensures err { OnErr result (sets.new.items ≡ sets.old.items) }
{
    if is_at(sets, like, places) {
        return Ok(like);
    }
    let slot = add(sets, places)?;
    Ok(slot)
}

/// Resets to the given number of entries, all with slot 0, whose set is empty, and reserves the given number of further
/// slots.
fn reset(
    slots: &mut Vec<u32>,
    sets: &mut Vec<Places>,
    entries: u32,
    more: usize,
) -> Result<(), NoMemory>
    requires { more ≤ entries }
    ensures count { OnOk result (length slots.new.items ≡ entries) }
    ensures first { OnOk result (AreFirst slots.new.items sets.new.items) }
    ensures err { OnErr result (slots.new.items ≡ []) }
{
    slots.clear();
    sets.clear();
    sets.reserve_exact(more + 1)?;
    sets.push(Places::none())?;
    slots.reserve_exact(entries as usize)?;
    slots.resize(entries as usize, 0)?;
    Ok(())
}

impl Rows {
    /// Returns rows without entries.
    #[tactic(auto, using(crate::proofs::group::RowSlots::slots_none))]
    pub fn new(alloc: Global) -> Rows
        ensures { result ≡ [] }
    {
        Rows {
            slots: Vec::new(alloc),
            sets: Vec::new(alloc),
            unshared: true,
            latest: [0; PROCESSES as usize],
        }
    }

    /// Returns the number of entries.
    pub fn len(&self) -> usize
        ensures { result ≡ length self.now }
    {
        self.slots.len()
    }

    /// Returns the set of an entry; the empty set if there is no such entry.
    pub fn get(&self, i: usize) -> Places
        ensures { result ≡ row self.now i }
    {
        match self.slots.get(i) {
            Some(slot) => set_at(&self.sets, *slot as usize),
            None => Places::none(),
        }
    }

    /// Resets to `entries` empty sets, of which `marked` will get places. Reuses the memory of earlier walks.
    ///
    /// # Errors
    /// `NoMemory` if allocation fails.
    #[tactic(auto, using(crate::proofs::group::RowSlots::first_empty))]
    pub fn begin(&mut self, entries: u32, marked: usize) -> Result<(), NoMemory>
        ensures count { OnOk result (length self.new ≡ entries) }
        ensures empty { OnOk result ((i : ℕ) → row self.new i ≡ set.empty) }
    {
        reset(
            &mut self.slots,
            &mut self.sets,
            entries,
            marked.min(entries as usize),
        )?;
        self.unshared = true;
        Ok(())
    }

    /// Adds a place to the set of an entry.
    ///
    /// # Errors
    /// `NoMemory` if allocation fails.
    pub fn put(&mut self, i: usize, place: u8) -> Result<(), NoMemory>
        requires { i < length self.old }
        ensures { OnOk result
            (self.new ≡ slice_set self.old i (set.insert (row self.old i) place)) }
    {
        let slot = self.slots[i];
        if self.unshared && slot > 0 {
            self.sets[slot as usize].insert(place);
            return Ok(());
        }
        let mut places = set_at(&self.sets, slot as usize);
        places.insert(place);
        let fresh = add(&mut self.sets, places)?;
        self.slots[i] = fresh;
        Ok(())
    }

    /// Replaces the set of an entry of process p.
    ///
    /// # Errors
    /// `NoMemory` if allocation fails.
    #[tactic(auto, using(crate::proofs::group::RowSlots::stored))]
    pub fn set_row(&mut self, i: usize, p: u8, places: Places) -> Result<(), NoMemory>
        requires { i < length self.old }
        ensures { OnOk result (self.new ≡ slice_set self.old i places) }
    {
        let like = self.latest[usize::from(p)];
        let slot = slot_of(&mut self.sets, like, places)?;
        self.slots[i] = slot;
        self.unshared = false;
        self.latest[usize::from(p)] = slot;
        Ok(())
    }
}
