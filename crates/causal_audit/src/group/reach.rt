//! For each process the deliveries of a group on which it depends, and for each send those that reach it, by one walk
//! over the entries.
ghost use Rattle.std.specs.Prelude.{◌≡◌, ◌≤◌, ◌<◌, ◌+◌, ℕ, IfOk, OnOk, length};
ghost use Rattle.std.specs.FinSet as set;
ghost use Rattle.causal_audit.specs.Inside.Group.Walk.{HasRowOf, HasRows, IsPlaceAdded, AppliesEntry, AreReachingPlaces, row};

use crate::group::Places;
use crate::group::rows::{Rows, set_at};
use causal_holders::PROCESSES;
use causal_name::NoMemory;
use causal_trace::entry::Entry;
use std::alloc::Global;

/// The deliveries of a group that reach processes and sends, in a walk from the entry at `start`. It holds up to 256
/// deliveries, by their places: for each process those on which its present lane depends, and a row for each entry of
/// the walk.
///
/// The row of a send that was read contains the deliveries that reach it. The row of another entry contains the
/// deliveries whose determinants it mentions.
#[derive(Drop)]
pub struct ReachSets {
    pub start: u32,
    pub rows: Rows,
    pub present: Vec<Places>,
}

/// Adds a place to the row of the entry at a position of a walk from `start`, if it has a row.
///
/// # Errors
/// `NoMemory` if allocation fails.
pub fn put(rows: &mut Rows, start: u32, place: u8, position: u32) -> Result<(), NoMemory>
    ensures count { OnOk result (length rows.new ≡ length rows.old) }
    ensures put { OnOk result (IsPlaceAdded start place position rows.old rows.new) }
{
    if position < start {
        return Ok(());
    }
    let i = (position - start) as usize;
    if i >= rows.len() {
        return Ok(());
    }
    rows.put(i, place)?;
    Ok(())
}

/// Empties each of these rows.
#[tactic(auto, using(crate::proofs::Rules::of_rows))]
pub fn clear(rows: &mut Vec<Places>)
    ensures count { length rows.new.items ≡ length rows.old.items }
    ensures none { (i : ℕ) → row rows.new.items i ≡ set.empty }
{
    rows.fill(Places::none());
}

impl ReachSets {
    /// Allocates the rows of the processes, without rows of entries.
    ///
    /// # Errors
    /// `NoMemory` if allocation fails.
    pub fn new(alloc: Global) -> Result<ReachSets, NoMemory>
        ensures { IfOk result (λ reach. length reach.present.items ≡ 256) }
    {
        Ok(ReachSets {
            start: 0,
            rows: Rows::new(alloc),
            present: vec![in alloc; Places::none(); PROCESSES as usize]?,
        })
    }

    /// Begins a walk from `start` up to `end`: all rows are empty, and no process depends on a delivery. Reserves sets
    /// for `marked` entries with places.
    ///
    /// # Errors
    /// `NoMemory` if allocation fails.
    pub fn begin(&mut self, start: u32, end: u32, marked: usize) -> Result<(), NoMemory>
        requires ordered { start ≤ end }
        requires present { length self.old.present.items ≡ 256 }
        ensures present { length self.new.present.items ≡ 256 }
        ensures rows { OnOk result (HasRows start end self.new) }
        ensures empty { OnOk result ((i : ℕ) → row self.new.rows i ≡ set.empty) }
        ensures none { OnOk result ((p : ℕ) → row self.new.present.items p ≡ set.empty) }
    {
        self.rows.begin(end - start, marked)?;
        clear(&mut self.present);
        self.start = start;
        Ok(())
    }

    /// Returns the deliveries that reach the send at a position that was read; none for a send before the walk.
    fn reaching_places(&self, position: u32) -> Places
        ensures { AreReachingPlaces self.now position result }
    {
        if position < self.start {
            return Places::none();
        }
        self.rows.get((position - self.start) as usize)
    }

    /// Updates the rows by the entry at position t, and returns the deliveries that newly reach its process. `own` are
    /// the places of the deliveries at t.
    ///
    /// # Errors
    /// `NoMemory` if allocation fails.
    pub fn apply_entry(&mut self, entry: &Entry, t: u32, own: Places) -> Result<Places, NoMemory>
        requires row { HasRowOf t self.old }
        ensures rows { OnOk result ((start end : ℕ) →
            HasRows start end self.old → HasRows start end self.new) }
        ensures later { OnOk result ((i : ℕ) → t < self.old.start + i →
            row self.new.rows i ≡ row self.old.rows i) }
        ensures sees { IfOk result (AppliesEntry entry.now t own self.old self.new) }
    {
        match entry {
            Entry::Send { from, .. } => {
                let places = set_at(&self.present, usize::from(from.0));
                self.rows
                    .set_row((t - self.start) as usize, from.0, places)?;
                Ok(Places::none())
            }
            Entry::Deliver { to, send, .. } => {
                let before = set_at(&self.present, usize::from(to.0));
                let brought = self.reaching_places(*send);
                let reached = own.union(before.union(brought));
                self.present[usize::from(to.0)] = reached;
                Ok(reached.minus(before))
            }
            Entry::Crash { who } => {
                self.present[usize::from(who.0)] = Places::none();
                Ok(Places::none())
            }
            Entry::Restart { who, .. } => {
                self.present[usize::from(who.0)] = Places::none();
                Ok(Places::none())
            }
            Entry::Stable { .. } => Ok(Places::none()),
            Entry::Forget { .. } => Ok(Places::none()),
        }
    }
}
