//! Which entries of a walk mention the determinants of a group.
ghost use Rattle.std.specs.Prelude.{◌≡◌, ◌≤◌, ◌<◌, ◌+◌, ◌↔◌, ℕ, true, OnOk, length};
ghost use Rattle.std.specs.FinSet as set;
ghost use Rattle.std.specs.List.{All};
ghost use Rattle.std.specs.List.Sorted.{IsNonDecreasing};
ghost use Rattle.causal_audit.specs.Inside.PositionLists.{HasNoneUntil};
ghost use Rattle.causal_audit.specs.Inside.Group.Walk.{AreBelow, AreMarked, HaveMarked, IsUntouchedBefore, IsMarked, AreMentionedPlaces, row};

use crate::group::Places;
use crate::group::reach::put;
use crate::group::rows::Rows;
use crate::group::walk_input::{OpenDelivery, WalkInput};
use causal_name::NoMemory;
use causal_trace::entry::Entry;

/// Adds a place to the rows of the entries at these positions.
fn mark_rows(rows: &mut Rows, start: u32, place: u8, positions: &[u32]) -> Result<(), NoMemory>
    ensures count { OnOk result (length rows.new ≡ length rows.old) }
    ensures marked { OnOk result (HaveMarked start place positions.now rows.old rows.new) }
{
    for position in positions {
        put(rows, start, place, *position)?;
    }
    Ok(())
}

/// Returns the places whose determinants an entry mentions, by its row; no place for a send.
pub fn mentioned_places(row: Places, entry: &Entry) -> Places
    ensures { AreMentionedPlaces entry.now row result }
{
    match entry {
        Entry::Send { .. } => Places::none(),
        _ => row,
    }
}

/// Returns the first of ascending positions, or a bound if that is less.
fn first_in(positions: &[u32], bound: u32) -> u32
    requires ascend { IsNonDecreasing positions.now }
    ensures bound { result ≤ bound }
    ensures none { HasNoneUntil positions.now 0 result }
{
    match positions.first() {
        Some(position) => bound.min(*position),
        None => bound,
    }
}

impl WalkInput<'_> {
    /// Returns the least of a delivery's position, the first mention of its determinant, and a bound.
    fn first_relevant(&self, delivery: OpenDelivery, bound: u32) -> u32
        requires { bound ≤ self.now.end }
        ensures bound { result ≤ bound }
        ensures first { IsUntouchedBefore self.now.run.past result delivery }
    {
        let first = bound.min(delivery.position);
        let Some(det) = self.indexed_trace.trace.det_at(delivery.position) else {
            return first;
        };
        first_in(self.mentions.list(self.indexed_trace.trace, det), first)
    }

    /// Returns the least of the positions of a group, of the mentions of its determinants, and of a bound.
    pub fn start_of(&self, candidates: &[OpenDelivery], bound: u32) -> u32
        requires { bound ≤ self.now.end }
        ensures bound { result ≤ bound }
        ensures first { All (IsUntouchedBefore self.now.run.past result) candidates.now }
    {
        let mut first = bound;
        for delivery in candidates {
            first = self.first_relevant(*delivery, first);
        }
        first
    }

    /// Returns how often the determinants of these deliveries are mentioned. Deliveries that share a determinant each
    /// count its mentions. The count saturates.
    pub fn count_mentions(&self, candidates: &[OpenDelivery]) -> usize {
        let mut count: usize = 0;
        for delivery in candidates {
            if let Some(det) = self.indexed_trace.trace.det_at(delivery.position) {
                let positions = self.mentions.list(self.indexed_trace.trace, det);
                count = count.saturating_add(positions.len());
            }
        }
        count
    }

    /// Adds a place to the rows of the entries that mention the determinant of its delivery.
    fn mark_delivery(
        &self,
        rows: &mut Rows,
        start: u32,
        place: u8,
        delivery: OpenDelivery,
    ) -> Result<(), NoMemory>
        requires within { start + length rows.old ≤ self.now.end }
        requires fresh { AreBelow place rows.old }
        ensures count { OnOk result (length rows.new ≡ length rows.old) }
        ensures others { OnOk result ((i j : ℕ) → i < length rows.old → (j ≡ place → ⊥) →
            (set.contains (row rows.new i) j ≡ true) ↔ (set.contains (row rows.old i) j ≡ true)) }
        ensures marked { OnOk result (IsMarked
            self.now.run.past start start place delivery rows.new) }
    {
        let Some(det) = self.indexed_trace.trace.det_at(delivery.position) else {
            return Ok(());
        };
        let positions = self.mentions.list(self.indexed_trace.trace, det);
        mark_rows(rows, start, place, positions)?;
        Ok(())
    }

    /// Adds the place of each delivery of a group to the rows of the entries that mention its determinant.
    ///
    /// # Errors
    /// `NoMemory` if allocation fails.
    pub fn mark_mentions(
        &self,
        rows: &mut Rows,
        start: u32,
        candidates: &[OpenDelivery],
    ) -> Result<(), NoMemory>
        requires few { length candidates.now ≤ 256 }
        requires within { start + length rows.old ≤ self.now.end }
        requires none { AreBelow 0 rows.old }
        ensures count { OnOk result (length rows.new ≡ length rows.old) }
        ensures marked { OnOk result (AreMarked
            self.now.run.past start start candidates.now (length candidates.now) rows.new) }
    {
        for (place, delivery) in candidates.iter().enumerate() {
            self.mark_delivery(rows, start, place as u8, *delivery)?;
        }
        Ok(())
    }
}
