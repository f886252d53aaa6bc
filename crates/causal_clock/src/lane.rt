//! The fields of a lane: its number of events, its columns, and a row of their last counts.
ghost use Rattle.std.specs.Prelude.{◌≡◌, ℕ, ◌<◌, ◌≤◌, [], length, map, OnOk, slice_index};
ghost use Rattle.causal_clock.specs.Rises.{count_at, RisesStrictly};
ghost use Rattle.causal_clock.specs.Inside.Columns.{column_in, column_after, SameOrNoNews};
ghost use Rattle.causal_clock.specs.Inside.Row.{RowMatchesColumns};

use crate::column::{count_at, reserve_rise};
use crate::{EVENTS, Rise};
use std::alloc::{AllocError, Global};

/// The number of events of a lane, and for each source lane the places at which the count of its events rises. A lane
/// has no columns until it receives, and none for a lane opened after its last receive. The column of the lane itself
/// is empty: that count is the place of the event plus one.
///
/// The row has the count of each column from `last` on, which is the place of the last rise (`kept`), so a query of a
/// late place needs no search. It takes four bytes for each column.
#[derive(Drop)]
pub struct LaneColumns {
    pub events: u32,
    pub last: u32,
    pub columns: Vec<Vec<Rise>>,
    pub row: Vec<u32>,
    ghost kept: { RowMatchesColumns events last (map (λ c. c.items) columns.items) row.items },
}

impl LaneColumns {
    ghost use Rattle.causal_clock.specs.Inside.Lanes.{rises_in, spare_rises, HasReservedRises, SameButFor, SameColumns};

    /// Returns a lane without events.
    pub fn new(alloc: Global) -> Self
        ensures events { result.events ≡ 0 }
        ensures columns { rises_in result ≡ [] }
    {
        Self {
            events: 0,
            last: 0,
            columns: Vec::new(alloc),
            row: Vec::new(alloc),
        }
    }

    /// Returns the rises of the lane by a source lane.
    pub fn rises(&self, source: u32) -> &[Rise]
        ensures { result.now ≡ column_in (rises_in self.now) source }
    {
        match self.columns.get(source as usize) {
            Some(column) => column.as_slice(),
            None => &[],
        }
    }

    /// Returns how many events of the source lane, which is another lane, reach this lane from the last rise on.
    pub fn last_count(&self, source: u32) -> u32
        ensures { result ≡ slice_index self.now.row.items source }
    {
        match self.row.get(source as usize) {
            Some(count) => *count,
            None => 0,
        }
    }

    /// Returns how many events of the source lane, which is another lane, reach that place of this lane.
    pub fn count_at(&self, source: u32, place: u32) -> u32
        requires strictly { RisesStrictly (column_in (rises_in self.now) source) }
        ensures { result ≡ count_at (column_in (rises_in self.now) source) place }
    {
        if self.last <= place {
            self.last_count(source)
        } else {
            count_at(self.rises(source), place)
        }
    }

    /// Returns how many events of the source lane reach that place, if they are more than `known`; else any number up
    /// to `known`. Searches only if this lane's last count is greater than `known`.
    pub fn count_if_greater(&self, source: u32, place: u32, known: u32) -> u32
        requires strictly { RisesStrictly (column_in (rises_in self.now) source) }
        ensures { SameOrNoNews known result (count_at (column_in
            (rises_in self.now) source) place) }
    {
        if self.last_count(source) <= known {
            0
        } else {
            self.count_at(source, place)
        }
    }

    /// Reserves capacity for the rises that the next event adds if it receives these counts. If out of memory, the
    /// columns are unchanged.
    pub fn reserve_counts(&mut self, alloc: Global, counts: &[u32]) -> Result<(), AllocError>
        ensures events { self.new.events ≡ self.old.events }
        ensures same { SameColumns self.old self.new }
        ensures room { OnOk result (HasReservedRises self.new counts.now) }
    {
        self.add_columns(alloc, counts.len())?;
        self.extend_row(counts.len())?;
        self.reserve_rises(counts)
    }

    // Adds empty columns until there are `count`.
    fn add_columns(&mut self, alloc: Global, count: usize) -> Result<(), AllocError>
        ensures events { self.new.events ≡ self.old.events }
        ensures same { SameColumns self.old self.new }
        ensures wide { OnOk result (count ≤ length (rises_in self.new)) }
    {
        for _ in self.columns.len()..count {
            self.columns.push(Vec::new(alloc))?;
        }
        Ok(())
    }

    // Adds counts of 0 to the row until there are `count`.
    fn extend_row(&mut self, count: usize) -> Result<(), AllocError>
        ensures events { self.new.events ≡ self.old.events }
        ensures same { rises_in self.new ≡ rises_in self.old }
        ensures wide { OnOk result (count ≤ length self.new.row.items) }
    {
        for _ in self.row.len()..count {
            self.row.push(0)?;
        }
        Ok(())
    }

    // Reserves capacity for one more rise in each column that the counts raise.
    fn reserve_rises(&mut self, counts: &[u32]) -> Result<(), AllocError>
        requires wide { length counts.now ≤ length (rises_in self.old) }
        requires counted { length counts.now ≤ length self.old.row.items }
        ensures events { self.new.events ≡ self.old.events }
        ensures same { rises_in self.new ≡ rises_in self.old }
        ensures room { OnOk result (HasReservedRises self.new counts.now) }
    {
        for (source, count) in counts.iter().enumerate() {
            let known = self.row[source];
            reserve_rise(&mut self.columns[source], known, *count)?;
        }
        Ok(())
    }

    /// Raises the columns to the counts that the next event receives, in reserved capacity. Cannot fail.
    pub fn append_counts(&mut self, counts: &[u32])
        requires few { self.old.events < EVENTS }
        requires room { HasReservedRises self.old counts.now }
        ensures events { self.new.events ≡ self.old.events }
        ensures raised { (source : ℕ) → column_in (rises_in self.new) source
            ≡ column_after (column_in (rises_in self.old) source) self.old.events
            (slice_index counts.now source) }
    {
        for (source, count) in counts.iter().enumerate() {
            self.append_count(source, *count);
        }
    }

    // Raises one column, in reserved capacity, if the count that the next event receives is greater.
    fn append_count(&mut self, source: usize, count: u32)
        requires few { self.old.events < EVENTS }
        requires column { source < length (rises_in self.old) }
        requires counted { source < length self.old.row.items }
        requires room { slice_index self.old.row.items source < count →
            0 < slice_index (spare_rises self.old) source }
        ensures rest { SameButFor source self.old self.new }
        ensures raised { column_in (rises_in self.new) source
            ≡ column_after (column_in (rises_in self.old) source) self.old.events count }
    {
        if self.row[source] < count {
            let place = self.events;
            self.columns[source].push_reserved(Rise { place, count });
            self.row[source] = count;
            self.last = place;
        }
    }
}
