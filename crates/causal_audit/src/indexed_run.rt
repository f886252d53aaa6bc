//! A recorded run indexed for its audit, and the search for the deliveries that must be followed.
ghost use Rattle.std.specs.Prelude.{◌≡◌, ◌≤◌, ℕ, IfOk, length};
ghost use Rattle.causal_audit.specs.Searches.{SearchScope, IsSearched, delivery_count, scope_of, search_scope};

use crate::group::walk_input::OpenDelivery;
use crate::index::indexed_trace::IndexedTrace;
use crate::index::positions::positions_of;
use crate::index::run_index::RunIndex;
use crate::index_parts::{EffectIndex, PrefixIndex, TransitionIndex};
use crate::safety_scan::open_delivery_search::OpenDeliverySearch;
use causal_holders::Holders;
use causal_name::NoMemory;
use causal_trace::trace::Trace;
use std::alloc::Global;
use std::marker::Model;
use std::snapshot::Snapshot;

/// A recorded run indexed for its audit for f up to the instant `end`. It contains no copy of the trace. The model is
/// the scope of the search for the deliveries that must be followed: the run, f and `end`.
#[derive(Drop)]
pub struct IndexedRun {
    pub(crate) run: Snapshot<Trace>,
    pub(crate) index: RunIndex,
    departures: Vec<u32>,
    reached: Vec<Holders>,
    positions: Vec<u32>,
    pub(crate) f: u16,
    pub(crate) end: u32,
}

impl Model for IndexedRun {
    ghost use Rattle.causal_audit.specs.Searches.{SearchScope};
    ghost use Rattle.causal_audit.specs.Inside.Group.OpenDeliveries.{IsIndexedRun};

    ghost Value = { SearchScope };

    ghost view = { λ a. record { run = a.run.value.recording; f = a.f; end = a.end } };

    ghost invariant = { λ a. IsIndexedRun a.run.value.recording a.end a.index a.departures.items a.reached.items a.positions.items };
}

impl IndexedRun {
    /// Indexes a trace for f up to the instant `end`, which is at most its length. Takes O(entries + determinants listed
    /// before the end) time and memory.
    ///
    /// # Errors
    /// `NoMemory` if allocation fails.
    pub fn of(alloc: Global, trace: &Trace, f: u16, end: u32) -> Result<IndexedRun, NoMemory>
        requires { end ≤ length trace.now.recording.past }
        ensures { IfOk result (λ indexed. indexed ≡ search_scope trace.now.recording f end) }
    {
        let prefix = PrefixIndex::of(alloc, trace, f, end)?;
        let effects = EffectIndex::of(alloc, trace)?;
        let transitions = TransitionIndex::of(alloc, trace)?;
        IndexedRun::from_parts(alloc, trace, transitions, effects, prefix)
    }

    /// Indexes a trace, given the parts of its index. It adds the positions of the deliveries.
    ///
    /// # Errors
    /// `NoMemory` if allocation fails.
    pub fn from_parts(
        alloc: Global,
        trace: &Trace,
        transitions: TransitionIndex,
        effects: EffectIndex,
        prefix: PrefixIndex,
    ) -> Result<IndexedRun, NoMemory>
        requires transitions { transitions ≡ prefix.run }
        requires effects { effects ≡ prefix.run }
        requires same { trace.now.recording ≡ prefix.run }
        ensures { IfOk result (λ indexed. indexed ≡ prefix) }
    {
        let entries = trace.entries();
        let positions = positions_of(alloc, &entries[..prefix.end as usize])?;
        let index = RunIndex {
            transitions: transitions.transitions,
            mentions: prefix.mentions,
        };
        Ok(IndexedRun {
            run: prefix.run,
            index,
            departures: effects.departures,
            reached: effects.reached,
            positions,
            f: prefix.f,
            end: prefix.end,
        })
    }

    /// Indexes the run up to another instant, given its part of the index. The trace must be the one that was indexed.
    ///
    /// # Errors
    /// `NoMemory` if allocation fails.
    pub fn with_prefix(
        self,
        alloc: Global,
        trace: &Trace,
        prefix: PrefixIndex,
    ) -> Result<IndexedRun, NoMemory>
        requires run { self.run ≡ prefix.run }
        requires same { trace.now.recording ≡ prefix.run }
        ensures { IfOk result (λ indexed. indexed ≡ prefix) }
    {
        let kept = self.index;
        let transitions = TransitionIndex {
            run: Snapshot::of(trace),
            transitions: kept.transitions,
        };
        let effects = EffectIndex {
            run: Snapshot::of(trace),
            departures: self.departures,
            reached: self.reached,
        };
        IndexedRun::from_parts(alloc, trace, transitions, effects, prefix)
    }

    /// Returns the number of deliveries before the end.
    pub fn deliveries(&self) -> u32
        ensures { result ≡ delivery_count self.now }
    {
        self.positions.len() as u32
    }

    /// Returns about how many steps a search takes for the deliveries with numbers below this one: one for each, and one
    /// for each mention of its determinant.
    fn steps_before(&self, number: u32) -> u64 {
        u64::from(number).saturating_add(
            self.index.mentions.lists.room_before(number as usize) as u64,
        )
    }

    /// Returns where the last of so many shares begins into which the search from number `from` to below `to` is divided, so
    /// that each takes about as many steps. O(log deliveries) time.
    pub fn last_share(&self, from: u32, to: u32, shares: u32) -> u32
        requires { from ≤ to }
        ensures { (from ≤ result) × (result ≤ to) }
    {
        let all = self.steps_before(to);
        let share = all.saturating_sub(self.steps_before(from)) / u64::from(shares.max(1));
        let mut low = from;
        let mut high = to;
        while low < high {
            let mid = low + (high - low) / 2;
            if self.steps_before(mid) < all.saturating_sub(share) {
                low = mid + 1;
            } else {
                high = mid;
            }
        }
        low
    }

    /// Returns the deliveries before the end that must be followed, of those whose determinant is last delivered by a
    /// delivery numbered `from` to below `to`. The trace must be the one that was indexed. So the parts of a search are
    /// disjoint, and several threads can take one each.
    ///
    /// Each determinant is scanned once. A scan passes the mentions of its determinant, and the restarts of processes
    /// that were down or held it; each delivery takes O(log intervals) time, for the intervals that the scan found.
    ///
    /// # Errors
    /// `NoMemory` if allocation fails.
    pub fn open_deliveries(
        &self,
        alloc: Global,
        trace: &Trace,
        from: u32,
        to: u32,
    ) -> Result<OpenDeliveries, NoMemory>
        requires same { trace.now.recording ≡ self.now.run }
        requires within { to ≤ delivery_count self.now }
        ensures { IfOk result (IsSearched self.now from to) }
    {
        let search = OpenDeliverySearch {
            indexed_trace: IndexedTrace {
                trace,
                transitions: &self.index.transitions,
            },
            mentions: &self.index.mentions,
            departures: self.departures.as_slice(),
            reached: self.reached.as_slice(),
            positions: self.positions.as_slice(),
            f: self.f,
            end: self.end,
        };
        let candidates = search.open_deliveries(alloc, from, to)?;
        Ok(OpenDeliveries {
            run: Snapshot::of(trace),
            f: self.f,
            end: self.end,
            candidates,
        })
    }
}

/// Deliveries of a run that must be followed for f up to an instant. The model is these deliveries.
#[derive(Drop)]
pub struct OpenDeliveries {
    run: Snapshot<Trace>,
    f: u16,
    end: u32,
    pub(crate) candidates: Vec<OpenDelivery>,
}

impl Model for OpenDeliveries {
    ghost use Rattle.causal_audit.specs.Parts.{FollowedDeliveries};
    ghost use Rattle.causal_audit.specs.Inside.Group.OpenDeliveries.{AreOpenDeliveries, open_lengths_of, positions_of};

    ghost Value = { FollowedDeliveries };

    ghost view = { λ a. record { run = a.run.value.recording; f = a.f; end = a.end; positions = positions_of a.candidates.items; open_lengths = open_lengths_of a.candidates.items } };

    ghost invariant = { λ a. AreOpenDeliveries a.run.value.recording a.f a.end a.candidates.items };
}

impl OpenDeliveries {
    /// Appends the result of the part of the search before this one.
    ///
    /// # Errors
    /// `NoMemory` if allocation fails.
    pub fn append(self, earlier: OpenDeliveries) -> Result<OpenDeliveries, NoMemory>
        requires { scope_of self ≡ scope_of earlier }
        ensures { IfOk result (λ all. (scope : SearchScope) (from mid to : ℕ) →
            IsSearched scope mid to self → IsSearched scope from mid earlier →
            IsSearched scope from to all) }
    {
        let mut candidates = self.candidates;
        candidates.extend_from_slice(earlier.candidates.as_slice())?;
        Ok(OpenDeliveries {
            run: self.run,
            f: self.f,
            end: self.end,
            candidates,
        })
    }
}
