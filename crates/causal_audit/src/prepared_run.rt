//! A recorded run prepared for its audit, and parts of its deliveries.
ghost use Rattle.std.specs.Prelude.{◌≡◌, ◌-◌, ◌<◌, ◌≤◌, IfOk, drop, length};
ghost use Rattle.causal_trace.specs.Past.{deliveries_in};
ghost use Rattle.causal_audit.specs.Breaches.{EarliestBreachBy};
ghost use Rattle.causal_audit.specs.Parts.{AreSufficient, EarliestOf, part_of};
ghost use Rattle.causal_audit.specs.Searches.{IsSearched, delivery_count};
ghost use Rattle.causal_audit.specs.Shares.{IsFairShare, IsShareOf, walk_count, walk_length, walked};
ghost use Rattle.causal_audit.specs.Inside.Group.OpenDeliveries.{open_lengths_of};

use crate::breach::Breach;
use crate::group::walk::GROUP;
use crate::group::walk_input::{OpenDelivery, WalkInput};
use crate::group::walk_order::sort_for_groups;
use crate::index::indexed_trace::IndexedTrace;
use crate::index::run_index::RunIndex;
use crate::indexed_run::{IndexedRun, OpenDeliveries};
use causal_name::NoMemory;
use causal_trace::trace::Trace;
use std::alloc::Global;
use std::marker::Model;
use std::snapshot::Snapshot;

/// A recorded run prepared for its audit for f up to the instant `end`: the deliveries that must be followed, and the
/// indexes for it. It contains no copy of the trace. The model is the followed deliveries.
#[derive(Drop)]
pub struct PreparedRun {
    run: Snapshot<Trace>,
    index: RunIndex,
    f: u16,
    end: u32,
    candidates: Vec<OpenDelivery>,
}

impl Model for PreparedRun {
    ghost use Rattle.causal_audit.specs.Parts.{FollowedDeliveries};
    ghost use Rattle.causal_audit.specs.Inside.Group.OpenDeliveries.{IsPrepared, open_lengths_of, positions_of};

    ghost Value = { FollowedDeliveries };

    ghost view = { λ a. record { run = a.run.value.recording; f = a.f; end = a.end; positions = positions_of a.candidates.items; open_lengths = open_lengths_of a.candidates.items } };

    ghost invariant = { λ a. IsPrepared a.run.value.recording a.f a.end a.index a.candidates.items };
}

impl PreparedRun {
    /// Prepares a trace for f up to the instant `end`, which is at most its length. It scans each determinant once to
    /// find the deliveries that need not be followed. The earliest breach of the others is that of the run.
    ///
    /// Takes what [`IndexedRun::of`] and [`IndexedRun::open_deliveries`] take.
    ///
    /// # Errors
    /// `NoMemory` if allocation fails.
    pub fn of(alloc: Global, trace: &Trace, f: u16, end: u32) -> Result<PreparedRun, NoMemory>
        requires { end ≤ length trace.now.recording.past }
        ensures run { IfOk result (λ prepared. prepared.run ≡ trace.now.recording) }
        ensures sufficient { IfOk result (AreSufficient trace.now.recording f end) }
    {
        let indexed = IndexedRun::of(alloc, trace, f, end)?;
        PreparedRun::of_indexed(alloc, trace, indexed)
    }

    /// Prepares an indexed run by a search over all its deliveries. The trace must be the one that was indexed.
    ///
    /// # Errors
    /// `NoMemory` if allocation fails.
    pub(crate) fn of_indexed(
        alloc: Global,
        trace: &Trace,
        indexed: IndexedRun,
    ) -> Result<PreparedRun, NoMemory>
        requires { trace.now.recording ≡ indexed.run }
        ensures run { IfOk result (λ prepared. prepared.run ≡ indexed.run) }
        ensures sufficient { IfOk result (AreSufficient indexed.run indexed.f indexed.end) }
    {
        let found = indexed.open_deliveries(alloc, trace, 0, indexed.deliveries())?;
        PreparedRun::from_search(indexed, found)
    }

    /// Prepares an indexed run, given the result of the whole search for the deliveries that must be followed.
    ///
    /// # Errors
    /// `NoMemory` if allocation fails.
    pub fn from_search(indexed: IndexedRun, found: OpenDeliveries) -> Result<PreparedRun, NoMemory>
        requires { IsSearched indexed 0 (delivery_count indexed) found }
        ensures run { IfOk result (λ prepared. prepared.run ≡ indexed.run) }
        ensures sufficient { IfOk result (AreSufficient indexed.run indexed.f indexed.end) }
    {
        let mut candidates = found.candidates;
        sort_for_groups(&mut candidates)?;
        Ok(PreparedRun {
            run: indexed.run,
            index: indexed.index,
            f: indexed.f,
            end: indexed.end,
            candidates,
        })
    }

    /// Returns how many deliveries are followed.
    pub fn followed_count(&self) -> usize
        ensures count { result ≡ length self.now.positions }
        ensures lengths { length self.now.open_lengths ≡ length self.now.positions }
    {
        self.candidates.len()
    }

    /// Returns where a share that begins at index `from` ends: at the end of a group, such that the remaining walks are
    /// divided about evenly among `workers` workers. A walk covers about as many entries as its first delivery is open
    /// for. O(deliveries / 256) time.
    pub fn share_end(&self, from: usize, workers: u32) -> usize
        requires { (from ≤ length self.now.positions) × (1 ≤ workers) }
        ensures within { (from ≤ result) × (result ≤ length self.now.positions) }
        ensures progress { from < length self.now.positions → from < result }
        ensures last { workers ≡ 1 → result ≡ length self.now.positions }
        ensures fair { 2 ≤ workers →
            IsFairShare workers (drop from self.now.open_lengths) (result - from) }
        ensures lengths { length self.now.open_lengths ≡ length self.now.positions }
    {
        if workers == 1 {
            return self.candidates.len();
        }
        let rest = &self.candidates[from..];
        let fair = total_walk_length(rest) / u128::from(workers);
        from + deliveries_of_share(rest, fair)
    }

    /// Returns the part of the followed deliveries from index `from` to below index `to`. The trace must be the one
    /// that was prepared.
    pub fn part<'a>(&'a self, trace: &'a Trace, from: usize, to: usize) -> Part<'a>
        requires same { trace.now.recording ≡ self.now.run }
        requires places { (from ≤ to) × (to ≤ length self.now.positions) }
        ensures { result ≡ part_of self.now from to }
    {
        let indexed_trace = IndexedTrace {
            trace,
            transitions: &self.index.transitions,
        };
        let walk_input = WalkInput {
            indexed_trace: indexed_trace,
            mentions: &self.index.mentions,
            end: self.end,
        };
        Part {
            walk_input: walk_input,
            f: self.f,
            end: self.end,
            candidates: &self.candidates[from..to],
        }
    }

    /// Returns the earliest breach of all followed deliveries, as [`Part::earliest_breach`]. The trace must be the one that was
    /// prepared.
    ///
    /// # Errors
    /// `NoMemory` if allocation fails.
    #[tactic(auto, using(crate::proofs::Lemmas::Parts::whole))]
    pub(crate) fn earliest_breach(
        &self,
        alloc: Global,
        trace: &Trace,
    ) -> Result<Option<Breach>, NoMemory>
        requires { trace.now.recording ≡ self.now.run }
        ensures { IfOk result (EarliestOf self.now) }
    {
        let whole = self.part(trace, 0, self.followed_count());
        whole.earliest_breach(alloc)
    }
}

/// Returns how many walks follow this many deliveries.
fn walk_count(deliveries: usize) -> usize
    ensures { result ≡ walk_count deliveries }
{
    deliveries / GROUP + usize::from(deliveries % GROUP > 0)
}

/// Estimates the number of entries of a walk, by the first delivery of its group.
fn walk_length(candidates: &[OpenDelivery], walk: usize) -> u32
    requires { walk < walk_count (length candidates.now) }
    ensures { result ≡ walk_length (open_lengths_of candidates.now) walk }
{
    let first = candidates[walk * GROUP];
    first.until.saturating_sub(first.position)
}

/// Estimates the number of entries of all walks that follow these deliveries.
#[tactic(auto, using(crate::proofs::ShareLemmas::walked_more))]
fn total_walk_length(candidates: &[OpenDelivery]) -> u128
    ensures { result ≡ walked (open_lengths_of candidates.now) (walk_count (length candidates.now)) }
{
    let mut walked: u128 = 0;
    for walk in 0..walk_count(candidates.len()) {
        walked += u128::from(walk_length(candidates, walk));
    }
    walked
}

/// Returns the number of deliveries in the first groups whose walks cover at least `fair` entries; at least one group,
/// if there is one.
#[tactic(auto, using(crate::proofs::ShareLemmas::walked_more))]
fn deliveries_of_share(candidates: &[OpenDelivery], fair: u128) -> usize
    requires { fair ≤ walked (open_lengths_of candidates.now) (walk_count (length candidates.now)) }
    ensures within { result ≤ length candidates.now }
    ensures progress { 0 < length candidates.now → 0 < result }
    ensures share { IsShareOf (open_lengths_of candidates.now) fair result }
{
    let mut walked: u128 = 0;
    for walk in 0..walk_count(candidates.len()) {
        if walk > 0 && walked >= fair {
            return walk * GROUP;
        }
        walked += u128::from(walk_length(candidates, walk));
    }
    candidates.len()
}

/// A part of the followed deliveries of a prepared run. The model is these deliveries.
#[derive(Drop)]
pub struct Part<'a> {
    walk_input: WalkInput<'a>,
    f: u16,
    end: u32,
    candidates: &'a [OpenDelivery],
}

impl<'a> Model for Part<'a> {
    ghost use Rattle.causal_audit.specs.Parts.{FollowedDeliveries};
    ghost use Rattle.std.specs.Prelude.{◌≤◌};
    ghost use Rattle.causal_audit.specs.Inside.Group.OpenDeliveries.{AreOpenDeliveries, open_lengths_of, positions_of};

    ghost Value = { FollowedDeliveries };

    ghost view = { λ a. record { run = a.walk_input.run; f = a.f; end = a.end; positions = positions_of a.candidates.now; open_lengths = open_lengths_of a.candidates.now } };

    ghost invariant = { λ a. AreOpenDeliveries a.walk_input.run a.f a.end a.candidates.now × (a.end ≤ a.walk_input.end) };
}

impl Part<'_> {
    /// Returns the earliest breach of these deliveries, by instant and then by position, if it comes by the instant up
    /// to which the run is prepared; `None` if none has an orphan by then.
    ///
    /// Memory, freed at the end: 4 bytes for each entry of its longest walk, 32 for each that mentions a determinant of
    /// a group, and for each send that other deliveries of the group reach than the send before it, and 32 kB.
    ///
    /// # Errors
    /// `NoMemory` if allocation fails.
    pub fn earliest_breach(&self, alloc: Global) -> Result<Option<Breach>, NoMemory>
        ensures { IfOk result (EarliestOf self.now) }
    {
        self.walk_input
            .earliest_of(alloc, self.f, self.end, self.candidates)
    }
}

/// Returns the result of the whole search of an indexed run as a part, in the order of the search. The trace must be the
/// one that was indexed.
fn found_part<'a>(trace: &'a Trace, indexed: &'a IndexedRun, found: &'a OpenDeliveries) -> Part<'a>
    requires same { trace.now.recording ≡ indexed.now.run }
    requires found { IsSearched indexed.now 0 (delivery_count indexed.now) found.now }
    ensures { AreSufficient indexed.now.run indexed.now.f indexed.now.end result }
{
    let indexed_trace = IndexedTrace {
        trace,
        transitions: &indexed.index.transitions,
    };
    let walk_input = WalkInput {
        indexed_trace: indexed_trace,
        mentions: &indexed.index.mentions,
        end: indexed.end,
    };
    Part {
        walk_input: walk_input,
        f: indexed.f,
        end: indexed.end,
        candidates: found.candidates.as_slice(),
    }
}

/// Returns the earliest breach of an indexed run up to its end: by instant, then by position. `None` if no delivery has
/// an orphan by then. The trace must be the one that was indexed. Deliveries are followed in the order of the search, not
/// in one that shortens walks, so this is for a few thousand entries.
///
/// # Errors
/// `NoMemory` if allocation fails.
pub(crate) fn breach_by_end(
    alloc: Global,
    trace: &Trace,
    indexed: &IndexedRun,
) -> Result<Option<Breach>, NoMemory>
    requires { trace.now.recording ≡ indexed.now.run }
    ensures { IfOk result (EarliestBreachBy indexed.now.run indexed.now.f indexed.now.end 0
        (deliveries_in indexed.now.run.past)) }
{
    let found = indexed.open_deliveries(alloc, trace, 0, indexed.deliveries())?;
    found_part(trace, indexed, &found).earliest_breach(alloc)
}
