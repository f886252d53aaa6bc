//! The earliest breach of a group of deliveries, by one walk over the entries.
ghost use Rattle.std.specs.Prelude.{◌≤◌, IfOk, OnOk, length};
ghost use Rattle.std.specs.List.{All};
ghost use Rattle.causal_audit.specs.Inside.Among.{EarliestAmongBy};
ghost use Rattle.causal_audit.specs.Inside.Group.Walk.{HasBuffers, HasRowsFor, HaveNoOrphans, IsWalkState};
ghost use Rattle.causal_audit.specs.Inside.Group.OpenDeliveries.{AreInOrder, IsDeliveryAt, IsOpenDelivery, positions_of};

use crate::breach::{Breach, earlier_breach, last_relevant_instant};
use crate::delivery_state::down_after;
use crate::group::buffers::{WalkBuffers, places_of};
use crate::group::copies::{changed_places, update_copies};
use crate::group::group_positions::{places_at, sort_by_position};
use crate::group::held_places::{held_by_receiver, note_held};
use crate::group::marks::mentioned_places;
use crate::group::orphan_check::check_step;
use crate::group::suspects::WalkStep;
use crate::group::walk_input::{NO_DELIVERY, OpenDelivery, WalkInput, last_of};
use causal_name::NoMemory;
use causal_trace::trace::Trace;
use std::alloc::Global;

/// The number of deliveries that one walk follows.
pub const GROUP: usize = 256;

/// Returns the earliest breach of a group, if it comes by the instant `end`, by a walk over the entries from `start` up
/// to `end`. The buffers must be prepared for this walk.
///
/// # Errors
/// `NoMemory` if allocation fails.
fn walk_group(
    trace: &Trace,
    f: u16,
    start: u32,
    end: u32,
    candidates: &[OpenDelivery],
    buffers: &mut WalkBuffers,
) -> Result<Option<Breach>, NoMemory>
    requires few { length candidates.now ≤ 256 }
    requires ordered { start ≤ end }
    requires within { end ≤ length trace.now.recording.past }
    requires deliveries { All
        (λ delivery. IsDeliveryAt trace.now.recording.past delivery.position) candidates.now }
    requires candidates { All (IsOpenDelivery trace.now.recording f end) candidates.now }
    requires rows { HasRowsFor start end buffers.old }
    requires begun { IsWalkState trace.now.recording candidates.now start start buffers.old }
    requires none { HaveNoOrphans trace.now.recording f candidates.now start }
    requires order { AreInOrder candidates.now }
    ensures buffers { OnOk result (HasBuffers buffers.new) }
    ensures found { IfOk result
        (EarliestAmongBy trace.now.recording f end (positions_of candidates.now)) }
{
    let entries = trace.entries();
    let all = places_of(candidates);
    let mut unresolved = all;
    let mut passed = 0;
    for t in start..end {
        let entry = &entries[t as usize];
        let own = places_at(candidates, &mut passed, t);
        let mentioned = mentioned_places(buffers.reach.rows.get((t - start) as usize), entry);
        let newly = buffers.reach.apply_entry(entry, t, own)?;
        let step = WalkStep {
            entry,
            t,
            newly,
            mentioned,
        };
        let held = held_by_receiver(&buffers.held_places, entry);
        let places = changed_places(entry, mentioned, held, all);
        update_copies(&mut buffers.copies, entry, mentioned, places);
        note_held(&mut buffers.held_places, entry, mentioned);
        buffers.down = down_after(buffers.down, entry);
        if let Some(found) = check_step(&*buffers, trace, f, candidates, &step, &mut unresolved) {
            return Ok(Some(found));
        }
    }
    Ok(None)
}

impl WalkInput<'_> {
    /// Returns the earliest breach of a group, if it comes by the instant `end`. The walk begins at the group's first
    /// delivery or at an earlier mention of one of its determinants. It ends at the last instant at which a delivery of
    /// the group is open.
    ///
    /// # Errors
    /// `NoMemory` if allocation fails.
    #[tactic(auto, using(crate::proofs::Rules::of_orders))]
    fn earliest_in_group(
        &self,
        f: u16,
        end: u32,
        candidates: &[OpenDelivery],
        buffers: &mut WalkBuffers,
    ) -> Result<Option<Breach>, NoMemory>
        requires within { end ≤ self.now.end }
        requires few { length candidates.now ≤ 256 }
        requires deliveries { All
            (λ delivery. IsDeliveryAt self.now.run.past delivery.position) candidates.now }
        requires candidates { All (IsOpenDelivery self.now.run f end) candidates.now }
        requires buffers { HasBuffers buffers.old }
        ensures buffers { OnOk result (HasBuffers buffers.new) }
        ensures found { IfOk result (EarliestAmongBy self.now.run f end
            (positions_of candidates.now)) }
    {
        let mut table = [NO_DELIVERY; GROUP];
        let group = sort_by_position(&mut table, candidates);
        let last = last_of(group, end);
        let start = self.start_of(group, last);
        self.prepare_walk(buffers, start, last, group)?;
        let found = walk_group(self.indexed_trace.trace, f, start, last, group, buffers)?;
        Ok(found)
    }

    /// Returns the earliest breach of these deliveries, by instant and then by position, if it comes by the instant
    /// `end`; `None` if none has an orphan by then.
    ///
    /// There is one walk over the entries for each 256 deliveries, and no walk goes beyond a breach that was found. An
    /// entry takes O(determinants of the group that it newly mentions + deliveries that it may newly orphan) time. A
    /// crash or restart takes O(deliveries of the group) time, a restart or forgetting O(processes) more. Memory: 4
    /// bytes for each entry of the longest walk, 32 for each that mentions a determinant of its group, and for each send
    /// that other deliveries of the group reach than the send before it.
    ///
    /// # Errors
    /// `NoMemory` if allocation fails.
    pub fn earliest_of(
        &self,
        alloc: Global,
        f: u16,
        end: u32,
        candidates: &[OpenDelivery],
    ) -> Result<Option<Breach>, NoMemory>
        requires within { end ≤ self.now.end }
        requires deliveries { All
            (λ delivery. IsDeliveryAt self.now.run.past delivery.position) candidates.now }
        requires candidates { All (IsOpenDelivery self.now.run f end) candidates.now }
        ensures { IfOk result (EarliestAmongBy self.now.run f end (positions_of candidates.now)) }
    {
        let mut buffers = WalkBuffers::new(alloc)?;
        self.earliest_over_groups(f, end, candidates, &mut buffers)
    }

    /// Returns the earliest breach of these deliveries, as `earliest_of`, with buffers that all groups use.
    ///
    /// # Errors
    /// `NoMemory` if allocation fails.
    fn earliest_over_groups(
        &self,
        f: u16,
        end: u32,
        candidates: &[OpenDelivery],
        buffers: &mut WalkBuffers,
    ) -> Result<Option<Breach>, NoMemory>
        requires within { end ≤ self.now.end }
        requires deliveries { All
            (λ delivery. IsDeliveryAt self.now.run.past delivery.position) candidates.now }
        requires candidates { All (IsOpenDelivery self.now.run f end) candidates.now }
        requires buffers { HasBuffers buffers.old }
        ensures { IfOk result (EarliestAmongBy self.now.run f end (positions_of candidates.now)) }
    {
        let mut least = None;
        for group in candidates.chunks(GROUP) {
            let found = self.earliest_in_group(
                f,
                last_relevant_instant(end, &least),
                group,
                buffers,
            )?;
            least = earlier_breach(least, found);
        }
        Ok(least)
    }
}
