//! The positions of the crashes and restarts, and the down processes after each.
ghost use Rattle.std.specs.Prelude.{◌≡◌, ◌≤◌, ◌∷◌, ℕ, List, IfOk, length, true};
ghost use Rattle.std.specs.Bool.{OnTrue};
ghost use Rattle.std.specs.List.Sorted.{IsNonDecreasing};
ghost use Rattle.causal_trace.specs.declared.entry.Entry.{Entry};
ghost use Rattle.causal_trace.specs.Limits.{max_entries};
ghost use Rattle.causal_trace.specs.Past.{instant, is_down};
ghost use Rattle.causal_audit.specs.Quiet.{is_transition};
ghost use Rattle.causal_audit.specs.Inside.Index.Lists.{AreTransitions, past_of};
ghost use Rattle.causal_audit.specs.Inside.DeliveryStates.{HasExactly};
ghost use Rattle.causal_audit.specs.Inside.SafetyScan.Persistence.{RestartsNone, restarts_one};

use crate::delivery_state::down_after;
use crate::index::by_process::{ByProcess, note};
use crate::index::falls::{Falls, note_fall};
use crate::index::lists::empty_lists;
use crate::index::releases::last_release_end;
use causal_holders::{Holders, PROCESSES};
use causal_name::NoMemory;
use causal_trace::entry::Entry;
use causal_trace::trace::Trace;
use std::alloc::Global;

/// The positions of the crashes and restarts, the down processes after each, and the crashes and restarts of each
/// process, and the restarts by the number of processes that are down after them. Besides these, a position from which
/// no entry releases a process.
#[derive(Drop)]
pub struct Transitions {
    pub positions: Vec<u32>,
    pub downs: Vec<Holders>,
    pub crashes: ByProcess,
    pub restarts: ByProcess,
    pub falls: Falls,
    pub no_release_from: u32,
    ghost ascending: { IsNonDecreasing positions.items },
    ghost counted: { length downs.items ≡ length positions.items },
}

/// A cursor over the crashes and restarts of a run: how many precede it.
#[derive(Clone, Copy)]
pub struct TransitionCursor<'a> {
    pub transitions: &'a Transitions,
    pub passed: usize,
    ghost inside: { passed ≤ length transitions.now.positions.items },
}

/// Returns whether an entry restarts one of these processes.
fn restarts_one(entry: &Entry, members: Holders) -> bool
    ensures { result ≡ restarts_one members entry.now }
{
    match entry {
        Entry::Restart { who, .. } => members.contains(who.0),
        _ => false,
    }
}

/// Returns whether an entry is a crash or a restart.
pub fn is_transition(entry: &Entry) -> bool
    ensures { result ≡ is_transition entry.now }
{
    match entry {
        Entry::Crash { .. } => true,
        Entry::Restart { .. } => true,
        _ => false,
    }
}

/// Builds a [`Transitions`] entry by entry. Also contains the down processes after the entries so far.
#[derive(Drop)]
struct TransitionsBuilder {
    positions: Vec<u32>,
    downs: Vec<Holders>,
    crashes: Vec<Vec<u32>>,
    restarts: Vec<Vec<u32>>,
    falls: Vec<Vec<u32>>,
    no_release_from: u32,
    down: Holders,
}

/// Appends the position of an entry, after which the processes `down` are down, if it is a crash or a restart.
fn note_transition(
    positions: &mut Vec<u32>,
    downs: &mut Vec<Holders>,
    entry: &Entry,
    down: Holders,
    i: u32,
) -> Result<(), NoMemory>
    ensures { IfOk result (λ _. (past : List Entry) → length past ≡ i →
        HasExactly down (λ p. is_down (entry.now ∷ past) p) →
        AreTransitions past positions.old.items downs.old.items →
        AreTransitions (entry.now ∷ past) positions.new.items downs.new.items) }
{
    if !is_transition(entry) {
        return Ok(());
    }
    positions.push(i)?;
    downs.push(down)?;
    Ok(())
}

impl TransitionsBuilder {
    ghost use Rattle.std.specs.Prelude.{◌<◌, [], OnOk, vec_len};
    ghost use Rattle.causal_audit.specs.Inside.Index.RunIndexes.{IsBuilderOf, IsTransitionIndex};

    /// Returns a builder without entries.
    fn new(alloc: Global) -> Result<TransitionsBuilder, NoMemory>
        ensures { IfOk result (IsBuilderOf []) }
    {
        let crashes = empty_lists(alloc, PROCESSES as u32)?;
        let restarts = empty_lists(alloc, PROCESSES as u32)?;
        let falls = empty_lists(alloc, PROCESSES as u32 + 1)?;
        Ok(TransitionsBuilder {
            positions: Vec::new(alloc),
            downs: Vec::new(alloc),
            crashes,
            restarts,
            falls,
            no_release_from: 0,
            down: Holders::none(),
        })
    }

    /// Adds the entry at position i.
    fn note(&mut self, entry: &Entry, i: u32) -> Result<(), NoMemory>
        requires position { i < max_entries }
        requires counts { (vec_len self.old.crashes ≡ 256) × (vec_len self.old.restarts ≡ 256) }
        requires falls { vec_len self.old.falls ≡ 257 }
        ensures { OnOk result ((past : List Entry) → length past ≡ i →
            IsBuilderOf past self.old → IsBuilderOf (entry.now ∷ past) self.new) }
    {
        self.down = down_after(self.down, entry);
        self.no_release_from = last_release_end(self.no_release_from, entry, i);
        note_transition(&mut self.positions, &mut self.downs, entry, self.down, i)?;
        note(&mut self.crashes, false, entry, i)?;
        note(&mut self.restarts, true, entry, i)?;
        note_fall(&mut self.falls, entry, self.down, i)
    }

    /// Returns the crashes and restarts of the entries that were added.
    fn build(self) -> Transitions
        requires { (past : List Entry) × IsBuilderOf past self }
        ensures { (past : List Entry) → IsBuilderOf past self → IsTransitionIndex past result }
    {
        Transitions {
            positions: self.positions,
            downs: self.downs,
            crashes: ByProcess {
                lists: self.crashes,
            },
            restarts: ByProcess {
                lists: self.restarts,
            },
            falls: Falls { lists: self.falls },
            no_release_from: self.no_release_from,
        }
    }
}

impl Transitions {
    ghost use Rattle.causal_audit.specs.Inside.Index.RunIndexes.{IsTransitionIndex};
    ghost use Rattle.causal_audit.specs.Inside.Index.TransitionCursors.{AreAhead, AreBehind, IsCursorAt, IsCountBefore};

    /// Returns the crashes and restarts of these entries.
    ///
    /// # Errors
    /// `NoMemory` if allocation fails.
    pub fn of(alloc: Global, entries: &[Entry]) -> Result<Transitions, NoMemory>
        requires { length entries.now ≤ max_entries }
        ensures { IfOk result (IsTransitionIndex (past_of entries.now)) }
    {
        let mut filing = TransitionsBuilder::new(alloc)?;
        for (i, entry) in entries.iter().enumerate() {
            filing.note(entry, i as u32)?;
        }
        Ok(filing.build())
    }

    /// Returns how many of the positions precede position t.
    fn count_before(&self, t: u32) -> usize
        ensures { IsCountBefore self.now t result }
    {
        self.positions.partition_point(|position| *position < t)
    }

    /// Returns a cursor that has passed exactly the positions before position t.
    pub fn cursor_at(&self, t: u32) -> TransitionCursor<'_>
        ensures { IsCursorAt self.now t result }
    {
        TransitionCursor {
            transitions: self,
            passed: self.count_before(t),
        }
    }

    /// Returns whether all positions except the first `passed` are at or after position t.
    fn are_ahead(&self, passed: usize, t: u32) -> bool
        ensures { OnTrue result (AreAhead self.now t passed) }
    {
        match self.positions.get(passed) {
            Some(position) => *position >= t,
            None => true,
        }
    }

    /// Returns whether the first `passed` positions precede position t.
    fn are_behind(&self, passed: usize, t: u32) -> bool
        requires { passed ≤ length self.now.positions.items }
        ensures { OnTrue result (AreBehind self.now t passed) }
    {
        passed == 0 || self.positions[passed - 1] < t
    }

    /// Returns how many of the positions precede position t. The guess `passed` is usually right; otherwise a binary
    /// search finds the number.
    fn count_before_near(&self, passed: usize, t: u32) -> usize
        requires { passed ≤ length self.now.positions.items }
        ensures { IsCountBefore self.now t result }
    {
        if self.are_behind(passed, t) && self.are_ahead(passed, t) {
            passed
        } else {
            self.count_before(t)
        }
    }

    /// Returns the first position at or after `from` at which one of these processes restarts, or `end` if that is
    /// earlier. Scans the transitions one by one.
    fn next_in_between(&self, trace: &Trace, members: Holders, from: u32, end: u32) -> u32
        requires order { from ≤ end }
        requires transitions { IsTransitionIndex trace.now.recording.past self.now }
        ensures bounds { (from ≤ result) × (result ≤ end) }
        ensures none { RestartsNone trace.now.recording.past members from result }
    {
        let entries = trace.entries();
        let mut passed = self.count_before(from);
        while let Some(position) = self.positions.get(passed) {
            if *position >= end {
                return end;
            }
            if restarts_one(&entries[*position as usize], members) {
                return *position;
            }
            passed += 1;
        }
        end
    }

    /// Returns the first position at or after `from` at which one of these processes restarts, or `end` if that is
    /// earlier. The first `passed` transitions precede `from`. Usually no transition lies in between, so one comparison
    /// suffices. Otherwise it takes a binary search for each process, or a look at each transition in between if these
    /// are no more than the processes.
    fn next_restart(
        &self,
        trace: &Trace,
        members: Holders,
        passed: usize,
        from: u32,
        end: u32,
    ) -> u32
        requires order { from ≤ end }
        requires transitions { IsTransitionIndex trace.now.recording.past self.now }
        requires place { IsCountBefore self.now from passed }
        ensures bounds { (from ≤ result) × (result ≤ end) }
        ensures none { RestartsNone trace.now.recording.past members from result }
    {
        if self.are_ahead(passed, end) {
            return end;
        }
        if self.are_ahead(passed.saturating_add(members.len() as usize), end) {
            self.next_in_between(trace, members, from, end)
        } else {
            self.restarts.next_among(members, from, end)
        }
    }
}

impl TransitionCursor<'_> {
    ghost use Rattle.causal_audit.specs.Inside.Index.Lists.{list_at, lists_in};
    ghost use Rattle.causal_audit.specs.Inside.Index.RunIndexes.{IsTransitionIndex};
    ghost use Rattle.causal_audit.specs.Inside.Index.TransitionCursors.{IsCursorAt};
    ghost use Rattle.causal_audit.specs.Inside.PositionLists.{HasNoneUntil};
    ghost use Rattle.causal_audit.specs.Inside.SafetyScan.Persistence.{CrashesNone};

    /// Returns the processes that are down after the transitions that were passed.
    #[tactic(auto, using(crate::proofs::index::DownAfterTurns::none_turned))]
    pub fn down(&self) -> Holders
        ensures { (past : List Entry) (t : ℕ) → t ≤ length past →
            IsTransitionIndex past self.now.transitions.now →
            IsCursorAt self.now.transitions.now t self.now →
            HasExactly result (λ p. is_down (instant past t) p) }
    {
        if self.passed == 0 {
            return Holders::none();
        }
        self.transitions.downs[self.passed - 1]
    }

    /// Returns the first position at or after `from` at which one of these processes restarts, or `end` if that is
    /// earlier. Advances past crashes and restarts of other processes. If no transition lies in between, nothing is
    /// searched.
    pub fn next_restart(&mut self, trace: &Trace, members: Holders, from: u32, end: u32) -> u32
        requires order { from ≤ end }
        requires transitions { IsTransitionIndex trace.now.recording.past self.old.transitions.now }
        ensures bounds { (from ≤ result) × (result ≤ end) }
        ensures passed { IsCursorAt self.old.transitions.now result self.new }
        ensures none { RestartsNone trace.now.recording.past members from result }
    {
        let passed = self.transitions.count_before_near(self.passed, from);
        let position = self
            .transitions
            .next_restart(trace, members, passed, from, end);
        self.passed = self.transitions.count_before_near(passed, position);
        position
    }

    /// Returns the first position at or after `from` at which one of these processes crashes, or at which a restart
    /// leaves only `count` processes down, or `end` if that is earlier. Advances past the crashes and restarts before
    /// it. Takes a binary search for each process and one more.
    pub fn next_fall(&mut self, members: Holders, count: u8, from: u32, end: u32) -> u32
        requires order { from ≤ end }
        ensures bounds { (from ≤ result) × (result ≤ end) }
        ensures passed { IsCursorAt self.old.transitions.now result self.new }
        ensures none { (past : List Entry) → IsTransitionIndex past self.old.transitions.now →
            CrashesNone past members from result × HasNoneUntil (list_at (lists_in
            self.old.transitions.now.falls.lists.items) count) from result }
    {
        let fall = self.transitions.falls.next_to(count, from, end);
        let position = self.transitions.crashes.next_among(members, from, fall);
        self.passed = self.transitions.count_before_near(self.passed, position);
        position
    }
}
