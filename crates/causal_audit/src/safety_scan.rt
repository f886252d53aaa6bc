//! The scan of one determinant: how safe it is at each instant of a run. The result does not depend on a delivery or
//! its dependents, so deliveries that share a determinant share the scan.
ghost use Rattle.std.specs.Prelude.{◌≡◌, ◌≤◌, ◌<◌, ◌∷◌, ◌||◌, true, length, List, MatchOption};
ghost use Rattle.std.specs.List.Sorted.{IsNonDecreasing};
ghost use Rattle.causal_trace.specs.declared.entry.Entry.{Entry};
ghost use Rattle.causal_trace.specs.Limits.{max_entries};
ghost use Rattle.causal_trace.specs.Past.{instant, is_stable};
ghost use Rattle.causal_trace.specs.Rows.{IsWellFormed};
ghost use Rattle.causal_audit.specs.Inside.PositionLists.{HasNoneUntil, AreMentionsOf, HasMentions};
ghost use Rattle.causal_audit.specs.Inside.Index.IndexedTraces.{AreMentionsOf-prop};
ghost use Rattle.causal_audit.specs.Inside.Index.Reachability.{HasReached};
ghost use Rattle.causal_audit.specs.Inside.SafetyScan.Persistence.{concerns_one};

/// The processes that are down, and those that hold a determinant.
pub mod down_and_holders;
/// The search for the deliveries that must be followed.
pub mod open_delivery_search;
/// How safe a determinant is during an interval of instants.
pub mod det_safety;
/// The result of a scan.
pub mod at_risk_intervals;

use crate::index::cursor::Cursor;
use crate::index::indexed_trace::IndexedTrace;
use crate::index::transitions::TransitionCursor;
use crate::safety_scan::det_safety::{DetSafety, SafetyInterval};
use crate::safety_scan::down_and_holders::DownAndHolders;
use causal_holders::Holders;
use causal_name::Det;
use causal_trace::entry::Entry;

/// The input of a scan: a determinant with its mentions before the instant `end` of the run, and the processes that its
/// receiver reaches. The determinant is at risk at an instant if three conditions hold: it is not stable, at most f
/// processes are down or hold it, and some process that its receiver reaches is not among these.
#[derive(Clone, Copy)]
pub struct SafetyScan<'a> {
    pub run: IndexedTrace<'a>,
    pub mentions: &'a [u32],
    pub det: Det,
    pub reached: Holders,
    pub limit: u16,
    pub end: u32,
    ghost within: { end ≤ length run.trace.now.recording.past },
    ghost reaching: { HasReached run.trace.now.recording.past det.dest.0 reached },
    ghost ascending: { IsNonDecreasing mentions.now },
    ghost mentioned: { HasMentions (instant run.trace.now.recording.past end) det mentions.now },
    ghost only: { AreMentionsOf (instant run.trace.now.recording.past end) det mentions.now } by { AreMentionsOf-prop _ _ _ },
}

/// The position of a scan: an instant, with the down processes, the holders, and the determinant's safety. The instant
/// is beyond the end once the scan is complete.
#[derive(Clone, Copy)]
pub struct ScanPosition<'a> {
    pub t: u32,
    pub ahead: Cursor<'a>,
    pub transitions: TransitionCursor<'a>,
    pub down_and_holders: DownAndHolders,
    pub safety: DetSafety,
}

/// Returns the first of an ascending list of positions, or `end` if that is earlier.
fn first_or_end(list: &[u32], end: u32) -> u32
    requires { IsNonDecreasing list.now }
    ensures before { result ≤ end }
    ensures none { HasNoneUntil list.now 0 result }
{
    match list.first() {
        Some(position) => (*position).min(end),
        None => end,
    }
}

/// Returns whether an entry is a crash or restart of one of these processes.
fn concerns_one(entry: &Entry, members: Holders) -> bool
    ensures { result ≡ concerns_one members entry.now }
{
    match entry {
        Entry::Crash { who } => members.contains(who.0),
        Entry::Restart { who, .. } => members.contains(who.0),
        _ => false,
    }
}

/// Returns whether an entry is a scan's own: it mentions the determinant, or is a crash or restart of a holder, or no
/// process is released any more.
fn is_own(lasting: bool, mentioned: bool, entry: &Entry, holders: Holders) -> bool
    ensures { result ≡ (lasting || (mentioned || concerns_one holders entry.now)) }
{
    lasting || mentioned || concerns_one(entry, holders)
}

/// Returns whether an entry writes the determinant to stable storage.
fn writes_det(entry: &Entry, det: Det) -> bool
    ensures { result ≡ true → (past : List Entry) → is_stable (entry.now ∷ past) det ≡ true }
{
    match entry {
        Entry::Stable { det: written } => det == *written,
        _ => false,
    }
}

impl<'a> SafetyScan<'a> {
    ghost use Rattle.causal_audit.specs.Inside.SafetyScan.Scans.{IsIntervalPassed, IsKeptUnmentioned, IsScanPosition};
    ghost use Rattle.causal_audit.specs.Inside.Index.TransitionCursors.{IsCursorAt};

    /// Returns a scan position at the first mention, or at `cursor_at` if that is earlier. Before the first mention no
    /// process holds the determinant.
    pub fn start(&self, from: u32) -> ScanPosition<'a>
        requires { from ≤ self.now.end }
        ensures before { result.t ≤ from }
        ensures scan_position { IsScanPosition self.now result }
    {
        let t = first_or_end(self.mentions, from);
        let transitions = self.run.transitions.cursor_at(t);
        let down_and_holders = DownAndHolders {
            down: transitions.down(),
            holders: Holders::none(),
        };
        let safety = down_and_holders.safety(self.limit, self.det.dest.0, self.reached);
        ScanPosition {
            t,
            ahead: Cursor::new(self.mentions, t),
            transitions: transitions,
            down_and_holders: down_and_holders,
            safety: safety,
        }
    }

    /// Returns the next position at which the determinant's safety may change, or `mention` if that is earlier: a
    /// restart of a watched process, or the first after which too few are down. Advances the cursor to it.
    fn next_change(
        &self,
        scan_position: &ScanPosition<'a>,
        transitions: &mut TransitionCursor<'a>,
        mention: u32,
    ) -> u32
        requires scan_position { IsScanPosition self.now scan_position.now }
        requires same { transitions.old.transitions.now ≡ self.now.run.transitions.now }
        requires order { scan_position.now.t ≤ mention }
        requires early { mention ≤ self.now.end }
        ensures bounds { (scan_position.now.t ≤ result) × (result ≤ mention) }
        ensures passed { IsCursorAt self.now.run.transitions.now result transitions.new }
        ensures kept { IsKeptUnmentioned self.now scan_position.now result }
    {
        let known = &scan_position.down_and_holders;
        let safety = scan_position.safety;
        match known.down_bound(safety, self.limit, self.reached) {
            Some(count) => { transitions.next_fall(known.holders, count, scan_position.t, mention) }
            None => {
                let watched = known.watched(safety, self.limit, self.det.dest.0, self.reached);
                transitions.next_restart(self.run.trace, watched, scan_position.t, mention)
            }
        }
    }

    /// Returns the next interval and advances; `None` if the scan is complete. An interval ends at the next entry that
    /// mentions the determinant or may change its safety. The scan is complete once the determinant is stable, or held by
    /// too many processes and none is released any more.
    pub fn next(&self, scan_position: &mut ScanPosition<'a>) -> Option<SafetyInterval>
        requires { scan_position.old.t ≤ self.now.end → IsScanPosition self.now scan_position.old }
        ensures formed { IsWellFormed self.now.run.trace.now.recording }
        ensures short { self.now.end ≤ max_entries }
        ensures scan_position { scan_position.new.t ≤ self.now.end →
            IsScanPosition self.now scan_position.new }
        ensures passed { MatchOption result
            (self.now.end < scan_position.old.t)
            (IsIntervalPassed self.now scan_position.old.t scan_position.new.t) }
    {
        let entries = self.run.trace.entries();
        if scan_position.t > self.end {
            return None;
        }
        let first = scan_position.t;
        let holders = scan_position.down_and_holders.holders;
        let mut ahead = scan_position.ahead;
        let mut transitions = scan_position.transitions;
        let mention = ahead.next(first, self.end);
        let last = self.next_change(&*scan_position, &mut transitions, mention);
        let stretch = SafetyInterval {
            first,
            last,
            safety: scan_position.safety,
        };
        scan_position.t = self.end + 1;
        scan_position.ahead = ahead;
        scan_position.transitions = transitions;
        if last == self.end {
            return Some(stretch);
        }
        let entry = &entries[last as usize];
        if writes_det(entry, self.det) {
            return Some(stretch);
        }
        scan_position
            .down_and_holders
            .apply_entry(scan_position.transitions.down(), entry, mention == last);
        let lasting = self.run.transitions.no_release_from <= last + 1;
        let own = is_own(lasting, mention == last, entry, holders);
        scan_position.safety = scan_position
            .down_and_holders
            .safety_after(own, self.limit, self.det.dest.0, self.reached);
        if lasting && scan_position.safety.is_safe() {
            return Some(stretch);
        }
        scan_position.t = last + 1;
        Some(stretch)
    }
}
