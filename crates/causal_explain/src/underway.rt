//! The first delivery by which a determinant that was in transit at an instant arrives.
ghost use Rattle.std.specs.Prelude.{◌≡◌, ◌≤◌, ◌&&◌, ℕ, List, IfOk, length, reverse, false, nat_lt, not, slice_index_or};
ghost use Rattle.std.specs.List.{list_any};
ghost use Rattle.causal_name.specs.declared.Det.{Det};
ghost use Rattle.causal_trace.specs.declared.entry.Entry.{Entry};
ghost use Rattle.causal_trace.specs.Dependence.{is_delivery_of};
ghost use Rattle.causal_trace.specs.Limits.{max_entries};
ghost use Rattle.causal_trace.specs.Past.{logs};
ghost use Rattle.causal_explain.specs.Underway.{FirstLate, FirstUnderway, arrives_late, delivered_send};
ghost use Rattle.causal_explain.specs.Inside.Transits.{AreInTransit};
ghost use Rattle.causal_explain.specs.Inside.Validities.{AreValidities};

use crate::holdings::{holder_validity, lists_det, log_has_det};
use crate::marks::{EventKind, events_of_kind, is_marked};
use crate::validity::Validity;
use causal_name::{Det, NoMemory};
use causal_trace::entry::Entry;
use causal_trace::trace::Trace;
use std::alloc::Global;

/// Removes the mark of the send whose message an entry delivers.
fn unmark_delivered(marks: &mut [bool], entry: &Entry)
    ensures { (k : ℕ) → slice_index_or marks.new k false
        ≡ (slice_index_or marks.old k false && not (is_delivery_of k entry.now)) }
{
    if let Entry::Deliver { send, .. } = entry {
        let position = *send as usize;
        if position < marks.len() {
            marks[position] = false;
        }
    }
}

/// Removes the marks of the sends whose messages these entries deliver.
fn unmark_each_delivered(marks: &mut [bool], entries: &[Entry])
    ensures { (k : ℕ) → slice_index_or marks.new k false
        ≡ (slice_index_or marks.old k false && not (list_any (is_delivery_of k) (reverse entries.now))) }
{
    for entry in entries {
        unmark_delivered(marks, entry);
    }
}

/// Returns for each entry whether it is a send by a process whose log then contains the determinant, and none of these
/// entries delivers the message.
fn sends_in_transit(alloc: Global, entries: &[Entry], det: Det) -> Result<Vec<bool>, NoMemory>
    requires { length entries.now ≤ max_entries }
    ensures { IfOk result (λ sends. AreInTransit (reverse entries.now) det sends.items) }
{
    let mut sends = events_of_kind(alloc, EventKind::SendByHolder, entries, det)?;
    unmark_each_delivered(sends.as_mut_slice(), entries);
    Ok(sends)
}

/// Whether a position is marked and before another.
fn is_marked_before(marks: &[bool], position: u32, end: u32) -> bool
    ensures { result ≡ (nat_lt position end && slice_index_or marks.now position false) }
{
    position < end && is_marked(marks, position)
}

/// Whether three facts hold.
fn all_hold(first: bool, second: bool, third: bool) -> bool
    ensures { result ≡ (first && second && third) }
{
    first && second && third
}

/// Whether an entry is a delivery that brings the determinant to a process whose log lacks it, by a message in transit
/// that was sent before the position.
fn arrives_late(
    entry: &Entry,
    in_transit: &[bool],
    standings: &[Validity],
    before: u32,
    det: Det,
) -> bool
    requires { length standings.now ≡ 256 }
    ensures { (past : List Entry) → AreInTransit past det in_transit.now →
        AreValidities past (λ p state. logs state p det) standings.now →
        result ≡ arrives_late past before det entry.now }
{
    match entry {
        Entry::Deliver {
            to,
            send,
            listed,
            ..
        } => {
            let is_underway = is_marked_before(in_transit, *send, before);
            let is_logged = log_has_det(standings, to.0);
            let is_listed = lists_det(listed, det);
            all_hold(is_underway, !is_logged, is_listed)
        }
        _ => false,
    }
}

/// Returns the first position from `end` on with a delivery that brings the determinant to a process whose log lacks it
/// after the first `end` entries, by a message that is in transit there and that a process whose log contained it sent
/// before the position `before`.
fn first_late(
    alloc: Global,
    entries: &[Entry],
    end: u32,
    before: u32,
    det: Det,
) -> Result<Option<u32>, NoMemory>
    requires within { end ≤ length entries.now }
    requires few { length entries.now ≤ max_entries }
    ensures { IfOk result (FirstLate (reverse entries.now) end before det) }
{
    let state = &entries[..end as usize];
    let in_transit = sends_in_transit(alloc, state, det)?;
    let standings = holder_validity(state, det);
    for j in end..entries.len() as u32 {
        if arrives_late(
            &entries[j as usize],
            in_transit.as_slice(),
            &standings,
            before,
            det,
        ) {
            return Ok(Some(j));
        }
    }
    Ok(None)
}

/// Returns the position of the send whose message the entry at a position delivers.
fn delivered_send(trace: &Trace, delivery: Option<u32>) -> Option<u32>
    ensures { result ≡ delivered_send trace.now.recording.past delivery }
{
    match trace.entry(delivery?) {
        Some(Entry::Deliver { send, .. }) => Some(*send),
        _ => None,
    }
}

/// Returns the first delivery from `end` on that brings the determinant to a process whose log lacks it after the first
/// `end` entries, by a message in transit there that a process whose log contained it sent before the message that
/// `unlisted` delivers; None also if there is no `unlisted`.
///
/// It takes O(entries + listed determinants) time, of the whole trace, and O(`end`) memory.
pub(crate) fn first_underway(
    alloc: Global,
    trace: &Trace,
    end: u32,
    unlisted: Option<u32>,
    det: Det,
) -> Result<Option<u32>, NoMemory>
    requires { end ≤ length trace.now.recording.past }
    ensures { IfOk result (FirstUnderway trace.now.recording.past end det unlisted) }
{
    match delivered_send(trace, unlisted) {
        Some(before) => first_late(alloc, trace.entries(), end, before, det),
        None => Ok(None),
    }
}
