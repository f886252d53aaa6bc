//! Linear scans of a run's entries, oldest first. Each computes the value of a definition.
ghost use Rattle.std.specs.Prelude.{◌≡◌, ◌≤◌, false, length, slice_get};
ghost use Rattle.std.specs.Option.{option_map, option_copied};
ghost use Rattle.causal_name.specs.Names.{is_ascending};
ghost use Rattle.causal_trace.specs.Past as past;
ghost use Rattle.causal_trace.specs.State.{past_at};

use crate::entry::Entry;
use causal_name::{Det, MsgName, Pid};

/// Checks whether the process is down after these entries.
pub(crate) fn is_down(entries: &[Entry], p: Pid) -> bool
    ensures { result ≡ past.is_down (past_at entries.now (length entries.now)) p.0 }
{
    let mut down = false;
    for e in entries {
        match e {
            Entry::Crash { who } => {
                if who.0 == p.0 {
                    down = true;
                }
            }
            Entry::Restart { who, .. } => {
                if who.0 == p.0 {
                    down = false;
                }
            }
            _ => {}
        }
    }
    down
}

/// Returns the number of the process's present lane (incarnation).
pub(crate) fn lane(entries: &[Entry], p: Pid) -> usize
    ensures value { result ≡ past.lane (past_at entries.now (length entries.now)) p.0 }
    ensures few { result ≤ length entries.now }
{
    let mut lane = 0;
    for e in entries {
        match e {
            Entry::Restart { who, .. } => {
                if who.0 == p.0 {
                    lane += 1;
                }
            }
            _ => {}
        }
    }
    lane
}

/// Checks whether the process is down after the first t entries.
#[tactic(auto, using(crate::proofs::Lemmas::Instants::past_whole))]
pub(crate) fn is_down_at(entries: &[Entry], t: usize, p: Pid) -> bool
    requires { t ≤ length entries.now }
    ensures { result ≡ past.is_down (past_at entries.now t) p.0 }
{
    is_down(&entries[..t], p)
}

/// Returns the number of the process's lane after the first t entries.
#[tactic(auto, using(crate::proofs::Lemmas::Instants::past_whole))]
pub(crate) fn lane_at(entries: &[Entry], t: usize, p: Pid) -> usize
    requires { t ≤ length entries.now }
    ensures value { result ≡ past.lane (past_at entries.now t) p.0 }
    ensures few { result ≤ t }
{
    lane(&entries[..t], p)
}

/// Returns the entry at a position.
pub(crate) fn entry(entries: &[Entry], i: u32) -> Option<&Entry>
    ensures { option_copied result ≡ slice_get entries.now i }
{
    entries.get(i as usize)
}

/// Returns the message that the entry at a position sends, if it is among the first t entries.
#[tactic(auto, using(crate::proofs::Lemmas::Instants::past_length, crate::proofs::Lemmas::Instants::entry_there, crate::proofs::Lemmas::Instants::entry_beyond))]
pub(crate) fn message_at(entries: &[Entry], t: usize, send: u32) -> Option<MsgName>
    requires { t ≤ length entries.now }
    ensures { result ≡ past.message_at (past_at entries.now t) send }
{
    if send as usize >= t {
        return None;
    }
    match &entries[send as usize] {
        Entry::Send { from, ssn, .. } => Some(MsgName {
            source: *from,
            ssn: *ssn,
        }),
        _ => None,
    }
}

/// Returns the message that the entry at a position sends.
pub(crate) fn message_sent_at(entries: &[Entry], send: u32) -> Option<MsgName>
    ensures { result ≡ past.message_at (past_at entries.now (length entries.now)) send }
{
    message_at(entries, entries.len(), send)
}

/// Checks whether the entry at a position is a send to the process.
#[tactic(auto, using(crate::proofs::Lemmas::Instants::past_length, crate::proofs::Lemmas::Instants::entry_there, crate::proofs::Lemmas::Instants::entry_beyond))]
pub(crate) fn is_sent_to(entries: &[Entry], send: u32, p: Pid) -> bool
    ensures { result ≡ past.is_sent_to (past_at entries.now (length entries.now)) send p.0 }
{
    if send as usize >= entries.len() {
        return false;
    }
    match &entries[send as usize] {
        Entry::Send { to, .. } => to.0 == p.0,
        _ => false,
    }
}

/// Returns the determinant of the delivery of a message.
pub(crate) fn det_from(to: Pid, rsn: u32, message: Option<MsgName>) -> Option<Det>
    ensures { result ≡ option_map (past.det_from to rsn) message }
{
    match message {
        Some(m) => Some(Det {
            source: m.source,
            ssn: m.ssn,
            dest: to,
            rsn,
        }),
        None => None,
    }
}

/// Returns the determinant of a delivery entry that follows the first t entries.
pub(crate) fn det_of(entries: &[Entry], t: usize, e: &Entry) -> Option<Det>
    requires { t ≤ length entries.now }
    ensures { result ≡ past.det_of (past_at entries.now t) e.now }
{
    match e {
        Entry::Deliver { to, send, rsn, .. } => det_from(*to, *rsn, message_at(entries, t, *send)),
        _ => None,
    }
}

/// Returns the determinant of a delivery entry that follows all these entries.
pub(crate) fn det_of_next(entries: &[Entry], e: &Entry) -> Option<Det>
    ensures { result ≡ past.det_of (past_at entries.now (length entries.now)) e.now }
{
    det_of(entries, entries.len(), e)
}

/// Returns the determinant of the delivery at a position.
#[tactic(auto, using(crate::proofs::Lemmas::Instants::past_length, crate::proofs::Lemmas::Instants::det_there, crate::proofs::Lemmas::Instants::det_beyond))]
pub(crate) fn det_at(entries: &[Entry], k: u32) -> Option<Det>
    ensures { result ≡ past.det_at (past_at entries.now (length entries.now)) k }
{
    if k as usize >= entries.len() {
        return None;
    }
    det_of(entries, k as usize, &entries[k as usize])
}

/// Checks whether the list is strictly ascending.
pub(crate) fn is_ascending(dets: &[Det]) -> bool
    ensures { result ≡ is_ascending dets.now }
{
    for i in 1..dets.len() {
        if !dets[i - 1].comes_before(&dets[i]) {
            return false;
        }
    }
    true
}
