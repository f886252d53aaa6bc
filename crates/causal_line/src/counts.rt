//! What a process's present lane (incarnation) has sent and delivered, by one scan of all entries.
ghost use Rattle.std.specs.Prelude.{◌≡◌, ◌≤◌, ◌∷◌, List, length};
ghost use Rattle.causal_trace.specs.declared.entry.Entry.{Entry};
ghost use Rattle.causal_trace.specs.Limits.{max_entries};
ghost use Rattle.causal_trace.specs.Past as past;
ghost use Rattle.causal_trace.specs.State.{past_at};
ghost use Rattle.causal_line.specs.Deliveries.{delivery_position};
ghost use Rattle.causal_line.specs.Inside.Messages.{is_of};

use causal_name::{Det, MsgName, Pid};
use causal_trace::entry::Entry;
use causal_trace::trace::Trace;

/// Returns how many messages the process's present lane has sent. O(entries) time.
#[tactic(auto, using(crate::proofs::EntryCounts::whole))]
pub fn sends(trace: &Trace, p: Pid) -> u32
    ensures { result ≡ past.sends trace.now.recording.past p.0 }
{
    counts_in(trace.entries(), p).sends
}

/// Returns how many messages the process's present lane has delivered. O(entries) time.
#[tactic(auto, using(crate::proofs::EntryCounts::whole))]
pub fn deliveries(trace: &Trace, p: Pid) -> u32
    ensures { result ≡ past.deliveries trace.now.recording.past p.0 }
{
    counts_in(trace.entries(), p).deliveries
}

/// How many messages a process's present lane has sent and delivered.
#[derive(Clone, Copy)]
struct Counts {
    sends: u32,
    deliveries: u32,
}

fn counts_in(entries: &[Entry], p: Pid) -> Counts
    requires { length entries.now ≤ max_entries }
    ensures sends { result.sends ≡ past.sends (past_at entries.now (length entries.now)) p.0 }
    ensures deliveries { result.deliveries
        ≡ past.deliveries (past_at entries.now (length entries.now)) p.0 }
{
    let (mut sends, mut deliveries) = (0, 0);
    for e in entries {
        match e {
            Entry::Send { from, .. } if from.0 == p.0 => sends += 1,
            Entry::Deliver { to, .. } if to.0 == p.0 => deliveries += 1,
            Entry::Restart { who, .. } if who.0 == p.0 => {
                sends = 0;
                deliveries = 0;
            }
            _ => {}
        }
    }
    Counts { sends, deliveries }
}

/// Returns the position of the delivery of the message by the process's present lane; None if the lane has not
/// delivered it. O(entries) time.
pub(crate) fn delivery_of(trace: &Trace, p: Pid, message: MsgName) -> Option<u32>
    ensures { result ≡ delivery_position trace.now.recording.past p.0 message }
{
    let mut found = None;
    for (i, e) in trace.entries().iter().enumerate() {
        let position = i as u32;
        found = find_step(found, position, e, trace.det_at(position), p, message);
    }
    found
}

/// Updates the position by one more entry, whose own determinant is `own` if it is a delivery.
fn find_step(
    found: Option<u32>,
    position: u32,
    e: &Entry,
    own: Option<Det>,
    p: Pid,
    message: MsgName,
) -> Option<u32>
    ensures { (before : List Entry) → position ≡ length before → own ≡ past.det_of before e.now
        → found ≡ delivery_position before p.0 message →
        result ≡ delivery_position (e.now ∷ before) p.0 message }
{
    match e {
        Entry::Restart { who, .. } => { if who.0 == p.0 { None } else { found } }
        Entry::Deliver { to, .. } => {
            if to.0 == p.0 && is_of(own, message) {
                Some(position)
            } else {
                found
            }
        }
        _ => found,
    }
}

/// Checks whether an optional determinant is that of a delivery of the message.
fn is_of(own: Option<Det>, message: MsgName) -> bool
    ensures { result ≡ is_of own message }
{
    match own {
        Some(det) => det.message() == message,
        None => false,
    }
}
