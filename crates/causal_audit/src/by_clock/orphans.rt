//! Finds the first instant at which a delivery has an orphan. A clock decides which entries the delivery reaches.
ghost use Rattle.std.specs.Prelude.{◌≡◌, ◌≤◌, false, length, Some};
ghost use Rattle.std.specs.List.Sorted.{IsNonDecreasing};
ghost use Rattle.causal_trace.specs.Past.{det_at};
ghost use Rattle.causal_audit.specs.Inside.Among.{FirstBreachBy};
ghost use Rattle.causal_audit.specs.Inside.PositionLists.{AreMentionsOf, HasNoEffect, HasMentions};
ghost use Rattle.causal_audit.specs.Inside.ByClock.ClockOfRun.{IsClockOf};

use crate::breach::Breach;
use crate::delivery_state::{DeliveryState, breach_at};
use crate::index::cursor::Cursor;
use crate::index::departures::event_process;
use crate::index::transitions::is_transition;
use causal_clock::Clocks;
use causal_holders::Holders;
use causal_name::Det;
use causal_trace::entry::Entry;
use causal_trace::trace::Trace;

/// Returns whether an entry may change the state of a delivery. `mentioned`: the entry mentions the determinant.
/// `reached`: the delivery reaches the entry.
fn is_change(state: &DeliveryState, entry: &Entry, mentioned: bool, reached: bool) -> bool
    ensures { result ≡ false → HasNoEffect entry.now mentioned reached state.now.dependents }
{
    is_transition(entry)
        || mentioned
        || (reached && !state.dependents.contains(event_process(entry)))
}

/// Returns the first breach of the delivery at position k by the instant `end`, or `None`. `mentions` are the positions
/// at which its determinant is mentioned. Only the instants after a change are checked.
pub fn first_orphan(
    trace: &Trace,
    clocks: &Clocks,
    mentions: &[u32],
    f: u16,
    end: u32,
    k: u32,
    det: Det,
) -> Option<Breach>
    requires within { end ≤ length trace.now.recording.past }
    requires delivery { det_at trace.now.recording.past k ≡ Some det }
    requires stands { IsClockOf trace.now.recording.past clocks.now.events }
    requires ascending { IsNonDecreasing mentions.now }
    requires mentioned { HasMentions trace.now.recording.past det mentions.now }
    requires only { AreMentionsOf trace.now.recording.past det mentions.now }
    ensures { FirstBreachBy trace.now.recording f end k result }
{
    let entries = trace.entries();
    let mut ahead = Cursor::new(mentions, 0);
    let mut state = DeliveryState::begin(Holders::none());
    for t in 0..end {
        let entry = &entries[t as usize];
        let mentioned = ahead.next(t, end) == t;
        let reached = clocks.precedes(k, t);
        if !is_change(&state, entry, mentioned, reached) {
            continue;
        }
        state.apply_entry(entry, mentioned, reached);
        if let Some(found) = breach_at(&state, f, k, t + 1) {
            return Some(found);
        }
    }
    None
}
