//! Messages that are sent again after a restart.
ghost use Rattle.std.specs.Prelude.{◌≡◌};
ghost use Rattle.causal_trace.specs.State.{entries_of};
ghost use Rattle.causal_picture.specs.Resent as resent;

use crate::marks::{Mark, MarkEvent};
use causal_name::Pid;
use causal_trace::{Entry, Trace};

/// Returns whether an entry sends the message with this sender and ssn.
fn sends_message(from: Pid, ssn: u32, entry: &Entry) -> bool
    ensures { result ≡ resent.sends_message from ssn entry.now }
{
    match entry {
        Entry::Send {
            from: other,
            ssn: number,
            ..
        } => other.0 == from.0 && *number == ssn,
        _ => false,
    }
}

/// Returns whether an entry before a position sends the message with this sender and ssn. O(position) time.
fn was_sent(trace: &Trace, position: u32, from: Pid, ssn: u32) -> bool
    ensures { result ≡ resent.was_sent (entries_of trace.now.recording) position from ssn }
{
    trace
        .entries()
        .iter()
        .take(position as usize)
        .any(|entry| sends_message(from, ssn, entry))
}

/// Returns whether an event sends a message again, or delivers one that was sent again. Then the sender has sent a
/// message with this ssn before and has restarted in between.
pub fn is_resent(trace: &Trace, mark: &Mark) -> bool
    ensures { result ≡ resent.is_resent (entries_of trace.now.recording) mark.now }
{
    match mark.event {
        MarkEvent::Send { from, ssn, .. } => was_sent(trace, mark.position, from, ssn),
        MarkEvent::Delivery { det, send } => was_sent(trace, send, det.source, det.ssn),
        _ => false,
    }
}
