//! The event at a position of a trace.
ghost use Rattle.std.specs.Prelude.{◌≡◌};
ghost use Rattle.causal_report.specs.Events.{event_at};

use causal_facts::ChainEvent;
use causal_name::Pid;
use causal_trace::entry::Entry;
use causal_trace::trace::Trace;

/// The event at a position.
pub(crate) fn event_at(trace: &Trace, position: u32) -> ChainEvent
    ensures { result ≡ event_at trace.now.recording position }
{
    match trace.entry(position) {
        Some(
            Entry::Send {
                from: Pid(from),
                to: Pid(to),
                ssn,
            },
        ) => ChainEvent::Send {
            from: *from,
            to: *to,
            ssn: *ssn,
        },
        Some(
            Entry::Deliver {
                to: Pid(to),
                send,
                ..
            },
        ) => ChainEvent::Delivery {
            to: *to,
            send: *send,
        },
        _ => ChainEvent::Other,
    }
}
