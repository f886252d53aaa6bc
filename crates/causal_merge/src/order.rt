//! The merge order of events.
ghost use Rattle.std.specs.Prelude.{◌≡◌};
ghost use Rattle.causal_merge.specs.Order.{IsMergedOrder};

use crate::event::EventAtLine;

/// Sorts events into the merge order: by clock, then process, then line. It sorts in place and allocates no memory.
pub(crate) fn sort_events(events: &mut Vec<EventAtLine>)
    ensures { IsMergedOrder events.old.items events.new.items }
{
    events.sort_unstable_by_key(|placed: &EventAtLine| {
        (placed.event.clock, placed.event.process.0, placed.line)
    });
}
