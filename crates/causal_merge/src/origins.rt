//! Where the entries of a merged trace come from.
ghost use Rattle.std.specs.Prelude.{◌≡◌, map, IfOk};
ghost use Rattle.causal_merge.specs.Origins as origins;

use crate::event::EventAtLine;
use std::alloc::{AllocError, Global};

/// Where an entry of a merged trace comes from.
#[derive(Clone, Copy)]
pub struct Origin {
    /// The number of its line in the input, from 1.
    pub line: u32,
    /// Its clock.
    pub clock: u64,
}

/// Returns the origin of each event, in the order of the events.
pub(crate) fn origins_of(alloc: Global, events: &[EventAtLine]) -> Result<Vec<Origin>, AllocError>
    ensures { IfOk result (λ found. found.items ≡ map origins.origin_of events.now) }
{
    events.iter().map(origin_of).collect(alloc)
}

fn origin_of(placed: &EventAtLine) -> Origin
    ensures { result ≡ origins.origin_of placed.now }
{
    Origin {
        line: placed.line,
        clock: placed.event.clock,
    }
}
