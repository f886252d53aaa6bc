//! What a walk reads of a recorded run up to an instant, and the deliveries that it follows.
ghost use Rattle.std.specs.Prelude.{◌≤◌, min};
ghost use Rattle.std.specs.List.{All};

use crate::index::indexed_trace::IndexedTrace;
use crate::index::mentions::Mentions;
use std::marker::Model;

/// What a walk reads of a recorded run up to the instant `end`: the trace with its crashes and restarts, and the
/// mentions of each determinant before `end`. The model is the run and the instant.
#[derive(Drop)]
pub struct WalkInput<'a> {
    pub indexed_trace: IndexedTrace<'a>,
    pub mentions: &'a Mentions,
    pub end: u32,
}

impl<'a> Model for WalkInput<'a> {
    ghost use Rattle.causal_audit.specs.Inside.Group.OpenDeliveries.{IsRunUpTo, RunUpTo};

    ghost Value = { RunUpTo };

    ghost view = { λ walk_input. record { run = walk_input.indexed_trace.trace.now.recording; end = walk_input.end } };

    ghost invariant = { λ walk_input. IsRunUpTo (record { run = walk_input.indexed_trace.trace.now.recording; end = walk_input.end }) walk_input.mentions.now };
}

/// An open delivery: the position of its entry, and an instant from which it has no orphan.
#[derive(Clone, Copy)]
pub struct OpenDelivery {
    pub position: u32,
    pub until: u32,
}

/// The initial value of an array slot without a delivery.
pub const NO_DELIVERY: OpenDelivery = OpenDelivery {
    position: 0,
    until: 0,
};

/// Returns an instant after which none of these deliveries has an orphan, or `end` if that is earlier.
pub fn last_of(candidates: &[OpenDelivery], end: u32) -> u32
    ensures bound { result ≤ end }
    ensures last { All (λ delivery. min delivery.until end ≤ result) candidates.now }
{
    let mut last = 0;
    for delivery in candidates {
        last = last.max(delivery.until.min(end));
    }
    last
}
