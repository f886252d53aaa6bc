//! Schedules, and what driving returns.
ghost use Rattle.std.specs.Prelude.{◌≡◌};
ghost use Rattle.causal_driver.specs.Schedules.{next_word};

use causal_protocol::request::{Reply, Request};

/// A schedule. Equal schedules make equal calls on equal runtimes.
#[derive(Clone, Copy)]
pub struct Schedule {
    /// The word before those that choose the requests.
    pub seed: u64,
    /// The maximum number of calls.
    pub steps: u32,
    /// Once this many restarts have been made, no process crashes.
    pub restarts: u32,
}

/// A call that was made.
#[derive(Clone, Copy)]
pub struct Call {
    pub request: Request,
    pub reply: Reply,
}

/// Why driving ended.
#[derive(Clone, Copy)]
pub enum End {
    /// All processes are up, and nothing can be delivered.
    Quiet,
    /// The schedule's maximum number of calls is reached.
    Steps,
    /// A process that is down has to restart, and no spare for it is left.
    NoSpare,
    /// Allocation failed.
    NoMemory,
}

/// What driving returns.
#[derive(Drop)]
pub struct Driven {
    /// The calls in order.
    pub calls: Vec<Call>,
    pub end: End,
}

/// Returns the word after this one.
pub(crate) fn next_word(word: u64) -> u64
    ensures { result ≡ next_word word }
{
    word.wrapping_mul(6_364_136_223_846_793_005)
        .wrapping_add(1_442_695_040_888_963_407)
}
