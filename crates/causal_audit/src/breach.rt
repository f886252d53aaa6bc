//! The two ways in which a recorded run fails: a delivery has an orphan, or too many processes are down.
ghost use Rattle.std.specs.Prelude.{◌≡◌};
ghost use Rattle.causal_audit.specs.BreachOrder.{earlier_breach};
ghost use Rattle.causal_audit.specs.Inside.Among.{last_relevant_instant};

use causal_holders::Holders;

/// The first instant at which a delivery has an orphan, with a crash set and an orphan. Instants count entries: instant
/// t is the state after the first t entries.
#[derive(Clone, Copy, Debug, PartialEq, Eq)]
pub struct Breach {
    /// The first instant at which the delivery has an orphan.
    pub instant: u32,
    /// The position of the delivery's entry.
    pub delivery: u32,
    /// The smallest crash set that gives the delivery an orphan at that instant: every other such set contains it.
    pub crash: Holders,
    /// The least process that is an orphan under this crash set.
    pub orphan: u8,
}

/// The first instant at which more than f processes are down, with these processes.
#[derive(Clone, Copy, Debug, PartialEq, Eq)]
pub struct Excess {
    /// The first instant with more than f processes down.
    pub instant: u32,
    /// The processes that are down at that instant.
    pub down: Holders,
}

impl Breach {
    ghost use Rattle.causal_audit.specs.BreachOrder.{comes_before};

    /// Returns whether this breach precedes another: at an earlier instant, or at the same instant with a lower
    /// position.
    pub fn comes_before(&self, other: &Breach) -> bool
        ensures { result ≡ comes_before self.now other.now }
    {
        self.instant < other.instant
            || (self.instant == other.instant && self.delivery < other.delivery)
    }
}

/// Returns the earlier of two optional breaches. If only one is present, returns it.
pub fn earlier_breach(one: Option<Breach>, other: Option<Breach>) -> Option<Breach>
    ensures { result ≡ earlier_breach one other }
{
    match (one, other) {
        (Some(a), Some(b)) => { if b.comes_before(&a) { Some(b) } else { Some(a) } }
        (Some(a), None) => Some(a),
        (None, b) => b,
    }
}

/// Returns the last instant at which an earlier breach is still possible: that of the earliest breach so far, or `end`.
pub(crate) fn last_relevant_instant(end: u32, least: &Option<Breach>) -> u32
    ensures { result ≡ last_relevant_instant end least.now }
{
    match least {
        Some(breach) => breach.instant,
        None => end,
    }
}
