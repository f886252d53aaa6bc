//! The verdict on a recorded run.
ghost use Rattle.std.specs.Prelude.{◌≡◌, IfSome};

use crate::breach::Breach;
use causal_holders::Holders;

/// The verdict on a trace for f. Instants count entries: instant t is the state after the first t entries.
#[derive(Clone, Copy, Debug, PartialEq, Eq)]
pub enum Verdict {
    /// Every instant is safe.
    Accept,
    /// At `instant`, the first unsafe one, more than f processes are down: the processes `down`.
    Exceeded {
        instant: u32,
        down: Holders,
    },
    /// At `instant`, the first unsafe one, the delivery at position `delivery` is the first with an orphan. `crash` is
    /// the smallest crash set that gives it one, and `orphan` is the least orphan under this set.
    Orphan {
        instant: u32,
        delivery: u32,
        crash: Holders,
        orphan: u8,
    },
}

impl Verdict {
    ghost use Rattle.causal_audit.specs.BreachOfVerdict.{breach_of};

    /// Returns the breach that an `Orphan` verdict describes; `None` for another verdict.
    pub fn breach(self) -> Option<Breach>
        ensures value { result ≡ breach_of self }
        ensures orphan { IfSome result (λ b.
            self ≡ Verdict.Orphan b.instant b.delivery b.crash b.orphan) }
    {
        match self {
            Verdict::Orphan {
                instant,
                delivery,
                crash,
                orphan,
            } => Some(Breach {
                instant,
                delivery,
                crash,
                orphan,
            }),
            Verdict::Accept | Verdict::Exceeded { .. } => None,
        }
    }
}
