//! What a process knows of a determinant.
ghost use Rattle.std.specs.Prelude.{◌≡◌};
ghost use Rattle.causal_log.specs.Knowledge.{unknown, held_by, union_with, as_stable, knowledge_from_item, is_carried};
ghost use Rattle.causal_log.specs.Inside.BatchCache.{held_by_both};

use crate::batch::Item;
use causal_holders::Holders;
use causal_name::Pid;

/// What a process knows of a determinant: who holds it in volatile memory, and whether it is in stable storage.
#[derive(Clone, Copy, PartialEq, Eq)]
pub struct Known {
    pub holders: Holders,
    pub stable: bool,
}

impl Known {
    pub(crate) fn unknown() -> Known
        ensures { result ≡ unknown }
    {
        Known {
            holders: Holders::none(),
            stable: false,
        }
    }

    pub(crate) fn held_by(process: Pid) -> Known
        ensures { result ≡ held_by process }
    {
        let mut known = Known::unknown();
        known.holders.insert(process.0);
        known
    }

    /// Returns the knowledge that both ends of a message have of a determinant that it carries: both hold it.
    pub(crate) fn held_by_both(from: Pid, me: Pid) -> Known
        ensures { result ≡ held_by_both from me }
    {
        Known::held_by(from).union_with(Known::held_by(me))
    }

    pub(crate) fn union_with(self, other: Known) -> Known
        ensures { result ≡ union_with self other }
    {
        Known {
            holders: self.holders.union(other.holders),
            stable: self.stable || other.stable,
        }
    }

    /// Returns this knowledge with the mark that the determinant is stable.
    pub(crate) fn as_stable(self) -> Known
        ensures { result ≡ as_stable self }
    {
        Known {
            holders: self.holders,
            stable: true,
        }
    }

    pub(crate) fn is_carried(&self, f: u16) -> bool
        ensures { result ≡ is_carried f self.now }
    {
        !self.stable && self.holders.len() <= u32::from(f)
    }
}

/// Returns what an item of a message gives the receiver: the item's holders, the sender and the receiver hold its
/// determinant.
pub(crate) fn knowledge_from_item(from: Pid, me: Pid, item: &Item) -> Known
    ensures { result ≡ (knowledge_from_item from me item.now).1 }
{
    let mut news = item.sender_knowledge();
    news.holders.insert(from.0);
    news.holders.insert(me.0);
    news
}
