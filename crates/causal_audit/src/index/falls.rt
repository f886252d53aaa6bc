//! The restarts by the number of processes that are down after them.
ghost use Rattle.std.specs.Prelude.{◌≡◌, ◌≤◌, ◌<◌, ◌∷◌, ℕ, List, OnOk, length, vec_len};
ghost use Rattle.std.specs.List.{All};
ghost use Rattle.std.specs.List.Sorted.{IsNonDecreasing};
ghost use Rattle.causal_trace.specs.declared.entry.Entry.{Entry};
ghost use Rattle.causal_trace.specs.Past.{is_down};
ghost use Rattle.causal_audit.specs.Inside.DeliveryStates.{HasExactly};
ghost use Rattle.causal_audit.specs.Inside.Index.Falls.{AreFalls};
ghost use Rattle.causal_audit.specs.Inside.Index.Lists.{list_at, lists_in};

use crate::index::cursor::Cursor;
use crate::index::lists::push_to_list;
use causal_holders::Holders;
use causal_name::NoMemory;
use causal_trace::entry::Entry;

/// For each number of processes the ascending positions of the restarts after which so many are down, one fewer than
/// before.
#[derive(Drop)]
pub struct Falls {
    pub lists: Vec<Vec<u32>>,
    ghost count: { vec_len lists ≡ 257 },
    ghost ascend: { All IsNonDecreasing (lists_in lists.items) },
}

/// Appends the position of an entry, after which the processes `down` are down, to the list of their number, if it is a
/// restart.
pub fn note_fall(
    lists: &mut Vec<Vec<u32>>,
    entry: &Entry,
    down: Holders,
    i: u32,
) -> Result<(), NoMemory>
    requires { vec_len lists.old ≡ 257 }
    ensures falls { OnOk result ((past : List Entry) → length past ≡ i →
        HasExactly down (λ p. is_down (entry.now ∷ past) p) →
        AreFalls past (lists_in lists.old.items) →
        AreFalls (entry.now ∷ past) (lists_in lists.new.items)) }
    ensures count { vec_len lists.new ≡ 257 }
{
    match entry {
        Entry::Restart { .. } => push_to_list(lists, down.len() as usize, i),
        _ => Ok(()),
    }
}

impl Falls {
    ghost use Rattle.causal_audit.specs.Inside.PositionLists.{HasNoneUntil};

    /// Returns the first position at or after `from` of a restart after which `count` processes are down, or `end` if
    /// that is earlier, by a binary search.
    pub fn next_to(&self, count: u8, from: u32, end: u32) -> u32
        requires { from ≤ end }
        ensures bounds { (from ≤ result) × (result ≤ end) }
        ensures none { HasNoneUntil (list_at (lists_in self.now.lists.items) count) from result }
    {
        let list = self.lists[usize::from(count)].as_slice();
        let mut ahead = Cursor::new(list, from);
        ahead.next(from, end)
    }
}
