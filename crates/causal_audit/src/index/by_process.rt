//! The crashes of each process, and its restarts.
ghost use Rattle.std.specs.Prelude.{◌≡◌, ◌≤◌, ◌<◌, ◌∷◌, List, OnOk, length, vec_len};
ghost use Rattle.std.specs.List.{All};
ghost use Rattle.std.specs.List.Sorted.{IsNonDecreasing};
ghost use Rattle.causal_trace.specs.declared.entry.Entry.{Entry};
ghost use Rattle.causal_audit.specs.Inside.Index.Lists.{AreTransitionsOf, IsProcessOf, list_at, lists_in};

use crate::index::cursor::Cursor;
use crate::index::lists::push_to_list;
use causal_holders::Holders;
use causal_name::NoMemory;
use causal_trace::entry::Entry;

/// For each process the ascending positions of its crashes, or of its restarts.
#[derive(Drop)]
pub struct ByProcess {
    pub lists: Vec<Vec<u32>>,
    ghost count: { vec_len lists ≡ 256 },
    ghost ascend: { All IsNonDecreasing (lists_in lists.items) },
}

/// Returns the process that an entry restarts, or crashes if `restarts` is false; `None` if it does not.
fn process_of(restarts: bool, entry: &Entry) -> Option<u8>
    ensures { IsProcessOf restarts entry.now result }
{
    match entry {
        Entry::Crash { who } => { if restarts { None } else { Some(who.0) } }
        Entry::Restart { who, .. } => { if restarts { Some(who.0) } else { None } }
        _ => None,
    }
}

/// Appends the position of an entry to the list of the process that it restarts or crashes.
pub fn note(
    lists: &mut Vec<Vec<u32>>,
    restarts: bool,
    entry: &Entry,
    i: u32,
) -> Result<(), NoMemory>
    requires { vec_len lists.old ≡ 256 }
    ensures transitions { OnOk result ((past : List Entry) → length past ≡ i →
        AreTransitionsOf restarts past (lists_in lists.old.items) →
        AreTransitionsOf restarts (entry.now ∷ past) (lists_in lists.new.items)) }
    ensures count { vec_len lists.new ≡ 256 }
{
    match process_of(restarts, entry) {
        Some(process) => push_to_list(lists, usize::from(process), i),
        None => Ok(()),
    }
}

impl ByProcess {
    ghost use Rattle.std.specs.Prelude.{Contains, false, true};
    ghost use Rattle.causal_audit.specs.Inside.PositionLists.{HasNoneUntil};
    ghost use Rattle.causal_audit.specs.Inside.SafetyScan.Persistence.{CrashesNone, RestartsNone};

    /// Returns the first position of a process at or after `from`, or `end` if that is earlier, by a binary search.
    pub fn next_of(&self, process: u8, from: u32, end: u32) -> u32
        requires { from ≤ end }
        ensures bounds { (from ≤ result) × (result ≤ end) }
        ensures none { HasNoneUntil (list_at (lists_in self.now.lists.items) process) from result }
        ensures found { result < end →
            Contains (list_at (lists_in self.now.lists.items) process) result }
    {
        let list = self.lists[usize::from(process)].as_slice();
        let mut ahead = Cursor::new(list, from);
        ahead.next(from, end)
    }

    /// Returns the first position at or after `from` of one of these processes, or `end` if that is earlier. It is the
    /// least over the processes.
    #[tactic(auto, using(crate::proofs::group::GroupReach::fewer))]
    pub fn next_among(&self, members: Holders, from: u32, end: u32) -> u32
        requires { from ≤ end }
        ensures bounds { (from ≤ result) × (result ≤ end) }
        ensures none { (past : List Entry) →
            AreTransitionsOf true past (lists_in self.now.lists.items) →
            RestartsNone past members from result }
        ensures crashed { (past : List Entry) →
            AreTransitionsOf false past (lists_in self.now.lists.items) →
            CrashesNone past members from result }
    {
        let mut next = end;
        let mut rest = members;
        while let Some(process) = rest.least() {
            rest.remove(process);
            next = self.next_of(process, from, next);
        }
        next
    }
}
