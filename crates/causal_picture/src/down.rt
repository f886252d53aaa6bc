//! The processes that are down at the start of a range.
ghost use Rattle.std.specs.Prelude.{◌∷◌, length, List};
ghost use Rattle.causal_trace.specs.declared.entry.Entry.{Entry};
ghost use Rattle.causal_trace.specs.State.{past_at};
ghost use Rattle.causal_picture.specs.Inside.Downs.{ShowsDown};

use causal_holders::Holders;
use causal_trace::Entry;

/// The down processes after one more entry.
#[tactic(auto, using(crate::proofs::ShownMembers::members))]
fn down_after_entry(mut down: Holders, entry: &Entry) -> Holders
    ensures { (past : List Entry) → ShowsDown past down → ShowsDown (entry.now ∷ past) result }
{
    match entry {
        Entry::Crash { who } => {
            down.insert(who.0);
            down
        }
        Entry::Restart { who, .. } => {
            down.remove(who.0);
            down
        }
        _ => down,
    }
}

/// The down processes after these entries. O(entries) time.
#[tactic(auto, using(crate::proofs::ShownMembers::members))]
pub fn down_processes(entries: &[Entry]) -> Holders
    ensures { ShowsDown (past_at entries.now (length entries.now)) result }
{
    let mut down = Holders::none();
    for entry in entries {
        down = down_after_entry(down, entry);
    }
    down
}
