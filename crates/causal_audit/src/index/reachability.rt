//! The processes that the events of each process reach. A process that depends on a delivery is among those that the
//! delivery's receiver reaches.
ghost use Rattle.std.specs.Prelude.{◌≡◌, ◌<◌, ℕ, length};
ghost use Rattle.causal_name.specs.declared.Pid.{Pid};
ghost use Rattle.causal_audit.specs.Inside.Index.Reachability.{reachable_from, with_reached};

use causal_holders::Holders;
use causal_trace::entry::Entry;

/// Returns a process and those that it reaches.
pub fn reachable_from(sets: &[Holders], process: u8) -> Holders
    requires { length sets.now ≡ 256 }
    ensures { result ≡ reachable_from sets.now process }
{
    let mut reached = sets[usize::from(process)];
    reached.insert(process);
    reached
}

/// Adds the processes that a message's receiver reaches to those that its sender reaches.
pub fn note_send(sets: &mut Vec<Holders>, entry: &Entry)
    requires { length sets.old.items ≡ 256 }
    ensures bound { (from to : Pid) (ssn : ℕ) → entry.now ≡ Entry.Send from to ssn → from.0 < 256 }
    ensures count { length sets.new.items ≡ 256 }
    ensures reached { sets.new.items ≡ with_reached sets.old.items entry.now }
{
    if let Entry::Send { from, to, .. } = entry {
        let receivers = reachable_from(sets, to.0);
        sets[usize::from(from.0)] = reachable_from(sets, from.0).union(receivers);
    }
}
