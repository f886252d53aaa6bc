//! The position of each send, in a sorted index, so that no lookup scans the run.
ghost use Rattle.std.specs.Prelude.{◌≡◌, ◌∷◌, ◌<◌, ◌≤◌, [], List, ℕ, length, OnOk, IfErr};
ghost use Rattle.causal_trace.specs.declared.entry.Entry.{Entry};
ghost use Rattle.causal_trace.specs.Limits.{max_entries};
ghost use Rattle.causal_merge.specs.EventMerge.{send_position};
ghost use Rattle.causal_merge.specs.Inside.Sends.{IsSendsOf};

use causal_line::kind::TextKind;
use causal_name::Pid;
use causal_trace::entry::Entry;
use std::alloc::Global;
use std::collections::BTreeMap;

/// A send: its process, the lane (incarnation) of that process, and its number there.
#[derive(Clone, Copy, Debug, PartialEq, Eq, PartialOrd, Ord)]
pub struct SendName {
    pub source: Pid,
    pub lane: u32,
    pub ssn: u32,
}

/// The position of each send, and the present lane of each process. A lookup and an insertion cost O(log sends).
#[derive(Drop)]
pub(crate) struct Sends {
    positions: BTreeMap<SendName, u32>,
    lanes: [u32; 256],
}

impl Sends {
    /// Starts without entries.
    pub(crate) fn new(alloc: Global) -> Sends
        ensures { IsSendsOf result [] }
    {
        Sends {
            positions: BTreeMap::new(alloc),
            lanes: [0; 256],
        }
    }

    /// Returns the position of a send; None if it is missing.
    pub(crate) fn position(&self, name: SendName) -> Option<u32>
        ensures { (past : List Entry) → IsSendsOf self.now past → result ≡ send_position past name }
    {
        self.positions.get(&name).copied()
    }

    /// Records the next entry, at this position.
    pub(crate) fn note(&mut self, entry: &Entry, position: u32) -> Result<(), TextKind>
        requires { position ≤ max_entries }
        ensures ok { OnOk result ((past : List Entry) → IsSendsOf self.old past →
            position ≡ length past
            → IsSendsOf self.new (entry.now ∷ past)) }
        ensures err { IfErr result (λ kind. kind ≡ TextKind.NoMemory) }
    {
        match entry {
            Entry::Send { from, ssn, .. } => {
                let name = SendName {
                    source: *from,
                    lane: self.lanes[from.0 as usize],
                    ssn: *ssn,
                };
                self.positions.insert(name, position)?;
            }
            Entry::Restart { who, .. } => {
                let lane = self.lanes[who.0 as usize].saturating_add(1);
                self.lanes[who.0 as usize] = lane;
            }
            _ => {}
        }
        Ok(())
    }
}
