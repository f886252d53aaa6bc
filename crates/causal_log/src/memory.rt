//! Stable storage in memory, for programs that need no device.
#![tactic(auto, using(crate::proofs::Rules::of_store))]

ghost use Rattle.std.specs.Prelude.{◌≡◌};
ghost use Rattle.std.specs.FinMap as fin;

use crate::known::Known;
use crate::stable::{PutFault, Stable};
use crate::table::{Table, dets};
use causal_name::{Det, NoMemory, Slot};
use std::alloc::Global;
use std::marker::Model;

/// Stable storage without a device; a `put` fails only if out of memory.
#[derive(Drop)]
pub struct MemStable {
    /// A table whose entries carry no knowledge.
    members: Table,
}

impl Model for MemStable {
    ghost use Rattle.std.specs.FinMap as fin;
    ghost use Rattle.std.specs.Map.{keys_of};
    ghost use base.Stored.{coded_unit};
    ghost use Rattle.causal_log.specs.Knowledge.{coded_det};
    ghost use Rattle.causal_log.specs.Stores.{DetSet, set_of};

    ghost Value = { DetSet };

    ghost coded = { fin.code coded_det coded_unit };

    ghost view = { λ store. set_of (keys_of store.members.entries) };
}

impl MemStable {
    /// Returns an empty store.
    pub fn new(alloc: Global) -> MemStable
        ensures { result ≡ fin.empty }
    {
        MemStable::with_seed(alloc, 0)
    }

    /// Returns an empty store whose entries are hashed with this seed, as in `Log::with_seed`.
    pub fn with_seed(alloc: Global, seed: u64) -> MemStable
        ensures { result ≡ fin.empty }
    {
        MemStable {
            members: Table::new(alloc, seed),
        }
    }
}

impl Stable for MemStable {
    ghost contents = { λ store. store };

    ghost faults = { λ store. 0 };

    fn put(&mut self, det: Det) -> Result<(), PutFault> {
        if self.members.find(det).is_some() {
            return Ok(());
        }
        self.members.reserve(1).map_err(|_| PutFault::NoMemory)?;
        self.members.add(det, Known::unknown());
        Ok(())
    }

    fn contains(&self, det: Det) -> bool {
        self.members.find(det).is_some()
    }

    fn len(&self) -> u64 {
        self.members.entries().len() as u64
    }

    fn all(&self, alloc: Global) -> Result<Vec<Det>, NoMemory> {
        let mut dets = dets(alloc, self.members.entries())?;
        dets.sort()?;
        Ok(dets)
    }

    fn failures(&self) -> u64 {
        0
    }

    fn least_of(&self, slot: Slot) -> Option<Det> {
        self.members.least_of(slot)
    }
}
