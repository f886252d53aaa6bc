//! Stable storage whose device fails once.
ghost use Rattle.std.specs.Prelude.{◌≡◌, Some};
ghost use Rattle.std.specs.FinMap as fin;

use causal_log::{MemStable, PutFault, Stable};
use causal_name::{Det, NoMemory, Slot};
use std::alloc::Global;

/// Stable storage in memory whose device fails once.
#[derive(Drop)]
pub struct FailingStore {
    /// The stored determinants.
    pub store: MemStable,
    /// The number of determinants that it accepts before the failure; if None, it accepts all.
    pub before_fault: Option<u64>,
    /// The number of failures so far.
    pub failures: u64,
}

impl FailingStore {
    /// An empty store. Its device accepts `before_fault` determinants, fails at the next one, and then accepts all.
    pub fn new(alloc: Global, before_fault: u64) -> FailingStore
        ensures { result ≡
            record { store = fin.empty; before_fault = Some before_fault; failures = 0 } }
    {
        FailingStore {
            store: MemStable::new(alloc),
            before_fault: Some(before_fault),
            failures: 0,
        }
    }
}

impl Stable for FailingStore {
    ghost contents = { λ store. store.store };

    ghost faults = { λ store. store.failures };

    fn put(&mut self, det: Det) -> Result<(), PutFault> {
        if !self.store.contains(det) {
            match self.before_fault {
                Some(0) => {
                    self.before_fault = None;
                    self.failures += 1;
                    return Err(PutFault::Device);
                }
                Some(left) => self.before_fault = Some(left - 1),
                None => {}
            }
        }
        self.store.put(det)
    }

    fn contains(&self, det: Det) -> bool {
        self.store.contains(det)
    }

    fn len(&self) -> u64 {
        self.store.len()
    }

    fn all(&self, alloc: Global) -> Result<Vec<Det>, NoMemory> {
        self.store.all(alloc)
    }

    fn failures(&self) -> u64 {
        self.failures
    }

    fn least_of(&self, slot: Slot) -> Option<Det> {
        self.store.least_of(slot)
    }
}
