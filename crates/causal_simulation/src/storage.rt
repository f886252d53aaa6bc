//! Stable storage: what is committed, and from which lanes it accepts writes.
use causal_name::{Det, NoMemory};
use std::alloc::Global;

/// Stable storage.
#[derive(Drop)]
pub struct Storage {
    pub dets: Vec<Det>,
    /// The least lane of each process whose writes are accepted.
    fence: Vec<u32>,
    /// The greatest clock of a write.
    pub clock: u64,
}

/// Returns whether a determinant is one of these.
fn has(dets: &[Det], det: Det) -> bool {
    for it in dets {
        if *it == det {
            return true;
        }
    }
    false
}

impl Storage {
    /// Returns empty storage.
    pub fn new(alloc: Global, processes: u8) -> Result<Storage, NoMemory> {
        let mut fence = Vec::new(alloc);
        for _ in 0..processes {
            fence.push(0)?;
        }
        Ok(Storage {
            dets: Vec::new(alloc),
            fence,
            clock: 0,
        })
    }

    /// Returns whether a write of this lane is accepted.
    pub fn accepts(&self, from: u8, lane: u32) -> bool {
        match self.fence.get(usize::from(from)) {
            Some(least) => lane >= *least,
            None => false,
        }
    }

    /// Commits a write.
    pub fn commit(&mut self, clock: u64, dets: &[Det]) -> Result<(), NoMemory> {
        for det in dets {
            if !has(self.dets.as_slice(), *det) {
                self.dets.push(*det)?;
            }
        }
        self.clock = self.clock.max(clock);
        Ok(())
    }

    /// Refuses writes of lanes below the view.
    pub fn refuse_below(&mut self, view: &[u32]) {
        for (least, number) in self.fence.iter_mut().zip(view) {
            *least = (*least).max(*number);
        }
    }
}
