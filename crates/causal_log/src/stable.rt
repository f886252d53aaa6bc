//! Stable storage.
ghost use Rattle.std.specs.Prelude.{◌≡◌, ◌+◌, ◌≤◌, ◌<◌, ◌-◌, ◌^◌, ℕ, Err, IfOk, OnOk, OnErr};
ghost use Rattle.causal_log.specs.Slots.{first_of_slot};
ghost use Rattle.causal_log.specs.Stores.{DetSet, with_det, set_has, count_in, dets_in, KeepsMember};

use causal_name::{Det, NoMemory, Slot};
use std::alloc::Global;
use thiserror::Error;

/// Why a determinant could not be put into stable storage.
#[derive(Clone, Copy, Debug, PartialEq, Eq, Error)]
pub enum PutFault {
    /// The device failed.
    #[error("the device failed")]
    Device,
    /// Allocation failed.
    #[error("no memory")]
    NoMemory,
}

/// Stable storage: a set of determinants that survives every crash of a process (`Stable(e)` of Elnozahy, Alvisi,
/// Wang and Johnson 2002). A device that can fail counts its faults.
pub trait Stable: Drop {
    ghost contents: { Self → DetSet };

    ghost faults: { Self → ℕ };

    /// Adds a determinant; adding a member changes nothing.
    ///
    /// # Errors
    ///
    /// `PutFault::Device`, with one more device fault counted, or `PutFault::NoMemory`. The set is then unchanged.
    /// The caller must know that `failures` is below the greatest u64, or check it first.
    fn put(&mut self, det: Det) -> Result<(), PutFault>
        requires { faults self.old < 2 ^ 64 - 1 }
        ensures ok { OnOk result (contents self.new ≡ with_det (contents self.old) det) }
        ensures err { OnErr result (contents self.new ≡ contents self.old) }
        ensures device { result ≡ Err PutFault.Device → faults self.new ≡ faults self.old + 1 }
        ensures monotone { faults self.old ≤ faults self.new }
        ensures member { KeepsMember det
            (contents self.old) (contents self.new) (faults self.old) (faults self.new) };

    /// Whether a determinant is a member.
    fn contains(&self, det: Det) -> bool
        ensures { result ≡ set_has (contents self.now) det };

    /// Returns the number of members.
    fn len(&self) -> u64
        ensures { result ≡ count_in (contents self.now) };

    /// Returns the members, ascending. Fails only if out of memory.
    fn all(&self, alloc: Global) -> Result<Vec<Det>, NoMemory>
        ensures { IfOk result (λ dets. dets.items ≡ dets_in (contents self.now)) };

    /// Returns how many faults of the device were counted.
    fn failures(&self) -> u64
        ensures { result ≡ faults self.now };

    /// Returns the least member that fills a slot, if one does.
    fn least_of(&self, slot: Slot) -> Option<Det>
        ensures { result ≡ first_of_slot slot.dest slot.rsn (dets_in (contents self.now)) };
}
