//! The positions of the deliveries of a group.
ghost use Rattle.std.specs.Prelude.{◌+◌, ◌≤◌, IsPermutation, length};
ghost use Rattle.causal_audit.specs.Inside.Group.OpenDeliveries.{AreInOrder};
ghost use Rattle.causal_audit.specs.Inside.Group.Walk.{CountsEarlier, ArePlacesAt};

use crate::group::Places;
use crate::group::walk::GROUP;
use crate::group::walk_input::OpenDelivery;

/// Copies the deliveries of a group into this table, sorted by position, and returns them.
pub fn sort_by_position<'a>(
    table: &'a mut [OpenDelivery; GROUP],
    candidates: &[OpenDelivery],
) -> &'a [OpenDelivery]
    requires { length candidates.now ≤ 256 }
    ensures same { IsPermutation candidates.now result.now }
    ensures order { AreInOrder result.now }
{
    let sorted = &mut table[..candidates.len()];
    sorted.copy_from_slice(candidates);
    sorted.sort_unstable_by_key(|delivery: &OpenDelivery| delivery.position);
    sorted
}

/// Returns the places of the deliveries at position t, and advances `passed` beyond them. The group is in ascending
/// order of positions, and the first `passed` deliveries precede t.
#[tactic(auto, using(crate::proofs::group::GroupReach::none_in, crate::proofs::group::GroupWalk::own_all, crate::proofs::group::GroupWalk::passed_all))]
pub fn places_at(candidates: &[OpenDelivery], passed: &mut usize, t: u32) -> Places
    requires few { length candidates.now ≤ 256 }
    requires order { AreInOrder candidates.now }
    requires passed { CountsEarlier candidates.now t passed.old }
    ensures passed { CountsEarlier candidates.now (t + 1) passed.new }
    ensures own { ArePlacesAt candidates.now t result }
{
    let mut own = Places::none();
    while let Some(delivery) = candidates.get(*passed) {
        if delivery.position > t {
            return own;
        }
        own.insert(*passed as u8);
        *passed += 1;
    }
    own
}
