//! The order in which deliveries are followed: by the instant at which they close.
ghost use Rattle.std.specs.Prelude.{IsPermutation};

use crate::group::walk_input::OpenDelivery;
use causal_name::NoMemory;

/// Sorts open deliveries by the instant at which they close, so that a few long ones do not lengthen the walks of all
/// groups. The sort is stable. The input lists the deliveries determinant by determinant, those delivered last first,
/// so deliveries that close together remain sorted by determinant. So a group has few determinants, and few groups pass
/// one mention.
///
/// # Errors
/// `NoMemory` if allocation fails.
#[tactic(auto, using(crate::proofs::Rules::of_orders))]
pub fn sort_for_groups(candidates: &mut Vec<OpenDelivery>) -> Result<(), NoMemory>
    ensures { IsPermutation candidates.old.items candidates.new.items }
{
    candidates.reverse();
    candidates.sort_by_key(|delivery: &OpenDelivery| delivery.until)?;
    Ok(())
}
