//! The buffers of a walk over the entries for a group of deliveries.
ghost use Rattle.std.specs.Prelude.{◌≤◌, IfOk, OnOk, length};
ghost use Rattle.std.specs.List.{All};
ghost use Rattle.causal_audit.specs.Inside.Group.Walk.{ArePlaces, HasBuffers, HasRowsFor, IsWalkState, IsUntouchedBefore};

use crate::group::Places;
use crate::group::copies::{DetCopies, clear_copies, no_copies};
use crate::group::reach::{ReachSets, clear};
use crate::group::walk::GROUP;
use crate::group::walk_input::{OpenDelivery, WalkInput};
use causal_holders::{Holders, PROCESSES};
use causal_name::NoMemory;
use std::alloc::Global;

/// The state of a walk. By place: which deliveries reach each send and on which each process depends, which
/// determinants each entry mentions and each process is known to hold, and where their copies are. Besides these, the
/// down processes.
#[derive(Drop)]
pub struct WalkBuffers {
    pub reach: ReachSets,
    pub held_places: Vec<Places>,
    pub copies: Vec<DetCopies>,
    pub down: Holders,
}

impl WalkBuffers {
    /// Allocates the buffers, without the rows of the entries: 32 kB.
    ///
    /// # Errors
    /// `NoMemory` if allocation fails.
    pub fn new(alloc: Global) -> Result<WalkBuffers, NoMemory>
        ensures { IfOk result HasBuffers }
    {
        let reach = ReachSets::new(alloc)?;
        let held = vec![in alloc; Places::none(); PROCESSES as usize]?;
        let copies = vec![in alloc; no_copies(); GROUP]?;
        Ok(WalkBuffers {
            reach,
            held_places: held,
            copies,
            down: Holders::none(),
        })
    }
}

/// Returns the places of a group.
#[tactic(auto, using(crate::proofs::group::GroupWalk::places_more, crate::proofs::group::GroupReach::none_in))]
pub fn places_of(candidates: &[OpenDelivery]) -> Places
    requires { length candidates.now ≤ 256 }
    ensures { ArePlaces candidates.now result }
{
    let mut places = Places::none();
    for place in 0..candidates.len() {
        places.insert(place as u8);
    }
    places
}

impl WalkInput<'_> {
    /// Prepares the buffers for a walk from `start` up to `end`. No delivery of the group and no mention of its
    /// determinant precedes `start`. Takes O(entries of the walk + mentions) time, and memory for the rows of these
    /// entries.
    ///
    /// # Errors
    /// `NoMemory` if allocation fails.
    #[tactic(auto, using(crate::proofs::group::GroupReach::none_in))]
    pub fn prepare_walk(
        &self,
        buffers: &mut WalkBuffers,
        start: u32,
        end: u32,
        candidates: &[OpenDelivery],
    ) -> Result<(), NoMemory>
        requires few { length candidates.now ≤ 256 }
        requires ordered { start ≤ end }
        requires within { end ≤ self.now.end }
        requires from { All (IsUntouchedBefore self.now.run.past start) candidates.now }
        requires buffers { HasBuffers buffers.old }
        ensures rows { OnOk result (HasRowsFor start end buffers.new) }
        ensures begun { OnOk result
            (IsWalkState self.now.run candidates.now start start buffers.new) }
    {
        buffers
            .reach
            .begin(start, end, self.count_mentions(candidates))?;
        self.mark_mentions(&mut buffers.reach.rows, start, candidates)?;
        clear(&mut buffers.held_places);
        clear_copies(&mut buffers.copies);
        buffers.down = self.indexed_trace.transitions.cursor_at(start).down();
        Ok(())
    }
}
