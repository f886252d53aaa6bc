//! The processes that are down, those that hold a determinant, and its safety.
ghost use Rattle.std.specs.Prelude.{◌≡◌, ◌<◌, ◌⊎◌, ℕ, MatchOption, true};
ghost use Rattle.std.specs.FinSet as set;
ghost use Rattle.std.specs.Ordering.{nat_cmp};
ghost use Rattle.causal_name.specs.declared.Det.{Det};
ghost use Rattle.causal_trace.specs.Past.{list_has, mentioned_dets};
ghost use Rattle.causal_audit.specs.Inside.DeliveryStates.{ShowsDownAfter, ShowsHoldersAfter};
ghost use Rattle.causal_audit.specs.Inside.SafetyScan.Scans.{AreWatched, IsDownBound, IsSafetyOf};

use crate::delivery_state::down_after;
use crate::holders::holders_after;
use crate::safety_scan::det_safety::DetSafety;
use causal_holders::Holders;
use causal_trace::entry::Entry;

/// The processes that are down, and those that hold a determinant, at an instant.
#[derive(Clone, Copy)]
pub struct DownAndHolders {
    pub down: Holders,
    pub holders: Holders,
}

impl DownAndHolders {
    /// Returns the processes that are down or hold the determinant.
    pub fn down_or_holding(&self) -> Holders
        ensures { result ≡ set.union self.now.down self.now.holders }
    {
        self.down.union(self.holders)
    }

    /// Returns the safety of a determinant at risk, given its receiver.
    fn risk(&self, receiver: u8) -> DetSafety
        ensures { (most : ℕ) (reached : set.FinSet nat_cmp) →
            IsSafetyOf result most receiver reached (set.union self.now.down self.now.holders) }
    {
        if self.down_or_holding().contains(receiver) {
            DetSafety::AtRisk
        } else {
            DetSafety::AtRiskWithoutReceiver
        }
    }

    /// Returns whether the holders alone make the determinant safe.
    fn is_held_enough(&self, most: u16, reached: Holders) -> bool
        ensures { result ≡ true →
            (most < set.len self.now.holders) ⊎ (set.is_subset reached self.now.holders ≡ true) }
    {
        self.holders.len() > u32::from(most) || reached.is_subset(self.holders)
    }

    /// Returns the safety of a determinant, given its receiver and the processes that this reaches. At most the given
    /// number of processes may crash.
    pub fn safety(&self, most: u16, receiver: u8, reached: Holders) -> DetSafety
        ensures { IsSafetyOf result most receiver reached
            (set.union self.now.down self.now.holders) }
    {
        let gone = self.down_or_holding();
        if gone.len() > u32::from(most) || reached.is_subset(gone) {
            DetSafety::Safe
        } else {
            self.risk(receiver)
        }
    }

    /// Returns the safety of a determinant after an entry. Unless the entry was `own`, that is, mentioned the determinant
    /// or concerned a holder, the determinant is not considered safe because other processes are down: so between two such
    /// entries its safety only falls, and a scan stops at most twice.
    pub fn safety_after(&self, own: bool, most: u16, receiver: u8, reached: Holders) -> DetSafety
        ensures { IsSafetyOf result most receiver reached
            (set.union self.now.down self.now.holders) }
    {
        if own || self.is_held_enough(most, reached) {
            self.safety(most, receiver, reached)
        } else {
            self.risk(receiver)
        }
    }

    /// Returns a number of down processes: as long as more are down and each holder is up, the determinant is safe. `None`
    /// unless it is safe only because so many others are down.
    #[tactic(auto, using(crate::proofs::Shown::few_members))]
    pub fn down_bound(&self, safety: DetSafety, most: u16, reached: Holders) -> Option<u8>
        ensures { MatchOption result (Unit {0}) (IsDownBound most self.now.down self.now.holders) }
    {
        if !safety.is_safe() || self.is_held_enough(most, reached) {
            return None;
        }
        let held = self.holders.len();
        let count = u32::from(most).checked_sub(held)?;
        if count < self.down.len() {
            Some(count as u8)
        } else {
            None
        }
    }

    /// Returns the processes to watch: the determinant's safety stands as long as none of them restarts, and no holder
    /// is lost unseen. Processes that are down are among them only where the determinant is safe because of them.
    #[tactic(auto, using(crate::proofs::safety_scan::Watched::watched_all, crate::proofs::safety_scan::Watched::watched_holders, crate::proofs::safety_scan::Watched::watched_reached, crate::proofs::safety_scan::Watched::watched_receiver))]
    pub fn watched(&self, safety: DetSafety, most: u16, receiver: u8, reached: Holders) -> Holders
        requires { IsSafetyOf safety most receiver reached
            (set.union self.now.down self.now.holders) }
        ensures { AreWatched safety most receiver reached
            self.now.down self.now.holders result }
    {
        match safety {
            DetSafety::Safe => {
                if self.is_held_enough(most, reached) {
                    self.holders
                } else if reached.is_subset(self.down_or_holding()) {
                    self.holders
                        .union(self.down.minus(self.down.minus(reached)))
                } else {
                    self.down_or_holding()
                }
            }
            DetSafety::AtRisk => {
                let mut members = self.holders;
                members.insert(receiver);
                members
            }
            DetSafety::AtRiskWithoutReceiver => self.holders,
        }
    }

    /// Updates the sets by one more entry, before which the processes `down` are down. `mentioned_dets`: the entry mentions
    /// the determinant. A holder that is down has crashed, so it no longer holds the determinant.
    pub fn apply_entry(&mut self, down: Holders, entry: &Entry, mentioned: bool)
        ensures down { ShowsDownAfter entry.now down self.new.down }
        ensures holders { (d : Det) → ShowsHoldersAfter (mentioned
            ≡ list_has (mentioned_dets entry.now) d)
            entry.now d (set.difference self.old.holders down) self.new.holders }
    {
        self.down = down_after(down, entry);
        self.holders = holders_after(self.holders.minus(down), entry, mentioned);
    }
}
