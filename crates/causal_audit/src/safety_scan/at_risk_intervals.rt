//! The result of a determinant's scan: until when a delivery with it may be uncovered.
ghost use Rattle.std.specs.Prelude.{◌≡◌, ◌+◌, ◌≤◌, ◌<◌, ℕ, List, IfOk, OnOk};
ghost use Rattle.causal_name.specs.declared.Det.{Det};
ghost use Rattle.causal_trace.specs.declared.entry.Entry.{Entry};
ghost use Rattle.causal_trace.specs.Limits.{max_entries};
ghost use Rattle.causal_audit.specs.Inside.SafetyScan.Scans.{IsIntervalPassed, IsScanResult, AreAscendingIntervals, AreAtRiskIntervals, EndsBy, MayBeOpen};

use crate::safety_scan::SafetyScan;
use crate::safety_scan::det_safety::{DetSafety, SafetyInterval};
use causal_name::NoMemory;
use std::alloc::Global;

/// The instants after the first mention of a determinant, at `from`, at which it is at risk. None comes after `last`.
/// Each at which it is at risk without its receiver is in one of the intervals, which ascend. An interval takes 12
/// bytes. There is none if the receiver always holds the determinant or is down.
#[derive(Drop)]
pub struct AtRiskIntervals {
    pub from: u32,
    pub last: u32,
    pub without_receiver: Vec<SafetyInterval>,
}

impl AtRiskIntervals {
    /// Returns a result without instants at risk, for a first mention at `from`.
    pub fn safe_from(alloc: Global, from: u32) -> AtRiskIntervals
        ensures from { result.from ≡ from }
        ensures at_risk { (n most : ℕ) (past : List Entry) (d : Det) (t : ℕ) → t ≤ from + 1 →
            AreAtRiskIntervals n most past d t result }
    {
        AtRiskIntervals {
            from,
            last: 0,
            without_receiver: Vec::new(alloc),
        }
    }

    /// Appends the next interval, unless it ends by the first mention: it concerns no delivery after that.
    fn note(&mut self, stretch: SafetyInterval) -> Result<(), NoMemory>
        ensures from { self.new.from ≡ self.old.from }
        ensures at_risk { OnOk result ((look : SafetyScan) (t next : ℕ) →
            IsIntervalPassed look t next stretch →
            IsScanResult look t self.old → IsScanResult look next self.new) }
    {
        if stretch.last <= self.from {
            return Ok(());
        }
        match stretch.safety {
            DetSafety::Safe => {}
            DetSafety::AtRisk => self.last = stretch.last,
            DetSafety::AtRiskWithoutReceiver => {
                self.without_receiver.push(stretch)?;
                self.last = stretch.last;
            }
        }
        Ok(())
    }

    /// Returns the result of a scan from the determinant's first mention. Takes O(mentions + restarts at which it
    /// stops) time.
    ///
    /// # Errors
    /// `NoMemory` if allocation fails.
    pub fn of(alloc: Global, look: &SafetyScan<'_>) -> Result<AtRiskIntervals, NoMemory>
        ensures { IfOk result (IsScanResult look.now (look.now.end + 1)) }
    {
        let mut scan_position = look.start(look.end);
        let mut at_risk = AtRiskIntervals::safe_from(alloc, scan_position.t);
        while let Some(stretch) = look.next(&mut scan_position) {
            at_risk.note(stretch)?;
        }
        Ok(at_risk)
    }

    /// Returns the last instant up to `bound` at which the determinant may be at risk without its receiver; 0 if there
    /// is none.
    fn last_without_receiver(&self, bound: u32) -> u32
        ensures bound { result ≤ bound }
        ensures last { EndsBy self.now.without_receiver.items bound result }
    {
        let passed = self
            .without_receiver
            .partition_point(|stretch| stretch.first <= bound);
        if passed == 0 {
            return 0;
        }
        self.without_receiver[passed - 1].last.min(bound)
    }

    /// Returns an instant from which the delivery at position k is covered up to `end`; 0 if it is covered throughout.
    /// Its effect stays with its receiver up to `spread`, and the receiver does not crash before `crash`. A delivery
    /// before the first mention is not considered covered. Takes O(log intervals) time.
    pub fn open_until(&self, k: u32, spread: u32, crash: u32, end: u32) -> u32
        requires { end ≤ max_entries }
        ensures early { k < self.now.from → result ≡ end + 1 }
        ensures covered { AreAscendingIntervals self.now.without_receiver.items → (u : ℕ) →
            self.now.from ≤ k →
            result ≤ u → u ≤ end →
            MayBeOpen self.now k spread crash u → ⊥ }
    {
        if k < self.from {
            return end + 1;
        }
        let last = self.last.min(end);
        if k.max(spread) < last {
            return last + 1;
        }
        let without_receiver = self.last_without_receiver(spread.min(crash).min(end));
        if k < without_receiver {
            without_receiver + 1
        } else {
            0
        }
    }
}
