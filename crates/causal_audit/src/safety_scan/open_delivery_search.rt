//! The search for open deliveries: those that may be uncovered at some instant, and until when. It uses no clock.
ghost use Rattle.std.specs.Prelude.{◌≡◌, ◌↔◌, ◌+◌, ◌≤◌, ◌<◌, ℕ, IfOk, IsTrue, OnOk, Some, length};
ghost use Rattle.causal_name.specs.declared.Det.{Det};
ghost use Rattle.causal_trace.specs.Numbers.{delivered_dets, number_of};
ghost use Rattle.causal_trace.specs.Past.{det_at};
ghost use Rattle.causal_audit.specs.Numbers.{IsNumbered};
ghost use Rattle.causal_audit.specs.Inside.Among.{HasNoOrphanFrom};
ghost use Rattle.causal_audit.specs.Inside.SafetyScan.Scans.{AreAtRiskIntervals};
ghost use Rattle.causal_audit.specs.Searches.{IsNewest, delivery_count};
ghost use Rattle.causal_audit.specs.Inside.Group.OpenDeliveries.{AreListedOrSafe, AreOpenBetween, HasMore, IsListedOrSafe};

use crate::group::walk_input::OpenDelivery;
use crate::index::indexed_trace::IndexedTrace;
use crate::index::mentions::Mentions;
use crate::index::reachability::reachable_from;
use crate::safety_scan::SafetyScan;
use crate::safety_scan::at_risk_intervals::AtRiskIntervals;
use causal_holders::Holders;
use causal_name::{Det, NoMemory};
use std::alloc::Global;
use std::marker::Model;

/// The input of the search: the trace with its crashes and restarts, the mentions of each determinant, and the
/// positions of the deliveries before the end. Besides these, the departure of each entry, the processes that each
/// process reaches, f, and the instant `end` up to which it searches. The model is the scope of the search: the run, f
/// and `end`.
#[derive(Drop)]
pub struct OpenDeliverySearch<'a, 'r> {
    pub indexed_trace: IndexedTrace<'r>,
    pub mentions: &'a Mentions,
    pub departures: &'a [u32],
    pub reached: &'a [Holders],
    pub positions: &'a [u32],
    pub f: u16,
    pub end: u32,
}

impl<'a, 'r> Model for OpenDeliverySearch<'a, 'r> {
    ghost use Rattle.causal_audit.specs.Searches.{SearchScope};
    ghost use Rattle.causal_audit.specs.Inside.Group.OpenDeliveries.{IsOpenDeliverySearch};

    ghost Value = { SearchScope };

    ghost view = { λ a. record { run = a.indexed_trace.trace.now.recording; f = a.f; end = a.end } };

    ghost invariant = { λ a. IsOpenDeliverySearch a.indexed_trace.trace.now.recording a.end a.mentions.now a.departures.now a.reached.now a.positions.now };
}

impl OpenDeliverySearch<'_, '_> {
    /// Scans the determinant of delivery number `number`.
    fn scan_determinant(
        &self,
        alloc: Global,
        det: Det,
        number: u32,
    ) -> Result<AtRiskIntervals, NoMemory>
        requires { number_of (number + 1) (delivered_dets self.now.run.past) det ≡ Some number }
        ensures { IfOk result (AreAtRiskIntervals self.now.run.processes self.now.f
            self.now.run.past det (self.now.end + 1)) }
    {
        let mentions = self.mentions.list_by(self.indexed_trace.trace, det, number);
        if mentions.is_empty() {
            return Ok(AtRiskIntervals::safe_from(alloc, self.end));
        }
        let look = SafetyScan {
            run: self.indexed_trace,
            mentions,
            det,
            reached: reachable_from(self.reached, det.dest.0),
            limit: self.f,
            end: self.end,
        };
        AtRiskIntervals::of(alloc, &look)
    }

    /// Returns an instant from which the delivery at position k is covered up to the end, given the scan of its
    /// determinant; 0 if it is covered throughout.
    fn open_until(&self, at_risk: &AtRiskIntervals, k: u32, det: Det) -> u32
        requires delivery { det_at self.now.run.past k ≡ Some det }
        requires early { k < self.now.end }
        requires at_risk { AreAtRiskIntervals self.now.run.processes self.now.f
            self.now.run.past det (self.now.end + 1) at_risk.now }
        ensures { HasNoOrphanFrom self.now.run self.now.f k result self.now.end }
    {
        let crashes = &self.indexed_trace.transitions.crashes;
        let crash = crashes.next_of(det.dest.0, k + 1, self.end);
        at_risk.open_until(k, self.departures[k as usize], crash, self.end)
    }

    /// Appends the delivery at position k to the open deliveries, unless it is covered throughout.
    fn collect_if_open(
        &self,
        at_risk: &AtRiskIntervals,
        k: u32,
        det: Det,
        found: &mut Vec<OpenDelivery>,
    ) -> Result<(), NoMemory>
        requires delivery { det_at self.now.run.past k ≡ Some det }
        requires early { k < self.now.end }
        requires at_risk { AreAtRiskIntervals self.now.run.processes self.now.f
            self.now.run.past det (self.now.end + 1) at_risk.now }
        ensures more { OnOk result (HasMore self.now found.old.items found.new.items) }
        ensures listed { OnOk result (IsListedOrSafe self.now found.new.items k) }
    {
        let until = self.open_until(at_risk, k, det);
        if until == 0 {
            return Ok(());
        }
        found.push(OpenDelivery { position: k, until })?;
        Ok(())
    }

    /// Appends delivery number `number` to the open deliveries, if it may be uncovered, given the scan of its
    /// determinant.
    fn check_delivery(
        &self,
        at_risk: &AtRiskIntervals,
        det: Det,
        number: u32,
        found: &mut Vec<OpenDelivery>,
    ) -> Result<(), NoMemory>
        requires few { number < delivery_count self.now }
        requires own { number_of (number + 1) (delivered_dets self.now.run.past) det ≡ Some number }
        requires at_risk { AreAtRiskIntervals self.now.run.processes self.now.f
            self.now.run.past det (self.now.end + 1) at_risk.now }
        ensures more { OnOk result (HasMore self.now found.old.items found.new.items) }
        ensures listed { OnOk result ((k : ℕ) → IsNumbered self.now.run.past number k →
            IsListedOrSafe self.now found.new.items k) }
    {
        self.collect_if_open(at_risk, self.positions[number as usize], det, found)?;
        Ok(())
    }

    /// Checks the newest delivery with a determinant, which is number `newest`, and each older one, given the scan.
    fn check_sharers(
        &self,
        at_risk: &AtRiskIntervals,
        det: Det,
        newest: u32,
        found: &mut Vec<OpenDelivery>,
    ) -> Result<(), NoMemory>
        requires newest { IsNewest self.now det newest }
        requires at_risk { AreAtRiskIntervals self.now.run.processes self.now.f
            self.now.run.past det (self.now.end + 1) at_risk.now }
        ensures more { OnOk result (HasMore self.now found.old.items found.new.items) }
        ensures listed { OnOk result (AreListedOrSafe self.now found.new.items det) }
    {
        self.check_delivery(at_risk, det, newest, found)?;
        let mut number = newest;
        while let Some(older) = self.indexed_trace.trace.older_delivery(det, number) {
            self.check_delivery(at_risk, det, older, found)?;
            number = older;
        }
        Ok(())
    }

    /// Returns whether delivery number `number`, which has this determinant, is the newest with it before the end. A
    /// determinant that is mentioned has its list at its newest delivery, so mostly nothing is searched.
    fn is_newest(&self, det: Det, number: u32) -> bool
        requires few { number < delivery_count self.now }
        requires own { number_of (number + 1) (delivered_dets self.now.run.past) det ≡ Some number }
        ensures { IsTrue result ↔ IsNewest self.now det number }
    {
        let before_end = self.positions.len();
        let own = self.mentions.lists.get(number as usize);
        if !own.is_empty() && before_end <= self.mentions.lists.len() {
            return true;
        }
        self.indexed_trace.trace.delivery_of(det, before_end) == Some(number)
    }

    /// Scans the determinant of delivery number `number`, if no newer delivery has it, and checks each delivery with it.
    fn check_determinant(
        &self,
        alloc: Global,
        number: u32,
        found: &mut Vec<OpenDelivery>,
    ) -> Result<(), NoMemory>
        requires few { number < delivery_count self.now }
        ensures more { OnOk result (HasMore self.now found.old.items found.new.items) }
        ensures listed { OnOk result ((det : Det) → IsNewest self.now det number →
            AreListedOrSafe self.now found.new.items det) }
    {
        let Some(det) = self
            .indexed_trace
            .trace
            .det_at(self.positions[number as usize])
        else {
            unreachable!()
        };
        if !self.is_newest(det, number) {
            return Ok(());
        }
        let at_risk = self.scan_determinant(alloc, det, number)?;
        self.check_sharers(&at_risk, det, number, found)?;
        Ok(())
    }

    /// Returns the deliveries before the end that may be uncovered, of those whose determinant is last delivered by a
    /// delivery numbered `from` to below `to`. Each determinant is scanned once, and one scan is in memory at a time.
    ///
    /// # Errors
    /// `NoMemory` if allocation fails.
    pub fn open_deliveries(
        &self,
        alloc: Global,
        from: u32,
        to: u32,
    ) -> Result<Vec<OpenDelivery>, NoMemory>
        requires within { self.now.end ≤ length self.now.run.past }
        requires numbers { to ≤ delivery_count self.now }
        ensures { IfOk result (λ candidates. AreOpenBetween self.now from to candidates.items) }
    {
        let mut found = Vec::new(alloc);
        let mut number = to;
        while number > from {
            number -= 1;
            self.check_determinant(alloc, number, &mut found)?;
        }
        Ok(found)
    }
}
