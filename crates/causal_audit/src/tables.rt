//! The tables of a recorded run, for the audit by vector clocks.
ghost use Rattle.std.specs.Prelude.{◌≡◌, ◌≤◌, ◌<◌, ◌↔◌, IfOk, length, Some};
ghost use Rattle.causal_trace.specs.Limits.{max_entries};
ghost use Rattle.causal_trace.specs.Past.{deliveries_in, det_at, restarts};
ghost use Rattle.causal_trace.specs.Rows.{IsWellFormed};
ghost use Rattle.causal_audit.specs.Inside.Among.{FirstBreachBy};
ghost use Rattle.causal_audit.specs.Numbers.{IsNumbered};

use crate::breach::Breach;
use crate::by_clock::events::clocks_of;
use crate::by_clock::orphans::first_orphan;
use crate::index::mentions::{Mentions, mentions_in};
use crate::index::positions::positions_of;
use causal_clock::{ClockFault, Clocks, OPENED_LANES};
use causal_name::{Det, NoMemory};
use causal_trace::trace::Trace;
use std::alloc::Global;
use std::marker::Model;

/// The tables of a recorded run: a copy of its trace, the positions of its deliveries, a clock of its entries, and the
/// mentions of each determinant. The model is the recording.
#[derive(Drop)]
pub struct Tables {
    trace: Trace,
    positions: Vec<u32>,
    clocks: Clocks,
    mentions: Mentions,
}

impl Model for Tables {
    ghost use Rattle.causal_trace.specs.Rows.{Recording};
    ghost use Rattle.causal_audit.specs.Inside.ByClock.TablesOfRun.{AreTables};

    ghost Value = { Recording };

    ghost view = { λ a. a.trace.recording };

    ghost invariant = { λ a. AreTables a.trace.recording a.positions.items a.clocks.events a.mentions };
}

impl Tables {
    /// Returns the tables of a trace. Takes O(entries · lanes + listed determinants) time.
    ///
    /// # Errors
    /// `Lanes` if the trace has more than [`OPENED_LANES`] restarts, otherwise `NoMemory` if allocation fails.
    pub fn of(alloc: Global, trace: &Trace) -> Result<Tables, ClockFault>
        ensures ok { IfOk result (λ tables. tables ≡ trace.now.recording) }
        ensures lanes { (result ≡ Err ClockFault.Lanes)
            ↔ (OPENED_LANES < restarts trace.now.recording.past) }
    {
        if trace.restarts() > OPENED_LANES {
            return Err(ClockFault::Lanes);
        }
        match Tables::of_few_lanes(alloc, trace) {
            Ok(tables) => Ok(tables),
            Err(NoMemory) => Err(ClockFault::NoMemory),
        }
    }

    /// Returns the tables of a trace of which the clock can have each lane.
    fn of_few_lanes(alloc: Global, trace: &Trace) -> Result<Tables, NoMemory>
        requires { restarts trace.now.recording.past ≤ OPENED_LANES }
        ensures { IfOk result (λ tables. tables ≡ trace.now.recording) }
    {
        let entries = trace.entries();
        let positions = positions_of(alloc, entries)?;
        let clocks = clocks_of(alloc, trace)?;
        let mentions = mentions_in(alloc, trace, trace.len())?;
        let trace = trace.try_clone()?;
        Ok(Tables {
            trace,
            positions,
            clocks,
            mentions,
        })
    }

    /// Returns the number of entries, up to 16,777,216. A recorded run is well-formed.
    pub fn entries(&self) -> u32
        ensures length { result ≡ length self.now.past }
        ensures formed { IsWellFormed self.now }
        ensures few { result ≤ max_entries }
    {
        self.trace.len()
    }

    /// Returns the number of deliveries. They are numbered from 0 in their order.
    #[tactic(auto, using(crate::proofs::DeliveryNumbers::deliveries_few))]
    pub fn deliveries(&self) -> u32
        ensures value { result ≡ deliveries_in self.now.past }
        ensures formed { IsWellFormed self.now }
    {
        self.positions.len() as u32
    }

    /// Returns the position of delivery number i, which must be below the number of deliveries.
    pub fn position(&self, i: u32) -> u32
        requires { i < deliveries_in self.now.past }
        ensures { IsNumbered self.now.past i result }
    {
        self.positions[i as usize]
    }

    /// Returns the trace of these tables.
    pub(crate) fn trace(&self) -> &Trace
        ensures { result.now.recording ≡ self.now }
    {
        &self.trace
    }

    /// Returns the determinant of the delivery at a position; `None` if there is no delivery.
    pub(crate) fn det_at(&self, k: u32) -> Option<Det>
        ensures value { result ≡ det_at self.now.past k }
        ensures formed { IsWellFormed self.now }
    {
        self.trace.det_at(k)
    }

    /// Returns the first breach of the delivery at position k with this determinant, if it comes by the instant `end`;
    /// `None` otherwise.
    pub(crate) fn first_orphan(&self, f: u16, end: u32, k: u32, det: Det) -> Option<Breach>
        requires delivery { det_at self.now.past k ≡ Some det }
        requires within { end ≤ length self.now.past }
        ensures { FirstBreachBy self.now f end k result }
    {
        let mentions = self.mentions.list(&self.trace, det);
        first_orphan(&self.trace, &self.clocks, mentions, f, end, k, det)
    }
}
