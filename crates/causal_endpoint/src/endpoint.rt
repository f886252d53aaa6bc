//! A process of a run, over the bytes of parcels.
ghost use Rattle.std.specs.Prelude.{◌≡◌, IfOk, IfErr, OnOk, OnErr, None, max};
ghost use Rattle.causal_node.specs.NodeRecovery.{opened_node};
ghost use Rattle.causal_endpoint.specs.Endpoints.{run_of, head_to, next_clock, with_node};
ghost use Rattle.causal_endpoint.specs.Refusals.{clock_fault, endpoint_reason_of};
ghost use Rattle.causal_endpoint.specs.Opening.{open_fault};

use crate::fault::EndpointFault;
use causal_name::Pid;
use causal_node::node::{Identity, Node};
use causal_wire::{Head, RunId};
use std::alloc::Global;
use std::marker::Model;

/// No clock is as great as this.
pub const CLOCK_END: u64 = 1 << 62;

/// One process of a run: a [`Node`] that takes and returns the bytes of parcels, at hybrid logical clocks. It has no
/// input and no output: its embedder moves bytes, passes the machine's time, and writes the recording.
#[derive(Drop)]
pub struct Endpoint {
    pub(crate) alloc: Global,
    pub(crate) node: Node,
    /// A number that no other run has.
    pub(crate) run: u64,
    /// The clock of the last event, and at least each clock that was received.
    pub(crate) clock: u64,
}

impl Model for Endpoint {
    ghost use Rattle.std.specs.Prelude.{◌<◌, ◌^◌};
    ghost use Rattle.causal_endpoint.specs.Endpoints.{EndpointState, coded_endpoint};

    ghost Value = { EndpointState };

    ghost coded = { coded_endpoint };

    ghost view = { λ e. record { node = e.node; run = e.run; clock = e.clock } };

    ghost invariant = { λ e. e.clock < 2 ^ 62 };
}

impl Endpoint {
    /// Returns the endpoint of a process of the run with this number. In lane 0 it begins and is up. After a crash
    /// `lane` is one more than the number of its restarts so far, `clock` the greatest clock of its recording, and the
    /// process has to recover before it comes up. Logs hash their entries with the seed, which strangers should not
    /// know.
    ///
    /// # Errors
    /// The first of `Clock` and `NoProcess` (a run cannot have so many processes, or `me` is none of them); if neither
    /// applies, `NoMemory` if allocation failed.
    pub fn open(
        alloc: Global,
        identity: Identity,
        run: u64,
        lane: u32,
        clock: u64,
        seed: u64,
    ) -> Result<Endpoint, EndpointFault>
        ensures ok { IfOk result (λ e. e
            ≡ record { node = opened_node identity lane; run = run; clock = clock }) }
        ensures legal { OnOk result (open_fault identity clock ≡ None) }
        ensures refused { IfErr result (λ fault. open_fault identity clock ≡ endpoint_reason_of fault) }
    {
        if clock >= CLOCK_END {
            return Err(EndpointFault::Clock);
        }
        let node = Node::open(alloc, identity, lane, seed)?;
        Ok(Endpoint {
            alloc,
            node,
            run,
            clock,
        })
    }

    /// Returns the node.
    pub fn node(&self) -> &Node
        ensures { result.now ≡ self.now.node }
    {
        &self.node
    }

    /// Returns the number of the run.
    pub fn run_number(&self) -> u64
        ensures { result ≡ self.now.run }
    {
        self.run
    }

    /// Returns the clock of the last event, which goes with all that leaves the process by another way than a parcel.
    pub fn clock(&self) -> u64
        ensures { result ≡ self.now.clock }
    {
        self.clock
    }

    /// Takes a clock into account that comes by another way than a parcel: with what stable storage has, or with the
    /// report that a process has ended. Otherwise the recording may have an effect before its cause.
    ///
    /// # Errors
    /// `Clock`. A refusal changes nothing.
    pub fn take_in(&mut self, clock: u64) -> Result<(), EndpointFault>
        ensures ok { OnOk result
            (self.new ≡ with_node self.old self.old.node (max self.old.clock clock)) }
        ensures legal { OnOk result (clock_fault clock ≡ None) }
        ensures refused { IfErr result (λ fault. clock_fault clock ≡ endpoint_reason_of fault) }
        ensures unchanged { OnErr result (self.new ≡ self.old) }
    {
        if let Some(fault) = clock_fault(clock) {
            return Err(fault);
        }
        self.clock = self.clock.max(clock);
        Ok(())
    }

    /// Returns the run, as parcels name it.
    pub(crate) fn run(&self) -> RunId
        ensures { result ≡ run_of self.now }
    {
        let identity = self.node.identity();
        RunId {
            id: self.run,
            processes: identity.processes,
            f: identity.faults,
        }
    }

    /// Returns the head of a parcel.
    pub(crate) fn head_to(&self, dest: Pid, clock: u64) -> Head
        ensures { result ≡ head_to self.now dest clock }
    {
        Head {
            source: self.node.identity().me,
            dest,
            lane: self.node.lane(),
            clock,
        }
    }

    /// Returns the clock of the next event.
    pub(crate) fn next_clock(&self, now: u64) -> u64
        ensures { result ≡ next_clock now self.now.clock }
    {
        now.max(self.clock + 1)
    }
}

/// Returns the refusal of a clock, if it is too great.
pub(crate) fn clock_fault(clock: u64) -> Option<EndpointFault>
    ensures { result ≡ clock_fault clock }
{
    if clock >= CLOCK_END {
        return Some(EndpointFault::Clock);
    }
    None
}
