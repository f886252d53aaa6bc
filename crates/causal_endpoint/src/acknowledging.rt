//! Sending of acknowledgements.
#![tactic(auto, using(crate::proofs::Acknowledged::acknowledged_without, crate::proofs::Acknowledged::acknowledged_few))]

ghost use Rattle.std.specs.Prelude.{◌≡◌, ◌<◌, ◌^◌, true, IfOk, IfErr, OnOk, OnErr, None, length};
ghost use Rattle.causal_name.specs.Names.{is_ascending};
ghost use Rattle.causal_log.specs.Logs.{known_of};
ghost use Rattle.causal_wire.specs.Bytes.{parcel_bytes};
ghost use Rattle.causal_endpoint.specs.Endpoints.{run_of, next_clock, with_node};
ghost use Rattle.causal_endpoint.specs.Refusals.{endpoint_reason_of};
ghost use Rattle.causal_endpoint.specs.Acknowledging.{acknowledged_item, acknowledged_items, acknowledgement_to, acknowledge_fault};

use crate::endpoint::{Endpoint, clock_fault};
use crate::fault::EndpointFault;
use crate::items::without;
use causal_holders::Holders;
use causal_log::Log;
use causal_name::{Det, NoMemory, Pid};
use causal_wire::{Content, Parcel, ParcelItem, write};
use std::alloc::Global;

/// Returns the known holders of a determinant; none if it is not logged.
fn holders_of(log: &Log, det: Det) -> Holders
    ensures { result ≡ (known_of log.now.map det).holders }
{
    match log.known(det) {
        Some(known) => known.holders,
        None => Holders::none(),
    }
}

/// Returns what a process says of a determinant that it logs.
fn acknowledged_item(me: Pid, log: &Log, det: Det) -> ParcelItem
    ensures { result ≡ acknowledged_item me log.now.map det }
{
    let others = without(holders_of(log, det), me);
    ParcelItem { det, others }
}

/// Returns the items of those of these determinants that are logged.
fn acknowledged_items(
    alloc: Global,
    me: Pid,
    log: &Log,
    dets: &[Det],
) -> Result<Vec<ParcelItem>, NoMemory>
    ensures { IfOk result (λ items. items.items ≡ acknowledged_items me log.now.map dets.now) }
{
    let logged = dets.iter().filter(|det| log.known(**det).is_some());
    let items = logged.map(|det| acknowledged_item(me, log, *det));
    Ok(items.collect(alloc)?)
}

impl Endpoint {
    /// Returns the first refusal that applies to an acknowledgement, if there is one.
    fn acknowledge_fault(&self, now: u64, to: Pid, count: usize) -> Option<EndpointFault>
        ensures { result ≡ acknowledge_fault self.now now to count }
    {
        if let Some(fault) = self.node.acknowledge_fault(to) {
            return Some(EndpointFault::Node(fault));
        }
        if count >= 1 << 32 {
            return Some(EndpointFault::Long);
        }
        clock_fault(self.next_clock(now))
    }

    /// Returns the bytes of an acknowledgement.
    fn acknowledgement_bytes(&self, to: Pid, dets: &[Det], clock: u64) -> Result<Vec<u8>, NoMemory>
        requires { length dets.now < 2 ^ 32 }
        ensures { IfOk result (λ bytes. bytes.items
            ≡ parcel_bytes (run_of self.now) (acknowledgement_to self.now to dets.now clock)) }
    {
        let head = self.head_to(to, clock);
        let items = acknowledged_items(self.alloc, head.source, self.node.log(), dets)?;
        let content = Content::Acknowledgement { items };
        write(self.alloc, self.run(), &Parcel { head, content })
    }

    /// Returns the bytes of an acknowledgement of these determinants, which ascend: of those that are logged, who is
    /// known to hold them. A process usually acknowledges to a message's source what the delivery lists, so that the
    /// source need not send it again.
    ///
    /// # Errors
    /// The first of `NotUp`, `NoProcess`, `Long` (2^32 determinants or more) and `Clock`; if none applies, `NoMemory` if
    /// allocation failed. A refusal changes nothing.
    pub fn acknowledge(&mut self, now: u64, to: Pid, dets: &[Det]) -> Result<Vec<u8>, EndpointFault>
        requires { is_ascending dets.now ≡ true }
        ensures ok { OnOk result
            (self.new ≡ with_node self.old self.old.node (next_clock now self.old.clock)) }
        ensures bytes { IfOk result (λ bytes. bytes.items ≡ parcel_bytes (run_of self.old)
            (acknowledgement_to self.old to dets.now (next_clock now self.old.clock))) }
        ensures legal { OnOk result (acknowledge_fault self.old now to (length dets.now) ≡ None) }
        ensures refused { IfErr result (λ fault.
            acknowledge_fault self.old now to (length dets.now) ≡ endpoint_reason_of fault) }
        ensures unchanged { OnErr result (self.new ≡ self.old) }
    {
        if let Some(fault) = self.acknowledge_fault(now, to, dets.len()) {
            return Err(fault);
        }
        let clock = self.next_clock(now);
        let bytes = self.acknowledgement_bytes(to, dets, clock)?;
        self.clock = clock;
        Ok(bytes)
    }
}
