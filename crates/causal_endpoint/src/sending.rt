//! Sending of messages.
#![tactic(auto, using(crate::proofs::Written::items_without, crate::proofs::Written::carried_few))]

ghost use Rattle.std.specs.Prelude.{◌≡◌, ◌<◌, ◌^◌, IfOk, IfErr, OnOk, OnErr, None, length};
ghost use Rattle.causal_wire.specs.Bytes.{parcel_bytes};
ghost use Rattle.causal_endpoint.specs.Endpoints.{run_of};
ghost use Rattle.causal_endpoint.specs.Refusals.{endpoint_reason_of};
ghost use Rattle.causal_endpoint.specs.Sending.{send_fault, next_message, after_send, IsSent};

use crate::endpoint::{Endpoint, clock_fault};
use crate::fault::EndpointFault;
use crate::items::wire_items;
use causal_name::{NoMemory, Pid};
use causal_process::Body;
use causal_wire::write_message;

/// A message that was sent, for the recording and the network.
#[derive(Drop)]
pub struct SendRecord {
    /// Its number in the sender's lane.
    pub ssn: u32,
    pub clock: u64,
    pub bytes: Vec<u8>,
}

impl Endpoint {
    /// Returns the first refusal that applies to a send, if there is one.
    fn send_fault(&self, now: u64, to: Pid, len: usize) -> Option<EndpointFault>
        ensures { result ≡ send_fault self.now now to len }
    {
        if let Some(fault) = self.node.send_fault(to) {
            return Some(EndpointFault::Node(fault));
        }
        if len >= 1 << 32 {
            return Some(EndpointFault::Long);
        }
        clock_fault(self.next_clock(now))
    }

    /// Returns the bytes of the next message.
    fn next_message(&mut self, to: Pid, body: &[u8], clock: u64) -> Result<Vec<u8>, NoMemory>
        requires { length body.now < 2 ^ 32 }
        ensures state { self.new ≡ self.old }
        ensures bytes { IfOk result (λ bytes. bytes.items
            ≡ parcel_bytes (run_of self.old) (next_message self.old to body.now clock)) }
    {
        let head = self.head_to(to, clock);
        let run = self.run();
        let ssn = self.node.sent_len();
        let _logged = self.node.log().len();
        let batch = self.node.current_batch()?;
        let items = wire_items(self.alloc, head.source, batch.as_slice())?;
        write_message(self.alloc, run, head, ssn, items.as_slice(), body)
    }

    /// Sends a message: keeps it, with what the log chooses for the bound on failures, and returns its number, its clock
    /// and its bytes. `now` is the machine's time in microseconds.
    ///
    /// # Errors
    /// The first of `NotUp`, `NoProcess`, `Full`, `Long` and `Clock`; if none applies, `NoMemory` if allocation failed.
    /// A refusal changes nothing.
    pub fn send(&mut self, now: u64, to: Pid, body: &[u8]) -> Result<SendRecord, EndpointFault>
        ensures ok { OnOk result (self.new ≡ after_send self.old now to body.now) }
        ensures sent { IfOk result (IsSent self.old now to body.now) }
        ensures legal { OnOk result (send_fault self.old now to (length body.now) ≡ None) }
        ensures refused { IfErr result (λ fault. send_fault self.old now to (length body.now)
            ≡ endpoint_reason_of fault) }
        ensures unchanged { OnErr result (self.new ≡ self.old) }
    {
        if let Some(fault) = self.send_fault(now, to, body.len()) {
            return Err(fault);
        }
        let clock = self.next_clock(now);
        let bytes = self.next_message(to, body, clock)?;
        let kept = Body::of(self.alloc, body)?;
        let ssn = self.node.send(to, kept)?;
        self.clock = clock;
        Ok(SendRecord { ssn, clock, bytes })
    }
}
