//! Sending of kept messages again.
#![tactic(auto, using(crate::proofs::Written::items_without, crate::proofs::Written::items_few))]

ghost use Rattle.std.specs.Prelude.{◌≡◌, IfOk, IfErr, OnOk, None, slice_get};
ghost use Rattle.std.specs.Option.{option_map};
ghost use Rattle.causal_endpoint.specs.Refusals.{endpoint_reason_of};
ghost use Rattle.causal_endpoint.specs.Resending.{resent_bytes, resend_fault};

use crate::endpoint::Endpoint;
use crate::fault::EndpointFault;
use crate::items::wire_items;
use causal_wire::write_message;

impl Endpoint {
    /// Returns the bytes of the kept message of this number, with what it carried, if there is one: for a process that
    /// may have lost it. It is no event, so it has the last clock and no line in the recording. The messages of the
    /// present lane are numbered from 0; `node().message(ssn)` returns to whom one goes.
    ///
    /// # Errors
    /// `Long` if it carries 2^32 determinants or more; otherwise `NoMemory` if allocation failed.
    pub fn resend(&self, ssn: u32) -> Result<Option<Vec<u8>>, EndpointFault>
        ensures bytes { IfOk result (λ found. option_map (λ bytes. bytes.items) found
            ≡ resent_bytes self.now ssn (slice_get self.now.node.memory.sent ssn)) }
        ensures legal { OnOk result
            (resend_fault self.now ssn (slice_get self.now.node.memory.sent ssn) ≡ None) }
        ensures refused { IfErr result (λ fault.
            resend_fault self.now ssn (slice_get self.now.node.memory.sent ssn)
            ≡ endpoint_reason_of fault) }
    {
        let Some(message) = self.node.message(ssn) else {
            return Ok(None);
        };
        let body = self.node.body(ssn).unwrap_or(&[]);
        let items = message.batch.as_slice();
        if items.len() >= 1 << 32 || body.len() >= 1 << 32 {
            return Err(EndpointFault::Long);
        }
        let head = self.head_to(message.to, self.clock);
        let written = wire_items(self.alloc, head.source, items)?;
        let run = self.run();
        let bytes = write_message(self.alloc, run, head, ssn, written.as_slice(), body)?;
        Ok(Some(bytes))
    }
}
