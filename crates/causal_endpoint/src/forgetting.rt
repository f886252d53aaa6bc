//! Forgetting of what is known to be stable.
ghost use Rattle.std.specs.Prelude.{◌≡◌, IfOk, IfErr, OnOk, OnErr, None};
ghost use Rattle.causal_endpoint.specs.Refusals.{endpoint_reason_of};
ghost use Rattle.causal_endpoint.specs.Forgetting.{forget_fault, endpoint_after_forget, IsForgotten};

use crate::endpoint::{Endpoint, clock_fault};
use crate::fault::EndpointFault;
use causal_name::Det;

/// A forgetting, for the recording. If nothing is listed, there is nothing to record.
#[derive(Drop)]
pub struct Forgotten {
    pub clock: u64,
    /// The determinants that the forget entry lists, ascending.
    pub listed: Vec<Det>,
}

impl Endpoint {
    /// Removes from the log what is known to be stable, except of deliveries that the process has still to make.
    ///
    /// # Errors
    /// The first of `NotUp` and `Clock`; if neither applies, `NoMemory` if allocation failed. A refusal changes nothing.
    pub fn forget(&mut self, now: u64) -> Result<Forgotten, EndpointFault>
        ensures ok { OnOk result (self.new ≡ endpoint_after_forget self.old now) }
        ensures listed { IfOk result (IsForgotten self.old now) }
        ensures legal { OnOk result (forget_fault self.old now ≡ None) }
        ensures refused { IfErr result (λ fault. forget_fault self.old now ≡ endpoint_reason_of fault) }
        ensures unchanged { OnErr result (self.new ≡ self.old) }
    {
        if let Some(fault) = self.node.forget_fault() {
            return Err(EndpointFault::Node(fault));
        }
        let clock = self.next_clock(now);
        if let Some(fault) = clock_fault(clock) {
            return Err(fault);
        }
        let listed = self.node.forget()?;
        self.clock = clock;
        Ok(Forgotten { clock, listed })
    }
}
