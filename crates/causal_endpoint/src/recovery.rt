//! Recovery: rounds, what storage has, and the restart.
ghost use Rattle.std.specs.Prelude.{◌≡◌, IfOk, IfErr, OnOk, OnErr, None, Some};
ghost use Rattle.std.specs.FinMap as fin;
ghost use Rattle.causal_name.specs.declared.MsgName.{MsgName as Message};
ghost use Rattle.causal_wire.specs.Bytes.{parcel_bytes};
ghost use Rattle.causal_node.specs.NodeStates.{has_name};
ghost use Rattle.causal_node.specs.NodeRecovery.{is_named_for, begin_fault, read_fault, reply_fault, after_not_up};
ghost use Rattle.causal_endpoint.specs.Endpoints.{run_of, next_clock, with_node};
ghost use Rattle.causal_endpoint.specs.Refusals.{node_or, endpoint_reason_of};
ghost use Rattle.causal_endpoint.specs.Recovering.{after_begin, after_read, question_to, question_fault, stored_fault, after_stored, restart_fault, after_restart};

use crate::endpoint::{Endpoint, clock_fault};
use crate::fault::EndpointFault;
use causal_name::{Det, NoMemory, Pid};
use causal_wire::{Content, Parcel, write};

/// A restart, for the recording.
#[derive(Drop)]
pub struct RestartRecord {
    pub clock: u64,
    /// The determinants that the restart entry lists, ascending.
    pub listed: Vec<Det>,
}

impl Endpoint {
    /// Begins a round of this name, which no other round of the process may have, also of earlier lanes. An earlier
    /// round is given up. Each other process has to be asked.
    ///
    /// # Errors
    /// `Up`. A refusal changes nothing.
    pub fn begin_round(&mut self, name: u64) -> Result<(), EndpointFault>
        ensures ok { OnOk result (self.new ≡ after_begin self.old name) }
        ensures legal { OnOk result (begin_fault self.old.node.recovery ≡ None) }
        ensures refused { IfErr result (λ fault.
            node_or (begin_fault self.old.node.recovery) None ≡ endpoint_reason_of fault) }
        ensures unchanged { OnErr result (self.new ≡ self.old) }
    {
        Ok(self.node.begin_round(name)?)
    }

    /// Takes from the embedder, who knows that q has ended and how often it has restarted, that q is not up and that
    /// `number` is its next lane: in the place of q's reply to the round of this name. If the view has another number
    /// for q, the round is given up. The clock of q's end comes first, by `take_in`.
    ///
    /// # Errors
    /// The first of `Up` and `Unasked`. A refusal changes nothing.
    pub fn take_ended(&mut self, name: u64, q: Pid, number: u32) -> Result<(), EndpointFault>
        ensures ok { OnOk result (self.new
            ≡ with_node self.old (after_not_up self.old.node q number) self.old.clock) }
        ensures legal { OnOk result (reply_fault self.old.node.recovery name q ≡ None) }
        ensures refused { IfErr result (λ fault.
            node_or (reply_fault self.old.node.recovery name q) None ≡ endpoint_reason_of fault) }
        ensures unchanged { OnErr result (self.new ≡ self.old) }
    {
        Ok(self.node.take_not_up(name, q, number)?)
    }

    /// Returns the first refusal that applies to a question, if there is one.
    fn question_fault(&self, now: u64, to: Pid) -> Option<EndpointFault>
        ensures { result ≡ question_fault self.now now to }
    {
        if let Some(fault) = self.node.question_fault(to) {
            return Some(EndpointFault::Node(fault));
        }
        clock_fault(self.next_clock(now))
    }

    /// Returns the bytes of the question of the present round.
    fn question_bytes(&self, to: Pid, clock: u64) -> Result<Vec<u8>, NoMemory>
        ensures { IfOk result (λ bytes. bytes.items
            ≡ parcel_bytes (run_of self.now) (question_to self.now to clock)) }
    {
        let round = self.node.round_name().unwrap_or(0);
        let view = Vec::from_slice(self.alloc, self.node.floors())?;
        let head = self.head_to(to, clock);
        let content = Content::Question { round, view };
        write(self.alloc, self.run(), &Parcel { head, content })
    }

    /// Returns the bytes of the present round's question to a process, which may be asked again.
    ///
    /// # Errors
    /// The first of `Up`, `NoRound`, `NoProcess` and `Clock`; if none applies, `NoMemory` if allocation failed. A
    /// refusal changes nothing.
    pub fn question(&mut self, now: u64, to: Pid) -> Result<Vec<u8>, EndpointFault>
        ensures ok { OnOk result
            (self.new ≡ with_node self.old self.old.node (next_clock now self.old.clock)) }
        ensures bytes { IfOk result (λ bytes. bytes.items ≡ parcel_bytes (run_of self.old)
            (question_to self.old to (next_clock now self.old.clock))) }
        ensures legal { OnOk result (question_fault self.old now to ≡ None) }
        ensures refused { IfErr result (λ fault. question_fault self.old now to ≡ endpoint_reason_of fault) }
        ensures unchanged { OnErr result (self.new ≡ self.old) }
    {
        if let Some(fault) = self.question_fault(now, to) {
            return Err(fault);
        }
        let clock = self.next_clock(now);
        let bytes = self.question_bytes(to, clock)?;
        self.clock = clock;
        Ok(bytes)
    }

    /// Stable storage has this determinant: it has confirmed a write of the process, or the process has read it after
    /// the last reply to its round: then `take_in` comes first. Returns the clock of the recording's line.
    ///
    /// # Errors
    /// The first of `NoRound`, `Waiting` and `Clock`; if none applies, `NoMemory` if allocation failed. A refusal
    /// changes nothing.
    pub fn stored(&mut self, now: u64, det: Det) -> Result<u64, EndpointFault>
        ensures ok { OnOk result (self.new ≡ after_stored self.old now det) }
        ensures clock { IfOk result (λ clock. clock ≡ next_clock now self.old.clock) }
        ensures legal { OnOk result (stored_fault self.old now ≡ None) }
        ensures refused { IfErr result (λ fault. stored_fault self.old now ≡ endpoint_reason_of fault) }
        ensures unchanged { OnErr result (self.new ≡ self.old) }
    {
        if let Some(fault) = self.node.stored_fault() {
            return Err(EndpointFault::Node(fault));
        }
        let clock = self.next_clock(now);
        if let Some(fault) = clock_fault(clock) {
            return Err(fault);
        }
        self.node.stored(det)?;
        self.clock = clock;
        Ok(clock)
    }

    /// Takes the end of the reply of stable storage to the round of this name, which it is asked after all other
    /// replies: `stored` has been called for each determinant in it.
    ///
    /// # Errors
    /// The first of `Up`, `Unasked` and `Waiting`. A refusal changes nothing.
    pub fn finish_read(&mut self, name: u64) -> Result<(), EndpointFault>
        ensures ok { OnOk result (self.new ≡ after_read self.old) }
        ensures legal { OnOk result (read_fault self.old.node.recovery name ≡ None) }
        ensures refused { IfErr result (λ fault.
            node_or (read_fault self.old.node.recovery name) None ≡ Some fault) }
        ensures unchanged { OnErr result (self.new ≡ self.old) }
    {
        Ok(self.node.finish_read(name)?)
    }

    /// Restarts: the process comes up with what its round has gathered.
    ///
    /// # Errors
    /// The first of `Up`, `NoRound`, `Waiting`, for a process or stable storage, and `Clock`; if none applies, `NoMemory`
    /// if allocation failed. A refusal
    /// changes nothing.
    pub fn restart(&mut self, now: u64) -> Result<RestartRecord, EndpointFault>
        ensures ok { OnOk result
            (self.new ≡ after_restart self.old now self.new.node.reserved_names) }
        ensures clock { IfOk result (λ r. r.clock ≡ next_clock now self.old.clock) }
        ensures listed { IfOk result (λ r. r.listed.items ≡ fin.keys self.new.node.memory.log) }
        ensures reserved { IfOk result (λ r. (m : Message) →
            has_name self.new.node.reserved_names m
            ≡ is_named_for self.old.node.identity.me r.listed.items m) }
        ensures legal { OnOk result (restart_fault self.old now ≡ None) }
        ensures refused { IfErr result (λ fault. restart_fault self.old now ≡ endpoint_reason_of fault) }
        ensures unchanged { OnErr result (self.new ≡ self.old) }
    {
        if let Some(fault) = self.node.restart_fault() {
            return Err(EndpointFault::Node(fault));
        }
        let clock = self.next_clock(now);
        if let Some(fault) = clock_fault(clock) {
            return Err(fault);
        }
        let listed = self.node.restart()?;
        self.clock = clock;
        Ok(RestartRecord { clock, listed })
    }
}
