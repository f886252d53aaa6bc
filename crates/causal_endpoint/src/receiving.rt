//! Receiving of parcels.
#![tactic(auto, using(crate::proofs::Reasons::reason_first, crate::proofs::Reasons::reason_found, crate::proofs::Written::reply_written))]

ghost use Rattle.std.specs.Prelude.{◌≡◌, ◌<◌, ◌^◌, ℕ, true, IfOk, IfErr, OnOk, OnErr, None, max};
ghost use Rattle.causal_name.specs.Names.{is_ascending};
ghost use Rattle.causal_wire.specs.Parcels.{IsParcel, parcel_dets, contents_of, parcel_value, message, question, answer, acknowledgement, own_number, not_up};
ghost use Rattle.causal_wire.specs.Reading.{read_parcel};
ghost use Rattle.causal_endpoint.specs.Endpoints.{run_of};
ghost use Rattle.causal_endpoint.specs.Refusals.{IsReason};
ghost use Rattle.causal_endpoint.specs.Receiving.{clock_after, parcel_fault, receive_fault, reply_contents, reply_bytes, receipt_of, receipt_at, after_parcel, IsReceipt, IsOutcome};

use crate::endpoint::{Endpoint, clock_fault};
use crate::fault::EndpointFault;
use crate::items::{batch_of_items, log_from, wire_entries};
use causal_name::{Det, MsgName, NoMemory, Pid};
use causal_node::node_answer::RoundReply;
use causal_node::node_delivery::Delivery;
use causal_node::node_fault::NodeFault;
use causal_trace::entry::Dets;
use causal_wire::{Content, Head, LogEntry, Parcel, ParcelFault, ParcelItem, read, write};

/// A delivery: what is recorded of it, before the process acts on the body.
#[derive(Drop)]
pub struct DeliveryRecord {
    /// The message.
    pub name: MsgName,
    /// The lane of its source.
    pub lane: u32,
    pub clock: u64,
    pub det: Det,
    /// The determinants that the deliver entry lists.
    pub listed: Dets,
    pub body: Vec<u8>,
}

/// What was received with a parcel.
#[derive(Drop)]
pub enum Received {
    /// A message, which was delivered.
    Message(DeliveryRecord),
    /// A question: these bytes go to the process that asks.
    Question(Pid, Vec<u8>),
    /// An acknowledgement of this process.
    Acknowledgement(Pid),
    /// The log of this process.
    Log(Pid),
    /// The number of this process: the round is given up, and another one has to begin.
    Number(Pid),
    /// This process is not up. If its number is not the view's, the round is given up.
    NotUp(Pid),
}

impl Endpoint {
    /// Returns the clock of what follows a parcel at once.
    fn clock_after(&self, now: u64, head: Head) -> u64
        requires { head.clock < 2 ^ 62 }
        ensures { result ≡ clock_after self.now now head }
    {
        now.max(self.clock.max(head.clock) + 1)
    }

    /// Delivers a message.
    fn take_message(
        &mut self,
        now: u64,
        head: Head,
        ssn: u32,
        items: &[ParcelItem],
        body: Vec<u8>,
    ) -> Result<Received, EndpointFault>
        requires ascending { is_ascending (parcel_dets items.now) ≡ true }
        requires clock { head.clock < 2 ^ 62 }
        ensures { IsOutcome self.old now head (message ssn items.now body.items) result self.new }
    {
        let batch = batch_of_items(self.alloc, head.source, items)?;
        let name = MsgName {
            source: head.source,
            ssn,
        };
        if let Some(fault) = self.node.deliver_fault(head.lane, name, &batch) {
            return Err(EndpointFault::Node(fault));
        }
        let clock = self.clock_after(now, head);
        if let Some(fault) = clock_fault(clock) {
            return Err(fault);
        }
        let Delivery { det, listed } = self.node.deliver(head.lane, name, &batch)?;
        self.clock = clock;
        Ok(Received::Message(DeliveryRecord {
            name,
            lane: head.lane,
            clock,
            det,
            listed,
            body,
        }))
    }

    /// Returns what the reply to a question of this round contains.
    fn reply_content(&self, round: u64, reply: RoundReply) -> Result<Content, NoMemory>
        ensures { IfOk result (λ content. contents_of content
            ≡ reply_contents self.now round reply) }
    {
        match reply {
            RoundReply::Log => {
                let me = self.node.identity().me;
                let entries = wire_entries(self.alloc, me, self.node.log())?;
                Ok(Content::Answer { round, entries })
            }
            RoundReply::OwnNumber => Ok(Content::OwnNumber { round }),
            RoundReply::NotUp => Ok(Content::NotUp { round }),
        }
    }

    /// Returns the bytes of that reply.
    fn reply_bytes(
        &self,
        to: Pid,
        round: u64,
        clock: u64,
        reply: RoundReply,
    ) -> Result<Vec<u8>, NoMemory>
        ensures { IfOk result (λ bytes. bytes.items ≡ reply_bytes self.now to round clock reply) }
    {
        let _logged = self.node.log().len();
        let content = self.reply_content(round, reply)?;
        let head = self.head_to(to, clock);
        write(self.alloc, self.run(), &Parcel { head, content })
    }

    /// Replies to a question.
    fn take_question(
        &mut self,
        now: u64,
        head: Head,
        round: u64,
        view: &[u32],
    ) -> Result<Received, EndpointFault>
        requires { head.clock < 2 ^ 62 }
        ensures { IsOutcome self.old now head (question round view.now) result self.new }
    {
        if let Some(fault) = self.node.answer_fault(head.source, view) {
            return Err(EndpointFault::Node(fault));
        }
        let clock = self.clock_after(now, head);
        if let Some(fault) = clock_fault(clock) {
            return Err(fault);
        }
        let reply = self.node.reply(view);
        let bytes = self.reply_bytes(head.source, round, clock, reply)?;
        self.node.answer(head.source, view)?;
        self.clock = clock;
        Ok(Received::Question(head.source, bytes))
    }

    /// Takes a log.
    fn take_answer(
        &mut self,
        head: Head,
        round: u64,
        entries: &[LogEntry],
    ) -> Result<Received, EndpointFault>
        requires { head.clock < 2 ^ 62 }
        ensures { (now : ℕ) → IsOutcome self.old now head (answer round entries.now) result self.new }
    {
        let log = log_from(self.alloc, self.node.new_log(), head.source, entries)?;
        self.node.take_log(round, head.source, &log)?;
        self.clock = self.clock.max(head.clock);
        Ok(Received::Log(head.source))
    }

    /// Learns the holders that an acknowledgement names.
    fn take_acknowledgement(
        &mut self,
        head: Head,
        items: &[ParcelItem],
    ) -> Result<Received, EndpointFault>
        requires ascending { is_ascending (parcel_dets items.now) ≡ true }
        requires clock { head.clock < 2 ^ 62 }
        ensures { (now : ℕ) → IsOutcome self.old now head (acknowledgement items.now) result self.new }
    {
        let batch = batch_of_items(self.alloc, head.source, items)?;
        self.node.learn(head.lane, head.source, &batch)?;
        self.clock = self.clock.max(head.clock);
        Ok(Received::Acknowledgement(head.source))
    }

    /// Takes the number of a process, which is its reply.
    fn take_number(&mut self, head: Head, round: u64) -> Result<Received, EndpointFault>
        requires { head.clock < 2 ^ 62 }
        ensures { (now : ℕ) → IsOutcome self.old now head (own_number round) result self.new }
    {
        self.node.take_number(round, head.source, head.lane)?;
        self.clock = self.clock.max(head.clock);
        Ok(Received::Number(head.source))
    }

    /// Takes the reply that a process is not up.
    fn take_not_up(&mut self, head: Head, round: u64) -> Result<Received, EndpointFault>
        requires { head.clock < 2 ^ 62 }
        ensures { (now : ℕ) → IsOutcome self.old now head (not_up round) result self.new }
    {
        self.node.take_not_up(round, head.source, head.lane)?;
        self.clock = self.clock.max(head.clock);
        Ok(Received::NotUp(head.source))
    }
}

impl Endpoint {
    /// Takes the contents of a parcel.
    fn take_contents(
        &mut self,
        now: u64,
        head: Head,
        content: Content,
    ) -> Result<Received, EndpointFault>
        requires { IsParcel (run_of self.old) (head, contents_of content) }
        ensures { IsOutcome self.old now head (contents_of content) result self.new }
    {
        match content {
            Content::Message { ssn, items, body } => {
                self.take_message(now, head, ssn, items.as_slice(), body)
            }
            Content::Acknowledgement { items } => {
                self.take_acknowledgement(head, items.as_slice())
            }
            Content::Question { round, view } => {
                self.take_question(now, head, round, view.as_slice())
            }
            Content::Answer { round, entries } => {
                self.take_answer(head, round, entries.as_slice())
            }
            Content::OwnNumber { round } => self.take_number(head, round),
            Content::NotUp { round } => self.take_not_up(head, round),
        }
    }

    /// Takes a parcel.
    fn take_parcel(&mut self, now: u64, parcel: Parcel) -> Result<Received, EndpointFault>
        requires { IsParcel (run_of self.old) (parcel_value parcel) }
        ensures ok { OnOk result (self.new ≡ after_parcel self.old now (parcel_value parcel)) }
        ensures receipt { IfOk result (λ r. receipt_of r
            ≡ receipt_at self.old now parcel.head (contents_of parcel.content)) }
        ensures legal { OnOk result (parcel_fault self.old now (parcel_value parcel) ≡ None) }
        ensures refused { IfErr result (λ fault.
            IsReason fault (parcel_fault self.old now (parcel_value parcel))) }
        ensures unchanged { OnErr result (self.new ≡ self.old) }
    {
        let Parcel { head, content } = parcel;
        let me = self.node.identity().me;
        if head.dest != me {
            return Err(EndpointFault::NotMine);
        }
        if head.source == me {
            return Err(EndpointFault::OwnParcel);
        }
        self.take_contents(now, head, content)
    }

    /// Receives the bytes of a parcel: delivers a message, learns from an acknowledgement, replies to a question, or
    /// takes a reply. `now` is the machine's time in microseconds.
    ///
    /// # Errors
    /// The first that applies: `Wire` with the first error of the bytes, from left to right; `NotMine`; `OwnParcel`; the
    /// node's refusal of the contents, in the order of the node's call for them; `Clock`. Or `NoMemory` if allocation
    /// failed. A refusal changes nothing. After `NoMemory`, `NotUp`, `MustReplay` and `Reserved` the bytes may be
    /// received later, after the others never.
    pub fn receive(&mut self, now: u64, bytes: &[u8]) -> Result<Received, EndpointFault>
        ensures ok { IfOk result (λ r. IsReceipt self.old now
            (read_parcel (run_of self.old) bytes.now) r self.new) }
        ensures legal { OnOk result
            (receive_fault self.old now (read_parcel (run_of self.old) bytes.now) ≡ None) }
        ensures refused { IfErr result (λ fault. IsReason fault
            (receive_fault self.old now (read_parcel (run_of self.old) bytes.now))) }
        ensures unchanged { OnErr result (self.new ≡ self.old) }
    {
        match read(self.alloc, self.run(), bytes) {
            Ok(parcel) => self.take_parcel(now, parcel),
            Err(ParcelFault::Wire(fault)) => Err(EndpointFault::Wire(fault)),
            Err(ParcelFault::NoMemory) => Err(EndpointFault::Node(NodeFault::NoMemory)),
        }
    }
}
