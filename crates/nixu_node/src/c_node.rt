//! Identities, and what calls return, in the layouts of nixu.h.
ghost use Rattle.std.specs.Prelude.{◌≡◌};
ghost use Rattle.nixu_node.specs.Structs.{identity_from_c, c_sent_of, c_kind, c_delivered, c_received_of, c_message_of};

use causal_endpoint::receiving::{DeliveryRecord, Received};
use causal_endpoint::sending::SendRecord;
use causal_name::{MsgName, Pid};
use causal_node::node::Identity;

/// Which process of which run a node is, and how it begins.
#[repr(C)]
#[derive(Clone, Copy)]
pub struct CIdentity {
    /// A number that no other run has.
    pub run: u64,
    /// The greatest clock of the process's recording.
    pub clock: u64,
    /// The seed with which logs hash their entries.
    pub seed: u64,
    /// The lane (incarnation).
    pub lane: u32,
    /// The number of processes.
    pub processes: u16,
    /// The bound f on failures.
    pub faults: u16,
    /// The process.
    pub process: u8,
}

/// A message that was sent.
#[repr(C)]
#[derive(Clone, Copy)]
pub struct CSent {
    pub clock: u64,
    /// The length of the parcel.
    pub parcel: usize,
    /// The send sequence number.
    pub ssn: u32,
}

/// What was received. A field that its kind does not use is 0.
#[repr(C)]
#[derive(Clone, Copy)]
pub struct CReceived {
    /// Message: the clock of the delivery.
    pub clock: u64,
    /// Message: the length of its body.
    pub body: usize,
    /// Question: the length of the reply.
    pub parcel: usize,
    /// Message: the number of determinants that the delivery lists.
    pub listed: usize,
    /// 0 message, 1 acknowledgement, 2 question, 3 log, 4 number, 5 not up.
    pub kind: u32,
    /// Message: the send sequence number.
    pub ssn: u32,
    /// Message: the receive sequence number.
    pub rsn: u32,
    /// Message: the lane of its source.
    pub lane: u32,
    /// The process that has sent the parcel.
    pub source: u8,
}

/// The name of a message, or none.
#[repr(C)]
#[derive(Clone, Copy)]
pub struct CMessage {
    /// The send sequence number.
    pub ssn: u32,
    /// 1 if there is a message, else 0.
    pub exists: u8,
    /// The sender.
    pub source: u8,
}

/// Returns the identity in a C struct.
pub(crate) fn identity_from_c(identity: &CIdentity) -> Identity
    ensures { result ≡ identity_from_c identity.now }
{
    Identity {
        processes: identity.processes,
        me: Pid(identity.process),
        faults: identity.faults,
    }
}

/// Returns the struct of a message that was sent.
pub(crate) fn c_sent_of(sent: &SendRecord) -> CSent
    ensures { result ≡ c_sent_of sent.now }
{
    CSent {
        clock: sent.clock,
        parcel: sent.bytes.len(),
        ssn: sent.ssn,
    }
}

/// Returns the struct of a parcel of this kind from a process.
fn c_kind(kind: u32, source: Pid) -> CReceived
    ensures { result ≡ c_kind kind source }
{
    CReceived {
        clock: 0,
        body: 0,
        parcel: 0,
        listed: 0,
        kind,
        ssn: 0,
        rsn: 0,
        lane: 0,
        source: source.0,
    }
}

/// Returns the struct of a delivery.
fn c_delivered(delivered: &DeliveryRecord) -> CReceived
    ensures { result ≡ c_delivered delivered.now }
{
    CReceived {
        clock: delivered.clock,
        body: delivered.body.len(),
        parcel: 0,
        listed: delivered.listed.as_slice().len(),
        kind: 0,
        ssn: delivered.name.ssn,
        rsn: delivered.det.rsn,
        lane: delivered.lane,
        source: delivered.name.source.0,
    }
}

/// Returns the struct of what was received.
pub(crate) fn c_received_of(received: &Received) -> CReceived
    ensures { result ≡ c_received_of received.now }
{
    match received {
        Received::Message(delivered) => c_delivered(delivered),
        Received::Acknowledgement(source) => c_kind(1, *source),
        Received::Question(source, reply) => CReceived {
            parcel: reply.len(),
            ..c_kind(2, *source)
        },
        Received::Log(source) => c_kind(3, *source),
        Received::Number(source) => c_kind(4, *source),
        Received::NotUp(source) => c_kind(5, *source),
    }
}

/// Returns the struct of a message's name, or of none.
pub(crate) fn c_message_of(name: Option<MsgName>) -> CMessage
    ensures { result ≡ c_message_of name }
{
    match name {
        Some(name) => CMessage {
            ssn: name.ssn,
            exists: 1,
            source: name.source.0,
        },
        None => CMessage {
            ssn: 0,
            exists: 0,
            source: 0,
        },
    }
}
