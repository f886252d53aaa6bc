//! The numbers and sentences of refusals.
#![tactic(auto, using(crate::proofs::Named::reason_named, crate::proofs::Named::reason_unnamed))]

ghost use Rattle.std.specs.Prelude.{◌≡◌, ◌≤◌, ◌<◌, ◌⊎◌, None, Some, IfSome};
ghost use Rattle.causal_endpoint.specs.Refusals.{endpoint_reason_of};
ghost use Rattle.nixu_boundary.specs.Buffers.{IsUntouched};
ghost use Rattle.nixu_node.specs.Refusals.{wire_number, node_number, refusal_number, wire_sentence, node_sentence, refusal_sentence, IsNoRefusal, CopiesOutRefusalSentence};

use causal_endpoint::fault::EndpointFault;
use causal_name::{MsgName, Pid};
use causal_node::node_fault::NodeFault;
use causal_wire::WireFault;
use nixu_boundary::buffer::copy_out;
use nixu_boundary::status::{FAULT, MISUSED, NO_MEMORY, OK};

/// Returns the number of an error of bytes, from 32 in the order of [`WireFault`].
fn wire_number(fault: WireFault) -> u32
    ensures { result ≡ wire_number fault }
{
    match fault {
        WireFault::Short => 32,
        WireFault::Version => 33,
        WireFault::Kind => 34,
        WireFault::Run => 35,
        WireFault::Process => 36,
        WireFault::Clock => 37,
        WireFault::Unsorted => 38,
        WireFault::Holder => 39,
        WireFault::Flag => 40,
        WireFault::Trailing => 41,
    }
}

/// Returns the number of a node's refusal, from 68 in the order of [`NodeFault`]; 0 for `NoMemory`, which has a status.
fn node_number(fault: NodeFault) -> u32
    ensures { result ≡ node_number fault }
{
    match fault {
        NodeFault::NoProcess => 68,
        NodeFault::NotUp => 69,
        NodeFault::Up => 70,
        NodeFault::NoRound => 71,
        NodeFault::Unasked => 72,
        NodeFault::OldLane => 73,
        NodeFault::Duplicate => 74,
        NodeFault::MustReplay(_) => 75,
        NodeFault::Reserved => 76,
        NodeFault::View => 77,
        NodeFault::NotYet => 78,
        NodeFault::Waiting => 79,
        NodeFault::Full => 80,
        NodeFault::NoMemory => 0,
    }
}

/// Returns the number of a refusal.
fn refusal_number(fault: EndpointFault) -> u32
    ensures { result ≡ refusal_number fault }
{
    match fault {
        EndpointFault::Wire(fault) => wire_number(fault),
        EndpointFault::NotMine => 64,
        EndpointFault::OwnParcel => 65,
        EndpointFault::Long => 66,
        EndpointFault::Clock => 67,
        EndpointFault::Node(fault) => node_number(fault),
    }
}

/// Returns the status of a refusal, and writes its number.
pub(crate) fn refuse(refused: EndpointFault, fault: &mut u32) -> u32
    ensures fault { result ≡ FAULT →
        (endpoint_reason_of refused ≡ Some refused) × (fault.new ≡ refusal_number refused) }
    ensures no_memory { result ≡ NO_MEMORY → (endpoint_reason_of refused ≡ None) × (fault.new ≡ fault.old) }
    ensures status { (result ≡ FAULT) ⊎ (result ≡ NO_MEMORY) }
{
    let number = refusal_number(refused);
    if number == 0 {
        return NO_MEMORY;
    }
    *fault = number;
    FAULT
}

/// Returns the error of bytes with this number.
fn wire_fault_of(number: u32) -> WireFault
    requires { (32 ≤ number) × (number ≤ 41) }
    ensures { wire_number result ≡ number }
{
    match number {
        32 => WireFault::Short,
        33 => WireFault::Version,
        34 => WireFault::Kind,
        35 => WireFault::Run,
        36 => WireFault::Process,
        37 => WireFault::Clock,
        38 => WireFault::Unsorted,
        39 => WireFault::Holder,
        40 => WireFault::Flag,
        _ => WireFault::Trailing,
    }
}

/// Returns a refusal of a node with this number.
fn node_fault_of(number: u32) -> NodeFault
    requires { (68 ≤ number) × (number ≤ 80) }
    ensures { node_number result ≡ number }
{
    match number {
        68 => NodeFault::NoProcess,
        69 => NodeFault::NotUp,
        70 => NodeFault::Up,
        71 => NodeFault::NoRound,
        72 => NodeFault::Unasked,
        73 => NodeFault::OldLane,
        74 => NodeFault::Duplicate,
        75 => NodeFault::MustReplay(MsgName {
            source: Pid(0),
            ssn: 0,
        }),
        76 => NodeFault::Reserved,
        77 => NodeFault::View,
        78 => NodeFault::NotYet,
        79 => NodeFault::Waiting,
        _ => NodeFault::Full,
    }
}

/// Returns a refusal with this number; None if there is none.
fn refusal_of(number: u32) -> Option<EndpointFault>
    ensures some { IfSome result (λ fault. (refusal_number fault ≡ number) × (0 < number)) }
    ensures none { result ≡ None → IsNoRefusal number }
{
    match number {
        0..=31 => None,
        32..=41 => Some(EndpointFault::Wire(wire_fault_of(number))),
        42..=63 => None,
        64 => Some(EndpointFault::NotMine),
        65 => Some(EndpointFault::OwnParcel),
        66 => Some(EndpointFault::Long),
        67 => Some(EndpointFault::Clock),
        68..=80 => Some(EndpointFault::Node(node_fault_of(number))),
        81.. => None,
    }
}

/// Returns the sentence for an error of bytes.
fn wire_sentence(fault: WireFault) -> &'static str
    ensures { result.now ≡ wire_sentence fault }
{
    match fault {
        WireFault::Short => "the bytes end too early",
        WireFault::Version => "another version of the format",
        WireFault::Kind => "no such kind of parcel",
        WireFault::Run => "a parcel of another run",
        WireFault::Process => "no such process",
        WireFault::Clock => "the clock is too great",
        WireFault::Unsorted => "the determinants are not in ascending order",
        WireFault::Holder => "the holders are not in ascending order, or the source is among them",
        WireFault::Flag => "a flag is neither 0 nor 1",
        WireFault::Trailing => "bytes after the end",
    }
}

/// Returns the sentence for a refusal of a node.
fn node_sentence(fault: NodeFault) -> &'static str
    ensures { result.now ≡ node_sentence fault }
{
    match fault {
        NodeFault::NoProcess => "there is no such process",
        NodeFault::NotUp => "the process is not up",
        NodeFault::Up => "the process is up",
        NodeFault::NoRound => "no round has begun",
        NodeFault::Unasked => "the reply was not awaited",
        NodeFault::OldLane => "the lane is refused",
        NodeFault::Duplicate => "the message has been delivered",
        NodeFault::MustReplay(_) => "another message has to be delivered first",
        NodeFault::Reserved => "the message has to be delivered later",
        NodeFault::View => "the view has another number of processes",
        NodeFault::NotYet => "the process gathers first",
        NodeFault::Waiting => "a process or stable storage has still to reply",
        NodeFault::Full => "a limit would be exceeded",
        NodeFault::NoMemory => "no memory",
    }
}

/// Returns the sentence for a refusal.
fn refusal_sentence(fault: EndpointFault) -> &'static str
    ensures { result.now ≡ refusal_sentence fault }
{
    match fault {
        EndpointFault::Wire(fault) => wire_sentence(fault),
        EndpointFault::NotMine => "a parcel for another process",
        EndpointFault::OwnParcel => "a parcel from this process itself",
        EndpointFault::Long => "the body is too long",
        EndpointFault::Clock => "the clock is too great",
        EndpointFault::Node(fault) => node_sentence(fault),
    }
}

/// Writes the sentence for a refusal's number to `out`, without a line feed, as much of it as fits, and its whole
/// length to `needed`.
///
/// Returns [`OK`]; or [`MISUSED`] if no refusal has the number, and nothing is written. Allocates nothing.
#[unsafe(no_mangle)]
pub extern "C" fn nixu_node_fault_text(fault: u32, out: &mut [u8], needed: &mut usize) -> u32
    ensures ok { result ≡ OK → CopiesOutRefusalSentence fault out.old out.new needed.new }
    ensures misused { result ≡ MISUSED → IsNoRefusal fault }
    ensures unchanged { result ≡ MISUSED → IsUntouched out.old out.new needed.old needed.new }
    ensures status { (result ≡ OK) ⊎ (result ≡ MISUSED) }
{
    match refusal_of(fault) {
        Some(refusal) => {
            copy_out(refusal_sentence(refusal).as_bytes(), out, needed);
            OK
        }
        None => MISUSED,
    }
}
