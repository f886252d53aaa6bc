//! Endpoints: bytes worked by hand, and a recovery.
use crate::names::are;
use causal_endpoint::endpoint::Endpoint;
use causal_endpoint::fault::EndpointFault;
use causal_endpoint::receiving::Received;
use causal_name::Pid;
use causal_node::node::Identity;
use causal_node::node_fault::NodeFault;
use std::alloc::Global;

/// The first message of process 0, to process 1, at clock 1000, with the body 7. It carries nothing.
const FIRST: [u8; 41] = [
    1, 0, 1, 2, 3, 4, 5, 6, 7, 8, 0, 3, 0, 1, 0, 1, 0, 0, 0, 0, 0, 0, 0, 0, 0, 0, 3, 232, 0, 0, 0,
    0, 0, 0, 0, 0, 0, 0, 0, 1, 7,
];

/// The first message of process 1, to process 2, at clock 1005. It carries that process 1 delivered the first one.
const SECOND: [u8; 51] = [
    1, 0, 1, 2, 3, 4, 5, 6, 7, 8, 0, 3, 0, 1, 1, 2, 0, 0, 0, 0, 0, 0, 0, 0, 0, 0, 3, 237, 0, 0, 0,
    0, 0, 0, 0, 1, 0, 0, 0, 0, 0, 1, 0, 0, 0, 0, 0, 0, 0, 0, 0,
];

/// Process 1, whose next lane is 1, asks process 2 in round 7, at clock 2000.
const QUESTION: [u8; 48] = [
    1, 2, 1, 2, 3, 4, 5, 6, 7, 8, 0, 3, 0, 1, 1, 2, 0, 0, 0, 1, 0, 0, 0, 0, 0, 0, 7, 208, 0, 0, 0,
    0, 0, 0, 0, 7, 0, 0, 0, 0, 0, 0, 0, 1, 0, 0, 0, 0,
];

/// Process 2 replies, at clock 2001: it logs both deliveries, and knows that process 1 held the first one.
const ANSWER: [u8; 65] = [
    1, 3, 1, 2, 3, 4, 5, 6, 7, 8, 0, 3, 0, 1, 2, 1, 0, 0, 0, 0, 0, 0, 0, 0, 0, 0, 7, 209, 0, 0, 0,
    0, 0, 0, 0, 7, 0, 0, 0, 2, 0, 0, 0, 0, 0, 1, 0, 0, 0, 0, 1, 1, 0, 1, 0, 0, 0, 0, 2, 0, 0, 0, 0,
    0, 0,
];

/// The endpoint of one of three processes, for one failure.
fn endpoint(alloc: Global, me: u8, lane: u32, clock: u64) -> Result<Endpoint, EndpointFault> {
    let identity = Identity {
        processes: 3,
        me: Pid(me),
        faults: 1,
    };
    Endpoint::open(alloc, identity, 0x0102_0304_0506_0708, lane, clock, 0)
}

/// Whether these bytes are a message that is delivered, at this clock, with a body of this length.
fn delivers(
    receiver: &mut Endpoint,
    now: u64,
    bytes: &[u8],
    expected: (u64, usize),
) -> Result<bool, EndpointFault> {
    match receiver.receive(now, bytes)? {
        Received::Message(delivered) => { Ok((delivered.clock, delivered.body.len()) == expected) }
        _ => Ok(false),
    }
}

/// Whether the question is answered with these bytes.
fn answers(
    asked: &mut Endpoint,
    now: u64,
    question: &[u8],
    answer: &[u8],
) -> Result<bool, EndpointFault> {
    match asked.receive(now, question)? {
        Received::Question(to, bytes) => Ok(to == Pid(1) && bytes.as_slice() == answer),
        _ => Ok(false),
    }
}

/// Whether a message to a process, sent at this time, has these bytes.
fn is_sent(sender: &mut Endpoint, now: u64, (to, body): (u8, &[u8]), bytes: &[u8]) -> bool {
    match sender.send(now, Pid(to), body) {
        Ok(sent) => sent.bytes.as_slice() == bytes,
        Err(_) => false,
    }
}

/// Process 1 delivers the first message and sends the second one.
fn passes_on(alloc: Global) -> bool {
    match endpoint(alloc, 1, 0, 0) {
        Ok(mut one) => {
            matches!(delivers(&mut one, 900, &FIRST, (1001, 1)), Ok(true))
                && is_sent(&mut one, 1005, (2, &[]), &SECOND)
        }
        Err(_) => false,
    }
}

/// The answer of process 2 to the question.
fn is_asked(two: &mut Endpoint, again: &mut Endpoint) -> Result<bool, EndpointFault> {
    again.begin_round(7)?;
    let question = again.question(2000, Pid(2))?;
    Ok(question.as_slice() == QUESTION.as_slice() && answers(two, 1500, &QUESTION, &ANSWER)?)
}

fn is_waiting(again: &mut Endpoint) -> bool {
    matches!(
        again.restart(2100),
        Err(EndpointFault::Node(NodeFault::Waiting))
    )
}

fn takes_log(again: &mut Endpoint) -> Result<bool, EndpointFault> {
    Ok(matches!(again.receive(0, &ANSWER)?, Received::Log(Pid(2))))
}

/// Has the question answered, and the answer taken in.
fn ask(asked: &mut Endpoint, again: &mut Endpoint, question: &[u8]) -> Result<(), EndpointFault> {
    if let Received::Question(_, answer) = asked.receive(0, question)? {
        again.receive(0, answer.as_slice())?;
    }
    Ok(())
}

/// It waits for both logs, and then for what is in stable storage.
fn gathers(zero: &mut Endpoint, again: &mut Endpoint) -> Result<bool, EndpointFault> {
    let question = again.question(2000, Pid(0))?;
    let waits = takes_log(again)? && is_waiting(again);
    ask(zero, again, question.as_slice())?;
    Ok(waits && is_waiting(again))
}

/// It restarts with both deliveries.
fn restarts(again: &mut Endpoint) -> Result<bool, EndpointFault> {
    again.finish_read(7)?;
    let restarted = again.restart(2100)?;
    Ok(restarted.clock == 2100 && are(restarted.listed.as_slice(), &[(0, 0, 1, 0), (1, 0, 2, 0)]))
}

/// Process 0 sends the first message, and process 2 delivers the second one. Process 1, which has crashed, restarts with
/// what they log.
fn comes_back(
    zero: &mut Endpoint,
    two: &mut Endpoint,
    again: &mut Endpoint,
) -> Result<bool, EndpointFault> {
    Ok(
        is_sent(zero, 1000, (1, &[7]), &FIRST)
            && delivers(two, 1100, &SECOND, (1100, 0))?
            && is_asked(two, again)?
            && gathers(zero, again)?
            && restarts(again)?
            && delivers(again, 2200, &FIRST, (2200, 1))?,
    )
}

// Each of these owns one endpoint: a proof grows fast with the values that a function owns while it may return early.

fn recovers_among(alloc: Global, zero: &mut Endpoint, two: &mut Endpoint) -> bool {
    match endpoint(alloc, 1, 1, 1005) {
        Ok(mut again) => matches!(comes_back(zero, two, &mut again), Ok(true)),
        Err(_) => false,
    }
}

fn recovers_beside(alloc: Global, zero: &mut Endpoint) -> bool {
    match endpoint(alloc, 2, 0, 0) {
        Ok(mut two) => recovers_among(alloc, zero, &mut two),
        Err(_) => false,
    }
}

/// A process restarts with what another one logs.
fn recovers(alloc: Global) -> bool {
    match endpoint(alloc, 0, 0, 0) {
        Ok(mut zero) => recovers_beside(alloc, &mut zero),
        Err(_) => false,
    }
}

#[test]
fn an_endpoint_passes_on(rt: HostRuntime) {
    assert!(rt; passes_on(rt.alloc()));
}

#[test]
fn an_endpoint_recovers(rt: HostRuntime) {
    assert!(rt; recovers(rt.alloc()));
}
