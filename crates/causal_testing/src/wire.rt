//! Parcels and their bytes, worked by hand.
use crate::names::det;
use causal_name::Pid;
use causal_wire::{
    Content, Head, LogEntry, Parcel, ParcelFault, ParcelItem, RunId, WireFault, read, write,
};
use std::alloc::Global;

/// The run of all parcels here.
const RUN: RunId = RunId {
    id: 0x0102_0304_0506_0708,
    processes: 3,
    f: 1,
};

/// Process 1, in lane 4 and at clock 256, sends its message 9 to process 2, with the body 255. The message carries that
/// process 1 delivered message 5 of process 0 as its delivery 513, which process 2 also holds.
const MESSAGE: [u8; 53] = [
    1, 0, 1, 2, 3, 4, 5, 6, 7, 8, 0, 3, 0, 1, 1, 2, 0, 0, 0, 4, 0, 0, 0, 0, 0, 0, 1, 0, 0, 0, 0, 9,
    0, 0, 0, 1, 0, 0, 0, 0, 5, 1, 0, 0, 2, 1, 1, 2, 0, 0, 0, 1, 255,
];

/// Process 2 begins round 7, with the numbers 0, 1 and 258.
const QUESTION: [u8; 48] = [
    1, 2, 1, 2, 3, 4, 5, 6, 7, 8, 0, 3, 0, 1, 2, 0, 0, 0, 1, 2, 0, 0, 0, 0, 0, 0, 0, 1, 0, 0, 0, 0,
    0, 0, 0, 7, 0, 0, 0, 0, 0, 0, 0, 1, 0, 0, 1, 2,
];

/// Process 0 replies to round 7 with a log of one entry, which is stable.
const ANSWER: [u8; 52] = [
    1, 3, 1, 2, 3, 4, 5, 6, 7, 8, 0, 3, 0, 1, 0, 2, 0, 0, 0, 0, 0, 0, 0, 0, 0, 0, 0, 3, 0, 0, 0, 0,
    0, 0, 0, 7, 0, 0, 0, 1, 0, 0, 0, 0, 5, 1, 0, 0, 2, 1, 0, 1,
];

/// Process 0 acknowledges one determinant twice.
const TWICE: [u8; 54] = [
    1, 1, 1, 2, 3, 4, 5, 6, 7, 8, 0, 3, 0, 1, 0, 2, 0, 0, 0, 0, 0, 0, 0, 0, 0, 0, 0, 3, 0, 0, 0, 2,
    0, 0, 0, 0, 5, 1, 0, 0, 2, 1, 0, 0, 0, 0, 0, 5, 1, 0, 0, 2, 1, 0,
];

fn is_head(head: Head) -> bool {
    (head.source.0, head.dest.0, head.lane, head.clock) == (1, 2, 4, 256)
}

fn is_item(item: &ParcelItem) -> bool {
    item.det == det((0, 5, 1, 513)) && item.others.len() == 1 && item.others.least() == Some(2)
}

fn are_items(items: &[ParcelItem]) -> bool {
    match items {
        [item] => is_item(item),
        _ => false,
    }
}

fn are_entries(entries: &[LogEntry]) -> bool {
    match entries {
        [entry] => entry.stable && entry.item.others.len() == 0,
        _ => false,
    }
}

/// Returns whether a parcel is the message or the answer.
fn is_expected(parcel: &Parcel) -> bool {
    match &parcel.content {
        Content::Message { ssn, items, body } => {
            is_head(parcel.head)
                && *ssn == 9
                && are_items(items.as_slice())
                && body.as_slice() == [255].as_slice()
        }
        Content::Answer { round, entries } => *round == 7 && are_entries(entries.as_slice()),
        _ => false,
    }
}

/// Returns whether bytes are read as the message or the answer.
fn is_read(alloc: Global, bytes: &[u8]) -> bool {
    match read(alloc, RUN, bytes) {
        Ok(parcel) => is_expected(&parcel),
        Err(_) => false,
    }
}

#[test]
fn reads_a_message_and_an_answer(rt: HostRuntime) {
    assert!(rt; is_read(rt.alloc(), &MESSAGE) && is_read(rt.alloc(), &ANSWER));
}

/// Returns whether a question with this view has those bytes.
fn is_written(alloc: Global, view: Vec<u32>) -> bool {
    let head = Head {
        source: Pid(2),
        dest: Pid(0),
        lane: 258,
        clock: 1,
    };
    let content = Content::Question { round: 7, view };
    match write(alloc, RUN, &Parcel { head, content }) {
        Ok(bytes) => bytes.as_slice() == QUESTION.as_slice(),
        Err(_) => false,
    }
}

#[test]
fn writes_a_question(rt: HostRuntime) {
    let is_right = match vec![in rt.alloc(); 0, 1, 258] {
        Ok(view) => is_written(rt.alloc(), view),
        Err(_) => false,
    };
    assert!(rt; is_right);
}

/// The first error of some bytes, if they are no parcel of the run.
fn refusal(alloc: Global, bytes: &[u8]) -> Option<WireFault> {
    match read(alloc, RUN, bytes) {
        Err(ParcelFault::Wire(fault)) => Some(fault),
        _ => None,
    }
}

/// The message with another byte at one place, and the first error.
const CHANGES: [(usize, u8, WireFault); 13] = [
    (0, 2, WireFault::Version),
    (1, 6, WireFault::Kind),
    (9, 9, WireFault::Run),
    (11, 4, WireFault::Run),
    (13, 2, WireFault::Run),
    (14, 3, WireFault::Process),
    (20, 64, WireFault::Clock),
    (35, 2, WireFault::Short),
    (36, 3, WireFault::Process),
    (47, 1, WireFault::Holder),
    (47, 3, WireFault::Process),
    (51, 2, WireFault::Short),
    (51, 0, WireFault::Trailing),
];

/// Returns whether a parcel with another byte at this place has that first error.
fn refuses_change(alloc: Global, (place, byte, fault): (usize, u8, WireFault)) -> bool {
    let mut bytes = MESSAGE;
    if place < bytes.len() {
        bytes[place] = byte;
    }
    refusal(alloc, &bytes) == Some(fault)
}

fn refuses_changes(alloc: Global) -> bool {
    for change in &CHANGES {
        if !refuses_change(alloc, *change) {
            return false;
        }
    }
    true
}

/// The first error of the answer with another byte as its last.
fn flag_refusal(alloc: Global) -> Option<WireFault> {
    let mut flagged = ANSWER;
    flagged[51] = 2;
    refusal(alloc, &flagged)
}

#[test]
fn refuses_other_bytes(rt: HostRuntime) {
    assert!(rt;
        refuses_changes(rt.alloc())
            && refusal(rt.alloc(), &TWICE) == Some(WireFault::Unsorted)
            && flag_refusal(rt.alloc()) == Some(WireFault::Flag)
    );
}
