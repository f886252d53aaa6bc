//! The calls of a clock that allocate, on a small run and at the limit on lanes.
use causal_clock::{ClockFault, Clocks, EVENTS};
use std::alloc::Global;

/// Records an event of a lane, with the send that it receives, if any. Returns the event's number.
fn number(clocks: &mut Clocks, lane: u32, send: Option<u32>) -> Option<u32> {
    if lane >= clocks.lanes() || clocks.len() >= EVENTS {
        return None;
    }
    match send {
        None => clocks.local(lane).ok(),
        Some(send) if send < clocks.len() => clocks.receive(lane, send).ok(),
        Some(_) => None,
    }
}

/// Records events in order. Returns whether each has the next number.
fn are_numbered(clocks: &mut Clocks, events: &[(u32, Option<u32>)]) -> bool {
    for (lane, send) in events {
        let next = clocks.len();
        if number(clocks, *lane, *send) != Some(next) {
            return false;
        }
    }
    true
}

/// Returns whether each pair of events is ordered as expected: the first is the second or precedes it.
fn are_ordered(clocks: &Clocks, pairs: &[(u32, u32, bool)]) -> bool {
    for (i, j, before) in pairs {
        if *i >= clocks.len() || *j >= clocks.len() || clocks.precedes(*i, *j) != *before {
            return false;
        }
    }
    true
}

/// Three lanes, each of which sends to the next.
const RING: [(u32, Option<u32>); 6] = [
    (0, None),
    (1, Some(0)),
    (1, None),
    (2, Some(2)),
    (2, None),
    (0, Some(4)),
];

const ORDER: [(u32, u32, bool); 4] = [(1, 5, true), (0, 5, true), (3, 3, true), (3, 1, false)];

fn is_a_ring(clocks: &mut Clocks) -> bool {
    are_numbered(clocks, &RING) && are_ordered(clocks, &ORDER)
}

/// Returns whether lanes open with the numbers from `first` to below `end`, and then no more.
fn open_until(clocks: &mut Clocks, first: u32, end: u32) -> bool {
    for lane in first..end {
        if clocks.open_lane() != Ok(lane) {
            return false;
        }
    }
    clocks.open_lane() == Err(ClockFault::Lanes)
}

// The ring's three lanes were not opened.
fn lanes_open(alloc: Global) -> bool {
    match Clocks::new(alloc, 3) {
        Ok(mut clocks) => is_a_ring(&mut clocks) && open_until(&mut clocks, 3, 195),
        Err(_) => false,
    }
}

#[test]
fn three_lanes_in_a_ring_and_all_that_open(rt: HostRuntime) {
    assert!(rt; lanes_open(rt.alloc()));
}
