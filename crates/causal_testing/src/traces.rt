//! Traces that one function owns and lends: to a writer, to the tables of an audit, to the workers of an audit.
use crate::names::det;
use crate::text::{is_written, read_ring};
use crate::workers::{Entering, enter_once};
use causal_audit::{Tables, Verdict, judge};
use causal_holders::Holders;
use causal_name::Pid;
use causal_trace::entry::{Dets, Entry};
use causal_trace::fault::TraceFault;
use causal_trace::trace::Trace;
use std::alloc::Global;
use std::sync::Wait;
use std::thread::Threads;

/// A recorded run.
#[derive(Clone, Copy)]
enum Run {
    Ring,
    /// Process 0 sends many messages to process 1, which lists each delivery; then 1 sends to 2, which lists none of
    /// them.
    PassedOnBare,
}

/// More than two groups of open deliveries. If process 1 crashes, 2 depends on the first delivery, whose determinant no
/// log contains.
const MANY: u32 = 600;

/// Process 0 sends a message to process 1, which delivers it.
fn push_message(trace: &mut Trace, number: u32) -> Result<(), TraceFault> {
    let send = trace.len();
    trace.push(Entry::Send {
        from: Pid(0),
        to: Pid(1),
        ssn: number,
    })?;
    trace.push(Entry::Deliver {
        to: Pid(1),
        send,
        rsn: number,
        listed: Dets::one(det((0, number, 1, number))),
    })
}

fn push_messages(trace: &mut Trace) -> Result<(), TraceFault> {
    for number in 0..MANY {
        push_message(trace, number)?;
    }
    Ok(())
}

/// The last message: process 1 sends it after all its deliveries.
fn push_last(trace: &mut Trace) -> Result<(), TraceFault> {
    trace.push(Entry::Send {
        from: Pid(1),
        to: Pid(2),
        ssn: 0,
    })?;
    trace.push(Entry::Deliver {
        to: Pid(2),
        send: 1_200,
        rsn: 0,
        listed: Dets::one(det((1, 0, 2, 0))),
    })
}

fn trace_without_lists(alloc: Global) -> Result<Trace, TraceFault> {
    let mut trace = Trace::new(alloc, 3)?;
    push_messages(&mut trace)?;
    push_last(&mut trace)?;
    Ok(trace)
}

/// The verdict on an orphan of the first delivery.
fn orphan(instant: u32, processes: &[u8], orphan: u8) -> Verdict {
    let mut crash = Holders::none();
    for &process in processes {
        crash.insert(process);
    }
    Verdict::Orphan {
        instant,
        delivery: 1,
        crash,
        orphan,
    }
}

impl Run {
    fn build_trace(self, alloc: Global) -> Option<Trace> {
        match self {
            Run::Ring => read_ring(alloc),
            Run::PassedOnBare => trace_without_lists(alloc).ok(),
        }
    }

    /// The verdict for f = 1.
    fn verdict(self) -> Verdict {
        match self {
            Run::Ring => Verdict::Accept,
            Run::PassedOnBare => orphan(1_202, &[1], 2),
        }
    }
}

/// What is tested of a run.
#[derive(Clone, Copy)]
enum Check {
    /// The ring is written.
    Written,
    /// The tables of the ring have the hand-computed breach for f = 2.
    Judged,
    /// The workers of an audit for f = 1 enter its gate.
    Audited(Entering),
}

fn is_judged(alloc: Global, trace: &Trace) -> bool {
    match Tables::of(alloc, trace) {
        Ok(tables) => judge(&tables, 2) == orphan(6, &[1, 2], 0),
        Err(_) => false,
    }
}

impl Check {
    fn is_right<R: Threads + Wait>(self, rt: &R, alloc: Global, trace: &Trace, run: Run) -> bool {
        match self {
            Check::Written => is_written(alloc, trace),
            Check::Judged => is_judged(alloc, trace),
            Check::Audited(entering) => enter_once(rt, alloc, trace, entering, run.verdict()),
        }
    }
}

/// Returns whether a check of a run's trace holds.
fn is_right<R: Threads + Wait>(rt: &R, alloc: Global, run: Run, check: Check) -> bool {
    match run.build_trace(alloc) {
        Some(trace) => check.is_right(rt, alloc, &trace, run),
        None => false,
    }
}

#[test]
fn writer_fails_after_three_bytes(rt: HostRuntime) {
    assert!(rt; is_right(&rt, rt.alloc(), Run::Ring, Check::Written));
}

#[test]
fn tables_find_ring_breach(rt: HostRuntime) {
    assert!(rt; is_right(&rt, rt.alloc(), Run::Ring, Check::Judged));
}

/// The number of workers, the bits of all workers, and the bits of those that wait for each other. More workers than
/// deliveries are among them.
const ENTERING: [Entering; 3] = [(1, 1, 0), (5, 31, 0), (64, u64::MAX, 0)];

#[test]
fn workers_enter_once(rt: HostRuntime) {
    for (number, entering) in ENTERING.iter().enumerate() {
        let check = Check::Audited(*entering);
        assert!(rt;
            is_right(&rt, rt.alloc(), Run::Ring, check)
                && is_right(&rt, rt.alloc(), Run::PassedOnBare, check),
            "case {number}"
        );
    }
}

/// Each of the workers 0 and 1 waits in the gate until the other has entered.
const OVERLAPPING: Check = Check::Audited((2, 3, 3));

#[test]
fn audit_workers_overlap(rt: HostRuntime) {
    assert!(rt; is_right(&rt, rt.alloc(), Run::Ring, OVERLAPPING));
    assert!(rt; is_right(&rt, rt.alloc(), Run::PassedOnBare, OVERLAPPING));
}
