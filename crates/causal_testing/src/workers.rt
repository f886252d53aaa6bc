//! The gate of an audit: each worker enters once, and two workers overlap (`traces`). The results for up to 64 workers
//! are rows for the built program (`examples/commands/`).
ghost use Rattle.std.specs.Prelude.{⊤};

use causal_audit::Verdict;
use causal_trace::trace::Trace;
use causal_workers::{Gate, audit};
use std::alloc::Global;
use std::sync::Wait;
use std::sync::atomic::{AtomicU64, Ordering};
use std::thread;
use std::thread::Threads;

/// How often a worker checks whether the awaited workers have entered.
const TURNS: u32 = 10_000_000;

/// Counts entries: of each worker below 64, repeated ones, and those of higher numbers. A worker waits until all
/// awaited bits have entered, or its turns are over.
#[derive(Drop)]
struct Counting {
    awaited: u64,
    entered: AtomicU64,
    again: AtomicU64,
    strangers: AtomicU64,
    missed: AtomicU64,
}

impl Counting {
    fn new(awaited: u64) -> Counting {
        Counting {
            awaited,
            entered: AtomicU64::new(0),
            again: AtomicU64::new(0),
            strangers: AtomicU64::new(0),
            missed: AtomicU64::new(0),
        }
    }

    /// Returns whether exactly the workers of these bits have entered, each once, and no wait ran out.
    fn is_of(&self, all: u64) -> bool {
        self.entered.load(Ordering::SeqCst) == all
            && self.again.load(Ordering::SeqCst) == 0
            && self.strangers.load(Ordering::SeqCst) == 0
            && self.missed.load(Ordering::SeqCst) == 0
    }
}

impl Gate for Counting {
    ghost passed = { λ _ _. ⊤ };

    fn enter(&self, worker: u32) {
        if worker >= 64 {
            self.strangers.fetch_add(1, Ordering::SeqCst);
            return;
        }
        let own = 1_u64 << worker;
        if self.entered.fetch_or(own, Ordering::SeqCst) & own != 0 {
            self.again.fetch_add(1, Ordering::SeqCst);
        }
        for _ in 0..TURNS {
            if self.entered.load(Ordering::SeqCst) & self.awaited == self.awaited {
                return;
            }
            thread::yield_now();
        }
        self.missed.fetch_add(1, Ordering::SeqCst);
    }
}

/// The number of workers, the bits of all workers, and the bits of those that wait for each other.
pub(crate) type Entering = (u32, u64, u64);

/// Returns whether an audit for f = 1 returns this verdict, exactly these workers enter, each once, and those that wait
/// meet.
pub(crate) fn enter_once<R: Threads + Wait>(
    rt: &R,
    alloc: Global,
    trace: &Trace,
    (workers, all, awaited): Entering,
    verdict: Verdict,
) -> bool {
    let gate = Counting::new(awaited);
    match audit(rt, alloc, trace, 1, workers.clamp(1, 64), &gate) {
        Ok(found) => found == verdict && gate.is_of(all),
        Err(_) => false,
    }
}
