//! The work of one worker.
ghost use Rattle.std.specs.Prelude.{◌≡◌, ◌≤◌, length};
ghost use Rattle.causal_workers.specs.Inside.Shares.{IsResultOf};

use crate::gate::Gate;
use causal_audit::{Breach, PreparedRun};
use causal_name::NoMemory;
use causal_trace::trace::Trace;
use std::alloc::Global;
use std::thread::{Promise, PromisedHandle};

/// A share: the followed deliveries of a prepared run from index `from` to below index `to`.
#[derive(Clone, Copy)]
pub struct Share<'a> {
    pub prepared: &'a PreparedRun,
    pub from: usize,
    pub to: usize,
}

/// The result of a share: its earliest breach, or `NoMemory`.
pub type ShareResult = Result<Option<Breach>, NoMemory>;

/// A worker that was started, with its share.
pub type RunningShare<'a> = PromisedHandle<ShareResult, Share<'a>>;

impl<'a> Promise<ShareResult> for Share<'a> {
    ghost kept_by = { λ s found. IsResultOf s.prepared.now s.from s.to found };
}

impl<'a> Share<'a> {
    /// Passes the gate as the worker of this number, and returns the earliest breach of the share. The trace must be
    /// the one that was prepared.
    ///
    /// # Errors
    /// `NoMemory` if allocation fails.
    pub fn judge<G: Gate>(self, alloc: Global, trace: &Trace, worker: u32, gate: &G) -> ShareResult
        requires same { trace.now.recording ≡ self.prepared.now.run }
        requires inside { (self.from ≤ self.to) × (self.to ≤ length self.prepared.now.positions) }
        ensures found { IsResultOf self.entry.prepared.now self.entry.from self.entry.to result }
        ensures passed { G.passed gate.now worker }
    {
        gate.enter(worker);
        self.prepared
            .part(trace, self.from, self.to)
            .earliest_breach(alloc)
    }
}
