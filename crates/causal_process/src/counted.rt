//! A process wrapper that counts drops.
ghost use Rattle.std.specs.Prelude.{◌≡◌, List};
ghost use Rattle.causal_process.specs.declared.message.Input.{Input};

use crate::message::{Input, Outgoing};
use crate::process::Process;
use causal_name::NoMemory;
use std::alloc::Global;
use std::marker::Model;
use std::sync::Arc;
use std::sync::atomic::{AtomicU64, Ordering};

/// Wraps a process. It reacts as the inner process does, and adds 1 to a counter when it is dropped, so a test can
/// check that a process was dropped. Its model is the inner process. That the counter grows by one is tested; no
/// contract states it.
pub struct Counted<P> {
    inner: P,
    drops: Arc<AtomicU64>,
}

impl<P> Model for Counted<P> {
    ghost Value = { P };

    ghost view = { λ counted. counted.inner };
}

impl<P: Process> Counted<P> {
    /// Returns a wrapper of `inner` whose drop is counted in `drops`. It allocates nothing.
    pub fn new(inner: P, drops: Arc<AtomicU64>) -> Counted<P>
        ensures { result ≡ inner }
    {
        Counted { inner, drops }
    }
}

impl<P: Drop> Drop for Counted<P> {
    fn drop(self) {
        let Counted { inner, drops } = self;
        drops.fetch_add(1, Ordering::SeqCst);
        drop(inner);
        drop(drops);
    }
}

impl<P: Process> Process for Counted<P> {
    ghost answers = { P.answers };

    fn step(&mut self, alloc: Global, input: &Input) -> Result<Vec<Outgoing>, NoMemory> {
        self.inner.step(alloc, input)
    }

    ghost each = { P.each };

    ghost in_order = { P.in_order };
}
