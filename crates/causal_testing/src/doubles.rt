//! Processes for tests: one that sends as many messages as it may, and one that returns `NoMemory` once.
ghost use Rattle.std.specs.Prelude.{◌≡◌, [], map, replicate};
ghost use Rattle.causal_process.specs.ReactionLaws.{map_each, map_in_order};

use causal_name::{NoMemory, Pid};
use causal_process::{Body, Input, Outgoing, Process};
use std::alloc::Global;

/// Returns eight empty messages to itself for each input.
#[derive(Drop)]
pub struct Flood {
    pub me: Pid,
}

/// An empty message.
fn empty(alloc: Global, to: Pid) -> Outgoing
    ensures { result ≡ record { to = to; body = [] } }
{
    Outgoing {
        to,
        body: Body::new(Vec::new(alloc)),
    }
}

impl Process for Flood {
    ghost answers = { λ it. map (λ input. replicate 8 (record { to = it.me; body = [] })) };

    fn step(&mut self, alloc: Global, _input: &Input) -> Result<Vec<Outgoing>, NoMemory> {
        let to = self.me;
        Ok(vec![in alloc;
            empty(alloc, to),
            empty(alloc, to),
            empty(alloc, to),
            empty(alloc, to),
            empty(alloc, to),
            empty(alloc, to),
            empty(alloc, to),
            empty(alloc, to),
        ]?)
    }

    ghost each = { λ it. map_each (λ input. replicate 8 (record { to = it.me; body = [] })) };

    ghost in_order = { λ it. map_in_order (λ input. replicate 8 (record { to = it.me; body = [] })) };
}

/// Reacts as the process inside, but returns `NoMemory` once, after a number of steps.
#[derive(Drop)]
pub struct Refusing<P> {
    pub inner: P,
    pub before_refusal: Option<u64>,
}

impl<P: Process> Process for Refusing<P> {
    ghost answers = { λ it. P.answers it.inner };

    fn step(&mut self, alloc: Global, input: &Input) -> Result<Vec<Outgoing>, NoMemory> {
        match self.before_refusal {
            Some(0) => {
                self.before_refusal = None;
                return Err(NoMemory);
            }
            Some(left) => self.before_refusal = Some(left - 1),
            None => {}
        }
        self.inner.step(alloc, input)
    }

    ghost each = { λ it. P.each it.inner };

    ghost in_order = { λ it. P.in_order it.inner };
}
