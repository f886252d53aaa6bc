//! A worker of a job queue.
ghost use Rattle.std.specs.Prelude.{map};
ghost use Rattle.causal_process.specs.ReactionLaws.{map_each, map_in_order};
ghost use Rattle.causal_jobs.specs.Jobs.{worker_reaction};

use causal_name::{NoMemory, Pid};
use causal_process::{Input, Outgoing, Process, first_byte, send_one};
use std::alloc::Global;

/// Asks process 0 for a job, and returns the double of each.
#[derive(Drop)]
pub(crate) struct Worker {}

impl Process for Worker {
    ghost answers = { λ it. map worker_reaction };

    fn step(&mut self, alloc: Global, input: &Input) -> Result<Vec<Outgoing>, NoMemory> {
        match input {
            Input::Begin => send_one(alloc, Pid(0), &[]),
            Input::Message { from, body } => {
                send_one(alloc, *from, &[first_byte(body).wrapping_mul(2)])
            }
        }
    }

    ghost each = { λ it. map_each worker_reaction };

    ghost in_order = { λ it. map_in_order worker_reaction };
}
