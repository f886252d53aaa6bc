//! The dispatcher of a job queue.
ghost use Rattle.causal_process.specs.Reactions.{answers_from};
ghost use Rattle.causal_process.specs.ReactionLaws.{from_each, from_in_order};
ghost use Rattle.causal_jobs.specs.Jobs.{left_after, dispatcher_reaction};

use causal_name::NoMemory;
use causal_process::{Input, Outgoing, Process, send_one};
use std::alloc::Global;

/// Gives a job to each process that sends it a message, until none is left.
#[derive(Drop)]
pub(crate) struct Dispatcher {
    pub left: u8,
}

impl Process for Dispatcher {
    ghost answers = { λ it. answers_from dispatcher_reaction left_after it.left };

    fn step(&mut self, alloc: Global, input: &Input) -> Result<Vec<Outgoing>, NoMemory> {
        let Input::Message { from, body: _ } = input else {
            return Ok(Vec::new(alloc));
        };
        let Some(left) = self.left.checked_sub(1) else {
            return Ok(Vec::new(alloc));
        };
        let sends = send_one(alloc, *from, &[self.left])?;
        self.left = left;
        Ok(sends)
    }

    ghost each = { λ it. from_each dispatcher_reaction left_after it.left };

    ghost in_order = { λ it. from_in_order dispatcher_reaction left_after it.left };
}
