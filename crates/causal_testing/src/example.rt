//! The process from the documentation of `causal_process`, compiled and proved.
ghost use Rattle.causal_process.specs.Inside.Example.{count_after, numbering_reaction};
ghost use Rattle.causal_process.specs.ReactionLaws.{from_each, from_in_order};
ghost use Rattle.causal_process.specs.Reactions.{answers_from};

use causal_name::NoMemory;
use causal_process::{Body, Input, Outgoing, Process};
use std::alloc::Global;

/// Sends to each sender the number of its message.
#[derive(Drop)]
pub struct Numbering {
    pub count: u8,
}

impl Process for Numbering {
    ghost answers = { λ it. answers_from numbering_reaction count_after it.count };

    fn step(&mut self, alloc: Global, input: &Input) -> Result<Vec<Outgoing>, NoMemory> {
        let Input::Message { from, body: _ } = input else {
            return Ok(Vec::new(alloc));
        };
        let count = self.count.wrapping_add(1);
        let body = Body::new(vec![in alloc; count]?);
        let sends = vec![in alloc; Outgoing { to: *from, body }]?;
        self.count = count;
        Ok(sends)
    }

    ghost each = { λ it. from_each numbering_reaction count_after it.count };

    ghost in_order = { λ it. from_in_order numbering_reaction count_after it.count };
}
