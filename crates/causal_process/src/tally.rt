//! A process of a tally: process 0 sums the bytes that it receives and returns the total to each sender.
ghost use Rattle.std.specs.Prelude.{◌≡◌, ◌<◌, List};
ghost use Rattle.causal_process.specs.declared.message.Input.{Input};
ghost use Rattle.causal_process.specs.Kinds.{adder_after, tally_reaction};
ghost use Rattle.causal_process.specs.Reactions.{answers_from};
ghost use Rattle.causal_process.specs.ReactionLaws.{from_each, from_in_order};

use crate::body::first_byte;
use crate::message::{Input, Outgoing};
use crate::process::Process;
use crate::sending::send_one;
use causal_name::{NoMemory, Pid};
use std::alloc::Global;
use std::marker::Model;

/// One process of a tally. When the processes begin, each one but process 0 sends its number to process 0, as one byte.
/// Process 0 adds the first byte of each body that it receives to its total, modulo 2 to the 64th, starting from 0. It
/// sends the new total to the sender, as eight bytes, most significant first. An empty body adds 0. The other processes
/// send nothing in response to a message.
///
/// So what it sends depends on the order of its deliveries.
#[derive(Drop)]
pub struct Tally {
    me: u8,
    total: u64,
}

impl Model for Tally {
    ghost use Rattle.causal_process.specs.Kinds.{Adder};

    ghost Value = { Adder };

    ghost view = { λ tally. record { me = tally.me; total = tally.total } };
}

impl Tally {
    /// Returns process `me`, 0 to n - 1, of n processes, with the total 0. Unlike the other kinds, it does not depend
    /// on n.
    pub fn new(n: u16, me: u8) -> Tally
        requires { me < n }
        ensures { result ≡ record { me = me; total = 0 } }
    {
        Tally { me, total: 0 }
    }
}

impl Process for Tally {
    ghost answers = { λ tally. answers_from tally_reaction adder_after tally };

    fn step(&mut self, alloc: Global, input: &Input) -> Result<Vec<Outgoing>, NoMemory> {
        match input {
            Input::Begin if self.me == 0 => Ok(Vec::new(alloc)),
            Input::Begin => send_one(alloc, Pid(0), &[self.me]),
            Input::Message { from, body } if self.me == 0 => {
                let total = self.total.wrapping_add(u64::from(first_byte(body)));
                let sends = send_one(alloc, *from, &total.to_be_bytes())?;
                self.total = total;
                Ok(sends)
            }
            Input::Message { .. } => Ok(Vec::new(alloc)),
        }
    }

    ghost each = { λ tally. from_each tally_reaction adder_after tally };

    ghost in_order = { λ tally. from_in_order tally_reaction adder_after tally };
}
