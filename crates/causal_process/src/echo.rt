//! A process that exchanges a count with its partner; each message lowers it by one.
use crate::body::first_byte;
use crate::message::{Input, Outgoing};
use crate::process::Process;
use crate::sending::{send_countdown, send_one};
use causal_name::{NoMemory, Pid};
use std::alloc::Global;
use std::marker::Model;

/// One of two partners, among n processes. The partner of an even number is the next number; of an odd number, the
/// previous one. When a process begins, it sends its count to its partner as one byte, if the partner's number is below
/// n. A process that receives a count above 0, as the first byte of a body, sends the count less 1 back to the sender.
/// An empty body counts as 0.
#[derive(Drop)]
pub struct Echo {
    n: u16,
    me: u8,
    rounds: u8,
}

impl Model for Echo {
    ghost use Rattle.causal_process.specs.Kinds.{Member};

    ghost Value = { Member };

    ghost view = { λ echo. record { n = echo.n; me = echo.me; start = echo.rounds } };
}

impl Echo {
    ghost use Rattle.std.specs.Prelude.{◌≡◌, ◌<◌};
    ghost use Rattle.causal_process.specs.Kinds.{partner_of};

    /// Returns process `me`, 0 to n - 1, of n processes, with the initial count `rounds`.
    pub fn new(n: u16, me: u8, rounds: u8) -> Echo
        requires { me < n }
        ensures { result ≡ record { n = n; me = me; start = rounds } }
    {
        Echo { n, me, rounds }
    }

    // Returns the partner's number, which may not be a process of the run.
    fn partner(&self) -> u8
        ensures { result ≡ partner_of self.now.me }
    {
        if self.me % 2 == 0 {
            self.me + 1
        } else {
            self.me - 1
        }
    }
}

impl Process for Echo {
    ghost use Rattle.std.specs.Prelude.{List, map};
    ghost use Rattle.causal_process.specs.declared.message.Input.{Input};
    ghost use Rattle.causal_process.specs.Kinds.{echo_reaction};
    ghost use Rattle.causal_process.specs.ReactionLaws.{map_each, map_in_order};

    ghost answers = { λ echo. map (echo_reaction echo) };

    fn step(&mut self, alloc: Global, input: &Input) -> Result<Vec<Outgoing>, NoMemory> {
        match input {
            Input::Begin => {
                let partner = self.partner();
                if u16::from(partner) < self.n {
                    send_one(alloc, Pid(partner), &[self.rounds])
                } else {
                    Ok(Vec::new(alloc))
                }
            }
            Input::Message { from, body } => send_countdown(alloc, *from, first_byte(body)),
        }
    }

    ghost each = { λ echo. map_each (echo_reaction echo) };

    ghost in_order = { λ echo. map_in_order (echo_reaction echo) };
}
