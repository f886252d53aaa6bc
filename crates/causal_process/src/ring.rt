//! A process of a ring, round which a count goes; each process lowers it by one.
use crate::body::first_byte;
use crate::message::{Input, Outgoing};
use crate::process::Process;
use crate::sending::{send_countdown, send_one};
use causal_name::{NoMemory, Pid};
use std::alloc::Global;
use std::marker::Model;

/// One process of a ring of n. When the processes begin, process 0 sends its count to the next one, as one byte. A
/// process that receives a count above 0, as the first byte of a body, sends the count less 1 to the next one. An empty
/// body counts as 0.
///
/// The process after `me` is `(me + 1) % n`. A process number is a byte, so a ring of more than 256 closes at 256.
#[derive(Drop)]
pub struct Ring {
    n: u16,
    me: u8,
    hops: u8,
}

impl Model for Ring {
    ghost use Rattle.std.specs.Prelude.{◌<◌};
    ghost use Rattle.causal_process.specs.Kinds.{Member};

    ghost Value = { Member };

    ghost view = { λ ring. record { n = ring.n; me = ring.me; start = ring.hops } };

    ghost invariant = { λ ring. ring.me < ring.n };
}

impl Ring {
    ghost use Rattle.causal_process.specs.Kinds.{next_in_ring};
    ghost use Rattle.std.specs.Prelude.{◌≡◌, ◌<◌};

    /// Returns process `me`, 0 to n - 1, of a ring of n. Process 0 starts the count at `hops`; the others start none.
    pub fn new(n: u16, me: u8, hops: u8) -> Ring
        requires { me < n }
        ensures { result ≡ record { n = n; me = me; start = hops } }
    {
        Ring { n, me, hops }
    }

    // Returns the next process of the ring.
    fn next(&self) -> Pid
        ensures { result ≡ next_in_ring self.now }
    {
        let next = (u16::from(self.me) + 1) % self.n.min(256);
        Pid(next as u8)
    }
}

impl Process for Ring {
    ghost use Rattle.causal_process.specs.Kinds.{ring_reaction};
    ghost use Rattle.causal_process.specs.ReactionLaws.{map_each, map_in_order};
    ghost use Rattle.causal_process.specs.declared.message.Input.{Input};
    ghost use Rattle.std.specs.Prelude.{List, map};

    ghost answers = { λ ring. map (ring_reaction ring) };

    fn step(&mut self, alloc: Global, input: &Input) -> Result<Vec<Outgoing>, NoMemory> {
        match input {
            Input::Begin if self.me == 0 => send_one(alloc, self.next(), &[self.hops]),
            Input::Begin => Ok(Vec::new(alloc)),
            Input::Message { from: _, body } => {
                send_countdown(alloc, self.next(), first_byte(body))
            }
        }
    }

    ghost each = { λ ring. map_each (ring_reaction ring) };

    ghost in_order = { λ ring. map_in_order (ring_reaction ring) };
}
