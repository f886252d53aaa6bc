//! The interface of a process, and the kinds of process that come with the runtime.
//!
//! A process is piecewise deterministic (Elnozahy, Alvisi, Wang, Johnson, "A Survey of Rollback-Recovery Protocols in
//! Message-Passing Systems", ACM Computing Surveys 34(3), 2002): its state and its sends are a function of its initial
//! state and of its inputs, in order. So a process that lost its state recovers by replay: a process in the same
//! initial state, given the same inputs in the same order, sends the same messages.
//!
//! # Writing a process
//!
//! Implement [`Process`]. An implementation must guarantee the following; the proof check rejects one that does not:
//!
//! - The sends of a step are a function of the process's value and of the input alone. A step uses no clock, no
//!   randomness, and no counter, lock or file that others also write.
//! - A step that returns `NoMemory` changes nothing that affects later answers. So do first what can fail, and change
//!   the state last.
//! - A step sends at most eight messages, each of at most 1,024 bytes. The body of a received message may be longer, so
//!   a process that sends one on must check its length.
//! - `answers` defines, for a value of the process and a list of inputs, what the process sends to each of them. It
//!   contains one list of sends for each input, and the answers to a prefix of a list are a prefix of the answers to
//!   the list.
//!
//! Not part of any proof: that a process passed as a spare is in its initial state.
//!
//! Define in `specs/` how the process reacts to one input; the rest follows. The answers of a process without state are
//! `map reaction`. Those of a process with state are `answers_from reaction next`, where `next` is the state after an
//! input. The lemmas of `specs/ReactionLaws.antt` prove the laws of both.
//!
//! # Example
//!
//! A process that returns to each sender the number of its message. Its definitions, a file of `specs/`:
//!
//! ```text
//! -- the number of messages received, after an input; 255 is followed by 0
//! abbrev pub count_after : ℕ → Input → ℕ
//! count_after count Begin = count
//! count_after count (Message from body) = (count + 1) % 2 ^ 8
//!
//! -- the sender of a message gets its number back, as one byte
//! abbrev pub numbering_reaction : ℕ → Input → List Outgoing
//! numbering_reaction count Begin = []
//! numbering_reaction count (Message from body) =
//!     record { to = from; body = count_after count (Message from body) ∷ [] } ∷ []
//! ```
//!
//! Its code:
//!
//! ```text
//! #[derive(Drop)]
//! pub struct Numbering {
//!     pub count: u8,
//! }
//!
//! impl Process for Numbering {
//!     ghost answers = { λ it. answers_from numbering_reaction count_after it.count };
//!
//!     fn step(&mut self, alloc: Global, input: &Input) -> Result<Vec<Outgoing>, NoMemory> {
//!         let Input::Message { from, body: _ } = input else {
//!             return Ok(Vec::new(alloc));
//!         };
//!         let count = self.count.wrapping_add(1);
//!         let body = Body::new(vec![in alloc; count]?);
//!         let sends = vec![in alloc; Outgoing { to: *from, body }]?;
//!         self.count = count;
//!         Ok(sends)
//!     }
//!
//!     ghost each = { λ it. from_each numbering_reaction count_after it.count };
//!
//!     ghost in_order = { λ it. from_in_order numbering_reaction count_after it.count };
//! }
//! ```
//!
//! Both are compiled and proved, with their imports, in `specs/Inside/Example.antt` and in `src/example.rt` of
//! `causal_runtime_testing`.
#![tactic(auto)]

/// The body of a message.
pub mod body;
/// A process wrapper that counts drops.
mod counted;
/// A count that two partners exchange.
mod echo;
/// The inputs of a process and the messages that it sends.
mod message;
/// The interface of a process.
mod process;
/// A count that goes round a ring.
mod ring;
/// The sends of the kinds: one message, or none.
pub mod sending;
/// A list of values of any type.
mod sequence;
/// A sum that depends on the order of its deliveries.
mod tally;

pub use body::{Body, first_byte};
pub use counted::Counted;
pub use echo::Echo;
pub use message::{Input, Outgoing};
pub use process::Process;
pub use ring::Ring;
pub use sending::send_one;
pub use sequence::Sequence;
pub use tally::Tally;
