//! The volatile log of determinants of each process, the piggyback of its messages, and stable storage.
//!
//! In causal message logging a process adds to each message the determinants that it knows of and that are not yet
//! known to be safe (Alvisi and Marzullo, "Message Logging: Pessimistic, Optimistic, Causal, and Optimal", IEEE TSE
//! 24(2), 1998). Here a determinant is known to be safe once it is known to be in stable storage, or more than f
//! processes are known to hold it.
//!
//! # A delivery
//!
//! All calls that may fail come before the process's step; the call that changes the log comes after it and cannot
//! fail:
//!
//! 1. `Log::choose_after_delivery` returns what the messages of the step will carry, and leaves the log unchanged.
//! 2. `Log::reserve` reserves capacity for the determinants of the message's batch and for the delivery's own.
//! 3. Once the process has stepped, `Log::apply_delivery` adds both in the reserved capacity, and `Log::cache_batch`
//!    caches what messages then carry.
//!
//! A process whose sends may be refused needs no batch before it sends: `Log::absorb` and `Log::add_own` add a delivery,
//! and `Log::choose` chooses at the next send, from the cached batch and what has changed since.
//!
//! [`Stable`] is what an implementation of a store must guarantee; the README shows how to write one.
#![tactic(auto)]

/// The piggyback of a message.
mod batch;
/// What messages carried when it was last chosen.
mod cached_batch;
/// What messages carry after some determinants have changed.
mod changed_batch;
/// How the keys of a log's entries are hashed.
mod hashing;
/// What a process knows of a determinant.
mod known;
/// Laws of logs, piggybacks and stable storage.
pub mod laws;
/// The limit of a log.
mod limits;
/// The volatile log of a process.
mod log;
/// Stable storage in memory, for programs that need no device.
mod memory;
/// What messages carry after a delivery, computed without changing the log.
mod next_batch_merge;
/// Stable storage.
mod stable;
/// Log entries in insertion order, found by the slot of their determinant.
mod table;

pub use batch::{Batch, Item};
pub use known::Known;
pub use limits::MAX_LOGGED;
pub use log::Log;
pub use memory::MemStable;
pub use stable::{PutFault, Stable};
