//! A runtime for processes with causal message logging. It delivers messages, crashes and restarts processes, writes
//! determinants to stable storage, and records every step in a trace. The trace is safe for the runtime's bound f on
//! failures.
//!
//! Start at [`Core`]: `Core::start` takes processes in boxes and a store; then come `deliver`, `crash`, `restart`,
//! `replay`, `flush` and `forget`. `Core::pending` and `Core::naming` return what may be delivered next; `Core::trace`
//! returns the recorded trace, and its contract states the safety.
// A large value that a path no longer needs is passed to `drop`: a proof then reads one call in place of the drops of its
// fields.
#![tactic(auto)]

/// The boxes of the up processes, in slots.
mod boxes;
/// Recording of a delivery and its sends, after the box has stepped.
mod delivery_recording;
/// The number of determinants that a restart lists, counted without allocation.
mod gathered_count;
/// The run data of a core: the trace, and the memory of each process.
pub mod run_data;
/// Flush and forget, on the run data.
mod run_data_flush;
/// Restart, on the run data.
mod run_data_restart;
/// The start of the processes, on the run data.
mod run_data_start;
/// The set of the down processes.
pub mod down_processes;
/// Flush: determinants of a log become stable.
pub mod flush;
/// Forget: stable determinants leave a log.
pub mod forget;
/// The log that a restart gathers.
mod gather;
/// A box steps with a kept message, without a copy of its body.
mod message_step;
/// Laws over the definitions.
pub mod laws;
/// The messages that a process may deliver.
pub mod pending;
/// The deliver entry of a step, and what the receiver learns by it.
mod receipt;
/// The cache of the last gathered log.
pub mod gather_cache;
/// Replay: deliveries of the named messages, one after the other.
pub mod replay;
/// Restart of a down process.
pub mod restart;
/// The runtime: processes in boxes, the recorded run, and stable storage.
pub mod runtime;
/// Look-ups in the memories of the processes.
mod memory_lookup;
/// The sends of a step.
mod sends;
/// The start of a core.
pub mod start;

pub use causal_protocol::request::{CoreFault, Delivered, FlushFault, Reply, Request, Restarted};
pub use restart::Refused;
pub use runtime::Core;
pub use start::StartFault;
