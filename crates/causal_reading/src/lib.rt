//! Reading by several workers: they parse lines, and the calling thread checks them in order.
//!
//! [`read_by`] returns the trace that the bytes of a source spell, [`read_trace_by`] that of a text in memory, and
//! [`merge_by`] the trace merged from recorder files. A line is parsed without those before it, so this part of the work,
//! most of it, is divided; whether a line may follow the others is decided in order.
#![tactic(auto)]

/// The lengths of chunks.
mod chunks;
/// Merging recorder files.
pub mod merging;
/// Reading chunks while other workers parse them.
mod readers;
/// Reading from a byte source or a text in memory.
pub mod reading;
/// The chunks of recorder files.
mod recorded_chunks;
/// A chunk of a text, which any worker parses.
mod shared_chunk;
/// The chunks of a text, which several workers share.
mod shared_chunks;

pub use merging::{merge_by, merge_mapped_by};
pub use reading::{read_by, read_trace_by};
