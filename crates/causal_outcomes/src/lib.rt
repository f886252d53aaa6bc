//! What a command returns, and the streams that it reads: how it ended, the diagnostic of an invalid trace, and the command
//! `merge`, which explains no verdict.
//!
//! [`Ended`] has the exit status and the message of a command, and an [`Outcome`] also its error; [`diagnostic_text`]
//! describes the error of a trace. [`answer_merge`] is `merge`. [`read_at_most`] reads a bounded text; a [`LastErrorStream`]
//! keeps the error of a failed stream; a [`ChainedStream`] reads streams one after the other.
#![tactic(auto)]

/// Bounded reads: of recorder files, a map, or the text of a script.
pub mod bounded_read;
/// Streams that are read one after the other.
pub mod chained_stream;
/// The first error of an invalid trace, with its diagnostic.
pub mod diagnostic;
/// The diagnostic of an invalid trace, as text.
pub mod diagnostic_texts;
/// How a command ends: its exit status and its message.
pub mod ended;
/// The first bytes of a line, to be shown with an error.
mod excerpt;
/// A stream that keeps its last error.
pub mod last_error_stream;
/// The errors of a map.
pub mod map_fault;
/// The command `merge`.
pub mod merge_command;
/// The outcome of a command on a trace.
pub mod outcome;

pub use bounded_read::{ReadFault, read_at_most};
pub use chained_stream::ChainedStream;
pub use diagnostic::{DiagnosedFault, Diagnostic};
pub use diagnostic_texts::diagnostic_text;
pub use ended::Ended;
pub use last_error_stream::LastErrorStream;
pub use map_fault::MapFault;
pub use merge_command::{Mapping, MergeOutcome, answer_merge};
pub use outcome::Outcome;
