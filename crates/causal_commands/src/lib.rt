//! The commands of the program, over any reader and any writer.
//!
//! Start at [`answer_question`], the commands `audit`, `explain` and `replays`: it answers a [`Question`] on a trace in one
//! of two forms, as lines or as JSON. Each command reads a text, writes one answer and returns an outcome, a [`Outcome`]
//! or a [`MergeOutcome`]. Its [`Ended`] has the exit status and the message; its error is described by
//! [`diagnostic_text`].
//!
//! - [`answer_mapped_reason`] is `explain --map`, and [`answer_drawing`] is `draw`.
//! - [`answer_merge`] is `merge`; `run` is in `causal_runtime_commands`.
//! - [`audit_stream`] is `audit` within the default limits, and returns the ending alone.
//! - [`read_at_most`] reads a bounded text; [`LastErrorStream`] keeps the error of a failed stream; a [`ChainedStream`] reads
//!   streams one after the other.
#![tactic(auto)]

/// The answer to the text of a trace, and its output.
mod answer;
/// The command `draw`.
pub mod drawing;
/// The command `explain --map`.
pub mod mapped_reason;
/// The lines of facts, with the places of their entries.
mod placed_lines;
/// Questions on a trace, and their answers: `audit`, `explain` and `replays`.
pub mod question;
/// The bounds f for which a run is safe.
mod range;
/// The verdict on a trace, with the facts that explain it.
mod reason;
/// Whether the recoveries of a trace follow the determinants that survive.
mod replays;
/// The answer to the text of a trace, before it is printed.
mod response;
/// The audit of a trace by the calling thread alone.
mod serial_audit;
/// The diagnosis of an invalid trace.
mod diagnosis;
/// The command `audit` within the default limits.
pub mod stream;

pub use causal_facts::Form;
pub use drawing::answer_drawing;
pub use mapped_reason::{MappedOutcome, answer_mapped_reason};
pub use question::{Question, StrayDetail, answer_question};
pub use stream::audit_stream;
