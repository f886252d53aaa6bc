//! The command `run`.
//!
//! [`answer_script`] reads the text of a script, runs it and writes the trace. Its outcome has the [`Reason`] where there is
//! none, which [`reason_hint`] explains.
#![tactic(auto)]

/// Hints on invalid lines of a script.
pub mod hint;
/// The command `run`.
pub mod script;
/// Reads the text of a script.
pub mod script_reading;

pub use hint::reason_hint;
pub use script::{Reason, ScriptOutcome, answer_script};
pub use script_reading::{MAX_SCRIPT_READ, read_script};
