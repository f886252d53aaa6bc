//! Scripts of runs: parsing, and the lines printed for errors and refusals.
//!
//! Begin at [`parse_script`], which returns the [`Script`] that a text spells, or the text's first error.
//! [`script_line`] and [`refused_line`] print an error and a refused command. [`laws`] proves that a text has one
//! reading.
#![tactic(auto)]

/// Parsing of a script's commands.
mod command;
/// A law on texts.
pub mod laws;
/// The printed lines for an error in a script and for a refused command.
mod line;
/// Parsing of a script.
mod parse;
/// The content of a script.
mod script;
/// Parsing of a script's first line.
mod start;
/// Splitting of a line, and parsing of its numbers.
mod tokens;

pub use line::{refused_line, script_line};
pub use parse::parse_script;
pub use script::{Command, Commands, Exploration, Kind, Script, ScriptFault, ScriptFaultKind};
pub use start::MAX_STEPS;
