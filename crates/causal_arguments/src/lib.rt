//! The command line of the program as a value.
//!
//! Start at [`parse_command_line`]. It returns a [`CommandLine`]: a [`Subcommand`] with its options, the files that it reads,
//! and the file of a map. Where the arguments request no command, it has printed why, and an [`EarlyExit`] tells how the
//! program ends.
#![tactic(auto)]

/// Reads the arguments, and prints why they request no command.
mod arguments;
/// The help of each command after its options.
mod help_text;
/// The options of each command.
mod options;
/// What a command line requests.
pub mod subcommand;
/// Takes a command with its options from what `clap` has matched.
mod values;

pub use arguments::{BAD_USAGE, EarlyExit, parse_command_line};
pub use subcommand::{CommandLine, Subcommand, Until};
