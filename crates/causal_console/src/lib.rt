//! What the program reads and prints beside its answers: the files of a command line, and standard error.
//!
//! [`open_sources`] opens the files; each is a [`TrackedStream`], which keeps what was read last. [`InputNames`] names their
//! lines in messages. [`print_trace_outcome`], [`print_map_fault`], [`print_merge_diagnostics`] and [`print_script_fault`] print
//! what is wrong there. A [`ProgressStream`] prints how far a long read is; a [`MapFile`] is the file of a map, and
//! [`write_map`] writes one. [`print_ending`] prints why no answer was written whole, and [`exit_code_of`] returns the exit code.
#![tactic(auto)]

/// Messages on the input of a command, for standard error.
mod diagnostics;
/// How the program ends.
mod ending;
/// What standard error adds to the message of an error.
mod hints;
/// The file of a map.
pub mod map_file;
/// Messages on recorder files for standard error.
mod merge_diagnostics;
/// The place of a line of the input.
pub mod place;
/// A stream that prints the progress of a long read on a terminal.
pub mod progress;
/// Messages on a script, for standard error.
mod script_diagnostics;
/// The shapes of lines, as messages show them.
mod shapes;
/// What a command line names: files, and standard input.
pub mod source;
/// A stream that counts its lines and keeps what was read last.
pub mod tracked_stream;

pub use diagnostics::{print_map_fault, print_trace_outcome};
pub use ending::{
    exit_before_replacing, exit_code_of, exit_early, exit_unopened, print_ending,
    print_stream_ending,
};
pub use map_file::{MapFile, replaced_input, write_map};
pub use merge_diagnostics::print_merge_diagnostics;
pub use place::{InputNames, file_name};
pub use progress::ProgressStream;
pub use script_diagnostics::{print_pending, print_script_fault};
pub use source::{OpenFault, Sources, is_standard_input, open_sources};
pub use tracked_stream::TrackedStream;
