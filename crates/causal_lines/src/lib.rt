//! The text of a trace, line by line: a reader of lines, and the writer of the canonical text.
//!
//! A [`LineReader`] reads one line after another, and returns the trace after the end line. [`text_of`] and
//! [`write_trace`] write the canonical text, [`write_whole`] any bytes.
#![tactic(auto)]

/// The reader of lines.
pub mod line_reader;
/// The writer of the canonical text.
pub mod writer;
/// Writing all bytes to a writer that may accept fewer in a call.
pub mod writing;

pub use line_reader::LineReader;
pub use writer::{text_of, write_trace};
pub use writing::{WriteCause, WriteFault, write_whole};
