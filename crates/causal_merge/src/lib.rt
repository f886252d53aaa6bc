//! Merges the recorder files of the processes of one run into one trace.
//!
//! Start at [`merge_text`]: it reads the lines of all files, in any order, and returns the trace or the first error;
//! [`merge_fault_line`] returns the line that prints the error. [`merge_within`] merges within limits that the caller sets,
//! and [`max_input_len`] returns the maximum size of recorder files for them. [`RecordingReader`] reads the files part by
//! part, and [`parse_recordings`] parses the lines of a part before their turn, so that several threads can share that
//! work.
#![tactic(auto)]

/// The content of a line.
mod event;
/// The errors of recorder files.
pub mod fault;
/// The values that explain an error.
pub mod fault_details;
/// The content of the lines read so far.
mod parsed_files;
/// Error messages, and possible causes.
mod hint;
/// The maximum size of recorder files.
pub mod limits;
/// Laws of torn lines.
pub mod laws;
/// The files of the input.
pub mod input_files;
/// Parses the bytes of a line.
mod line_parser;
/// The lines of a map.
pub mod map;
/// The map of a merged trace, with all its lines.
pub mod map_lines;
/// Merges recorder files into a trace.
pub mod merge;
/// Converts events in the merge order to entries.
mod merger;
/// The merge order of events.
mod order;
/// Where the entries of a merged trace come from.
pub mod origins;
/// A chunk of recorder files whose lines are parsed before their turn.
pub mod recorder_chunk;
/// A reader of recorder files in parts.
pub mod recording_reader;
/// The printed line of an error.
pub mod report;
/// The error message with values.
pub mod sentences;
/// The position of each send.
pub mod sends;
/// Blank and torn lines.
mod torn_lines;
/// The JSON value of a line.
mod value;

pub use fault::{MergeFault, MergeKind};
pub use fault_details::MergeDetail;
pub use input_files::InputFile;
pub use limits::max_input_len;
pub use map::{map_line, quoted_name, read_place};
pub use map_lines::map_text;
pub use merge::{MappedTrace, MergedTrace, merge_mapped, merge_text, merge_within};
pub use origins::Origin;
pub use recorder_chunk::{RecorderChunk, parse_recordings};
pub use recording_reader::RecordingReader;
pub use report::merge_fault_line;
pub use sends::SendName;
pub use sentences::merge_sentence;
