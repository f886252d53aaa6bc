//! One line of a trace's text: how it is parsed, what it adds to the trace, and its errors.
//!
//! The [`without_line_feed`](line_value::content) of a line is a JSON value, which [`parse_json`](line_value::json_of) parses.
//! [`parse_line`] parses the line as a [`ParsedLine`]: a header, an entry or an end line.
//! [`advance_stage`](stage::after_line) applies it to the lines before. It returns a [`TextKind`] for a line that is
//! malformed or may not follow them. [`fault_detail`] returns the values that explain an error, from the trace of the
//! lines before, and [`sentence`] prints them.
#![tactic(auto)]

/// The first error of a text, with its context.
pub mod text_refusal;
/// Counts of a process's present lane.
pub mod counts;
/// Determinants that no delivery has.
pub mod deliveries;
/// The fields of a line.
pub mod fields;
/// Error kinds.
pub mod kind;
/// The JSON value of a line.
pub mod line_value;
/// Splitting a text into lines.
pub mod lines;
/// A scan of a long line before its JSON tree is built.
pub mod prescan;
/// A trace under construction, whose contracts see only the recording.
pub mod trace_builder;
/// The printed error.
pub mod report;
/// The error message with values.
pub mod sentences;
/// Parsing a line.
pub mod parsed_line;
/// The stage after the lines so far, and the transition by one more line.
pub mod stage;
/// The two versions of the format.
pub mod version;
/// The values that explain an error.
pub mod fault_details;

pub use fault_details::{FaultDetail, fault_detail};
pub use kind::{TextFault, TextKind};
pub use parsed_line::{ParsedLine, parse_line};
pub use report::fault_line;
pub use sentences::sentence;
pub use stage::max_text_len;
pub use text_refusal::{FaultContext, TextRefusal};
pub use version::Version;
