//! The text of a trace: JSON lines, one for the header, one for each entry and one for the end.
//!
//! A text spells one trace, or it has one first error: that of its first faulty line. If several kinds apply to the
//! line, the first in the order of [`TextKind`] is returned.
//!
//! Start at [`read_trace`] for a text in memory, or at [`read_from`] for a byte source. [`TraceReader`] reads a
//! source one piece at a time, and [`PushReader`] the parts that its caller passes; it lends the trace so far.
//! [`read_within`] reads a source within the caller's limits, and returns an error with its context, as [`PushReader`]
//! does. [`parse_chunk`] parses the lines of a part of a text before their turn, so that several threads can share that
//! work. From a context, [`fault_detail`] returns the values that explain the error,
//! and [`sentence`] prints them. [`text_of`] and [`write_trace`] write the canonical text, [`write_whole`] any bytes.
//! [`laws`] states that reading is unique.
//!
//! The parsing of one line is in `causal_line`, the reader of lines in `causal_lines`; their public calls are
//! re-exported here.
#![tactic(auto)]

/// A chunk of a text whose lines are parsed before their turn.
pub mod parsed_chunk;
/// A reader of pieces that the caller passes.
pub mod push_reader;
/// Reading with the context of an error.
pub mod context_reading;
/// Laws: reading is unique, and the canonical text is read back.
pub mod laws;
/// Reading a text in memory.
pub mod reader;
/// Reading a text from a byte source, in pieces.
pub mod stream;

pub use causal_line::{
    FaultContext, FaultDetail, ParsedLine, TextFault, TextKind, TextRefusal, fault_detail,
    fault_details, fault_line, fields, kind, line_value, lines, max_text_len, parsed_line, prescan,
    report, sentence, sentences, text_refusal,
};
pub use causal_lines::{
    WriteCause, WriteFault, text_of, write_trace, write_whole, writer, writing,
};
pub use context_reading::{ReadError, read_within};
pub use parsed_chunk::{ParsedChunk, parse_chunk};
pub use push_reader::PushReader;
pub use reader::read_trace;
pub use stream::{Progress, ReaderFault, TraceReader, read_from};
