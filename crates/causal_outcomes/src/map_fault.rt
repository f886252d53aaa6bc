//! Why a map is not that of a trace.
use causal_text::TextKind;
use thiserror::Error;

/// The error of a map.
#[derive(Clone, Copy, Debug, Error)]
pub enum MapFault {
    /// The map exceeds the limit of its text.
    #[error("the map is too long")]
    Big,
    /// The map has not one line for each entry.
    #[error("the map has {lines} lines, and the trace {entries} entries")]
    Length { lines: u64, entries: u32 },
    /// A line is not that of its entry: it has none of the shapes of a line, or the position of another entry.
    #[error("this is not the line of entry {position} of the trace")]
    Entry { position: u32, kind: TextKind },
}
