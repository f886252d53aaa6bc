//! Why recorder files cannot be merged.
use crate::fault_details::MergeDetail;
use causal_holders::ByteSet;
use causal_line::kind::TextKind;
use std::fmt;
use thiserror::Error;

/// What is wrong with recorder files. An error of a line has its kind from a trace's text, if the meaning is the same.
#[derive(Clone, Copy, Debug, PartialEq, Eq, Error)]
pub enum MergeKind {
    /// Some process of the run, or every process, has no header. The error's line is the one after the last.
    NoHeader {
        /// The processes of the run that have none; empty if there is no header at all.
        missing: ByteSet,
    },
    /// The previous event in the merge order has the same clock and process.
    Twice,
    /// An error as in the text of a trace. `Header` is a header that differs from the first one.
    Line(TextKind),
}

impl fmt::Display for MergeKind {
    fn fmt<W: fmt::Write>(&self, f: &mut fmt::Formatter<W>) -> fmt::Result {
        f.write_str(self.sentence())
    }
}

/// Why recorder files cannot be merged: a line of the input, counted from 1, what is wrong with it, and the values that
/// explain that.
#[derive(Clone, Copy, Debug, PartialEq, Eq, Error)]
#[error("line {line}: {kind}")]
pub struct MergeFault {
    pub line: u32,
    pub kind: MergeKind,
    /// None if the kind is enough.
    pub detail: Option<MergeDetail>,
}
