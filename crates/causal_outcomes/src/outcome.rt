//! The outcome of a command on a trace.
use crate::ended::Ended;

/// The outcome of a command: how it ended, and the error of its input, if the error's line was written or would have
/// been.
#[derive(Clone, Copy)]
pub struct Outcome<F> {
    pub ended: Ended,
    pub fault: Option<F>,
}
