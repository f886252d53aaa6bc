//! The content of an open handle.
use causal_text::PushReader;
use causal_trace::Trace;
use causal_trace::limits::Limits;

/// The content of an open handle.
#[derive(Drop)]
pub enum HandleContent {
    /// A reader that is fed with the pieces of a text.
    Reader(PushReader),
    /// A trace that is built from entries, with its limits.
    Trace { trace: Trace, limits: Limits },
}
