//! The facts that explain a verdict on a recorded run, and its picture. Begin at [`facts_of`] and [`picture_with_verdict`].
#![tactic(auto)]

/// The space-time diagram of a trace, with its verdict.
pub mod drawing;
/// The event at a position of a trace.
mod event;
/// The facts that explain the verdict on a trace.
pub mod facts;
/// The text that explains a verdict on a trace.
pub mod reason;
/// The facts of the first stray of a run.
pub mod strays;
/// Who has the determinant of a delivery at an instant.
mod survivors;

pub use drawing::{picture_with_verdict, selected_picture_with_verdict};
pub use facts::facts_of;
pub use reason::line_with_reason;
pub use strays::survivor_facts;
