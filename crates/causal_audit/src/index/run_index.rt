//! The index of a run.
use crate::index::mentions::Mentions;
use crate::index::transitions::Transitions;

/// The index of a run: its crashes and restarts, and the mentions of each determinant before an instant. The trace is
/// not copied.
#[derive(Drop)]
pub struct RunIndex {
    pub transitions: Transitions,
    pub mentions: Mentions,
}
