//! A trace with its crashes and restarts.
ghost use Rattle.causal_audit.specs.Inside.Index.RunIndexes.{IsTransitionIndex};
ghost use Rattle.causal_audit.specs.Inside.Index.IndexedTraces.{IsTransitionIndex-prop};

use crate::index::transitions::Transitions;
use causal_trace::trace::Trace;

/// A trace with its crashes and restarts. They give the down processes at an instant, and the position from which no
/// process is released.
#[derive(Clone, Copy)]
pub struct IndexedTrace<'a> {
    pub trace: &'a Trace,
    pub transitions: &'a Transitions,
    ghost turned: { IsTransitionIndex trace.now.recording.past transitions.now } by { IsTransitionIndex-prop _ transitions.now },
}
