//! The parts of the index of a recorded run, which several threads can build at the same time.
ghost use Rattle.std.specs.Prelude.{◌≡◌, ◌≤◌, IfOk, length};
ghost use Rattle.causal_audit.specs.Searches.{search_scope};

use crate::index::effects::effects_of;
use crate::index::mentions::{Mentions, mentions_in};
use crate::index::transitions::Transitions;
use causal_holders::Holders;
use causal_name::NoMemory;
use causal_trace::trace::Trace;
use std::alloc::Global;
use std::marker::Model;
use std::snapshot::Snapshot;

/// The crashes and restarts of the whole run. It contains no copy of the trace. The model is the run.
#[derive(Drop)]
pub struct TransitionIndex {
    pub(crate) run: Snapshot<Trace>,
    pub(crate) transitions: Transitions,
}

impl Model for TransitionIndex {
    ghost use Rattle.causal_trace.specs.Rows.{Recording};
    ghost use Rattle.causal_audit.specs.Inside.Index.Parts.{IsTransitionPart};

    ghost Value = { Recording };

    ghost view = { λ a. a.run.value.recording };

    ghost invariant = { λ a. IsTransitionPart a.run.value.recording a.transitions };
}

impl TransitionIndex {
    /// Indexes a trace. Takes O(entries) time.
    ///
    /// # Errors
    /// `NoMemory` if allocation fails.
    pub fn of(alloc: Global, trace: &Trace) -> Result<TransitionIndex, NoMemory>
        ensures { IfOk result (λ index. index ≡ trace.now.recording) }
    {
        let entries = trace.entries();
        let transitions = Transitions::of(alloc, entries)?;
        Ok(TransitionIndex {
            run: Snapshot::of(trace),
            transitions,
        })
    }
}

/// When the effect of each event of the whole run first leaves its process, and which processes the events of each reach.
/// It contains no copy of the trace. The model is the run.
#[derive(Drop)]
pub struct EffectIndex {
    pub(crate) run: Snapshot<Trace>,
    pub(crate) departures: Vec<u32>,
    pub(crate) reached: Vec<Holders>,
}

impl Model for EffectIndex {
    ghost use Rattle.causal_trace.specs.Rows.{Recording};
    ghost use Rattle.causal_audit.specs.Inside.Index.Parts.{IsEffectPart};

    ghost Value = { Recording };

    ghost view = { λ a. a.run.value.recording };

    ghost invariant = { λ a. IsEffectPart a.run.value.recording a.departures.items a.reached.items };
}

impl EffectIndex {
    /// Indexes a trace. Takes O(entries) time, and 4 bytes for each entry.
    ///
    /// # Errors
    /// `NoMemory` if allocation fails.
    pub fn of(alloc: Global, trace: &Trace) -> Result<EffectIndex, NoMemory>
        ensures { IfOk result (λ index. index ≡ trace.now.recording) }
    {
        let entries = trace.entries();
        let (departures, reached) = effects_of(alloc, entries)?;
        Ok(EffectIndex {
            run: Snapshot::of(trace),
            departures,
            reached,
        })
    }
}

/// The mentions of each determinant before the instant `end`, for the audit for f up to it. It contains no copy of the
/// trace. The model is the scope of the search: the run, f and `end`.
#[derive(Drop)]
pub struct PrefixIndex {
    pub(crate) run: Snapshot<Trace>,
    pub(crate) mentions: Mentions,
    pub(crate) f: u16,
    pub(crate) end: u32,
}

impl Model for PrefixIndex {
    ghost use Rattle.causal_audit.specs.Searches.{SearchScope};
    ghost use Rattle.causal_audit.specs.Inside.Index.Parts.{IsPrefixIndex};

    ghost Value = { SearchScope };

    ghost view = { λ a. record { run = a.run.value.recording; f = a.f; end = a.end } };

    ghost invariant = { λ a. IsPrefixIndex a.run.value.recording a.end a.mentions };
}

impl PrefixIndex {
    /// Indexes the entries of a trace before the instant `end`, which is at most its length. Takes O(entries + listed
    /// determinants) time and memory.
    ///
    /// # Errors
    /// `NoMemory` if allocation fails.
    pub fn of(alloc: Global, trace: &Trace, f: u16, end: u32) -> Result<PrefixIndex, NoMemory>
        requires { end ≤ length trace.now.recording.past }
        ensures { IfOk result (λ index. index ≡ search_scope trace.now.recording f end) }
    {
        let mentions = mentions_in(alloc, trace, end)?;
        Ok(PrefixIndex {
            run: Snapshot::of(trace),
            mentions,
            f,
            end,
        })
    }
}
