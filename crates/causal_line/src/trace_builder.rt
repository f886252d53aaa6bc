//! A trace under construction. Its contracts see only the recording, which the lines of a text determine.
ghost use Rattle.std.specs.Prelude.{◌≡◌, length, None, IfOk, IfErr, OnOk, OnErr};
ghost use Rattle.causal_trace.specs.Limits.{IsProcessCount};
ghost use Rattle.causal_trace.specs.Rows.{fault_within, refusal_within, returned_entry, IsNewRefusal, IsWellFormed};
ghost use Rattle.causal_trace.specs.State.{with_entry};
ghost use Rattle.causal_line.specs.Stages.{empty_recording};

use causal_trace::entry::Entry;
use causal_trace::fault::{RefusedEntry, TraceFault};
use causal_trace::limits::Limits;
use causal_trace::trace::Trace;
use std::alloc::Global;
use std::marker::Model;

/// A trace that is being read. It is boxed, since each line moves it.
#[derive(Drop)]
pub struct TraceBuilder {
    trace: Box<Trace>,
}

impl Model for TraceBuilder {
    ghost use Rattle.causal_trace.specs.Rows.{Recording};

    ghost Value = { Recording };

    ghost view = { λ a. a.trace.value.recording };
}

impl TraceBuilder {
    /// Returns a trace of n processes with no entries.
    pub fn new(alloc: Global, n: u16) -> Result<TraceBuilder, TraceFault>
        ensures ok { IfOk result (λ r. IsProcessCount n × (r ≡ empty_recording n)) }
        ensures refused { IfErr result (IsNewRefusal n) }
    {
        let trace = Trace::new(alloc, n)?;
        Ok(TraceBuilder {
            trace: Box::new(alloc, trace)?,
        })
    }

    /// Appends the entry if it is legal within the limits. Otherwise the recording is unchanged, and the error
    /// contains the entry unless an allocation failed.
    pub fn try_push(&mut self, limits: Limits, entry: Entry) -> Result<(), RefusedEntry>
        ensures legal { OnOk result (fault_within limits.entries self.old entry ≡ None) }
        ensures ok { OnOk result (self.new ≡ with_entry self.old entry) }
        ensures refused { IfErr result
            (λ refused. refused.fault ≡ refusal_within limits.entries self.old entry) }
        ensures returned { IfErr result (λ refused. refused.entry ≡
            returned_entry limits.entries self.old entry) }
        ensures unchanged { OnErr result (self.new ≡ self.old) }
    {
        self.trace.try_push(limits, entry)
    }

    /// Returns the number of entries.
    pub fn len(&self) -> u32
        ensures length { result ≡ length self.now.past }
        ensures formed { IsWellFormed self.now }
    {
        self.trace.len()
    }

    /// Returns the trace so far.
    pub fn trace(&self) -> &Trace
        ensures { result.now.recording ≡ self.now }
    {
        &self.trace
    }

    /// Returns the trace.
    pub fn into_trace(self) -> Trace
        ensures { result.recording ≡ self }
    {
        Box::into_inner(self.trace)
    }
}
