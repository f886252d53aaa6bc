//! Converts events in the merge order to the entries of a trace.
ghost use Rattle.std.specs.Prelude.{◌≡◌, ◌≢◌, ◌∷◌, [], ℕ, List, length, Some, None, Ok, IfOk, OnOk, IfSome, IfErr, reverse, option_map, unwrap_or};
ghost use Rattle.causal_trace.specs.declared.entry.Entry.{Entry};
ghost use Rattle.causal_trace.specs.declared.fault.TraceFault.{TraceFault};
ghost use Rattle.causal_trace.specs.Limits.{IsProcessCount};
ghost use Rattle.causal_trace.specs.Rows.{fault_within};
ghost use Rattle.causal_trace.specs.State.{with_entry};
ghost use Rattle.causal_line.specs.Kinds.{text_kind_of};
ghost use Rattle.causal_merge.specs.declared.event.EventAtLine.{EventAtLine};
ghost use Rattle.causal_merge.specs.EventMerge.{has_processes, send_position, event_entry, event_fault_before_push, event_fault, event_detail, merge_events_of};
ghost use Rattle.causal_merge.specs.FaultDetails.{name_of, merge_detail_of};
ghost use Rattle.causal_merge.specs.Inside.Sends.{IsSendsOf};
ghost use Rattle.causal_merge.specs.Inside.Merger.{HasMerged, IsFaultOfEvents, newest, is_newest};

use crate::event::{Action, EventAtLine, RecordedEvent};
use crate::fault::{MergeFault, MergeKind};
use crate::fault_details::{MergeDetail, line_detail};
use crate::sends::{SendName, Sends};
use causal_line::kind::TextKind;
use causal_name::Pid;
use causal_trace::entry::Entry;
use causal_trace::fault::RefusedEntry;
use causal_trace::limits::Limits;
use causal_trace::trace::Trace;
use std::alloc::Global;

/// Why an event is refused, and the values that explain that.
#[derive(Clone, Copy)]
pub(crate) struct EventFault {
    kind: MergeKind,
    detail: Option<MergeDetail>,
}

/// Returns the error of a refused entry, where `trace` has the entries before, and `name` is the send that a delivery
/// names.
fn entry_fault(trace: &Trace, refused: RefusedEntry, name: Option<SendName>) -> EventFault
    ensures kind { result.kind ≡ MergeKind.Line (text_kind_of refused.fault) }
    ensures detail { (e : Entry) → refused.entry ≡ Some e → result.detail
        ≡ merge_detail_of result.kind trace.now.recording.past e name }
{
    let kind = TextKind::from(refused.fault);
    let detail = match &refused.entry {
        Some(entry) => line_detail(kind, trace, entry, name),
        None => None,
    };
    EventFault {
        kind: MergeKind::Line(kind),
        detail,
    }
}

/// Returns the send that a delivery names; None for another event.
fn name_of(act: &Action) -> Option<SendName>
    ensures { result ≡ name_of act.now }
{
    match act {
        Action::Deliver {
            source,
            lane,
            ssn,
            ..
        } => Some(SendName {
            source: *source,
            lane: *lane,
            ssn: *ssn,
        }),
        _ => None,
    }
}

/// The trace of the events so far, the position of each send, and the clock and process of the newest event.
#[derive(Drop)]
pub(crate) struct Merger {
    trace: Trace,
    sends: Sends,
    last: Option<(u64, Pid)>,
}

impl Merger {
    /// Starts without events.
    pub(crate) fn new(alloc: Global, processes: u16) -> Result<Merger, TextKind>
        requires { IsProcessCount processes }
        ensures ok { IfOk result (λ m. ((most : ℕ) → HasMerged most m [])
            × (m.trace.recording.processes ≡ processes)) }
        ensures err { IfErr result (λ kind. kind ≡ TextKind.NoMemory) }
    {
        Ok(Merger {
            trace: Trace::new(alloc, processes)?,
            sends: Sends::new(alloc),
            last: None,
        })
    }

    // whether the newest event has the clock and the process of the next one
    fn is_duplicate(&self, event: &RecordedEvent) -> bool
        ensures { result ≡ is_newest self.now.last event.now }
    {
        match self.last {
            Some((clock, process)) => clock == event.clock && process.0 == event.process.0,
            None => false,
        }
    }

    // whether each process that an event names is in the run
    fn has_processes(&self, event: &RecordedEvent) -> bool
        ensures { result ≡ has_processes self.now.trace.recording.processes event.now }
    {
        let n = self.trace.processes();
        let other = match &event.act {
            Action::Send { to, .. } => u16::from(to.0) < n,
            Action::Deliver { source, .. } => u16::from(source.0) < n,
            _ => true,
        };
        u16::from(event.process.0) < n && other
    }

    // the first error of the next event that does not depend on its entry
    fn event_fault_before_push(&self, limits: Limits, event: &RecordedEvent) -> Option<MergeKind>
        ensures plain { IfSome result (λ kind. event_detail kind self.now.trace.recording.past event.now
            ≡ None) }
        ensures value { (before : List EventAtLine) → self.now.last ≡ newest before
            → result ≡ event_fault_before_push limits.entries self.now.trace.recording.processes before
            self.now.trace.recording.past event.now }
    {
        if self.is_duplicate(event) {
            return Some(MergeKind::Twice);
        }
        if self.trace.exceeds(limits, event.act.listed_count()) {
            return Some(MergeKind::Line(TextKind::TooLong));
        }
        if !self.has_processes(event) {
            return Some(MergeKind::Line(TextKind::NoProcess));
        }
        None
    }

    // the position of a send, or that of the next entry if the send is missing
    fn send_position(&self, name: SendName) -> u32
        ensures { IsSendsOf self.now.sends self.now.trace.recording.past → result
            ≡ unwrap_or (send_position self.now.trace.recording.past name)
            (length self.now.trace.recording.past) }
    {
        self.sends.position(name).unwrap_or(self.trace.len())
    }

    // the entry for the next event
    fn event_entry(&self, process: Pid, act: Action) -> Entry
        ensures { IsSendsOf self.now.sends self.now.trace.recording.past
            → result ≡ event_entry self.now.trace.recording.past process act }
    {
        match act {
            Action::Send { to, ssn } => Entry::Send {
                from: process,
                to,
                ssn,
            },
            Action::Deliver {
                source,
                lane,
                ssn,
                rsn,
                listed,
            } => Entry::Deliver {
                to: process,
                send: self.send_position(SendName { source, lane, ssn }),
                rsn,
                listed,
            },
            Action::Stable { det } => Entry::Stable { det },
            Action::Crash => Entry::Crash { who: process },
            Action::Restart { listed } => Entry::Restart {
                who: process,
                listed,
            },
            Action::Forget { listed } => Entry::Forget {
                who: process,
                listed,
            },
        }
    }

    // appends an entry, unless the trace refuses it; `name` is the send that a delivery names
    fn push(
        &mut self,
        limits: Limits,
        entry: Entry,
        name: Option<SendName>,
    ) -> Result<(), EventFault>
        ensures legal { OnOk result
            (fault_within limits.entries self.old.trace.recording entry ≡ None) }
        ensures ok { OnOk result
            (self.new.trace.recording ≡ with_entry self.old.trace.recording entry) }
        ensures sends { OnOk result (IsSendsOf self.old.sends self.old.trace.recording.past
            → IsSendsOf self.new.sends self.new.trace.recording.past) }
        ensures err { IfErr result (λ refused. refused.kind ≢ MergeKind.Line TextKind.NoMemory
            → option_map (λ f. MergeKind.Line (text_kind_of f))
            (fault_within limits.entries self.old.trace.recording entry) ≡ Some refused.kind) }
        ensures detail { IfErr result (λ refused. refused.kind ≢ MergeKind.Line TextKind.NoMemory
            → refused.detail ≡ merge_detail_of refused.kind self.old.trace.recording.past entry name) }
    {
        if let Err(kind) = self.sends.note(&entry, self.trace.len()) {
            return Err(EventFault {
                kind: MergeKind::Line(kind),
                detail: None,
            });
        }
        match self.trace.try_push(limits, entry) {
            Ok(()) => Ok(()),
            Err(refused) => Err(entry_fault(&self.trace, refused, name)),
        }
    }

    // merges the next event, unless it has an error
    fn push_event(&mut self, limits: Limits, event: RecordedEvent) -> Result<(), EventFault>
        ensures ok { OnOk result ((before : List EventAtLine) (line : ℕ)
            → HasMerged limits.entries self.old before
            → HasMerged limits.entries self.new (record { line = line; event = event } ∷ before)) }
        ensures err { IfErr result (λ refused. refused.kind ≢ MergeKind.Line TextKind.NoMemory
            → (before : List EventAtLine) → HasMerged limits.entries self.old before
            → event_fault limits.entries self.old.trace.recording.processes before
            self.old.trace.recording.past event ≡ Some refused.kind) }
        ensures detail { IfErr result (λ refused. refused.kind ≢ MergeKind.Line TextKind.NoMemory
            → IsSendsOf self.old.sends self.old.trace.recording.past
            → refused.detail ≡ event_detail refused.kind self.old.trace.recording.past event) }
        ensures processes { OnOk result
            (self.new.trace.recording.processes ≡ self.old.trace.recording.processes) }
    {
        if let Some(kind) = self.event_fault_before_push(limits, &event) {
            return Err(EventFault { kind, detail: None });
        }
        let RecordedEvent {
            process,
            clock,
            act,
        } = event;
        let name = name_of(&act);
        let entry = self.event_entry(process, act);
        self.push(limits, entry, name)?;
        self.last = Some((clock, process));
        Ok(())
    }

    /// Merges the next event in the merge order.
    pub(crate) fn merge_event(
        &mut self,
        limits: Limits,
        placed: EventAtLine,
    ) -> Result<(), MergeFault>
        ensures ok { OnOk result ((before : List EventAtLine) →
            HasMerged limits.entries self.old before
            → HasMerged limits.entries self.new (placed ∷ before)) }
        ensures err { IfErr result (λ fault. (before : List EventAtLine)
            → HasMerged limits.entries self.old before
            → IsFaultOfEvents limits.entries self.old.trace.recording.processes fault (placed ∷ before)) }
        ensures processes { OnOk result
            (self.new.trace.recording.processes ≡ self.old.trace.recording.processes) }
    {
        let EventAtLine { line, event } = placed;
        match self.push_event(limits, event) {
            Ok(()) => Ok(()),
            Err(EventFault { kind, detail }) => Err(MergeFault { line, kind, detail }),
        }
    }

    /// Returns the trace of the events.
    pub(crate) fn into_trace(self) -> Trace
        ensures { result ≡ self.trace }
    {
        self.trace
    }
}

/// Returns the trace of these events, which are in the merge order, or the first error of one of them.
pub(crate) fn merge_events(
    alloc: Global,
    limits: Limits,
    processes: u16,
    events: Vec<EventAtLine>,
) -> Result<Trace, MergeFault>
    requires { IsProcessCount processes }
    ensures ok { IfOk result (λ trace. merge_events_of limits.entries processes
        (reverse events.items)
        ≡ Ok trace.recording.past) }
    ensures processes { IfOk result (λ trace. trace.recording.processes ≡ processes) }
    ensures err { IfErr result
        (λ fault. IsFaultOfEvents limits.entries processes fault (reverse events.items)) }
{
    let mut merger = match Merger::new(alloc, processes) {
        Ok(merger) => merger,
        Err(kind) => {
            return Err(MergeFault {
                line: 1,
                kind: MergeKind::Line(kind),
                detail: None,
            });
        }
    };
    for placed in events {
        merger.merge_event(limits, placed)?;
    }
    Ok(merger.into_trace())
}
