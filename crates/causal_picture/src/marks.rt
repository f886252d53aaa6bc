//! The event that a picture shows for each entry.
ghost use Rattle.std.specs.Prelude.{◌≡◌, ◌≤◌, ◌+◌, IfOk, length};
ghost use Rattle.causal_trace.specs.Rows.{IsWellFormed};
ghost use Rattle.causal_picture.specs.Marks as marks;

use crate::entry_range::EntryRange;
use causal_name::{Det, NoMemory, Pid};
use causal_trace::{Entry, Trace};
use std::alloc::Global;

/// The event of an entry, as a picture shows it.
#[derive(Clone, Copy)]
pub enum MarkEvent {
    /// `from` sends its message number `ssn` to `to`.
    Send { from: Pid, to: Pid, ssn: u32 },
    /// The delivery with this determinant; the entry at position `send` sends the message.
    Delivery { det: Det, send: u32 },
    /// The determinant is in stable storage from this entry on.
    Stable { det: Det },
    Crash { who: Pid },
    Restart { who: Pid },
    /// `who` removes `count` determinants from its volatile log.
    Forget { who: Pid, count: usize },
}

/// The event of the entry at a position.
#[derive(Clone, Copy)]
pub struct Mark {
    pub position: u32,
    pub event: MarkEvent,
}

impl MarkEvent {
    /// The process on whose line it is shown; for a stable determinant, its receiver.
    pub fn process(&self) -> Pid
        ensures { result ≡ marks.mark_process self.now }
    {
        match self {
            MarkEvent::Send { from, .. } => *from,
            MarkEvent::Delivery { det, .. } => det.dest,
            MarkEvent::Stable { det } => det.dest,
            MarkEvent::Crash { who } => *who,
            MarkEvent::Restart { who } => *who,
            MarkEvent::Forget { who, .. } => *who,
        }
    }
}

/// The events of the range's entries, one for each, in order.
///
/// # Errors
/// `NoMemory` if allocation failed.
pub fn marks_of(alloc: Global, trace: &Trace, range: EntryRange) -> Result<Vec<Mark>, NoMemory>
    requires { range.first + range.count ≤ length trace.now.recording.past }
    ensures value { IfOk result
        (λ found. found.items ≡ marks.marks_of trace.now.recording.past range) }
    ensures each { IfOk result (λ found. marks.HasAllMarks range found.items) }
{
    let mut marks = Vec::new(alloc);
    let end = end_of(trace, range);
    for position in range.first..end {
        if let Some(mark) = mark_at(trace, position) {
            marks.push(mark)?;
        }
    }
    Ok(marks)
}

/// The position after a range.
fn end_of(trace: &Trace, range: EntryRange) -> u32
    requires { range.first + range.count ≤ length trace.now.recording.past }
    ensures value { result ≡ range.first + range.count }
    ensures formed { IsWellFormed trace.now.recording }
{
    trace.len().min(range.first + range.count)
}

/// The event of the entry at a position.
pub fn mark_at(trace: &Trace, position: u32) -> Option<Mark>
    ensures { result ≡ marks.mark_at trace.now.recording.past position }
{
    let event = mark_event_of(trace, trace.entry(position)?)?;
    Some(Mark { position, event })
}

fn mark_event_of(trace: &Trace, entry: &Entry) -> Option<MarkEvent>
    ensures { result ≡ marks.mark_event_of trace.now.recording.past entry.now }
{
    match entry {
        Entry::Send { from, to, ssn } => Some(MarkEvent::Send {
            from: *from,
            to: *to,
            ssn: *ssn,
        }),
        Entry::Deliver { to, send, rsn, .. } => delivery_mark(trace, *to, *send, *rsn),
        Entry::Stable { det } => Some(MarkEvent::Stable { det: *det }),
        Entry::Crash { who } => Some(MarkEvent::Crash { who: *who }),
        Entry::Restart { who, .. } => Some(MarkEvent::Restart { who: *who }),
        Entry::Forget { who, listed } => Some(MarkEvent::Forget {
            who: *who,
            count: listed.as_slice().len(),
        }),
    }
}

fn delivery_mark(trace: &Trace, to: Pid, send: u32, rsn: u32) -> Option<MarkEvent>
    ensures { result ≡ marks.delivery_mark trace.now.recording.past to send rsn }
{
    match trace.entry(send)? {
        Entry::Send { from, ssn, .. } => {
            let det = Det {
                source: *from,
                ssn: *ssn,
                dest: to,
                rsn,
            };
            Some(MarkEvent::Delivery { det, send })
        }
        _ => None,
    }
}
