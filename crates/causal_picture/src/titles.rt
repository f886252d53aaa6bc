//! The titles of the events, for tooltips and screen readers.
ghost use Rattle.causal_picture.specs.Writes.{Extends};

use crate::marks::{Mark, MarkEvent};
use crate::words::push_words;
use causal_name::{Det, Pid};
use causal_trace::{Entry, Trace};
use std::alloc::AllocError;

/// The maximum number of determinants that a title names.
pub const MAX_NAMED: usize = 8;

/// Appends the title of an event: `process 1 sends message 0 to process 2`, `process 1 delivers message 0 of process
/// 0`, `delivery 0 of process 1, of message 0 of process 0, is in stable storage`, `process 1 crashes`, `process 1
/// restarts`, `process 1 forgets 3 determinants`.
fn push_event(out: &mut String, event: MarkEvent) -> Result<(), AllocError>
    ensures { Extends result out.old out.new }
{
    match event {
        MarkEvent::Send {
            from: Pid(from),
            to: Pid(to),
            ssn,
        } => write!(out, "process {from} sends message {ssn} to process {to}"),
        MarkEvent::Delivery {
            det: Det {
                source: Pid(source),
                ssn,
                dest: Pid(dest),
                ..
            },
            ..
        } => write!(
            out,
            "process {dest} delivers message {ssn} of process {source}"
        ),
        MarkEvent::Stable {
            det: Det {
                source: Pid(source),
                ssn,
                dest: Pid(dest),
                rsn,
            },
        } => write!(
            out,
            "delivery {rsn} of process {dest}, of message {ssn} of process {source}, is in stable storage"
        ),
        MarkEvent::Crash { who: Pid(who) } => write!(out, "process {who} crashes"),
        MarkEvent::Restart { who: Pid(who) } => write!(out, "process {who} restarts"),
        MarkEvent::Forget {
            who: Pid(who),
            count,
        } => write!(out, "process {who} forgets {count} determinants"),
    }
}

/// Appends ` [0,0,1,0]`: source, ssn, receiver and rsn, as in the trace's text.
fn push_det(out: &mut String, det: &Det) -> Result<(), AllocError>
    ensures { Extends result out.old out.new }
{
    let Pid(source) = det.source;
    let Pid(dest) = det.dest;
    let ssn = det.ssn;
    let rsn = det.rsn;
    write!(out, " [{source},{ssn},{dest},{rsn}]")
}

fn push_dets(out: &mut String, dets: &[Det]) -> Result<(), AllocError>
    ensures { Extends result out.old out.new }
{
    for det in dets {
        push_det(out, det)?;
    }
    Ok(())
}

/// Appends ` and 3 more`, if there are more.
fn push_more(out: &mut String, more: usize) -> Result<(), AllocError>
    ensures { Extends result out.old out.new }
{
    if more == 0 {
        Ok(())
    } else {
        write!(out, " and {more} more")
    }
}

/// Appends `, and logs [0,0,1,0] [1,0,2,0]`: the first eight determinants of a list, and the number of the others.
fn push_named(out: &mut String, listed: &[Det]) -> Result<(), AllocError>
    ensures { Extends result out.old out.new }
{
    let named = listed.len().min(MAX_NAMED);
    push_words(out, ", and logs")?;
    push_dets(out, &listed[..named])?;
    push_more(out, listed.len() - named)
}

/// Appends the determinants that an entry adds to a volatile log.
fn push_logged(out: &mut String, listed: &[Det]) -> Result<(), AllocError>
    ensures { Extends result out.old out.new }
{
    if listed.is_empty() {
        push_words(out, ", and logs nothing")
    } else {
        push_named(out, listed)
    }
}

/// Appends the determinants that the entry at a position adds to a volatile log: a delivery those of its batch, a
/// restart those that it gathers.
fn push_list(out: &mut String, trace: &Trace, position: u32) -> Result<(), AllocError>
    ensures { Extends result out.old out.new }
{
    match trace.entry(position) {
        Some(Entry::Deliver { listed, .. } | Entry::Restart { listed, .. }) => {
            push_logged(out, listed.as_slice())
        }
        _ => Ok(()),
    }
}

/// Appends the rest of an event's title after the number of its line: `: process 1 delivers message 0 of process 0, and
/// logs [0,0,1,0]</title>`. At most eight determinants are named.
pub fn push_title(out: &mut String, trace: &Trace, mark: &Mark) -> Result<(), AllocError>
    ensures { Extends result out.old out.new }
{
    push_words(out, ": ")?;
    push_event(out, mark.event)?;
    push_list(out, trace, mark.position)?;
    push_words(out, "</title>\n")
}
