//! The values that explain an error.
ghost use Rattle.std.specs.Prelude.{◌≡◌, IfOk, IfSome};
ghost use Rattle.causal_line.specs.FaultDetails.{IsDeliveryLine, IsFaultDetail, kind_of_detail};

use crate::counts::{deliveries, delivery_of, sends};
use crate::deliveries::find_undelivered;
use crate::kind::TextKind;
use crate::parsed_line::ParsedLine;
use causal_name::{Det, MsgName, NoMemory, Pid};
use causal_trace::entry::Entry;
use causal_trace::trace::Trace;
use std::alloc::Global;

/// The values that explain an error. Positions count entries from 0; the entry at position k is on line k + 2.
#[derive(Clone, Copy)]
pub enum FaultDetail {
    /// A send with the number `given`, and the different next number of its sender's present lane.
    Ssn {
        process: Pid,
        given: u32,
        next: u32,
    },
    /// The entry at this position is not an earlier send to the process.
    Send {
        position: u32,
        process: Pid,
    },
    /// A delivery with the number `given`, and the different next number of its receiver's present lane.
    Rsn {
        process: Pid,
        given: u32,
        next: u32,
    },
    /// The process's present lane has delivered this message, at this position.
    Again {
        process: Pid,
        message: MsgName,
        position: u32,
    },
    /// No delivery so far has this determinant, which the entry mentions.
    Undelivered {
        det: Det,
    },
    /// The end line contains the number `given`, but there are `entries` entries.
    Entries {
        given: u32,
        entries: u32,
    },
}

/// Returns the values that explain an error of this kind in a parsed line, where `trace` is the trace of the lines
/// before. None if the line has no such error, or the kind needs no values. O(entries) time; for `NoDelivery`,
/// O((entries + listed determinants) * log deliveries).
///
/// # Errors
/// `NoMemory` if an allocation failed.
pub fn fault_detail(
    alloc: Global,
    trace: &Trace,
    parsed_line: &ParsedLine,
    kind: TextKind,
) -> Result<Option<FaultDetail>, NoMemory>
    ensures detail { IfOk result (λ found. IfSome found
        (IsFaultDetail trace.now.recording parsed_line.now)) }
    ensures kind { IfOk result (λ found. IfSome found (λ wrong. kind_of_detail wrong ≡ kind)) }
{
    match kind {
        TextKind::WrongSsn => Ok(ssn_detail(trace, parsed_line)),
        TextKind::NoSend => Ok(no_send_detail(trace, parsed_line)),
        TextKind::WrongRsn => Ok(rsn_detail(trace, parsed_line)),
        TextKind::Doubled => Ok(duplicate_detail(trace, parsed_line)),
        TextKind::NoDelivery => no_delivery_detail(alloc, trace, parsed_line),
        TextKind::Count => Ok(count_detail(trace, parsed_line)),
        _ => Ok(None),
    }
}

fn ssn_detail(trace: &Trace, parsed_line: &ParsedLine) -> Option<FaultDetail>
    ensures wrong { IfSome result (IsFaultDetail trace.now.recording parsed_line.now) }
    ensures kind { IfSome result (λ wrong. kind_of_detail wrong ≡ TextKind.WrongSsn) }
{
    let ParsedLine::Entry {
        entry: Entry::Send { from, ssn, .. },
    } = parsed_line
    else {
        return None;
    };
    let next = sends(trace, *from);
    if *ssn == next {
        return None;
    }
    Some(FaultDetail::Ssn {
        process: *from,
        given: *ssn,
        next,
    })
}

/// Returns the receiver, the position of the send and the rsn of a parsed delivery; None for another line.
fn delivery_in(parsed_line: &ParsedLine) -> Option<(Pid, u32, u32)>
    ensures { IfSome result (λ told. IsDeliveryLine parsed_line.now told.0 told.1 told.2) }
{
    match parsed_line {
        ParsedLine::Entry {
            entry: Entry::Deliver { to, send, rsn, .. },
        } => Some((*to, *send, *rsn)),
        _ => None,
    }
}

fn no_send_detail(trace: &Trace, parsed_line: &ParsedLine) -> Option<FaultDetail>
    ensures wrong { IfSome result (IsFaultDetail trace.now.recording parsed_line.now) }
    ensures kind { IfSome result (λ wrong. kind_of_detail wrong ≡ TextKind.NoSend) }
{
    let (process, position, _) = delivery_in(parsed_line)?;
    match trace.entry(position) {
        Some(Entry::Send { to, .. }) if to.0 == process.0 => None,
        _ => Some(FaultDetail::Send { position, process }),
    }
}

fn rsn_detail(trace: &Trace, parsed_line: &ParsedLine) -> Option<FaultDetail>
    ensures wrong { IfSome result (IsFaultDetail trace.now.recording parsed_line.now) }
    ensures kind { IfSome result (λ wrong. kind_of_detail wrong ≡ TextKind.WrongRsn) }
{
    let (process, _, given) = delivery_in(parsed_line)?;
    let next = deliveries(trace, process);
    if given == next {
        return None;
    }
    Some(FaultDetail::Rsn {
        process,
        given,
        next,
    })
}

fn duplicate_detail(trace: &Trace, parsed_line: &ParsedLine) -> Option<FaultDetail>
    ensures wrong { IfSome result (IsFaultDetail trace.now.recording parsed_line.now) }
    ensures kind { IfSome result (λ wrong. kind_of_detail wrong ≡ TextKind.Doubled) }
{
    let (process, send, _) = delivery_in(parsed_line)?;
    let Some(Entry::Send { from, ssn, .. }) = trace.entry(send) else {
        return None;
    };
    let message = MsgName {
        source: *from,
        ssn: *ssn,
    };
    let position = delivery_of(trace, process, message)?;
    Some(FaultDetail::Again {
        process,
        message,
        position,
    })
}

fn no_delivery_detail(
    alloc: Global,
    trace: &Trace,
    parsed_line: &ParsedLine,
) -> Result<Option<FaultDetail>, NoMemory>
    ensures wrong { IfOk result (λ found. IfSome found
        (IsFaultDetail trace.now.recording parsed_line.now)) }
    ensures kind { IfOk result
        (λ found. IfSome found (λ wrong. kind_of_detail wrong ≡ TextKind.NoDelivery)) }
{
    let ParsedLine::Entry { entry } = parsed_line else {
        return Ok(None);
    };
    match find_undelivered(alloc, trace, entry)? {
        Some(det) => Ok(Some(FaultDetail::Undelivered { det })),
        None => Ok(None),
    }
}

fn count_detail(trace: &Trace, parsed_line: &ParsedLine) -> Option<FaultDetail>
    ensures wrong { IfSome result (IsFaultDetail trace.now.recording parsed_line.now) }
    ensures kind { IfSome result (λ wrong. kind_of_detail wrong ≡ TextKind.Count) }
{
    let ParsedLine::End { entries: given } = parsed_line else {
        return None;
    };
    let entries = trace.len();
    if *given == entries {
        return None;
    }
    Some(FaultDetail::Entries {
        given: *given,
        entries,
    })
}
