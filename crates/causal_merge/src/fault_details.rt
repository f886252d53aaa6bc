//! The values that explain an error of an event.
ghost use Rattle.std.specs.Prelude.{◌≡◌};
ghost use Rattle.std.specs.List.{find};
ghost use Rattle.std.specs.Option.{option_copied};
ghost use Rattle.causal_trace.specs.Past.{is_delivered};
ghost use Rattle.causal_merge.specs.FaultDetails as details;

use crate::sends::SendName;
use causal_line::counts::{deliveries, sends};
use causal_line::deliveries::own_det;
use causal_line::kind::TextKind;
use causal_name::{Det, MsgName, Pid};
use causal_trace::entry::{Entry, is_det};
use causal_trace::trace::Trace;

/// The values that explain an error of an event.
#[derive(Clone, Copy, Debug, PartialEq, Eq)]
pub enum MergeDetail {
    /// The number `given` of a send, and the next one of its sender's present lane (incarnation).
    Ssn { process: Pid, given: u32, next: u32 },
    /// The receiver of a delivery, and the send that it names: no earlier event is that send to the receiver.
    Send { process: Pid, name: SendName },
    /// The number `given` of a delivery, and the next one of its receiver's present lane.
    Rsn { process: Pid, given: u32, next: u32 },
    /// The receiver of a delivery, and the message: the receiver's present lane has delivered it.
    Again { process: Pid, message: MsgName },
    /// The first determinant that an event mentions although neither it nor an earlier delivery has that determinant.
    Undelivered { det: Det },
}

/// Returns the values that explain an error of this kind in an entry, where `trace` has the entries before, and `name`
/// is the send that a delivery names. None if the kind is enough. O(entries) time; for `NoDelivery`, O(lanes that
/// delivered the message) for each determinant that the entry mentions.
pub(crate) fn line_detail(
    kind: TextKind,
    trace: &Trace,
    entry: &Entry,
    name: Option<SendName>,
) -> Option<MergeDetail>
    ensures { result ≡ details.line_detail kind trace.now.recording.past entry.now name }
{
    match kind {
        TextKind::WrongSsn => ssn_detail(trace, entry),
        TextKind::NoSend => send_detail(entry, name),
        TextKind::WrongRsn => rsn_detail(trace, entry),
        TextKind::Doubled => again_detail(entry, name),
        TextKind::NoDelivery => undelivered_detail(trace, entry),
        _ => None,
    }
}

fn ssn_detail(trace: &Trace, entry: &Entry) -> Option<MergeDetail>
    ensures { result ≡ details.ssn_detail trace.now.recording.past entry.now }
{
    match entry {
        Entry::Send { from, ssn, .. } => Some(MergeDetail::Ssn {
            process: *from,
            given: *ssn,
            next: sends(trace, *from),
        }),
        _ => None,
    }
}

fn rsn_detail(trace: &Trace, entry: &Entry) -> Option<MergeDetail>
    ensures { result ≡ details.rsn_detail trace.now.recording.past entry.now }
{
    match entry {
        Entry::Deliver { to, rsn, .. } => Some(MergeDetail::Rsn {
            process: *to,
            given: *rsn,
            next: deliveries(trace, *to),
        }),
        _ => None,
    }
}

fn send_detail(entry: &Entry, name: Option<SendName>) -> Option<MergeDetail>
    ensures { result ≡ details.send_detail entry.now name }
{
    match (entry, name) {
        (Entry::Deliver { to, .. }, Some(name)) => Some(MergeDetail::Send { process: *to, name }),
        _ => None,
    }
}

fn again_detail(entry: &Entry, name: Option<SendName>) -> Option<MergeDetail>
    ensures { result ≡ details.again_detail entry.now name }
{
    match (entry, name) {
        (Entry::Deliver { to, .. }, Some(SendName { source, ssn, .. })) => {
            Some(MergeDetail::Again {
                process: *to,
                message: MsgName { source, ssn },
            })
        }
        _ => None,
    }
}

fn undelivered_detail(trace: &Trace, entry: &Entry) -> Option<MergeDetail>
    ensures { result ≡ details.undelivered_detail trace.now.recording.past entry.now }
{
    let det = first_undelivered(trace, own_det(trace, entry), entry.mentioned_dets())?;
    Some(MergeDetail::Undelivered { det: *det })
}

/// Returns the first of these determinants that is neither `own` nor that of a delivery.
fn first_undelivered<'a>(trace: &Trace, own: Option<Det>, dets: &'a [Det]) -> Option<&'a Det>
    ensures { option_copied result
        ≡ find (details.is_undelivered trace.now.recording.past own) dets.now }
{
    dets.iter().find(|det| is_undelivered(trace, own, det))
}

fn is_undelivered(trace: &Trace, own: Option<Det>, det: &Det) -> bool
    ensures { result ≡ details.is_undelivered trace.now.recording.past own det.now }
{
    !(is_det(own, *det) || is_delivered(trace, *det))
}

/// Checks whether a delivery of the trace has this determinant. O(lanes that delivered the message) time.
#[tactic(auto, using(causal_trace::proofs::Lemmas::DeliveryNumbers::delivered_numbered, causal_trace::proofs::Lemmas::DeliveryNumbers::listed_once))]
fn is_delivered(trace: &Trace, det: Det) -> bool
    ensures { result ≡ is_delivered trace.now.recording.past det }
{
    trace
        .delivery_of(det, trace.deliveries() as usize)
        .is_some()
}
