//! The fields of facts.
ghost use Rattle.std.specs.Prelude.{◌≡◌, OnOk};
ghost use Rattle.causal_answers.specs.Inside.Appends.{Appends};
ghost use Rattle.causal_answers.specs.Fields as fields;

use crate::field_printing::{push_empty_field, push_line, push_number, push_process, push_word};
use crate::place::line_before;
use causal_facts::{Cause, ChainEvent, ClosestFailure, Fact, Form, Holding, Loss, LostBy, Stray};
use causal_name::Det;
use causal_trace::entry::line_at;
use std::alloc::AllocError;

/// Appends the fields of a fact.
pub(crate) fn push_fields(out: &mut String, form: Form, fact: &Fact) -> Result<(), AllocError>
    ensures { OnOk result (Appends out.old out.new (fields.fields_of form fact.now)) }
{
    match fact {
        Fact::Down(down) => push_process_at(out, form, down.process, down.since),
        Fact::Delivery { delivery, det } => push_delivery(out, form, *delivery, det),
        Fact::Cause { instant, cause } => push_cause(out, form, *instant, *cause),
        Fact::Unstable { instant } => push_line(out, form, line_before(*instant)),
        Fact::Holder(holding) => push_process_at(out, form, holding.process, holding.since),
        Fact::NoHolder => push_empty_field(out, form, "process"),
        Fact::Loss(loss) => push_loss(out, form, loss),
        Fact::Crash { process } | Fact::Orphan { process } => push_process(out, form, *process),
        Fact::Chain { position, event } => push_event(out, form, *position, *event),
        Fact::Unlisted {
            position,
            event,
            ..
        } => push_unlisted(out, form, *position, *event),
        Fact::Listed => Ok(()),
        Fact::Underway { position, send, to } => push_underway(out, form, *position, *send, *to),
        Fact::Closest(closest) => push_closest(out, form, *closest),
        Fact::Never => push_empty_field(out, form, "faults"),
        Fact::Strayed(stray) => push_stray(out, form, *stray),
        Fact::Logged { delivery, holding } => push_logged(out, form, *delivery, holding),
        Fact::Stable { delivery } => push_number(out, form, "delivery", u64::from(*delivery)),
    }
}

fn push_logged(
    out: &mut String,
    form: Form,
    delivery: u32,
    holding: &Holding,
) -> Result<(), AllocError>
    ensures { OnOk result (Appends out.old out.new
        (fields.fields_of form (Fact.Logged delivery holding.now))) }
{
    push_number(out, form, "delivery", u64::from(delivery))?;
    push_process_at(out, form, holding.process, holding.since)
}

fn push_process_at(
    out: &mut String,
    form: Form,
    process: u8,
    position: u32,
) -> Result<(), AllocError>
    ensures { OnOk result (Appends out.old out.new (fields.process_line_fields form process position)) }
{
    push_process(out, form, process)?;
    push_line(out, form, line_at(position))
}

fn push_delivery(out: &mut String, form: Form, delivery: u32, det: &Det) -> Result<(), AllocError>
    ensures { OnOk result (Appends out.old out.new
        (fields.fields_of form (Fact.Delivery delivery det.now))) }
{
    push_line(out, form, line_at(delivery))?;
    push_process(out, form, det.dest.0)?;
    push_det(out, form, det)
}

fn push_det(out: &mut String, form: Form, det: &Det) -> Result<(), AllocError>
    ensures { OnOk result (Appends out.old out.new (fields.det_fields form det.now)) }
{
    push_number(out, form, "source", u64::from(det.source.0))?;
    push_number(out, form, "ssn", u64::from(det.ssn))?;
    push_number(out, form, "rsn", u64::from(det.rsn))
}

fn push_cause(out: &mut String, form: Form, instant: u32, cause: Cause) -> Result<(), AllocError>
    ensures { OnOk result (Appends out.old out.new
        (fields.fields_of form (Fact.Cause instant cause))) }
{
    push_line(out, form, line_before(instant))?;
    push_process(out, form, cause_process(cause))?;
    push_word(out, form, "by", cause_word(cause))
}

/// The process of the entry by which an instant fails.
fn cause_process(cause: Cause) -> u8
    ensures { result ≡ fields.cause_process cause }
{
    match cause {
        Cause::Delivery { process, .. } => process,
        Cause::Restart { process } => process,
        Cause::Forgetting { process } => process,
        Cause::Crash { process } => process,
    }
}

/// The word for that entry.
fn cause_word(cause: Cause) -> &'static str
    ensures { result.now ≡ fields.cause_word cause }
{
    match cause {
        Cause::Delivery { .. } => "deliver",
        Cause::Restart { .. } => "restart",
        Cause::Forgetting { .. } => "forget",
        Cause::Crash { .. } => "crash",
    }
}

fn push_loss(out: &mut String, form: Form, loss: &Loss) -> Result<(), AllocError>
    ensures { OnOk result (Appends out.old out.new
        (fields.fields_of form (Fact.Loss loss.now))) }
{
    push_process_at(out, form, loss.process, loss.lost)?;
    push_word(out, form, "by", loss_word(loss.by))
}

/// The word for the entry by which a process loses a determinant.
fn loss_word(by: LostBy) -> &'static str
    ensures { result.now ≡ fields.loss_word by }
{
    match by {
        LostBy::Crash => "crash",
        LostBy::Forgetting => "forget",
    }
}

fn push_event(
    out: &mut String,
    form: Form,
    position: u32,
    event: ChainEvent,
) -> Result<(), AllocError>
    ensures { OnOk result (Appends out.old out.new
        (fields.event_fields form position event)) }
{
    push_line(out, form, line_at(position))?;
    match event {
        ChainEvent::Send { from, .. } => push_process(out, form, from),
        ChainEvent::Delivery { to, .. } => push_process(out, form, to),
        ChainEvent::Other => Ok(()),
    }
}

fn push_unlisted(
    out: &mut String,
    form: Form,
    position: u32,
    event: ChainEvent,
) -> Result<(), AllocError>
    ensures { OnOk result (Appends out.old out.new
        (fields.unlisted_fields form position event)) }
{
    push_line(out, form, line_at(position))?;
    match event {
        ChainEvent::Delivery { to, send } => push_arrival(out, form, send, to),
        _ => Ok(()),
    }
}

fn push_arrival(out: &mut String, form: Form, send: u32, to: u8) -> Result<(), AllocError>
    ensures { OnOk result (Appends out.old out.new
        (fields.arrival_fields form (ChainEvent.Delivery to send))) }
{
    push_number(out, form, "send", line_at(send))?;
    push_process(out, form, to)
}

fn push_underway(
    out: &mut String,
    form: Form,
    position: u32,
    send: u32,
    to: u8,
) -> Result<(), AllocError>
    ensures { OnOk result (Appends out.old out.new
        (fields.fields_of form (Fact.Underway position send to))) }
{
    push_number(out, form, "send", line_at(send))?;
    push_line(out, form, line_at(position))?;
    push_process(out, form, to)
}

fn push_closest(out: &mut String, form: Form, closest: ClosestFailure) -> Result<(), AllocError>
    ensures { OnOk result (Appends out.old out.new
        (fields.fields_of form (Fact.Closest closest))) }
{
    push_number(out, form, "faults", u64::from(closest.faults))?;
    push_line(out, form, line_at(closest.delivery))?;
    push_number(out, form, "until", line_before(closest.instant))?;
    push_number(out, form, "orphan", u64::from(closest.orphan))
}

/// Appends the fields of a stray.
pub(crate) fn push_stray(out: &mut String, form: Form, stray: Stray) -> Result<(), AllocError>
    ensures { OnOk result (Appends out.old out.new (fields.stray_fields form stray)) }
{
    push_number(out, form, "instant", u64::from(stray.instant))?;
    push_process(out, form, stray.slot.dest.0)?;
    push_number(out, form, "rsn", u64::from(stray.slot.rsn))?;
    push_stray_deliveries(out, form, stray)
}

fn push_stray_deliveries(out: &mut String, form: Form, stray: Stray) -> Result<(), AllocError>
    ensures { OnOk result (Appends out.old out.new (fields.stray_deliveries form stray)) }
{
    push_number(out, form, "first", u64::from(stray.first))?;
    push_number(out, form, "second", u64::from(stray.second))
}
