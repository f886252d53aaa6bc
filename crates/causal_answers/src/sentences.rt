//! The sentences of facts, for people.
#![tactic(auto, using(crate::proofs::Printable::printable))]

ghost use Rattle.causal_answers.specs.Inside.Appends.{Writes};
ghost use Rattle.causal_answers.specs.Sentences.{IsPrintable, IsSentence};

use crate::field_printing::push_text;
use crate::place::line_before;
use causal_facts::{Cause, ChainEvent, ClosestFailure, Fact, Holding, Loss, LostBy, Stray};
use causal_name::Det;
use causal_trace::entry::line_at;
use std::alloc::AllocError;

/// Appends a colon, the sentence of a fact, and a line feed.
pub(crate) fn push_sentence(out: &mut String, fact: &Fact) -> Result<(), AllocError>
    ensures { Writes result out.old out.new IsSentence }
{
    push_text(out, ": ")?;
    push_words(out, fact)?;
    push_text(out, "\n")
}

fn push_words(out: &mut String, fact: &Fact) -> Result<(), AllocError>
    ensures { Writes result out.old out.new IsPrintable }
{
    match fact {
        Fact::Down(down) => push_at_line(
            out,
            down.process,
            "is down since its crash at",
            line_at(down.since),
            "",
        ),
        Fact::Delivery { det, .. } => push_delivery(out, det),
        Fact::Cause { cause, .. } => push_cause(out, *cause),
        Fact::Unstable { instant } => push_unstable(out, line_before(*instant)),
        Fact::Holder(holding) => push_at_line(
            out,
            holding.process,
            "has the determinant in its log since",
            line_at(holding.since),
            "",
        ),
        Fact::NoHolder => push_text(out, "no process has the determinant in its log"),
        Fact::Loss(loss) => push_loss(out, loss),
        Fact::Crash { process } => push_process(
            out,
            *process,
            "is in the crash set, under which nobody has the determinant",
        ),
        Fact::Chain { event, .. } => push_event(out, *event),
        Fact::Unlisted { event, is_own, .. } => push_unlisted(out, *event, *is_own),
        Fact::Listed => push_text(
            out,
            "after each delivery of the chain its receiver has the determinant in its log",
        ),
        Fact::Underway { position, send, to } => push_underway(
            out,
            line_at(*position),
            line_at(*send),
            *to,
        ),
        Fact::Orphan { process } => push_process(
            out,
            *process,
            "depends on the delivery by this chain, and lacks its determinant",
        ),
        Fact::Closest(closest) => push_closest(out, closest),
        Fact::Never => push_text(out, "no delivery has an orphan, whatever f is"),
        Fact::Strayed(stray) => push_stray(out, stray),
        Fact::Logged { delivery, holding } => push_logged(out, line_at(*delivery), holding),
        Fact::Stable { delivery } => push_stable(out, line_at(*delivery)),
    }
}

/// Appends a process and what is said of it.
#[tactic(auto, using(crate::proofs::Printable::printable, crate::proofs::Printable::printable_after))]
fn push_process(out: &mut String, process: u8, words: &str) -> Result<(), AllocError>
    requires { IsPrintable words.now }
    ensures { Writes result out.old out.new IsPrintable }
{
    write!(out, "process {process} {words}")
}

/// Appends a process, what is said of it at a line, and the rest of the sentence.
#[tactic(auto, using(crate::proofs::Printable::printable, crate::proofs::Printable::printable_after))]
fn push_at_line(
    out: &mut String,
    process: u8,
    words: &str,
    line: u64,
    rest: &str,
) -> Result<(), AllocError>
    requires words { IsPrintable words.now }
    requires rest { IsPrintable rest.now }
    ensures { Writes result out.old out.new IsPrintable }
{
    write!(out, "process {process} {words} line {line}{rest}")
}

fn push_delivery(out: &mut String, det: &Det) -> Result<(), AllocError>
    ensures { Writes result out.old out.new IsPrintable }
{
    write!(
        out,
        "process {} delivers message {} of process {}, as its delivery {}",
        det.dest.0, det.ssn, det.source.0, det.rsn
    )
}

fn push_cause(out: &mut String, cause: Cause) -> Result<(), AllocError>
    ensures { Writes result out.old out.new IsPrintable }
{
    match cause {
        Cause::Delivery { process, send } => push_at_line(
            out,
            process,
            "delivers what",
            line_at(send),
            " sends, so it depends on the delivery, and its log lacks the determinant",
        ),
        Cause::Restart { process } => push_process(
            out,
            process,
            "restarts, and does not list the determinant, which is in the log of another",
        ),
        Cause::Forgetting { process } => push_process(
            out,
            process,
            "forgets the determinant, which is not in stable storage",
        ),
        Cause::Crash { process } => {
            push_process(out, process, "crashes, and more are down than may be")
        }
    }
}

fn push_unstable(out: &mut String, line: u64) -> Result<(), AllocError>
    ensures { Writes result out.old out.new IsPrintable }
{
    write!(
        out,
        "up to line {line} nothing writes its determinant to stable storage"
    )
}

fn push_loss(out: &mut String, loss: &Loss) -> Result<(), AllocError>
    ensures { Writes result out.old out.new IsPrintable }
{
    let line = line_at(loss.lost);
    match loss.by {
        LostBy::Crash => push_at_line(
            out,
            loss.process,
            "lost the determinant from its log at",
            line,
            ", by its crash",
        ),
        LostBy::Forgetting => push_at_line(
            out,
            loss.process,
            "lost the determinant from its log at",
            line,
            ", by forgetting it",
        ),
    }
}

fn push_event(out: &mut String, event: ChainEvent) -> Result<(), AllocError>
    ensures { Writes result out.old out.new IsPrintable }
{
    match event {
        ChainEvent::Send { from, to, ssn } => {
            write!(out, "process {from} sends message {ssn} to process {to}")
        }
        ChainEvent::Delivery { to, send } => {
            push_at_line(out, to, "delivers what", line_at(send), " sends")
        }
        ChainEvent::Other => push_text(out, "no event"),
    }
}

fn push_unlisted(out: &mut String, event: ChainEvent, is_own: bool) -> Result<(), AllocError>
    ensures { Writes result out.old out.new IsPrintable }
{
    match event {
        ChainEvent::Delivery { to, send } => push_missing(out, is_own, to, line_at(send)),
        _ => push_text(out, "no delivery"),
    }
}

fn push_missing(out: &mut String, is_own: bool, to: u8, send: u64) -> Result<(), AllocError>
    ensures { Writes result out.old out.new IsPrintable }
{
    if is_own {
        push_at_line(
            out,
            to,
            "delivers what",
            send,
            " sends, and does not log the determinant",
        )
    } else {
        write!(
            out,
            "the message that line {send} sends comes to process {to} without the determinant"
        )
    }
}

fn push_underway(out: &mut String, line: u64, send: u64, to: u8) -> Result<(), AllocError>
    ensures { Writes result out.old out.new IsPrintable }
{
    write!(
        out,
        "the message that line {send} sends was in transit, and brings the determinant to process {to} only at line {line}"
    )
}

fn push_closest(out: &mut String, closest: &ClosestFailure) -> Result<(), AllocError>
    ensures { Writes result out.old out.new IsPrintable }
{
    write!(
        out,
        "for f={} the delivery of line {} has an orphan, process {}, once line {} is read; for a smaller f none has one",
        closest.faults,
        line_at(closest.delivery),
        closest.orphan,
        line_before(closest.instant)
    )
}

fn push_stray(out: &mut String, stray: &Stray) -> Result<(), AllocError>
    ensures { Writes result out.old out.new IsPrintable }
{
    write!(
        out,
        "after line {} two determinants of delivery {} of process {} survive, those of lines {} and {}",
        line_before(stray.instant),
        stray.slot.rsn,
        stray.slot.dest.0,
        line_at(stray.first),
        line_at(stray.second)
    )
}

fn push_logged(out: &mut String, delivery: u64, holding: &Holding) -> Result<(), AllocError>
    ensures { Writes result out.old out.new IsPrintable }
{
    write!(
        out,
        "process {} has the determinant of the delivery of line {delivery} in its log since line {}",
        holding.process,
        line_at(holding.since)
    )
}

fn push_stable(out: &mut String, delivery: u64) -> Result<(), AllocError>
    ensures { Writes result out.old out.new IsPrintable }
{
    write!(
        out,
        "the determinant of the delivery of line {delivery} is in stable storage"
    )
}
