//! The error message with values.
ghost use Rattle.std.specs.Prelude.{◌≡◌, IfOk};
ghost use Rattle.std.specs.String.{string_bytes};
ghost use Rattle.causal_line.specs.DetailTexts as texts;

use crate::fault_details::FaultDetail;
use crate::kind::TextFault;
use causal_name::{Det, MsgName, NoMemory, Pid};
use causal_trace::entry::line_at;
use std::alloc::Global;

/// Returns the error message of a faulty line: the wrong number and the correct one, or the send, delivery or
/// determinant in question. Without such values it is the message of the error's kind.
///
/// # Errors
/// `NoMemory` if an allocation failed.
pub fn sentence(
    alloc: Global,
    fault: TextFault,
    wrong: Option<FaultDetail>,
) -> Result<String, NoMemory>
    ensures { IfOk result (λ text. string_bytes text ≡ texts.sentence fault wrong) }
{
    match wrong {
        Some(wrong) => detail_text(alloc, fault.line, wrong),
        None => kind_text(alloc, fault),
    }
}

fn detail_text(alloc: Global, line: u32, wrong: FaultDetail) -> Result<String, NoMemory>
    ensures { IfOk result (λ text. string_bytes text ≡ texts.detail_text line wrong) }
{
    match wrong {
        FaultDetail::Ssn {
            process,
            given,
            next,
        } => number_text(alloc, line, process, "sends", given, next),
        FaultDetail::Send { position, process } => no_send_text(alloc, line, position, process),
        FaultDetail::Rsn {
            process,
            given,
            next,
        } => number_text(alloc, line, process, "delivers", given, next),
        FaultDetail::Again {
            process,
            message,
            position,
        } => duplicate_text(alloc, line, process, message, position),
        FaultDetail::Undelivered { det } => undelivered_text(alloc, line, det),
        FaultDetail::Entries { given, entries } => count_text(alloc, line, given, entries),
    }
}

fn kind_text(alloc: Global, fault: TextFault) -> Result<String, NoMemory>
    ensures { IfOk result (λ text. string_bytes text ≡ texts.kind_text fault) }
{
    let (line, sentence) = (fault.line, fault.kind.sentence());
    Ok(format!(in alloc; "line {line}: {sentence}")?)
}

fn number_text(
    alloc: Global,
    line: u32,
    process: Pid,
    does: &str,
    given: u32,
    next: u32,
) -> Result<String, NoMemory>
    ensures { IfOk result (λ text. string_bytes text
        ≡ texts.number_text line process.0 does.now given next) }
{
    let p = process.0;
    Ok(format!(in alloc;
        "line {line}: process {p} {does} with the number {given}, and its next is {next}"
    )?)
}

fn no_send_text(alloc: Global, line: u32, position: u32, process: Pid) -> Result<String, NoMemory>
    ensures { IfOk result (λ text. string_bytes text ≡ texts.no_send_text line position process.0) }
{
    let p = process.0;
    let sent = line_at(position);
    Ok(format!(in alloc;
        "line {line}: there is no earlier send to process {p} at position {position}, which is line {sent}"
    )?)
}

fn duplicate_text(
    alloc: Global,
    line: u32,
    process: Pid,
    message: MsgName,
    position: u32,
) -> Result<String, NoMemory>
    ensures { IfOk result (λ text. string_bytes text
        ≡ texts.duplicate_text line process.0 message position) }
{
    let p = process.0;
    let (source, ssn) = (message.source.0, message.ssn);
    let earlier = line_at(position);
    Ok(format!(in alloc;
        "line {line}: process {p} has delivered message {ssn} of process {source} already, at line {earlier}"
    )?)
}

fn undelivered_text(alloc: Global, line: u32, det: Det) -> Result<String, NoMemory>
    ensures { IfOk result (λ text. string_bytes text ≡ texts.undelivered_text line det) }
{
    let (source, ssn) = (det.source.0, det.ssn);
    let (dest, rsn) = (det.dest.0, det.rsn);
    Ok(format!(in alloc;
        "line {line}: there is no delivery of the determinant [{source},{ssn},{dest},{rsn}]"
    )?)
}

fn count_text(alloc: Global, line: u32, given: u32, entries: u32) -> Result<String, NoMemory>
    ensures { IfOk result (λ text. string_bytes text ≡ texts.count_text line given entries) }
{
    Ok(format!(in alloc;
        "line {line}: the end line counts {given} entries, and there are {entries}"
    )?)
}
