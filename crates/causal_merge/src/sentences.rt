//! The error message with values.
ghost use Rattle.std.specs.Prelude.{◌≡◌, IfOk};
ghost use Rattle.std.specs.String.{string_bytes};
ghost use Rattle.causal_line.specs.DetailTexts as text;
ghost use Rattle.causal_merge.specs.DetailTexts as texts;

use crate::fault::{MergeFault, MergeKind};
use crate::fault_details::MergeDetail;
use crate::sends::SendName;
use causal_line::fault_details::FaultDetail;
use causal_line::kind::{TextFault, TextKind};
use causal_line::sentences;
use causal_name::{MsgName, NoMemory, Pid};
use std::alloc::Global;

/// Returns the error message of recorder files: the wrong number and the correct one, or the send, message or
/// determinant in question. Without such values it is the message of the error's kind.
///
/// # Errors
/// `NoMemory` if an allocation failed.
pub fn merge_sentence(alloc: Global, fault: &MergeFault) -> Result<String, NoMemory>
    ensures { IfOk result (λ text. string_bytes text ≡ texts.merge_sentence fault.now) }
{
    match fault.detail {
        Some(detail) => merge_detail_text(alloc, fault.line, detail),
        None => merge_kind_text(alloc, fault.line, fault.kind),
    }
}

fn merge_detail_text(alloc: Global, line: u32, detail: MergeDetail) -> Result<String, NoMemory>
    ensures { IfOk result (λ text. string_bytes text ≡ texts.merge_detail_text line detail) }
{
    match detail {
        MergeDetail::Ssn {
            process,
            given,
            next,
        } => {
            let wrong = FaultDetail::Ssn {
                process,
                given,
                next,
            };
            line_text(alloc, line, wrong)
        }
        MergeDetail::Send { process, name } => merge_no_send_text(alloc, line, process, name),
        MergeDetail::Rsn {
            process,
            given,
            next,
        } => {
            let wrong = FaultDetail::Rsn {
                process,
                given,
                next,
            };
            line_text(alloc, line, wrong)
        }
        MergeDetail::Again { process, message } => merge_duplicate_text(
            alloc, line, process, message,
        ),
        MergeDetail::Undelivered { det } => {
            line_text(alloc, line, FaultDetail::Undelivered { det })
        }
    }
}

/// Returns the message that a trace's text has for these values.
fn line_text(alloc: Global, line: u32, wrong: FaultDetail) -> Result<String, NoMemory>
    ensures { IfOk result (λ said. string_bytes said ≡ text.detail_text line wrong) }
{
    // with values the message does not depend on the kind
    let fault = TextFault {
        line,
        kind: TextKind::NoDelivery,
    };
    sentences::sentence(alloc, fault, Some(wrong))
}

fn merge_kind_text(alloc: Global, line: u32, kind: MergeKind) -> Result<String, NoMemory>
    ensures { IfOk result (λ text. string_bytes text ≡ texts.merge_kind_text line kind) }
{
    let sentence = kind.sentence();
    Ok(format!(in alloc; "line {line}: {sentence}")?)
}

fn merge_no_send_text(
    alloc: Global,
    line: u32,
    process: Pid,
    name: SendName,
) -> Result<String, NoMemory>
    ensures { IfOk result (λ text. string_bytes text ≡ texts.merge_no_send_text line process.0 name) }
{
    let p = process.0;
    let (source, lane, ssn) = (name.source.0, name.lane, name.ssn);
    Ok(format!(in alloc;
        "line {line}: there is no earlier send to process {p} of message {ssn} of incarnation {lane} of process {source}"
    )?)
}

fn merge_duplicate_text(
    alloc: Global,
    line: u32,
    process: Pid,
    message: MsgName,
) -> Result<String, NoMemory>
    ensures { IfOk result (λ text. string_bytes text
        ≡ texts.merge_duplicate_text line process.0 message) }
{
    let p = process.0;
    let (source, ssn) = (message.source.0, message.ssn);
    Ok(format!(in alloc;
        "line {line}: process {p} has delivered message {ssn} of process {source} already"
    )?)
}
