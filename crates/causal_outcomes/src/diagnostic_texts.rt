//! The diagnostic of an invalid trace, as text.
ghost use Rattle.std.specs.Prelude.{◌≡◌, IfOk};
ghost use Rattle.causal_outcomes.specs.DiagnosticText as texts;

use crate::diagnostic::{DiagnosedFault, Diagnostic};
use causal_audit::{Judged, verdict_line};
use causal_name::NoMemory;
use causal_text::{FaultDetail, TextFault, sentence};
use std::alloc::Global;

/// Returns the diagnostic of an invalid trace for standard error. Its first line describes the text's first error. If
/// the verdict for f on the entries before that error is known, a second line has it. Each line begins with the
/// command's name.
///
/// # Errors
/// `NoMemory` if an allocation failed.
pub fn diagnostic_text(
    alloc: Global,
    command: &str,
    f: u16,
    refusal: &DiagnosedFault,
) -> Result<Vec<u8>, NoMemory>
    ensures { IfOk result (λ text. text.items ≡ texts.diagnostic_text command.now f refusal.now) }
{
    let fault = refusal.fault;
    match refusal.diagnostic {
        None => sentence_line(alloc, command, fault, None),
        Some(remark) => diagnostic_lines(alloc, command, f, fault, remark),
    }
}

fn diagnostic_lines(
    alloc: Global,
    command: &str,
    f: u16,
    fault: TextFault,
    remark: Diagnostic,
) -> Result<Vec<u8>, NoMemory>
    ensures { IfOk result (λ text. text.items ≡ texts.diagnostic_lines command.now f fault remark) }
{
    let mut text = sentence_line(alloc, command, fault, remark.wrong)?;
    let before = verdict_before_lines(alloc, command, f, fault.line, remark.before)?;
    text.extend_from_slice(before.as_slice())?;
    Ok(text)
}

fn sentence_line(
    alloc: Global,
    command: &str,
    fault: TextFault,
    wrong: Option<FaultDetail>,
) -> Result<Vec<u8>, NoMemory>
    ensures { IfOk result (λ text. text.items ≡ texts.sentence_line command.now fault wrong) }
{
    let said = sentence(alloc, fault, wrong)?;
    let text = format!(in alloc; "{command}: {said}\n")?;
    Ok(text.into_bytes())
}

fn verdict_before_lines(
    alloc: Global,
    command: &str,
    f: u16,
    line: u32,
    before: Option<Judged>,
) -> Result<Vec<u8>, NoMemory>
    ensures { IfOk result (λ text. text.items
        ≡ texts.verdict_before_lines command.now f line before) }
{
    match before {
        Some(judged) => verdict_before_line(alloc, command, f, line, &judged),
        None => Ok(Vec::new(alloc)),
    }
}

fn verdict_before_line(
    alloc: Global,
    command: &str,
    f: u16,
    line: u32,
    judged: &Judged,
) -> Result<Vec<u8>, NoMemory>
    ensures { IfOk result (λ text. text.items
        ≡ texts.verdict_before_line command.now f line judged.now) }
{
    let begun = format!(in alloc; "{command}: the entries before line {line}: ")?;
    let mut text = begun.into_bytes();
    let verdict = verdict_line(alloc, f, judged)?;
    text.extend_from_slice(verdict.as_slice())?;
    Ok(text)
}
