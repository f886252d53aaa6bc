//! Audits of texts, as by the program's `audit` command.
ghost use Rattle.std.specs.Prelude.{◌≡◌, ◌≤◌, ◌<◌, ◌⊎◌, ◌↔◌, ◌++◌, drop, length, IfOk};
ghost use Rattle.nixu.specs.VerdictArrays.{AreVerdictStructs, FirstAreVerdicts, IsVerdictStruct, AreVerdictsOfText, AreFaultsOfText};
ghost use Rattle.nixu.specs.CVerdicts.{IsVerdictOfText, IsFaultOfText};

use crate::c_verdict::{CVerdict, c_fault_verdict, c_verdict_of};
use crate::judgement::{TextError, judge_text, judgement_of, parse_trace};
use causal_name::NoMemory;
use causal_trace::Trace;
use nixu_boundary::status::{FAULT, MISUSED, NO_MEMORY, OK};
use std::alloc::Global;

/// Returns the version of this interface. It fixes the layouts and numbers of nixu.h.
#[unsafe(no_mangle)]
pub extern "C" fn nixu_version() -> u32
    ensures { result ≡ 1 }
{
    1
}

/// Writes the verdict on the trace that a text spells, with failure bound `faults`; or the text's first error.
///
/// Returns [`OK`] or [`FAULT`]; or [`NO_MEMORY`], and `verdict` is unchanged.
#[unsafe(no_mangle)]
pub extern "C" fn nixu_audit(alloc: Global, text: &[u8], faults: u16, verdict: &mut CVerdict) -> u32
    ensures ok { result ≡ OK → IsVerdictOfText text.now faults verdict.new }
    ensures fault { result ≡ FAULT → IsFaultOfText text.now verdict.new }
    ensures unchanged { result ≡ NO_MEMORY → verdict.new ≡ verdict.old }
    ensures status { result ≤ NO_MEMORY }
{
    match judge_text(alloc, text, faults) {
        Ok(judged) => {
            *verdict = c_verdict_of(&judged);
            OK
        }
        Err(TextError::Fault(fault)) => {
            *verdict = c_fault_verdict(fault);
            FAULT
        }
        Err(TextError::NoMemory) => NO_MEMORY,
    }
}

/// Writes the verdicts on the trace that a text spells, `verdict[i]` for failure bound `faults[i]`; or the text's first
/// error into each. The text is read once.
///
/// Returns [`OK`] or [`FAULT`]; [`MISUSED`] if `verdict` is shorter than `faults`, else [`NO_MEMORY`] if allocation
/// failed; after both, `verdict` is unchanged. Needs 288 bytes for each bound, besides the audit's memory.
#[unsafe(no_mangle)]
pub extern "C" fn nixu_audit_each(
    alloc: Global,
    text: &[u8],
    faults: &[u16],
    verdict: &mut [CVerdict],
) -> u32
    ensures ok { result ≡ OK → AreVerdictsOfText text.now faults.now verdict.old verdict.new }
    ensures fault { result ≡ FAULT →
        AreFaultsOfText text.now (length faults.now) verdict.old verdict.new }
    ensures misused { (result ≡ MISUSED) ↔ (length verdict.old < length faults.now) }
    ensures unchanged { NO_MEMORY ≤ result → verdict.new ≡ verdict.old }
    ensures status { result ≤ MISUSED }
{
    if verdict.len() < faults.len() {
        return MISUSED;
    }
    match parse_trace(alloc, text) {
        Ok(trace) => write_verdicts(alloc, &trace, faults, verdict),
        Err(TextError::Fault(fault)) => {
            verdict[..faults.len()].fill(c_fault_verdict(fault));
            FAULT
        }
        Err(TextError::NoMemory) => NO_MEMORY,
    }
}

/// Writes the verdicts on a trace, `verdict[i]` for failure bound `faults[i]`.
///
/// Returns [`OK`]; or [`NO_MEMORY`], and `verdict` is unchanged.
pub(crate) fn write_verdicts(
    alloc: Global,
    trace: &Trace,
    faults: &[u16],
    verdict: &mut [CVerdict],
) -> u32
    requires { length faults.now ≤ length verdict.old }
    ensures ok { result ≡ OK →
        FirstAreVerdicts trace.now.recording faults.now verdict.old verdict.new }
    ensures kept { result ≡ NO_MEMORY → verdict.new ≡ verdict.old }
    ensures status { (result ≡ OK) ⊎ (result ≡ NO_MEMORY) }
{
    match verdicts_of(alloc, trace, faults) {
        Ok(summaries) => {
            verdict[..faults.len()].copy_from_slice(summaries.as_slice());
            OK
        }
        Err(NoMemory) => NO_MEMORY,
    }
}

/// The verdict structs of a trace, one for each failure bound.
fn verdicts_of(alloc: Global, trace: &Trace, faults: &[u16]) -> Result<Vec<CVerdict>, NoMemory>
    ensures verdict { IfOk result
        (λ verdict. AreVerdictStructs trace.now.recording faults.now verdict.items) }
    ensures count { IfOk result (λ verdict. length verdict.items ≡ length faults.now) }
{
    let mut summaries = Vec::with_capacity(alloc, faults.len())?;
    for faults in faults {
        summaries.push(verdict_for(alloc, trace, *faults)?)?;
    }
    Ok(summaries)
}

/// The verdict struct of a trace.
pub(crate) fn verdict_for(alloc: Global, trace: &Trace, faults: u16) -> Result<CVerdict, NoMemory>
    ensures { IfOk result (IsVerdictStruct trace.now.recording faults) }
{
    match judgement_of(alloc, trace, faults) {
        Ok(judged) => Ok(c_verdict_of(&judged)),
        Err(refused) => Err(refused),
    }
}
