//! Verdicts with the facts that explain them.
ghost use Rattle.std.specs.Prelude.{◌≡◌, ◌≢◌, ◌≤◌, ◌⊎◌, ◌↔◌, ℕ, List, None, IfOk};
ghost use Rattle.causal_audit.specs.Judgements.{IsJudgedOf};
ghost use Rattle.causal_text.specs.PushReaders.{HasReceived};
ghost use Rattle.nixu.specs.CVerdicts.{IsFaultOfText};
ghost use Rattle.nixu.specs.Entries.{recording_in, OfTrace};
ghost use Rattle.nixu.specs.Facts.{AreFactsCopied, AreFactsUntouched, HasNoHeader, CopiesOutExplanation, IsExplainedSoFar, IsExplainedText, AreStructs};
ghost use Rattle.nixu.specs.OpenReaders.{HasReadIn, IsNoReader};

use crate::c_fact::{CFact, c_facts_of};
use crate::c_verdict::{CVerdict, c_fault_verdict, c_verdict_of};
use crate::handle::Handle;
use crate::handle_content::HandleContent;
use crate::judgement::{TextError, judgement_of, parse_trace};
use causal_audit::Judged;
use causal_name::NoMemory;
use causal_report::facts_of;
use causal_text::PushReader;
use causal_trace::Trace;
use nixu_boundary::content_owner::ContentOwner;
use nixu_boundary::status::{CLOSED, FAULT, MISUSED, NO_MEMORY, OK};
use std::alloc::Global;

/// Writes the verdict on the trace that a text spells, and the facts that explain it, one for each line that
/// [`nixu_explain`](crate::views::nixu_explain) prints below the first: as many as fit to `facts`, and their number to
/// `needed`. Or writes the text's first error to `verdict`.
///
/// Returns [`OK`] or [`FAULT`]; or [`NO_MEMORY`], and nothing is written.
#[unsafe(no_mangle)]
pub extern "C" fn nixu_facts(
    alloc: Global,
    text: &[u8],
    faults: u16,
    verdict: &mut CVerdict,
    facts: &mut [CFact],
    needed: &mut usize,
) -> u32
    ensures ok { result ≡ OK
        → IsExplainedText text.now faults verdict.new facts.old facts.new needed.new }
    ensures fault { result ≡ FAULT → IsFaultOfText text.now verdict.new }
    ensures unchanged { result ≡ NO_MEMORY → verdict.new ≡ verdict.old }
    ensures facts_unchanged { result ≢ OK
        → AreFactsUntouched facts.old facts.new needed.old needed.new }
    ensures status { result ≤ NO_MEMORY }
{
    match parse_trace(alloc, text) {
        Ok(trace) => write_facts(alloc, &trace, faults, verdict, facts, needed),
        Err(TextError::Fault(fault)) => {
            *verdict = c_fault_verdict(fault);
            FAULT
        }
        Err(TextError::NoMemory) => NO_MEMORY,
    }
}

/// Writes the same of the entries so far of a trace. The trace stays open.
///
/// Returns [`OK`]; [`NO_MEMORY`]; or [`CLOSED`] if no trace is open. After the last two, nothing is written.
#[unsafe(no_mangle)]
pub extern "C" fn nixu_trace_facts(
    alloc: Global,
    trace: &mut Handle,
    faults: u16,
    verdict: &mut CVerdict,
    facts: &mut [CFact],
    needed: &mut usize,
) -> u32
    ensures ok { result ≡ OK → OfTrace trace.old.held.value
        (λ r. CopiesOutExplanation r faults verdict.new facts.old facts.new needed.new) }
    ensures closed { (result ≡ CLOSED) ↔ (recording_in trace.old.held.value ≡ None) }
    ensures trace_unchanged { trace.new.held.value ≡ trace.old.held.value }
    ensures unchanged { result ≢ OK → verdict.new ≡ verdict.old }
    ensures facts_unchanged { result ≢ OK
        → AreFactsUntouched facts.old facts.new needed.old needed.new }
    ensures status { (result ≡ OK) ⊎ ((result ≡ NO_MEMORY) ⊎ (result ≡ CLOSED)) }
{
    let Some(kept) = trace.take(alloc) else {
        return CLOSED;
    };
    let status = match &*kept {
        HandleContent::Trace { trace: so_far, .. } => {
            write_facts(alloc, so_far, faults, verdict, facts, needed)
        }
        HandleContent::Reader(_) => CLOSED,
    };
    trace.fill(kept);
    status
}

/// Writes the same of the entries that the complete lines so far of a reader's text spell. The reader stays open.
///
/// Returns [`OK`]; [`NO_MEMORY`]; [`CLOSED`] if no reader is open; or [`MISUSED`] if the header line is not complete.
/// After the last three, nothing is written.
#[unsafe(no_mangle)]
pub extern "C" fn nixu_reader_facts(
    alloc: Global,
    reader: &mut Handle,
    faults: u16,
    verdict: &mut CVerdict,
    facts: &mut [CFact],
    needed: &mut usize,
) -> u32
    ensures ok { result ≡ OK → (most : ℕ) (b : List ℕ) → HasReadIn most reader.old.held.value b
        → IsExplainedSoFar most b faults verdict.new facts.old facts.new needed.new }
    ensures misused { result ≡ MISUSED → (most : ℕ) (b : List ℕ)
        → HasReadIn most reader.old.held.value b → HasNoHeader most b }
    ensures closed { (result ≡ CLOSED) ↔ IsNoReader reader.old.held.value }
    ensures reader_unchanged { reader.new.held.value ≡ reader.old.held.value }
    ensures unchanged { result ≢ OK → verdict.new ≡ verdict.old }
    ensures facts_unchanged { result ≢ OK
        → AreFactsUntouched facts.old facts.new needed.old needed.new }
    ensures status { (result ≢ FAULT) × (result ≤ CLOSED) }
{
    let Some(kept) = reader.take(alloc) else {
        return CLOSED;
    };
    let HandleContent::Reader(fed) = &*kept else {
        reader.fill(kept);
        return CLOSED;
    };
    let status = write_facts_so_far(alloc, fed, faults, verdict, facts, needed);
    reader.fill(kept);
    status
}

/// Writes the verdict on the complete lines of a reader, and the facts that explain it.
fn write_facts_so_far(
    alloc: Global,
    fed: &PushReader,
    faults: u16,
    verdict: &mut CVerdict,
    facts: &mut [CFact],
    needed: &mut usize,
) -> u32
    ensures ok { result ≡ OK → (most : ℕ) (b : List ℕ) → HasReceived most fed.now b
        → IsExplainedSoFar most b faults verdict.new facts.old facts.new needed.new }
    ensures misused { result ≡ MISUSED → (most : ℕ) (b : List ℕ)
        → HasReceived most fed.now b → HasNoHeader most b }
    ensures kept { result ≢ OK → verdict.new ≡ verdict.old }
    ensures facts_kept { result ≢ OK
        → AreFactsUntouched facts.old facts.new needed.old needed.new }
    ensures status { (result ≢ FAULT) × (result ≤ MISUSED) }
{
    match fed.trace_so_far() {
        Some(trace) => write_facts(alloc, trace, faults, verdict, facts, needed),
        None => MISUSED,
    }
}

/// Writes the verdict on a trace, and the facts that explain it.
fn write_facts(
    alloc: Global,
    trace: &Trace,
    faults: u16,
    verdict: &mut CVerdict,
    facts: &mut [CFact],
    needed: &mut usize,
) -> u32
    ensures ok { result ≡ OK
        → CopiesOutExplanation trace.now.recording faults verdict.new facts.old facts.new needed.new }
    ensures kept { result ≢ OK → verdict.new ≡ verdict.old }
    ensures facts_kept { result ≢ OK
        → AreFactsUntouched facts.old facts.new needed.old needed.new }
    ensures status { (result ≡ OK) ⊎ (result ≡ NO_MEMORY) }
{
    match explanation_of(alloc, trace, faults) {
        Ok(found) => {
            *verdict = c_verdict_of(&found.judged);
            copy_facts(found.facts.as_slice(), facts, needed);
            OK
        }
        Err(NoMemory) => NO_MEMORY,
    }
}

/// A verdict with its counts, and the facts that explain it.
#[derive(Drop)]
struct Explained {
    judged: Judged,
    facts: Vec<CFact>,
}

/// The verdict on a trace, and the facts that explain it.
fn explanation_of(alloc: Global, trace: &Trace, faults: u16) -> Result<Explained, NoMemory>
    ensures judged { IfOk result (λ found. IsJudgedOf trace.now.recording faults found.judged) }
    ensures facts { IfOk result (λ found.
        AreStructs trace.now.recording faults found.judged.verdict found.facts.items) }
{
    let judged = judgement_of(alloc, trace, faults)?;
    let found = facts_of(alloc, trace, faults, judged.verdict)?;
    let facts = c_facts_of(alloc, found.as_slice())?;
    Ok(Explained { judged, facts })
}

/// Copies as many of the facts as fit to the front of `out`, and sets `needed` to their number.
fn copy_facts(facts: &[CFact], out: &mut [CFact], needed: &mut usize)
    ensures { AreFactsCopied facts.now out.old out.new needed.new }
{
    let fitting = out.len().min(facts.len());
    out[..fitting].copy_from_slice(&facts[..fitting]);
    *needed = facts.len();
}
