//! A reader that is fed with the pieces of a text, to audit a run while it is recorded.
ghost use Rattle.std.specs.Prelude.{◌≡◌, ◌≢◌, ◌≤◌, ◌<◌, ◌↔◌, ◌⊎◌, ◌++◌, [], List, ℕ, None, IsSome, IfOk, IfErr, length};
ghost use Rattle.causal_trace.specs.Limits.{default_entries};
ghost use Rattle.causal_text.specs.PushReaders.{HasReceived};
ghost use Rattle.causal_text.specs.Spelling.{IsFirstFaultWithin, SpellsWithin};
ghost use Rattle.nixu.specs.VerdictArrays.{AreVerdictsOfTextWithin, AreFaultsOfTextWithin};
ghost use Rattle.nixu.specs.OpenReaders.{HasReadIn, IsReader, IsNoReader, IsFaultOfAllTexts};
ghost use Rattle.nixu.specs.Limits.{IsEntryCount};

use crate::audit::write_verdicts;
use crate::c_verdict::{CVerdict, c_fault_verdict};
use crate::handle::Handle;
use crate::handle_content::HandleContent;
use crate::limits::limits_of;
use causal_text::{PushReader, TextFault, TextKind};
use causal_trace::limits::{DEFAULT_LIMITS, Limits};
use causal_trace::trace::Trace;
use nixu_boundary::content_owner::ContentOwner;
use nixu_boundary::status::{CLOSED, FAULT, MISUSED, NO_MEMORY, OK};
use std::alloc::Global;
use std::mem;

/// Opens a reader under the default limits; it has read nothing.
///
/// Returns [`OK`]; [`MISUSED`] if something is already open; or [`NO_MEMORY`]. After the last two, nothing changes.
#[unsafe(no_mangle)]
pub extern "C" fn nixu_reader_open(alloc: Global, reader: &mut Handle) -> u32
    ensures ok { result ≡ OK → HasReadIn default_entries reader.new.held.value [] }
    ensures misused { (result ≡ MISUSED) ↔ IsSome reader.old.held.value }
    ensures unchanged { result ≢ OK → reader.new.held.value ≡ reader.old.held.value }
    ensures status { (result ≢ FAULT) × (result ≤ MISUSED) }
{
    open_by(alloc, reader, DEFAULT_LIMITS)
}

/// Opens a reader of a trace with at most `entries` entries, 1 to 16,777,216. The trace may list 16 determinants for
/// each entry in all, and the text may have 512 bytes for each.
///
/// Returns the statuses of [`nixu_reader_open`], and [`MISUSED`] if `entries` is out of range.
#[unsafe(no_mangle)]
pub extern "C" fn nixu_reader_open_within(alloc: Global, reader: &mut Handle, entries: u32) -> u32
    ensures ok { result ≡ OK → HasReadIn entries reader.new.held.value [] }
    ensures count { result ≡ OK → IsEntryCount entries }
    ensures misused { (result ≡ MISUSED)
        ↔ (IsSome reader.old.held.value ⊎ (IsEntryCount entries → ⊥)) }
    ensures unchanged { result ≢ OK → reader.new.held.value ≡ reader.old.held.value }
    ensures status { (result ≢ FAULT) × (result ≤ MISUSED) }
{
    match limits_of(entries) {
        Some(limits) => open_by(alloc, reader, limits),
        None => MISUSED,
    }
}

/// Opens a reader under these limits.
fn open_by(alloc: Global, reader: &mut Handle, limits: Limits) -> u32
    ensures ok { result ≡ OK → HasReadIn limits.entries reader.new.held.value [] }
    ensures misused { (result ≡ MISUSED) ↔ IsSome reader.old.held.value }
    ensures kept { result ≢ OK → reader.new.held.value ≡ reader.old.held.value }
    ensures status { (result ≢ FAULT) × (result ≤ MISUSED) }
{
    if reader.is_open() {
        return MISUSED;
    }
    reader.keep(
        alloc,
        HandleContent::Reader(PushReader::within(alloc, limits)),
    )
}

/// Reads one more piece of a text, of any length. An error is returned as soon as a line has one, whatever follows.
///
/// Returns [`OK`]; [`FAULT`], with the error in `verdict`; [`NO_MEMORY`]; or [`CLOSED`] if no reader is open, and nothing
/// changes. After `FAULT` and `NO_MEMORY` the reader is closed.
#[unsafe(no_mangle)]
pub extern "C" fn nixu_reader_feed(
    alloc: Global,
    reader: &mut Handle,
    piece: &[u8],
    verdict: &mut CVerdict,
) -> u32
    ensures ok { result ≡ OK → (most : ℕ) (b : List ℕ) → HasReadIn most reader.old.held.value b
        → HasReadIn most reader.new.held.value (b ++ piece.now) }
    ensures fault { result ≡ FAULT → (most : ℕ) (b : List ℕ)
        → HasReadIn most reader.old.held.value b → IsFaultOfAllTexts most (b ++ piece.now) verdict.new }
    ensures closed { result ≡ CLOSED → (most : ℕ) (b : List ℕ)
        → HasReadIn most reader.old.held.value b → ⊥ }
    ensures not_open { IsNoReader reader.old.held.value
        → (result ≡ CLOSED) × (reader.new.held.value ≡ reader.old.held.value) }
    ensures closes { IsReader reader.old.held.value → result ≢ OK → reader.new.held.value ≡ None }
    ensures unchanged { result ≢ FAULT → verdict.new ≡ verdict.old }
    ensures status { (result ≢ MISUSED) × (result ≤ CLOSED) }
{
    let Some(mut kept) = reader.take(alloc) else {
        return CLOSED;
    };
    let HandleContent::Reader(fed) = &mut *kept else {
        reader.fill(kept);
        return CLOSED;
    };
    let status = feed(alloc, fed, piece, verdict);
    if status == OK {
        reader.fill(kept);
    }
    status
}

/// Feeds the reader with one more piece. After another status than [`OK`] nothing is promised of the reader.
fn feed(alloc: Global, fed: &mut PushReader, piece: &[u8], verdict: &mut CVerdict) -> u32
    ensures ok { result ≡ OK → (most : ℕ) (b : List ℕ) → HasReceived most fed.old b
        → HasReceived most fed.new (b ++ piece.now) }
    ensures fault { result ≡ FAULT → (most : ℕ) (b : List ℕ) → HasReceived most fed.old b
        → IsFaultOfAllTexts most (b ++ piece.now) verdict.new }
    ensures kept { result ≢ FAULT → verdict.new ≡ verdict.old }
    ensures status { result ≤ NO_MEMORY }
{
    match mem::replace(fed, PushReader::new(alloc)).feed(piece) {
        Ok(next) => {
            *fed = next;
            OK
        }
        Err(refusal) => match refusal.fault.kind {
            TextKind::NoMemory => NO_MEMORY,
            _ => {
                *verdict = c_fault_verdict(refusal.fault);
                FAULT
            }
        },
    }
}

/// Ends a text and writes the verdicts on the trace that it spells, `verdict[i]` for failure bound `faults[i]`; or its
/// first error into each.
///
/// Returns [`OK`] or [`FAULT`]; [`MISUSED`] if `verdict` is shorter than `faults`; [`CLOSED`] if no reader is open; or
/// [`NO_MEMORY`]. After `MISUSED` and `CLOSED` nothing changes; after the others the reader is closed.
#[unsafe(no_mangle)]
pub extern "C" fn nixu_reader_finish(
    alloc: Global,
    reader: &mut Handle,
    faults: &[u16],
    verdict: &mut [CVerdict],
) -> u32
    ensures ok { result ≡ OK → (most : ℕ) (b : List ℕ) → HasReadIn most reader.old.held.value b
        → AreVerdictsOfTextWithin most b faults.now verdict.old verdict.new }
    ensures fault { result ≡ FAULT → (most : ℕ) (b : List ℕ)
        → HasReadIn most reader.old.held.value b
        → AreFaultsOfTextWithin most b (length faults.now) verdict.old verdict.new }
    ensures misused { (result ≡ MISUSED) ↔ (length verdict.old < length faults.now) }
    ensures closed { result ≡ CLOSED → (most : ℕ) (b : List ℕ)
        → HasReadIn most reader.old.held.value b → ⊥ }
    ensures not_open { IsNoReader reader.old.held.value
        → (MISUSED ≤ result) × (reader.new.held.value ≡ reader.old.held.value) }
    ensures closes { IsReader reader.old.held.value
        → result ≢ MISUSED → reader.new.held.value ≡ None }
    ensures reader_unchanged { result ≡ MISUSED → reader.new.held.value ≡ reader.old.held.value }
    ensures unchanged { NO_MEMORY ≤ result → verdict.new ≡ verdict.old }
    ensures status { result ≤ CLOSED }
{
    if verdict.len() < faults.len() {
        return MISUSED;
    }
    let Some(kept) = reader.take(alloc) else {
        return CLOSED;
    };
    if matches!(*kept, HandleContent::Trace { .. }) {
        reader.fill(kept);
        return CLOSED;
    }
    match Box::into_inner(kept) {
        HandleContent::Reader(fed) => finish(alloc, fed, faults, verdict),
        HandleContent::Trace { .. } => unreachable!(),
    }
}

/// Returns the trace of the reader's text, or the text's first error.
fn end(fed: PushReader) -> Result<Trace, TextFault>
    ensures ok { IfOk result (λ trace. (most : ℕ) (b : List ℕ) → HasReceived most fed b
        → SpellsWithin most b trace.recording) }
    ensures err { IfErr result (λ fault. (most : ℕ) (b : List ℕ) → HasReceived most fed b
        → fault.kind ≢ TextKind.NoMemory → IsFirstFaultWithin most b fault) }
{
    match fed.finish() {
        Ok(trace) => Ok(trace),
        Err(refusal) => Err(refusal.fault),
    }
}

/// Ends the text of the reader.
fn finish(alloc: Global, fed: PushReader, faults: &[u16], verdict: &mut [CVerdict]) -> u32
    requires { length faults.now ≤ length verdict.old }
    ensures ok { result ≡ OK → (most : ℕ) (b : List ℕ) → HasReceived most fed b
        → AreVerdictsOfTextWithin most b faults.now verdict.old verdict.new }
    ensures fault { result ≡ FAULT → (most : ℕ) (b : List ℕ) → HasReceived most fed b
        → AreFaultsOfTextWithin most b (length faults.now) verdict.old verdict.new }
    ensures kept { NO_MEMORY ≤ result → verdict.new ≡ verdict.old }
    ensures status { result ≤ NO_MEMORY }
{
    match end(fed) {
        Ok(trace) => write_verdicts(alloc, &trace, faults, verdict),
        Err(fault) => match fault.kind {
            TextKind::NoMemory => NO_MEMORY,
            _ => {
                verdict[..faults.len()].fill(c_fault_verdict(fault));
                FAULT
            }
        },
    }
}

/// Closes a reader and frees its memory; does nothing if nothing is open.
#[unsafe(no_mangle)]
pub extern "C" fn nixu_reader_close(alloc: Global, reader: &mut Handle)
    ensures { reader.new.held.value ≡ None }
{
    reader.close(alloc);
}
