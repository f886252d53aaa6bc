//! Merging of the recordings of a run's processes, as by the program's `merge` command.
ghost use Rattle.std.specs.Prelude.{◌≡◌, ◌≢◌, ◌<◌, ◌≤◌, ◌⊎◌, ◌↔◌, ℕ, List, IfOk, IfErr, IfSome};
ghost use Rattle.causal_merge.specs.Merges.{IsFirstMergeFaultWithin};
ghost use Rattle.nixu.specs.CMergeFaults.{merge_number, CopiesOutMergeSentence, IsNoMergeFault};
ghost use Rattle.nixu.specs.Limits.{IsEntryCount};
ghost use Rattle.nixu.specs.Merging.{joined_text, IsFaultOfRecordings, IsMergeErrorOf, IsMergedText};
ghost use Rattle.nixu_boundary.specs.Buffers.{CopiesOut, IsUntouched};

use crate::c_merge_fault::{CMergeFault, c_merge_fault_of, merge_number};
use crate::c_recording::CRecording;
use crate::faults::kind_of;
use crate::limits::limits_of;
use crate::places::recording_place;
use causal_holders::Holders;
use causal_merge::{MergeFault, MergeKind, merge_within};
use causal_name::NoMemory;
use causal_text::{TextKind, text_of};
use causal_trace::limits::Limits;
use nixu_boundary::buffer::copy_out;
use nixu_boundary::status::{FAULT, MISUSED, NO_MEMORY, OK};
use std::alloc::Global;

/// Writes the trace that the recordings of a run's processes merge into, with at most `entries` entries, 1 to
/// 16,777,216: as much of it as fits to `out`, and its whole length to `needed`. Or writes the recordings' first error
/// to `fault`. The recordings are read as one text; they have at most 1,024 bytes for each entry, and at most
/// 2,147,483,648.
///
/// Returns [`OK`] or [`FAULT`]; [`NO_MEMORY`]; or [`MISUSED`] if `entries` is out of range. After the last two, nothing
/// is written. Copies the recordings.
#[unsafe(no_mangle)]
pub extern "C" fn nixu_merge(
    alloc: Global,
    recordings: &[CRecording<'_>],
    entries: u32,
    out: &mut [u8],
    needed: &mut usize,
    fault: &mut CMergeFault,
) -> u32
    ensures ok { result ≡ OK → CopiesOut
        (IsMergedText entries (joined_text recordings.now)) out.old out.new needed.new }
    ensures fault { result ≡ FAULT → IsFaultOfRecordings entries recordings.now fault.new }
    ensures misused { (result ≡ MISUSED) ↔ (IsEntryCount entries → ⊥) }
    ensures unchanged { result ≢ OK → IsUntouched out.old out.new needed.old needed.new }
    ensures fault_unchanged { result ≢ FAULT → fault.new ≡ fault.old }
    ensures status { result ≤ MISUSED }
{
    match limits_of(entries) {
        Some(limits) => merge(alloc, recordings, limits, out, needed, fault),
        None => MISUSED,
    }
}

/// Writes the trace that the recordings merge into, or their first error.
fn merge(
    alloc: Global,
    recordings: &[CRecording<'_>],
    limits: Limits,
    out: &mut [u8],
    needed: &mut usize,
    fault: &mut CMergeFault,
) -> u32
    ensures ok { result ≡ OK → CopiesOut
        (IsMergedText limits.entries (joined_text recordings.now)) out.old out.new needed.new }
    ensures fault { result ≡ FAULT → IsFaultOfRecordings limits.entries recordings.now fault.new }
    ensures kept { result ≢ OK → IsUntouched out.old out.new needed.old needed.new }
    ensures fault_kept { result ≢ FAULT → fault.new ≡ fault.old }
    ensures status { result ≤ NO_MEMORY }
{
    match merged_text(alloc, recordings, limits) {
        Ok(text) => {
            copy_out(text.as_slice(), out, needed);
            OK
        }
        Err(MergeError::Fault(found)) => {
            *fault = c_merge_fault_of(recording_place(found.line, recordings), &found);
            FAULT
        }
        Err(MergeError::NoMemory) => NO_MEMORY,
    }
}

/// Why recordings were not merged.
#[derive(Clone, Copy)]
pub(crate) enum MergeError {
    /// They do not merge into a trace; this is their first error.
    Fault(MergeFault),
    /// Allocation failed.
    NoMemory,
}

impl From<NoMemory> for MergeError {
    ghost use Rattle.nixu.specs.declared.merging.MergeError.TheVariants as failure;
    ghost use Rattle.std.specs.Prelude.{◌≡◌};

    ghost from_gives = { λ _ error. error ≡ failure.NoMemory };

    fn from(_refused: NoMemory) -> MergeError {
        MergeError::NoMemory
    }
}

/// The canonical text of the trace that the recordings merge into.
fn merged_text(
    alloc: Global,
    recordings: &[CRecording<'_>],
    limits: Limits,
) -> Result<Vec<u8>, MergeError>
    ensures ok { IfOk result
        (λ bytes. IsMergedText limits.entries (joined_text recordings.now) bytes.items) }
    ensures err { IfErr result (IsMergeErrorOf limits.entries (joined_text recordings.now)) }
{
    let text = joined_text(alloc, recordings)?;
    merge_text(alloc, text.as_slice(), limits)
}

/// The canonical text of the trace that the recordings in a text merge into.
fn merge_text(alloc: Global, text: &[u8], limits: Limits) -> Result<Vec<u8>, MergeError>
    ensures ok { IfOk result (λ bytes. IsMergedText limits.entries text.now bytes.items) }
    ensures err { IfErr result (IsMergeErrorOf limits.entries text.now) }
{
    match merge_within(alloc, text, limits) {
        Ok(merged) => Ok(text_of(alloc, &merged.trace)?),
        Err(fault) => Err(merge_error(fault)),
    }
}

/// The error of recordings, or that an allocation failed.
fn merge_error(fault: MergeFault) -> MergeError
    ensures { (most : ℕ) (text : List ℕ)
        → (fault.kind ≢ MergeKind.Line TextKind.NoMemory → IsFirstMergeFaultWithin most text fault)
        → IsMergeErrorOf most text result }
{
    let number = merge_number(&fault.kind);
    if number == 0 {
        return MergeError::NoMemory;
    }
    MergeError::Fault(fault)
}

/// The bytes of recordings, one after the other.
fn joined_text(alloc: Global, recordings: &[CRecording<'_>]) -> Result<Vec<u8>, NoMemory>
    ensures { IfOk result (λ bytes. bytes.items ≡ joined_text recordings.now) }
{
    let mut bytes = Vec::new(alloc);
    for recording in recordings {
        bytes.extend_from_slice(recording.text)?;
    }
    Ok(bytes)
}

/// Writes the sentence for the number of an error of recordings to `out`, without a line feed, as much of it as fits, and
/// its whole length to `needed`.
///
/// Returns [`OK`]; or [`MISUSED`] if no error has the number, and nothing is written. Allocates nothing.
#[unsafe(no_mangle)]
pub extern "C" fn nixu_merge_fault_text(fault: u32, out: &mut [u8], needed: &mut usize) -> u32
    ensures ok { result ≡ OK → CopiesOutMergeSentence fault out.old out.new needed.new }
    ensures misused { result ≡ MISUSED → IsNoMergeFault fault }
    ensures unchanged { result ≡ MISUSED → IsUntouched out.old out.new needed.old needed.new }
    ensures status { (result ≡ OK) ⊎ (result ≡ MISUSED) }
{
    match merge_kind_of(fault) {
        Some(kind) => {
            copy_out(kind.sentence().as_bytes(), out, needed);
            OK
        }
        None => MISUSED,
    }
}

/// A kind of error with this number; None if there is none.
fn merge_kind_of(number: u32) -> Option<MergeKind>
    ensures some { IfSome result (λ kind. (merge_number kind ≡ number) × (0 < number)) }
    ensures none { result ≡ None → IsNoMergeFault number }
{
    match number {
        21 => Some(MergeKind::NoHeader {
            missing: Holders::none(),
        }),
        22 => Some(MergeKind::Twice),
        _ => match kind_of(number) {
            Some(kind) => Some(MergeKind::Line(kind)),
            None => None,
        },
    }
}
