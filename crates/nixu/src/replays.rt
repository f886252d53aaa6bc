//! Whether the recoveries of a run follow what survives.
ghost use Rattle.std.specs.Prelude.{◌≡◌, ◌≢◌, ◌≤◌, ◌⊎◌, ◌↔◌, None, IfOk};
ghost use Rattle.nixu.specs.CStrays.{IsStrayStruct, IsStrayOfText, IsStrayFaultOfText};
ghost use Rattle.nixu.specs.Entries.{recording_in, OfTrace};

use crate::c_stray::{CStray, c_fault_stray, c_stray_of};
use crate::handle::Handle;
use crate::handle_content::HandleContent;
use crate::judgement::{TextError, parse_trace};
use causal_name::NoMemory;
use causal_replays::first_stray;
use causal_trace::Trace;
use nixu_boundary::content_owner::ContentOwner;
use nixu_boundary::status::{CLOSED, FAULT, NO_MEMORY, OK};
use std::alloc::Global;

/// Writes whether the recoveries of the run that a text spells follow what survives, with the first stray if they do not;
/// or the text's first error.
///
/// Returns [`OK`] or [`FAULT`]; or [`NO_MEMORY`], and `stray` is unchanged.
#[unsafe(no_mangle)]
pub extern "C" fn nixu_replays(alloc: Global, text: &[u8], stray: &mut CStray) -> u32
    ensures ok { result ≡ OK → IsStrayOfText text.now stray.new }
    ensures fault { result ≡ FAULT → IsStrayFaultOfText text.now stray.new }
    ensures unchanged { result ≡ NO_MEMORY → stray.new ≡ stray.old }
    ensures status { result ≤ NO_MEMORY }
{
    match parse_trace(alloc, text) {
        Ok(trace) => write_stray(alloc, &trace, stray),
        Err(TextError::Fault(fault)) => {
            *stray = c_fault_stray(fault);
            FAULT
        }
        Err(TextError::NoMemory) => NO_MEMORY,
    }
}

/// Writes the same of the entries so far of a trace. The trace stays open.
///
/// Returns [`OK`]; [`NO_MEMORY`]; or [`CLOSED`] if no trace is open. After the last two, `stray` is unchanged.
#[unsafe(no_mangle)]
pub extern "C" fn nixu_trace_replays(alloc: Global, trace: &mut Handle, stray: &mut CStray) -> u32
    ensures ok { result ≡ OK → OfTrace trace.old.held.value (λ r. IsStrayStruct r stray.new) }
    ensures closed { (result ≡ CLOSED) ↔ (recording_in trace.old.held.value ≡ None) }
    ensures trace_unchanged { trace.new.held.value ≡ trace.old.held.value }
    ensures unchanged { result ≢ OK → stray.new ≡ stray.old }
    ensures status { (result ≡ OK) ⊎ ((result ≡ NO_MEMORY) ⊎ (result ≡ CLOSED)) }
{
    let Some(kept) = trace.take(alloc) else {
        return CLOSED;
    };
    let status = match &*kept {
        HandleContent::Trace { trace: so_far, .. } => write_stray(alloc, so_far, stray),
        HandleContent::Reader(_) => CLOSED,
    };
    trace.fill(kept);
    status
}

/// Writes the first stray of a trace, or that there is none.
fn write_stray(alloc: Global, trace: &Trace, stray: &mut CStray) -> u32
    ensures ok { result ≡ OK → IsStrayStruct trace.now.recording stray.new }
    ensures kept { result ≢ OK → stray.new ≡ stray.old }
    ensures status { (result ≡ OK) ⊎ (result ≡ NO_MEMORY) }
{
    match stray_of(alloc, trace) {
        Ok(found) => {
            *stray = found;
            OK
        }
        Err(NoMemory) => NO_MEMORY,
    }
}

/// The struct of the first stray of a trace, or of none.
fn stray_of(alloc: Global, trace: &Trace) -> Result<CStray, NoMemory>
    ensures { IfOk result (IsStrayStruct trace.now.recording) }
{
    match first_stray(alloc, trace) {
        Ok(found) => Ok(c_stray_of(found)),
        Err(refused) => Err(refused),
    }
}
