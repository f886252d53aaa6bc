//! A trace that is built entry by entry, for a recorder in the same process.
ghost use Rattle.std.specs.Prelude.{◌≡◌, ◌≢◌, ◌≤◌, ◌⊎◌, ◌↔◌, [], None, Some, IsSome};
ghost use Rattle.causal_lines.specs.Canonical.{canonical_text};
ghost use Rattle.causal_trace.specs.Limits.{IsProcessCount, default_entries};
ghost use Rattle.nixu.specs.VerdictArrays.{IsVerdictStruct};
ghost use Rattle.nixu.specs.Entries.{entry_from_c, entry_limit_in, recording_in, OfTrace, CanPush, CanPushIn, IsFaultNumberOf, IsFaultNumberIn};
ghost use Rattle.nixu.specs.Limits.{IsEntryCount};
ghost use Rattle.nixu_boundary.specs.Buffers.{IsCopiedOut, IsUntouched};

use crate::audit::verdict_for;
use crate::c_entry::{CEntry, entry_from_c};
use crate::c_verdict::CVerdict;
use crate::handle::Handle;
use crate::handle_content::HandleContent;
use crate::limits::limits_of;
use crate::numbers::kind_number;
use causal_name::NoMemory;
use causal_text::{TextKind, text_of};
use causal_trace::limits::{DEFAULT_LIMITS, Limits};
use causal_trace::{Entry, Trace, TraceFault};
use nixu_boundary::buffer::copy_out;
use nixu_boundary::c_determinant::CDeterminant;
use nixu_boundary::content_owner::ContentOwner;
use nixu_boundary::status::{CLOSED, FAULT, MISUSED, NO_MEMORY, OK};
use std::alloc::Global;

/// Opens an empty trace of `processes` processes, 1 to 256, under the default limits.
///
/// Returns [`OK`]; [`MISUSED`] if something is already open or `processes` is out of range; or [`NO_MEMORY`]. After the
/// last two, nothing changes.
#[unsafe(no_mangle)]
pub extern "C" fn nixu_trace_open(alloc: Global, trace: &mut Handle, processes: u16) -> u32
    ensures ok { result ≡ OK
        → recording_in trace.new.held.value ≡ Some (record { processes = processes; past = [] }) }
    ensures entry_limit { result ≡ OK → entry_limit_in trace.new.held.value ≡ default_entries }
    ensures count { result ≡ OK → IsProcessCount processes }
    ensures misused { (result ≡ MISUSED)
        ↔ (IsSome trace.old.held.value ⊎ (IsProcessCount processes → ⊥)) }
    ensures unchanged { result ≢ OK → trace.new.held.value ≡ trace.old.held.value }
    ensures status { (result ≢ FAULT) × (result ≤ MISUSED) }
{
    open_by(alloc, trace, processes, DEFAULT_LIMITS)
}

/// Opens an empty trace of `processes` processes, 1 to 256, with at most `entries` entries, 1 to 16,777,216. The trace
/// may list 16 determinants for each entry in all.
///
/// Returns the statuses of [`nixu_trace_open`], and [`MISUSED`] if `entries` is out of range.
#[unsafe(no_mangle)]
pub extern "C" fn nixu_trace_open_within(
    alloc: Global,
    trace: &mut Handle,
    processes: u16,
    entries: u32,
) -> u32
    ensures ok { result ≡ OK
        → recording_in trace.new.held.value ≡ Some (record { processes = processes; past = [] }) }
    ensures entry_limit { result ≡ OK → entry_limit_in trace.new.held.value ≡ entries }
    ensures count { result ≡ OK → IsProcessCount processes × IsEntryCount entries }
    ensures misused { (result ≡ MISUSED) ↔ (IsSome trace.old.held.value
        ⊎ ((IsProcessCount processes → ⊥) ⊎ (IsEntryCount entries → ⊥))) }
    ensures unchanged { result ≢ OK → trace.new.held.value ≡ trace.old.held.value }
    ensures status { (result ≢ FAULT) × (result ≤ MISUSED) }
{
    match limits_of(entries) {
        Some(limits) => open_by(alloc, trace, processes, limits),
        None => MISUSED,
    }
}

/// Opens a trace under these limits.
fn open_by(alloc: Global, trace: &mut Handle, processes: u16, limits: Limits) -> u32
    ensures ok { result ≡ OK
        → recording_in trace.new.held.value ≡ Some (record { processes = processes; past = [] }) }
    ensures most { result ≡ OK → entry_limit_in trace.new.held.value ≡ limits.entries }
    ensures count { result ≡ OK → IsProcessCount processes }
    ensures misused { (result ≡ MISUSED)
        ↔ (IsSome trace.old.held.value ⊎ (IsProcessCount processes → ⊥)) }
    ensures kept { result ≢ OK → trace.new.held.value ≡ trace.old.held.value }
    ensures status { (result ≢ FAULT) × (result ≤ MISUSED) }
{
    if trace.is_open() {
        return MISUSED;
    }
    match Trace::new(alloc, processes) {
        Ok(made) => trace.keep(
            alloc,
            HandleContent::Trace {
                trace: made,
                limits,
            },
        ),
        Err(TraceFault::Processes) => MISUSED,
        Err(_) => NO_MEMORY,
    }
}

/// Appends an entry with its listed determinants to a trace, if it is valid there.
///
/// Returns [`OK`]; [`CLOSED`] if no trace is open; [`MISUSED`] if the kind is unknown, or determinants are listed for a
/// kind that lists none; [`FAULT`] if the entry is invalid, with the number of its first error in `fault`; or
/// [`NO_MEMORY`]. Unless `OK` is returned, the trace is unchanged.
#[unsafe(no_mangle)]
pub extern "C" fn nixu_trace_push(
    alloc: Global,
    trace: &mut Handle,
    entry: &CEntry,
    listed: &[CDeterminant],
    fault: &mut u32,
) -> u32
    ensures ok { result ≡ OK
        → CanPushIn (entry_limit_in trace.old.held.value) (recording_in trace.old.held.value)
        (entry_from_c entry.now listed.now) (recording_in trace.new.held.value) }
    ensures fault { result ≡ FAULT
        → IsFaultNumberIn (entry_limit_in trace.old.held.value) (recording_in trace.old.held.value)
        (entry_from_c entry.now listed.now) fault.new }
    ensures entry_limit { entry_limit_in trace.new.held.value
        ≡ entry_limit_in trace.old.held.value }
    ensures misused { result ≡ MISUSED → entry_from_c entry.now listed.now ≡ None }
    ensures closed { (result ≡ CLOSED) ↔ (recording_in trace.old.held.value ≡ None) }
    ensures closed_unchanged { result ≡ CLOSED → trace.new.held.value ≡ trace.old.held.value }
    ensures unchanged { result ≢ OK
        → recording_in trace.new.held.value ≡ recording_in trace.old.held.value }
    ensures fault_unchanged { result ≢ FAULT → fault.new ≡ fault.old }
    ensures status { result ≤ CLOSED }
{
    let Some(mut kept) = trace.take(alloc) else {
        return CLOSED;
    };
    let status = match &mut *kept {
        HandleContent::Trace {
            trace: recorded,
            limits,
        } => push(alloc, recorded, *limits, entry, listed, fault),
        HandleContent::Reader(_) => CLOSED,
    };
    trace.fill(kept);
    status
}

/// Appends a C entry to a trace.
fn push(
    alloc: Global,
    trace: &mut Trace,
    limits: Limits,
    entry: &CEntry,
    listed: &[CDeterminant],
    fault: &mut u32,
) -> u32
    ensures ok { result ≡ OK → CanPush limits.entries trace.old.recording
        (entry_from_c entry.now listed.now) trace.new.recording }
    ensures fault { result ≡ FAULT → IsFaultNumberOf limits.entries trace.old.recording
        (entry_from_c entry.now listed.now) fault.new }
    ensures misused { result ≡ MISUSED → entry_from_c entry.now listed.now ≡ None }
    ensures kept { result ≢ OK → trace.new.recording ≡ trace.old.recording }
    ensures unsaid { result ≢ FAULT → fault.new ≡ fault.old }
    ensures status { result ≤ MISUSED }
{
    match entry_from_c(alloc, entry, listed) {
        Ok(Some(entry)) => push_entry(trace, limits, entry, fault),
        Ok(None) => MISUSED,
        Err(NoMemory) => NO_MEMORY,
    }
}

/// Appends an entry to a trace.
fn push_entry(trace: &mut Trace, limits: Limits, entry: Entry, fault: &mut u32) -> u32
    ensures ok { result ≡ OK
        → CanPush limits.entries trace.old.recording (Some entry) trace.new.recording }
    ensures fault { result ≡ FAULT
        → IsFaultNumberOf limits.entries trace.old.recording (Some entry) fault.new }
    ensures kept { result ≢ OK → trace.new.recording ≡ trace.old.recording }
    ensures unsaid { result ≢ FAULT → fault.new ≡ fault.old }
    ensures status { result ≤ NO_MEMORY }
{
    match trace.push_within(limits, entry) {
        Ok(()) => OK,
        Err(TraceFault::NoMemory) => NO_MEMORY,
        Err(verdict) => {
            *fault = kind_number(TextKind::from(verdict));
            FAULT
        }
    }
}

/// Writes the verdict on the trace so far, with failure bound `faults`. The trace stays open.
///
/// Returns [`OK`]; [`NO_MEMORY`]; or [`CLOSED`] if no trace is open. After the last two, `verdict` is unchanged.
#[unsafe(no_mangle)]
pub extern "C" fn nixu_trace_audit(
    alloc: Global,
    trace: &mut Handle,
    faults: u16,
    verdict: &mut CVerdict,
) -> u32
    ensures ok { result ≡ OK → OfTrace trace.old.held.value
        (λ r. IsVerdictStruct r faults verdict.new) }
    ensures closed { (result ≡ CLOSED) ↔ (recording_in trace.old.held.value ≡ None) }
    ensures trace_unchanged { trace.new.held.value ≡ trace.old.held.value }
    ensures unchanged { result ≢ OK → verdict.new ≡ verdict.old }
    ensures status { (result ≡ OK) ⊎ ((result ≡ NO_MEMORY) ⊎ (result ≡ CLOSED)) }
{
    let Some(kept) = trace.take(alloc) else {
        return CLOSED;
    };
    let status = match &*kept {
        HandleContent::Trace { trace: so_far, .. } => write_verdict(alloc, so_far, faults, verdict),
        HandleContent::Reader(_) => CLOSED,
    };
    trace.fill(kept);
    status
}

/// Writes the verdict on a trace.
fn write_verdict(alloc: Global, trace: &Trace, faults: u16, verdict: &mut CVerdict) -> u32
    ensures ok { result ≡ OK → IsVerdictStruct trace.now.recording faults verdict.new }
    ensures kept { result ≢ OK → verdict.new ≡ verdict.old }
    ensures status { (result ≡ OK) ⊎ (result ≡ NO_MEMORY) }
{
    match verdict_for(alloc, trace, faults) {
        Ok(summary) => {
            *verdict = summary;
            OK
        }
        Err(NoMemory) => NO_MEMORY,
    }
}

/// Writes the canonical text of the trace so far to `out`, as much of it as fits, and its whole length to `needed`. The
/// trace stays open.
///
/// Returns [`OK`]; [`NO_MEMORY`]; or [`CLOSED`] if no trace is open. After the last two, nothing is written.
#[unsafe(no_mangle)]
pub extern "C" fn nixu_trace_text(
    alloc: Global,
    trace: &mut Handle,
    out: &mut [u8],
    needed: &mut usize,
) -> u32
    ensures ok { result ≡ OK
        → OfTrace trace.old.held.value (λ r. IsCopiedOut
        (canonical_text r) out.old out.new needed.new) }
    ensures closed { (result ≡ CLOSED) ↔ (recording_in trace.old.held.value ≡ None) }
    ensures trace_unchanged { trace.new.held.value ≡ trace.old.held.value }
    ensures unchanged { result ≢ OK → IsUntouched out.old out.new needed.old needed.new }
    ensures status { (result ≡ OK) ⊎ ((result ≡ NO_MEMORY) ⊎ (result ≡ CLOSED)) }
{
    let Some(kept) = trace.take(alloc) else {
        return CLOSED;
    };
    let status = match &*kept {
        HandleContent::Trace { trace: so_far, .. } => write_text(alloc, so_far, out, needed),
        HandleContent::Reader(_) => CLOSED,
    };
    trace.fill(kept);
    status
}

/// Writes the canonical text of a trace.
fn write_text(alloc: Global, trace: &Trace, out: &mut [u8], needed: &mut usize) -> u32
    ensures ok { result ≡ OK → IsCopiedOut
        (canonical_text trace.now.recording) out.old out.new needed.new }
    ensures kept { result ≢ OK → IsUntouched out.old out.new needed.old needed.new }
    ensures status { (result ≡ OK) ⊎ (result ≡ NO_MEMORY) }
{
    match text_of(alloc, trace) {
        Ok(text) => {
            copy_out(text.as_slice(), out, needed);
            OK
        }
        Err(NoMemory) => NO_MEMORY,
    }
}

/// Closes a trace and frees its memory; does nothing if nothing is open.
#[unsafe(no_mangle)]
pub extern "C" fn nixu_trace_close(alloc: Global, trace: &mut Handle)
    ensures { trace.new.held.value ≡ None }
{
    trace.close(alloc);
}
