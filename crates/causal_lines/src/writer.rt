//! The writer of the canonical text: the tokens of each line without spaces, and a line feed after each line.
ghost use Rattle.std.specs.Prelude.{◌≡◌, ◌++◌, OnOk, IfOk, IfErr, string_bytes};
ghost use Rattle.std.specs.Io.KnownBytes.{Appends};
ghost use Rattle.causal_lines.specs.Canonical.{entry_text, entries_text, line_text, canonical_text, canonical_version};
ghost use Rattle.causal_line.specs.declared.parsed_line.ParsedLine.TheVariants as parsed;
ghost use Rattle.causal_lines.specs.PartialWrites.{IsPartialTraceWrite};

use crate::writing::{WriteCause, WriteFault, write_whole};
use causal_line::version::Version;
use causal_name::{Det, NoMemory};
use causal_spelling::{push_det, push_listed, push_named};
use causal_trace::entry::Entry;
use causal_trace::trace::Trace;
use std::alloc::{AllocError, Global};
use std::io::Write;

// the first version that can express the trace
fn canonical_version(trace: &Trace) -> Version
    ensures { result ≡ canonical_version trace.now.recording }
{
    let few = trace.processes() as u32 <= Version::One.max_processes();
    if few && Version::One.allows_all(trace.entries()) {
        Version::One
    } else {
        Version::Two
    }
}

// appends an entry of one determinant
fn push_stable(out: &mut String, det: &Det) -> Result<(), AllocError>
    ensures { OnOk result
        (string_bytes out.new ≡ string_bytes out.old ++ entry_text (Entry.Stable det.now)) }
{
    push_named(out, "stable", &[], ",")?;
    push_det(out, det)?;
    out.push_str("]")
}

fn push_entry(out: &mut String, entry: &Entry) -> Result<(), AllocError>
    ensures { OnOk result (string_bytes out.new ≡ string_bytes out.old ++ entry_text entry.now) }
{
    match entry {
        Entry::Send { from, to, ssn } => {
            let numbers = [u64::from(from.0), u64::from(to.0), u64::from(*ssn)];
            push_named(out, "send", &numbers, "]")
        }
        Entry::Deliver {
            to,
            send,
            rsn,
            listed,
        } => {
            let numbers = [u64::from(to.0), u64::from(*send), u64::from(*rsn)];
            push_listed(out, "deliver", &numbers, listed.as_slice(), "]")
        }
        Entry::Stable { det } => push_stable(out, det),
        Entry::Crash { who } => push_named(out, "crash", &[u64::from(who.0)], "]"),
        Entry::Restart { who, listed } => {
            push_listed(out, "restart", &[u64::from(who.0)], listed.as_slice(), "]")
        }
        Entry::Forget { who, listed } => {
            push_listed(out, "forget", &[u64::from(who.0)], listed.as_slice(), "]")
        }
    }
}

fn push_entries(out: &mut String, entries: &[Entry]) -> Result<(), AllocError>
    ensures { OnOk result
        (string_bytes out.new ≡ string_bytes out.old ++ entries_text entries.now) }
{
    for entry in entries {
        push_entry(out, entry)?;
        out.push_str("\n")?;
    }
    Ok(())
}

fn push_header(out: &mut String, version: u32, processes: u16) -> Result<(), AllocError>
    ensures { OnOk result (string_bytes out.new
        ≡ string_bytes out.old ++ line_text (parsed.Header version processes)) }
{
    let numbers = [u64::from(version), u64::from(processes)];
    push_named(out, "trace", &numbers, "]\n")
}

fn push_end(out: &mut String, entries: u32) -> Result<(), AllocError>
    ensures { OnOk result (string_bytes out.new
        ≡ string_bytes out.old ++ line_text (parsed.End entries)) }
{
    push_named(out, "end", &[u64::from(entries)], "]\n")
}

fn push_trace(out: &mut String, trace: &Trace) -> Result<(), AllocError>
    ensures { OnOk result
        (string_bytes out.new ≡ string_bytes out.old ++ canonical_text trace.now.recording) }
{
    let version = canonical_version(trace).number();
    push_header(out, version, trace.processes())?;
    push_entries(out, trace.entries())?;
    push_end(out, trace.len())?;
    Ok(())
}

/// Returns the canonical text of a trace. It has version 1 if the trace has at most 64 processes and no forget entry,
/// otherwise version 2. O(text) time and memory.
///
/// # Errors
/// `NoMemory`, only if an allocation failed.
pub fn text_of(alloc: Global, trace: &Trace) -> Result<Vec<u8>, NoMemory>
    ensures { IfOk result (λ text. text.items ≡ canonical_text trace.now.recording) }
{
    let mut out = String::new(alloc);
    push_trace(&mut out, trace)?;
    Ok(out.into_bytes())
}

/// Writes the canonical text of a trace. After an error, exactly the first bytes of the text were written, the number
/// that the error contains.
///
/// # Errors
/// `Device`, only if a write returned an error of any kind or accepted no byte; `Memory`, only if an allocation
/// failed, before the first write.
pub fn write_trace<W: Write>(alloc: Global, trace: &Trace, writer: &mut W) -> Result<(), WriteFault>
    ensures ok { OnOk result
        (Appends (W.contents writer.old) (W.contents writer.new)
        (canonical_text trace.now.recording)) }
    ensures err { IfErr result
        (IsPartialTraceWrite trace.now.recording (W.contents writer.old) (W.contents writer.new)) }
    ensures cause { IfErr result (λ fault. fault.cause ≡ WriteCause.Memory → fault.written ≡ 0) }
{
    match text_of(alloc, trace) {
        Ok(text) => write_whole(text.as_slice(), writer),
        Err(_) => Err(WriteFault {
            written: 0,
            cause: WriteCause::Memory,
        }),
    }
}
