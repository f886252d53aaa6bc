//! The bytes that the program prints: the line of a verdict, its explanation, and a picture of the run.
ghost use Rattle.std.specs.Prelude.{◌≡◌, ◌≤◌, IfOk, IfErr};
ghost use Rattle.causal_audit.specs.Verdicts.{IsVerdict};
ghost use Rattle.nixu.specs.TextErrors.{IsTextErrorOf};
ghost use Rattle.nixu_boundary.specs.Buffers.{IsCopiedOut, IsUntouched};
ghost use Rattle.nixu.specs.Views.{WritesView, IsViewText, IsViewOf, IsViewOfRecording, fault_view};

use crate::judgement::{TextError, judgement_of, parse_trace};
use causal_audit::{Judged, verdict_line};
use causal_name::NoMemory;
use causal_report::{line_with_reason, picture_with_verdict};
use causal_text::{TextFault, fault_line};
use causal_trace::Trace;
use nixu_boundary::buffer::copy_out;
use nixu_boundary::status::{FAULT, NO_MEMORY, OK};
use std::alloc::Global;

/// A printed form of a trace and its verdict.
#[derive(Clone, Copy)]
pub enum View {
    /// The line of the verdict, as the program's `audit` prints it.
    Line,
    /// The line of the verdict and its explanation, as `explain` prints them.
    Reason,
    /// A space-time diagram, as `draw` prints it.
    Picture,
}

/// Writes the line of the verdict on the trace that a text spells, or of the text's first error, with its line feed.
/// `out` receives as much of it as fits, and `needed` its whole length.
///
/// Returns [`OK`] or [`FAULT`]; or [`NO_MEMORY`], and nothing is written.
#[unsafe(no_mangle)]
pub extern "C" fn nixu_line(
    alloc: Global,
    text: &[u8],
    faults: u16,
    out: &mut [u8],
    needed: &mut usize,
) -> u32
    ensures { WritesView View.Line text.now faults result out.old out.new needed.old needed.new }
{
    write_view(alloc, text, faults, View::Line, out, needed)
}

/// Writes the line of the verdict and its explanation, or the line of the text's first error, with the statuses of
/// [`nixu_line`].
#[unsafe(no_mangle)]
pub extern "C" fn nixu_explain(
    alloc: Global,
    text: &[u8],
    faults: u16,
    out: &mut [u8],
    needed: &mut usize,
) -> u32
    ensures { WritesView View.Reason text.now faults result out.old out.new needed.old needed.new }
{
    write_view(alloc, text, faults, View::Reason, out, needed)
}

fn write_view(
    alloc: Global,
    text: &[u8],
    faults: u16,
    view: View,
    out: &mut [u8],
    needed: &mut usize,
) -> u32
    ensures { WritesView view text.now faults result out.old out.new needed.old needed.new }
{
    match view_text(alloc, text, faults, view) {
        Ok(bytes) => {
            copy_out(bytes.as_slice(), out, needed);
            OK
        }
        Err(TextError::Fault(fault)) => write_fault_view(alloc, fault, view, out, needed),
        Err(TextError::NoMemory) => NO_MEMORY,
    }
}

/// Writes the view of an error.
fn write_fault_view(
    alloc: Global,
    fault: TextFault,
    view: View,
    out: &mut [u8],
    needed: &mut usize,
) -> u32
    ensures fault { result ≡ FAULT →
        IsCopiedOut (fault_view view fault) out.old out.new needed.new }
    ensures kept { result ≡ NO_MEMORY → IsUntouched out.old out.new needed.old needed.new }
    ensures status { (FAULT ≤ result) × (result ≤ NO_MEMORY) }
{
    match fault_view(alloc, fault, view) {
        Ok(bytes) => {
            copy_out(bytes.as_slice(), out, needed);
            FAULT
        }
        Err(NoMemory) => NO_MEMORY,
    }
}

/// Writes the space-time diagram of the run with its verdict, in SVG, with the statuses of [`nixu_line`]. For a text
/// with an error it writes no bytes, since the error's line is not SVG.
#[unsafe(no_mangle)]
pub extern "C" fn nixu_draw(
    alloc: Global,
    text: &[u8],
    faults: u16,
    out: &mut [u8],
    needed: &mut usize,
) -> u32
    ensures { WritesView View.Picture text.now faults result out.old out.new needed.old needed.new }
{
    write_view(alloc, text, faults, View::Picture, out, needed)
}

/// The view of an error: its line; empty for a picture.
fn fault_view(alloc: Global, fault: TextFault, view: View) -> Result<Vec<u8>, NoMemory>
    ensures { IfOk result (λ bytes. bytes.items ≡ fault_view view fault) }
{
    match view {
        View::Line | View::Reason => fault_line(alloc, &fault),
        View::Picture => Ok(Vec::new(alloc)),
    }
}

/// The view of the trace that a text spells.
fn view_text(alloc: Global, text: &[u8], faults: u16, view: View) -> Result<Vec<u8>, TextError>
    ensures ok { IfOk result (λ bytes. IsViewOf view text.now faults bytes.items) }
    ensures err { IfErr result (IsTextErrorOf text.now) }
{
    let trace = parse_trace(alloc, text)?;
    let bytes = view_of_trace(alloc, &trace, faults, view)?;
    Ok(bytes)
}

/// The view of a trace.
fn view_of_trace(alloc: Global, trace: &Trace, faults: u16, view: View) -> Result<Vec<u8>, NoMemory>
    ensures { IfOk result (λ bytes. IsViewOfRecording view trace.now.recording faults bytes.items) }
{
    match judgement_of(alloc, trace, faults) {
        Ok(judged) => view_of_judged(alloc, trace, faults, &judged, view),
        Err(refused) => Err(refused),
    }
}

/// The view of a trace with this verdict.
fn view_of_judged(
    alloc: Global,
    trace: &Trace,
    faults: u16,
    judged: &Judged,
    view: View,
) -> Result<Vec<u8>, NoMemory>
    requires { IsVerdict trace.now.recording faults judged.now.verdict }
    ensures { IfOk result
        (λ bytes. IsViewText view trace.now.recording faults judged.now bytes.items) }
{
    match view {
        View::Line => verdict_line(alloc, faults, judged),
        View::Reason => {
            let line = verdict_line(alloc, faults, judged)?;
            line_with_reason(alloc, line, trace, faults, judged.verdict)
        }
        View::Picture => picture_with_verdict(alloc, trace, faults, judged.verdict),
    }
}
