//! The SVG text of a whole picture.
ghost use Rattle.std.specs.Prelude.{IfOk};
ghost use Rattle.std.specs.Option.{option_copied};
ghost use Rattle.causal_picture.specs.Pictures as pictures;
ghost use Rattle.causal_picture.specs.Writes.{Extends, Writes};

use crate::caption::{push_reason, push_verdict};
use crate::drawing::{Drawing, drawing_of};
use crate::element::push_parts;
use crate::entry_range::Grid;
use crate::focus::Focus;
use crate::frame::push_head;
use crate::layout::bottom_of;
use crate::legend::push_legend;
use crate::rows::rows_of;
use crate::selection::Selection;
use crate::words::push_words;
use causal_name::NoMemory;
use causal_trace::Trace;
use std::alloc::{AllocError, Global};

/// Appends the rest of the caption, and the legend.
fn push_legends(out: &mut String, grid: &Grid, focus: Option<&Focus<'_>>) -> Result<(), AllocError>
    ensures { Extends result out.old out.new }
{
    let bottom = bottom_of(rows_of(grid));
    push_reason(out, focus)?;
    push_legend(out, bottom + 38, bottom + 62)
}

/// Appends the caption, in the picture's upper left corner, and the legend, and ends the text.
fn push_foot(
    out: &mut String,
    grid: &Grid,
    faults: u16,
    focus: Option<&Focus<'_>>,
) -> Result<(), AllocError>
    ensures { Writes result out.old out.new (pictures.IsFoot faults (option_copied focus.entry)) }
{
    push_words(
        out,
        "<text x='10' y='15' font-size='14' font-weight='bold' fill='#222'>",
    )?;
    push_verdict(out, faults, focus)?;
    push_legends(out, grid, focus)?;
    push_words(out, "</svg>\n")
}

fn push_picture(
    out: &mut String,
    trace: &Trace,
    faults: u16,
    focus: Option<&Focus<'_>>,
    drawing: &Drawing,
) -> Result<(), AllocError>
    ensures { Writes result out.old out.new (pictures.HasElements faults
        (option_copied focus.entry) drawing.now.parts.items) }
{
    push_head(out, &drawing.grid, trace.len())?;
    push_parts(out, trace, drawing)?;
    push_foot(out, &drawing.grid, faults, focus)
}

/// Draws the space-time diagram of a recorded run, audited with failure bound `faults`, in SVG 1.1. It shows the
/// selected processes, one below the other, and at most 200 entries ([`grid_around`](crate::entry_range::grid_around)); marks contain the numbers of
/// hidden entries and processes. Each shown entry of a shown process has a title that begins with the entry's line in
/// the trace's text. Without a focus, the caption is that the run is accepted; with a focus without an orphan, that too
/// many processes are down.
///
/// O(entries · shown sends and deliveries + processes · (shown entries + processes) + chain) time. The text has
/// O(processes + shown entries + chain) bytes.
///
/// # Errors
/// `NoMemory` if allocation failed.
pub fn picture_of(
    alloc: Global,
    trace: &Trace,
    faults: u16,
    focus: Option<&Focus<'_>>,
    selection: Selection,
) -> Result<Vec<u8>, NoMemory>
    ensures { IfOk result (λ text. pictures.IsPicture trace.now.recording faults
        (option_copied focus.entry) selection text.items) }
{
    let drawing = drawing_of(alloc, trace, focus, selection)?;
    let mut out = String::new(alloc);
    push_picture(&mut out, trace, faults, focus, &drawing)?;
    Ok(out.into_bytes())
}
