//! The element of each part in the SVG text: a path for a band, a group with a title for each other part.
ghost use Rattle.std.specs.Prelude.{◌≡◌, ◌==◌, false, [], string_bytes};
ghost use Rattle.std.specs.List.{list_any};
ghost use Rattle.causal_picture.specs.Writes.{Adds, Extends, Writes};
ghost use Rattle.causal_picture.specs.Pictures as pictures;

use crate::drawing::Drawing;
use crate::event::push_event;
use crate::frame::{push_cut, push_hidden, push_row, push_up_line};
use crate::overlay::{push_band, push_chain, push_instant};
use crate::part::DrawnPart;
use crate::words::push_words;
use causal_trace::Trace;
use causal_trace::entry::line_at;
use std::alloc::AllocError;

/// The attributes of a part's group: an event whose message is sent again is faint, and the chain receives no pointer
/// events, so the titles of the events below it stay readable.
fn attributes_of(part: &DrawnPart) -> &'static str
    ensures { list_any (λ byte. byte == 60) result.now ≡ false }
{
    match part {
        DrawnPart::Event { is_faint: true, .. } => " opacity='0.4'",
        DrawnPart::Chain => " pointer-events='none'",
        _ => "",
    }
}

/// Appends the start of a group.
fn push_start(out: &mut String, attributes: &str) -> Result<(), AllocError>
    ensures { Adds result (string_bytes out.old) (string_bytes out.new)
        (pictures.opening_text attributes.now []) }
{
    write!(out, "<g{attributes}><title>")
}

/// Appends the start of a part's title.
fn push_title_start(out: &mut String, part: &DrawnPart) -> Result<(), AllocError>
    ensures { Adds result (string_bytes out.old) (string_bytes out.new) (pictures.title_of part.now) }
{
    match *part {
        DrawnPart::Row { process, .. } | DrawnPart::Up { process, .. } => {
            write!(out, "process {process}")
        }
        DrawnPart::Event { mark, .. } => {
            let line = line_at(mark.position);
            write!(out, "line {line}")
        }
        DrawnPart::Held { .. } => Ok(()),
        DrawnPart::Chain => write!(out, "chain"),
        DrawnPart::Instant { instant } => write!(out, "instant {instant}"),
        DrawnPart::HiddenEntries { count, .. } => write!(out, "{count} entries"),
        DrawnPart::HiddenProcesses { count } => write!(out, "{count} processes"),
    }
}

/// Appends the start of a part's group, up to the start of its title.
fn push_opening(out: &mut String, part: &DrawnPart) -> Result<(), AllocError>
    ensures { Writes result out.old out.new (pictures.IsGroupStart (pictures.title_of part.now)) }
{
    push_start(out, attributes_of(part))?;
    push_title_start(out, part)
}

/// Appends the rest of a part's title, and the elements of its group.
fn push_inside(
    out: &mut String,
    trace: &Trace,
    drawing: &Drawing,
    part: &DrawnPart,
) -> Result<(), AllocError>
    ensures { Extends result out.old out.new }
{
    let grid = &drawing.grid;
    match part {
        DrawnPart::Row { process, is_shaded } => push_row(out, grid, *process, *is_shaded),
        DrawnPart::Up {
            process,
            is_late,
            to,
        } => push_up_line(out, grid, *process, *is_late, *to),
        DrawnPart::Event { mark, link, .. } => push_event(out, trace, grid, mark, *link),
        DrawnPart::Held { .. } => Ok(()),
        DrawnPart::Chain => push_chain(out, grid, drawing.chain.as_slice()),
        DrawnPart::Instant { instant } => push_instant(out, grid, *instant, &drawing.orphan),
        DrawnPart::HiddenEntries { side, count } => push_cut(out, grid, *side, *count),
        DrawnPart::HiddenProcesses { count } => push_hidden(out, grid, *count),
    }
}

/// Appends the group of a part.
fn push_group(
    out: &mut String,
    trace: &Trace,
    drawing: &Drawing,
    part: &DrawnPart,
) -> Result<(), AllocError>
    ensures { Writes result out.old out.new (pictures.IsGroup (pictures.title_of part.now)) }
{
    push_opening(out, part)?;
    push_inside(out, trace, drawing, part)?;
    push_words(out, "</g>\n")
}

/// Appends the element of a part.
fn push_part(
    out: &mut String,
    trace: &Trace,
    drawing: &Drawing,
    part: &DrawnPart,
) -> Result<(), AllocError>
    ensures { Writes result out.old out.new (pictures.IsElement part.now) }
{
    match part {
        DrawnPart::Held {
            process,
            from,
            to,
            instant,
        } => push_band(out, &drawing.grid, *process, *from, *to, *instant),
        _ => push_group(out, trace, drawing, part),
    }
}

/// Appends the element of each part, in order.
pub fn push_parts(out: &mut String, trace: &Trace, drawing: &Drawing) -> Result<(), AllocError>
    ensures { Writes result out.old out.new (pictures.AreElements drawing.now.parts.items) }
{
    for part in &drawing.parts {
        push_part(out, trace, drawing, part)?;
    }
    Ok(())
}
