//! The SVG text of an event.
ghost use Rattle.causal_picture.specs.Writes.{Extends};

use crate::entry_range::Grid;
use crate::glyphs::{Label, glyph_of, push_bent, push_glyph, push_label, push_straight, push_up};
use crate::layout::{column_width, line_end, x_of, y_of};
use crate::marks::{Mark, MarkEvent};
use crate::part::Link;
use crate::titles::push_title;
use crate::words::push_words;
use causal_name::Det;
use causal_trace::Trace;
use causal_trace::entry::line_at;
use std::alloc::AllocError;

/// Appends the arrow of a delivery, from the send entry; if that is hidden, from the cut.
fn push_arrow(
    out: &mut String,
    grid: &Grid,
    position: u32,
    det: Det,
    send: u32,
) -> Result<(), AllocError>
    ensures { Extends result out.old out.new }
{
    let from = x_of(grid, send);
    let to = x_of(grid, position);
    let y = y_of(grid, det.dest.0);
    if det.source.0 == det.dest.0 {
        push_bent(out, from, to, y)
    } else {
        push_straight(out, from, y_of(grid, det.source.0), to, y)
    }
}

/// Appends the arrow of a delivery, or the line of a process that restarts.
fn push_link(out: &mut String, grid: &Grid, mark: &Mark, link: Link) -> Result<(), AllocError>
    ensures { Extends result out.old out.new }
{
    match (mark.event, link) {
        (MarkEvent::Delivery { det, send }, Link::Arrow) => {
            push_arrow(out, grid, mark.position, det, send)
        }
        (MarkEvent::Restart { who }, Link::Line { to }) => push_up(
            out,
            x_of(grid, mark.position),
            line_end(grid, mark.position, to),
            y_of(grid, who.0),
        ),
        _ => Ok(()),
    }
}

fn push_upright_number(out: &mut String, x: u64, line: u64) -> Result<(), AllocError>
    ensures { Extends result out.old out.new }
{
    write!(
        out,
        "<text transform='translate({x},66)rotate(-90)' dy='3' font-size='9' fill='#777'>{line}</text>\n"
    )
}

/// Appends the line number of an entry above its column: horizontal if the columns are wide, otherwise vertical.
fn push_number(out: &mut String, grid: &Grid, position: u32) -> Result<(), AllocError>
    ensures { Extends result out.old out.new }
{
    let x = x_of(grid, position);
    if column_width(grid) < 28 {
        push_upright_number(out, x, line_at(position))
    } else {
        push_label(out, x, 62, Label::LineNumber, line_at(position))
    }
}

/// Appends the rest of an event's title, its line number above its column, its arrow or line, and its glyph on the line
/// of its process.
pub fn push_event(
    out: &mut String,
    trace: &Trace,
    grid: &Grid,
    mark: &Mark,
    link: Link,
) -> Result<(), AllocError>
    ensures { Extends result out.old out.new }
{
    push_title(out, trace, mark)?;
    push_number(out, grid, mark.position)?;
    push_link(out, grid, mark, link)?;
    let x = x_of(grid, mark.position);
    let y = y_of(grid, mark.event.process().0);
    push_glyph(out, x, y, glyph_of(&mark.event))
}
