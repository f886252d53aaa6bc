//! The parts over the events: the bands, the chain and the instant.
ghost use Rattle.causal_picture.specs.Writes.{Extends, Writes};
ghost use Rattle.causal_picture.specs.Pictures.{IsSvgPath};

use crate::entry_range::Grid;
use crate::focus::Orphan;
use crate::glyphs::{Glyph, Label, push_glyph, push_label, push_level, push_upright};
use crate::layout::{bottom_of, x_of, x_of_instant, y_of};
use crate::marks::Mark;
use crate::part::LineEnd;
use crate::roles::push_processes;
use crate::rows::rows_of;
use crate::words::push_words;
use std::alloc::AllocError;

fn push_corner(out: &mut String, grid: &Grid, mark: &Mark) -> Result<(), AllocError>
    ensures { Extends result out.old out.new }
{
    let (x, y) = (
        x_of(grid, mark.position),
        y_of(grid, mark.event.process().0),
    );
    write!(out, "{x},{y} ")
}

fn push_corners(out: &mut String, grid: &Grid, marks: &[Mark]) -> Result<(), AllocError>
    ensures { Extends result out.old out.new }
{
    for mark in marks {
        push_corner(out, grid, mark)?;
    }
    Ok(())
}

fn push_rings(out: &mut String, grid: &Grid, marks: &[Mark]) -> Result<(), AllocError>
    ensures { Extends result out.old out.new }
{
    for mark in marks {
        let (x, y) = (
            x_of(grid, mark.position),
            y_of(grid, mark.event.process().0),
        );
        push_glyph(out, x, y, Glyph::Halo)?;
    }
    Ok(())
}

/// Appends the rest of the chain's group: a thick line from entry to entry, and a ring around each.
pub fn push_chain(out: &mut String, grid: &Grid, marks: &[Mark]) -> Result<(), AllocError>
    ensures { Extends result out.old out.new }
{
    push_words(out, "</title>\n<polyline points='")?;
    push_corners(out, grid, marks)?;
    push_words(
        out,
        "' fill='none' stroke='#d55e00' stroke-width='4' stroke-opacity='0.75'/>\n",
    )?;
    push_rings(out, grid, marks)
}

/// Appends a band along the line of its process, to the entry that ends it or to the instant. Like the chain it receives
/// no pointer events, so the titles of the events below it stay readable.
pub fn push_band(
    out: &mut String,
    grid: &Grid,
    process: u8,
    from: u32,
    to: LineEnd,
    instant: u32,
) -> Result<(), AllocError>
    ensures { Writes result out.old out.new IsSvgPath }
{
    let end = match to {
        LineEnd::Entry { position } => x_of(grid, position),
        LineEnd::Open => x_of_instant(grid, instant),
    };
    push_level(
        out,
        x_of(grid, from),
        end,
        y_of(grid, process),
        "stroke='#0072b2' stroke-width='10' stroke-opacity='0.25' pointer-events='none'",
    )
}

/// Appends the rest of the instant's group: a vertical line between the entries before and after it, and the processes'
/// names next to it.
pub fn push_instant(
    out: &mut String,
    grid: &Grid,
    instant: u32,
    orphan: &Option<Orphan>,
) -> Result<(), AllocError>
    ensures { Extends result out.old out.new }
{
    let x = x_of_instant(grid, instant);
    let bottom = bottom_of(rows_of(grid));
    push_words(out, "</title>\n")?;
    push_upright(
        out,
        x,
        bottom,
        "stroke='#0072b2' stroke-width='2' stroke-dasharray='7 4'",
    )?;
    push_label(out, x, bottom, Label::Instant, u64::from(instant))?;
    push_processes(out, grid, x, orphan)
}
