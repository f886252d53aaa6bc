//! The parts around the events: the head, the processes' rows, the marks for hidden entries.
ghost use Rattle.std.specs.Prelude.{◌<◌};
ghost use Rattle.causal_picture.specs.Pictures.{IsSvgStart};
ghost use Rattle.causal_picture.specs.Writes.{Extends, Writes};

use crate::entry_range::Grid;
use crate::glyphs::{Label, push_label, push_level, push_up, push_upright};
use crate::layout::{
    bottom_of, column_count, height_of, line_end, range_left, right_of, row_height, width_of,
    x_of_instant, y_of,
};
use crate::part::{LineEnd, Side};
use crate::rows::{hidden_of, rows_of};
use crate::words::push_words;
use causal_trace::entry::line_at;
use std::alloc::AllocError;

/// Appends the number of shown processes: `All 3`, `2 of 3`.
fn push_count(out: &mut String, grid: &Grid) -> Result<(), AllocError>
    ensures { Extends result out.old out.new }
{
    let (rows, processes) = (rows_of(grid), grid.processes);
    if hidden_of(grid) == 0 {
        write!(out, "<desc>All {processes}")
    } else {
        write!(out, "<desc>{rows} of {processes}")
    }
}

/// Appends the numbers of shown entries and of all.
fn push_description(out: &mut String, grid: &Grid, entries: u32) -> Result<(), AllocError>
    ensures { Extends result out.old out.new }
{
    let (count, line) = (column_count(grid), line_at(grid.early.first));
    write!(
        out,
        " processes; {count} of {entries} entries, from line {line} of the trace's text on.</desc>\n"
    )
}

/// Appends the head of the picture: its title and description; a white background; and the arrow head, whose tip is
/// before the end of the arrow's line, outside the delivery's dot. The only variable parts in this file are numbers, so
/// nothing needs escaping.
pub fn push_head(out: &mut String, grid: &Grid, entries: u32) -> Result<(), AllocError>
    ensures { Writes result out.old out.new IsSvgStart }
{
    push_words(out, "<svg xmlns='http://www.w3.org/2000/svg'")?;
    push_start(out, grid, entries)
}

/// Appends the rest of the head.
fn push_start(out: &mut String, grid: &Grid, entries: u32) -> Result<(), AllocError>
    ensures { Extends result out.old out.new }
{
    let (width, height) = (width_of(grid), height_of(rows_of(grid)));
    write!(
        out,
        " version='1.1' role='img' width='{width}' height='{height}' viewBox='0 0 {width} {height}' font-family='sans-serif' font-size='12'>\n\
         <title>Space-time diagram of a recorded run</title>\n"
    )?;
    push_count(out, grid)?;
    push_description(out, grid, entries)?;
    push_words(
        out,
        "<defs><marker id='arrowhead' viewBox='0 0 10 10' refX='16' refY='5' markerWidth='8' markerHeight='8' markerUnits='userSpaceOnUse' orient='auto'><path d='M0 0L10 5L0 10z' fill='#555'/></marker></defs>\n<rect width='100%' height='100%' fill='white'/>\n",
    )
}

/// Appends the shade behind the line of a process in the crash set.
fn push_shade(out: &mut String, grid: &Grid, process: u8, is_shaded: bool) -> Result<(), AllocError>
    ensures { Extends result out.old out.new }
{
    if !is_shaded {
        return Ok(());
    }
    let (width, y, height) = (
        width_of(grid),
        y_of(grid, process),
        row_height(rows_of(grid)) - 6,
    );
    write!(
        out,
        "<path d='M0 {y}H{width}' fill='none' stroke='#ffe3b3' stroke-width='{height}'/>\n"
    )
}

/// Appends the name of a process above its line, unless the line ends near it or before it.
fn push_repeated_name(out: &mut String, grid: &Grid, process: u8, x: u64) -> Result<(), AllocError>
    requires { x < 2000 }
    ensures { Extends result out.old out.new }
{
    if x + 30 >= right_of(grid) {
        return Ok(());
    }
    let y = y_of(grid, process);
    push_label(out, x, y, Label::NameAgain, u64::from(process))
}

/// Appends the name of a process at the left end of its line, and repeats it at intervals.
fn push_names(out: &mut String, grid: &Grid, process: u8) -> Result<(), AllocError>
    ensures { Extends result out.old out.new }
{
    let y = y_of(grid, process);
    push_label(out, 72, y, Label::Name, u64::from(process))?;
    push_repeated_name(out, grid, process, 680)?;
    push_repeated_name(out, grid, process, 1280)?;
    push_repeated_name(out, grid, process, 1880)
}

/// Appends the rest of the group of a process's row: its shade if it is in the crash set, its dotted line, and its names.
/// While the process is up, a solid line is drawn over the dotted one.
pub fn push_row(
    out: &mut String,
    grid: &Grid,
    process: u8,
    is_shaded: bool,
) -> Result<(), AllocError>
    ensures { Extends result out.old out.new }
{
    push_words(out, "</title>\n")?;
    push_shade(out, grid, process, is_shaded)?;
    push_level(
        out,
        80,
        right_of(grid),
        y_of(grid, process),
        "stroke='#999' stroke-dasharray='1 5'",
    )?;
    push_names(out, grid, process)
}

/// Appends the rest of the group of the line of a process that is up where a range begins.
pub fn push_up_line(
    out: &mut String,
    grid: &Grid,
    process: u8,
    is_late: bool,
    to: LineEnd,
) -> Result<(), AllocError>
    ensures { Extends result out.old out.new }
{
    let range = if is_late { grid.late } else { grid.early };
    push_words(out, "</title>\n")?;
    push_up(
        out,
        range_left(grid, is_late),
        line_end(grid, range.first, to),
        y_of(grid, process),
    )
}

/// The words of a side, and how the label of a cut there is aligned.
fn side_words(side: Side) -> (&'static str, &'static str) {
    match side {
        Side::Before => ("before", "start"),
        Side::Between => ("between", "middle"),
        Side::After => ("after", "end"),
    }
}

/// The instant of a cut.
fn cut_instant(grid: &Grid, side: Side) -> u32 {
    match side {
        Side::Before => grid.early.first,
        Side::Between => grid.late.first,
        Side::After => grid.late.first.saturating_add(grid.late.count),
    }
}

/// Appends the rest of the group of a number of hidden entries: a dotted line, and below it, under the label of an instant,
/// their number.
pub fn push_cut(out: &mut String, grid: &Grid, side: Side, hidden: u32) -> Result<(), AllocError>
    ensures { Extends result out.old out.new }
{
    let x = x_of_instant(grid, cut_instant(grid, side));
    let bottom = bottom_of(rows_of(grid));
    let below = bottom + 27;
    let (words, anchor) = side_words(side);
    write!(out, " {words} are not shown</title>\n")?;
    push_upright(out, x, bottom, "stroke='#555' stroke-dasharray='2 4'")?;
    write!(
        out,
        "<text x='{x}' y='{below}' text-anchor='{anchor}' fill='#555'>{hidden} entries {words}</text>\n"
    )
}

/// Appends the rest of the group of a number of hidden processes, below the names.
pub fn push_hidden(out: &mut String, grid: &Grid, hidden: u16) -> Result<(), AllocError>
    ensures { Extends result out.old out.new }
{
    let y = bottom_of(rows_of(grid)) + 27;
    write!(
        out,
        " are not shown</title>\n<text x='72' y='{y}' text-anchor='end' fill='#555'>{hidden} hidden</text>\n"
    )
}
