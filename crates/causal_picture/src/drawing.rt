//! What a picture shows, as a list of parts in the order of its text.
ghost use Rattle.std.specs.Prelude.{◌≡◌, ◌≤◌, ◌+◌, ◌∷◌, [], IfOk, length};
ghost use Rattle.std.specs.Option.{option_copied};
ghost use Rattle.causal_trace.specs.State.{entries_of, past_at};
ghost use Rattle.causal_picture.specs.Writes.{Adds};
ghost use Rattle.causal_picture.specs.Inside.Downs.{ShowsDown};
ghost use Rattle.causal_picture.specs.Drawings as drawn;
ghost use Rattle.causal_picture.specs.EntryRanges as ranges;

use crate::down::down_processes;
use crate::entry_range::{EntryRange, Grid, grid_around};
use crate::focus::{Band, Focus, Orphan};
use crate::layout::is_shown;
use crate::marks::{Mark, MarkEvent, mark_at, marks_of};
use crate::part::{DrawnPart, LineEnd, Link, Side};
use crate::resent::is_resent;
use crate::rows::hidden_of;
use crate::selection::Selection;
use causal_holders::Holders;
use causal_name::NoMemory;
use causal_trace::Trace;
use std::alloc::Global;

/// Adds a part.
fn add(parts: &mut Vec<DrawnPart>, part: DrawnPart) -> Result<(), NoMemory>
    ensures { Adds result parts.old.items parts.new.items (part ∷ []) }
{
    parts.push(part)?;
    Ok(())
}

/// Adds the rows of the shown processes.
fn add_rows(parts: &mut Vec<DrawnPart>, grid: &Grid, crash: Holders) -> Result<(), NoMemory>
    ensures { Adds result parts.old.items parts.new.items (drawn.rows_of_shown grid.now crash) }
{
    for process in grid.shown.iter() {
        add(
            parts,
            DrawnPart::Row {
                process,
                is_shaded: crash.contains(process),
            },
        )?;
    }
    Ok(())
}

/// Returns whether a mark ends the line of a process from position `from` on: it is the process's crash.
fn ends_line(process: u8, from: u32, mark: &Mark) -> bool
    ensures { result ≡ drawn.ends_line process from mark.now }
{
    match mark.event {
        MarkEvent::Crash { who } => from <= mark.position && who.0 == process,
        _ => false,
    }
}

/// Where the line of a process from position `from` on ends: at its next crash among the marks of a range.
fn crash_from(marks: &[Mark], process: u8, from: u32) -> LineEnd
    ensures { result ≡ drawn.crash_from marks.now process from }
{
    for mark in marks {
        if ends_line(process, from, mark) {
            return LineEnd::Entry {
                position: mark.position,
            };
        }
    }
    LineEnd::Open
}

/// Adds the line of a process, unless it is down where the range begins.
fn add_up(
    parts: &mut Vec<DrawnPart>,
    is_late: bool,
    marks: &[Mark],
    process: u8,
    is_down: bool,
) -> Result<(), NoMemory>
    ensures { Adds result parts.old.items parts.new.items
        (drawn.up_unless is_late marks.now process is_down) }
{
    if is_down {
        return Ok(());
    }
    add(
        parts,
        DrawnPart::Up {
            process,
            is_late,
            to: crash_from(marks, process, 0),
        },
    )
}

/// Adds the lines of the shown processes that are up where a range begins.
fn add_ups(
    parts: &mut Vec<DrawnPart>,
    trace: &Trace,
    grid: &Grid,
    is_late: bool,
    range: EntryRange,
    marks: &[Mark],
) -> Result<(), NoMemory>
    requires { range.first + range.count ≤ length trace.now.recording.past }
    ensures { Adds result parts.old.items parts.new.items
        (drawn.ups_of trace.now.recording grid.now is_late range.first marks.now) }
{
    let down = down_before(trace, range);
    for process in grid.shown.iter() {
        add_up(parts, is_late, marks, process, down.contains(process))?;
    }
    Ok(())
}

/// The arrow of a delivery if the sender is shown; the line of a process that restarts.
fn link_of(grid: &Grid, marks: &[Mark], mark: &Mark) -> Link
    ensures { result ≡ drawn.link_of grid.now marks.now mark.now.position mark.now.event }
{
    match mark.event {
        MarkEvent::Delivery { det, .. } => {
            if grid.shown.contains(det.source.0) {
                Link::Arrow
            } else {
                Link::Nothing
            }
        }
        MarkEvent::Restart { who } => Link::Line {
            to: crash_from(marks, who.0, mark.position),
        },
        _ => Link::Nothing,
    }
}

/// Adds an event with its arrow or line if its process is shown. Reads the entries before it: O(position) time.
fn add_event(
    parts: &mut Vec<DrawnPart>,
    trace: &Trace,
    grid: &Grid,
    marks: &[Mark],
    mark: &Mark,
) -> Result<(), NoMemory>
    ensures { Adds result parts.old.items parts.new.items
        (drawn.shown_event trace.now.recording grid.now marks.now mark.now) }
{
    if !grid.shown.contains(mark.event.process().0) {
        return Ok(());
    }
    add(
        parts,
        DrawnPart::Event {
            mark: *mark,
            is_faint: is_resent(trace, mark),
            link: link_of(grid, marks, mark),
        },
    )
}

/// Adds the events of shown processes, in order.
fn add_events(
    parts: &mut Vec<DrawnPart>,
    trace: &Trace,
    grid: &Grid,
    marks: &[Mark],
) -> Result<(), NoMemory>
    ensures { Adds result parts.old.items parts.new.items
        (drawn.event_parts trace.now.recording grid.now marks.now marks.now) }
{
    for mark in marks {
        add_event(parts, trace, grid, marks, mark)?;
    }
    Ok(())
}

/// The processes that are down at the start of the range.
fn down_before(trace: &Trace, range: EntryRange) -> Holders
    requires { range.first + range.count ≤ length trace.now.recording.past }
    ensures { ShowsDown (past_at (entries_of trace.now.recording) range.first) result }
{
    down_processes(&trace.entries()[..range.first as usize])
}

/// Adds the lines and events of a range.
fn add_range(
    alloc: Global,
    parts: &mut Vec<DrawnPart>,
    trace: &Trace,
    grid: &Grid,
    is_late: bool,
    range: EntryRange,
) -> Result<(), NoMemory>
    requires { range.first + range.count ≤ length trace.now.recording.past }
    ensures { Adds result parts.old.items parts.new.items (drawn.range_parts trace.now.recording
        grid.now is_late range) }
{
    let marks = marks_of(alloc, trace, range)?;
    add_ups(parts, trace, grid, is_late, range, &marks)?;
    add_events(parts, trace, grid, &marks)?;
    Ok(())
}

/// Adds the lines and events of both ranges.
fn add_run(
    alloc: Global,
    parts: &mut Vec<DrawnPart>,
    trace: &Trace,
    grid: &Grid,
) -> Result<(), NoMemory>
    requires { ranges.GridFits (length trace.now.recording.past) grid.now }
    ensures { Adds result parts.old.items parts.new.items
        (drawn.run_parts trace.now.recording grid.now) }
{
    add_range(alloc, parts, trace, grid, false, grid.early)?;
    if grid.late.count == 0 {
        return Ok(());
    }
    add_range(alloc, parts, trace, grid, true, grid.late)
}

/// Where a band ends.
fn band_end(to: Option<u32>) -> LineEnd
    ensures { result ≡ drawn.band_end to }
{
    match to {
        Some(position) => LineEnd::Entry { position },
        None => LineEnd::Open,
    }
}

/// Adds a band if its process is shown.
fn add_band(
    parts: &mut Vec<DrawnPart>,
    grid: &Grid,
    instant: u32,
    band: Band,
) -> Result<(), NoMemory>
    ensures { Adds result parts.old.items parts.new.items (drawn.shown_band grid.now instant band) }
{
    if !grid.shown.contains(band.process) {
        return Ok(());
    }
    add(
        parts,
        DrawnPart::Held {
            process: band.process,
            from: band.from,
            to: band_end(band.to),
            instant,
        },
    )
}

/// Adds the bands of shown processes.
fn add_bands(
    parts: &mut Vec<DrawnPart>,
    grid: &Grid,
    instant: u32,
    bands: &[Band],
) -> Result<(), NoMemory>
    ensures { Adds result parts.old.items parts.new.items
        (drawn.shown_bands grid.now instant bands.now) }
{
    for band in bands {
        add_band(parts, grid, instant, *band)?;
    }
    Ok(())
}

/// The mark of an event, if its process is shown.
fn shown_mark(grid: &Grid, mark: Mark) -> Option<Mark>
    ensures { result ≡ drawn.shown_mark grid.now mark }
{
    if grid.shown.contains(mark.event.process().0) {
        Some(mark)
    } else {
        None
    }
}

/// The mark of the entry at a position, if it is shown, and its process.
fn shown_mark_at(trace: &Trace, grid: &Grid, position: u32) -> Option<Mark>
    ensures { result ≡ drawn.shown_mark_at trace.now.recording.past grid.now position }
{
    if !is_shown(grid, position) {
        return None;
    }
    let mark = mark_at(trace, position)?;
    shown_mark(grid, mark)
}

/// The marks of a chain's shown entries.
fn chain_marks(
    alloc: Global,
    trace: &Trace,
    grid: &Grid,
    chain: &[u32],
) -> Result<Vec<Mark>, NoMemory>
    ensures { IfOk result
        (λ found. found.items ≡ drawn.chain_marks trace.now.recording.past grid.now chain.now) }
{
    let mut marks = Vec::new(alloc);
    for position in chain {
        if let Some(mark) = shown_mark_at(trace, grid, *position) {
            marks.push(mark)?;
        }
    }
    Ok(marks)
}

/// Adds the chain, if some of it is shown.
fn add_chain(parts: &mut Vec<DrawnPart>, marks: &[Mark]) -> Result<(), NoMemory>
    ensures { Adds result parts.old.items parts.new.items (drawn.chain_part marks.now) }
{
    if marks.is_empty() {
        return Ok(());
    }
    add(parts, DrawnPart::Chain)
}

/// Adds the bands, the chain and the instant of a focus, if there is one.
fn add_focus(
    parts: &mut Vec<DrawnPart>,
    trace: &Trace,
    grid: &Grid,
    focus: Option<&Focus<'_>>,
    chain: &[Mark],
) -> Result<(), NoMemory>
    requires { chain.now
        ≡ drawn.marks_of_focus trace.now.recording.past grid.now (option_copied focus) }
    ensures { Adds result parts.old.items parts.new.items
        (drawn.focus_parts trace.now.recording grid.now (option_copied focus.entry)) }
{
    let Some(focus) = focus else {
        return Ok(());
    };
    let instant = focus.instant.min(trace.len());
    add_bands(parts, grid, instant, focus.bands)?;
    add_chain(parts, chain)?;
    add(parts, DrawnPart::Instant { instant })
}

/// Adds a number of hidden entries, if there are any.
fn add_hidden(parts: &mut Vec<DrawnPart>, side: Side, count: u32) -> Result<(), NoMemory>
    ensures { Adds result parts.old.items parts.new.items (drawn.hidden_entries side count) }
{
    if count == 0 {
        return Ok(());
    }
    add(parts, DrawnPart::HiddenEntries { side, count })
}

/// Adds the numbers of hidden entries: before the shown ones, between the ranges and after them.
fn add_cuts(parts: &mut Vec<DrawnPart>, grid: &Grid, entries: u32) -> Result<(), NoMemory>
    requires { ranges.GridFits entries grid.now }
    ensures { Adds result parts.old.items parts.new.items (drawn.cuts_of grid.now entries) }
{
    let (early, late) = (grid.early, grid.late);
    add_hidden(parts, Side::Before, early.first)?;
    add_hidden(
        parts,
        Side::Between,
        late.first - (early.first + early.count),
    )?;
    add_hidden(parts, Side::After, entries - (late.first + late.count))
}

/// Adds a number of hidden processes, if there are any.
fn add_hidden_processes(parts: &mut Vec<DrawnPart>, count: u16) -> Result<(), NoMemory>
    ensures { Adds result parts.old.items parts.new.items (drawn.hidden_processes count) }
{
    if count == 0 {
        return Ok(());
    }
    add(parts, DrawnPart::HiddenProcesses { count })
}

/// The crash set of a focus.
fn focus_crash(focus: Option<&Focus<'_>>) -> Holders
    ensures { result ≡ drawn.focus_crash (option_copied focus.entry) }
{
    match focus {
        Some(focus) => focus.crash,
        None => Holders::none(),
    }
}

/// The orphan of a focus.
fn focus_orphan(focus: Option<&Focus<'_>>) -> Option<Orphan>
    ensures { result ≡ drawn.focus_orphan (option_copied focus.entry) }
{
    match focus {
        Some(focus) => focus.orphan,
        None => None,
    }
}

/// The marks of the shown entries of a focus's chain.
fn marks_of_focus(
    alloc: Global,
    trace: &Trace,
    grid: &Grid,
    focus: Option<&Focus<'_>>,
) -> Result<Vec<Mark>, NoMemory>
    ensures { IfOk result (λ found. found.items ≡ drawn.marks_of_focus
        trace.now.recording.past grid.now (option_copied focus.entry)) }
{
    match focus {
        Some(focus) => chain_marks(alloc, trace, grid, focus.chain),
        None => Ok(Vec::new(alloc)),
    }
}

/// The parts of the picture on this grid.
fn parts_of(
    alloc: Global,
    trace: &Trace,
    grid: &Grid,
    focus: Option<&Focus<'_>>,
    chain: &[Mark],
) -> Result<Vec<DrawnPart>, NoMemory>
    requires fits { ranges.GridFits (length trace.now.recording.past) grid.now }
    requires chain { chain.now
        ≡ drawn.marks_of_focus trace.now.recording.past grid.now (option_copied focus) }
    ensures { IfOk result (λ parts. parts.items
        ≡ drawn.drawing_on trace.now.recording (option_copied focus.entry) grid.now) }
{
    let mut parts = Vec::new(alloc);
    add_rows(&mut parts, grid, focus_crash(focus))?;
    add_run(alloc, &mut parts, trace, grid)?;
    add_focus(&mut parts, trace, grid, focus, chain)?;
    add_cuts(&mut parts, grid, trace.len())?;
    add_hidden_processes(&mut parts, hidden_of(grid))?;
    Ok(parts)
}

/// What a picture shows, and where.
#[derive(Drop)]
pub struct Drawing {
    pub grid: Grid,
    pub parts: Vec<DrawnPart>,
    /// The marks of the chain's shown entries.
    pub chain: Vec<Mark>,
    pub orphan: Option<Orphan>,
}

/// What the picture of the selected part of a trace shows.
///
/// O(entries · shown sends and deliveries + processes · (shown entries + processes) + chain) time.
///
/// # Errors
/// `NoMemory` if allocation failed.
pub fn drawing_of(
    alloc: Global,
    trace: &Trace,
    focus: Option<&Focus<'_>>,
    selection: Selection,
) -> Result<Drawing, NoMemory>
    ensures grid { IfOk result (λ shown. shown.grid
        ≡ ranges.grid_around trace.now.recording (option_copied focus.entry) selection) }
    ensures parts { IfOk result (λ shown. shown.parts.items
        ≡ drawn.drawing trace.now.recording (option_copied focus.entry) selection) }
    ensures chain { IfOk result (λ shown. shown.chain.items
        ≡ drawn.marks_of_focus trace.now.recording.past shown.grid (option_copied focus.entry)) }
    ensures orphan { IfOk result (λ shown. shown.orphan
        ≡ drawn.focus_orphan (option_copied focus.entry)) }
{
    let grid = grid_around(trace, focus, selection);
    let chain = marks_of_focus(alloc, trace, &grid, focus)?;
    let parts = parts_of(alloc, trace, &grid, focus, &chain)?;
    Ok(Drawing {
        grid,
        parts,
        chain,
        orphan: focus_orphan(focus),
    })
}
