//! Coordinates in a picture, in its units: x grows to the right and y downwards.
ghost use Rattle.std.specs.Prelude.{◌≡◌, ◌≤◌, ◌<◌, ◌^◌};
ghost use Rattle.causal_picture.specs.Layout as layout;
ghost use Rattle.causal_picture.specs.EntryRanges as stretches;

use crate::entry_range::{EntryRange, Grid};
use crate::part::LineEnd;
use crate::rows::{rank_of, rows_of};

/// The left end of the processes' lines.
const LEFT: u64 = 80;

/// The maximum distance between entries.
const WIDEST_COLUMN: u64 = 30;

/// The maximum width of all columns.
const ALL_COLUMNS: u64 = 2200;

/// The line of the first process.
const TOP: u32 = 92;

/// The maximum and minimum distance between processes' lines.
const HIGHEST_ROW: u32 = 40;

const LOWEST_ROW: u32 = 16;

/// The maximum height of all rows, unless the minimum distance exceeds it.
const ALL_ROWS: u32 = 560;

/// Returns whether a position is in a range.
fn is_within(range: EntryRange, position: u32) -> bool
    ensures { result ≡ stretches.is_within range position }
{
    range.first <= position && position - range.first < range.count
}

/// Returns whether the entry at a position is shown.
pub fn is_shown(grid: &Grid, position: u32) -> bool
    ensures { result ≡ stretches.is_shown grid.now position }
{
    is_within(grid.early, position) || is_within(grid.late, position)
}

/// The number of entries of a range before a position.
fn count_before(range: EntryRange, position: u32) -> u64
    ensures small { result < 2 ^ 32 }
{
    u64::from(position.saturating_sub(range.first).min(range.count))
}

/// The number of shown entries before a position.
fn columns_before(grid: &Grid, position: u32) -> u64
    ensures small { result < 2 ^ 33 }
{
    count_before(grid.early, position) + count_before(grid.late, position)
}

/// The number of shown entries.
pub fn column_count(grid: &Grid) -> u64
    ensures value { result ≡ layout.column_count grid.now }
    ensures small { result < 2 ^ 33 }
{
    u64::from(grid.early.count) + u64::from(grid.late.count)
}

/// The distance between entries: 30, or less if all columns would be wider than 2,200.
pub fn column_width(grid: &Grid) -> u64
    ensures value { result ≡ layout.column_width grid.now }
    ensures narrow { result ≤ 30 }
{
    WIDEST_COLUMN.min(ALL_COLUMNS / (column_count(grid) + 1))
}

/// The x of an instant: halfway between the entries before and after it.
#[tactic(auto, using(crate::proofs::Sizes::columns_small))]
pub fn x_of_instant(grid: &Grid, instant: u32) -> u64
    ensures small { result < 2 ^ 39 }
{
    let column = column_width(grid);
    LEFT + column / 2 + column * columns_before(grid, instant)
}

/// The x of the entry at a position; for a hidden entry, the x of the cut.
#[tactic(auto, using(crate::proofs::Sizes::columns_small))]
pub fn x_of(grid: &Grid, position: u32) -> u64
    ensures small { result < 2 ^ 39 }
{
    if is_shown(grid, position) {
        LEFT + column_width(grid) * (columns_before(grid, position) + 1)
    } else {
        x_of_instant(grid, position)
    }
}

/// The right end of the processes' lines.
#[tactic(auto, using(crate::proofs::Sizes::columns_fit))]
pub fn right_of(grid: &Grid) -> u64
    ensures narrow { result ≤ 2280 }
{
    LEFT + column_width(grid) * (column_count(grid) + 1)
}

/// The width of the picture: as its lines or its words require.
pub fn width_of(grid: &Grid) -> u64
    ensures narrow { result ≤ 2400 }
{
    (right_of(grid) + 120).max(600)
}

/// The left end of the lines of a range.
pub fn range_left(grid: &Grid, is_late: bool) -> u64 {
    if is_late {
        x_of_instant(grid, grid.late.first)
    } else {
        LEFT
    }
}

/// The right end of the line of a process from the entry at a position on: at its next crash, or at the end of the range
/// of the entry.
pub fn line_end(grid: &Grid, position: u32, to: LineEnd) -> u64 {
    match to {
        LineEnd::Entry { position: crash } => x_of(grid, crash),
        LineEnd::Open if grid.late.count == 0 || is_within(grid.late, position) => right_of(grid),
        LineEnd::Open => x_of_instant(grid, grid.late.first),
    }
}

/// The distance between processes' lines: 40, or less if all rows would be higher than 560, but at least 16.
pub fn row_height(rows: u16) -> u32
    ensures value { result ≡ layout.row_height rows }
    ensures low { result ≤ 40 }
    ensures high { 16 ≤ result }
{
    LOWEST_ROW.max(HIGHEST_ROW.min(ALL_ROWS / (u32::from(rows) + 1)))
}

/// The y of a process's line; of a hidden process, that of the next shown one.
#[tactic(auto, using(crate::proofs::Sizes::rows_small))]
pub fn y_of(grid: &Grid, process: u8) -> u32
    ensures below { 92 ≤ result }
{
    TOP + row_height(rows_of(grid)) * u32::from(rank_of(grid.shown, process))
}

/// The y at which the legend begins.
#[tactic(auto, using(crate::proofs::Sizes::rows_small))]
pub fn bottom_of(rows: u16) -> u32
    ensures value { result ≡ layout.bottom_of rows }
    ensures low { result < 2 ^ 22 }
{
    TOP + row_height(rows) * u32::from(rows)
}

/// The height of the picture; at most 740 for up to 20 rows.
#[tactic(auto, using(crate::proofs::Sizes::rows_fit))]
pub fn height_of(rows: u16) -> u32
    ensures low { rows ≤ 20 → result ≤ 740 }
{
    bottom_of(rows) + 80
}
