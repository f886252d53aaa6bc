//! The entries that a picture shows.
ghost use Rattle.std.specs.Prelude.{◌≡◌, ◌≤◌, ◌<◌, ◌+◌, true, None, IfSome, length};
ghost use Rattle.std.specs.Option.{option_copied};
ghost use Rattle.causal_trace.specs.Limits.{max_entries};
ghost use Rattle.causal_picture.specs.EntryRanges as stretches;

use crate::focus::Focus;
use crate::rows::shown_processes;
use crate::selection::Selection;
use causal_holders::Holders;
use causal_trace::Trace;

/// The maximum number of shown entries.
pub const MAX_SHOWN: u32 = 200;

/// The number of entries shown after the instant, unless that hides entries of the chain.
pub const AFTER_INSTANT: u32 = 10;

/// The number of entries shown around the chain's first entry, if the run is cut after them.
pub const EARLY_SHOWN: u32 = 40;

/// The number of entries shown before the chain's first entry, if the run is cut after it.
pub const BEFORE_CHAIN: u32 = 9;

/// The number of entries shown before a selected one.
pub const BEFORE_SELECTED: u32 = 100;

/// Consecutive entries of a run: the position of the first, and their number.
#[derive(Clone, Copy)]
pub struct EntryRange {
    pub first: u32,
    pub count: u32,
}

/// The layout of a picture: the entries of two ranges, each in its column, and the shown processes of a run, each in
/// its row. The later range may be empty; the entries between the ranges are hidden.
#[derive(Drop)]
pub struct Grid {
    pub early: EntryRange,
    pub late: EntryRange,
    pub processes: u16,
    pub shown: Holders,
}

/// The grid of a picture of the trace. It shows all entries if there are at most 200, otherwise 200. Without a focus
/// these are the first 200. With a focus they end at the instant, or at most 10 entries later if that hides no entry of
/// the chain. If these do not include the chain's first entry, 40 around it and 160 up to the instant or shortly after
/// it are shown. Around a selected entry 200 are shown, or all, whatever the focus is.
///
/// O(chain + processes) time.
#[tactic(auto, using(crate::proofs::Shown::chosen))]
pub fn grid_around(trace: &Trace, focus: Option<&Focus<'_>>, selection: Selection) -> Grid
    ensures value { result
        ≡ stretches.grid_around trace.now.recording (option_copied focus.entry) selection }
    ensures within { stretches.GridFits (length trace.now.recording.past) result }
    ensures few { result.early.count + result.late.count ≤ 200 }
    ensures reaches { selection.around ≡ None → IfSome (option_copied focus.entry)
        (stretches.ReachesInstant (length trace.now.recording.past) result) }
    ensures chain { selection.around ≡ None → IfSome (option_copied focus.entry)
        (stretches.ShowsFirst (length trace.now.recording.past) result) }
    ensures selected { IfSome selection.around (λ position.
        position < length trace.now.recording.past → stretches.is_shown result position ≡ true) }
{
    let shown = shown_processes(trace, focus, selection);
    choose_grid(
        trace.len(),
        trace.processes(),
        shown,
        focus,
        selection.around,
    )
}

/// The grid of a picture, by its number of entries and a selected position.
fn choose_grid(
    entries: u32,
    processes: u16,
    shown: Holders,
    focus: Option<&Focus<'_>>,
    around: Option<u32>,
) -> Grid
    requires { entries ≤ max_entries }
    ensures { result
        ≡ stretches.choose_grid entries processes shown (option_copied focus.entry) around }
{
    match (around, focus) {
        (Some(position), _) => {
            one_range_grid(entries, processes, shown, first_near(entries, position))
        }
        (None, Some(focus)) => grid_around_focus(entries, processes, shown, focus),
        (None, None) => one_range_grid(entries, processes, shown, 0),
    }
}

/// The first shown entry around a position.
fn first_near(entries: u32, position: u32) -> u32
    ensures { result ≡ stretches.first_near entries position }
{
    position
        .saturating_sub(BEFORE_SELECTED)
        .min(entries.saturating_sub(MAX_SHOWN))
}

/// The grid with one range of at most 200 entries, from `first` on.
fn one_range_grid(entries: u32, processes: u16, shown: Holders, first: u32) -> Grid
    requires { first ≤ entries }
    ensures { result ≡ stretches.one_range_grid entries processes shown first }
{
    let count = MAX_SHOWN.min(entries - first);
    Grid {
        early: EntryRange { first, count },
        late: EntryRange {
            first: first + count,
            count: 0,
        },
        processes,
        shown,
    }
}

/// The grid with two ranges: around the chain's first entry, and up to the instant or shortly after it.
fn two_range_grid(entries: u32, processes: u16, shown: Holders, least: u32, instant: u32) -> Grid
    requires small { entries ≤ max_entries }
    requires within { instant ≤ entries }
    ensures { result ≡ stretches.two_range_grid entries processes shown least instant }
{
    let count = MAX_SHOWN - EARLY_SHOWN;
    let end = entries.min(instant + AFTER_INSTANT);
    Grid {
        early: EntryRange {
            first: least.saturating_sub(BEFORE_CHAIN),
            count: EARLY_SHOWN,
        },
        late: EntryRange {
            first: end.saturating_sub(count),
            count,
        },
        processes,
        shown,
    }
}

fn grid_around_focus(entries: u32, processes: u16, shown: Holders, focus: &Focus<'_>) -> Grid
    requires { entries ≤ max_entries }
    ensures { result ≡ stretches.grid_around_focus entries processes shown focus.now }
{
    let instant = focus.instant.min(entries);
    let least = least_of(entries, focus.chain);
    let first = first_around(entries, least, instant);
    if least < first {
        two_range_grid(entries, processes, shown, least, instant)
    } else {
        one_range_grid(entries, processes, shown, first)
    }
}

/// The first shown entry around an instant, if there is one range.
fn first_around(entries: u32, least: u32, instant: u32) -> u32
    requires small { entries ≤ max_entries }
    requires within { instant ≤ entries }
    ensures { result ≡ stretches.first_around entries least instant }
{
    let latest = entries.min(instant + AFTER_INSTANT);
    let earliest = instant.saturating_sub(MAX_SHOWN);
    earliest.max(least.min(latest.saturating_sub(MAX_SHOWN)))
}

/// The minimum of some positions and the number of entries.
fn least_of(entries: u32, chain: &[u32]) -> u32
    ensures { result ≡ stretches.least_of entries chain.now }
{
    chain
        .iter()
        .fold(entries, |least, position| least.min(*position))
}
