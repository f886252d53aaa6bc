//! The processes that a picture shows, each in its row.
ghost use Rattle.std.specs.Prelude.{◌≡◌, ◌≤◌, ◌==◌, ◌||◌, ℕ};
ghost use Rattle.std.specs.FinSet.{contains};
ghost use Rattle.std.specs.List.{list_any};
ghost use Rattle.std.specs.Option.{option_copied};
ghost use Rattle.causal_holders.specs.Members.{numbers_below};
ghost use Rattle.causal_picture.specs.Inside.Members.{HasMembersOf, is_among};
ghost use Rattle.causal_picture.specs.Rows as rows;

use crate::entry_range::Grid;
use crate::focus::{Band, Focus, Orphan};
use crate::marks::mark_at;
use crate::selection::Selection;
use causal_holders::Holders;
use causal_trace::Trace;

/// Adds a process to a set.
#[tactic(auto, using(crate::proofs::ShownMembers::members))]
fn add(mut members: Holders, process: u8) -> Holders
    ensures { HasMembersOf result (λ p. contains members p || (process == p)) }
{
    members.insert(process);
    members
}

/// Adds the orphan, and the holders of the determinant.
fn add_roles(members: Holders, orphan: Option<Orphan>) -> Holders
    ensures { HasMembersOf result (λ p. contains members p || rows.has_role orphan p) }
{
    match orphan {
        Some(orphan) => add(members, orphan.process).union(orphan.holders),
        None => members,
    }
}

/// Adds the processes of bands.
fn add_bands(members: Holders, bands: &[Band]) -> Holders
    ensures { HasMembersOf result
        (λ p. contains members p || list_any (rows.is_band_of p) bands.now) }
{
    let mut all = members;
    for band in bands {
        all = add(all, band.process);
    }
    all
}

/// Adds the process on whose line the entry at a position is shown.
fn add_mark(members: Holders, trace: &Trace, position: u32) -> Holders
    ensures { HasMembersOf result
        (λ p. contains members p || rows.is_mark_of trace.now.recording.past p position) }
{
    match mark_at(trace, position) {
        Some(mark) => add(members, mark.event.process().0),
        None => members,
    }
}

/// Adds the processes on whose lines a chain is shown.
fn add_chain(members: Holders, trace: &Trace, chain: &[u32]) -> Holders
    ensures { HasMembersOf result (λ p. contains members p
        || list_any (rows.is_mark_of trace.now.recording.past p) chain.now) }
{
    let mut all = members;
    for position in chain {
        all = add_mark(all, trace, *position);
    }
    all
}

/// The processes of a focus.
fn focus_processes(trace: &Trace, focus: &Focus<'_>) -> Holders
    ensures { HasMembersOf result (rows.is_of_focus trace.now.recording.past focus.now) }
{
    let roles = add_roles(focus.crash, focus.orphan);
    let holding = add_bands(roles, focus.bands);
    add_chain(holding, trace, focus.chain)
}

/// The processes of the focus if only they are selected; None if all are.
fn selected(trace: &Trace, focus: Option<&Focus<'_>>, selection: Selection) -> Option<Holders>
    ensures { (p : ℕ) → is_among result p
        ≡ rows.is_selected trace.now.recording.past (option_copied focus.entry) selection p }
{
    match focus {
        Some(focus) if selection.only_focus => Some(focus_processes(trace, focus)),
        _ => None,
    }
}

/// Returns whether a process is in a set; without a set, true.
fn is_among(members: &Option<Holders>, process: u8) -> bool
    ensures { result ≡ is_among members.now process }
{
    match members {
        Some(members) => members.contains(process),
        None => true,
    }
}

/// The processes of a run that are in a set; without a set, all.
#[tactic(auto, using(crate::proofs::ShownMembers::next_number, crate::proofs::ShownMembers::no_number))]
fn processes_among(processes: u16, members: &Option<Holders>) -> Holders
    requires { processes ≤ 256 }
    ensures { result ≡ numbers_below processes (is_among members.now) }
{
    let mut shown = Holders::none();
    for process in 0..processes {
        if is_among(members, process as u8) {
            shown.insert(process as u8);
        }
    }
    shown
}

/// The processes that a picture shows. O(chain + processes) time.
pub fn shown_processes(trace: &Trace, focus: Option<&Focus<'_>>, selection: Selection) -> Holders
    ensures { result
        ≡ rows.shown_processes trace.now.recording (option_copied focus.entry) selection }
{
    let members = selected(trace, focus, selection);
    processes_among(trace.processes(), &members)
}

/// The number of shown processes.
#[tactic(auto, using(crate::proofs::ShownMembers::rows_few))]
pub fn rows_of(grid: &Grid) -> u16
    ensures value { result ≡ rows.rows_of grid.now }
    ensures few { result ≤ 256 }
{
    grid.shown.len() as u16
}

/// The number of hidden processes.
pub fn hidden_of(grid: &Grid) -> u16
    ensures { result ≡ rows.hidden_of grid.now }
{
    grid.processes.saturating_sub(rows_of(grid))
}

/// The number of shown processes below one, which is the row of that. O(processes) time.
#[tactic(auto, using(crate::proofs::ShownMembers::rank_small))]
pub fn rank_of(shown: Holders, process: u8) -> u16
    ensures value { result ≡ rows.rank_of shown process }
    ensures few { result ≤ process }
{
    let mut rank = 0;
    for number in 0..process {
        if shown.contains(number) {
            rank += 1;
        }
    }
    rank
}
