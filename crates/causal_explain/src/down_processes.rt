//! Which processes are down at an instant, and since when.
ghost use Rattle.std.specs.Prelude.{◌≡◌, ◌≤◌, ℕ, List, IfOk, length, reverse};
ghost use Rattle.causal_trace.specs.declared.entry.Entry.{Entry};
ghost use Rattle.causal_trace.specs.Limits.{max_entries};
ghost use Rattle.causal_trace.specs.Past.{instant, is_down};
ghost use Rattle.causal_explain.specs.Inside.Validities.{AreValidities, IsChangeOf};
ghost use Rattle.causal_explain.specs.ProcessFacts.{AreDown};

use crate::validity::{Change, Validity, apply_change};
use causal_facts::DownProcess;
use causal_name::NoMemory;
use causal_trace::entry::Entry;
use causal_trace::trace::Trace;
use std::alloc::Global;

/// Returns how an entry changes which processes are down.
fn down_change(entry: &Entry) -> Change
    ensures { IsChangeOf (λ p past. is_down past p) entry.now result }
{
    match entry {
        Entry::Crash { who } => Change::Begins { process: who.0 },
        Entry::Restart { who, .. } => Change::Ends { process: who.0 },
        _ => Change::Nothing,
    }
}

/// Returns for each process whether it is down after these entries, and since when.
fn down_validity(entries: &[Entry]) -> [Validity; 256]
    requires { length entries.now ≤ max_entries }
    ensures { AreValidities (reverse entries.now) (λ p past. is_down past p) result }
{
    let mut standings = [Validity::Never; 256];
    for (i, entry) in entries.iter().enumerate() {
        apply_change(&mut standings, down_change(entry), i as u32);
    }
    standings
}

/// Returns the processes that are down.
fn down_in(alloc: Global, standings: &[Validity]) -> Result<Vec<DownProcess>, NoMemory>
    requires { length standings.now ≤ 256 }
    ensures { IfOk result (λ down. (past : List Entry)
        → AreValidities past (λ p state. is_down state p) standings.now →
        AreDown (length standings.now) past down.items) }
{
    let mut down = Vec::with_capacity(alloc, standings.len())?;
    for (p, standing) in standings.iter().enumerate() {
        if let Some(since) = standing.holds_since() {
            let process = p as u8;
            down.push_reserved(DownProcess { process, since });
        }
    }
    Ok(down)
}

/// Returns the processes that are down at an instant, ascending, each with the position of its last crash. It takes
/// O(entries up to the instant) time.
///
/// # Errors
/// `NoMemory` if an allocation failed.
pub fn down_since(alloc: Global, trace: &Trace, end: u32) -> Result<Vec<DownProcess>, NoMemory>
    requires { end ≤ length trace.now.recording.past }
    ensures { IfOk result (λ down. AreDown trace.now.recording.processes
        (instant trace.now.recording.past end) down.items) }
{
    let standings = down_validity(&trace.entries()[..end as usize]);
    down_in(alloc, &standings[..trace.processes() as usize])
}
