//! Who has the determinant of a delivery at an instant.
ghost use Rattle.std.specs.Prelude.{◌≡◌, ◌≤◌, IfOk, Some, length};
ghost use Rattle.std.specs.List.{list_any};
ghost use Rattle.causal_name.specs.declared.Det.{Det as Determinant};
ghost use Rattle.causal_trace.specs.Past.{det_at, instant, is_stable};
ghost use Rattle.causal_report.specs.Inside.Storing.{stores};
ghost use Rattle.causal_report.specs.Survivors.{AreSurvivorCopies};

use causal_explain::holder_history;
use causal_facts::Holding;
use causal_name::{Det, NoMemory};
use causal_trace::entry::Entry;
use causal_trace::trace::Trace;
use std::alloc::Global;

/// Who has the determinant of a delivery at an instant.
#[derive(Drop)]
pub(crate) struct SurvivorCopies {
    /// The processes with it in their logs, ascending.
    pub holders: Vec<Holding>,
    /// Whether stable storage has it.
    pub is_stable: bool,
}

/// Returns who has the determinant of the delivery at a position, at the instant after `end` entries.
///
/// O(entries + listed determinants) time.
///
/// # Errors
/// `NoMemory` if allocation failed.
pub(crate) fn copies_of(
    alloc: Global,
    trace: &Trace,
    end: u32,
    delivery: u32,
) -> Result<SurvivorCopies, NoMemory>
    requires within { end ≤ length trace.now.recording.past }
    requires delivered { (d : Determinant) ×
        (det_at (instant trace.now.recording.past end) delivery ≡ Some d) }
    ensures { IfOk result
        (λ copies. AreSurvivorCopies trace.now.recording end delivery copies.holders.items copies.is_stable) }
{
    let Some(det) = trace.det_at(delivery) else {
        unreachable!();
    };
    let history = holder_history(alloc, trace, end, det)?;
    Ok(SurvivorCopies {
        holders: history.holders,
        is_stable: is_stable_at(trace, end, det),
    })
}

/// Returns whether an entry writes the determinant to stable storage.
fn stores(entry: &Entry, det: Det) -> bool
    ensures { result ≡ stores det entry.now }
{
    match entry {
        Entry::Stable { det: stored } => det == *stored,
        _ => false,
    }
}

/// Returns whether one of the entries writes the determinant to stable storage.
fn any_stores(entries: &[Entry], det: Det) -> bool
    ensures { result ≡ list_any (stores det) entries.now }
{
    entries.iter().any(|entry| stores(entry, det))
}

/// Returns whether the determinant is stable at the instant after `end` entries.
fn is_stable_at(trace: &Trace, end: u32, det: Det) -> bool
    requires { end ≤ length trace.now.recording.past }
    ensures { result ≡ is_stable (instant trace.now.recording.past end) det }
{
    any_stores(&trace.entries()[..end as usize], det)
}
