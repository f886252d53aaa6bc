//! Marks of the events of a kind, by the logs that contain a determinant.
ghost use Rattle.std.specs.Prelude.{◌≡◌, ◌≤◌, List, IfOk, false, length, reverse, slice_index_or};
ghost use Rattle.causal_name.specs.declared.Det.{Det};
ghost use Rattle.causal_trace.specs.declared.entry.Entry.{Entry};
ghost use Rattle.causal_trace.specs.Limits.{max_entries};
ghost use Rattle.causal_trace.specs.Past.{logs};
ghost use Rattle.causal_explain.specs.Inside.Marks.{AreMarks, is_of_kind};
ghost use Rattle.causal_explain.specs.Inside.Validities.{AreValidities};

use crate::holdings::{holder_change, log_has_det};
use crate::validity::{Validity, apply_change};
use causal_name::{Det, NoMemory};
use causal_trace::entry::Entry;
use std::alloc::Global;

/// A kind of events.
#[derive(Clone, Copy)]
pub enum EventKind {
    /// A delivery after which the receiver's log lacks the determinant.
    DeliveryWithoutDet,
    /// A send by a process whose log contains the determinant.
    SendByHolder,
}

/// Whether an entry is of the kind, by which logs contain the determinant after it.
fn is_of_kind(kind: EventKind, entry: &Entry, standings: &[Validity]) -> bool
    requires { length standings.now ≡ 256 }
    ensures { (past : List Entry) (d : Det)
        → AreValidities past (λ p state. logs state p d) standings.now →
        result ≡ is_of_kind kind past d entry.now }
{
    match kind {
        EventKind::DeliveryWithoutDet => match entry {
            Entry::Deliver { to, .. } => !log_has_det(standings, to.0),
            _ => false,
        },
        EventKind::SendByHolder => match entry {
            Entry::Send { from, .. } => log_has_det(standings, from.0),
            _ => false,
        },
    }
}

/// Whether a position is marked.
pub(crate) fn is_marked(marks: &[bool], position: u32) -> bool
    ensures { result ≡ slice_index_or marks.now position false }
{
    match marks.get(position as usize) {
        Some(mark) => *mark,
        None => false,
    }
}

/// Returns for each entry whether it is of the kind.
pub(crate) fn events_of_kind(
    alloc: Global,
    kind: EventKind,
    entries: &[Entry],
    det: Det,
) -> Result<Vec<bool>, NoMemory>
    requires { length entries.now ≤ max_entries }
    ensures { IfOk result (λ marks. AreMarks kind (reverse entries.now) det marks.items) }
{
    let mut standings = [Validity::Never; 256];
    let mut marks = Vec::with_capacity(alloc, entries.len())?;
    for (i, entry) in entries.iter().enumerate() {
        apply_change(&mut standings, holder_change(entry, det), i as u32);
        marks.push_reserved(is_of_kind(kind, entry, &standings));
    }
    Ok(marks)
}
