//! Determinants that an entry mentions although no delivery has them.
ghost use Rattle.std.specs.Prelude.{◌≡◌, ℕ, Some, true, IfOk, IfSome};
ghost use Rattle.std.specs.List.{Contains};
ghost use Rattle.std.specs.BTreeSet.{contains};
ghost use Rattle.causal_name.specs.declared.Det.{Det};
ghost use Rattle.causal_name.specs.Names.{det_cmp};
ghost use Rattle.causal_trace.specs.Past.{det_at, det_of, is_det, mentioned_dets};
ghost use Rattle.causal_line.specs.FaultDetails.{IsUndelivered};

use causal_name::{Det, NoMemory};
use causal_trace::entry::{Entry, is_det};
use causal_trace::trace::Trace;
use std::alloc::Global;
use std::collections::BTreeSet;

/// Returns the first determinant that the entry mentions and that neither a delivery so far nor the entry itself has.
/// O((entries + listed determinants) * log deliveries) time, O(deliveries) memory.
///
/// # Errors
/// `NoMemory` if an allocation failed.
pub(crate) fn find_undelivered(
    alloc: Global,
    trace: &Trace,
    entry: &Entry,
) -> Result<Option<Det>, NoMemory>
    ensures { IfOk result (λ found. IfSome found (λ det. Contains (mentioned_dets entry.now) det
        × IsUndelivered trace.now.recording.past entry.now det)) }
{
    let delivered = delivered_dets(alloc, trace)?;
    let own = own_det(trace, entry);
    for det in entry.mentioned_dets() {
        if !is_det(own, *det) && !delivered.contains(det) {
            return Ok(Some(*det));
        }
    }
    Ok(None)
}

/// Returns the set of the determinants of all deliveries.
fn delivered_dets(alloc: Global, trace: &Trace) -> Result<BTreeSet<Det, Global>, NoMemory>
    ensures { IfOk result (λ set. (k : ℕ) (d : Det)
        → det_at trace.now.recording.past k ≡ Some d → contains det_cmp set d ≡ true) }
{
    let mut delivered = BTreeSet::new(alloc);
    for k in 0..trace.len() {
        if let Some(det) = trace.det_at(k) {
            delivered.insert(det)?;
        }
    }
    Ok(delivered)
}

/// Returns the entry's own determinant if it is a delivery of a recorded send.
pub fn own_det(trace: &Trace, entry: &Entry) -> Option<Det>
    ensures { result ≡ det_of trace.now.recording.past entry.now }
{
    let Entry::Deliver { to, send, rsn, .. } = entry else {
        return None;
    };
    match trace.entry(*send) {
        Some(Entry::Send { from, ssn, .. }) => Some(Det {
            source: *from,
            ssn: *ssn,
            dest: *to,
            rsn: *rsn,
        }),
        _ => None,
    }
}
