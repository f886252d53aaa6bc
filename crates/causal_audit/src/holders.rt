//! The holders of a determinant after one more entry.
ghost use Rattle.std.specs.Prelude.{◌≡◌, true, false};
ghost use Rattle.causal_name.specs.declared.Det.{Det};
ghost use Rattle.causal_trace.specs.Past.{list_has, mentioned_dets};
ghost use Rattle.causal_audit.specs.Inside.DeliveryStates.{ShowsHoldersAfter};

use crate::delivery_state::{with_member, without_member};
use causal_holders::Holders;
use causal_trace::entry::Entry;

/// Returns the holders of a determinant after an entry that mentions it.
#[tactic(auto, using(crate::proofs::Shown::shows_listed, crate::proofs::Shown::shows_forgotten))]
#[inline(always)]
fn holders_mentioned(holders: Holders, entry: &Entry) -> Holders
    ensures { (d : Det) →
        ShowsHoldersAfter (list_has (mentioned_dets entry.now) d
        ≡ true) entry.now d holders result }
{
    match entry {
        Entry::Deliver { to, .. } => with_member(holders, to.0),
        Entry::Restart { who, .. } => with_member(holders, who.0),
        Entry::Forget { who, .. } => without_member(holders, who.0),
        _ => holders,
    }
}

/// Returns the holders of a determinant after an entry that does not mention it.
#[tactic(auto, using(crate::proofs::Shown::shows_without))]
#[inline(always)]
fn holders_unmentioned(holders: Holders, entry: &Entry) -> Holders
    ensures { (d : Det) →
        ShowsHoldersAfter (list_has (mentioned_dets entry.now) d
        ≡ false) entry.now d holders result }
{
    match entry {
        Entry::Crash { who } => without_member(holders, who.0),
        _ => holders,
    }
}

/// Returns the holders of a determinant after one more entry. `mentioned_dets`: the entry mentions it. The entry's list is
/// not searched.
#[inline(always)]
pub fn holders_after(holders: Holders, entry: &Entry, mentioned: bool) -> Holders
    ensures { (d : Det) →
        ShowsHoldersAfter (mentioned ≡ list_has
        (mentioned_dets entry.now) d) entry.now d holders result }
{
    if mentioned {
        holders_mentioned(holders, entry)
    } else {
        holders_unmentioned(holders, entry)
    }
}
