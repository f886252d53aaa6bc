//! The position from which no process is released. A process that is down or holds a determinant then remains down or a
//! holder.
ghost use Rattle.std.specs.Prelude.{◌≡◌, ◌<◌};
ghost use Rattle.causal_trace.specs.declared.entry.Entry.{Entry};
ghost use Rattle.causal_trace.specs.Limits.{max_entries};
ghost use Rattle.causal_audit.specs.NoRelease.{may_release};
ghost use Rattle.causal_audit.specs.Inside.Index.Releases.{LastsAfter};

use causal_trace::entry::Entry;

/// Returns whether an entry may release a process, so that it is neither down nor holds a determinant.
fn may_release(entry: &Entry) -> bool
    ensures { result ≡ may_release entry.now }
{
    match entry {
        Entry::Restart { .. } => true,
        Entry::Forget { .. } => true,
        _ => false,
    }
}

/// Returns the position from which no process is released, after one more entry, at position i.
#[tactic(auto, using(crate::proofs::safety_scan::CoverStays::none_beyond))]
pub fn last_release_end(from: u32, entry: &Entry, i: u32) -> u32
    requires { i < max_entries }
    ensures { LastsAfter entry.now i from result }
{
    if may_release(entry) { i + 1 } else { from }
}
