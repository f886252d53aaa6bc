//! The entry by which the instant of a verdict fails, and what it does.
ghost use Rattle.std.specs.Prelude.{◌≡◌, ℕ, reverse};
ghost use Rattle.causal_audit.specs.Verdicts.{IsVerdict};
ghost use Rattle.causal_explain.specs.Causes.{IsCauseOf};
ghost use Rattle.causal_explain.specs.Inside.EntryCauses.{cause_from_entry, newest_cause};

use causal_audit::Verdict;
use causal_audit::laws::new_orphans_law;
use causal_facts::Cause;
use causal_trace::entry::Entry;
use causal_trace::trace::Trace;

/// Returns the cause that an entry may be.
fn cause_from_entry(entry: &Entry) -> Option<Cause>
    ensures { result ≡ cause_from_entry entry.now }
{
    match entry {
        Entry::Deliver { to, send, .. } => Some(Cause::Delivery {
            process: to.0,
            send: *send,
        }),
        Entry::Restart { who, .. } => Some(Cause::Restart { process: who.0 }),
        Entry::Forget { who, .. } => Some(Cause::Forgetting { process: who.0 }),
        Entry::Crash { who } => Some(Cause::Crash { process: who.0 }),
        Entry::Send { .. } | Entry::Stable { .. } => None,
    }
}

/// Returns the cause that the last of these entries may be.
fn last_cause(entries: &[Entry]) -> Option<Cause>
    ensures { result ≡ newest_cause (reverse entries.now) }
{
    match entries.last() {
        Some(entry) => cause_from_entry(entry),
        None => None,
    }
}

/// Returns the cause by which the instant of the verdict fails; None for `Accept`. A send, a confirmed write to stable
/// storage and a crash never give a delivery an orphan that it did not have before.
pub fn cause_of(trace: &Trace, verdict: &Verdict) -> Option<Cause>
    requires { (f : ℕ) × IsVerdict trace.now.recording f verdict.now }
    ensures { (f : ℕ) → IsVerdict trace.now.recording f verdict.now
        → IsCauseOf trace.now.recording f verdict.now result }
{
    new_orphans_law();
    match verdict {
        Verdict::Accept => None,
        Verdict::Exceeded { instant, .. } => last_cause(&trace.entries()[..*instant as usize]),
        Verdict::Orphan { instant, .. } => last_cause(&trace.entries()[..*instant as usize]),
    }
}
