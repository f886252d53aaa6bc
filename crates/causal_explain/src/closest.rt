//! The delivery of a run closest to failing, as the bound f grows.
ghost use Rattle.std.specs.Prelude.{◌≡◌, ◌+◌, ◌<◌, IfOk};
ghost use Rattle.std.specs.FinSet.{len};
ghost use Rattle.causal_trace.specs.Judgement.{IsSafeTrace};
ghost use Rattle.causal_explain.specs.Closest.{HasNoOrphan, IsClosest, IsSafeBelowClosest};
ghost use Rattle.causal_explain.specs.Inside.Bisection.{IsFoundBreach, FailsByItself};

use causal_audit::{Breach, earliest_breach};
use causal_name::NoMemory;
use causal_trace::trace::Trace;
use std::alloc::Global;

/// The number of first entries that are examined before the whole run: a run that fails for as many failures as it has
/// processes usually does so among them.
const EARLY_ENTRIES: u32 = 4_096;

/// The delivery of a run closest to failing. A delivery fails for a bound f if it has an orphan at some
/// instant, under a crash set of at most f processes.
#[derive(Clone, Copy)]
pub enum Closest {
    /// No delivery fails, for any bound.
    Never,
    /// `faults` is the least bound for which a delivery fails. `breach` is the earliest breach for it, by instant and
    /// then by position.
    At { faults: u16, breach: Breach },
}

/// Returns the delivery that is closest to failing in a run that is safe for f. So it determines for which greater
/// bounds the run is safe, too.
///
/// It makes at most eighteen searches with `causal_audit::earliest_breach`: one among the first 4,096 entries, the others in
/// the whole run. The whole run needs one search if the first breach has the least crash set, and none if no smaller
/// set is possible.
///
/// # Errors
/// `NoMemory` if an allocation failed.
pub fn closest_failure(alloc: Global, trace: &Trace, f: u16) -> Result<Closest, NoMemory>
    requires { IsSafeTrace trace.now.recording f }
    ensures closest { IfOk result (IsClosest trace.now.recording) }
    ensures safe { IfOk result (IsSafeBelowClosest trace.now.recording f) }
{
    // A bound above the number of processes allows no more crash sets.
    match earliest_breach_early(alloc, trace, trace.processes())? {
        None => Ok(Closest::Never),
        Some(breach) => bisect(alloc, trace, f, breach),
    }
}

/// Returns the earliest breach in the whole run.
fn earliest_breach_for(alloc: Global, trace: &Trace, f: u16) -> Result<Option<Breach>, NoMemory>
    ensures { IfOk result (IsFoundBreach trace.now.recording f) }
{
    earliest_breach(alloc, trace, f, trace.len())
}

/// Returns the earliest breach by an early instant, or else in the whole run.
fn earliest_breach_early(alloc: Global, trace: &Trace, f: u16) -> Result<Option<Breach>, NoMemory>
    ensures { IfOk result (IsFoundBreach trace.now.recording f) }
{
    let beginning = EARLY_ENTRIES.min(trace.len());
    match earliest_breach(alloc, trace, f, beginning)? {
        Some(breach) => Ok(Some(breach)),
        None => earliest_breach_for(alloc, trace, f),
    }
}

/// Returns the number of processes in the crash set of a breach.
fn faults_of(breach: &Breach) -> u16
    requires { len breach.now.crash < 65536 }
    ensures { result ≡ len breach.now.crash }
{
    breach.crash.len() as u16
}

/// Returns the next bound to test, between two others. It is the greatest one, since in most runs the known breach has
/// the least crash set; or the one in the middle.
fn next_candidate(low: u32, high: u32, greatest: bool) -> u32
    requires between { low + 1 < high }
    requires few { high < 65536 }
    ensures above { low < result }
    ensures below { result < high }
    ensures few { result < 65536 }
{
    if greatest {
        high - 1
    } else {
        low + (high - low) / 2
    }
}

/// Returns the closest failure, if no delivery fails for f and a breach is known. The least bound is above f and at
/// most the size of the breach's crash set. Every second search halves the interval between.
fn bisect(alloc: Global, trace: &Trace, f: u16, breach: Breach) -> Result<Closest, NoMemory>
    requires none { HasNoOrphan trace.now.recording f }
    requires fails { FailsByItself trace.now.recording breach }
    ensures { IfOk result (IsClosest trace.now.recording) }
{
    let mut low = u32::from(f);
    let mut least = breach;
    let mut greatest = true;
    while low + 1 < least.crash.len() {
        let asked = next_candidate(low, least.crash.len(), greatest);
        greatest = !greatest;
        match earliest_breach_for(alloc, trace, asked as u16)? {
            None => low = asked,
            Some(earlier) => least = earlier,
        }
    }
    Ok(Closest::At {
        faults: faults_of(&least),
        breach: least,
    })
}
