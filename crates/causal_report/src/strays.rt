//! The facts of the first stray of a run: the stray, and who has which of its two determinants.
ghost use Rattle.std.specs.Prelude.{◌≡◌, ◌≤◌, IfOk, Some, length, map};
ghost use Rattle.causal_name.specs.declared.Det.{Det as Determinant};
ghost use Rattle.causal_trace.specs.Past.{det_at, instant};
ghost use Rattle.causal_replays.specs.Strays.{IsFirstStray};
ghost use Rattle.causal_report.specs.Facts as facts;

use crate::survivors::copies_of;
use causal_facts::{Fact, Holding, Stray};
use causal_name::NoMemory;
use causal_replays::first_stray;
use causal_trace::trace::Trace;
use std::alloc::Global;

/// The facts of the first stray of a trace; none if its recoveries follow what survives.
pub(crate) fn facts_of_strays(alloc: Global, trace: &Trace) -> Result<Vec<Fact>, NoMemory>
    ensures { IfOk result (λ found. facts.AreFactsOfStrays trace.now.recording found.items) }
{
    match first_stray(alloc, trace)? {
        None => Ok(Vec::new(alloc)),
        Some(stray) => stray_facts(alloc, trace, stray),
    }
}

/// A stray, and who has which of its two determinants.
fn stray_facts(alloc: Global, trace: &Trace, stray: Stray) -> Result<Vec<Fact>, NoMemory>
    requires { IsFirstStray trace.now.recording stray }
    ensures { IfOk result (λ found. facts.AreStrayFacts trace.now.recording stray found.items) }
{
    let survivors = survivor_facts(alloc, trace, stray)?;
    let mut found = Vec::new(alloc);
    found.push(Fact::Strayed(stray))?;
    found.extend_from_slice(survivors.as_slice())?;
    Ok(found)
}

/// Returns who has which of the two determinants of a stray: the processes that have one in their logs at its instant,
/// and stable storage if it has one.
///
/// O(entries + listed determinants) time.
///
/// # Errors
/// `NoMemory` if allocation failed.
pub fn survivor_facts(alloc: Global, trace: &Trace, stray: Stray) -> Result<Vec<Fact>, NoMemory>
    requires { IsFirstStray trace.now.recording stray }
    ensures { IfOk result
        (λ found. facts.AreSurvivorFacts trace.now.recording stray found.items) }
{
    let mut found = copy_facts(alloc, trace, stray.instant, stray.first)?;
    let second = copy_facts(alloc, trace, stray.instant, stray.second)?;
    found.extend_from_slice(second.as_slice())?;
    Ok(found)
}

/// Who has the determinant of the delivery at a position, at the instant after `end` entries.
fn copy_facts(alloc: Global, trace: &Trace, end: u32, delivery: u32) -> Result<Vec<Fact>, NoMemory>
    requires within { end ≤ length trace.now.recording.past }
    requires delivered { (d : Determinant) ×
        (det_at (instant trace.now.recording.past end) delivery ≡ Some d) }
    ensures { IfOk result
        (λ found. facts.AreCopyFacts trace.now.recording end delivery found.items) }
{
    let copies = copies_of(alloc, trace, end, delivery)?;
    let mut found = logged_facts(alloc, delivery, copies.holders.as_slice())?;
    if copies.is_stable {
        found.push(Fact::Stable { delivery })?;
    }
    Ok(found)
}

/// The processes with the determinant of a delivery in their logs.
fn logged_facts(alloc: Global, delivery: u32, holders: &[Holding]) -> Result<Vec<Fact>, NoMemory>
    ensures { IfOk result (λ found. found.items ≡ map (Fact.Logged delivery) holders.now) }
{
    let mut found = Vec::new(alloc);
    for holding in holders {
        found.push(Fact::Logged {
            delivery,
            holding: *holding,
        })?;
    }
    Ok(found)
}
