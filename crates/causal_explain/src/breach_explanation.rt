//! How a delivery comes to have an orphan.
ghost use Rattle.std.specs.Prelude.{◌≤◌, IfOk, length};
ghost use Rattle.std.specs.FinSet.{contains};
ghost use Rattle.causal_trace.specs.Judgement.{IsOrphan};
ghost use Rattle.causal_trace.specs.Past.{instant};
ghost use Rattle.causal_explain.specs.Chains.{IsShortestChain};
ghost use Rattle.causal_explain.specs.Explanations.{IsExplanation};

use crate::chain::shortest_chain;
use crate::down_processes::down_since;
use crate::explanation::Explanation;
use crate::holdings::holder_history;
use crate::missing_det::first_lacking;
use crate::underway::first_underway;
use causal_audit::Breach;
use causal_name::NoMemory;
use causal_trace::trace::Trace;
use std::alloc::Global;

/// Returns the shortest chain from the delivery of a breach to the breach's orphan.
///
/// # Errors
/// `NoMemory` if an allocation failed.
fn breach_chain(alloc: Global, trace: &Trace, breach: &Breach) -> Result<Vec<u32>, NoMemory>
    requires within { breach.now.instant ≤ length trace.now.recording.past }
    requires orphan { IsOrphan trace.now.recording.processes
        (instant trace.now.recording.past breach.now.instant)
        breach.now.delivery (contains breach.now.crash) breach.now.orphan }
    ensures { IfOk result (λ chain. IsShortestChain
        (instant trace.now.recording.past breach.now.instant)
        breach.now.delivery breach.now.orphan chain.items) }
{
    let found = shortest_chain(alloc, trace, breach.instant, breach.delivery, breach.orphan)?;
    let Some(chain) = found else { unreachable!() };
    Ok(chain)
}

/// Returns how the delivery of a breach comes to have the breach's orphan, at the breach's instant.
///
/// It takes O(entries + listed determinants) time, of the whole trace, and O(entries up to the instant) memory.
///
/// # Errors
/// `NoMemory` if an allocation failed.
pub fn explain(alloc: Global, trace: &Trace, breach: &Breach) -> Result<Explanation, NoMemory>
    requires within { breach.now.instant ≤ length trace.now.recording.past }
    requires orphan { IsOrphan trace.now.recording.processes
        (instant trace.now.recording.past breach.now.instant)
        breach.now.delivery (contains breach.now.crash) breach.now.orphan }
    ensures { IfOk result (IsExplanation trace.now.recording breach.now) }
{
    let Some(det) = trace.det_at(breach.delivery) else {
        unreachable!()
    };
    let chain = breach_chain(alloc, trace, breach)?;
    let unlisted = first_lacking(alloc, trace, breach.instant, chain.as_slice(), det)?;
    let underway = first_underway(alloc, trace, breach.instant, unlisted, det)?;
    let down = down_since(alloc, trace, breach.instant)?;
    let held = holder_history(alloc, trace, breach.instant, det)?;
    Ok(Explanation {
        delivery: breach.delivery,
        det,
        instant: breach.instant,
        crash: breach.crash,
        orphan: breach.orphan,
        holders: held.holders,
        losses: held.losses,
        down,
        chain,
        unlisted,
        underway,
    })
}
