//! The facts that explain the verdict on a trace.
ghost use Rattle.std.specs.Prelude.{◌≡◌, [], ◌∷◌, ◌++◌, map, IfOk, OnOk};
ghost use Rattle.causal_audit.specs.Verdicts.{IsVerdict};
ghost use Rattle.causal_holders.specs.Members.{ascending};
ghost use Rattle.causal_report.specs.Facts as facts;

use crate::event::event_at;
use crate::strays::facts_of_strays;
use causal_audit::Verdict;
use causal_explain::{Closest, Explanation, cause_of, closest_failure, down_since, explain};
use causal_facts::{Cause, ChainEvent, ClosestFailure, DownProcess, Fact, Holding, Loss};
use causal_holders::Holders;
use causal_name::NoMemory;
use causal_trace::trace::Trace;
use std::alloc::{AllocError, Global};

/// Returns the facts that explain the verdict on a trace for f, and then, if a recovery strayed, the first stray and who
/// has which of its two determinants.
///
/// # Errors
/// `NoMemory` if allocation failed.
pub fn facts_of(
    alloc: Global,
    trace: &Trace,
    f: u16,
    verdict: Verdict,
) -> Result<Vec<Fact>, NoMemory>
    requires { IsVerdict trace.now.recording f verdict }
    ensures { IfOk result (λ found. facts.AreFacts trace.now.recording f verdict found.items) }
{
    let strays = facts_of_strays(alloc, trace)?;
    let mut found = verdict_facts(alloc, trace, f, verdict)?;
    found.extend_from_slice(strays.as_slice())?;
    Ok(found)
}

/// The facts that explain the verdict on a trace for f. For an excess: the crash that exceeded f, and each down process.
/// For an orphan: the entry that caused it, and its explanation. For an accepted trace: the delivery that comes closest
/// to having an orphan, and so the greater bounds f for which the trace is accepted.
fn verdict_facts(
    alloc: Global,
    trace: &Trace,
    f: u16,
    verdict: Verdict,
) -> Result<Vec<Fact>, NoMemory>
    requires { IsVerdict trace.now.recording f verdict }
    ensures { IfOk result
        (λ found. facts.AreVerdictFacts trace.now.recording f verdict found.items) }
{
    let cause = cause_of(trace, &verdict);
    match verdict {
        Verdict::Exceeded { instant, .. } => {
            let Some(cause) = cause else { unreachable!() };
            let down = down_since(alloc, trace, instant)?;
            excess_facts(alloc, instant, cause, down.as_slice())
        }
        _ => match verdict.breach() {
            Some(breach) => {
                let Some(cause) = cause else { unreachable!() };
                let explanation = explain(alloc, trace, &breach)?;
                explanation_facts(alloc, trace, &explanation, cause)
            }
            None => {
                let closest = closest_failure(alloc, trace, f)?;
                closest_facts(alloc, closest)
            }
        },
    }
}

fn closest_facts(alloc: Global, closest: Closest) -> Result<Vec<Fact>, NoMemory>
    ensures { IfOk result (λ found. found.items ≡ facts.closest_fact closest ∷ []) }
{
    let mut found = Vec::new(alloc);
    found.push(closest_fact(closest))?;
    Ok(found)
}

/// The delivery that comes closest to having an orphan, or that none ever has one.
fn closest_fact(closest: Closest) -> Fact
    ensures { result ≡ facts.closest_fact closest }
{
    match closest {
        Closest::Never => Fact::Never,
        Closest::At { faults, breach } => Fact::Closest(ClosestFailure {
            faults,
            delivery: breach.delivery,
            instant: breach.instant,
            orphan: breach.orphan,
        }),
    }
}

/// The crash that exceeded f, and the down processes.
fn excess_facts(
    alloc: Global,
    instant: u32,
    cause: Cause,
    down: &[DownProcess],
) -> Result<Vec<Fact>, NoMemory>
    ensures { IfOk result (λ found. found.items ≡ facts.excess_facts instant cause down.now) }
{
    let mut found = Vec::new(alloc);
    found.push(Fact::Cause { instant, cause })?;
    push_down(&mut found, down)?;
    Ok(found)
}

fn explanation_facts(
    alloc: Global,
    trace: &Trace,
    explanation: &Explanation,
    cause: Cause,
) -> Result<Vec<Fact>, NoMemory>
    ensures { IfOk result
        (λ found. found.items ≡ facts.explanation_facts trace.now.recording explanation.now cause) }
{
    let mut found = Vec::new(alloc);
    push_explanation(&mut found, trace, explanation, cause)?;
    Ok(found)
}

// The functions below append to one list, so that none of them owns another: a list that is owned where a call may fail
// makes the proof much dearer.
/// Appends the facts of an orphan: the delivery; the cause; that the determinant is not stable; its holders, its losses and
/// the down processes; the crash set; and the path from the delivery to the orphan.
fn push_explanation(
    found: &mut Vec<Fact>,
    trace: &Trace,
    explanation: &Explanation,
    cause: Cause,
) -> Result<(), AllocError>
    ensures { OnOk result (found.new.items ≡ found.old.items
        ++ facts.explanation_facts trace.now.recording explanation.now cause) }
{
    push_breach(found, explanation, cause)?;
    push_holders(found, explanation.holders.as_slice())?;
    push_losses(found, explanation.losses.as_slice())?;
    push_down(found, explanation.down.as_slice())?;
    push_crash_set(found, explanation.crash)?;
    push_path(found, trace, explanation)
}

/// Appends the delivery that has an orphan, the cause, and that the determinant is not stable.
fn push_breach(
    found: &mut Vec<Fact>,
    explanation: &Explanation,
    cause: Cause,
) -> Result<(), AllocError>
    ensures { OnOk result (found.new.items ≡ found.old.items
        ++ facts.breach_facts explanation.now cause) }
{
    let (delivery, det) = (explanation.delivery, explanation.det);
    let instant = explanation.instant;
    found.push(Fact::Delivery { delivery, det })?;
    found.push(Fact::Cause { instant, cause })?;
    found.push(Fact::Unstable { instant })?;
    Ok(())
}

/// Appends each holder, or that there is none.
fn push_holders(found: &mut Vec<Fact>, holders: &[Holding]) -> Result<(), AllocError>
    ensures { OnOk result (found.new.items ≡ found.old.items ++ facts.holder_facts holders.now) }
{
    if holders.is_empty() {
        found.push(Fact::NoHolder)?;
        return Ok(());
    }
    push_each_holder(found, holders)
}

fn push_each_holder(found: &mut Vec<Fact>, holders: &[Holding]) -> Result<(), AllocError>
    ensures { OnOk result (found.new.items ≡ found.old.items ++ map Fact.Holder holders.now) }
{
    for holding in holders {
        found.push(Fact::Holder(*holding))?;
    }
    Ok(())
}

/// Appends each process that lost the determinant.
fn push_losses(found: &mut Vec<Fact>, losses: &[Loss]) -> Result<(), AllocError>
    ensures { OnOk result (found.new.items ≡ found.old.items ++ map Fact.Loss losses.now) }
{
    for loss in losses {
        found.push(Fact::Loss(*loss))?;
    }
    Ok(())
}

/// Appends each down process.
fn push_down(found: &mut Vec<Fact>, down: &[DownProcess]) -> Result<(), AllocError>
    ensures { OnOk result (found.new.items ≡ found.old.items ++ map Fact.Down down.now) }
{
    for process in down {
        found.push(Fact::Down(*process))?;
    }
    Ok(())
}

/// Appends each process of the crash set, ascending.
fn push_crash_set(found: &mut Vec<Fact>, crash: Holders) -> Result<(), AllocError>
    ensures { OnOk result (found.new.items ≡ found.old.items ++ map Fact.Crash (ascending crash)) }
{
    for process in crash.iter() {
        found.push(Fact::Crash { process })?;
    }
    Ok(())
}

/// Appends the chain from the delivery to the orphan, its first delivery without the determinant, the determinant's late
/// arrival, and the orphan.
fn push_path(
    found: &mut Vec<Fact>,
    trace: &Trace,
    explanation: &Explanation,
) -> Result<(), AllocError>
    ensures { OnOk result (found.new.items ≡ found.old.items
        ++ facts.path_facts trace.now.recording explanation.now) }
{
    push_chain(found, trace, explanation.chain.as_slice())?;
    found.push(unlisted_fact(trace, explanation.delivery, explanation.unlisted))?;
    push_underway(found, trace, explanation.underway)?;
    found.push(Fact::Orphan {
        process: explanation.orphan,
    })?;
    Ok(())
}

/// Appends the events of a chain.
fn push_chain(found: &mut Vec<Fact>, trace: &Trace, chain: &[u32]) -> Result<(), AllocError>
    ensures { OnOk result (found.new.items ≡ found.old.items
        ++ map (facts.chain_fact trace.now.recording) chain.now) }
{
    for position in chain {
        found.push(chain_fact(trace, *position))?;
    }
    Ok(())
}

fn chain_fact(trace: &Trace, position: u32) -> Fact
    ensures { result ≡ facts.chain_fact trace.now.recording position }
{
    Fact::Chain {
        position,
        event: event_at(trace, position),
    }
}

/// The first delivery of a chain after which its receiver's log lacks the determinant of `delivery`, or that there is
/// none.
fn unlisted_fact(trace: &Trace, delivery: u32, unlisted: Option<u32>) -> Fact
    ensures { result ≡ facts.unlisted_fact trace.now.recording delivery unlisted }
{
    match unlisted {
        None => Fact::Listed,
        Some(position) => Fact::Unlisted {
            position,
            event: event_at(trace, position),
            is_own: position == delivery,
        },
    }
}

/// Appends the delivery by which a determinant arrives that was in transit, if there is one.
fn push_underway(
    found: &mut Vec<Fact>,
    trace: &Trace,
    underway: Option<u32>,
) -> Result<(), AllocError>
    ensures { OnOk result (found.new.items ≡ found.old.items
        ++ facts.underway_facts trace.now.recording underway) }
{
    match underway {
        None => Ok(()),
        Some(position) => push_arrival(found, position, event_at(trace, position)),
    }
}

fn push_arrival(found: &mut Vec<Fact>, position: u32, event: ChainEvent) -> Result<(), AllocError>
    ensures { OnOk result (found.new.items ≡ found.old.items ++ facts.arrival_facts position event) }
{
    if let ChainEvent::Delivery { to, send } = event {
        found.push(Fact::Underway { position, send, to })?;
    }
    Ok(())
}
