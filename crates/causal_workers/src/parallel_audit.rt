//! The audit of a trace by several workers.
ghost use Rattle.std.specs.Prelude.{◌≡◌, ◌+◌, ◌≤◌, ℕ, [], vec_capacity, length, IfOk, Err, true};
ghost use Rattle.std.specs.Bool.{OnTrue};
ghost use Rattle.causal_audit.specs.Parts.{FollowedDeliveries, EarliestOf};
ghost use Rattle.causal_audit.specs.Verdicts.{IsVerdict};
ghost use Rattle.causal_workers.specs.Judgements.{IsOnlyVerdict};
ghost use Rattle.causal_workers.specs.Inside.Shares.{Covers, FollowsAfter, IsEarlierOf, IsFirstShare, IsResultOf};

use crate::gate::Gate;
use crate::preparation::prepare_by;
use crate::share::{RunningShare, Share, ShareResult};
use causal_audit::{Breach, PreparedRun, Verdict, decide_verdict, earlier_breach};
use causal_name::NoMemory;
use causal_trace::trace::Trace;
use std::alloc::Global;
use std::sync::Wait;
use std::thread;
use std::thread::{Scope, Threads};
use thiserror::Error;

/// Why an audit returned no verdict.
#[derive(Clone, Copy, Debug, PartialEq, Eq, Error)]
pub enum AuditFault {
    /// Memory allocation failed.
    #[error("no memory")]
    NoMemory,
    /// A worker could not be started.
    #[error("no worker")]
    NoWorker,
}

impl From<NoMemory> for AuditFault {
    ghost use Rattle.causal_workers.specs.declared.parallel_audit.AuditFault.TheVariants as fault;

    ghost from_gives = { λ _ told. told ≡ fault.NoMemory };

    fn from(_refused: NoMemory) -> AuditFault {
        AuditFault::NoMemory
    }
}

/// Returns the verdict on a trace for f, by 1 to 64 workers. It is the same for every number of workers.
///
/// The run is prepared up to an instant beyond which nothing decides: three threads index it, and all workers search for
/// the deliveries that must be followed. These are divided among the workers, in groups that one walk over
/// the entries follows. Worker 0 is the calling thread, and begins after all others were started. Each worker calls the
/// gate's `enter` once with its number, even if no delivery is left for it.
///
/// # Errors
/// `NoMemory` if allocation fails; if it fails in a worker, all workers end first. `NoWorker` if a worker could not be
/// started, after those that were started have ended; never with one worker.
pub fn audit<G: Gate + Sync, R: Threads + Wait>(
    rt: &R,
    alloc: Global,
    trace: &Trace,
    f: u16,
    workers: u32,
    gate: &G,
) -> Result<Verdict, AuditFault>
    requires { (1 ≤ workers) × (workers ≤ 64) }
    ensures verdict { IfOk result (IsVerdict trace.now.recording f) }
    ensures only { IfOk result (IsOnlyVerdict trace.now.recording f) }
    ensures one_worker { result ≡ Err AuditFault.NoWorker → 2 ≤ workers }
{
    let (prepared, excess) = prepare_by(rt, alloc, trace, f, workers)?;
    let least = breach_of_prepared(rt, alloc, trace, prepared, workers, gate)?;
    Ok(decide_verdict(excess, least))
}

/// Returns the earliest breach of all followed deliveries, and drops the prepared run.
fn breach_of_prepared<G: Gate + Sync, R: Threads + Wait>(
    rt: &R,
    alloc: Global,
    trace: &Trace,
    prepared: PreparedRun,
    workers: u32,
    gate: &G,
) -> Result<Option<Breach>, AuditFault>
    requires workers { (1 ≤ workers) × (workers ≤ 64) }
    requires same { trace.now.recording ≡ prepared.run }
    ensures least { IfOk result (EarliestOf prepared) }
    ensures one_worker { result ≡ Err AuditFault.NoWorker → 2 ≤ workers }
{
    earliest_breach(rt, alloc, trace, &prepared, workers, gate)
}

/// Returns the earliest breach of all followed deliveries.
fn earliest_breach<G: Gate + Sync, R: Threads + Wait>(
    rt: &R,
    alloc: Global,
    trace: &Trace,
    prepared: &PreparedRun,
    workers: u32,
    gate: &G,
) -> Result<Option<Breach>, AuditFault>
    requires workers { (1 ≤ workers) × (workers ≤ 64) }
    requires same { trace.now.recording ≡ prepared.now.run }
    ensures least { IfOk result (EarliestOf prepared.now) }
    ensures one_worker { result ≡ Err AuditFault.NoWorker → 2 ≤ workers }
{
    thread::scope(
        thread::scope_env(),
        rt,
        |scope| -> Result<Option<Breach>, AuditFault>
            requires workers { (1 ≤ workers) × (workers ≤ 64) }
            requires same { trace.now.recording ≡ prepared.now.run }
            ensures least { IfOk result (EarliestOf prepared.entry.now) }
            ensures alone { result ≡ Err AuditFault.NoWorker → 2 ≤ workers }
        { run_shares(rt, scope, alloc, trace, prepared, workers, gate) },
    )
}

/// Starts all workers except the first, audits the first share itself, and joins the workers.
fn run_shares<'s, 't: 's, 'g: 's, E, G: Gate + Sync, R: Threads>(
    rt: &R,
    scope: &Scope<'s, E>,
    alloc: Global,
    trace: &'t Trace,
    prepared: &'t PreparedRun,
    workers: u32,
    gate: &'g G,
) -> Result<Option<Breach>, AuditFault>
    requires workers { (1 ≤ workers) × (workers ≤ 64) }
    requires same { trace.now.recording ≡ prepared.now.run }
    ensures least { IfOk result (EarliestOf prepared.entry.now) }
    ensures one_worker { result ≡ Err AuditFault.NoWorker → 2 ≤ workers }
{
    let Ok(mut started) = Vec::with_capacity(alloc, (workers - 1) as usize) else {
        return Err(AuditFault::NoMemory);
    };
    let own = Share {
        prepared,
        from: 0,
        to: prepared.share_end(0, workers),
    };
    if !start_workers(scope, &mut started, alloc, trace, own, workers, gate) {
        // what the started workers found does not matter
        let _ = join_earliest(rt, Ok(None), started);
        return Err(AuditFault::NoWorker);
    }
    let first = own.judge(alloc, trace, 0, gate);
    let least = join_earliest(rt, first, started)?;
    Ok(least)
}

/// Starts the workers from number 1 for the shares after `own`, and returns whether all could be started.
fn start_workers<'s, 't: 's, 'g: 's, E, G: Gate + Sync>(
    scope: &Scope<'s, E>,
    started: &mut Vec<RunningShare<'t>>,
    alloc: Global,
    trace: &'t Trace,
    own: Share<'t>,
    workers: u32,
    gate: &'g G,
) -> bool
    requires workers { (1 ≤ workers) × (workers ≤ 64) }
    requires capacity { (started.old.items ≡ []) × (workers ≤ vec_capacity started.old + 1) }
    requires same { trace.now.recording ≡ own.prepared.now.run }
    requires own { IsFirstShare workers own }
    ensures shares { OnTrue result (FollowsAfter own.entry started.new.items) }
    ensures one_worker { workers ≡ 1 → result ≡ true }
{
    let Share { prepared, .. } = own;
    let mut from = own.to;
    for worker in 1..workers {
        let to = prepared.share_end(from, workers - worker);
        let share = Share { prepared, from, to };
        let work = move || -> ShareResult
            requires same { trace.now.recording ≡ share.prepared.now.run }
            requires inside { (share.from ≤ share.to) ×
                (share.to ≤ length share.prepared.now.positions) }
            ensures { IsResultOf share.entry.prepared.now share.entry.from share.entry.to result }
        { share.judge(alloc, trace, worker, gate) };
        let Ok(handle) = scope.spawn_with(share, work) else {
            return false;
        };
        started.push_reserved(handle);
        from = to;
    }
    true
}

/// Returns the earlier of two results, or an error if either is one.
fn earlier_result(one: ShareResult, other: ShareResult) -> ShareResult
    ensures { IsEarlierOf one other result }
{
    Ok(earlier_breach(one?, other?))
}

/// Joins the workers and returns the earliest of all results.
fn join_earliest<'t, R: Threads>(
    rt: &R,
    first: ShareResult,
    started: Vec<RunningShare<'t>>,
) -> ShareResult
    ensures { (followed : FollowedDeliveries) (to : ℕ) →
        Covers followed first started.entry.items to →
        IsResultOf followed 0 to result }
{
    let mut least = first;
    for handle in started {
        least = earlier_result(least, handle.join(rt));
    }
    least
}
