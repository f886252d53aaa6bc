//! A trace is prepared by several workers, who share its indexing and the search for the deliveries that must be followed.
ghost use Rattle.std.specs.Prelude.{◌≡◌, ◌≤◌, ℕ, IfOk, IfSome, length};
ghost use Rattle.causal_audit.specs.Breaches.{FirstExcess, IsHorizon};
ghost use Rattle.causal_audit.specs.Parts.{AreSufficient};
ghost use Rattle.causal_audit.specs.Searches.{IsSearched, IsWholeIndex, delivery_count, search_scope};

use causal_audit::{
    EffectIndex, Excess, IndexedRun, OpenDeliveries, PrefixIndex, PreparedRun, TransitionIndex,
    first_excess_in, index_early,
};
use causal_name::NoMemory;
use causal_trace::trace::Trace;
use std::alloc::Global;
use std::thread::{Threads, join};

/// The least number of deliveries that a worker searches, so that a short run starts no thread for it.
const LEAST: u32 = 2_048;

/// The least number of entries of a run that several workers index.
const LEAST_INDEXED: u32 = 16_384;

/// Prepares a trace for f up to an instant such that the earliest breach up to it decides the verdict, by 1 to 64
/// workers, and returns it with the first excess. If a thread cannot start, the calling thread does its part. The result
/// is the same for every number of workers.
///
/// # Errors
/// `NoMemory` if allocation fails.
pub(crate) fn prepare_by<R: Threads>(
    rt: &R,
    alloc: Global,
    trace: &Trace,
    f: u16,
    workers: u32,
) -> Result<(PreparedRun, Option<Excess>), NoMemory>
    ensures run { IfOk result (λ ready. ready.0.run ≡ trace.now.recording) }
    ensures excess { IfOk result (λ ready. FirstExcess trace.now.recording f ready.1) }
    ensures sufficient { IfOk result (λ ready. (end : ℕ) × IsHorizon trace.now.recording f ready.1 end
        × AreSufficient trace.now.recording f end ready.0) }
{
    let ((excess, whole), (effects, transitions)) = index_whole_by(rt, alloc, trace, f, workers);
    let indexed = index_deciding(alloc, trace, f, &excess, whole, effects, transitions)?;
    let prepared = prepare_indexed_by(rt, alloc, trace, indexed, workers)?;
    Ok((prepared, excess))
}

/// Indexes the run up to an instant such that the earliest breach up to it decides the verdict, given what is indexed of
/// the whole run and its first excess.
///
/// # Errors
/// `NoMemory` if allocation fails, or failed in an index.
fn index_deciding(
    alloc: Global,
    trace: &Trace,
    f: u16,
    excess: &Option<Excess>,
    whole: Option<PrefixIndex>,
    effects: Result<EffectIndex, NoMemory>,
    transitions: Result<TransitionIndex, NoMemory>,
) -> Result<IndexedRun, NoMemory>
    requires excess { FirstExcess trace.now.recording f excess.now }
    requires whole { IfSome whole (IsWholeIndex trace.now.recording f) }
    requires effects { IfOk effects (λ effects. effects ≡ trace.now.recording) }
    requires transitions { IfOk transitions (λ transitions. transitions ≡ trace.now.recording) }
    ensures { IfOk result (λ indexed. (end : ℕ) × IsHorizon trace.now.recording f excess.now end
        × (indexed ≡ search_scope trace.now.recording f end)) }
{
    let (early, end) = index_first(alloc, trace, f, excess, effects, transitions)?;
    index_again(alloc, trace, f, end, early, whole)
}

/// Indexes the early part of a run as `index_early` does, if the run could be indexed.
///
/// # Errors
/// `NoMemory` if allocation fails, or failed in an index.
fn index_first(
    alloc: Global,
    trace: &Trace,
    f: u16,
    excess: &Option<Excess>,
    effects: Result<EffectIndex, NoMemory>,
    transitions: Result<TransitionIndex, NoMemory>,
) -> Result<(IndexedRun, u32), NoMemory>
    requires excess { FirstExcess trace.now.recording f excess.now }
    requires effects { IfOk effects (λ effects. effects ≡ trace.now.recording) }
    requires transitions { IfOk transitions (λ transitions. transitions ≡ trace.now.recording) }
    ensures run { IfOk result (λ early. early.0.run ≡ trace.now.recording) }
    ensures within { IfOk result (λ early. early.1 ≤ length trace.now.recording.past) }
    ensures decides { IfOk result (λ early. IsHorizon trace.now.recording f excess.now early.1) }
{
    let effects = effects?;
    let transitions = transitions?;
    index_early(alloc, trace, f, excess, transitions, effects)
}

/// Indexes an indexed run up to another instant.
///
/// # Errors
/// `NoMemory` if allocation fails.
fn index_again(
    alloc: Global,
    trace: &Trace,
    f: u16,
    end: u32,
    early: IndexedRun,
    whole: Option<PrefixIndex>,
) -> Result<IndexedRun, NoMemory>
    requires run { early.run ≡ trace.now.recording }
    requires within { end ≤ length trace.now.recording.past }
    requires whole { IfSome whole (IsWholeIndex trace.now.recording f) }
    ensures { IfOk result (λ indexed. indexed ≡ search_scope trace.now.recording f end) }
{
    let prefix = prefix_index(alloc, trace, f, end, whole)?;
    early.with_prefix(alloc, trace, prefix)
}

/// Prepares an indexed run by a search over all its deliveries, which the workers share.
///
/// # Errors
/// `NoMemory` if allocation fails.
fn prepare_indexed_by<R: Threads>(
    rt: &R,
    alloc: Global,
    trace: &Trace,
    indexed: IndexedRun,
    workers: u32,
) -> Result<PreparedRun, NoMemory>
    requires { trace.now.recording ≡ indexed.run }
    ensures run { IfOk result (λ prepared. prepared.run ≡ indexed.run) }
    ensures sufficient { IfOk result (AreSufficient indexed.run indexed.f indexed.end) }
{
    let found = search_by(rt, alloc, trace, &indexed, 0, indexed.deliveries(), workers)?;
    PreparedRun::from_search(indexed, found)
}

/// Indexes the whole run, and finds its first excess. If the run is long, several workers do so, each by a pass over all
/// entries, and one of them already indexes all determinants, which mostly are needed.
fn index_whole_by<R: Threads>(
    rt: &R,
    alloc: Global,
    trace: &Trace,
    f: u16,
    workers: u32,
) -> (
    (Option<Excess>, Option<PrefixIndex>),
    (
        Result<EffectIndex, NoMemory>,
        Result<TransitionIndex, NoMemory>,
    ),
)
    ensures excess { FirstExcess trace.now.recording f result.0.0 }
    ensures whole { IfSome result.0.1 (IsWholeIndex trace.now.recording f) }
    ensures effects { IfOk result.1.0 (λ effects. effects ≡ trace.now.recording) }
    ensures transitions { IfOk result.1.1 (λ transitions. transitions ≡ trace.now.recording) }
{
    if workers < 2 || trace.len() < LEAST_INDEXED {
        return (
            (first_excess_in(trace, f), None),
            index_run_by(rt, alloc, trace, 1),
        );
    }
    let others = workers - 1;
    let index_ahead = move || -> (Option<Excess>, Option<PrefixIndex>)
        ensures excess { FirstExcess trace.entry.now.recording f result.0 }
        ensures whole { IfSome result.1 (IsWholeIndex trace.entry.now.recording f) }
    { index_ahead(alloc, trace, f) };
    let index_run = move || -> (
        Result<EffectIndex, NoMemory>,
        Result<TransitionIndex, NoMemory>,
    )
        ensures effects { IfOk result.0 (λ effects. effects ≡ trace.entry.now.recording) }
        ensures transitions { IfOk result.1 (λ transitions. transitions ≡ trace.entry.now.recording) }
    { index_run_by(rt, alloc, trace, others) };
    join(rt, index_ahead, index_run)
}

/// Indexes the effects of the events of a run, and its crashes and restarts; with several workers at the same time.
fn index_run_by<R: Threads>(
    rt: &R,
    alloc: Global,
    trace: &Trace,
    workers: u32,
) -> (
    Result<EffectIndex, NoMemory>,
    Result<TransitionIndex, NoMemory>,
)
    ensures effects { IfOk result.0 (λ effects. effects ≡ trace.now.recording) }
    ensures transitions { IfOk result.1 (λ transitions. transitions ≡ trace.now.recording) }
{
    if workers < 2 {
        return (
            EffectIndex::of(alloc, trace),
            TransitionIndex::of(alloc, trace),
        );
    }
    let index_effects = move || -> Result<EffectIndex, NoMemory>
        ensures { IfOk result (λ effects. effects ≡ trace.entry.now.recording) }
    { EffectIndex::of(alloc, trace) };
    let index_transitions = move || -> Result<TransitionIndex, NoMemory>
        ensures { IfOk result (λ transitions. transitions ≡ trace.entry.now.recording) }
    { TransitionIndex::of(alloc, trace) };
    join(rt, index_effects, index_transitions)
}

/// Finds the first excess, and indexes the determinants of the whole run, if it has none; without memory it does not.
fn index_ahead(alloc: Global, trace: &Trace, f: u16) -> (Option<Excess>, Option<PrefixIndex>)
    ensures excess { FirstExcess trace.now.recording f result.0 }
    ensures whole { IfSome result.1 (IsWholeIndex trace.now.recording f) }
{
    let excess = first_excess_in(trace, f);
    if excess.is_some() {
        return (excess, None);
    }
    let whole = PrefixIndex::of(alloc, trace, f, trace.len());
    (excess, whole.ok())
}

/// Returns the index of the determinants before the instant `end`: that of the whole run, if it is there and `end` is its
/// last instant.
///
/// # Errors
/// `NoMemory` if allocation fails.
fn prefix_index(
    alloc: Global,
    trace: &Trace,
    f: u16,
    end: u32,
    whole: Option<PrefixIndex>,
) -> Result<PrefixIndex, NoMemory>
    requires within { end ≤ length trace.now.recording.past }
    requires whole { IfSome whole (IsWholeIndex trace.now.recording f) }
    ensures { IfOk result (λ index. index ≡ search_scope trace.now.recording f end) }
{
    if let Some(index) = whole {
        if end == trace.len() {
            return Ok(index);
        }
    }
    PrefixIndex::of(alloc, trace, f, end)
}

/// Searches the part from number `from` to below number `to`: the last deliveries by a thread of its own, those before
/// in the same way, the first by the calling thread.
#[cycle(searches)]
fn search_by<R: Threads>(
    rt: &R,
    alloc: Global,
    trace: &Trace,
    indexed: &IndexedRun,
    from: u32,
    to: u32,
    workers: u32,
) -> Result<OpenDeliveries, NoMemory>
    requires same { trace.now.recording ≡ indexed.now.run }
    requires within { to ≤ delivery_count indexed.now }
    ensures { IfOk result (IsSearched indexed.now from to) }
{
    let many = to.saturating_sub(from);
    if workers < 2 || many / workers < LEAST {
        return indexed.open_deliveries(alloc, trace, from, to);
    }
    let mid = indexed.last_share(from, to, workers);
    let search_last = move || -> Result<OpenDeliveries, NoMemory>
        requires same { trace.now.recording ≡ indexed.now.run }
        requires within { to ≤ delivery_count indexed.now }
        ensures { IfOk result (IsSearched indexed.entry.now mid to) }
    { indexed.open_deliveries(alloc, trace, mid, to) };
    let search_first = move || -> Result<OpenDeliveries, NoMemory>
        requires same { trace.now.recording ≡ indexed.now.run }
        requires within { mid ≤ delivery_count indexed.now }
        requires many { 2 ≤ workers }
        ensures { IfOk result (IsSearched indexed.entry.now from mid) }
    { search_by(rt, alloc, trace, indexed, from, mid, workers - 1) };
    let (last, first) = join(rt, search_last, search_first);
    let last = last?;
    let first = first?;
    let found = last.append(first)?;
    Ok(found)
}
