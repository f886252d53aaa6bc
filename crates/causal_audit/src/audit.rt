//! The audit of a recorded run on the calling thread.
ghost use Rattle.std.specs.Prelude.{◌≡◌, ◌≤◌, IfOk, length};
ghost use Rattle.causal_trace.specs.Limits.{max_entries};
ghost use Rattle.causal_trace.specs.Past.{deliveries_in};
ghost use Rattle.causal_audit.specs.Breaches.{FirstExcess, IsHorizon, EarliestBreachBy};
ghost use Rattle.causal_audit.specs.Searches.{search_scope};
ghost use Rattle.causal_audit.specs.Verdicts.{IsVerdict};

use crate::breach::{Breach, Excess, last_relevant_instant};
use crate::clock_audit::decide_verdict;
use crate::excess::{first_excess_in, last_deciding_instant};
use crate::index_parts::{EffectIndex, PrefixIndex, TransitionIndex};
use crate::indexed_run::IndexedRun;
use crate::prepared_run::{PreparedRun, breach_by_end};
use crate::verdict::Verdict;
use causal_name::NoMemory;
use causal_trace::entry::Entry;
use causal_trace::trace::Trace;
use std::alloc::Global;

/// The maximum number of entries that `index_early` audits first.
const FIRST_ENTRIES: usize = 4_096;

/// The maximum number of determinants that these entries list.
const FIRST_LISTED: usize = 16_384;

/// Returns the earliest breach of a run for f up to the instant `end`: by instant, then by position. `None` if no
/// delivery has an orphan by then.
///
/// # Errors
/// `NoMemory` if allocation fails.
#[tactic(auto, using(crate::proofs::Rules::of_results))]
pub fn earliest_breach(
    alloc: Global,
    trace: &Trace,
    f: u16,
    end: u32,
) -> Result<Option<Breach>, NoMemory>
    requires { end ≤ length trace.now.recording.past }
    ensures { IfOk result
        (EarliestBreachBy trace.now.recording f end 0 (deliveries_in trace.now.recording.past)) }
{
    let indexed = IndexedRun::of(alloc, trace, f, end)?;
    breach_of_indexed(alloc, trace, indexed)
}

/// Returns how many of the first entries, up to the instant `end`, are audited first.
fn early_part_len(entries: &[Entry], end: u32) -> u32
    requires { length entries.now ≤ max_entries }
    ensures { result ≤ end }
{
    let mut listed: usize = 0;
    for (i, entry) in entries.iter().enumerate() {
        listed = listed.saturating_add(entry.mentioned_dets().len());
        if i >= FIRST_ENTRIES || listed > FIRST_LISTED {
            return end.min(i as u32);
        }
    }
    end
}

/// Indexes the early part of a run, given what is indexed of the whole run and its first excess. Returns the index with an
/// instant such that the earliest breach up to it decides the verdict. It is the last instant that can decide, or the
/// instant of an early breach. A breach is early if it comes among the first 4,096 entries, before these list more than
/// 16,384 determinants. So a run that fails early is prepared only up to its breach.
///
/// # Errors
/// `NoMemory` if allocation fails.
pub fn index_early(
    alloc: Global,
    trace: &Trace,
    f: u16,
    excess: &Option<Excess>,
    transitions: TransitionIndex,
    effects: EffectIndex,
) -> Result<(IndexedRun, u32), NoMemory>
    requires transitions { transitions ≡ trace.now.recording }
    requires effects { effects ≡ trace.now.recording }
    requires excess { FirstExcess trace.now.recording f excess.now }
    ensures run { IfOk result (λ early. early.0.run ≡ trace.now.recording) }
    ensures within { IfOk result (λ early. early.1 ≤ length trace.now.recording.past) }
    ensures decides { IfOk result (λ early. IsHorizon trace.now.recording f excess.now early.1) }
{
    let end = last_deciding_instant(trace, excess);
    let first = early_part_len(trace.entries(), end);
    let indexed = index_by(alloc, trace, f, first, transitions, effects)?;
    let early = breach_by_end(alloc, trace, &indexed)?;
    Ok((indexed, last_relevant_instant(end, &early)))
}

/// Indexes a run for f up to the instant `end`, given what is indexed of the whole run.
///
/// # Errors
/// `NoMemory` if allocation fails.
fn index_by(
    alloc: Global,
    trace: &Trace,
    f: u16,
    end: u32,
    transitions: TransitionIndex,
    effects: EffectIndex,
) -> Result<IndexedRun, NoMemory>
    requires transitions { transitions ≡ trace.now.recording }
    requires effects { effects ≡ trace.now.recording }
    requires within { end ≤ length trace.now.recording.past }
    ensures { IfOk result (λ indexed. indexed ≡ search_scope trace.now.recording f end) }
{
    let prefix = PrefixIndex::of(alloc, trace, f, end)?;
    IndexedRun::from_parts(alloc, trace, transitions, effects, prefix)
}

/// Indexes the whole run except for mentions, and its early part as `index_early` does.
///
/// # Errors
/// `NoMemory` if allocation fails.
fn index_first(
    alloc: Global,
    trace: &Trace,
    f: u16,
    excess: &Option<Excess>,
) -> Result<(IndexedRun, u32), NoMemory>
    requires { FirstExcess trace.now.recording f excess.now }
    ensures run { IfOk result (λ early. early.0.run ≡ trace.now.recording) }
    ensures within { IfOk result (λ early. early.1 ≤ length trace.now.recording.past) }
    ensures decides { IfOk result (λ early. IsHorizon trace.now.recording f excess.now early.1) }
{
    let effects = EffectIndex::of(alloc, trace)?;
    let transitions = TransitionIndex::of(alloc, trace)?;
    index_early(alloc, trace, f, excess, transitions, effects)
}

/// Indexes a run for f up to another instant.
///
/// # Errors
/// `NoMemory` if allocation fails.
fn index_again(
    alloc: Global,
    trace: &Trace,
    f: u16,
    end: u32,
    indexed: IndexedRun,
) -> Result<IndexedRun, NoMemory>
    requires run { indexed.run ≡ trace.now.recording }
    requires within { end ≤ length trace.now.recording.past }
    ensures { IfOk result (λ again. again ≡ search_scope trace.now.recording f end) }
{
    let prefix = PrefixIndex::of(alloc, trace, f, end)?;
    indexed.with_prefix(alloc, trace, prefix)
}

/// Returns the earliest breach of an indexed run up to its end, as `earliest_breach` does.
///
/// # Errors
/// `NoMemory` if allocation fails.
#[tactic(auto, using(crate::proofs::Rules::of_results))]
fn breach_of_indexed(
    alloc: Global,
    trace: &Trace,
    indexed: IndexedRun,
) -> Result<Option<Breach>, NoMemory>
    requires { trace.now.recording ≡ indexed.run }
    ensures { IfOk result
        (EarliestBreachBy indexed.run indexed.f indexed.end 0 (deliveries_in indexed.run.past)) }
{
    let prepared = PreparedRun::of_indexed(alloc, trace, indexed)?;
    prepared.earliest_breach(alloc, trace)
}

/// Returns the verdict on a trace for f: every instant is safe, or the first unsafe instant decides. At that instant
/// the first delivery with an orphan decides.
///
/// # Errors
/// `NoMemory` if allocation fails.
pub fn verdict_of(alloc: Global, trace: &Trace, f: u16) -> Result<Verdict, NoMemory>
    ensures { IfOk result (IsVerdict trace.now.recording f) }
{
    let excess = first_excess_in(trace, f);
    let (early, end) = index_first(alloc, trace, f, &excess)?;
    let indexed = index_again(alloc, trace, f, end, early)?;
    let least = breach_of_indexed(alloc, trace, indexed)?;
    Ok(decide_verdict(excess, least))
}
