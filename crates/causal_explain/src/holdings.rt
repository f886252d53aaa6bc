//! Which volatile logs contain a determinant at an instant and since when, and which lost it.
ghost use Rattle.std.specs.Prelude.{◌≡◌, ◌≤◌, ℕ, List, IfOk, Some, length, reverse, slice_get};
ghost use Rattle.causal_name.specs.declared.Det.{Det};
ghost use Rattle.causal_trace.specs.declared.entry.Entry.{Entry};
ghost use Rattle.causal_trace.specs.Limits.{max_entries};
ghost use Rattle.causal_trace.specs.Past.{list_has, instant, logs};
ghost use Rattle.causal_explain.specs.Inside.Losing.{lost_by};
ghost use Rattle.causal_explain.specs.Inside.Validities.{AreValidities, IsChangeOf};
ghost use Rattle.causal_explain.specs.ProcessFacts.{AreHoldings, AreLosses};

use crate::validity::{Change, Validity, apply_change};
use causal_facts::{Holding, Loss, LostBy};
use causal_name::{Det, NoMemory};
use causal_trace::entry::{Dets, Entry};
use causal_trace::trace::Trace;
use std::alloc::Global;

/// The processes whose logs contain a determinant, and those whose logs lost it.
#[derive(Drop)]
pub struct HolderHistory {
    pub holders: Vec<Holding>,
    pub losses: Vec<Loss>,
}

/// Whether a list contains the determinant.
pub(crate) fn lists_det(listed: &Dets, det: Det) -> bool
    ensures { result ≡ list_has listed.now det }
{
    listed.as_slice().contains(&det)
}

/// Returns how an entry changes which logs contain the determinant.
pub(crate) fn holder_change(entry: &Entry, det: Det) -> Change
    ensures { IsChangeOf (λ p past. logs past p det) entry.now result }
{
    match entry {
        Entry::Deliver { to, listed, .. } => {
            if lists_det(listed, det) {
                Change::Begins { process: to.0 }
            } else {
                Change::Nothing
            }
        }
        Entry::Crash { who } => Change::Ends { process: who.0 },
        Entry::Restart { who, listed } => {
            if lists_det(listed, det) {
                Change::Begins { process: who.0 }
            } else {
                Change::Nothing
            }
        }
        Entry::Forget { who, listed } => {
            if lists_det(listed, det) {
                Change::Ends { process: who.0 }
            } else {
                Change::Nothing
            }
        }
        _ => Change::Nothing,
    }
}

/// Returns for each process whether its log contains the determinant after these entries, and since when.
pub(crate) fn holder_validity(entries: &[Entry], det: Det) -> [Validity; 256]
    requires { length entries.now ≤ max_entries }
    ensures { AreValidities (reverse entries.now) (λ p past. logs past p det) result }
{
    let mut standings = [Validity::Never; 256];
    for (i, entry) in entries.iter().enumerate() {
        apply_change(&mut standings, holder_change(entry, det), i as u32);
    }
    standings
}

/// Whether a process's log contains the determinant, by which logs contain it.
pub(crate) fn log_has_det(standings: &[Validity], process: u8) -> bool
    requires { length standings.now ≡ 256 }
    ensures { (past : List Entry) (d : Det)
        → AreValidities past (λ p state. logs state p d) standings.now →
        result ≡ logs past process d }
{
    standings[process as usize].holds_since().is_some()
}

/// Returns the processes whose logs contain it.
fn holdings_in(alloc: Global, standings: &[Validity]) -> Result<Vec<Holding>, NoMemory>
    requires { length standings.now ≤ 256 }
    ensures { IfOk result (λ holdings. (past : List Entry) (d : Det) →
        AreValidities past (λ p state. logs state p d) standings.now →
        AreHoldings (length standings.now) past d holdings.items) }
{
    let mut holdings = Vec::with_capacity(alloc, standings.len())?;
    for (p, standing) in standings.iter().enumerate() {
        if let Some(since) = standing.holds_since() {
            let process = p as u8;
            holdings.push_reserved(Holding { process, since });
        }
    }
    Ok(holdings)
}

/// Returns the kind of an entry by which a log lost the determinant.
fn loss_kind(entry: &Entry) -> LostBy
    ensures { result ≡ lost_by (Some entry.now) }
{
    if matches!(entry, Entry::Crash { .. }) {
        LostBy::Crash
    } else {
        LostBy::Forgetting
    }
}

/// Returns that kind for the entry at a position.
fn lost_by(entries: &[Entry], position: u32) -> LostBy
    ensures { result ≡ lost_by (slice_get entries.now position) }
{
    match entries.get(position as usize) {
        Some(entry) => loss_kind(entry),
        None => LostBy::Forgetting,
    }
}

/// Returns the processes whose logs lack the determinant after these entries, and contained it before.
fn losses_in(
    alloc: Global,
    entries: &[Entry],
    standings: &[Validity],
) -> Result<Vec<Loss>, NoMemory>
    requires { length standings.now ≤ 256 }
    ensures { IfOk result (λ losses. (d : Det) →
        AreValidities (reverse entries.now) (λ p state. logs state p d) standings.now →
        AreLosses (length standings.now) (reverse entries.now) d losses.items) }
{
    let mut losses = Vec::with_capacity(alloc, standings.len())?;
    for (p, standing) in standings.iter().enumerate() {
        if let Some(span) = standing.last_span() {
            losses.push_reserved(Loss {
                process: p as u8,
                since: span.from,
                lost: span.to,
                by: lost_by(entries, span.to),
            });
        }
    }
    Ok(losses)
}

/// Returns the processes whose logs contain a determinant at an instant, and those whose logs contained it only
/// earlier.
pub fn holder_history(
    alloc: Global,
    trace: &Trace,
    end: u32,
    det: Det,
) -> Result<HolderHistory, NoMemory>
    requires { end ≤ length trace.now.recording.past }
    ensures holders { IfOk result (λ held. AreHoldings trace.now.recording.processes
        (instant trace.now.recording.past end) det held.holders.items) }
    ensures losses { IfOk result (λ held. AreLosses trace.now.recording.processes
        (instant trace.now.recording.past end) det held.losses.items) }
{
    let entries = &trace.entries()[..end as usize];
    let transfers = holder_validity(entries, det);
    let standings = &transfers[..trace.processes() as usize];
    let holders = holdings_in(alloc, standings)?;
    let losses = losses_in(alloc, entries, standings)?;
    Ok(HolderHistory { holders, losses })
}
