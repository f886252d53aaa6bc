//! Items and log entries, in a log and in a parcel.
#![tactic(auto, using(crate::proofs::Written::same_dets))]

ghost use Rattle.std.specs.Prelude.{◌≡◌, ◌<◌, true, map, slice_get, Some, IfOk};
ghost use Rattle.std.specs.Option.{option_map};
ghost use Rattle.std.specs.FinMap as fin;
ghost use Rattle.std.specs.FinSet as set;
ghost use Rattle.causal_name.specs.Names.{is_ascending};
ghost use Rattle.causal_wire.specs.Parcels.{parcel_dets};
ghost use Rattle.causal_endpoint.specs.Items.{wire_item, log_item, wire_entry, log_entry, log_from};

use causal_holders::Holders;
use causal_log::{Batch, Item as LogItem, Known, Log};
use causal_name::{Det, NoMemory, Pid};
use causal_wire::{LogEntry, ParcelItem as WireItem};
use std::alloc::Global;

/// Returns the holders besides one.
pub(crate) fn without(holders: Holders, source: Pid) -> Holders
    ensures { result ≡ set.remove holders source.0 }
{
    let mut others = holders;
    others.remove(source.0);
    others
}

/// Returns the holders with one more.
fn with(others: Holders, source: Pid) -> Holders
    ensures { result ≡ set.insert others source.0 }
{
    let mut holders = others;
    holders.insert(source.0);
    holders
}

/// Returns the items of a batch, as a parcel from this process has them.
pub(crate) fn wire_items(
    alloc: Global,
    source: Pid,
    items: &[LogItem],
) -> Result<Vec<WireItem>, NoMemory>
    ensures { IfOk result (λ written. written.items ≡ map (wire_item source) items.now) }
{
    let written = items.iter().map(|item| WireItem {
        det: item.det,
        others: without(item.holders, source),
    });
    Ok(written.collect(alloc)?)
}

/// Returns the items of a parcel from this process, as a batch has them.
fn log_items(alloc: Global, source: Pid, items: &[WireItem]) -> Result<Vec<LogItem>, NoMemory>
    ensures { IfOk result (λ carried. carried.items ≡ map (log_item source) items.now) }
{
    let carried = items.iter().map(|item| LogItem {
        det: item.det,
        holders: with(item.others, source),
    });
    Ok(carried.collect(alloc)?)
}

/// Returns the batch of the items of a parcel from this process.
pub(crate) fn batch_of_items(
    alloc: Global,
    source: Pid,
    items: &[WireItem],
) -> Result<Batch, NoMemory>
    requires { is_ascending (parcel_dets items.now) ≡ true }
    ensures { IfOk result (λ batch. batch ≡ map (log_item source) items.now) }
{
    let carried = log_items(alloc, source, items)?;
    Batch::new(alloc, carried)
}

/// Returns the entries of a log, as a parcel from this process has them. Takes O(n log n) time for n entries.
pub(crate) fn wire_entries(alloc: Global, source: Pid, log: &Log) -> Result<Vec<LogEntry>, NoMemory>
    ensures { IfOk result (λ written.
        written.items ≡ map (wire_entry source) (fin.entries log.now.map)) }
{
    let mut sorted = log.try_clone()?;
    sorted.sort()?;
    sorted_entries(alloc, source, &sorted)
}

/// Returns the entry at an index, as a parcel from this process has it.
fn entry_at(source: Pid, log: &Log, i: u32) -> LogEntry
    requires { i < fin.len log.now.map }
    ensures { Some result
        ≡ option_map (wire_entry source) (slice_get (fin.entries log.now.map) i) }
{
    let Some((det, known)) = log.at(i) else {
        unreachable!()
    };
    let item = WireItem {
        det,
        others: without(known.holders, source),
    };
    LogEntry {
        item,
        stable: known.stable,
    }
}

/// Returns the entries of a log that is sorted; of another they take O(n²) time.
fn sorted_entries(alloc: Global, source: Pid, sorted: &Log) -> Result<Vec<LogEntry>, NoMemory>
    ensures { IfOk result (λ written.
        written.items ≡ map (wire_entry source) (fin.entries sorted.now.map)) }
{
    let mut written = Vec::new(alloc);
    for i in 0..sorted.len() {
        written.push(entry_at(source, sorted, i))?;
    }
    Ok(written)
}

/// Returns what the entries of a parcel from this process say of each determinant.
fn log_entries(
    alloc: Global,
    source: Pid,
    entries: &[LogEntry],
) -> Result<Vec<(Det, Known)>, NoMemory>
    ensures { IfOk result (λ learned. learned.items ≡ map (log_entry source) entries.now) }
{
    let learned = entries.iter().map(|entry| {
        let known = Known {
            holders: with(entry.item.others, source),
            stable: entry.stable,
        };
        (entry.item.det, known)
    });
    Ok(learned.collect(alloc)?)
}

/// Adds the entries of a parcel from this process to an empty log, and returns it.
pub(crate) fn log_from(
    alloc: Global,
    empty: Log,
    source: Pid,
    entries: &[LogEntry],
) -> Result<Log, NoMemory>
    requires { empty.map ≡ fin.empty }
    ensures { IfOk result (λ log. log.map ≡ log_from source entries.now) }
{
    let learned = log_entries(alloc, source, entries)?;
    let mut log = empty;
    log.learn_all(learned.as_slice())?;
    Ok(log)
}
