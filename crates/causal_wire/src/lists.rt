//! Reading of holders, items and lists.
ghost use Rattle.std.specs.Prelude.{◌≡◌};
ghost use Rattle.causal_wire.specs.Reading.{ReturnsRead, others_of, read_item, read_entry, read_items, read_entries, read_view, follows};

use crate::fault::{ParcelFault, WireFault};
use crate::fields::{read_det, read_flag, read_short_list, read_u32};
use crate::parcel::{LogEntry, ParcelItem};
use causal_holders::Holders;
use causal_name::{Det, Pid};
use std::alloc::Global;

/// Returns the set of the listed holders.
#[tactic(auto, unfolding(crate::specs::Reading::others_of))]
fn others_of(n: u16, source: Pid, listed: &[u8]) -> Result<Holders, ParcelFault>
    ensures { ReturnsRead (λ x. x) result (others_of n source.0 listed.now) }
{
    let mut others = Holders::none();
    let mut least: u16 = 0;
    for number in listed {
        let number = *number;
        if n <= u16::from(number) {
            return Err(ParcelFault::Wire(WireFault::Process));
        }
        if u16::from(number) < least || number == source.0 {
            return Err(ParcelFault::Wire(WireFault::Holder));
        }
        others.insert(number);
        least = u16::from(number) + 1;
    }
    Ok(others)
}

fn follows(last: Option<Det>, det: Det) -> bool
    ensures { result ≡ follows last det }
{
    match last {
        Some(last) => last.comes_before(&det),
        None => true,
    }
}

/// Returns an item, whose determinant follows the one before it. Its callers match on the result, since the prover has no
/// rule for `?` on a pair of holders and a slice.
#[tactic(auto, unfolding(crate::specs::Reading::read_item, crate::specs::Reading::read_det_and_listed, crate::specs::Reading::parcel_item))]
fn read_item(
    n: u16,
    source: Pid,
    last: Option<Det>,
    bytes: &[u8],
) -> Result<(ParcelItem, &[u8]), ParcelFault>
    ensures { ReturnsRead (λ x. (x.0, x.1.now)) result (read_item n source.0 last bytes.now) }
{
    let (det, rest) = read_det(n, bytes)?;
    let (listed, rest) = read_short_list(rest)?;
    if !follows(last, det) {
        return Err(ParcelFault::Wire(WireFault::Unsorted));
    }
    let others = others_of(n, source, listed)?;
    Ok((ParcelItem { det, others }, rest))
}

/// Returns a log entry, whose determinant follows the one before it.
#[tactic(auto, unfolding(crate::specs::Reading::read_entry))]
fn read_entry(
    n: u16,
    source: Pid,
    last: Option<Det>,
    bytes: &[u8],
) -> Result<(LogEntry, &[u8]), ParcelFault>
    ensures { ReturnsRead (λ x. (x.0, x.1.now)) result (read_entry n source.0 last bytes.now) }
{
    let (item, rest) = match read_item(n, source, last, bytes) {
        Ok(read) => read,
        Err(fault) => return Err(fault),
    };
    let (stable, rest) = read_flag(rest)?;
    Ok((LogEntry { item, stable }, rest))
}

/// Returns a list of items. Memory is allocated as they are read, whatever the count.
#[tactic(auto, unfolding(crate::specs::Reading::read_items))]
pub(crate) fn read_items(
    alloc: Global,
    n: u16,
    source: Pid,
    bytes: &[u8],
) -> Result<(Vec<ParcelItem>, &[u8]), ParcelFault>
    ensures { ReturnsRead (λ x. (x.0.items, x.1.now)) result (read_items n source.0 bytes.now) }
{
    let (count, mut rest) = read_u32(bytes)?;
    let mut items = Vec::new(alloc);
    let mut last = None;
    for _ in 0..count {
        let (item, after) = match read_item(n, source, last, rest) {
            Ok(read) => read,
            Err(fault) => return Err(fault),
        };
        last = Some(item.det);
        items.push(item)?;
        rest = after;
    }
    Ok((items, rest))
}

/// Returns a list of log entries. Memory is allocated as they are read, whatever the count.
#[tactic(auto, unfolding(crate::specs::Reading::read_entries))]
pub(crate) fn read_entries(
    alloc: Global,
    n: u16,
    source: Pid,
    bytes: &[u8],
) -> Result<(Vec<LogEntry>, &[u8]), ParcelFault>
    ensures { ReturnsRead (λ x. (x.0.items, x.1.now)) result (read_entries n source.0 bytes.now) }
{
    let (count, mut rest) = read_u32(bytes)?;
    let mut entries = Vec::new(alloc);
    let mut last = None;
    for _ in 0..count {
        let (entry, after) = match read_entry(n, source, last, rest) {
            Ok(read) => read,
            Err(fault) => return Err(fault),
        };
        last = Some(entry.item.det);
        entries.push(entry)?;
        rest = after;
    }
    Ok((entries, rest))
}

/// Returns the numbers of n processes.
pub(crate) fn read_view(
    alloc: Global,
    n: u16,
    bytes: &[u8],
) -> Result<(Vec<u32>, &[u8]), ParcelFault>
    ensures { ReturnsRead (λ x. (x.0.items, x.1.now)) result (read_view n bytes.now) }
{
    let mut view = Vec::new(alloc);
    let mut rest = bytes;
    for _ in 0..n {
        let (number, after) = read_u32(rest)?;
        view.push(number)?;
        rest = after;
    }
    Ok((view, rest))
}
