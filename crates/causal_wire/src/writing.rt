//! Writing of parcels.
ghost use Rattle.std.specs.Prelude.{◌≡◌, ◌<◌, ◌^◌, ◌++◌, false, length, OnOk, IfOk};
ghost use Rattle.std.specs.Int.{w16, w32, w64};
ghost use Rattle.std.specs.FinSet as set;
ghost use Rattle.causal_wire.specs.Parcels.{IsWritable, AreWithoutSource, AreEntriesWithoutSource, message, contents_of, parcel_value};
ghost use Rattle.causal_wire.specs.Bytes.{number_bytes, run_bytes, head_bytes, det_bytes, others_bytes, item_bytes, entry_bytes, list_bytes, body_bytes, view_bytes, kind_byte, contents_bytes, parcel_bytes};

use crate::fields::VERSION;
use crate::parcel::{Content, Head, LogEntry, Parcel, ParcelItem, RunId};
use causal_holders::{Holders, laws};
use causal_name::{Det, NoMemory, Pid};
use std::alloc::Global;

#[tactic(auto, unfolding(crate::specs::Bytes::number_bytes))]
fn put_u16(out: &mut Vec<u8>, number: u16) -> Result<(), NoMemory>
    ensures { OnOk result (out.new.items ≡ out.old.items ++ number_bytes w16 number) }
{
    out.extend_from_slice(&number.to_be_bytes())?;
    Ok(())
}

#[tactic(auto, unfolding(crate::specs::Bytes::number_bytes))]
fn put_u32(out: &mut Vec<u8>, number: u32) -> Result<(), NoMemory>
    ensures { OnOk result (out.new.items ≡ out.old.items ++ number_bytes w32 number) }
{
    out.extend_from_slice(&number.to_be_bytes())?;
    Ok(())
}

#[tactic(auto, unfolding(crate::specs::Bytes::number_bytes))]
fn put_u64(out: &mut Vec<u8>, number: u64) -> Result<(), NoMemory>
    ensures { OnOk result (out.new.items ≡ out.old.items ++ number_bytes w64 number) }
{
    out.extend_from_slice(&number.to_be_bytes())?;
    Ok(())
}

fn put_run(out: &mut Vec<u8>, run: RunId) -> Result<(), NoMemory>
    ensures { OnOk result (out.new.items ≡ out.old.items ++ run_bytes run) }
{
    put_u64(out, run.id)?;
    put_u16(out, run.processes)?;
    put_u16(out, run.f)?;
    Ok(())
}

fn put_head(out: &mut Vec<u8>, run: RunId, kind: u8, head: Head) -> Result<(), NoMemory>
    ensures { OnOk result (out.new.items ≡ out.old.items ++ head_bytes run kind head) }
{
    out.extend_from_slice(&[VERSION, kind])?;
    put_run(out, run)?;
    out.extend_from_slice(&[head.source.0, head.dest.0])?;
    put_u32(out, head.lane)?;
    put_u64(out, head.clock)?;
    Ok(())
}

fn put_det(out: &mut Vec<u8>, det: Det) -> Result<(), NoMemory>
    ensures { OnOk result (out.new.items ≡ out.old.items ++ det_bytes det) }
{
    out.push(det.source.0)?;
    put_u32(out, det.ssn)?;
    out.push(det.dest.0)?;
    put_u32(out, det.rsn)?;
    Ok(())
}

/// Writes holders, which the source is not among, so there are at most 255.
fn put_others(out: &mut Vec<u8>, source: u8, others: Holders) -> Result<(), NoMemory>
    requires { set.contains others source ≡ false }
    ensures { OnOk result (out.new.items ≡ out.old.items ++ others_bytes others) }
{
    laws::ascending_law();
    out.push(others.len() as u8)?;
    for other in others.iter() {
        out.push(other)?;
    }
    Ok(())
}

fn put_item(out: &mut Vec<u8>, source: Pid, item: ParcelItem) -> Result<(), NoMemory>
    requires { set.contains item.others source.0 ≡ false }
    ensures { OnOk result (out.new.items ≡ out.old.items ++ item_bytes item) }
{
    put_det(out, item.det)?;
    put_others(out, source.0, item.others)
}

fn put_items(out: &mut Vec<u8>, source: Pid, items: &[ParcelItem]) -> Result<(), NoMemory>
    requires count { length items.now < 2 ^ 32 }
    requires others { AreWithoutSource source.0 items.now }
    ensures { OnOk result (out.new.items ≡ out.old.items ++ list_bytes item_bytes items.now) }
{
    put_u32(out, items.len() as u32)?;
    for item in items {
        put_item(out, source, *item)?;
    }
    Ok(())
}

fn put_entry(out: &mut Vec<u8>, source: Pid, entry: LogEntry) -> Result<(), NoMemory>
    requires { set.contains entry.item.others source.0 ≡ false }
    ensures { OnOk result (out.new.items ≡ out.old.items ++ entry_bytes entry) }
{
    put_item(out, source, entry.item)?;
    out.push(u8::from(entry.stable))?;
    Ok(())
}

fn put_entries(out: &mut Vec<u8>, source: Pid, entries: &[LogEntry]) -> Result<(), NoMemory>
    requires count { length entries.now < 2 ^ 32 }
    requires others { AreEntriesWithoutSource source.0 entries.now }
    ensures { OnOk result
        (out.new.items ≡ out.old.items ++ list_bytes entry_bytes entries.now) }
{
    put_u32(out, entries.len() as u32)?;
    for entry in entries {
        put_entry(out, source, *entry)?;
    }
    Ok(())
}

fn put_view(out: &mut Vec<u8>, view: &[u32]) -> Result<(), NoMemory>
    ensures { OnOk result (out.new.items ≡ out.old.items ++ view_bytes view.now) }
{
    for number in view {
        put_u32(out, *number)?;
    }
    Ok(())
}

fn put_body(out: &mut Vec<u8>, body: &[u8]) -> Result<(), NoMemory>
    requires { length body.now < 2 ^ 32 }
    ensures { OnOk result (out.new.items ≡ out.old.items ++ body_bytes body.now) }
{
    put_u32(out, body.len() as u32)?;
    out.extend_from_slice(body)?;
    Ok(())
}

fn kind_byte(content: &Content) -> u8
    ensures { result ≡ kind_byte (contents_of content.now) }
{
    match content {
        Content::Message { .. } => 0,
        Content::Acknowledgement { .. } => 1,
        Content::Question { .. } => 2,
        Content::Answer { .. } => 3,
        Content::OwnNumber { .. } => 4,
        Content::NotUp { .. } => 5,
    }
}

fn put_message(
    out: &mut Vec<u8>,
    source: Pid,
    ssn: u32,
    items: &[ParcelItem],
    body: &[u8],
) -> Result<(), NoMemory>
    requires { IsWritable source.0 (message ssn items.now body.now) }
    ensures { OnOk result
        (out.new.items ≡ out.old.items ++ contents_bytes (message ssn items.now body.now)) }
{
    put_u32(out, ssn)?;
    put_items(out, source, items)?;
    put_body(out, body)
}

fn put_contents(out: &mut Vec<u8>, source: Pid, content: &Content) -> Result<(), NoMemory>
    requires { IsWritable source.0 (contents_of content.now) }
    ensures { OnOk result
        (out.new.items ≡ out.old.items ++ contents_bytes (contents_of content.now)) }
{
    match content {
        Content::Message { ssn, items, body } => put_message(out, source, *ssn, items, body),
        Content::Acknowledgement { items } => put_items(out, source, items),
        Content::Question { round, view } => {
            put_u64(out, *round)?;
            put_view(out, view)
        }
        Content::Answer { round, entries } => {
            put_u64(out, *round)?;
            put_entries(out, source, entries)
        }
        Content::OwnNumber { round } => put_u64(out, *round),
        Content::NotUp { round } => put_u64(out, *round),
    }
}

/// The number of bytes of a head.
const HEAD: usize = 28;

/// Returns about as many bytes as a message has, so that writing one seldom moves it.
fn message_capacity(items: usize, body: usize) -> usize {
    items
        .saturating_mul(12)
        .saturating_add(body)
        .saturating_add(HEAD + 12)
}

/// Returns the bytes of a message, as [`write`] does, of items and a body that are kept elsewhere.
///
/// There are fewer than 2^32 items and bytes of the body, and no item has the source among its other holders; the
/// caller guarantees this. O(bytes) time.
///
/// # Errors
///
/// `NoMemory`.
pub fn write_message(
    alloc: Global,
    run: RunId,
    head: Head,
    ssn: u32,
    items: &[ParcelItem],
    body: &[u8],
) -> Result<Vec<u8>, NoMemory>
    requires { IsWritable head.source.0 (message ssn items.now body.now) }
    ensures { IfOk result
        (λ bytes. bytes.items ≡ parcel_bytes run (head, message ssn items.now body.now)) }
{
    let mut out = Vec::with_capacity(alloc, message_capacity(items.len(), body.len()))?;
    put_head(&mut out, run, 0, head)?;
    put_message(&mut out, head.source, ssn, items, body)?;
    Ok(out)
}

fn capacity(content: &Content) -> usize {
    match content {
        Content::Message { items, body, .. } => message_capacity(items.len(), body.len()),
        Content::Acknowledgement { items } => message_capacity(items.len(), 0),
        Content::Answer { entries, .. } => message_capacity(entries.len(), entries.len()),
        Content::Question { view, .. } => view.len().saturating_mul(4).saturating_add(HEAD + 8),
        Content::OwnNumber { .. } => HEAD + 8,
        Content::NotUp { .. } => HEAD + 8,
    }
}

/// Returns the bytes of a parcel of a run. [`read`](crate::read) returns the parcel again, if its numbers are those of
/// the run (`IsParcel`).
///
/// A list or a body has fewer than 2^32 elements, and no item has the source among its other holders; the caller
/// guarantees this. O(bytes) time.
///
/// # Errors
///
/// `NoMemory`.
pub fn write(alloc: Global, run: RunId, parcel: &Parcel) -> Result<Vec<u8>, NoMemory>
    requires { IsWritable parcel.now.head.source.0 (contents_of parcel.now.content) }
    ensures { IfOk result (λ bytes. bytes.items ≡ parcel_bytes run (parcel_value parcel.now)) }
{
    let mut out = Vec::with_capacity(alloc, capacity(&parcel.content))?;
    put_head(&mut out, run, kind_byte(&parcel.content), parcel.head)?;
    put_contents(&mut out, parcel.head.source, &parcel.content)?;
    Ok(out)
}
