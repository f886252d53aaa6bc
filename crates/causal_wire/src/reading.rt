//! Reading of whole parcels.
ghost use Rattle.std.specs.Prelude.{◌≡◌, IfOk, Ok};
ghost use Rattle.causal_wire.specs.Parcels.{Contents, IsRun, IsParcel, contents_of, parcel_value};
ghost use Rattle.causal_wire.specs.Bytes.{parcel_bytes};
ghost use Rattle.causal_wire.specs.Reading.{ReturnsRead, read_contents, read_parcel};
ghost use Rattle.causal_wire.specs.declared.parcel.Head.{Head};

use crate::fault::{ParcelFault, WireFault};
use crate::fields::{ParcelKind, read_body, read_head, read_u32, read_u64};
use crate::lists::{read_entries, read_items, read_view};
use crate::parcel::{Content, Parcel, RunId};
use causal_name::Pid;
use std::alloc::Global;

/// Returns the contents of a parcel of this kind, from this source.
#[tactic(auto, unfolding(crate::specs::Reading::read_contents))]
fn read_contents(
    alloc: Global,
    n: u16,
    source: Pid,
    kind: ParcelKind,
    bytes: &[u8],
) -> Result<(Content, &[u8]), ParcelFault>
    ensures { ReturnsRead (λ x. (contents_of x.0, x.1.now)) result
        (read_contents n source.0 kind bytes.now) }
{
    match kind {
        ParcelKind::Message => {
            let (ssn, rest) = read_u32(bytes)?;
            let (items, rest) = read_items(alloc, n, source, rest)?;
            let (body, rest) = read_body(alloc, rest)?;
            Ok((Content::Message { ssn, items, body }, rest))
        }
        ParcelKind::Acknowledgement => {
            let (items, rest) = read_items(alloc, n, source, bytes)?;
            Ok((Content::Acknowledgement { items }, rest))
        }
        ParcelKind::Question => {
            let (round, rest) = read_u64(bytes)?;
            let (view, rest) = read_view(alloc, n, rest)?;
            Ok((Content::Question { round, view }, rest))
        }
        ParcelKind::Answer => {
            let (round, rest) = read_u64(bytes)?;
            let (entries, rest) = read_entries(alloc, n, source, rest)?;
            Ok((Content::Answer { round, entries }, rest))
        }
        ParcelKind::OwnNumber => {
            let (round, rest) = read_u64(bytes)?;
            Ok((Content::OwnNumber { round }, rest))
        }
        ParcelKind::NotUp => {
            let (round, rest) = read_u64(bytes)?;
            Ok((Content::NotUp { round }, rest))
        }
    }
}

#[tactic(auto, unfolding(crate::specs::Reading::read_parcel))]
fn read_parcel(alloc: Global, run: RunId, bytes: &[u8]) -> Result<Parcel, ParcelFault>
    ensures { ReturnsRead (λ p. parcel_value p) result (read_parcel run bytes.now) }
{
    let (kind, head, rest) = read_head(run, bytes)?;
    let (content, rest) = read_contents(alloc, run.processes, head.source, kind, rest)?;
    if !rest.is_empty() {
        return Err(ParcelFault::Wire(WireFault::Trailing));
    }
    Ok(Parcel { head, content })
}

/// Returns the parcel whose bytes, in a run, are exactly these.
///
/// The bytes are read once, from the first to the last; a list takes memory as its elements are read. So time and
/// memory are O(bytes), whatever the bytes contain.
///
/// # Errors
///
/// `Wire` with the first error from left to right; `NoMemory`.
pub fn read(alloc: Global, run: RunId, bytes: &[u8]) -> Result<Parcel, ParcelFault>
    // What is read is a parcel of the run, and has these bytes and no others.
    ensures canonical { IfOk result (λ p.
        IsParcel run (parcel_value p) × (bytes.now ≡ parcel_bytes run (parcel_value p))) }
    // What is written is read back.
    ensures written { (parcel : Head × Contents) → IsRun run → IsParcel run parcel →
        bytes.now ≡ parcel_bytes run parcel → ReturnsRead (λ p. parcel_value p) result (Ok parcel) }
    // Which error is returned.
    ensures exact { ReturnsRead (λ p. parcel_value p) result (read_parcel run bytes.now) }
{
    read_parcel(alloc, run, bytes)
}
