//! Reading of single fields from the front of a slice. Each function returns the value and the bytes after it.
ghost use Rattle.std.specs.Prelude.{◌≡◌};
ghost use Rattle.std.specs.Int.{w16, w32, w64};
ghost use Rattle.causal_wire.specs.Reading.{ReturnsRead, read_byte, read_number, read_bytes, read_version, parcel_kind, read_kind, read_run, read_process, read_clock, read_flag, read_route, read_head, read_det, read_short_list, read_body};

use crate::fault::{ParcelFault, WireFault};
use crate::parcel::{Head, RunId};
use causal_name::{Det, Pid};
use std::alloc::Global;

/// The version of the format.
pub(crate) const VERSION: u8 = 1;

/// No clock in a parcel is as great as this.
const CLOCK_END: u64 = 1 << 62;

/// The kinds of parcels.
#[derive(Clone, Copy, PartialEq, Eq)]
pub(crate) enum ParcelKind {
    Message,
    Acknowledgement,
    Question,
    Answer,
    OwnNumber,
    NotUp,
}

pub(crate) fn read_u8(bytes: &[u8]) -> Result<(u8, &[u8]), ParcelFault>
    ensures { ReturnsRead (λ x. (x.0, x.1.now)) result (read_byte bytes.now) }
{
    match bytes {
        [] => Err(ParcelFault::Wire(WireFault::Short)),
        [first, rest @ ..] => Ok((*first, rest)),
    }
}

pub(crate) fn read_u16(bytes: &[u8]) -> Result<(u16, &[u8]), ParcelFault>
    ensures { ReturnsRead (λ x. (x.0, x.1.now)) result (read_number w16 bytes.now) }
{
    if bytes.len() < 2 {
        return Err(ParcelFault::Wire(WireFault::Short));
    }
    let (front, rest) = bytes.split_at(2);
    let number = u16::from_be_bytes([front[0], front[1]]);
    Ok((number, rest))
}

pub(crate) fn read_u32(bytes: &[u8]) -> Result<(u32, &[u8]), ParcelFault>
    ensures { ReturnsRead (λ x. (x.0, x.1.now)) result (read_number w32 bytes.now) }
{
    if bytes.len() < 4 {
        return Err(ParcelFault::Wire(WireFault::Short));
    }
    let (front, rest) = bytes.split_at(4);
    let number = u32::from_be_bytes([front[0], front[1], front[2], front[3]]);
    Ok((number, rest))
}

pub(crate) fn read_u64(bytes: &[u8]) -> Result<(u64, &[u8]), ParcelFault>
    ensures { ReturnsRead (λ x. (x.0, x.1.now)) result (read_number w64 bytes.now) }
{
    if bytes.len() < 8 {
        return Err(ParcelFault::Wire(WireFault::Short));
    }
    let (front, rest) = bytes.split_at(8);
    let number = u64::from_be_bytes([
        front[0], front[1], front[2], front[3], front[4], front[5], front[6], front[7],
    ]);
    Ok((number, rest))
}

/// Returns the next `count` bytes and those after them.
fn read_bytes(count: usize, bytes: &[u8]) -> Result<(&[u8], &[u8]), ParcelFault>
    ensures { ReturnsRead (λ x. (x.0.now, x.1.now)) result (read_bytes count bytes.now) }
{
    if bytes.len() < count {
        return Err(ParcelFault::Wire(WireFault::Short));
    }
    Ok(bytes.split_at(count))
}

/// Checks the version, and returns the bytes after it.
#[tactic(auto, unfolding(crate::specs::Reading::read_version))]
fn read_version(bytes: &[u8]) -> Result<&[u8], ParcelFault>
    ensures { ReturnsRead (λ x. x.now) result (read_version bytes.now) }
{
    let (version, rest) = read_u8(bytes)?;
    if version != VERSION {
        return Err(ParcelFault::Wire(WireFault::Version));
    }
    Ok(rest)
}

fn parcel_kind(number: u8) -> Result<ParcelKind, ParcelFault>
    ensures { ReturnsRead (λ x. x) result (parcel_kind number) }
{
    match number {
        0 => Ok(ParcelKind::Message),
        1 => Ok(ParcelKind::Acknowledgement),
        2 => Ok(ParcelKind::Question),
        3 => Ok(ParcelKind::Answer),
        4 => Ok(ParcelKind::OwnNumber),
        5 => Ok(ParcelKind::NotUp),
        _ => Err(ParcelFault::Wire(WireFault::Kind)),
    }
}

#[tactic(auto, unfolding(crate::specs::Reading::read_kind))]
fn read_kind(bytes: &[u8]) -> Result<(ParcelKind, &[u8]), ParcelFault>
    ensures { ReturnsRead (λ x. (x.0, x.1.now)) result (read_kind bytes.now) }
{
    let (number, rest) = read_u8(bytes)?;
    Ok((parcel_kind(number)?, rest))
}

/// Checks that the parcel is of the run, and returns the bytes after that.
#[tactic(auto, unfolding(crate::specs::Reading::read_run))]
fn read_run(run: RunId, bytes: &[u8]) -> Result<&[u8], ParcelFault>
    ensures { ReturnsRead (λ x. x.now) result (read_run run bytes.now) }
{
    let (id, rest) = read_u64(bytes)?;
    let (processes, rest) = read_u16(rest)?;
    let (f, rest) = read_u16(rest)?;
    if id == run.id && processes == run.processes && f == run.f {
        Ok(rest)
    } else {
        Err(ParcelFault::Wire(WireFault::Run))
    }
}

/// Returns a process below n.
#[tactic(auto, unfolding(crate::specs::Reading::read_process))]
fn read_process(n: u16, bytes: &[u8]) -> Result<(Pid, &[u8]), ParcelFault>
    ensures { ReturnsRead (λ x. (x.0, x.1.now)) result (read_process n bytes.now) }
{
    let (number, rest) = read_u8(bytes)?;
    if u16::from(number) < n {
        Ok((Pid(number), rest))
    } else {
        Err(ParcelFault::Wire(WireFault::Process))
    }
}

#[tactic(auto, unfolding(crate::specs::Reading::read_clock))]
fn read_clock(bytes: &[u8]) -> Result<(u64, &[u8]), ParcelFault>
    ensures { ReturnsRead (λ x. (x.0, x.1.now)) result (read_clock bytes.now) }
{
    let (clock, rest) = read_u64(bytes)?;
    if clock < CLOCK_END {
        Ok((clock, rest))
    } else {
        Err(ParcelFault::Wire(WireFault::Clock))
    }
}

#[tactic(auto, unfolding(crate::specs::Reading::read_flag))]
pub(crate) fn read_flag(bytes: &[u8]) -> Result<(bool, &[u8]), ParcelFault>
    ensures { ReturnsRead (λ x. (x.0, x.1.now)) result (read_flag bytes.now) }
{
    match bytes {
        [] => Err(ParcelFault::Wire(WireFault::Short)),
        [0, rest @ ..] => Ok((false, rest)),
        [1, rest @ ..] => Ok((true, rest)),
        [_, ..] => Err(ParcelFault::Wire(WireFault::Flag)),
    }
}

/// Returns the source, the destination, the lane and the clock.
#[tactic(auto, unfolding(crate::specs::Reading::read_route))]
fn read_route(n: u16, bytes: &[u8]) -> Result<(Head, &[u8]), ParcelFault>
    ensures { ReturnsRead (λ x. (x.0, x.1.now)) result (read_route n bytes.now) }
{
    let (source, rest) = read_process(n, bytes)?;
    let (dest, rest) = read_process(n, rest)?;
    let (lane, rest) = read_u32(rest)?;
    let (clock, rest) = read_clock(rest)?;
    let head = Head {
        source,
        dest,
        lane,
        clock,
    };
    Ok((head, rest))
}

/// Returns the kind of the parcel and its head.
#[tactic(auto, unfolding(crate::specs::Reading::read_head))]
pub(crate) fn read_head(run: RunId, bytes: &[u8]) -> Result<(ParcelKind, Head, &[u8]), ParcelFault>
    ensures { ReturnsRead (λ x. (x.0, x.1, x.2.now)) result (read_head run bytes.now) }
{
    let rest = read_version(bytes)?;
    let (kind, rest) = read_kind(rest)?;
    let rest = read_run(run, rest)?;
    let (head, rest) = read_route(run.processes, rest)?;
    Ok((kind, head, rest))
}

#[tactic(auto, unfolding(crate::specs::Reading::read_det))]
pub(crate) fn read_det(n: u16, bytes: &[u8]) -> Result<(Det, &[u8]), ParcelFault>
    ensures { ReturnsRead (λ x. (x.0, x.1.now)) result (read_det n bytes.now) }
{
    let (source, rest) = read_process(n, bytes)?;
    let (ssn, rest) = read_u32(rest)?;
    let (dest, rest) = read_process(n, rest)?;
    let (rsn, rest) = read_u32(rest)?;
    let det = Det {
        source,
        ssn,
        dest,
        rsn,
    };
    Ok((det, rest))
}

/// Returns at most 255 bytes whose number is in the byte before them.
#[tactic(auto, unfolding(crate::specs::Reading::read_short_list))]
pub(crate) fn read_short_list(bytes: &[u8]) -> Result<(&[u8], &[u8]), ParcelFault>
    ensures { ReturnsRead (λ x. (x.0.now, x.1.now)) result (read_short_list bytes.now) }
{
    let (count, rest) = read_u8(bytes)?;
    read_bytes(usize::from(count), rest)
}

#[tactic(auto, unfolding(crate::specs::Reading::read_body))]
pub(crate) fn read_body(alloc: Global, bytes: &[u8]) -> Result<(Vec<u8>, &[u8]), ParcelFault>
    ensures { ReturnsRead (λ x. (x.0.items, x.1.now)) result (read_body bytes.now) }
{
    let (count, rest) = read_u32(bytes)?;
    let (body, rest) = read_bytes(count as usize, rest)?;
    Ok((Vec::from_slice(alloc, body)?, rest))
}
