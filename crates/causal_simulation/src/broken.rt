//! Parcels of a process that breaks a rule.
use crate::settings::{Rule, Settings};
use crate::stop::{Stop, Wrong};
use causal_endpoint::fault::EndpointFault;
use causal_name::NoMemory;
use causal_wire::{Content, Parcel, ParcelFault, RunId, read, write, write_message};
use std::alloc::Global;

/// Where a parcel has its clock.
const CLOCK: usize = 20;

/// Returns the parcel of these bytes.
fn parcel_of(alloc: Global, run: RunId, bytes: &[u8]) -> Result<Parcel, Stop> {
    match read(alloc, run, bytes) {
        Ok(parcel) => Ok(parcel),
        Err(ParcelFault::NoMemory) => Err(Stop::NoMemory),
        Err(ParcelFault::Wire(fault)) => Err(Stop::Wrong(Wrong::Refused(EndpointFault::Wire(
            fault,
        )))),
    }
}

/// Returns the bytes of a message that carries nothing; `None` if the parcel is not a message.
fn without_items(alloc: Global, run: RunId, parcel: &Parcel) -> Result<Option<Vec<u8>>, NoMemory> {
    let Content::Message { ssn, body, .. } = &parcel.content else {
        return Ok(None);
    };
    if body.len() >= 1 << 32 {
        return Ok(None);
    }
    let bytes = write_message(alloc, run, parcel.head, *ssn, &[], body.as_slice())?;
    Ok(Some(bytes))
}

/// Returns the bytes of an empty log; `None` if the parcel is not a log.
fn without_log(alloc: Global, run: RunId, parcel: &Parcel) -> Result<Option<Vec<u8>>, NoMemory> {
    let Content::Answer { round, .. } = &parcel.content else {
        return Ok(None);
    };
    let content = Content::Answer {
        round: *round,
        entries: Vec::new(alloc),
    };
    let bytes = write(
        alloc,
        run,
        &Parcel {
            head: parcel.head,
            content,
        },
    )?;
    Ok(Some(bytes))
}

/// Returns the bytes of a question whose view has an earlier lane of the asker; `None` if the parcel is not a question.
fn without_floor(alloc: Global, run: RunId, parcel: &Parcel) -> Result<Option<Vec<u8>>, NoMemory> {
    let Content::Question { round, view } = &parcel.content else {
        return Ok(None);
    };
    let mut lowered = Vec::from_slice(alloc, view.as_slice())?;
    if let Some(own) = lowered.get_mut(usize::from(parcel.head.source.0)) {
        *own = (*own).saturating_sub(1);
    }
    let content = Content::Question {
        round: *round,
        view: lowered,
    };
    let bytes = write(
        alloc,
        run,
        &Parcel {
            head: parcel.head,
            content,
        },
    )?;
    Ok(Some(bytes))
}

/// Sets the clock of a parcel to 0.
fn clear_clock(bytes: &mut Vec<u8>) {
    for byte in bytes.iter_mut().skip(CLOCK).take(8) {
        *byte = 0;
    }
}

/// Returns the bytes that leave a process in place of these.
pub fn alter(alloc: Global, settings: &Settings, bytes: Vec<u8>) -> Result<Vec<u8>, Stop> {
    let rule = match settings.broken {
        Some(rule @ (Rule::Piggyback | Rule::Answer | Rule::Floor)) => rule,
        Some(Rule::ParcelClock) => {
            let mut bytes = bytes;
            clear_clock(&mut bytes);
            return Ok(bytes);
        }
        _ => return Ok(bytes),
    };
    let run = settings.run();
    let parcel = parcel_of(alloc, run, bytes.as_slice())?;
    let other = match rule {
        Rule::Piggyback => without_items(alloc, run, &parcel)?,
        Rule::Answer => without_log(alloc, run, &parcel)?,
        _ => without_floor(alloc, run, &parcel)?,
    };
    match other {
        Some(other) => Ok(other),
        None => Ok(bytes),
    }
}
