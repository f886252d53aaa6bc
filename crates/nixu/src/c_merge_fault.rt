//! The first error of recordings, in the layout of `nixu_merge_fault` in nixu.h.
ghost use Rattle.std.specs.Prelude.{◌≡◌};
ghost use Rattle.nixu.specs.CMergeFaults as c_faults;

use crate::numbers::kind_number;
use crate::places::RecordingPlace;
use causal_holders::Holders;
use causal_merge::{MergeDetail, MergeFault, MergeKind};
use nixu_boundary::flags::flags_of;

/// The first error of recordings, with its place and the values that explain it.
///
/// Fields that the `kind` does not use are 0.
#[repr(C)]
#[derive(Clone, Copy)]
pub struct CMergeFault {
    /// The recording in which its line begins, from 0.
    pub recording: usize,
    /// The number of that line in the recording, from 1.
    pub line: u32,
    /// The number of the kind of error.
    pub kind: u32,
    /// The send or receive sequence number that the line has.
    pub given: u32,
    /// The one that is the next.
    pub next: u32,
    /// The message's lane of its sender.
    pub lane: u32,
    /// The message's send sequence number.
    pub ssn: u32,
    /// The determinant's receive sequence number.
    pub rsn: u32,
    /// The process of the line.
    pub process: u8,
    /// The message's sender.
    pub source: u8,
    /// The determinant's receiver.
    pub dest: u8,
    /// 1 for each process of the run that has no header; 0 for the others.
    pub missing: [u8; 256],
}

/// The number of a kind of error of recordings.
pub(crate) fn merge_number(kind: &MergeKind) -> u32
    ensures { result ≡ c_faults.merge_number kind.now }
{
    match kind {
        MergeKind::NoHeader { .. } => 21,
        MergeKind::Twice => 22,
        MergeKind::Line(kind) => kind_number(*kind),
    }
}

/// The processes that have no header.
fn missing_in(kind: &MergeKind) -> Holders
    ensures { result ≡ c_faults.missing_in kind.now }
{
    match kind {
        MergeKind::NoHeader { missing } => *missing,
        MergeKind::Twice => Holders::none(),
        MergeKind::Line(_) => Holders::none(),
    }
}

/// The struct of an error at this place, without the values that explain it.
fn fault_at(place: RecordingPlace, kind: &MergeKind) -> CMergeFault
    ensures { result ≡ c_faults.fault_at place kind.now }
{
    CMergeFault {
        recording: place.recording,
        line: place.line,
        kind: merge_number(kind),
        given: 0,
        next: 0,
        lane: 0,
        ssn: 0,
        rsn: 0,
        process: 0,
        source: 0,
        dest: 0,
        missing: flags_of(missing_in(kind)),
    }
}

/// The struct of an error of recordings at this place.
pub(crate) fn c_merge_fault_of(place: RecordingPlace, fault: &MergeFault) -> CMergeFault
    ensures { result ≡ c_faults.c_merge_fault_of place fault.now }
{
    let plain = fault_at(place, &fault.kind);
    match fault.detail {
        Some(detail) => with_detail(plain, detail),
        None => plain,
    }
}

/// The struct with the values that explain the error.
fn with_detail(plain: CMergeFault, detail: MergeDetail) -> CMergeFault
    ensures { result ≡ c_faults.with_detail plain detail }
{
    match detail {
        MergeDetail::Ssn {
            process,
            given,
            next,
        } => CMergeFault {
            process: process.0,
            given,
            next,
            ..plain
        },
        MergeDetail::Rsn {
            process,
            given,
            next,
        } => CMergeFault {
            process: process.0,
            given,
            next,
            ..plain
        },
        MergeDetail::Send { process, name } => CMergeFault {
            process: process.0,
            source: name.source.0,
            lane: name.lane,
            ssn: name.ssn,
            ..plain
        },
        MergeDetail::Again { process, message } => CMergeFault {
            process: process.0,
            source: message.source.0,
            ssn: message.ssn,
            ..plain
        },
        MergeDetail::Undelivered { det } => CMergeFault {
            source: det.source.0,
            ssn: det.ssn,
            dest: det.dest.0,
            rsn: det.rsn,
            ..plain
        },
    }
}
