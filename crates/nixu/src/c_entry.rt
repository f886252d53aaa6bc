//! Entries of a trace, in the layout of `nixu_entry` in nixu.h.
ghost use Rattle.std.specs.Prelude.{◌≡◌, IfOk};
ghost use Rattle.nixu.specs.Entries.{plain_entry, listing_entry, entry_from_c};

use causal_name::{Det, NoMemory, Pid};
use causal_trace::{Dets, Entry};
use nixu_boundary::c_determinant::{CDeterminant, dets_from_c};
use std::alloc::Global;

/// An entry without the determinants that it lists. A field that the kind does not use is not read.
#[repr(C)]
#[derive(Clone, Copy)]
pub struct CEntry {
    /// 0 send, 1 deliver, 2 stable, 3 crash, 4 restart, 5 forget.
    pub kind: u32,
    /// Send, stable: the send sequence number.
    pub ssn: u32,
    /// Deliver, stable: the receive sequence number.
    pub rsn: u32,
    /// Deliver: the position of the send entry, from 0.
    pub send: u32,
    /// Send, stable: the sender.
    pub source: u8,
    /// Send, deliver, stable: the receiver.
    pub dest: u8,
    /// Crash, restart, forget: the process.
    pub who: u8,
}

/// The entry in a C struct with its listed determinants; None if the kind is unknown, or determinants are listed for a
/// kind that lists none.
///
/// # Errors
/// `NoMemory` if allocation failed.
pub(crate) fn entry_from_c(
    alloc: Global,
    step: &CEntry,
    listed: &[CDeterminant],
) -> Result<Option<Entry>, NoMemory>
    ensures { IfOk result (λ entry. entry ≡ entry_from_c step.now listed.now) }
{
    match plain_entry(step) {
        Some(entry) if listed.is_empty() => Ok(Some(entry)),
        Some(_) => Ok(None),
        None => listing_entry(alloc, step, listed),
    }
}

/// The entry, if its kind lists no determinants.
fn plain_entry(step: &CEntry) -> Option<Entry>
    ensures { result ≡ plain_entry step.now }
{
    match step.kind {
        0 => Some(Entry::Send {
            from: Pid(step.source),
            to: Pid(step.dest),
            ssn: step.ssn,
        }),
        2 => Some(Entry::Stable {
            det: Det {
                source: Pid(step.source),
                ssn: step.ssn,
                dest: Pid(step.dest),
                rsn: step.rsn,
            },
        }),
        3 => Some(Entry::Crash { who: Pid(step.who) }),
        _ => None,
    }
}

/// The entry, if its kind lists determinants.
fn listing_entry(
    alloc: Global,
    step: &CEntry,
    listed: &[CDeterminant],
) -> Result<Option<Entry>, NoMemory>
    ensures { IfOk result (λ entry. entry ≡ listing_entry step.now listed.now) }
{
    let listed = Dets::new(dets_from_c(alloc, listed)?);
    Ok(match step.kind {
        1 => Some(Entry::Deliver {
            to: Pid(step.dest),
            send: step.send,
            rsn: step.rsn,
            listed,
        }),
        4 => Some(Entry::Restart {
            who: Pid(step.who),
            listed,
        }),
        5 => Some(Entry::Forget {
            who: Pid(step.who),
            listed,
        }),
        _ => None,
    })
}
