//! The lines of a recording. Each function takes O(line) time and memory, and returns `NoMemory` only if an allocation
//! failed. A line is written before anything leaves the process.
ghost use Rattle.std.specs.Prelude.{◌≡◌, IfOk};
ghost use Rattle.causal_endpoint.specs.Lines.{header_line, send_line, deliver_line, stable_line, crash_line, restart_line, forget_line};

use crate::forgetting::Forgotten;
use crate::receiving::DeliveryRecord;
use crate::recovery::RestartRecord;
use crate::sending::SendRecord;
use causal_name::{Det, NoMemory, Pid};
use causal_spelling::{push_det, push_listed, push_named};
use std::alloc::Global;

/// Returns the header of a process's recording, which each of its incarnations writes first, in the run with this number
/// and this many processes.
///
/// # Errors
/// `NoMemory`.
pub fn header_line(alloc: Global, me: Pid, processes: u16, run: u64) -> Result<Vec<u8>, NoMemory>
    ensures { IfOk result (λ line. line.items ≡ header_line me processes run) }
{
    let mut out = String::new(alloc);
    let numbers = [u64::from(me.0), 1, u64::from(processes), run];
    push_named(&mut out, "recording", &numbers, "]\n")?;
    Ok(out.into_bytes())
}

/// Returns the line of a send to this process.
///
/// # Errors
/// `NoMemory`.
pub fn send_line(alloc: Global, me: Pid, to: Pid, sent: &SendRecord) -> Result<Vec<u8>, NoMemory>
    ensures { IfOk result (λ line. line.items ≡ send_line me to sent.now) }
{
    let mut out = String::new(alloc);
    let numbers = [
        u64::from(me.0),
        sent.clock,
        u64::from(to.0),
        u64::from(sent.ssn),
    ];
    push_named(&mut out, "send", &numbers, "]\n")?;
    Ok(out.into_bytes())
}

/// Returns the line of a delivery.
///
/// # Errors
/// `NoMemory`.
pub fn deliver_line(alloc: Global, me: Pid, delivered: &DeliveryRecord) -> Result<Vec<u8>, NoMemory>
    ensures { IfOk result (λ line. line.items ≡ deliver_line me delivered.now) }
{
    let mut out = String::new(alloc);
    let numbers = [
        u64::from(me.0),
        delivered.clock,
        u64::from(delivered.name.source.0),
        u64::from(delivered.lane),
        u64::from(delivered.name.ssn),
        u64::from(delivered.det.rsn),
    ];
    let listed = delivered.listed.as_slice();
    push_listed(&mut out, "deliver", &numbers, listed, "]\n")?;
    Ok(out.into_bytes())
}

/// Returns the line that stable storage has a determinant, at the clock that `stored` returned.
///
/// # Errors
/// `NoMemory`.
pub fn stable_line(alloc: Global, me: Pid, clock: u64, det: &Det) -> Result<Vec<u8>, NoMemory>
    ensures { IfOk result (λ line. line.items ≡ stable_line me clock det.now) }
{
    let mut out = String::new(alloc);
    push_named(&mut out, "stable", &[u64::from(me.0), clock], ",")?;
    push_det(&mut out, det)?;
    out.push_str("]\n")?;
    Ok(out.into_bytes())
}

/// Returns the line of a process's end, for whoever has seen it. The clock is above that of the process's last line.
///
/// # Errors
/// `NoMemory`.
pub fn crash_line(alloc: Global, who: Pid, clock: u64) -> Result<Vec<u8>, NoMemory>
    ensures { IfOk result (λ line. line.items ≡ crash_line who clock) }
{
    let mut out = String::new(alloc);
    push_named(&mut out, "crash", &[u64::from(who.0), clock], "]\n")?;
    Ok(out.into_bytes())
}

/// Returns the line of a restart.
///
/// # Errors
/// `NoMemory`.
pub fn restart_line(alloc: Global, me: Pid, restarted: &RestartRecord) -> Result<Vec<u8>, NoMemory>
    ensures { IfOk result (λ line. line.items ≡ restart_line me restarted.now) }
{
    let mut out = String::new(alloc);
    let numbers = [u64::from(me.0), restarted.clock];
    let listed = restarted.listed.as_slice();
    push_listed(&mut out, "restart", &numbers, listed, "]\n")?;
    Ok(out.into_bytes())
}

/// Returns the line of a forgetting that lists something.
///
/// # Errors
/// `NoMemory`.
pub fn forget_line(alloc: Global, me: Pid, forgotten: &Forgotten) -> Result<Vec<u8>, NoMemory>
    ensures { IfOk result (λ line. line.items ≡ forget_line me forgotten.now) }
{
    let mut out = String::new(alloc);
    let numbers = [u64::from(me.0), forgotten.clock];
    let listed = forgotten.listed.as_slice();
    push_listed(&mut out, "forget", &numbers, listed, "]\n")?;
    Ok(out.into_bytes())
}
