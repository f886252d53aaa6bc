//! The present lane (incarnation) of each process, kept up to date by `push`.
ghost use Rattle.std.specs.Prelude.{◌≡◌, ◌<◌, length, IfSome, IfOk, All, replicate, if◌then◌else◌};
ghost use Rattle.causal_trace.specs.Inside.Index.{lanes_after, subject, CountersFit, first_lane, is_restart};

use crate::entry::Entry;
use causal_name::NoMemory;
use std::alloc::Global;

/// The present lane of a process: whether the process is down, its restarts, and how many messages the lane has sent
/// and delivered.
#[derive(Clone, Copy)]
pub(crate) struct LaneState {
    pub down: bool,
    pub restarts: u32,
    pub sends: u32,
    pub deliveries: u32,
}

/// Counts one more entry for the process that acts in it. O(1) time.
pub(crate) fn count_entry(lanes: &mut [LaneState], entry: &Entry)
    requires there { IfSome (subject entry.now) (λ p. p.0 < length lanes.old) }
    requires room { All CountersFit lanes.old }
    ensures { lanes.new ≡ lanes_after entry.now lanes.old }
{
    match entry {
        Entry::Send { from, .. } => lanes[from.0 as usize].sends += 1,
        Entry::Deliver { to, .. } => lanes[to.0 as usize].deliveries += 1,
        Entry::Crash { who } => lanes[who.0 as usize].down = true,
        Entry::Restart { who, .. } => {
            let lane = &mut lanes[who.0 as usize];
            lane.down = false;
            lane.restarts += 1;
            lane.sends = 0;
            lane.deliveries = 0;
        }
        Entry::Stable { .. } => {}
        Entry::Forget { .. } => {}
    }
}

/// Returns the initial lanes of n processes.
pub(crate) fn new_lanes(alloc: Global, n: usize) -> Result<Vec<LaneState>, NoMemory>
    ensures { IfOk result (λ lanes. lanes.items ≡ replicate n first_lane) }
{
    let fresh = LaneState {
        down: false,
        restarts: 0,
        sends: 0,
        deliveries: 0,
    };
    Ok(vec![in alloc; fresh; n]?)
}

/// Returns a copy of the lanes.
pub(crate) fn clone_lanes(lanes: &Vec<LaneState>) -> Result<Vec<LaneState>, NoMemory>
    ensures { IfOk result (λ copy. copy.items ≡ lanes.now.items) }
{
    Ok(lanes.clone()?)
}

/// Returns a copy of the entries.
pub(crate) fn clone_entries(entries: &Vec<Entry>) -> Result<Vec<Entry>, NoMemory>
    ensures { IfOk result (λ copy. copy.items ≡ entries.now.items) }
{
    Ok(entries.clone()?)
}

/// Returns 1 for a restart, otherwise 0.
pub(crate) fn restarts_in(e: &Entry) -> u32
    ensures { result ≡ (if is_restart e.now then 1 else 0) }
{
    if matches!(e, Entry::Restart { .. }) {
        1
    } else {
        0
    }
}
