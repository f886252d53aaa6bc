//! The clock of a run. It has one event for each entry, so an event's number is the entry's position. The event of an
//! entry other than a send or a delivery is a local event that does not affect the order of the others.
ghost use Rattle.std.specs.Prelude.{◌≡◌, ◌≤◌, ◌<◌, ◌∷◌, ℕ, List, OnOk, IfOk, IfErr, length, slice_index};
ghost use Rattle.causal_trace.specs.declared.entry.Entry.{Entry};
ghost use Rattle.causal_trace.specs.Past.{restarts};
ghost use Rattle.causal_trace.specs.Rows.{AreLegalEntries};
ghost use Rattle.causal_audit.specs.Inside.ByClock.ClockOfRun.{CanExtendClock, IsClockWithLanes, IsClockOf};

use causal_clock::{ClockFault, Clocks, OPENED_LANES};
use causal_name::NoMemory;
use causal_trace::entry::Entry;
use causal_trace::trace::Trace;
use std::alloc::Global;

/// Adds the event of one more entry and returns its number. `present` maps each process to the clock's lane of its
/// present lane.
#[tactic(auto, using(crate::proofs::by_clock::ClockEvents::of_events))]
fn add_event(entry: &Entry, clocks: &mut Clocks, present: &mut [u32]) -> Result<u32, ClockFault>
    requires { CanExtendClock entry.now clocks.old present.old }
    ensures mirrors { (n : ℕ) (past : List Entry) → AreLegalEntries n (entry.now ∷ past) →
        IsClockWithLanes n past clocks.old present.old →
        OnOk result (IsClockWithLanes n (entry.now ∷ past) clocks.new present.new) }
    ensures refused { IfErr result (λ fault. fault ≡ ClockFault.NoMemory) }
{
    match entry {
        Entry::Send { from, .. } => clocks.local(present[from.0 as usize]),
        Entry::Deliver { to, send, .. } => clocks.receive(present[to.0 as usize], *send),
        Entry::Restart { who, .. } => {
            let lane = match clocks.open_lane() {
                Ok(lane) => lane,
                Err(fault) => return Err(fault),
            };
            present[who.0 as usize] = lane;
            clocks.local(lane)
        }
        Entry::Stable { .. } => clocks.local(0),
        Entry::Crash { .. } => clocks.local(0),
        Entry::Forget { .. } => clocks.local(0),
    }
}

/// Returns the lanes of n processes before the first entry: each process has the lane of its number.
fn first_lanes(alloc: Global, n: u16) -> Result<Vec<u32>, NoMemory>
    ensures count { IfOk result (λ lanes. length lanes.items ≡ n) }
    ensures each { IfOk result (λ lanes. (p : ℕ) → p < n → slice_index lanes.items p ≡ p) }
{
    let mut lanes = Vec::new(alloc);
    for p in 0..n {
        lanes.push(u32::from(p))?;
    }
    Ok(lanes)
}

/// Returns the clock of a run, which must have no more restarts than a clock opens lanes.
///
/// # Errors
/// `NoMemory` if allocation fails.
pub fn clocks_of(alloc: Global, trace: &Trace) -> Result<Clocks, NoMemory>
    requires { restarts trace.now.recording.past ≤ OPENED_LANES }
    ensures { IfOk result (λ clocks. IsClockOf trace.now.recording.past clocks.events) }
{
    let n = trace.processes();
    let mut clocks = match Clocks::new(alloc, n) {
        Ok(clocks) => clocks,
        Err(ClockFault::NoMemory) => return Err(NoMemory),
        Err(ClockFault::Lanes) => unreachable!(),
    };
    let mut present = first_lanes(alloc, n)?;
    for entry in trace.entries() {
        match add_event(entry, &mut clocks, present.as_mut_slice()) {
            Ok(_) => {}
            Err(ClockFault::NoMemory) => return Err(NoMemory),
            Err(ClockFault::Lanes) => unreachable!(),
        }
    }
    Ok(clocks)
}
