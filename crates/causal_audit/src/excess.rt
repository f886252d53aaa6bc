//! The first instant with too many processes down, and the last that can decide. Both are computed from the trace only.
ghost use Rattle.std.specs.Prelude.{◌≡◌, ◌≤◌, ℕ, length};
ghost use Rattle.causal_audit.specs.Breaches.{FirstExcess, last_deciding_instant};

use crate::breach::Excess;
use crate::delivery_state::down_after;
use causal_holders::Holders;
use causal_trace::trace::Trace;

/// Returns the first instant of a trace with more than f processes down, with these processes; `None` if there is none.
pub fn first_excess_in(trace: &Trace, f: u16) -> Option<Excess>
    ensures { FirstExcess trace.now.recording f result }
{
    let recorded = trace.entries();
    let mut down = Holders::none();
    for (t, entry) in recorded.iter().enumerate() {
        down = down_after(down, entry);
        if down.len() > u32::from(f) {
            return Some(Excess {
                instant: t as u32 + 1,
                down,
            });
        }
    }
    None
}

/// Returns the last instant of a trace that can decide: that of the first excess, or the last of the run.
pub fn last_deciding_instant(trace: &Trace, excess: &Option<Excess>) -> u32
    ensures value { result ≡ last_deciding_instant (length trace.now.recording.past) excess.now }
    ensures within { (f : ℕ) → FirstExcess trace.now.recording f excess.now →
        result ≤ length trace.now.recording.past }
{
    match excess {
        Some(first) => first.instant,
        None => trace.len(),
    }
}
