//! When the effect of each event first leaves its process: at the delivery of a message that the lane sends from then
//! on. Without a clock the position is computed for the process instead of the lane. It is no later.
ghost use Rattle.std.specs.Prelude.{◌≡◌, ◌<◌, length, slice_set};
ghost use Rattle.causal_audit.specs.Inside.Index.Departures.{event_process, departure_at, with_delivered, with_departure};

use causal_trace::entry::Entry;

/// Writes position i to the slot of the send that the entry at i delivers, if it is a delivery.
fn note_delivered(spreads: &mut Vec<u32>, entry: &Entry, i: u32)
    ensures { spreads.new.items ≡ with_delivered entry.now i spreads.old.items }
{
    if let Entry::Deliver { send, .. } = entry {
        if (*send as usize) < spreads.len() {
            spreads[*send as usize] = i;
        }
    }
}

/// Writes the departure of the entry at position i of this lane. All later entries are done. `outs` contains for each
/// lane the first position at which a message that it sends from there on is delivered.
pub fn note_departure(spreads: &mut Vec<u32>, outs: &mut [u32], entry: &Entry, lane: usize, i: u32)
    requires event { i < length spreads.old.items }
    requires lane { lane < length outs.old }
    ensures spreads { spreads.new.items
        ≡ with_departure entry.now i lane spreads.old.items outs.old }
    ensures outs { outs.new ≡
        slice_set outs.old lane (departure_at entry.now i lane spreads.old.items outs.old) }
{
    note_delivered(spreads, entry, i);
    let first = spreads[i as usize].min(outs[lane]);
    outs[lane] = first;
    spreads[i as usize] = first;
}

/// Returns the process of a send or a delivery; an arbitrary process for another entry.
pub fn event_process(entry: &Entry) -> u8
    ensures { result ≡ event_process entry.now }
{
    match entry {
        Entry::Send { from, .. } => from.0,
        Entry::Deliver { to, .. } => to.0,
        _ => 0,
    }
}
