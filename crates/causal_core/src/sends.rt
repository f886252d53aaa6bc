//! The sends of a step.
ghost use Rattle.std.specs.Prelude.{◌≡◌, ◌<◌, ◌≤◌, ◌+◌, ◌++◌, [], ◌∷◌, length, true};
ghost use Rattle.causal_name.specs.Names.{is_ascending};
ghost use Rattle.causal_log.specs.Logs.{dets_of};
ghost use Rattle.causal_trace.specs.Rows.{are_delivered, IsWellFormed};
ghost use Rattle.causal_core.specs.Inside.MemoryInvariant.{MatchesEntries};
ghost use Rattle.causal_core.specs.Inside.DeliveryRecords.{keep_send, keep_sends, with_send, with_sends, OthersStillFit, StayDelivered};
ghost use Rattle.causal_core.specs.View.{receivers, sent_bodies};
ghost use Rattle.causal_memory.specs.ProcessMemories.{memory_of, bodies_of};
ghost use Rattle.causal_trace.specs.Limits.{max_entries};

use causal_memory::process_memory::ProcessMemory;
use causal_name::Pid;
use causal_process::Outgoing;
use causal_trace::entry::Entry;
use causal_trace::trace::Trace;

/// Records the sends of process q and keeps the messages, with the batch of its current step. It drops sends to numbers
/// that are not processes. Returns the number of recorded sends.
pub(crate) fn append_sends(
    trace: &mut Trace,
    process_memory: &mut ProcessMemory,
    q: Pid,
    sends: Vec<Outgoing>,
) -> u32
    requires process { q.0 < trace.old.recording.processes }
    requires fit { MatchesEntries trace.old.recording.past q.0 (memory_of process_memory.old) }
    requires few { length sends.items ≤ 8 }
    requires ascending { is_ascending (dets_of process_memory.old.sent.batch) ≡ true }
    requires delivered { are_delivered trace.old.recording.past
        (dets_of process_memory.old.sent.batch) ≡ true }
    requires spare { 8 ≤ trace.old.spare }
    requires room { 8 ≤ process_memory.old.sent.spare }
    requires short { length trace.old.recording.past + 8 ≤ max_entries }
    ensures number { result ≡ length (receivers trace.old.recording.processes sends.items) }
    ensures recording { trace.new.recording
        ≡ with_sends trace.old.recording q sends.items (memory_of process_memory.old) }
    ensures formed { IsWellFormed trace.new.recording }
    ensures memory { memory_of process_memory.new
        ≡ keep_sends trace.old.recording process_memory.old.sent.batch sends.items
        (memory_of process_memory.old) }
    ensures fit { MatchesEntries trace.new.recording.past q.0 (memory_of process_memory.new) }
    ensures others { OthersStillFit q.0 trace.old.recording.past trace.new.recording.past }
    ensures bodies { bodies_of process_memory.new
        ≡ bodies_of process_memory.old ++ sent_bodies trace.old.recording.processes sends.items }
{
    let n = trace.processes();
    let mut number = 0;
    for outgoing in sends {
        if u16::from(outgoing.to.0) < n {
            record_send(trace, process_memory, q, outgoing);
            number += 1;
        }
    }
    number
}

/// Records one send, and keeps the message.
fn record_send(trace: &mut Trace, process_memory: &mut ProcessMemory, q: Pid, outgoing: Outgoing)
    requires from { q.0 < trace.old.recording.processes }
    requires to { outgoing.to.0 < trace.old.recording.processes }
    requires fit { MatchesEntries trace.old.recording.past q.0 (memory_of process_memory.old) }
    requires spare { 1 ≤ trace.old.spare }
    requires room { 1 ≤ process_memory.old.sent.spare }
    requires short { length trace.old.recording.past < max_entries }
    requires ascending { is_ascending (dets_of process_memory.old.sent.batch) ≡ true }
    requires delivered { are_delivered trace.old.recording.past
        (dets_of process_memory.old.sent.batch) ≡ true }
    ensures recording { trace.new.recording
        ≡ with_send trace.old.recording q outgoing.to (memory_of process_memory.old) }
    ensures formed { IsWellFormed trace.new.recording }
    ensures memory { memory_of process_memory.new
        ≡ keep_send trace.old.recording outgoing.to process_memory.old.sent.batch
        (memory_of process_memory.old) }
    ensures fit { MatchesEntries trace.new.recording.past q.0 (memory_of process_memory.new) }
    ensures others { OthersStillFit q.0 trace.old.recording.past trace.new.recording.past }
    ensures delivered { StayDelivered trace.old.recording.past trace.new.recording.past }
    ensures spare { trace.old.spare ≤ trace.new.spare + 1 }
    ensures batch { process_memory.new.sent.batch ≡ process_memory.old.sent.batch }
    ensures room { process_memory.old.sent.spare ≤ process_memory.new.sent.spare + 1 }
    ensures bodies { bodies_of process_memory.new
        ≡ bodies_of process_memory.old ++ outgoing.body ∷ [] }
{
    let send = trace.len();
    let ssn = process_memory.sent.len() as u32;
    let Outgoing { to, body } = outgoing;
    trace.push_reserved(Entry::Send { from: q, to, ssn });
    process_memory.keep_message(to, send, body);
}
