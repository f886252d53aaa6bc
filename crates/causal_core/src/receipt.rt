//! The deliver entry of a step, and what the receiver learns by it.
ghost use Rattle.std.specs.Prelude.{◌≡◌, ◌≤◌, ◌+◌, length, Some};
ghost use Rattle.causal_name.specs.Names.{message_of};
ghost use Rattle.causal_log.specs.Logs.{batch_items};
ghost use Rattle.causal_trace.specs.declared.entry.Entry.TheVariants as Entries;
ghost use Rattle.causal_trace.specs.State.{with_entry};
ghost use Rattle.causal_trace.specs.Past.{message_at};
ghost use Rattle.causal_protocol.specs.Memory.{log_after_delivery, with_received};
ghost use Rattle.causal_core.specs.Inside.MemoryInvariant.{MatchesEntries};
ghost use Rattle.causal_core.specs.Inside.DeliveryRecords.{IsLogDelivered, IsLegalNext, OthersStillFit};
ghost use Rattle.causal_memory.specs.ProcessMemories.{memory_of, capacity_of, bodies_of};

use causal_log::Batch;
use causal_memory::process_memory::ProcessMemory;
use causal_name::{Det, Pid};
use causal_trace::entry::{Dets, Entry};
use causal_trace::trace::Trace;

/// Records a delivery to process q, and adds its determinant and the message's piggyback to q's log.
pub(crate) fn record_receipt(
    trace: &mut Trace,
    process_memory: &mut ProcessMemory,
    q: Pid,
    send: u32,
    own: Det,
    listed: Dets,
    piggyback: &Batch,
    f: u16,
    next: Batch,
)
    requires legal { IsLegalNext trace.old.recording (Entries.Deliver q send own.rsn listed) }
    requires sent { message_at trace.old.recording.past send ≡ Some (message_of own) }
    requires fit { MatchesEntries trace.old.recording.past q.0 (memory_of process_memory.old) }
    requires logged { IsLogDelivered trace.old.recording.past
        (Entries.Deliver q send own.rsn listed)
        (log_after_delivery piggyback.now own (memory_of process_memory.old).log) }
    requires next { next ≡ batch_items f (log_after_delivery piggyback.now own
        (memory_of process_memory.old).log) }
    requires spare { 1 ≤ trace.old.spare }
    requires room { 1 ≤ (capacity_of process_memory.old).received }
    requires insertions { length piggyback.now + 1 ≤ (capacity_of process_memory.old).log }
    ensures recording { trace.new.recording
        ≡ with_entry trace.old.recording (Entries.Deliver q send own.rsn listed) }
    ensures memory { memory_of process_memory.new
        ≡ with_received piggyback.now own (memory_of process_memory.old) }
    ensures fit { MatchesEntries trace.new.recording.past q.0 (memory_of process_memory.new) }
    ensures others { OthersStillFit q.0 trace.old.recording.past trace.new.recording.past }
    ensures spare { trace.old.spare ≤ trace.new.spare + 1 }
    ensures room { (capacity_of process_memory.new).sent ≡ (capacity_of process_memory.old).sent }
    ensures bodies { bodies_of process_memory.new ≡ bodies_of process_memory.old }
{
    trace.push_reserved(Entry::Deliver {
        to: q,
        send,
        rsn: own.rsn,
        listed,
    });
    process_memory.receive(own, piggyback, f, next);
}
