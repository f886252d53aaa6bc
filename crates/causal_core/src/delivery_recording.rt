//! Recording of a delivery and its sends, after the box has stepped.
ghost use Rattle.std.specs.Prelude.{◌≡◌, ◌<◌, ◌≤◌, ◌+◌, ◌++◌, Some, true, length, OnOk, is_some};
ghost use Rattle.causal_name.specs.Names.{message_of, is_ascending};
ghost use Rattle.causal_log.specs.Logs.{batch_items, dets_of};
ghost use Rattle.causal_trace.specs.Past.{message_at};
ghost use Rattle.causal_trace.specs.Rows.{IsWellFormed};
ghost use Rattle.causal_protocol.specs.Memory.{present_at};
ghost use Rattle.causal_core.specs.Inside.MemoryInvariant.{MatchesEntries, AllMatchEntries};
ghost use Rattle.causal_core.specs.Inside.DeliveryRecords.{planned_entry, memory_after_step, memories_after_step, with_step, IsBatchDelivered, IsLogDelivered, IsLegalNext, OthersStillFit};
ghost use Rattle.causal_memory.specs.ProcessMemories.{memory_of, bodies_of, capacity_of};
ghost use Rattle.causal_core.specs.Inside.Memories.{memories_in, memory_at, bodies_in, capacities_in, capacity_at};
ghost use Rattle.causal_core.specs.View.{receivers, sent_bodies, with_bodies};
ghost use Rattle.causal_trace.specs.Limits.{max_entries};
ghost use Rattle.causal_memory.specs.DeliveryPlans.{log_after_plan};

use crate::receipt::record_receipt;
use crate::sends::append_sends;
use causal_memory::delivery_plan::DeliveryPlan;
use causal_memory::process_memory::ProcessMemory;
use causal_name::{NoMemory, Pid};
use causal_process::Outgoing;
use causal_trace::trace::Trace;

/// Records a delivery to process q and its sends, and returns the number of recorded sends.
pub(crate) fn record_delivery(
    trace: &mut Trace,
    process_memory: &mut ProcessMemory,
    q: Pid,
    f: u16,
    grown: DeliveryPlan,
    sends: Vec<Outgoing>,
) -> u32
    requires process { q.0 < trace.old.recording.processes }
    requires legal { IsLegalNext trace.old.recording (planned_entry q grown) }
    requires sent { message_at trace.old.recording.past grown.send ≡ Some (message_of grown.own) }
    requires fit { MatchesEntries trace.old.recording.past q.0 (memory_of process_memory.old) }
    requires logged { IsLogDelivered trace.old.recording.past (planned_entry q grown)
        (log_after_plan grown (memory_of process_memory.old).log) }
    requires ascending { is_ascending (dets_of grown.next_share) ≡ true }
    requires delivered { IsBatchDelivered trace.old.recording.past q grown }
    requires next { grown.next
        ≡ batch_items f (log_after_plan grown (memory_of process_memory.old).log) }
    requires few { length sends.items ≤ 8 }
    requires spare { 9 ≤ trace.old.spare }
    requires room { 8 ≤ (capacity_of process_memory.old).sent }
    requires received { 1 ≤ (capacity_of process_memory.old).received }
    requires insertions { length grown.piggyback + 1 ≤ (capacity_of process_memory.old).log }
    requires short { length trace.old.recording.past + 9 ≤ max_entries }
    ensures number { result ≡ length (receivers trace.old.recording.processes sends.items) }
    ensures recording { trace.new.recording
        ≡ with_step trace.old.recording q grown sends.items (memory_of process_memory.old) }
    ensures formed { IsWellFormed trace.new.recording }
    ensures memory { memory_of process_memory.new
        ≡ memory_after_step trace.old.recording grown sends.items (memory_of process_memory.old) }
    ensures fit { MatchesEntries trace.new.recording.past q.0 (memory_of process_memory.new) }
    ensures others { OthersStillFit q.0 trace.old.recording.past trace.new.recording.past }
    ensures bodies { bodies_of process_memory.new
        ≡ bodies_of process_memory.old ++ sent_bodies trace.old.recording.processes sends.items }
{
    let DeliveryPlan {
        own,
        send,
        listed,
        piggyback,
        next,
        next_share,
    } = grown;
    record_receipt(
        trace,
        process_memory,
        q,
        send,
        own,
        listed,
        &piggyback,
        f,
        next,
    );
    process_memory.sent.begin_step(next_share);
    append_sends(trace, process_memory, q, sends)
}

/// Records a delivery to process q, whose memory is an element of the list, and its sends.
pub(crate) fn record_delivery_at(
    trace: &mut Trace,
    process_memories: &mut Vec<Option<ProcessMemory>>,
    q: Pid,
    f: u16,
    grown: DeliveryPlan,
    sends: Vec<Outgoing>,
) -> u32
    requires process { q.0 < trace.old.recording.processes }
    requires up { is_some (present_at (memories_in process_memories.old.items) q.0) ≡ true }
    requires legal { IsLegalNext trace.old.recording (planned_entry q grown) }
    requires sent { message_at trace.old.recording.past grown.send ≡ Some (message_of grown.own) }
    requires fit { AllMatchEntries trace.old.recording.processes trace.old.recording.past
        (memories_in process_memories.old.items) }
    requires logged { IsLogDelivered trace.old.recording.past (planned_entry q grown)
        (log_after_plan grown (memory_at (memories_in process_memories.old.items) q.0).log) }
    requires ascending { is_ascending (dets_of grown.next_share) ≡ true }
    requires delivered { IsBatchDelivered trace.old.recording.past q grown }
    requires next { grown.next
        ≡ batch_items f (log_after_plan grown (memory_at
        (memories_in process_memories.old.items) q.0).log) }
    requires few { length sends.items ≤ 8 }
    requires spare { 9 ≤ trace.old.spare }
    requires room { 8 ≤ (capacity_at (capacities_in process_memories.old.items) q.0).sent }
    requires received { 1 ≤ (capacity_at (capacities_in process_memories.old.items) q.0).received }
    requires insertions { length grown.piggyback + 1 ≤
        (capacity_at (capacities_in process_memories.old.items) q.0).log }
    requires short { length trace.old.recording.past + 9 ≤ max_entries }
    ensures number { result ≡ length (receivers trace.old.recording.processes sends.items) }
    ensures recording { trace.new.recording
        ≡ with_step trace.old.recording q grown sends.items (memory_at
        (memories_in process_memories.old.items) q.0) }
    ensures formed { IsWellFormed trace.new.recording }
    ensures memories { memories_in process_memories.new.items
        ≡ memories_after_step trace.old.recording q grown sends.items
        (memories_in process_memories.old.items) }
    ensures fit { AllMatchEntries trace.old.recording.processes trace.new.recording.past
        (memories_in process_memories.new.items) }
    ensures bodies { bodies_in process_memories.new.items
        ≡ with_bodies (bodies_in process_memories.old.items) q.0
        (sent_bodies trace.old.recording.processes sends.items) }
{
    let Some(process_memory) = &mut process_memories[usize::from(q.0)] else {
        unreachable!()
    };
    record_delivery(trace, process_memory, q, f, grown, sends)
}

/// Reserves capacity for a delivery to process q, whose memory is an element of the list.
pub(crate) fn reserve_delivery_at(
    process_memories: &mut Vec<Option<ProcessMemory>>,
    q: Pid,
    logged: u32,
) -> Result<(), NoMemory>
    requires { is_some (present_at (memories_in process_memories.old.items) q.0) ≡ true }
    ensures memories { memories_in process_memories.new.items
        ≡ memories_in process_memories.old.items }
    ensures bodies { bodies_in process_memories.new.items ≡ bodies_in process_memories.old.items }
    ensures sent { OnOk result (8 ≤ (capacity_at
        (capacities_in process_memories.new.items) q.0).sent) }
    ensures received { OnOk result (1 ≤ (capacity_at
        (capacities_in process_memories.new.items) q.0).received) }
    ensures log { OnOk result (logged ≤ (capacity_at
        (capacities_in process_memories.new.items) q.0).log) }
{
    let Some(process_memory) = &mut process_memories[usize::from(q.0)] else {
        unreachable!()
    };
    process_memory.reserve_delivery(q, logged)
}
