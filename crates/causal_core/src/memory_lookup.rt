//! Look-ups in the memories of the processes.
ghost use Rattle.std.specs.Prelude.{◌≡◌, is_none, count_by};
ghost use Rattle.std.specs.Option.{option_map, option_copied};
ghost use Rattle.causal_protocol.specs.Memory.{present_at};
ghost use Rattle.causal_protocol.specs.Naming.{sent_message_for, message_name};
ghost use Rattle.causal_memory.specs.ProcessMemories.{memory_of};
ghost use Rattle.causal_core.specs.Inside.Memories.{memories_in};
ghost use Rattle.causal_memory.specs.Outboxes.{kept_message_of};

use causal_memory::outbox::Envelope;
use causal_memory::process_memory::ProcessMemory;
use causal_name::Pid;

/// Returns the number of down processes.
pub(crate) fn count_down(process_memories: &[Option<ProcessMemory>]) -> usize
    ensures { result ≡ count_by is_none (memories_in process_memories.now) }
{
    let mut down = 0;
    for process_memory in process_memories {
        if process_memory.is_none() {
            down += 1;
        }
    }
    down
}

/// Returns the memory of p, if p is up.
pub(crate) fn process_memory_at(
    process_memories: &[Option<ProcessMemory>],
    p: Pid,
) -> Option<&ProcessMemory>
    ensures { option_map memory_of (option_copied result)
        ≡ present_at (memories_in process_memories.now) p.0 }
{
    process_memories.get(usize::from(p.0))?.as_ref()
}

/// Returns the named message, if its sender keeps it and it is addressed to q.
#[tactic(auto, using(crate::proofs::Cells::kept_from))]
pub(crate) fn kept_message<'a>(
    process_memories: &'a [Option<ProcessMemory>],
    q: Pid,
    source: Pid,
    ssn: u32,
) -> Option<Envelope<'a>>
    ensures { option_map kept_message_of result
        ≡ sent_message_for (memories_in process_memories.now) q (message_name source ssn) }
{
    let Some(sender) = process_memory_at(process_memories, source) else {
        return None;
    };
    let Some(message) = sender.sent.get(ssn as usize) else {
        return None;
    };
    if message.to == q { Some(message) } else { None }
}
