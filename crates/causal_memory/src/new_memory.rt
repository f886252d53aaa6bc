//! The memory of a process that begins.
ghost use Rattle.std.specs.Prelude.{◌≡◌, ◌≤◌, [], IfOk};
ghost use Rattle.causal_protocol.specs.Memory.{new_memory};
ghost use Rattle.causal_memory.specs.ProcessMemories.{memory_of, bodies_of};

use crate::outbox::Outbox;
use crate::process_memory::ProcessMemory;
use causal_log::{Batch, Log};
use causal_name::NoMemory;
use std::alloc::Global;

/// Returns the memory of a process that begins with this log and whose first sends carry this batch. It has sent and
/// received nothing, and has capacity for the sends of two steps.
pub fn new_process_memory(alloc: Global, log: Log, batch: Batch) -> Result<ProcessMemory, NoMemory>
    ensures memory { IfOk result (λ process_memory. memory_of process_memory ≡ new_memory log.map) }
    ensures bodies { IfOk result (λ process_memory. bodies_of process_memory ≡ []) }
    ensures batch { IfOk result (λ process_memory. process_memory.sent.batch ≡ batch) }
    ensures room { IfOk result (λ process_memory. 8 ≤ process_memory.sent.spare) }
{
    let sent = Outbox::with_first_batch(alloc, batch)?;
    let received = Vec::new(alloc);
    Ok(ProcessMemory {
        log,
        sent,
        received,
    })
}
