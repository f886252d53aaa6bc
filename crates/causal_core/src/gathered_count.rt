//! The number of determinants that a restart lists, counted without allocation.
ghost use Rattle.std.specs.Prelude.{◌≡◌, ◌≤◌, ◌<◌, ◌^◌, length, is_some, false};
ghost use Rattle.std.specs.Option.{option_map, option_map_or};
ghost use Rattle.std.specs.FinMap as fin;
ghost use Rattle.causal_log.specs.Stores.{count_in};
ghost use Rattle.causal_memory.specs.ProcessMemories.{memory_of};
ghost use Rattle.causal_core.specs.Inside.Memories.{memories_in};
ghost use Rattle.causal_core.specs.Inside.Gathers.{count_unseen, is_logged, is_unseen, IsGatheredCount};
ghost use Rattle.causal_trace.specs.Limits.{max_entries, max_processes};

use causal_log::{Log, Stable};
use causal_memory::process_memory::ProcessMemory;
use causal_name::Det;

/// Returns whether the process is up and logs the determinant.
fn logs(process_memory: &Option<ProcessMemory>, det: Det) -> bool
    ensures { result
        ≡ option_map_or (λ m. is_some (fin.get m.log det))
        (option_map memory_of process_memory.now) false }
{
    match process_memory {
        Some(process_memory) => process_memory.log.known(det).is_some(),
        None => false,
    }
}

/// Returns whether one of these processes logs the determinant.
fn is_logged(process_memories: &[Option<ProcessMemory>], det: Det) -> bool
    ensures { result ≡ is_logged (memories_in process_memories.now) det }
{
    for process_memory in process_memories {
        if logs(process_memory, det) {
            return true;
        }
    }
    false
}

/// Returns whether neither the store nor the log of one of these processes contains the determinant.
fn is_unseen<S: Stable>(process_memories: &[Option<ProcessMemory>], store: &S, det: Det) -> bool
    ensures { result ≡ is_unseen (S.contents store.now) (memories_in process_memories.now) det }
{
    !store.contains(det) && !is_logged(process_memories, det)
}

/// Returns the number of determinants of a log that neither the store nor the log of one of these processes contains.
fn count_unseen<S: Stable>(
    process_memories: &[Option<ProcessMemory>],
    store: &S,
    log: &Log,
) -> usize
    ensures value { result ≡ count_unseen (S.contents store.now)
        (memories_in process_memories.now) log.now.map }
    ensures few { result < 2 ^ 32 }
{
    let entries = log.entries_unordered();
    let mut count = 0;
    for (det, _) in entries {
        if is_unseen(process_memories, store, *det) {
            count += 1;
        }
    }
    count
}

/// Returns the number of determinants that the store contains or an up process logs.
pub(crate) fn count_gathered<S: Stable>(
    process_memories: &[Option<ProcessMemory>],
    store: &S,
) -> usize
    requires processes { length process_memories.now ≤ max_processes }
    requires few { count_in (S.contents store.now) ≤ max_entries }
    ensures { IsGatheredCount result (memories_in process_memories.now) (S.contents store.now) }
{
    let mut count = store.len() as usize;
    for (i, process_memory) in process_memories.iter().enumerate() {
        if let Some(process_memory) = process_memory {
            count += count_unseen(&process_memories[..i], store, &process_memory.log);
        }
    }
    count
}
