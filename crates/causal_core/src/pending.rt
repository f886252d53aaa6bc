//! The messages that a process may deliver.
ghost use Rattle.std.specs.Prelude.{◌≡◌, ◌<◌, ◌≤◌, ◌∷◌, ◌++◌, [], ℕ, length, IfOk, IfErr, OnOk, None, if◌then◌else◌};
ghost use Rattle.std.specs.Option.{option_map, option_map_or};
ghost use Rattle.causal_protocol.specs.Memory.{present_at};
ghost use Rattle.causal_protocol.specs.Run.{memories_of};
ghost use Rattle.causal_protocol.specs.Steps.{reason_of};
ghost use Rattle.causal_memory.specs.ProcessMemories.{memory_of};
ghost use Rattle.causal_core.specs.Inside.Memories.{memories_in};
ghost use Rattle.causal_core.specs.Inside.MemoryInvariant.{SameReceived};
ghost use Rattle.causal_core.specs.Inside.Listings.{pending_of};
ghost use Rattle.causal_core.specs.Pendings.{is_pending, pending_in, pending_fault};
ghost use Rattle.causal_core.specs.CoreView.{core_run};
ghost use Rattle.causal_trace.specs.Limits.{max_entries, max_processes};

use crate::memory_lookup::{kept_message, process_memory_at};
use crate::run_data::{RunData, is_process};
use crate::runtime::Core;
use causal_log::Stable;
use causal_memory::process_memory::ProcessMemory;
use causal_name::{MsgName, NoMemory, Pid};
use causal_protocol::request::CoreFault;
use causal_trace::trace::Trace;
use std::alloc::Global;

/// Returns whether a message is kept for q, which must be up, and q has not received it.
fn is_pending(
    trace: &Trace,
    process_memories: &[Option<ProcessMemory>],
    q: Pid,
    name: MsgName,
) -> bool
    requires { SameReceived trace.now.recording.past (memories_in process_memories.now) q }
    ensures { result ≡ is_pending (memories_in process_memories.now) q name }
{
    kept_message(process_memories, q, name.source, name.ssn).is_some()
        && !trace.has_delivered(q, name)
}

/// Appends a name if it is wanted.
fn push_name_if(names: &mut Vec<MsgName>, name: MsgName, wanted: bool) -> Result<(), NoMemory>
    ensures { OnOk result
        (names.new.items ≡ names.old.items ++ (if wanted then name ∷ [] else [])) }
{
    if wanted {
        names.push(name)?;
    }
    Ok(())
}

/// Returns the number of messages that a process has sent; 0 if it is down.
fn count_sent(process_memory: &Option<ProcessMemory>) -> u32
    requires { option_map_or (λ m. length m.sent)
        (option_map memory_of process_memory.now) 0 ≤ max_entries }
    ensures { result ≡ option_map_or (λ m. length m.sent)
        (option_map memory_of process_memory.now) 0 }
{
    match process_memory {
        Some(process_memory) => process_memory.sent.len() as u32,
        None => 0,
    }
}

/// Appends what is pending for q among the first `count` messages of a sender.
fn list_pending(
    names: &mut Vec<MsgName>,
    trace: &Trace,
    process_memories: &[Option<ProcessMemory>],
    q: Pid,
    source: Pid,
    count: u32,
) -> Result<(), NoMemory>
    requires { SameReceived trace.now.recording.past (memories_in process_memories.now) q }
    ensures { OnOk result
        (names.new.items ≡ names.old.items ++ pending_of
        (memories_in process_memories.now) q source count) }
{
    for ssn in 0..count {
        let name = MsgName { source, ssn };
        push_name_if(names, name, is_pending(trace, process_memories, q, name))?;
    }
    Ok(())
}

/// Returns what is pending for q, which must be up.
fn pending_among(
    alloc: Global,
    trace: &Trace,
    process_memories: &[Option<ProcessMemory>],
    q: Pid,
) -> Result<Vec<MsgName>, NoMemory>
    requires received { SameReceived trace.now.recording.past (memories_in process_memories.now) q }
    requires few { length process_memories.now ≤ max_processes }
    requires short { (p : ℕ)
        → option_map_or (λ m. length m.sent) (present_at
        (memories_in process_memories.now) p) 0 ≤ max_entries }
    ensures { IfOk result (λ names. names.items ≡ pending_in (memories_in process_memories.now) q) }
{
    let mut names = Vec::new(alloc);
    for (p, sender) in process_memories.iter().enumerate() {
        let count = count_sent(sender);
        list_pending(&mut names, trace, process_memories, q, Pid(p as u8), count)?;
    }
    Ok(names)
}

impl RunData {
    /// Returns what is pending for q.
    pub(crate) fn pending(&self, alloc: Global, q: Pid) -> Result<Vec<MsgName>, CoreFault>
        ensures ok { IfOk result (λ names. names.items ≡ pending_in (memories_of self.now.run) q) }
        ensures legal { OnOk result (pending_fault self.now.run q ≡ None) }
        ensures refused { IfErr result (λ fault. pending_fault self.now.run q ≡ reason_of fault) }
    {
        if !is_process(q, self.trace.processes()) {
            return Err(CoreFault::NoProcess);
        }
        let process_memories = self.process_memories.as_slice();
        if process_memory_at(process_memories, q).is_none() {
            return Err(CoreFault::Down);
        }
        match pending_among(alloc, &self.trace, process_memories, q) {
            Ok(names) => Ok(names),
            Err(_) => Err(CoreFault::NoMemory),
        }
    }
}

impl<S: Stable> Core<S> {
    /// Returns the messages that up processes keep for q and that q's current lane has not received, by sender and
    /// number. They include messages that q may not deliver yet because another one is named for its next delivery, and
    /// messages that are named for a later delivery of q. If nothing is named for the next delivery, q may deliver one
    /// of the latter now; the later delivery then can never be made.
    ///
    /// It takes O(kept messages) time, and for each message kept for q one look-up in the trace.
    ///
    /// # Errors
    /// The first of `NoProcess` and `Down`; if neither applies, `NoMemory` if allocation failed.
    pub fn pending(&self, q: Pid) -> Result<Vec<MsgName>, CoreFault>
        requires { q.0 < 256 }
        ensures ok { IfOk result
            (λ names. names.items ≡ pending_in (memories_of (core_run self.now)) q) }
        ensures legal { OnOk result (pending_fault (core_run self.now) q ≡ None) }
        ensures refused { IfErr result
            (λ fault. pending_fault (core_run self.now) q ≡ reason_of fault) }
    {
        self.run_data.pending(self.alloc, q)
    }
}
