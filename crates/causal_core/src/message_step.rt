//! A box steps with a kept message, without a copy of its body.
ghost use Rattle.std.specs.Prelude.{◌≡◌, ◌<◌, length, is_some, true, None};
ghost use Rattle.causal_process.specs.declared.message.Input.TheVariants.{Message as Given};
ghost use Rattle.causal_protocol.specs.declared.request.Request.TheVariants as Requests;
ghost use Rattle.causal_protocol.specs.Memory.{present_at};
ghost use Rattle.causal_protocol.specs.Naming.{message_name};
ghost use Rattle.causal_protocol.specs.Refusals.{request_fault};
ghost use Rattle.causal_core.specs.Inside.Slots.{HasBox, IsStepResult};
ghost use Rattle.causal_core.specs.View.{body_at, body_in};
ghost use Rattle.causal_memory.specs.ProcessMemories.{memory_of, bodies_of, capacity_of};
ghost use Rattle.causal_core.specs.Inside.Memories.{memories_in, memory_at, bodies_in, capacities_in};

use crate::boxes::step_box;
use crate::run_data::RunData;
use causal_memory::outbox::Outbox;
use causal_memory::process_memory::ProcessMemory;
use causal_name::{NoMemory, Pid};
use causal_process::{Body, Input, Outgoing, Process};
use std::alloc::Global;
use std::mem;

/// Steps the box of slot q with a message of `source`. The body is moved into the box's input and back, whatever the
/// box returns.
fn step_with_body(
    slots: &mut Vec<Option<Box<dyn Process + Send>>>,
    q: usize,
    alloc: Global,
    source: Pid,
    body: &mut Body,
) -> Result<Vec<Outgoing>, NoMemory>
    requires { HasBox slots.old.items q }
    ensures given { IsStepResult answers q (Given source body.old) result
        slots.old.items slots.new.items }
    ensures body { body.new ≡ body.old }
{
    let lent = mem::replace(body, Body::empty(alloc));
    let input = Input::Message {
        from: source,
        body: lent,
    };
    let sends = step_box(slots, q, alloc, &input);
    match input {
        Input::Message { body: lent, .. } => *body = lent,
        Input::Begin => unreachable!(),
    }
    sends
}

/// Steps the box of slot q with the message of number `ssn` in an outbox.
fn step_with_sent(
    sent: &mut Outbox,
    slots: &mut Vec<Option<Box<dyn Process + Send>>>,
    q: usize,
    alloc: Global,
    source: Pid,
    ssn: usize,
) -> Result<Vec<Outgoing>, NoMemory>
    requires box_there { HasBox slots.old.items q }
    requires kept { ssn < length sent.old.kept }
    ensures given { IsStepResult answers q (Given source (body_in sent.old.bodies ssn)) result
        slots.old.items slots.new.items }
    ensures sent { sent.new ≡ sent.old }
{
    step_with_body(slots, q, alloc, source, &mut sent.messages[ssn].body)
}

/// Steps the box of slot q with the message of number `ssn` that one process keeps.
fn step_with_kept(
    slots: &mut Vec<Option<Box<dyn Process + Send>>>,
    q: usize,
    alloc: Global,
    source: Pid,
    process_memory: &mut ProcessMemory,
    ssn: usize,
) -> Result<Vec<Outgoing>, NoMemory>
    requires box_there { HasBox slots.old.items q }
    requires kept { ssn < length process_memory.old.sent.kept }
    ensures given { IsStepResult answers q (Given source (body_in
        (bodies_of process_memory.old) ssn)) result
        slots.old.items slots.new.items }
    ensures memory { memory_of process_memory.new ≡ memory_of process_memory.old }
    ensures bodies { bodies_of process_memory.new ≡ bodies_of process_memory.old }
    ensures room { capacity_of process_memory.new ≡ capacity_of process_memory.old }
{
    step_with_sent(&mut process_memory.sent, slots, q, alloc, source, ssn)
}

/// Steps the box of slot q with the named message, whose sender's memory is an element of the list.
pub(crate) fn step_with_message_at(
    slots: &mut Vec<Option<Box<dyn Process + Send>>>,
    q: usize,
    alloc: Global,
    process_memories: &mut Vec<Option<ProcessMemory>>,
    source: Pid,
    ssn: u32,
) -> Result<Vec<Outgoing>, NoMemory>
    requires box_there { HasBox slots.old.items q }
    requires up { is_some (present_at (memories_in process_memories.old.items) source.0) ≡ true }
    requires kept { ssn < length (memory_at
        (memories_in process_memories.old.items) source.0).sent }
    ensures given { IsStepResult answers q
        (Given source (body_at (bodies_in process_memories.old.items)
        (message_name source ssn))) result
        slots.old.items slots.new.items }
    ensures memories { memories_in process_memories.new.items
        ≡ memories_in process_memories.old.items }
    ensures bodies { bodies_in process_memories.new.items ≡ bodies_in process_memories.old.items }
    ensures capacities { capacities_in process_memories.new.items
        ≡ capacities_in process_memories.old.items }
{
    let Some(process_memory) = &mut process_memories[usize::from(source.0)] else {
        unreachable!()
    };
    step_with_kept(slots, q, alloc, source, process_memory, ssn as usize)
}

impl RunData {
    /// Steps q's box with a message that may be delivered to q. Neither the run nor the kept messages change.
    pub(crate) fn step_with_message(
        &mut self,
        slots: &mut Vec<Option<Box<dyn Process + Send>>>,
        alloc: Global,
        q: Pid,
        source: Pid,
        ssn: u32,
    ) -> Result<Vec<Outgoing>, NoMemory>
        requires box_there { HasBox slots.old.items q.0 }
        requires legal { request_fault self.old.run (Requests.Deliver q source ssn) ≡ None }
        ensures given { IsStepResult answers q.0
            (Given source (body_at self.old.bodies (message_name source ssn))) result
            slots.old.items slots.new.items }
        ensures data { self.new ≡ self.old }
    {
        step_with_message_at(
            slots,
            usize::from(q.0),
            alloc,
            &mut self.process_memories,
            source,
            ssn,
        )
    }
}
