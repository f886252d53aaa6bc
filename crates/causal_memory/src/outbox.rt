//! The outbox: the messages that a process has sent.
ghost use Rattle.std.specs.Prelude.{◌≡◌, ◌≤◌, ◌-◌, ◌+◌, ◌++◌, ◌∷◌, [], ◌==◌, length, false, IfOk, OnOk, slice_get};
ghost use Rattle.std.specs.Option.{option_map, option_map_or};
ghost use Rattle.causal_memory.specs.Outboxes.{kept_message_of};

use causal_log::Batch;
use causal_name::{NoMemory, Pid};
use causal_process::Body;
use std::alloc::Global;
use std::marker::Model;

/// A message that its sender keeps.
#[derive(Drop)]
pub struct Message {
    /// The receiver.
    pub to: Pid,
    /// The position of its send entry.
    pub send: u32,
    /// The index of the batch that it carries.
    pub step: usize,
    pub body: Body,
}

/// A kept message without its body.
#[derive(Clone, Copy)]
pub struct Envelope<'a> {
    pub to: Pid,
    pub send: u32,
    pub batch: &'a Batch,
}

/// The outbox of a process: the messages that its current lane has sent, in order, and the batches that they carry. All
/// messages of a step carry the same batch.
#[derive(Drop)]
pub struct Outbox {
    pub messages: Vec<Message>,
    pub batches: Vec<Batch>,
    /// The number of batches that messages carry; these are the first ones. One more batch, if there is one, is for a
    /// step that has sent nothing yet.
    pub used_batches: usize,
}

impl Model for Outbox {
    ghost use Rattle.std.specs.Prelude.{◌-◌, vec_capacity, vec_len};
    ghost use Rattle.causal_memory.specs.Outboxes.{coded_outbox, outbox_from, CarryTheFirst, OutboxState};

    ghost Value = { OutboxState };

    ghost coded = { coded_outbox };

    ghost view = { λ s. outbox_from s.messages.items s.batches.items (vec_capacity s.messages - vec_len s.messages) (vec_capacity s.batches - vec_len s.batches) };

    ghost invariant = { λ s. CarryTheFirst s.used_batches s.batches.items s.messages.items };
}

/// Returns whether the last of these batches is empty.
fn ends_empty(batches: &[Batch]) -> bool
    ensures { result ≡ option_map_or (λ b. length b == 0)
        (slice_get batches.now (length batches.now - 1)) false }
{
    match batches.last() {
        Some(batch) => batch.as_slice().is_empty(),
        None => false,
    }
}

impl Outbox {
    /// Returns an empty outbox. It allocates nothing.
    pub fn new(alloc: Global) -> Outbox
        ensures kept { result.kept ≡ [] }
        ensures bodies { result.bodies ≡ [] }
    {
        Outbox {
            messages: Vec::new(alloc),
            batches: Vec::new(alloc),
            used_batches: 0,
        }
    }

    /// Returns an empty outbox with capacity for the messages of two steps; the first step carries this batch.
    pub fn with_first_batch(alloc: Global, batch: Batch) -> Result<Outbox, NoMemory>
        ensures kept { IfOk result (λ sent. sent.kept ≡ []) }
        ensures bodies { IfOk result (λ sent. sent.bodies ≡ []) }
        ensures batch { IfOk result (λ sent. sent.batch ≡ batch) }
        ensures spare { IfOk result (λ sent. 16 ≤ sent.spare) }
    {
        let messages = Vec::with_capacity(alloc, 16)?;
        let mut batches = Vec::with_capacity(alloc, 2)?;
        batches.push_reserved(batch);
        Ok(Outbox {
            messages,
            batches,
            used_batches: 0,
        })
    }

    /// Returns the number of messages.
    pub fn len(&self) -> usize
        ensures { result ≡ length self.now.kept }
    {
        self.messages.len()
    }

    /// Reserves capacity for `more` messages of the next step.
    pub fn reserve(&mut self, more: usize) -> Result<(), NoMemory>
        ensures kept { self.new.kept ≡ self.old.kept }
        ensures bodies { self.new.bodies ≡ self.old.bodies }
        ensures room { OnOk result (more ≤ self.new.next_spare) }
    {
        self.messages.reserve(more)?;
        self.batches.reserve(1)?;
        Ok(())
    }

    /// Reserves capacity for exactly `more` messages, each in a separate step.
    pub fn reserve_exact(&mut self, more: usize) -> Result<(), NoMemory>
        ensures kept { self.new.kept ≡ self.old.kept }
        ensures bodies { self.new.bodies ≡ self.old.bodies }
    {
        self.messages.reserve_exact(more)?;
        self.batches.reserve_exact(more)?;
        Ok(())
    }

    /// Returns the message of this number.
    pub fn get(&self, ssn: usize) -> Option<Envelope<'_>>
        ensures { option_map kept_message_of result ≡ slice_get self.now.kept ssn }
    {
        let Some(message) = self.messages.get(ssn) else {
            return None;
        };
        Some(Envelope {
            to: message.to,
            send: message.send,
            batch: &self.batches[message.step],
        })
    }

    /// Sets the batch that the next messages carry, in reserved capacity. It replaces a batch that no message carries,
    /// so no batch is kept for a step that sent nothing. If the last batch and this one are both empty, the last one
    /// stays.
    pub fn begin_step(&mut self, batch: Batch)
        requires { 1 ≤ self.old.next_spare }
        ensures kept { self.new.kept ≡ self.old.kept }
        ensures bodies { self.new.bodies ≡ self.old.bodies }
        ensures batch { self.new.batch ≡ batch }
        ensures spare { self.old.next_spare ≤ self.new.spare }
    {
        if batch.as_slice().is_empty() && ends_empty(self.batches.as_slice()) {
            return;
        }
        self.batches.truncate(self.used_batches);
        self.batches.push_reserved(batch);
    }

    /// Adds a message of the current step, in reserved capacity.
    pub fn push(&mut self, to: Pid, send: u32, body: Body)
        requires { 1 ≤ self.old.spare }
        ensures kept { self.new.kept
            ≡ self.old.kept ++ record { to = to; send = send; batch = self.old.batch } ∷ [] }
        ensures bodies { self.new.bodies ≡ self.old.bodies ++ body ∷ [] }
        ensures batch { self.new.batch ≡ self.old.batch }
        ensures spare { self.old.spare ≤ self.new.spare + 1 }
    {
        let step = self.batches.len() - 1;
        self.messages.push_reserved(Message {
            to,
            send,
            step,
            body,
        });
        self.used_batches = self.batches.len();
    }
}
