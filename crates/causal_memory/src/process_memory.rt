//! The volatile memory of an up process, and how it changes.
ghost use Rattle.std.specs.Prelude.{◌≡◌, ◌≤◌, ◌+◌, ◌++◌, ◌∷◌, [], length, OnOk};
ghost use Rattle.causal_log.specs.Logs.{after_drop_stable, batch_items};
ghost use Rattle.causal_protocol.specs.Memory.{log_after_delivery, with_log, with_received, with_sent_message};
ghost use Rattle.causal_memory.specs.ProcessMemories.{memory_of, bodies_of, capacity_of, with_stable};

use crate::outbox::Outbox;
use causal_log::{Batch, Log};
use causal_name::{Det, MsgName, NoMemory, Pid};
use causal_process::Body;

/// The volatile memory of an up process: its log, and what its current lane (incarnation) has sent and received, in
/// order.
#[derive(Drop)]
pub struct ProcessMemory {
    pub log: Log,
    pub sent: Outbox,
    pub received: Vec<MsgName>,
}

impl ProcessMemory {
    /// Adds a delivery with this determinant, of a message with this piggyback, to the log and to what was received, in
    /// reserved capacity. The next messages carry the batch `next`.
    pub fn receive(&mut self, own: Det, piggyback: &Batch, f: u16, next: Batch)
        requires next { next ≡ batch_items f (log_after_delivery piggyback.now own
            (memory_of self.old).log) }
        requires room { 1 ≤ (capacity_of self.old).received }
        requires insertions { length piggyback.now + 1 ≤ (capacity_of self.old).log }
        ensures memory { memory_of self.new ≡ with_received piggyback.now own (memory_of self.old) }
        ensures bodies { bodies_of self.new ≡ bodies_of self.old }
        ensures room { (capacity_of self.new).sent ≡ (capacity_of self.old).sent }
        ensures sent { self.new.sent ≡ self.old.sent }
    {
        self.log
            .apply_delivery(piggyback, own, own.source, own.dest);
        self.log.cache_batch(f, next);
        self.received.push_reserved(own.message());
    }

    /// Adds a delivery as `receive` does, and leaves what the next messages carry to be chosen when one is sent. Its cost
    /// does not depend on how much that is.
    pub fn learn_delivery(&mut self, own: Det, piggyback: &Batch)
        requires room { 1 ≤ (capacity_of self.old).received }
        requires insertions { length piggyback.now + 1 ≤ (capacity_of self.old).log }
        ensures memory { memory_of self.new ≡ with_received piggyback.now own (memory_of self.old) }
        ensures bodies { bodies_of self.new ≡ bodies_of self.old }
        ensures sent { self.new.sent ≡ self.old.sent }
    {
        let Ok(()) = self.log.absorb(piggyback, own.source, own.dest) else {
            unreachable!()
        };
        let Ok(()) = self.log.add_own(own, own.dest) else {
            unreachable!()
        };
        self.received.push_reserved(own.message());
    }

    /// Keeps a message of the current step, in reserved capacity.
    pub fn keep_message(&mut self, to: Pid, send: u32, body: Body)
        requires { 1 ≤ self.old.sent.spare }
        ensures memory { memory_of self.new
            ≡ with_sent_message to send self.old.sent.batch (memory_of self.old) }
        ensures bodies { bodies_of self.new ≡ bodies_of self.old ++ body ∷ [] }
        ensures batch { self.new.sent.batch ≡ self.old.sent.batch }
        ensures room { self.old.sent.spare ≤ self.new.sent.spare + 1 }
        ensures log { self.new.log ≡ self.old.log }
        ensures received { self.new.received ≡ self.old.received }
    {
        self.sent.push(to, send, body);
    }

    /// Marks a determinant as stable in the log.
    pub fn mark_stable(&mut self, det: Det)
        ensures memory { memory_of self.new ≡ with_stable det (memory_of self.old) }
        ensures bodies { bodies_of self.new ≡ bodies_of self.old }
    {
        self.log.mark_stable(det);
    }

    /// Removes the determinants known to be stable from the log.
    pub fn drop_stable(&mut self)
        ensures memory { memory_of self.new
            ≡ with_log after_drop_stable (memory_of self.old) }
        ensures bodies { bodies_of self.new ≡ bodies_of self.old }
    {
        self.log.drop_stable();
    }

    /// Reserves more capacity for messages than a delivery needs, once. After how many deliveries, and how much, depends on
    /// the process number. Capacities double from then on, so they do not all grow at the same time, even if all processes
    /// have delivered equally many messages. The log's growth depends on its seed in the same way.
    fn reserve_staggered(&mut self, q: Pid) -> Result<(), NoMemory>
        ensures memory { memory_of self.new ≡ memory_of self.old }
        ensures bodies { bodies_of self.new ≡ bodies_of self.old }
    {
        let number = usize::from(q.0);
        let len = self.received.len();
        if len != 1 + number % 8 {
            return Ok(());
        }
        // capacities from 22 to 43, so that doubled ones begin where these end
        let room = 22 + number * 7 % 22 - len;
        self.received.reserve_exact(room)?;
        Ok(self.sent.reserve_exact(room)?)
    }

    /// Reserves capacity for a delivery that logs the given number of determinants, and for its sends.
    pub fn reserve_delivery(&mut self, q: Pid, logged: u32) -> Result<(), NoMemory>
        ensures memory { memory_of self.new ≡ memory_of self.old }
        ensures bodies { bodies_of self.new ≡ bodies_of self.old }
        ensures sent { OnOk result (8 ≤ (capacity_of self.new).sent) }
        ensures received { OnOk result (1 ≤ (capacity_of self.new).received) }
        ensures log { OnOk result (logged ≤ (capacity_of self.new).log) }
    {
        self.reserve_staggered(q)?;
        self.sent.reserve(8)?;
        self.received.reserve(1)?;
        self.log.reserve(logged)?;
        Ok(())
    }
}
