//! The making of a delivery plan.
ghost use Rattle.std.specs.Prelude.{IfOk};
ghost use Rattle.causal_memory.specs.DeliveryPlans.{IsPlanFor};
ghost use Rattle.causal_memory.specs.ProcessMemories.{memory_of};
ghost use Rattle.causal_memory.specs.Outboxes.{kept_message_of};

use crate::delivery_list::listed_dets;
use crate::delivery_plan::DeliveryPlan;
use crate::outbox::Envelope;
use crate::process_memory::ProcessMemory;
use causal_name::{Det, NoMemory};
use std::alloc::Global;

/// Returns the plan of the delivery of this message as the determinant `own`.
pub fn plan_delivery(
    alloc: Global,
    f: u16,
    own: Det,
    process_memory: &ProcessMemory,
    message: Envelope<'_>,
) -> Result<DeliveryPlan, NoMemory>
    ensures { IfOk result (λ g. IsPlanFor f own (memory_of process_memory.now)
        (kept_message_of message.entry) g) }
{
    let listed = listed_dets(alloc, own, message.batch)?;
    let piggyback = message.batch.share()?;
    let next = process_memory
        .log
        .choose_after_delivery(alloc, &piggyback, own, own.source, own.dest, f)?;
    let next_share = next.share()?;
    Ok(DeliveryPlan {
        own,
        send: message.send,
        listed,
        piggyback,
        next,
        next_share,
    })
}
