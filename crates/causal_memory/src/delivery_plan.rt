//! The delivery plan, made before the box steps.
use causal_log::Batch;
use causal_name::Det;
use causal_trace::entry::Dets;

/// Everything that a delivery must allocate, made before the box steps.
#[derive(Drop)]
pub struct DeliveryPlan {
    /// The delivery's determinant.
    pub own: Det,
    /// The position of the message's send entry.
    pub send: u32,
    /// The determinants that the deliver entry lists.
    pub listed: Dets,
    /// The batch that the message carries, shared with its sender.
    pub piggyback: Batch,
    /// The batch that the next sends carry; the log keeps it.
    pub next: Batch,
    /// The same batch once more, shared, for these sends.
    pub next_share: Batch,
}
