//! The event of a trace entry.

/// The event of an entry; events are sends and deliveries.
#[derive(Clone, Copy)]
pub enum ChainEvent {
    /// `from` sends its message number `ssn` to `to`.
    Send { from: u8, to: u8, ssn: u32 },
    /// `to` delivers the message of the entry at the position `send`.
    Delivery { to: u8, send: u32 },
    /// The entry is not an event, or does not exist.
    Other,
}
