//! What the entry does by which the instant of a verdict fails.

/// What the last entry before an instant does, by which the instant fails.
#[derive(Clone, Copy)]
pub enum Cause {
    /// The orphan delivers the message that the entry at the position `send` sends. So it comes to depend on the
    /// delivery, and its log lacks the determinant.
    Delivery { process: u8, send: u32 },
    /// The process restarts, and does not list the determinant, which another process holds.
    Restart { process: u8 },
    /// The process forgets the determinant, which it held and which is not stable.
    Forgetting { process: u8 },
    /// The process crashes; then more than f processes are down.
    Crash { process: u8 },
}
