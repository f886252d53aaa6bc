//! The statuses that calls return.

/// Success: the result is written.
pub const OK: u32 = 0;

/// The text or the entry is invalid, or a node refuses: the first error is written.
pub const FAULT: u32 = 1;

/// Allocation failed.
pub const NO_MEMORY: u32 = 2;

/// The call itself is invalid; its documentation lists the cases.
pub const MISUSED: u32 = 3;

/// Nothing is open.
pub const CLOSED: u32 = 4;
