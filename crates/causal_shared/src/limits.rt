//! The limits of a shared runtime.

/// The maximum number of items in a history.
pub const MAX_ITEMS: usize = 1_048_576;

/// The maximum number of seats.
pub const MAX_SEATS: u32 = 64;
