//! Limits on the length of a core's run.

/// The greatest number of entries.
pub const MAX_RUN_ENTRIES: u32 = 65_536;

/// The greatest number of determinants that the entries list in total.
pub const MAX_RUN_LISTED: usize = 1_048_576;
