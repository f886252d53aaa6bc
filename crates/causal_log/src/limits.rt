//! The limit of a log.

/// The greatest number of determinants in a log, with those for which it has capacity: the most that an `indexmap` has.
pub const MAX_LOGGED: u32 = 2_415_919_104;
