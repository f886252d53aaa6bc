//! What the C libraries share: statuses, writing into a caller's buffer, structs of nixu.h, and a box as its pointer.
#![tactic(auto)]

/// Writing into a caller's buffer.
pub mod buffer;
/// Determinants in C's layout.
pub mod c_determinant;
/// What a handle does.
pub mod content_owner;
/// Sets of processes, as an array with a byte for each.
pub mod flags;
/// A box as its pointer.
pub mod owned;
/// The statuses that calls return.
pub mod status;
