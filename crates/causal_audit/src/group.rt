//! Finds the earliest breach of a group of deliveries by one walk over the entries. A delivery's place is its index in
//! the group.

/// The buffers of a walk, allocated once for all groups.
pub mod buffers;
/// Where each determinant of a group has copies: in which logs, and whether in stable storage.
pub mod copies;
/// For each process, the determinants of a group that it is known to hold.
pub mod held_places;
/// The check whether a delivery of a group has an orphan at one instant.
pub mod orphan_check;
/// Which entries of a walk mention the determinants of a group.
pub mod marks;
/// The order in which deliveries are followed: by the instant at which they close.
pub mod walk_order;
/// The positions of the deliveries of a group.
pub mod group_positions;
/// For each process the deliveries on which it depends, and for each send those that reach it.
pub mod reach;
/// The sets of the entries of a walk. Many are empty and many are equal.
pub mod rows;
/// What a walk reads of a recorded run up to an instant, and the deliveries that it follows.
pub mod walk_input;
/// Which deliveries of a group an entry may newly orphan.
pub mod suspects;
/// The earliest breach of a group of deliveries, by one walk over the entries.
pub mod walk;

use causal_holders::ByteSet;

/// Some deliveries of a group, by their places in it.
pub type Places = ByteSet;
