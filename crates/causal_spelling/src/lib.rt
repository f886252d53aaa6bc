//! The canonical text of arrays of numbers and determinants, JSON without spaces: the lines of traces and recordings
//! consist of it.
#![tactic(auto)]

/// Appending of arrays.
pub mod arrays;

pub use arrays::{push_det, push_dets, push_listed, push_named};
