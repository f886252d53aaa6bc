//! The space-time diagram of a recorded run in SVG 1.1: a line for each process from left to right, marks for its
//! events, and arrows for messages (Lamport 1978).
//!
//! Begin at [`picture_of`]; a [`Focus`] is what is shown besides the run, a [`Selection`] which part of it.
#![tactic(auto)]

/// The caption: the verdict and the bound f.
mod caption;
/// The processes that are down at the start of a range.
mod down;
/// What a picture shows, as a list of parts.
pub mod drawing;
/// The element of each part.
mod element;
/// The SVG text of an event.
mod event;
/// What is shown besides the run: an instant, a crash set, a chain, an orphan.
pub mod focus;
/// The parts around the marks.
mod frame;
/// Coordinates in a picture.
mod layout;
/// The legend below the picture.
mod legend;
/// The events of the shown entries.
pub mod marks;
/// The parts over the events.
mod overlay;
/// The parts of a picture.
pub mod part;
/// The whole text of a picture.
pub mod picture;
/// Messages that are sent again.
mod resent;
/// The processes at the instant.
mod roles;
/// The processes that a picture shows.
pub mod rows;
/// Which part of a run a picture shows.
pub mod selection;
/// Glyphs, lines and labels.
mod glyphs;
/// The entries that a picture shows.
pub mod entry_range;
/// The title of each mark.
mod titles;
/// Fixed words in the picture.
mod words;

pub use focus::{Band, Focus, Orphan};
pub use picture::picture_of;
pub use selection::Selection;
