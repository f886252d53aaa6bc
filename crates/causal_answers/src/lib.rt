//! Answers to questions on a recorded run, as values: what was found, with the facts that explain it, or the bounds f for
//! which each verdict holds. They are printed as lines, with the lines of the trace's text, or as JSON.
//!
//! Begin at [`Answer`] and [`answer_text`]. [`facts_text`] formats a line for each fact.
#![tactic(auto)]

/// The bounds f for which a verdict holds, as lines and as JSON objects.
pub mod bounds;
/// The fields of facts.
mod fields;
/// What an answer finds, and its line.
pub mod finding;
/// The fields of answers, as they are printed.
mod field_printing;
/// The lines of facts.
pub mod lines;
/// The members of findings in a JSON object.
mod members;
/// The line of an entry in its trace's text.
mod place;
/// Answers to questions on a trace, as lines and as JSON.
pub mod answer;
/// The sentences of facts, for people.
mod sentences;

pub use answer::{Answer, answer_text};
pub use bounds::Bounds;
pub use finding::Finding;
pub use lines::{fact_head, fact_sentence, facts_text};
