//! The facts that explain a verdict on a recorded run, or say that a recovery strayed: a value for each. Begin at
//! [`Fact`].
#![tactic(auto)]

/// What the entry does by which the instant of a verdict fails.
pub mod cause;
/// The event of a trace entry.
pub mod event;
/// The facts that explain a verdict, or say that a recovery strayed.
pub mod fact;
/// How an answer is printed.
pub mod form;
/// What is true of a process at an instant.
pub mod process_fact;
/// The value that names a slot with two different survivors.
pub mod stray;

pub use cause::Cause;
pub use event::ChainEvent;
pub use fact::{ClosestFailure, Fact};
pub use form::Form;
pub use process_fact::{DownProcess, Holding, Loss, LostBy};
pub use stray::Stray;
