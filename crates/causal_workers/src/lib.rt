//! The audit of a recorded run, divided among workers.
//!
//! The workers prepare the run. The groups of deliveries that must be followed are divided into consecutive shares, one
//! for each worker. The earliest breach of all shares decides, so the verdict is the same for every number
//! of workers.
//!
//! Begin at [`audit`] for a trace, or [`audit_text`] for its text; [`judge_stream`] returns as soon as an audit
//! while it reads does not accept, and [`Looks`] are when it audits. All take a [`Gate`]; [`OpenGate`] blocks no worker. [`verdict_line`] prints their
//! results.
#![tactic(auto)]

/// The audit of a trace by several workers.
pub mod parallel_audit;
/// The verdict on a text while it is read.
pub mod streaming;
/// When a trace is audited while it is read.
pub mod looks;
/// The gate that each worker passes before it begins.
pub mod gate;
/// The audit of a text or a trace, with the counts of the trace.
pub mod judgement;
/// A trace prepared by several workers.
mod preparation;
/// The work of one worker.
mod share;

pub use causal_audit::{Judged, verdict_line};
pub use gate::{Gate, OpenGate};
pub use judgement::{AuditTextFault, audit_text, judge_trace};
pub use looks::Looks;
pub use parallel_audit::{AuditFault, audit};
pub use streaming::{StreamVerdict, VerdictError, judge_stream};
