//! The auditor of recorded runs as a static library, for C and for languages that call C.
//!
//! Each exported function is declared in `include/nixu.h`, with the same contract in C's terms. No function has static
//! state, prints, aborts, starts a thread or waits; so each may be called from any thread and several at once. No
//! function keeps a pointer from its arguments. All memory is freed before the call returns, except what an open handle
//! owns.
//!
//! Begin at [`audit::nixu_audit`]. [`reader::nixu_reader_feed`] reads a text in pieces, [`recorder::nixu_trace_push`]
//! adds entries without a text.
#![tactic(auto)]

/// Audits of texts.
pub mod audit;
/// The sentences for the numbers of errors.
pub mod faults;
/// Handles and what they own.
pub mod handle;
/// Audits of texts and traces on the calling thread.
mod judgement;
/// The content of an open handle.
pub mod handle_content;
/// The limits of a trace.
mod limits;
/// The numbers of errors.
mod numbers;
/// Readers of texts that arrive in pieces.
pub mod reader;
/// Traces that are built entry by entry.
pub mod recorder;
/// Entries in C's layout.
pub mod c_entry;
/// Verdicts in C's layout.
pub mod c_verdict;
/// The first stray of a run, in C's layout.
pub mod c_stray;
/// Whether the recoveries of a run follow what survives.
pub mod replays;
/// Facts that explain a verdict, in C's layout.
pub mod c_fact;
/// Verdicts with the facts that explain them.
pub mod explanations;
/// Recordings in C's layout.
pub mod c_recording;
/// The first error of recordings, in C's layout.
pub mod c_merge_fault;
/// The recording in which a line begins.
pub mod places;
/// Merging of recordings.
pub mod merging;
/// The bytes that the program prints.
pub mod views;
