//! Tests of recorded runs, of the auditor and of the runtime, in a crate of their own: proving these tests does not
//! prove the tested crates again.
#![tactic(auto)]

/// The calls of a clock that allocate, on a small run and at the limit on lanes.
#[cfg(test)]
mod clocks;
/// Cores: recovery, failures of allocation and of stores, and the limit on entries.
#[cfg(test)]
mod cores;
/// Processes for tests: one that sends as many messages as it may, and one that returns `NoMemory` once.
#[cfg(test)]
mod doubles;
/// Endpoints: bytes worked by hand, and a recovery.
#[cfg(test)]
mod endpoints;
/// The process from the documentation of `causal_process`, compiled and proved.
#[cfg(test)]
mod example;
/// Stable storage whose device fails once.
#[cfg(test)]
mod failing;
/// The outputs of the process kinds.
#[cfg(test)]
mod kinds;
/// Logs, their batches, and the store in memory: each call once, on hand-computed values.
#[cfg(test)]
mod logs;
/// Determinants and names of messages in short form.
#[cfg(test)]
mod names;
/// Reproducible pseudorandom numbers.
#[cfg(test)]
mod numbers;
/// The processes that start a core or a shared runtime in tests.
#[cfg(test)]
mod runtime;
/// Seats on their own threads, hand-computed calls, random calls, and a full history.
#[cfg(test)]
mod seats;
/// The text of a trace, read in pieces, and written to writers that fail.
#[cfg(test)]
mod text;
/// Traces that one function owns and lends to tests.
#[cfg(test)]
mod traces;
/// Parcels and their bytes, worked by hand.
#[cfg(test)]
mod wire;
/// The gate of an audit: each worker enters once, and two workers overlap.
#[cfg(test)]
mod workers;
