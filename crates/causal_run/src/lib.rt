//! Runs a script through the shared runtime, by one seat, and explores the run from there.
//!
//! Start at [`run_script`], which makes the script's own processes and returns the trace of the run, or a [`RunFault`].
//! [`pending_before`] returns what a refused delivery could have delivered.
//! [`perform`] performs the commands with processes and spares that the caller passes, [`perform_seeded`] also with its
//! seed.
#![tactic(auto)]

/// How a run goes on after the commands of a script.
mod exploration;
/// The error of a script's run.
mod fault;
/// The processes of a script.
mod script_process;
/// A script's commands, issued in order by one seat.
mod script_commands;
/// A script, run by processes of its kind.
mod script_run;
/// The run's error for a call that failed.
mod run_refusals;

pub use fault::RunFault;
pub use script_commands::{perform, perform_seeded};
pub use script_run::{pending_before, run_script};
