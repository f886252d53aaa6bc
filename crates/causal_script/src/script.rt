//! The content of a script.
use causal_process::Sequence;
use causal_protocol::request::Request;
use thiserror::Error;

/// The kind of a run's processes.
#[derive(Clone, Copy)]
pub enum Kind {
    Ring,
    Echo,
    Tally,
}

/// The request on a line after the first. Lines are counted from 1.
#[derive(Clone, Copy)]
pub struct Command {
    pub line: u32,
    pub request: Request,
}

/// Commands in order. Contracts see their list.
pub type Commands = Sequence<Command>;

/// How a run goes on after the commands: by calls that a seed chooses.
#[derive(Clone, Copy)]
pub struct Exploration {
    pub seed: u32,
    /// The maximum number of calls, at most `MAX_STEPS`.
    pub steps: u32,
}

/// A script: n processes of one kind, the bound f on processes that are down at once, the commands in order, and how the
/// run goes on after them.
#[derive(Drop)]
pub struct Script {
    pub kind: Kind,
    /// From 1 to 256.
    pub n: u16,
    pub f: u16,
    /// The hops of a ring, the rounds of an echo; 0 for a tally.
    pub param: u8,
    /// None: the run ends after the commands.
    pub exploration: Option<Exploration>,
    pub commands: Commands,
}

/// The kind of a script's error.
#[derive(Clone, Copy, Debug, PartialEq, Eq, Error)]
pub enum ScriptFaultKind {
    /// The line contains the first byte past the size limit.
    #[error("the script is too long")]
    Big,
    /// The line is not valid at its position: no start on line 1, or no command after it.
    #[error("this is no line of a script here")]
    Script,
    /// Allocation failed.
    #[error("no memory")]
    NoMemory,
}

/// The first line of an invalid script that has an error, and the kind of the error.
#[derive(Clone, Copy, Debug, PartialEq, Eq, Error)]
#[error("line {line}: {kind}")]
pub struct ScriptFault {
    pub line: u32,
    pub kind: ScriptFaultKind,
}
