//! Why a process, or a whole run, stops.
use causal_endpoint::fault::EndpointFault;
use causal_name::NoMemory;
use causal_node::node_fault::NodeFault;
use std::alloc::{AllocError, AllocFailed};

/// What is wrong with a run.
#[derive(Clone, Copy, Debug, PartialEq, Eq)]
pub enum Wrong {
    /// An endpoint refuses what it must not refuse.
    Refused(EndpointFault),
    /// A process sends another message than before, which a process that is up has delivered.
    Differs,
    /// In the end some process does not come up, or lacks a message that it has to repeat.
    Stuck,
    /// The recordings do not merge.
    Merge,
    /// The trace has another number of entries than the recordings have events.
    Lines,
    /// The audit finds an orphan.
    Orphan,
    /// The audit finds too many processes down.
    Exceeded,
    /// A recovery does not follow what survives.
    Strayed,
}

/// Why a process stops.
#[derive(Clone, Copy, Debug, PartialEq, Eq)]
pub enum Stop {
    /// It is killed.
    Killed,
    /// Allocation failed, in the simulation.
    NoMemory,
    /// The run is wrong.
    Wrong(Wrong),
}

impl From<NoMemory> for Stop {
    fn from(_refused: NoMemory) -> Stop {
        Stop::NoMemory
    }
}

impl From<AllocError> for Stop {
    fn from(_refused: AllocError) -> Stop {
        Stop::NoMemory
    }
}

impl<T: Drop> From<AllocFailed<T>> for Stop {
    fn from(_refused: AllocFailed<T>) -> Stop {
        Stop::NoMemory
    }
}

impl From<EndpointFault> for Stop {
    fn from(fault: EndpointFault) -> Stop {
        match fault {
            EndpointFault::Node(NodeFault::NoMemory) => Stop::NoMemory,
            other => Stop::Wrong(Wrong::Refused(other)),
        }
    }
}
