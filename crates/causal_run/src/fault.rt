//! The error of a script's run.
ghost use Rattle.std.specs.Prelude.{◌≡◌};
ghost use Rattle.causal_run.specs.declared.fault.RunFault.TheVariants as run_fault;

use causal_core::StartFault;
use causal_name::NoMemory;
use causal_protocol::request::CoreFault;
use causal_shared::fault::FinishFault;
use std::alloc::AllocFailed;
use thiserror::Error;

/// Why a script's run returned no trace.
#[derive(Clone, Copy, Debug, Error)]
pub enum RunFault {
    /// The command of this line was refused; for a flush that failed before it finished, with the fault that ended it.
    #[error("line {line} is refused: {fault}")]
    Refused { line: u32, fault: CoreFault },
    /// Allocation failed.
    #[error("no memory")]
    Memory,
    /// The shared runtime rejected the call: the seat belongs to another runtime, or the history is full.
    #[error("the shared runtime did not take the call")]
    Lock,
    /// The shared runtime could not be finished.
    #[error("{0}")]
    Finish(FinishFault),
}

impl<T: Drop> From<AllocFailed<T>> for RunFault {
    ghost from_gives = { λ fault gives. gives ≡ run_fault.Memory };

    fn from(_refused: AllocFailed<T>) -> RunFault {
        RunFault::Memory
    }
}

impl From<NoMemory> for RunFault {
    ghost from_gives = { λ fault gives. gives ≡ run_fault.Memory };

    fn from(_fault: NoMemory) -> RunFault {
        RunFault::Memory
    }
}

/// `Core::start` fails only with `NoMemory` here: a run has 1 to 256 processes, and the store is empty.
impl From<StartFault> for RunFault {
    ghost from_gives = { λ fault gives. gives ≡ run_fault.Memory };

    fn from(_fault: StartFault) -> RunFault {
        RunFault::Memory
    }
}

impl From<FinishFault> for RunFault {
    ghost from_gives = { λ fault gives. gives ≡ run_fault.Finish fault };

    fn from(fault: FinishFault) -> RunFault {
        RunFault::Finish(fault)
    }
}
