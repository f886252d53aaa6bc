//! The run's error for a call that failed.
ghost use Rattle.std.specs.Prelude.{◌≡◌};
ghost use Rattle.causal_run.specs.Inside.IssuedRequests.{refusal_at, run_fault_at};

use crate::fault::RunFault;
use causal_protocol::request::CoreFault;
use causal_shared::fault::SharedFault;

/// Returns the run's error for a core's fault at this line.
fn refusal_at(line: u32, fault: CoreFault) -> RunFault
    ensures { result ≡ refusal_at line fault }
{
    match fault {
        CoreFault::NoMemory => RunFault::Memory,
        fault => RunFault::Refused { line, fault },
    }
}

/// Returns the run's error for a fault of the shared call at this line.
pub(crate) fn run_fault_at(line: u32, fault: SharedFault) -> RunFault
    ensures { result ≡ run_fault_at line fault }
{
    match fault {
        SharedFault::WrongSeat | SharedFault::HistoryFull => RunFault::Lock,
        SharedFault::NoRecord => RunFault::Memory,
        SharedFault::Core(fault) => refusal_at(line, fault),
        SharedFault::Flush(stopped) => refusal_at(line, stopped.fault),
    }
}
