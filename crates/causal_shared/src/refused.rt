//! The error of a restart, which contains the spare.
ghost use Rattle.std.specs.Prelude.{◌≡◌};

use crate::fault::{LockedFault, SharedFault};
use causal_core::restart::Refused;
use causal_process::Process;

/// The error of a restart of the locked value, with the spare.
#[derive(Drop)]
pub struct LockedRefused<B = Box<dyn Process + Send>> {
    pub fault: LockedFault,
    /// The spare; its outputs are those from before the call.
    pub spare: B,
}

/// The error of a shared restart, with the spare.
#[derive(Drop)]
pub struct SharedRefused<B = Box<dyn Process + Send>> {
    pub fault: SharedFault,
    /// The spare; its outputs are those from before the call.
    pub spare: B,
}

impl From<Refused> for LockedRefused {
    ghost use Rattle.causal_shared.specs.declared.fault.LockedFault.TheVariants as locked_fault;

    ghost from_gives = { λ refused gives. gives ≡ record { fault = locked_fault.Core refused.fault; spare = refused.spare } };

    fn from(refused: Refused) -> LockedRefused {
        LockedRefused {
            fault: LockedFault::Core(refused.fault),
            spare: refused.spare,
        }
    }
}

impl From<LockedRefused> for SharedRefused {
    ghost use Rattle.causal_shared.specs.Seat.{shared_fault_of};

    ghost from_gives = { λ refused gives. gives ≡ record { fault = shared_fault_of refused.fault; spare = refused.spare } };

    fn from(refused: LockedRefused) -> SharedRefused {
        SharedRefused {
            fault: SharedFault::from(refused.fault),
            spare: refused.spare,
        }
    }
}
