//! Why bytes are refused.
ghost use Rattle.std.specs.Prelude.{◌≡◌};
ghost use Rattle.causal_wire.specs.declared.fault.ParcelFault.TheVariants.{NoMemory};

use std::alloc::{AllocError, AllocFailed};
use thiserror::Error;

/// What is wrong with the bytes of a parcel.
#[derive(Clone, Copy, Debug, PartialEq, Eq, Error)]
pub enum WireFault {
    /// A field extends past the end.
    #[error("the bytes end too early")]
    Short,
    /// The first byte is not the version of this format.
    #[error("another version of the format")]
    Version,
    /// No kind of parcel has this number.
    #[error("no such kind of parcel")]
    Kind,
    /// The number of the run, the number of processes, or the bound on failures differs.
    #[error("a parcel of another run")]
    Run,
    /// A number is not that of a process of the run.
    #[error("no such process")]
    Process,
    /// The clock is 2^62 or greater. So no clock that is received stops a clock.
    #[error("the clock is too great")]
    Clock,
    /// A determinant does not follow the one before it.
    #[error("the determinants are not in ascending order")]
    Unsorted,
    /// A holder does not follow the one before it, or is the source.
    #[error("the holders are not in ascending order, or the source is among them")]
    Holder,
    /// A flag is neither 0 nor 1.
    #[error("a flag is neither 0 nor 1")]
    Flag,
    /// Bytes follow the last field.
    #[error("bytes after the end")]
    Trailing,
}

/// Why a parcel was not read.
#[derive(Clone, Copy, Debug, PartialEq, Eq, Error)]
pub enum ParcelFault {
    /// The bytes are not those of a parcel of the run.
    #[error("{0}")]
    Wire(WireFault),
    /// An allocation failed.
    #[error("no memory")]
    NoMemory,
}

impl From<AllocError> for ParcelFault {
    ghost from_gives = { λ _ e. e ≡ NoMemory };

    fn from(_refused: AllocError) -> ParcelFault {
        ParcelFault::NoMemory
    }
}

impl<T: Drop> From<AllocFailed<T>> for ParcelFault {
    ghost from_gives = { λ _ e. e ≡ NoMemory };

    fn from(_refused: AllocFailed<T>) -> ParcelFault {
        ParcelFault::NoMemory
    }
}
