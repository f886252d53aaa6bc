//! Strays, in the layout of `nixu_stray` in nixu.h.
ghost use Rattle.std.specs.Prelude.{◌≡◌};
ghost use Rattle.nixu.specs.CStrays.{c_stray_of, c_fault_stray};

use crate::numbers::kind_number;
use causal_facts::Stray;
use causal_text::TextFault;

/// The first stray of a run, or the first error of a text that does not spell one.
///
/// Fields that the `kind` does not use are 0. Instants count entries; a delivery is identified by its entry's position,
/// from 0; lines count from 1.
#[repr(C)]
#[derive(Clone, Copy)]
pub struct CStray {
    /// 0 the recoveries follow what survives, 1 two survivors fill one slot, 3 the text has an error.
    pub kind: u32,
    /// The first instant at which two different survivors fill one slot.
    pub instant: u32,
    /// The receive sequence number of the least such slot.
    pub rsn: u32,
    /// The position of the first delivery with a survivor of the slot.
    pub first: u32,
    /// The position of the first delivery with another survivor of the slot.
    pub second: u32,
    /// The line of the error.
    pub line: u32,
    /// The number of the kind of error.
    pub fault: u32,
    /// The receiver of the slot.
    pub process: u8,
}

/// The struct of a run's first stray, or of none.
pub(crate) fn c_stray_of(found: Option<Stray>) -> CStray
    ensures { result ≡ c_stray_of found }
{
    match found {
        None => CStray {
            kind: 0,
            instant: 0,
            rsn: 0,
            first: 0,
            second: 0,
            line: 0,
            fault: 0,
            process: 0,
        },
        Some(stray) => CStray {
            kind: 1,
            instant: stray.instant,
            rsn: stray.slot.rsn,
            first: stray.first,
            second: stray.second,
            line: 0,
            fault: 0,
            process: stray.slot.dest.0,
        },
    }
}

/// The struct of an error of a text.
pub(crate) fn c_fault_stray(fault: TextFault) -> CStray
    ensures { result ≡ c_fault_stray fault }
{
    CStray {
        kind: 3,
        instant: 0,
        rsn: 0,
        first: 0,
        second: 0,
        line: fault.line,
        fault: kind_number(fault.kind),
        process: 0,
    }
}
