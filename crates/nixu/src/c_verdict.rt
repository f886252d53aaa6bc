//! Verdicts, in the layout of `nixu_verdict` in nixu.h.
ghost use Rattle.std.specs.Prelude.{◌≡◌};
ghost use Rattle.nixu.specs.CVerdicts.{c_verdict_of, c_fault_verdict};

use crate::numbers::kind_number;
use causal_audit::{Judged, Verdict};
use causal_holders::Holders;
use causal_text::TextFault;
use nixu_boundary::flags::flags_of;

/// The verdict on a trace, or the first error of a text that does not spell one.
///
/// Fields that the `kind` does not use are 0. Instants count entries; a delivery is identified by its entry's position,
/// from 0; lines count from 1.
#[repr(C)]
#[derive(Clone, Copy)]
pub struct CVerdict {
    /// 0 accepted, 1 too many processes are down, 2 a delivery has an orphan, 3 the text has an error.
    pub kind: u32,
    /// The number of entries in the trace.
    pub entries: u32,
    /// The number of deliveries among them.
    pub deliveries: u32,
    /// The first instant that is not safe.
    pub instant: u32,
    /// The position of the first delivery that has an orphan at that instant.
    pub delivery: u32,
    /// The lowest process that is an orphan under the crash set.
    pub orphan: u32,
    /// The line of the error.
    pub line: u32,
    /// The number of the kind of error.
    pub fault: u32,
    /// 1 for each process that is down, or in the crash set; 0 for the others.
    pub processes: [u8; 256],
}

/// The struct of a verdict with the counts of its trace.
pub(crate) fn c_verdict_of(judged: &Judged) -> CVerdict
    ensures { result ≡ c_verdict_of judged.now }
{
    let accepted = CVerdict {
        kind: 0,
        entries: judged.entries,
        deliveries: judged.deliveries,
        instant: 0,
        delivery: 0,
        orphan: 0,
        line: 0,
        fault: 0,
        processes: flags_of(Holders::none()),
    };
    match judged.verdict {
        Verdict::Accept => accepted,
        Verdict::Exceeded { instant, down } => CVerdict {
            kind: 1,
            instant,
            processes: flags_of(down),
            ..accepted
        },
        Verdict::Orphan {
            instant,
            delivery,
            crash,
            orphan,
        } => CVerdict {
            kind: 2,
            instant,
            delivery,
            orphan: u32::from(orphan),
            processes: flags_of(crash),
            ..accepted
        },
    }
}

/// The struct of an error of a text.
pub(crate) fn c_fault_verdict(fault: TextFault) -> CVerdict
    ensures { result ≡ c_fault_verdict fault }
{
    CVerdict {
        kind: 3,
        entries: 0,
        deliveries: 0,
        instant: 0,
        delivery: 0,
        orphan: 0,
        line: fault.line,
        fault: kind_number(fault.kind),
        processes: flags_of(Holders::none()),
    }
}
