//! Audits what a core of the runtime has recorded, for the core's own bound f. The verdict is always `Accept`.
//!
//! The proof of [`audit_core`] uses only the public contracts of the runtime and of the auditor, so neither depends on the
//! other.
#![tactic(auto)]

ghost use Rattle.std.specs.Prelude.{◌≡◌, IfOk};
ghost use Rattle.causal_core.specs.CoreView.{core_run};
ghost use Rattle.causal_runtime_audit.specs.SafeVerdicts.{IsUniqueVerdict, SafeTracesAreAccepted};

use causal_audit::{Verdict, verdict_of};
use causal_core::Core;
use causal_log::Stable;
use causal_name::NoMemory;
use std::alloc::Global;

/// Audits what a core has recorded so far, for the core's bound f on failures, and returns the verdict. It is `Accept`,
/// the only verdict on that recording.
///
/// # Errors
/// `NoMemory` if an allocation failed.
pub fn audit_core<S: Stable>(alloc: Global, core: &Core<S>) -> Result<Verdict, NoMemory>
    ensures verdict { IfOk result
        (IsUniqueVerdict (core_run core.now).recording (core_run core.now).faults) }
    ensures accept { IfOk result (λ verdict. verdict ≡ Verdict.Accept) }
{
    verdict_of(alloc, core.trace(), core.faults())
}

/// States a law and has no effect: each verdict for f on a recording that is safe for f is `Accept`.
///
/// The contracts of a snapshot, of a finished runtime and of a script's run guarantee safe traces. An audit returns a
/// verdict by its contract, with any number of workers. So each audit accepts these traces.
pub fn safe_traces_are_accepted()
    ensures { SafeTracesAreAccepted }
{}
