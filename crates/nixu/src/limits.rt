//! The limits of a trace.
ghost use Rattle.std.specs.Prelude.{◌≡◌, IfSome, None};
ghost use Rattle.nixu.specs.Limits.{IsEntryCount};

use causal_trace::limits::{Limits, MAX_ENTRIES};

/// The limits of a trace with at most `entries` entries; None if that is 0 or too many.
pub(crate) fn limits_of(entries: u32) -> Option<Limits>
    ensures some { IfSome result (λ limits. (limits.entries ≡ entries) × IsEntryCount entries) }
    ensures none { result ≡ None → IsEntryCount entries → ⊥ }
{
    if entries == 0 || entries as usize > MAX_ENTRIES {
        return None;
    }
    Some(Limits { entries })
}
