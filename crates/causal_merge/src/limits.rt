//! The maximum size of recorder files.
ghost use Rattle.std.specs.Prelude.{◌≡◌, ◌≤◌};
ghost use Rattle.causal_merge.specs.Reading.{max_input_len, max_bytes};

use causal_trace::limits::Limits;

/// The maximum size of any recorder files, in bytes.
const MAX_BYTES: usize = 2_147_483_648;

/// Returns the maximum size, in bytes, of recorder files whose trace is to keep these limits: 1,024 bytes per entry,
/// but at most 2,147,483,648.
pub fn max_input_len(limits: Limits) -> usize
    ensures value { result ≡ max_input_len limits.entries }
    ensures few { result ≤ max_bytes }
{
    (limits.entries as usize * 1024).min(MAX_BYTES)
}
