//! Reads the text of a script.
ghost use Rattle.std.specs.Prelude.{◌≡◌, IfOk, IfSome};
ghost use Rattle.causal_runtime_commands.specs.Runs.{ReadsAtMostScript, script_bytes_read};

use causal_outcomes::{ReadFault, read_at_most};
use std::alloc::Global;
use std::io::Read;

/// The maximum number of bytes read of a script: one more than a script may have, so that a longer one is detected.
pub const MAX_SCRIPT_READ: usize = 1_048_577;

/// Returns the bytes of a reader to their end, or the first 1,048,577 of them. Each call of the reader requests at most
/// 4,096 bytes, and none requests a byte after these.
///
/// # Errors
/// `Read` if the reader failed, `NoMemory` if an allocation failed. The bytes read before are then lost.
pub fn read_script<I: Read>(alloc: Global, input: &mut I) -> Result<Vec<u8>, ReadFault>
    ensures text { IfOk result
        (λ bytes. IfSome (I.remaining input.old) (λ text. bytes.items ≡ script_bytes_read text)) }
    ensures most { ReadsAtMostScript (I.remaining input.old) (I.remaining input.new) }
{
    read_at_most(alloc, input, MAX_SCRIPT_READ)
}
