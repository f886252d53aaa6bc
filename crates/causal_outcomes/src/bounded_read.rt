//! Bounded reads: of recorder files, a map, or the text of a script.
ghost use Rattle.std.specs.Prelude.{◌≡◌, IfOk, IfSome, take};
ghost use Rattle.causal_outcomes.specs.Reading.{ReadsAtMost};

use std::alloc::Global;
use std::io::Read;
use thiserror::Error;

// bytes per call of the reader
const PIECE: usize = 4096;

/// Why a text could not be read.
#[derive(Clone, Copy, Debug, Error)]
pub enum ReadFault {
    /// The reader returned an error, of any kind.
    #[error("read fault")]
    Read,
    /// An allocation failed.
    #[error("no memory")]
    NoMemory,
}

/// Returns the bytes of a reader to their end, or the first `most` of them. Each call of the reader requests at most 4,096
/// bytes, and none requests a byte after these.
///
/// # Errors
/// `Read` if the reader failed, `NoMemory` if an allocation failed. The bytes read before are then lost.
pub fn read_at_most<I: Read>(
    alloc: Global,
    input: &mut I,
    most: usize,
) -> Result<Vec<u8>, ReadFault>
    ensures text { IfOk result
        (λ bytes. IfSome (I.remaining input.old) (λ text. bytes.items ≡ take most text)) }
    ensures most { ReadsAtMost most (I.remaining input.old) (I.remaining input.new) }
{
    let mut bytes = Vec::new(alloc);
    let mut piece = [0u8; PIECE];
    while bytes.len() < most {
        let room = PIECE.min(most - bytes.len());
        let Ok(count) = input.read(&mut piece[..room]) else {
            return Err(ReadFault::Read);
        };
        if count == 0 {
            return Ok(bytes);
        }
        if bytes.extend_from_slice(&piece[..count]).is_err() {
            return Err(ReadFault::NoMemory);
        }
    }
    Ok(bytes)
}
