//! Writing all bytes to a writer that may accept fewer in a call.
ghost use Rattle.std.specs.Prelude.{◌≡◌, OnOk, IfErr};
ghost use Rattle.std.specs.Io.KnownBytes.{Appends};
ghost use Rattle.causal_lines.specs.PartialWrites.{IsPartialWrite};

use std::io::Write;
use thiserror::Error;

/// Why not all bytes were written.
#[derive(Clone, Copy, Debug, PartialEq, Eq, Error)]
pub enum WriteCause {
    /// The writer returned an error, or accepted no byte.
    #[error("the writer failed")]
    Device,
    /// An allocation failed.
    #[error("no memory")]
    Memory,
}

/// Why not all bytes were written, and how many were.
#[derive(Clone, Copy, Debug, PartialEq, Eq, Error)]
#[error("{cause} after {written} bytes")]
pub struct WriteFault {
    pub written: u64,
    pub cause: WriteCause,
}

/// Writes all bytes. After an error, exactly the first bytes were written, the number that the error contains.
///
/// # Errors
/// `Device`, only if a write returned an error of any kind or accepted no byte.
pub fn write_whole<W: Write>(bytes: &[u8], writer: &mut W) -> Result<(), WriteFault>
    ensures ok { OnOk result (Appends (W.contents writer.old) (W.contents writer.new) bytes.now) }
    ensures err { IfErr result (IsPartialWrite bytes.now (W.contents writer.old)
        (W.contents writer.new)) }
    ensures cause { IfErr result (λ fault. fault.cause ≡ WriteCause.Device) }
{
    let mut written: usize = 0;
    while written < bytes.len() {
        let (_done, rest) = bytes.split_at(written);
        match writer.write(rest) {
            Ok(n) if n > 0 => written += n,
            _ => {
                return Err(WriteFault {
                    written: written as u64,
                    cause: WriteCause::Device,
                });
            }
        }
    }
    Ok(())
}
