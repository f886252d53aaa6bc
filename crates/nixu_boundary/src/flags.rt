//! Sets of processes, as an array with a byte for each.
ghost use Rattle.std.specs.Prelude.{◌≡◌};
ghost use Rattle.nixu_boundary.specs.Flags.{flags};

use causal_holders::Holders;

/// One byte for each process: 1 if it is in the set.
pub fn flags_of(set: Holders) -> [u8; 256]
    ensures { result ≡ flags set }
{
    let mut flags = [0u8; 256];
    for process in 0..256usize {
        flags[process] = u8::from(set.contains(process as u8));
    }
    flags
}
