//! The sentences for the numbers of errors.
ghost use Rattle.std.specs.Prelude.{◌≡◌, ◌<◌, ◌⊎◌, IfSome};
ghost use Rattle.nixu.specs.Numbers.{kind_number, IsNoFault, CopiesOutSentence};
ghost use Rattle.nixu_boundary.specs.Buffers.{IsUntouched};

use causal_text::TextKind;
use nixu_boundary::buffer::copy_out;
use nixu_boundary::status::{MISUSED, OK};

/// Writes the sentence for an error's number to `out`, without a line feed, as much of it as fits, and its whole length
/// to `needed`.
///
/// Returns [`OK`]; or [`MISUSED`] if no error has the number, and nothing is written. Allocates nothing.
#[unsafe(no_mangle)]
pub extern "C" fn nixu_fault_text(fault: u32, out: &mut [u8], needed: &mut usize) -> u32
    ensures ok { result ≡ OK → CopiesOutSentence fault out.old out.new needed.new }
    ensures misused { result ≡ MISUSED → IsNoFault fault }
    ensures unchanged { result ≡ MISUSED → IsUntouched out.old out.new needed.old needed.new }
    ensures status { (result ≡ OK) ⊎ (result ≡ MISUSED) }
{
    match kind_of(fault) {
        Some(kind) => {
            copy_out(kind.sentence().as_bytes(), out, needed);
            OK
        }
        None => MISUSED,
    }
}

/// The kind of error with this number; None if there is none.
pub(crate) fn kind_of(number: u32) -> Option<TextKind>
    ensures some { IfSome result (λ kind. (kind_number kind ≡ number) × (0 < number)) }
    ensures none { result ≡ None → IsNoFault number }
{
    match number {
        0 => None,
        1 => Some(TextKind::After),
        2 => Some(TextKind::Big),
        3 => Some(TextKind::Syntax),
        4 => Some(TextKind::Form),
        5 => Some(TextKind::Header),
        6 => Some(TextKind::Version),
        7 => Some(TextKind::Processes),
        8 => Some(TextKind::TooLong),
        9 => Some(TextKind::NoProcess),
        10 => Some(TextKind::NotUp),
        11 => Some(TextKind::NotDown),
        12 => Some(TextKind::Lanes),
        13 => Some(TextKind::WrongSsn),
        14 => Some(TextKind::NoSend),
        15 => Some(TextKind::WrongRsn),
        16 => Some(TextKind::Doubled),
        17 => Some(TextKind::Unsorted),
        18 => Some(TextKind::NoDelivery),
        19 => Some(TextKind::Count),
        20 => Some(TextKind::Cut),
        21.. => None,
    }
}
