//! The numbers of the kinds of errors.
ghost use Rattle.std.specs.Prelude.{◌≡◌};
ghost use Rattle.nixu.specs.Numbers.{kind_number};

use causal_text::TextKind;

/// The number of a kind of error, from 1 in the order of [`TextKind`]; 0 for `NoMemory`, which is not an error of a
/// text.
pub(crate) fn kind_number(kind: TextKind) -> u32
    ensures { result ≡ kind_number kind }
{
    match kind {
        TextKind::NoMemory => 0,
        TextKind::After => 1,
        TextKind::Big => 2,
        TextKind::Syntax => 3,
        TextKind::Form => 4,
        TextKind::Header => 5,
        TextKind::Version => 6,
        TextKind::Processes => 7,
        TextKind::TooLong => 8,
        TextKind::NoProcess => 9,
        TextKind::NotUp => 10,
        TextKind::NotDown => 11,
        TextKind::Lanes => 12,
        TextKind::WrongSsn => 13,
        TextKind::NoSend => 14,
        TextKind::WrongRsn => 15,
        TextKind::Doubled => 16,
        TextKind::Unsorted => 17,
        TextKind::NoDelivery => 18,
        TextKind::Count => 19,
        TextKind::Cut => 20,
    }
}
