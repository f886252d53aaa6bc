//! The printed error.
ghost use Rattle.std.specs.Prelude.{◌≡◌, IfOk};
ghost use Rattle.causal_line.specs.FaultLine.{kind_name, fault_line};

use crate::kind::{TextFault, TextKind};
use causal_name::NoMemory;
use std::alloc::Global;

/// Returns the name of a kind of error: `WrongSsn`.
pub fn kind_name(kind: TextKind) -> &'static str
    ensures { result.now ≡ kind_name kind }
{
    match kind {
        TextKind::After => "After",
        TextKind::Big => "Big",
        TextKind::Syntax => "Syntax",
        TextKind::Form => "Form",
        TextKind::Header => "Header",
        TextKind::Version => "Version",
        TextKind::Processes => "Processes",
        TextKind::TooLong => "TooLong",
        TextKind::NoProcess => "NoProcess",
        TextKind::NotUp => "NotUp",
        TextKind::NotDown => "NotDown",
        TextKind::Lanes => "Lanes",
        TextKind::WrongSsn => "WrongSsn",
        TextKind::NoSend => "NoSend",
        TextKind::WrongRsn => "WrongRsn",
        TextKind::Doubled => "Doubled",
        TextKind::Unsorted => "Unsorted",
        TextKind::NoDelivery => "NoDelivery",
        TextKind::Count => "Count",
        TextKind::Cut => "Cut",
        TextKind::NoMemory => "NoMemory",
    }
}

/// Returns the line that an error prints as, with a line feed: `fault line=3 WrongSsn`.
///
/// # Errors
/// `NoMemory`, only if an allocation failed.
pub fn fault_line(alloc: Global, fault: &TextFault) -> Result<Vec<u8>, NoMemory>
    ensures { IfOk result (λ text. text.items ≡ fault_line fault.now) }
{
    let (line, name) = (fault.line, kind_name(fault.kind));
    let text = format!(in alloc; "fault line={line} {name}\n")?;
    Ok(text.into_bytes())
}
