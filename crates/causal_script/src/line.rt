//! The printed lines for an error in a script and for a refused command.
ghost use Rattle.std.specs.Prelude.{◌≡◌, IfOk};
ghost use Rattle.std.specs.String.{string_bytes};
ghost use Rattle.causal_script.specs.Printing.{script_kind_name, script_line, refusal, refused_line};

use crate::script::{ScriptFault, ScriptFaultKind};
use causal_name::{MsgName, NoMemory, Pid};
use causal_protocol::request::CoreFault;
use std::alloc::{AllocError, Global};

/// Formats the line that is printed for a script's error, with a line feed: `fault line=3 Script`.
///
/// # Errors
/// `NoMemory` if allocation failed.
pub fn script_line(alloc: Global, fault: &ScriptFault) -> Result<Vec<u8>, NoMemory>
    ensures { IfOk result (λ text. text.items ≡ script_line fault.now) }
{
    let (line, name) = (fault.line, fault.kind.name());
    let text = format!(in alloc; "fault line={line} {name}\n")?;
    Ok(text.into_bytes())
}

impl ScriptFaultKind {
    fn name(self) -> &'static str
        ensures { result.now ≡ script_kind_name self }
    {
        match self {
            ScriptFaultKind::Big => "Big",
            ScriptFaultKind::Script => "Script",
            ScriptFaultKind::NoMemory => "NoMemory",
        }
    }
}

/// Formats the line that is printed for a refused command, with a line feed: `refused line=6 OverFaults`, or `refused
/// line=6 MustReplay 2 0` with the source and ssn of the message that must be delivered first.
///
/// # Errors
/// `NoMemory` if allocation failed.
pub fn refused_line(alloc: Global, line: u32, fault: CoreFault) -> Result<Vec<u8>, NoMemory>
    ensures { IfOk result (λ text. text.items ≡ refused_line line fault) }
{
    let name = refusal(alloc, fault)?;
    let text = format!(in alloc; "refused line={line} {name}\n")?;
    Ok(text.into_bytes())
}

fn refusal(alloc: Global, fault: CoreFault) -> Result<String, AllocError>
    ensures { IfOk result (λ text. string_bytes text ≡ refusal fault) }
{
    let name = match fault {
        CoreFault::MustReplay(
            MsgName {
                source: Pid(source),
                ssn,
            },
        ) => {
            return format!(in alloc; "MustReplay {source} {ssn}");
        }
        CoreFault::NoProcess => "NoProcess",
        CoreFault::Down => "Down",
        CoreFault::NotDown => "NotDown",
        CoreFault::OverFaults => "OverFaults",
        CoreFault::NotAvailable => "NotAvailable",
        CoreFault::AlreadyDelivered => "AlreadyDelivered",
        CoreFault::Full => "Full",
        CoreFault::StoreFault => "StoreFault",
        CoreFault::NoMemory => "NoMemory",
    };
    String::from_str(alloc, name)
}
