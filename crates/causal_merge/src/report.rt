//! The printed line of an error.
ghost use Rattle.std.specs.Prelude.{◌≡◌, IfOk};
ghost use Rattle.causal_merge.specs.FaultLine.{named_line, merge_fault_line};

use crate::fault::{MergeFault, MergeKind};
use causal_line::kind::TextFault;
use causal_line::report;
use causal_name::NoMemory;
use std::alloc::Global;

fn named_line(alloc: Global, line: u32, name: &str) -> Result<Vec<u8>, NoMemory>
    ensures { IfOk result (λ text. text.items ≡ named_line line name.now) }
{
    let text = format!(in alloc; "fault line={line} {name}\n")?;
    Ok(text.into_bytes())
}

/// Returns the line that prints an error: `fault line=3 Twice`, with a line feed. `NoMemory` is returned only if an
/// allocation failed.
pub fn merge_fault_line(alloc: Global, fault: &MergeFault) -> Result<Vec<u8>, NoMemory>
    ensures { IfOk result (λ text. text.items ≡ merge_fault_line fault.now) }
{
    let line = fault.line;
    match fault.kind {
        MergeKind::NoHeader { .. } => named_line(alloc, line, "NoHeader"),
        MergeKind::Twice => named_line(alloc, line, "Twice"),
        MergeKind::Line(kind) => report::fault_line(alloc, &TextFault { line, kind }),
    }
}
