//! The first error of a text, with its context.
ghost use Rattle.std.specs.Prelude.{◌≡◌, None};

use crate::kind::TextFault;
use crate::parsed_line::ParsedLine;
use causal_trace::trace::Trace;

/// The context of an error: the trace of the lines before the faulty line, and the parsed faulty line.
#[derive(Drop)]
pub struct FaultContext {
    pub trace: Trace,
    pub parsed_line: ParsedLine,
}

/// Why a text is refused: its first error.
#[derive(Drop)]
pub struct TextRefusal {
    pub fault: TextFault,
    /// The context of the error. None if the faulty line is missing, was not parsed or is the first line, or if an
    /// allocation failed.
    pub context: Option<FaultContext>,
}

impl TextRefusal {
    /// Returns a refusal without context.
    pub fn without_context(fault: TextFault) -> TextRefusal
        ensures fault { result.fault ≡ fault }
        ensures context { result.context ≡ None }
    {
        TextRefusal {
            fault,
            context: None,
        }
    }

    /// Returns the error without its context.
    pub fn into_fault(self) -> TextFault
        ensures { result ≡ self.fault }
    {
        self.fault
    }
}
