//! The first error of an invalid trace, with its diagnostic, as values.
use causal_audit::Judged;
use causal_text::{FaultDetail, TextFault};

/// The first error of an invalid trace, with its diagnostic.
#[derive(Clone, Copy)]
pub struct DiagnosedFault {
    pub fault: TextFault,
    /// None if nothing more is known of the error, or an allocation failed.
    pub diagnostic: Option<Diagnostic>,
}

/// The diagnostic of the line of an error.
#[derive(Clone, Copy)]
pub struct Diagnostic {
    /// What is wrong with the line, as values; None if nothing more is known.
    pub wrong: Option<FaultDetail>,
    /// The verdict on the entries before the line, if the line is an entry.
    pub before: Option<Judged>,
}
