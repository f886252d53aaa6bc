//! A law on texts. The function does nothing: its postcondition is the law.
ghost use Rattle.causal_script.specs.Laws.{ScriptReadingIsUnique};

/// A text spells exactly one script or has exactly one first error, and never both.
pub fn script_reading_is_unique()
    ensures { ScriptReadingIsUnique }
{}
