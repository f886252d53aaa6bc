//! Laws of texts. Each function computes nothing: its postcondition is the law.
ghost use Rattle.std.specs.Prelude.{ℕ};
ghost use Rattle.causal_text.specs.Laws.{CanonicalIsWithinLimit, CanonicalTextReadsBack, ReadingIsUnique, PrefixTextPrefixTrace};

use causal_trace::laws::numbers_are_bounded;

/// A text spells exactly one trace, or has exactly one first error, and never both, under any limits.
pub fn reading_is_unique()
    ensures { (most : ℕ) → ReadingIsUnique most }
{}

/// If a text spells a trace, and the complete lines of a prefix spell another, the latter is a prefix of the former.
pub fn prefix_text_prefix_trace()
    ensures { PrefixTextPrefixTrace }
{}

/// The canonical text of a trace within limits spells this trace, and is within their limit of a text.
pub fn canonical_text_reads_back()
    ensures spells { CanonicalTextReadsBack }
    ensures within_limit { CanonicalIsWithinLimit }
{
    numbers_are_bounded();
}
