//! Splitting a text into lines.
ghost use Rattle.std.specs.Prelude.{◌≡◌, ◌<◌, ◌∷◌, ◌++◌, [], length, true, IfSome, IfNone};
ghost use Rattle.causal_line.specs.Lines.{lines, IsComplete, no_feed};

use memchr::memchr;

/// Splits off the first line with its line feed, and returns it and the rest; None without a line feed.
pub fn split_complete(text: &[u8]) -> Option<(&[u8], &[u8])>
    ensures some { IfSome result
        (λ parts. IsComplete parts.0.now × (text.now ≡ parts.0.now ++ parts.1.now)) }
    ensures shorter { IfSome result (λ parts. length parts.1.now < length text.now) }
    ensures none { IfNone result (no_feed text.now ≡ true) }
{
    match memchr(b'\n', text) {
        Some(i) => Some(text.split_at(i + 1)),
        None => None,
    }
}

/// Splits off the first line, with its line feed if it has one, and returns it and the rest; None if the text is
/// empty.
#[tactic(auto, using(crate::proofs::Lemmas::CompleteLines::lines_complete, crate::proofs::Lemmas::CompleteLines::lines_rest))]
pub fn split_line(text: &[u8]) -> Option<(&[u8], &[u8])>
    ensures line { IfSome result (λ parts. lines text.now ≡ parts.0.now ∷ lines parts.1.now) }
    ensures whole { IfSome result (λ parts. text.now ≡ parts.0.now ++ parts.1.now) }
    ensures some { IfSome result (λ parts. 0 < length parts.0.now) }
    ensures none { IfNone result (text.now ≡ []) }
{
    if text.is_empty() {
        return None;
    }
    match split_complete(text) {
        Some((line, after)) => Some((line, after)),
        None => Some((text, &[])),
    }
}
