//! The first bytes of a line, to be shown with an error.
ghost use Rattle.std.specs.Prelude.{◌≡◌, drop, take, IfOk};
ghost use Rattle.causal_line.specs.Lines.{lines};
ghost use Rattle.causal_outcomes.specs.Excerpts.{first_line, excerpt};

use causal_line::line_value::without_line_feed;
use causal_line::lines::split_line;
use std::alloc::{AllocError, Global};

/// The maximum number of bytes of a line that are shown.
const MAX_SHOWN: usize = 80;

/// Returns the first 80 bytes of a line of the text, without its line feed. Lines are counted from 1; a line that the text
/// does not have is empty.
pub(crate) fn line_excerpt(alloc: Global, text: &[u8], line: u32) -> Result<Vec<u8>, AllocError>
    ensures { IfOk result (λ bytes. bytes.items ≡ excerpt text.now line) }
{
    let here = without_line_feed(line_after(text, line.saturating_sub(1)));
    let mut bytes = Vec::new(alloc);
    bytes.extend_from_slice(shown_part(here))?;
    Ok(bytes)
}

/// Returns the first 80 bytes.
#[tactic(auto, using(std::proofs::lemmas::List::take_min))]
fn shown_part(line: &[u8]) -> &[u8]
    ensures { result.now ≡ take 80 line.now }
{
    let end = MAX_SHOWN.min(line.len());
    &line[..end]
}

/// Returns the line after so many lines, with its line feed if it has one; empty if there is none.
fn line_after(text: &[u8], before: u32) -> &[u8]
    ensures { result.now ≡ first_line (drop before (lines text.now)) }
{
    match split_line(after_lines(text, before)) {
        Some((here, _)) => here,
        None => &[],
    }
}

/// Returns the text after so many lines.
#[tactic(auto, using(crate::proofs::Excerpts::one_more))]
fn after_lines(text: &[u8], before: u32) -> &[u8]
    ensures { lines result.now ≡ drop before (lines text.now) }
{
    let mut left = text;
    for _line in 0..before {
        left = match split_line(left) {
            Some((_, after)) => after,
            None => left,
        };
    }
    left
}
