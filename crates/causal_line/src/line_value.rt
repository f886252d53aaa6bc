//! The JSON value of a line.
ghost use Rattle.std.specs.Prelude.{◌≡◌};
ghost use Rattle.serde_json.specs.View.{view};
ghost use Rattle.causal_line.specs.Returns.{ReturnsBy};
ghost use Rattle.causal_line.specs.Values.{without_line_feed, parse_json};

use crate::kind::TextKind;
use serde_json::Value;
use std::alloc::Global;

/// Returns the line without its line feed.
#[tactic(auto, unfolding(crate::specs::Values::without_line_feed))]
pub fn without_line_feed(line: &[u8]) -> &[u8]
    ensures { result.now ≡ without_line_feed line.now }
{
    let n = line.len();
    if n > 0 && line[n - 1] == b'\n' {
        &line[..n - 1]
    } else {
        line
    }
}

/// Parses the bytes as a JSON value. Bytes that are not UTF-8 are not one.
///
/// # Errors
/// `Syntax` if they are not a JSON value, `NoMemory` if an allocation failed.
#[tactic(auto, using(crate::proofs::Lemmas::Values::json_results))]
pub fn parse_json(alloc: Global, bytes: &[u8]) -> Result<Value, TextKind>
    ensures { ReturnsBy view result (parse_json bytes.now) }
{
    match Value::from_slice(alloc, bytes) {
        Ok(value) => Ok(value),
        Err(e) => {
            if e.is_memory() {
                Err(TextKind::NoMemory)
            } else {
                Err(TextKind::Syntax)
            }
        }
    }
}
