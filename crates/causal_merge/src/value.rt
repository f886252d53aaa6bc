//! The JSON value of a line. A long line is scanned before a tree is built of it, so that memory is a small multiple of
//! what a valid line may take, whatever an attacker writes.
ghost use Rattle.std.specs.Prelude.{IfOk, IfErr};
ghost use Rattle.causal_line.specs.Values.{parse_json};
ghost use Rattle.causal_line.specs.Returns.{IsFaultOrNoMemory};
ghost use Rattle.causal_merge.specs.Inside.Values.{IsValueOf};

use causal_line::kind::TextKind;
use causal_line::line_value::parse_json;
use causal_line::prescan::passes_prescan;
use serde_json::Value;
use std::alloc::Global;

// a line with more bytes is scanned first
const LONG: usize = 16_384;

/// Returns the JSON value of these bytes; None if they are JSON that has none of the shapes of a line.
#[tactic(auto, using(crate::proofs::Outlines::shapeless))]
pub(crate) fn value_of(alloc: Global, bytes: &[u8]) -> Result<Option<Value>, TextKind>
    ensures ok { IfOk result (IsValueOf bytes.now) }
    ensures err { IfErr result (λ kind. IsFaultOrNoMemory kind kind (parse_json bytes.now)) }
{
    if bytes.len() > LONG && !passes_prescan(alloc, bytes)? {
        return Ok(None);
    }
    let value = parse_json(alloc, bytes)?;
    Ok(Some(value))
}
