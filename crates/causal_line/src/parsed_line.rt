//! Parsing a line: from its bytes through its JSON value to a `ParsedLine`.
/// Parsing the JSON value of a line.
mod value_shapes;

ghost use Rattle.causal_line.specs.Returns.{Returns};
ghost use Rattle.causal_line.specs.Values.{parse_line};

use crate::kind::TextKind;
use crate::line_value::{parse_json, without_line_feed};
use crate::prescan::prescan_line;
use causal_trace::entry::Entry;
use std::alloc::Global;
use value_shapes::parse_value;

/// A parsed line.
#[derive(Drop)]
pub enum ParsedLine {
    Header { version: u32, processes: u32 },
    Entry { entry: Entry },
    End { entries: u32 },
}

// a line of more bytes is scanned before its JSON tree is built
const PRESCAN_ABOVE: usize = 16_384;

/// Parses a line. A line of more than 16,384 bytes is scanned before its JSON tree is built.
///
/// # Errors
/// `Syntax` if it is not a JSON value, `Form` if the value is not a valid line, `NoMemory` if an allocation failed.
#[tactic(auto, unfolding(crate::specs::Values::parse_line))]
pub fn parse_line(alloc: Global, line: &[u8]) -> Result<ParsedLine, TextKind>
    ensures { Returns result (parse_line line.now) }
{
    let bytes = without_line_feed(line);
    if bytes.len() > PRESCAN_ABOVE && !prescan_line(alloc, bytes)? {
        return Err(TextKind::Form);
    }
    let value = parse_json(alloc, bytes)?;
    parse_value(alloc, &value)
}
