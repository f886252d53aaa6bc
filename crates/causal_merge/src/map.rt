//! The lines of a map: each has the file, the line and the clock from which an entry of a merged trace comes.
ghost use Rattle.std.specs.Prelude.{◌≡◌, ◌++◌, IfOk, OnOk};
ghost use Rattle.std.specs.String.{string_bytes};
ghost use Rattle.json.specs.Print.{escape, quoted};
ghost use Rattle.serde_json.specs.View.{view};
ghost use Rattle.causal_line.specs.Returns.{ReturnsBy};
ghost use Rattle.causal_merge.specs.Maps as maps;

use causal_line::fields::{array_len, u32_at, u64_at};
use causal_line::kind::TextKind;
use causal_line::line_value::parse_json;
use causal_name::NoMemory;
use serde_json::Value;
use std::alloc::Global;

/// The maximum size of a line that is read, in bytes without its line feed.
const MAX_LINE: usize = 65_536;

/// Returns the line for the entry at a position, with a line feed: `[0,"run/a.log",2,17]`. The file is a JSON string, as
/// [`quoted_name`] returns it.
///
/// # Errors
/// `NoMemory` if an allocation failed.
pub fn map_line(
    alloc: Global,
    position: usize,
    file: &str,
    line: u64,
    clock: u64,
) -> Result<String, NoMemory>
    ensures { IfOk result
        (λ text. string_bytes text ≡ maps.map_line position file.now line clock) }
{
    Ok(format!(in alloc; "[{position},{file},{line},{clock}]\n")?)
}

/// Returns a file's name as a JSON string.
///
/// # Errors
/// `NoMemory` if an allocation failed.
pub fn quoted_name(alloc: Global, name: &str) -> Result<String, NoMemory>
    ensures { IfOk result (λ text. string_bytes text ≡ quoted name.now) }
{
    let value = Value::String(String::from_str(alloc, name)?);
    Ok(value.to_string(alloc)?)
}

/// Returns the fields ` at=FILE:LINE clock=CLOCK` for the entry at a position, by its line in a map, without its line
/// feed. O(line) time and memory.
///
/// # Errors
/// `Form` or `Syntax` if this is not the line for that entry; `NoMemory` if an allocation failed.
#[tactic(auto, unfolding(crate::specs::Maps::read_place))]
pub fn read_place(alloc: Global, position: u32, line: &[u8]) -> Result<Vec<u8>, TextKind>
    ensures { ReturnsBy (λ text. text.items) result (maps.read_place position line.now) }
{
    if line.len() > MAX_LINE {
        return Err(TextKind::Form);
    }
    let value = parse_json(alloc, line)?;
    entry_place_fields(alloc, position, &value)
}

#[tactic(auto, unfolding(crate::specs::Maps::entry_place_fields))]
fn entry_place_fields(alloc: Global, position: u32, value: &Value) -> Result<Vec<u8>, TextKind>
    ensures { ReturnsBy (λ text. text.items) result (maps.entry_place_fields position (view value.now)) }
{
    if array_len(value) != 4 {
        return Err(TextKind::Form);
    }
    let given = u32_at(value, 0)?;
    let Some(file) = value.get(1).and_then(Value::as_str) else {
        return Err(TextKind::Form);
    };
    let line = u64_at(value, 2)?;
    let clock = u64_at(value, 3)?;
    if given != position {
        return Err(TextKind::Form);
    }
    match place_fields(alloc, file, line, clock) {
        Ok(fields) => Ok(fields),
        Err(NoMemory) => Err(TextKind::NoMemory),
    }
}

fn place_fields(alloc: Global, file: &str, line: u64, clock: u64) -> Result<Vec<u8>, NoMemory>
    ensures { IfOk result (λ text. text.items ≡ maps.place_fields file.now line clock) }
{
    let mut text = Vec::new(alloc);
    text.extend_from_slice(b" at=")?;
    push_escaped(alloc, &mut text, file)?;
    let rest = format!(in alloc; ":{line} clock={clock}")?;
    text.extend_from_slice(rest.as_bytes())?;
    Ok(text)
}

/// Appends a text as a JSON string has it between its quotation marks.
fn push_escaped(alloc: Global, out: &mut Vec<u8>, text: &str) -> Result<(), NoMemory>
    ensures { OnOk result (out.new.items ≡ out.old.items ++ escape text.now) }
{
    let quoted = quoted_name(alloc, text)?;
    match quoted.as_bytes() {
        [_, inner @ .., _] => Ok(out.extend_from_slice(inner)?),
        _ => Ok(()),
    }
}
