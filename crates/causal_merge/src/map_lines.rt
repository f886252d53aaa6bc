//! The map of a merged trace: the file, the line and the clock from which each of its entries comes.
ghost use Rattle.std.specs.Prelude.{◌≡◌, ◌++◌, IfOk, OnOk};
ghost use Rattle.std.specs.String.{string_bytes};
ghost use Rattle.causal_merge.specs.InputFiles.{AreFilesInOrder};
ghost use Rattle.causal_merge.specs.Maps as maps;

use crate::input_files::{InputFile, file_index};
use crate::map::map_line;
use crate::origins::Origin;
use causal_name::NoMemory;
use std::alloc::Global;

/// The name of standard input, as a JSON string.
const STANDARD_INPUT: &str = "\"-\"";

/// Returns the map of a trace whose entries have these origins, in their order: a line for each, as
/// [`map_line`](crate::map_line) returns it. The input is that of the files, one after the other; of no file, it is
/// standard input, `-`. Takes O(log files) time for each entry.
///
/// # Errors
/// `NoMemory` if an allocation failed.
pub fn map_text(alloc: Global, input: &[InputFile], origins: &[Origin]) -> Result<Vec<u8>, NoMemory>
    ensures { IfOk result (λ text. AreFilesInOrder input.now
        → text.items ≡ maps.map_text input.now origins.now) }
{
    let mut text = Vec::new(alloc);
    for position in 0..origins.len() {
        let line = entry_line(alloc, input, position, origins[position])?;
        text.extend_from_slice(line.as_bytes())?;
    }
    Ok(text)
}

/// Returns the line for the entry at a position, with its origin.
fn entry_line(
    alloc: Global,
    input: &[InputFile],
    position: usize,
    origin: Origin,
) -> Result<String, NoMemory>
    ensures { IfOk result (λ text. AreFilesInOrder input.now
        → string_bytes text ≡ maps.entry_line input.now position origin) }
{
    let line = u64::from(origin.line);
    match input.get(file_index(input, origin.line)) {
        Some(file) => {
            let line = line.saturating_sub(file.feeds);
            map_line(alloc, position, file.name.as_str(), line, origin.clock)
        }
        None => map_line(alloc, position, STANDARD_INPUT, line, origin.clock),
    }
}
