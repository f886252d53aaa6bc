//! The file of a map: `explain` reads it, and `merge` writes it.
use crate::place::InputNames;
use crate::source::is_standard_input;
use causal_merge::{Origin, map_text};
use causal_outcomes::{Ended, LastErrorStream, MergeOutcome};
use causal_text::write_whole;
use std::fs::{self, Files};
use std::io::{self, Read, Result};
use std::path::PathBuf;

/// The file of a map that is read. It is opened when it is first read, so that the command before it in a pipe may still
/// write it.
#[derive(Drop)]
pub struct MapFile<'a, R: Files + Drop> {
    rt: R,
    name: Option<&'a str>,
    file: Option<R::File>,
}

impl<'a, R: Files + Drop> MapFile<'a, R> {
    /// Names the file; without a name there are no bytes.
    pub fn new(rt: R, name: Option<&'a str>) -> MapFile<'a, R> {
        MapFile {
            rt,
            name,
            file: None,
        }
    }
}

impl<R: Files + Drop> Read for MapFile<'_, R> {
    fn read(&mut self, buf: &mut [u8]) -> Result<usize> {
        if let Some(file) = &mut self.file {
            return file.read(buf);
        }
        let Some(name) = self.name else {
            return Ok(0);
        };
        let mut file = fs::open(&self.rt, name)?;
        let count = file.read(buf);
        self.file = Some(file);
        count
    }
}

/// Returns the first of these files that the file of a map would replace: it has that name, or the system resolves both
/// names to one path, through folders and symbolic links. Another hard link to it, and standard input, are not found.
pub fn replaced_input<'a, R: Files + AllocGlobal>(
    rt: &R,
    map: &str,
    files: &'a [String],
) -> Option<&'a str> {
    let resolved = fs::canonicalize(rt, map).ok();
    for file in files {
        let name = file.as_str();
        if is_standard_input(name) {
            continue;
        }
        if name == map || is_resolved(rt, name, resolved.as_ref()) {
            return Some(name);
        }
    }
    None
}

/// Returns whether the system resolves a name to this path.
fn is_resolved<R: Files + AllocGlobal>(rt: &R, name: &str, resolved: Option<&PathBuf>) -> bool {
    let Some(resolved) = resolved else {
        return false;
    };
    match fs::canonicalize(rt, name) {
        Ok(path) => path.as_str() == resolved.as_str(),
        Err(_) => false,
    }
}

/// Why a map was not written.
#[derive(Clone, Copy)]
enum MapWriteFault {
    /// The file could not be created or written.
    Write(Option<io::Error>),
    /// An allocation failed.
    NoMemory,
}

/// Writes the map of a merged trace, if there is one and it is wanted, into the file with this name, which it creates or
/// replaces. Returns how `merge` ends, and the error of the file.
pub fn write_map<R: Files + AllocGlobal, S: Drop>(
    rt: &R,
    name: Option<&str>,
    input: &InputNames<'_, S>,
    merged: &MergeOutcome,
) -> (Ended, Option<io::Error>) {
    let (Ended::Merged, Some(name)) = (merged.ended, name) else {
        return (merged.ended, None);
    };
    match write_lines(rt, name, input, merged.origins.as_slice()) {
        Ok(()) => (Ended::Merged, None),
        Err(MapWriteFault::Write(error)) => (Ended::WriteFault, error),
        Err(MapWriteFault::NoMemory) => (Ended::NoMemory, None),
    }
}

fn write_lines<R: Files + AllocGlobal, S: Drop>(
    rt: &R,
    name: &str,
    input: &InputNames<'_, S>,
    origins: &[Origin],
) -> std::result::Result<(), MapWriteFault> {
    let Ok(files) = input.input_files(rt.alloc()) else {
        return Err(MapWriteFault::NoMemory);
    };
    let Ok(text) = map_text(rt.alloc(), files.as_slice(), origins) else {
        return Err(MapWriteFault::NoMemory);
    };
    let mut file = match fs::create(rt, name) {
        Ok(file) => LastErrorStream::new(file),
        Err(error) => return Err(MapWriteFault::Write(Some(error))),
    };
    match write_whole(text.as_slice(), &mut file) {
        Ok(()) => Ok(()),
        Err(_) => Err(MapWriteFault::Write(file.error())),
    }
}
