//! What a command line names: files, and standard input.
use crate::tracked_stream::TrackedStream;
use causal_outcomes::ChainedStream;
use std::alloc::Global;
use std::fs;
use std::fs::Files;
use std::io::{self, Error, Input, Read, Result};

/// The name of standard input on the command line.
const STANDARD_INPUT: &str = "-";

/// An open stream that a command line names.
#[derive(Drop)]
pub enum Source<I: Drop, F: Drop> {
    Standard(I),
    File(F),
}

impl<I: Read + Drop, F: Read + Drop> Read for Source<I, F> {
    ghost use Rattle.causal_console.specs.Sources.{bytes_in_source};

    ghost remaining = { bytes_in_source I.remaining F.remaining };

    fn read(&mut self, buf: &mut [u8]) -> Result<usize> {
        match self {
            Source::Standard(stream) => stream.read(buf),
            Source::File(file) => file.read(buf),
        }
    }
}

/// The sources of a command line, read one after the other.
pub type Sources<R> = ChainedStream<
    TrackedStream<Source<<R as Input>::Reader, <R as Files>::File>>,
>;

/// Why a file was not opened.
#[derive(Drop)]
pub enum OpenFault {
    /// The system refused the file with this index.
    Refused { file: usize, error: Error },
    /// An allocation failed.
    NoMemory,
}

/// Whether this name is that of standard input.
pub fn is_standard_input(name: &str) -> bool {
    name == STANDARD_INPUT
}

/// Opens each file in its order; standard input, if none is named.
pub fn open_sources<R: Files + Input>(
    rt: &R,
    alloc: Global,
    files: &[String],
) -> std::result::Result<Sources<R>, OpenFault> {
    let mut sources = Vec::new(alloc);
    if files.is_empty() {
        add_source(alloc, &mut sources, Source::Standard(rt.reader()))?;
    }
    for (file, name) in files.iter().enumerate() {
        match open_source(rt, name.as_str()) {
            Ok(source) => add_source(alloc, &mut sources, source)?,
            Err(error) => return Err(OpenFault::Refused { file, error }),
        }
    }
    Ok(ChainedStream::new(sources))
}

fn add_source<S: Drop>(
    alloc: Global,
    sources: &mut Vec<TrackedStream<S>>,
    source: S,
) -> std::result::Result<(), OpenFault> {
    match sources.push(TrackedStream::new(alloc, source)) {
        Ok(()) => Ok(()),
        Err(_) => Err(OpenFault::NoMemory),
    }
}

fn open_source<R: Files + Input>(rt: &R, name: &str) -> io::Result<Source<R::Reader, R::File>> {
    if is_standard_input(name) {
        Ok(Source::Standard(rt.reader()))
    } else {
        Ok(Source::File(fs::open(rt, name)?))
    }
}
