//! The place of a line of the input: its file, and its line there.
use crate::tracked_stream::TrackedStream;
use causal_merge::{InputFile, quoted_name};
use causal_name::NoMemory;
use causal_outcomes::ChainedStream;
use std::alloc::Global;
use std::fmt::{self, Display, Formatter, Write};

/// The place of a line: the index of the file in which it begins, and its number there, counted from 1.
#[derive(Clone, Copy)]
struct Place {
    file: usize,
    line: u64,
}

/// A line of the input as messages name it: `FILE:LINE`, or `line LINE` of standard input alone.
#[derive(Clone, Copy)]
pub struct LineLabel<'a> {
    file: Option<&'a str>,
    line: u64,
}

impl Display for LineLabel<'_> {
    fn fmt<W: Write>(&self, f: &mut Formatter<W>) -> fmt::Result {
        let line = self.line;
        match self.file {
            Some(file) => write!(f, "{file}:{line}"),
            None => write!(f, "line {line}"),
        }
    }
}

/// The files of a command line, and their streams.
#[derive(Drop)]
pub struct InputNames<'a, S: Drop> {
    files: &'a [String],
    sources: &'a ChainedStream<TrackedStream<S>>,
}

impl<'a, S: Drop> InputNames<'a, S> {
    /// Returns the names for the streams of these files, or of standard input if there is none.
    pub fn new(
        files: &'a [String],
        sources: &'a ChainedStream<TrackedStream<S>>,
    ) -> InputNames<'a, S> {
        InputNames { files, sources }
    }

    /// Returns the name of the file that is read now, or that failed; None for standard input alone.
    pub fn present_file(&self) -> Option<&'a str> {
        file_name(self.files, self.sources.present())
    }

    /// Returns the first bytes of this line, if they are known: see `TrackedStream::line_start`.
    pub fn line_start(&self, line: u32) -> Option<Vec<u8>> {
        let place = place_of(self.sources.streams(), line);
        self.sources
            .streams()
            .get(place.file)?
            .line_start(place.line)
    }

    /// Returns the files with their names and where they begin in the input; none for standard input alone.
    pub fn input_files(&self, alloc: Global) -> Result<Vec<InputFile>, NoMemory> {
        let mut files = Vec::new(alloc);
        let mut feeds: u64 = 0;
        let mut is_in_line = false;
        for (name, stream) in self.files.iter().zip(self.sources.streams()) {
            files.push(InputFile {
                name: quoted_name(alloc, name.as_str())?,
                feeds,
                begun: feeds.saturating_add(u64::from(is_in_line)),
            })?;
            feeds = feeds.saturating_add(stream.feeds());
            is_in_line = stream.is_in_line().unwrap_or(is_in_line);
        }
        Ok(files)
    }

    /// Returns how messages name this line, if it is of a file.
    pub fn file_label(&self, line: u32) -> Option<LineLabel<'a>> {
        let label = self.label(line);
        label.file?;
        Some(label)
    }

    /// Returns how messages name this line, which is counted from 1 over all files.
    pub fn label(&self, line: u32) -> LineLabel<'a> {
        let place = place_of(self.sources.streams(), line);
        LineLabel {
            file: file_name(self.files, place.file),
            line: place.line,
        }
    }
}

/// Returns the name of a file, as messages have it; None for standard input alone.
pub fn file_name<'a>(files: &'a [String], file: usize) -> Option<&'a str> {
    let name = files.get(file)?.as_str();
    if files.len() == 1 && crate::source::is_standard_input(name) {
        None
    } else {
        Some(name)
    }
}

/// Returns the place of a line, which is counted from 1 over all files: it may begin in one of them and end in a later one.
fn place_of<S: Drop>(streams: &[TrackedStream<S>], line: u32) -> Place {
    let line = u64::from(line);
    let mut place = Place { file: 0, line };
    let mut feeds: u64 = 0;
    let mut is_in_line = false;
    for (file, stream) in streams.iter().enumerate() {
        // the lines that begin before this file
        let begun = feeds.saturating_add(u64::from(is_in_line));
        if begun < line {
            place = Place {
                file,
                line: line - feeds,
            };
        }
        feeds = feeds.saturating_add(stream.feeds());
        is_in_line = stream.is_in_line().unwrap_or(is_in_line);
    }
    place
}
