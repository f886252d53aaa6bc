//! The files of the input, and the file and the line there of a line of the input.
ghost use Rattle.std.specs.Prelude.{◌≡◌};
ghost use Rattle.causal_merge.specs.InputFiles as files;

/// A file of the input, and where it begins there.
#[derive(Drop)]
pub struct InputFile {
    /// Its name as a JSON string, as [`quoted_name`](crate::quoted_name) returns it.
    pub name: String,
    /// The number of line feeds before it.
    pub feeds: u64,
    /// The number of lines that begin before it: as many as line feeds, and one more if its first line began in an
    /// earlier file.
    pub begun: u64,
}

/// Returns the index of the file in which a line of the input begins; 0 if there is no file. Takes O(log files) time.
pub(crate) fn file_index(input: &[InputFile], line: u32) -> usize
    ensures { files.AreFilesInOrder input.now → result ≡ files.file_index input.now line }
{
    let line = u64::from(line);
    input
        .partition_point(|file| file.begun < line)
        .saturating_sub(1)
}
