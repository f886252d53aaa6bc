//! The recording in which a line begins, and its number there.
ghost use Rattle.std.specs.Prelude.{◌≡◌};
ghost use Rattle.nixu.specs.Places as places;

use crate::c_recording::CRecording;

/// The recording in which a line begins, from 0, and its number there, from 1.
#[derive(Clone, Copy)]
pub struct RecordingPlace {
    pub recording: usize,
    pub line: u32,
}

/// The place of a line, which counts from the first of the recordings.
pub(crate) fn recording_place(line: u32, recordings: &[CRecording<'_>]) -> RecordingPlace
    ensures { result ≡ places.recording_place line recordings.now }
{
    let mut place = RecordingPlace { recording: 0, line };
    while place.recording + 1 < recordings.len() {
        let text = recordings[place.recording].text;
        if place.line as usize <= line_count(text) {
            return place;
        }
        place.line -= feeds(text) as u32;
        place.recording += 1;
    }
    place
}

/// The number of lines that begin in the bytes.
fn line_count(bytes: &[u8]) -> usize
    ensures { result ≡ places.line_count bytes.now }
{
    feeds(bytes) + usize::from(ends_within_line(bytes))
}

/// Whether the bytes end within a line.
fn ends_within_line(bytes: &[u8]) -> bool
    ensures { result ≡ places.ends_within_line bytes.now }
{
    match bytes.last() {
        Some(byte) => *byte != 10,
        None => false,
    }
}

/// The number of line feeds.
fn feeds(bytes: &[u8]) -> usize
    ensures { result ≡ places.feeds bytes.now }
{
    bytes.iter().filter(|byte| **byte == 10).count()
}
