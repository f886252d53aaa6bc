//! A stream that counts its lines and keeps what was read last, so that a line with an error can be found and shown.
ghost use Rattle.std.specs.Prelude.{◌≡◌};

use memchr::{memchr, memrchr};
use std::alloc::{AllocError, Global};
use std::io::{Read, Result};

/// The maximum number of bytes of a line that are kept.
const MAX_SHOWN: usize = 80;

/// A stream, the number of line feeds read, and the last piece read with the first bytes of the line that was open
/// before it.
#[derive(Drop)]
pub struct TrackedStream<S: Drop> {
    stream: S,
    alloc: Global,
    /// The line feeds before the last piece.
    feeds_before: u64,
    /// The line feeds up to the end of the last piece.
    feeds: u64,
    /// The first bytes of the line that was open before the last piece; empty if none was.
    open_line: Vec<u8>,
    /// The last piece that is not empty.
    piece: Vec<u8>,
    /// Whether the last byte is not a line feed; None before the first byte.
    is_in_line: Option<bool>,
    /// Whether an allocation failed, so that the last bytes are not known.
    is_lost: bool,
}

impl<S: Drop> TrackedStream<S> {
    /// Wraps a stream that was not read yet.
    pub fn new(alloc: Global, stream: S) -> TrackedStream<S> {
        TrackedStream {
            stream,
            alloc,
            feeds_before: 0,
            feeds: 0,
            open_line: Vec::new(alloc),
            piece: Vec::new(alloc),
            is_in_line: None,
            is_lost: false,
        }
    }

    /// Returns the number of line feeds that were read.
    pub fn feeds(&self) -> u64 {
        self.feeds
    }

    /// Whether the last byte that was read is not a line feed; None if no byte was read.
    pub fn is_in_line(&self) -> Option<bool> {
        self.is_in_line
    }

    /// Returns the first bytes of this line of the stream, counted from 1, without its line feed: at most 80, as far as
    /// they were read. None if the line ended before the last piece, or an allocation failed.
    pub fn line_start(&self, line: u64) -> Option<Vec<u8>> {
        if self.is_lost {
            return None;
        }
        let feeds = line.checked_sub(1)?.checked_sub(self.feeds_before)?;
        let mut shown = Vec::new(self.alloc);
        let after = match feeds.checked_sub(1) {
            None => {
                shown.extend_from_slice(self.open_line.as_slice()).ok()?;
                self.piece.as_slice()
            }
            Some(skipped) => after_feed(self.piece.as_slice(), skipped)?,
        };
        let room = MAX_SHOWN.saturating_sub(shown.len());
        shown.extend_from_slice(line_prefix(after, room)).ok()?;
        Some(shown)
    }

    /// Records one more piece.
    fn note(&mut self, piece: &[u8])
        ensures { self.new.stream ≡ self.old.stream }
    {
        let [.., last] = piece else {
            return;
        };
        self.is_in_line = Some(*last != b'\n');
        self.feeds_before = self.feeds;
        self.feeds = self.feeds.saturating_add(count_feeds(piece));
        if self.keep(piece).is_err() {
            self.is_lost = true;
        }
    }

    /// Keeps the piece in place of the one before.
    fn keep(&mut self, piece: &[u8]) -> std::result::Result<(), AllocError>
        ensures { self.new.stream ≡ self.old.stream }
    {
        let before = self.piece.as_slice();
        let begun = match memrchr(b'\n', before) {
            Some(feed) => {
                self.open_line.clear();
                &before[feed + 1..]
            }
            None => before,
        };
        let room = MAX_SHOWN.saturating_sub(self.open_line.len());
        self.open_line.extend_from_slice(line_prefix(begun, room))?;
        self.piece.clear();
        self.piece.extend_from_slice(piece)
    }
}

/// Returns how many of the bytes are line feeds. A part of at most 255 bytes is counted in one byte, so that the processor
/// adds up many at once.
fn count_feeds(bytes: &[u8]) -> u64 {
    let mut feeds: u64 = 0;
    for part in bytes.chunks(255) {
        feeds = feeds.saturating_add(u64::from(count_few_feeds(part)));
    }
    feeds
}

/// Returns how many of at most 255 bytes are line feeds.
fn count_few_feeds(bytes: &[u8]) -> u8 {
    let mut feeds: u8 = 0;
    for byte in bytes {
        feeds = feeds.wrapping_add(u8::from(*byte == b'\n'));
    }
    feeds
}

/// Returns what follows the line feed with this number, counted from 0.
fn after_feed(bytes: &[u8], number: u64) -> Option<&[u8]> {
    let mut left = bytes;
    for _ in 0..number {
        left = after_first_feed(left)?;
    }
    after_first_feed(left)
}

fn after_first_feed(bytes: &[u8]) -> Option<&[u8]> {
    let feed = memchr(b'\n', bytes)?;
    Some(&bytes[feed + 1..])
}

/// Returns the bytes before the first line feed, but at most `room` of them.
fn line_prefix(bytes: &[u8], room: usize) -> &[u8] {
    let end = memchr(b'\n', bytes).unwrap_or(bytes.len());
    &bytes[..end.min(room)]
}

impl<S: Read + Drop> Read for TrackedStream<S> {
    ghost remaining = { λ tracked. S.remaining tracked.stream };

    fn read(&mut self, buf: &mut [u8]) -> Result<usize> {
        let count = self.stream.read(buf)?;
        self.note(&buf[..count]);
        Ok(count)
    }
}
