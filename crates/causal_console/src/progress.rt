//! A stream that prints the progress of a long read on a terminal.
use memchr::memchr_iter;
use std::io::{Read, Result};
use std::time::{Clock, Duration, Instant};

/// The number of bytes between two reads of the clock.
const CHECK_EVERY_BYTES: u64 = 1_048_576;

/// The number of seconds before the first report.
const FIRST_REPORT_SECONDS: u64 = 1;

/// How much of a text was read, and when that is printed next: after a second, two, four and so on.
#[derive(Clone, Copy)]
struct ReadProgress {
    command: &'static str,
    started: Instant,
    due: u64,
    lines: u64,
    bytes: u64,
    checked_bytes: u64,
}

impl ReadProgress {
    /// Starts at the beginning of a text; None if the clock cannot be read.
    fn new<R: Clock>(rt: &R, command: &'static str) -> Option<ReadProgress> {
        Some(ReadProgress {
            command,
            started: Instant::now(rt).ok()?,
            due: FIRST_REPORT_SECONDS,
            lines: 0,
            bytes: 0,
            checked_bytes: 0,
        })
    }

    /// Adds one more piece. It prints the progress if that is due. At the end, an empty piece, it prints once more if
    /// it has printed before, and returns None.
    fn advance<R: Clock + Eprint>(self, rt: &R, piece: &[u8]) -> Option<ReadProgress> {
        if piece.is_empty() {
            if self.due > FIRST_REPORT_SECONDS {
                self.print_progress(rt, self.started.elapsed(rt).ok()?, "in all");
            }
            return None;
        }
        let lines = memchr_iter(b'\n', piece).count() as u64;
        let now = ReadProgress {
            lines: self.lines.saturating_add(lines),
            bytes: self.bytes.saturating_add(piece.len() as u64),
            ..self
        };
        if now.bytes.saturating_sub(now.checked_bytes) < CHECK_EVERY_BYTES {
            return Some(now);
        }
        now.report_if_due(rt)
    }

    /// Prints the progress, if that is due.
    fn report_if_due<R: Clock + Eprint>(self, rt: &R) -> Option<ReadProgress> {
        let passed = self.started.elapsed(rt).ok()?;
        let asked = self.bytes;
        if passed.as_secs() < self.due {
            return Some(ReadProgress {
                checked_bytes: asked,
                ..self
            });
        }
        self.print_progress(rt, passed, "so far");
        let due = passed.as_secs().saturating_mul(2);
        Some(ReadProgress {
            checked_bytes: asked,
            due,
            ..self
        })
    }

    fn print_progress<R: Eprint>(self, rt: &R, passed: Duration, when: &str) {
        let ReadProgress {
            command,
            lines,
            bytes,
            ..
        } = self;
        let megabytes = bytes / 1_000_000;
        let rate = bytes as u128 / passed.as_micros().max(1);
        let _ = eprintln!(rt; "{command}: {lines} lines, {megabytes} MB, {rate} MB/s {when}");
    }
}

/// A stream, and the progress of its reading.
#[derive(Drop)]
pub struct ProgressStream<R: Drop, S: Drop> {
    rt: R,
    stream: S,
    progress: Option<ReadProgress>,
}

impl<R: Clock + Drop, S: Drop> ProgressStream<R, S> {
    /// Wraps a stream that was not read yet. Progress is printed only if `is_watched`.
    pub fn new(rt: R, command: &'static str, stream: S, is_watched: bool) -> ProgressStream<R, S> {
        let progress = if is_watched {
            ReadProgress::new(&rt, command)
        } else {
            None
        };
        ProgressStream {
            rt,
            stream,
            progress,
        }
    }
}

impl<R: Drop, S: Drop> ProgressStream<R, S> {
    /// Returns the stream.
    pub fn stream(&self) -> &S {
        &self.stream
    }
}

impl<R: Clock + Eprint + Drop, S: Read + Drop> Read for ProgressStream<R, S> {
    ghost remaining = { λ watched. S.remaining watched.stream };

    fn read(&mut self, buf: &mut [u8]) -> Result<usize> {
        let read = self.stream.read(buf)?;
        if let Some(progress) = self.progress {
            self.progress = progress.advance(&self.rt, &buf[..read]);
        }
        Ok(read)
    }
}
