//! A stream that keeps the error of its last failed call, so that the reason can be printed.
use std::io::{Error, Read, Result, Write};

/// A stream, and the error of its last call that failed.
#[derive(Drop)]
pub struct LastErrorStream<S: Drop> {
    stream: S,
    error: Option<Error>,
}

impl<S: Drop> LastErrorStream<S> {
    /// Wraps a stream that has not failed.
    pub fn new(stream: S) -> LastErrorStream<S> {
        LastErrorStream {
            stream,
            error: None,
        }
    }

    /// Returns the stream.
    pub fn stream(&self) -> &S {
        &self.stream
    }

    /// Returns the error of the last call that failed; None if none has failed.
    pub fn error(&self) -> Option<Error> {
        self.error
    }
}

impl<S: Read + Drop> Read for LastErrorStream<S> {
    ghost remaining = { λ noted. S.remaining noted.stream };

    fn read(&mut self, buf: &mut [u8]) -> Result<usize> {
        let result = self.stream.read(buf);
        if let Err(error) = result {
            self.error = Some(error);
        }
        result
    }
}

impl<S: Write + Drop> Write for LastErrorStream<S> {
    ghost contents = { λ noted. S.contents noted.stream };

    fn write(&mut self, buf: &[u8]) -> Result<usize> {
        let result = self.stream.write(buf);
        if let Err(error) = result {
            self.error = Some(error);
        }
        result
    }

    fn flush(&mut self) -> Result<()> {
        self.stream.flush()
    }
}
