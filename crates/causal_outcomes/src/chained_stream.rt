//! Streams that are read one after the other, as `cat` reads files.
ghost use Rattle.std.specs.Prelude.{◌≡◌};
ghost use Rattle.causal_outcomes.specs.Chains.{bytes_in_order, bytes_in_chain};

use std::io::{Read, Result};

/// Streams that are read one after the other, each to its end. They are read as one stream with the bytes of all of them.
#[derive(Drop)]
pub struct ChainedStream<S: Drop> {
    streams: Vec<S>,
    present: usize,
}

impl<S: Read + Drop> ChainedStream<S> {
    /// Chains these streams, of which none was read yet, in their order.
    pub fn new(streams: Vec<S>) -> ChainedStream<S>
        ensures { bytes_in_chain S.remaining result ≡ bytes_in_order S.remaining streams.items }
    {
        ChainedStream {
            streams,
            present: 0,
        }
    }
}

impl<S: Drop> ChainedStream<S> {
    /// Returns all streams in their order.
    pub fn streams(&self) -> &[S]
        ensures { result.now ≡ self.now.streams.items }
    {
        self.streams.as_slice()
    }

    /// Returns the index of the stream that is read now, or that failed; after the end of the last their number.
    pub fn present(&self) -> usize
        ensures { result ≡ self.now.present }
    {
        self.present
    }
}

impl<S: Read + Drop> Read for ChainedStream<S> {
    ghost remaining = { bytes_in_chain S.remaining };

    fn read(&mut self, buf: &mut [u8]) -> Result<usize> {
        while self.present < self.streams.len() {
            let count = self.streams[self.present].read(buf)?;
            if count > 0 || buf.is_empty() {
                return Ok(count);
            }
            self.present += 1;
        }
        Ok(0)
    }
}
