//! A chunk of a text that any worker parses and the calling thread reads.
ghost use Rattle.std.specs.Prelude.{◌≡◌};
ghost use Rattle.causal_reading.specs.Inside.Feeding.{IsFedBy};

use causal_text::{ParsedChunk, PushReader, TextRefusal, parse_chunk};
use std::alloc::Global;
use std::sync::Mutex;

/// A parsed chunk, and its bytes.
#[derive(Drop)]
pub(crate) struct ParsedBytes<'a> {
    bytes: &'a [u8],
    chunk: ParsedChunk<'a>,
    ghost same: { chunk ≡ bytes.now },
}

/// A chunk of a piece, and its lines from when a worker has parsed them until the calling thread takes them.
#[derive(Drop)]
pub(crate) struct SharedChunk<'a> {
    pub bytes: &'a [u8],
    parsed: Mutex<Option<ParsedBytes<'a>>>,
}

impl<'a> SharedChunk<'a> {
    /// Returns a chunk of these bytes that is not parsed yet.
    pub(crate) fn new(bytes: &'a [u8]) -> SharedChunk<'a>
        ensures { result.bytes.now ≡ bytes.now }
    {
        SharedChunk {
            bytes,
            parsed: Mutex::new(None),
        }
    }

    /// Parses the chunk. Without memory it is left as it is, and the calling thread parses it when it has its turn.
    pub(crate) fn parse(&self, alloc: Global) {
        let Ok(chunk) = parse_chunk(alloc, self.bytes) else {
            return;
        };
        let parsed = ParsedBytes {
            bytes: self.bytes,
            chunk,
        };
        if let Some(mut place) = self.parsed.try_lock() {
            *place = Some(parsed);
        }
    }

    /// Returns the parsed lines; None if the chunk is not parsed yet.
    pub(crate) fn take_parsed(&self) -> Option<ParsedBytes<'a>> {
        match self.parsed.try_lock() {
            Some(mut place) => place.take(),
            None => None,
        }
    }

    /// Reads the chunk, whose parsed lines these are, if it is parsed. That they are is checked: it takes little beside parsing.
    pub(crate) fn feed_to(
        &self,
        reader: PushReader,
        parsed: Option<ParsedBytes<'a>>,
    ) -> Result<PushReader, TextRefusal>
        ensures { IsFedBy reader self.now.bytes.now result }
    {
        if let Some(ParsedBytes { bytes, chunk }) = parsed {
            if bytes == self.bytes {
                return feed_lines(reader, chunk);
            }
        }
        feed_here(reader, self.bytes)
    }
}

/// Reads a chunk whose lines are parsed.
#[tactic(auto, using(crate::proofs::FeedLemmas::fed_of))]
fn feed_lines(reader: PushReader, chunk: ParsedChunk<'_>) -> Result<PushReader, TextRefusal>
    ensures { IsFedBy reader chunk.entry result }
{
    reader.feed_parsed(chunk)
}

/// Reads more bytes in the calling thread.
#[tactic(auto, using(crate::proofs::FeedLemmas::fed_of))]
pub(crate) fn feed_here(reader: PushReader, bytes: &[u8]) -> Result<PushReader, TextRefusal>
    ensures { IsFedBy reader bytes.now result }
{
    reader.feed(bytes)
}
