//! The chunks of a piece of a text, which several workers parse while the calling thread checks their lines in order.
ghost use Rattle.std.specs.Prelude.{◌≡◌, ◌≤◌, ◌<◌, length, take, Ok, true, IfSome, OnOk};
ghost use Rattle.causal_text.specs.PushReaders.{PushReaderState};
ghost use Rattle.causal_reading.specs.Inside.Feeding.{IsFedBy};
ghost use Rattle.causal_reading.specs.Inside.Sharing.{bytes_of};
ghost use Rattle.causal_reading.specs.Inside.PartReading.{IsReadFrom};

use crate::chunks::{CHUNK, split_lines};
use crate::shared_chunk::{ParsedBytes, SharedChunk};
use causal_text::{PushReader, TextRefusal};
use std::alloc::Global;
use std::sync::atomic::{AtomicU64, Ordering};

/// How much the heap of a thread grows before it parses, in bytes: about what a worker's part of a piece takes once it is parsed,
/// and less than what the C library returns to the system as soon as it is free.
const HEAP: usize = 122_880;

/// The chunks of a piece, and how many of them are taken: a worker parses the next one that no other has taken.
#[derive(Drop)]
pub(crate) struct SharedChunks<'a> {
    pub chunks: Vec<SharedChunk<'a>>,
    taken: AtomicU64,
}

/// The reader after the first chunks, or the refusal of one of them, and how many these are.
#[derive(Drop)]
pub(crate) struct PartlyRead {
    pub fed: Result<PushReader, TextRefusal>,
    pub read: usize,
}

impl<'a> SharedChunks<'a> {
    /// Cuts a piece into chunks of whole lines; None if allocation failed.
    pub(crate) fn of(alloc: Global, piece: &'a [u8]) -> Option<SharedChunks<'a>>
        ensures { IfSome result (λ shared. bytes_of shared.chunks.items ≡ piece.now) }
    {
        let mut chunks = Vec::new(alloc);
        let mut left = piece;
        while !left.is_empty() {
            let (bytes, after) = split_lines(left, left.len().min(CHUNK));
            if chunks.push(SharedChunk::new(bytes)).is_err() {
                return None;
            }
            left = after;
        }
        Some(SharedChunks {
            chunks,
            taken: AtomicU64::new(0),
        })
    }

    /// Parses the next chunk that no other has taken; returns false if there is none.
    fn parse_next(&self, alloc: Global) -> bool {
        let next = self.taken.fetch_add(1, Ordering::SeqCst);
        let Some(chunk) = self.chunks.get(next as usize) else {
            return false;
        };
        chunk.parse(alloc);
        true
    }

    /// Parses chunks until all are taken, in a thread of its own.
    pub(crate) fn parse_rest(&self, alloc: Global) {
        grow_heap(alloc);
        for _i in 0..self.chunks.len() {
            if !self.parse_next(alloc) {
                return;
            }
        }
    }

    /// Returns the parsed lines of a chunk, and parses others until they are there; None if another worker still parses it and
    /// all others are taken.
    fn parsed_lines(&self, alloc: Global, chunk: &SharedChunk<'a>) -> Option<ParsedBytes<'a>> {
        for _i in 0..self.chunks.len() {
            if let Some(parsed) = chunk.take_parsed() {
                return Some(parsed);
            }
            if !self.parse_next(alloc) {
                break;
            }
        }
        chunk.take_parsed()
    }

    /// Reads the chunks from this one on, in order: while other workers run, up to one that is not parsed in time, otherwise all.
    fn read_from(&self, alloc: Global, reader: PushReader, from: usize, alone: bool) -> PartlyRead
        ensures fed { (first : PushReaderState) → IsFedBy first (bytes_of (take from self.now.chunks.items)) (Ok reader)
            → IsFedBy first (bytes_of (take result.read self.now.chunks.items)) result.fed }
        ensures all { alone ≡ true → OnOk result.fed (length self.now.chunks.items ≤ result.read) }
    {
        let mut next = reader;
        let mut read = from;
        while let Some(chunk) = self.chunks.get(read) {
            let parsed = self.parsed_lines(alloc, chunk);
            if parsed.is_none() && !alone {
                return PartlyRead {
                    fed: Ok(next),
                    read,
                };
            }
            read += 1;
            match chunk.feed_to(next, parsed) {
                Ok(fed) => next = fed,
                Err(refusal) => {
                    return PartlyRead {
                        fed: Err(refusal),
                        read,
                    };
                }
            }
        }
        PartlyRead {
            fed: Ok(next),
            read,
        }
    }

    /// Reads chunks from the first on, while other workers parse them.
    pub(crate) fn read_ready(&self, alloc: Global, reader: PushReader) -> PartlyRead
        ensures { IsReadFrom reader self.now.chunks.items result }
    {
        self.read_from(alloc, reader, 0, false)
    }

    /// Reads all chunks that are left, after the other workers have ended.
    pub(crate) fn read_rest(
        &self,
        alloc: Global,
        begun: PartlyRead,
    ) -> Result<PushReader, TextRefusal>
        ensures { (first : PushReaderState) → IsFedBy first (bytes_of (take begun.read self.now.chunks.items)) begun.fed
            → IsFedBy first (bytes_of self.now.chunks.items) result }
    {
        let PartlyRead { fed, read } = begun;
        match fed {
            Ok(reader) => self.read_from(alloc, reader, read, true).fed,
            Err(refusal) => Err(refusal),
        }
    }
}

/// Grows the heap of this thread in one step. Otherwise the C library asks the system for it page by page, and the other threads wait
/// each time. Without memory nothing changes.
fn grow_heap(alloc: Global) {
    let _ = Vec::<u8>::with_capacity(alloc, HEAP);
}
