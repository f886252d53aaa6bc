//! The text of the ring, read in pieces, and written. What texts spell, their errors, and streams of single bytes that
//! fail at each call are tested on the built program (`examples/commands/`, `trials/refuse.py`).
use causal_text::{
    Progress, ReaderFault, TraceReader, WriteCause, WriteFault, read_from, write_trace,
};
use causal_trace::trace::Trace;
use std::alloc::Global;
use std::io;
use std::io::{Read, Write};

/// A message goes once around three processes; each logs its own delivery and the one before it.
const RING: &str = r#"["trace",1,3]
["send",0,1,0]
["deliver",1,0,0,[[0,0,1,0]]]
["send",1,2,0]
["deliver",2,2,0,[[0,0,1,0],[1,0,2,0]]]
["send",2,0,0]
["deliver",0,4,0,[[1,0,2,0],[2,0,0,0]]]
["end",6]
"#;

// returns at most `step` bytes in each call; at the end of the text it fails if `fails` is set
#[derive(Drop)]
struct Slow<'a> {
    rest: &'a [u8],
    step: usize,
    fails: bool,
}

impl<'a> Read for Slow<'a> {
    fn read(&mut self, buf: &mut [u8]) -> io::Result<usize> {
        if self.rest.is_empty() && self.fails {
            return Err(io::Error::from(io::ErrorKind::Interrupted));
        }
        let step = self.step.min(buf.len());
        self.rest.read(&mut buf[..step])
    }
}

/// The ring, read in pieces of seven bytes.
pub(crate) fn read_ring(alloc: Global) -> Option<Trace> {
    let source = Slow {
        rest: RING.as_bytes(),
        step: 7,
        fails: false,
    };
    read_from(alloc, source).ok()
}

/// The result of reading one more piece.
type Piece = Result<Progress, ReaderFault>;

/// Returns whether a reader returns these results in turn.
fn gives(reader: &mut TraceReader<Slow<'_>>, pieces: &[Piece]) -> bool {
    for piece in pieces {
        if reader.next_piece() != *piece {
            return false;
        }
    }
    true
}

/// Returns whether a reader of the ring, whose source may fail at its end, returns these results, and then a trace or
/// that error.
fn ends_with(alloc: Global, fails: bool, pieces: &[Piece], end: Option<ReaderFault>) -> bool {
    let source = Slow {
        rest: RING.as_bytes(),
        step: 4096,
        fails,
    };
    let mut reader = TraceReader::new(alloc, source);
    let is_right = gives(&mut reader, pieces);
    reader.into_trace().err() == end && is_right
}

/// The results of a source that fails after one piece.
const FAILED: [Piece; 3] = [
    Ok(Progress::More),
    Err(ReaderFault::Read),
    Err(ReaderFault::Failed),
];

/// The results of a source that ends after one piece.
const WHOLE: [Piece; 3] = [Ok(Progress::More), Ok(Progress::Ended), Ok(Progress::Ended)];

#[test]
fn into_trace_faults(rt: HostRuntime) {
    assert!(rt; ends_with(rt.alloc(), true, &FAILED, Some(ReaderFault::Failed)));
    assert!(rt; ends_with(rt.alloc(), false, &WHOLE, None));
}

// accepts the expected bytes, one in each call; then, and at any other byte, none, or it fails if `fails` is set
#[derive(Drop)]
struct Narrow<'a> {
    expected: &'a [u8],
    fails: bool,
}

impl<'a> Write for Narrow<'a> {
    fn write(&mut self, buf: &[u8]) -> io::Result<usize> {
        if let (Some(byte), Some((next, rest))) = (buf.first(), self.expected.split_first()) {
            if byte == next {
                self.expected = rest;
                return Ok(1);
            }
        }
        if self.fails {
            return Err(io::Error::from(io::ErrorKind::Interrupted));
        }
        Ok(0)
    }

    fn flush(&mut self) -> io::Result<()> {
        Ok(())
    }
}

/// Returns whether writing a trace to a writer that accepts this text returns this result, and has written exactly the
/// text.
fn writes(
    alloc: Global,
    trace: &Trace,
    (text, fails): (&str, bool),
    answer: Result<(), WriteFault>,
) -> bool {
    let mut writer = Narrow {
        expected: text.as_bytes(),
        fails,
    };
    write_trace(alloc, trace, &mut writer) == answer && writer.expected.is_empty()
}

const STOPPED: Result<(), WriteFault> = Err(WriteFault {
    written: 3,
    cause: WriteCause::Device,
});

/// Returns whether the ring's trace is written to a writer of single bytes, and three bytes of it to one that then
/// accepts none or fails.
pub(crate) fn is_written(alloc: Global, trace: &Trace) -> bool {
    writes(alloc, trace, (RING, true), Ok(()))
        && writes(alloc, trace, ("[\"t", false), STOPPED)
        && writes(alloc, trace, ("[\"t", true), STOPPED)
}
