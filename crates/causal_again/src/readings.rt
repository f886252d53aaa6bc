//! Texts of a trace: reading, printing and audits.
use crate::reporting::{TRIES, print_refusal, print_result};
use causal_audit::{Tables, judge, verdict_of};
use causal_commands::audit_stream;
use causal_outcomes::Ended;
use causal_text::{Progress, ReaderFault, TraceReader, read_trace, text_of, write_whole};
use causal_trace::trace::Trace;
use causal_workers::{OpenGate, audit, audit_text};
use std::alloc::Global;
use std::io;
use std::io::Read;
use std::rt::Clock;
use std::sync::Wait;
use std::thread::Threads;

/// Process 1 restarts without the determinant that process 2 holds.
const TEXT: &str = r#"["trace",1,3]
["send",0,1,0]
["deliver",1,0,0,[[0,0,1,0]]]
["send",1,2,0]
["deliver",2,2,0,[[0,0,1,0],[1,0,2,0]]]
["send",2,0,0]
["deliver",0,4,0,[[1,0,2,0],[2,0,0,0]]]
["crash",1]
["restart",1,[]]
["end",8]
"#;

/// The number of bytes that one read returns; no line fits into them.
const STEP: usize = 11;

/// An upper bound on the number of the text's pieces.
const MOST: u32 = 100;

/// A reader that returns a few bytes in each call.
#[derive(Drop)]
struct Drip<'a> {
    rest: &'a [u8],
}

impl<'a> Read for Drip<'a> {
    fn read(&mut self, buf: &mut [u8]) -> io::Result<usize> {
        let count = STEP.min(self.rest.len()).min(buf.len());
        let (piece, rest) = self.rest.split_at(count);
        buf[..count].copy_from_slice(piece);
        self.rest = rest;
        Ok(count)
    }
}

fn source() -> Drip<'static> {
    Drip {
        rest: TEXT.as_bytes(),
    }
}

/// Reads all pieces. Returns the number of pieces before the end.
fn all_pieces(reader: &mut TraceReader<Drip<'static>>) -> Result<u32, ReaderFault> {
    for count in 0..MOST {
        match reader.next_piece() {
            Ok(Progress::More) => {}
            Ok(Progress::Ended) => return Ok(count),
            Err(fault) => return Err(fault),
        }
    }
    Err(ReaderFault::Unfinished)
}

/// Reads the text with a new reader, once. Returns whether it reached the end. After a refusal a reader reads no
/// further.
fn is_read_in_pieces<P: Print + Eprint>(rt: &P, alloc: Global) -> bool {
    let mut reader = TraceReader::new(alloc, source());
    match all_pieces(&mut reader) {
        Ok(count) => print_result(rt, "next_piece", &count),
        Err(fault) => {
            let has_failed = reader.next_piece() == Err(ReaderFault::Failed);
            print_refusal(rt, "next_piece", &fault, has_failed)
        }
    }
}

fn is_answered<R: Print + Eprint + Threads + Wait + Clock>(rt: &R, alloc: Global) -> bool {
    match audit_stream(
        rt,
        alloc,
        &mut source(),
        &mut io::writer(rt),
        1,
        1,
        &OpenGate,
    ) {
        Ended::Breached => true,
        Ended::NoMemory => print_refusal(rt, "audit_stream", &"no memory", true),
        _ => print_refusal(rt, "audit_stream", &"another end", false),
    }
}

/// Reads the text in pieces, prints the answer of an audit, and audits the text with two threads, each until it
/// succeeds.
pub fn are_read<R: Print + Eprint + Threads + Wait + Clock>(rt: &R, alloc: Global) -> bool {
    let mut is_read = false;
    let mut is_told = false;
    let mut is_judged = false;
    for _ in 0..TRIES {
        is_read = is_read || is_read_in_pieces(rt, alloc);
        is_told = is_told || (is_read && is_answered(rt, alloc));
        is_judged = is_judged || (is_told && by_text(rt, alloc));
    }
    is_judged
}

/// Reads the text's trace, until it succeeds.
pub fn retry_read<P: Print + Eprint>(rt: &P, alloc: Global) -> Option<Trace> {
    for _ in 0..TRIES {
        match read_trace(alloc, TEXT.as_bytes()) {
            Ok(trace) => return Some(trace),
            Err(fault) => print_refusal(rt, "read_trace", &fault, true),
        };
    }
    None
}

fn by_one<P: Print + Eprint>(rt: &P, alloc: Global, trace: &Trace) -> bool {
    match verdict_of(alloc, trace, 1) {
        Ok(verdict) => print_result(rt, "verdict_of", &verdict),
        Err(fault) => print_refusal(rt, "verdict_of", &fault, true),
    }
}

fn by_two<R: Print + Eprint + Threads + Wait>(rt: &R, alloc: Global, trace: &Trace) -> bool {
    match audit(rt, alloc, trace, 1, 2, &OpenGate) {
        Ok(verdict) => print_result(rt, "audit", &verdict),
        Err(fault) => print_refusal(rt, "audit", &fault, true),
    }
}

fn by_tables<P: Print + Eprint>(rt: &P, alloc: Global, trace: &Trace) -> bool {
    match Tables::of(alloc, trace) {
        Ok(tables) => print_result(rt, "tables_of", &judge(&tables, 1)),
        Err(fault) => print_refusal(rt, "tables_of", &fault, true),
    }
}

/// Audits the text with two threads, once.
fn by_text<R: Print + Eprint + Threads + Wait>(rt: &R, alloc: Global) -> bool {
    match audit_text(rt, alloc, TEXT.as_bytes(), 1, 2, &OpenGate) {
        Ok(judged) => print_result(rt, "audit_text", &judged.verdict),
        Err(fault) => print_refusal(rt, "audit_text", &fault, true),
    }
}

/// Prints a trace.
fn is_printed<P: Print + Eprint>(rt: &P, alloc: Global, trace: &Trace) -> bool {
    match text_of(alloc, trace) {
        Ok(text) => write_whole(text.as_slice(), &mut io::writer(rt)).is_ok(),
        Err(fault) => print_refusal(rt, "text_of", &fault, true),
    }
}

/// Prints a trace and audits it with one thread, by its tables and with two threads, each until it succeeds.
pub fn is_judged<R: Print + Eprint + Threads + Wait>(rt: &R, alloc: Global, trace: &Trace) -> bool {
    let mut is_shown = false;
    let mut is_known = false;
    let mut is_found = false;
    let mut is_agreed = false;
    for _ in 0..TRIES {
        is_shown = is_shown || is_printed(rt, alloc, trace);
        is_known = is_known || (is_shown && by_one(rt, alloc, trace));
        is_found = is_found || (is_known && by_tables(rt, alloc, trace));
        is_agreed = is_agreed || (is_found && by_two(rt, alloc, trace));
    }
    is_agreed
}
