//! What standard error adds to the message of an error: what was found on the line, what was expected there, and what to do.
use crate::diagnostics::print_error_line;
use crate::shapes::{RECORDING_SHAPES, Shape, TRACE_SHAPES};
use causal_text::TextKind;
use causal_trace::limits::{DEFAULT_ENTRIES, DEFAULT_RESTARTS, MAX_ENTRIES};
use std::fmt::{self, Display, Formatter, Write};

/// What the lines of a text were taken for.
#[derive(Clone, Copy)]
pub(crate) enum FileContent {
    Trace,
    Recordings,
}

/// Bytes of a line, of which those that are not printable ASCII are printed as `\xNN`.
#[derive(Clone, Copy)]
struct Escaped<'a> {
    bytes: &'a [u8],
}

impl Display for Escaped<'_> {
    fn fmt<W: Write>(&self, f: &mut Formatter<W>) -> fmt::Result {
        for byte in self.bytes {
            match *byte {
                b' '..=b'~' => f.write_char(*byte as char)?,
                byte => write!(f, "\\x{byte:02x}")?,
            }
        }
        Ok(())
    }
}

/// Prints what helps to mend an error of this kind, whose line begins with these bytes, as far as they are known.
pub(crate) fn print_hints<R: Eprint>(
    rt: &R,
    command: &str,
    content: FileContent,
    kind: TextKind,
    start: Option<&[u8]>,
) {
    match (kind, start) {
        (TextKind::TooLong | TextKind::Big, _) => {
            let _ = eprintln!(rt;
                "{command}: give --entries N for a longer one, N to {MAX_ENTRIES}"
            );
        }
        (TextKind::Lanes, _) => {
            let _ = eprintln!(rt;
                "{command}: give --entries N for more than {DEFAULT_RESTARTS} restarts: at most N / 256 of all processes together, N above {DEFAULT_ENTRIES}, to {MAX_ENTRIES}"
            );
        }
        (TextKind::Form, Some(start)) => print_shape_hints(rt, command, content, start),
        (TextKind::Syntax, Some(start)) => {
            if let Some(other) = other_text(content, start) {
                print_error_line(rt, command, &other);
            }
        }
        _ => {}
    }
}

fn print_shape_hints<R: Eprint>(rt: &R, command: &str, content: FileContent, start: &[u8]) {
    if let Some(other) = other_text(content, start) {
        return print_error_line(rt, command, &other);
    }
    print_found(rt, command, start);
    let shapes: &[Shape] = match content {
        FileContent::Trace => &TRACE_SHAPES,
        FileContent::Recordings => &RECORDING_SHAPES,
    };
    match shapes
        .iter()
        .find(|shape| shape.has_word(first_word(start)))
    {
        Some(Shape { fields, ranges, .. }) => {
            let _ = eprintln!(rt; "{command}: expected there: {fields}, {ranges}");
        }
        None => {
            let words = match content {
                FileContent::Trace =>
                    "trace (in line 1), send, deliver, stable, crash, restart, forget or end",
                FileContent::Recordings =>
                    "recording, send, deliver, stable, crash, restart, forget or heard",
            };
            let _ = eprintln!(rt;
                "{command}: expected there: an array whose first word is {words}"
            );
        }
    }
}

fn print_found<R: Eprint>(rt: &R, command: &str, start: &[u8]) {
    let found = Escaped { bytes: start };
    let _ = eprintln!(rt; "{command}: found there: {found}");
}

/// Returns what a line is that begins with these bytes, if it is a text of another kind.
fn other_text(content: FileContent, start: &[u8]) -> Option<&'static str> {
    match (content, start) {
        (_, [0x1f, 0x8b, ..]) => Some(
            "this is compressed by gzip: unpack it first, as by gzip -dc",
        ),
        (_, [0xff, 0xfe, ..] | [0xfe, 0xff, ..]) => Some("this is UTF-16: write it as UTF-8"),
        (_, [0xef, 0xbb, 0xbf, ..]) => Some("a byte-order mark stands there: remove it"),
        (_, [b'#', ..]) => Some("a comment stands there: the format has none"),
        (FileContent::Trace, _) if first_word(start) == b"recording".as_slice() => {
            Some("this is a recording: merge it first, by causal_tool merge")
        }
        (FileContent::Recordings, _) if first_word(start) == b"trace".as_slice() => {
            Some("this is a trace, which is not merged: give it to causal_tool audit")
        }
        _ => None,
    }
}

/// Returns the first word of a line `["WORD",..`; empty if it does not begin so.
fn first_word(start: &[u8]) -> &[u8] {
    let mut parts = start.splitn(3, |byte| *byte == b'"');
    match (parts.next(), parts.next()) {
        (Some(before), Some(word)) if before.trim_ascii() == b"[".as_slice() => word,
        _ => &[],
    }
}
