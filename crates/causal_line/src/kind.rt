//! Error kinds of a text.
use causal_trace::fault::TraceFault;
use std::alloc::{AllocError, AllocFailed};
use std::fmt;
use thiserror::Error;

/// An error kind of a line. If several kinds apply, the first in this order is returned.
#[derive(Clone, Copy, Debug, PartialEq, Eq, Error)]
pub enum TextKind {
    /// A line follows the end line, whatever it contains.
    After,
    /// The line contains byte number 33,554,433 of the text, its line feed included; or the first byte beyond another
    /// limit that the caller set.
    Big,
    /// The line is not one JSON value. An empty line, or a line that is not UTF-8, is not one.
    Syntax,
    /// The value is not a header, an entry or an end line, or its version has no such entry.
    Form,
    /// The first line is not a header, or a later line is one.
    Header,
    /// The version is not 1 or 2.
    Version,
    /// The number of processes is not from 1 to 64, or to 256 in version 2.
    Processes,
    /// A trace has at most 65,536 entries, which list at most 1,048,576 determinants in all, unless the caller set
    /// other limits.
    TooLong,
    /// The entry names a process that the trace does not have.
    NoProcess,
    /// Only a process that is up sends, delivers, forgets and crashes.
    NotUp,
    /// Only a process that is down restarts.
    NotDown,
    /// A trace has at most 192 restarts, unless the caller's limit of entries allows more.
    Lanes,
    /// A lane (incarnation) numbers its sends from 0, one by one.
    WrongSsn,
    /// A delivery names the position of an earlier send to its receiver.
    NoSend,
    /// A lane numbers its deliveries from 0, one by one.
    WrongRsn,
    /// A lane delivers no message twice.
    Doubled,
    /// Each listed determinant comes before the next.
    Unsorted,
    /// Each determinant that the entry mentions is that of an earlier delivery, or of the entry itself.
    NoDelivery,
    /// The end line's number is not the number of entries.
    Count,
    /// The text ends without an end line. The error's line is the one after the last.
    Cut,
    /// An allocation failed, at the line that was being read.
    NoMemory,
}

// A derived `Display` of this many messages takes ten times as long to prove.
impl fmt::Display for TextKind {
    fn fmt<W: fmt::Write>(&self, f: &mut fmt::Formatter<W>) -> fmt::Result {
        f.write_str(self.sentence())
    }
}

impl TextKind {
    ghost use Rattle.std.specs.Prelude.{◌≡◌};
    ghost use Rattle.causal_line.specs.Sentences.{kind_sentence};

    /// Returns the error message of the kind.
    pub fn sentence(self) -> &'static str
        ensures { result.now ≡ kind_sentence self }
    {
        match self {
            TextKind::After => "a line follows the end line",
            TextKind::Big => "the text is too long",
            TextKind::Syntax => "the line is not a JSON value",
            TextKind::Form => "the line has none of the shapes",
            TextKind::Header => "the header is not the first line alone",
            TextKind::Version => "there is no such version",
            TextKind::Processes => "the number of processes is not one that the version allows",
            TextKind::TooLong => "the trace would be too long",
            TextKind::NoProcess => "there is no such process",
            TextKind::NotUp => "the process is not up",
            TextKind::NotDown => "the process is not down",
            TextKind::Lanes => "too many lanes have been opened",
            TextKind::WrongSsn => "the send sequence number is not the next one",
            TextKind::NoSend => "there is no such send",
            TextKind::WrongRsn => "the receive sequence number is not the next one",
            TextKind::Doubled => "the message has been delivered",
            TextKind::Unsorted => "the determinants are not in order",
            TextKind::NoDelivery => "there is no delivery of this determinant",
            TextKind::Count => "the number of entries is another",
            TextKind::Cut => "the text ends without an end line",
            TextKind::NoMemory => "no memory",
        }
    }
}

/// An error of a text: the line's number, counted from 1, and the kind.
#[derive(Clone, Copy, Debug, PartialEq, Eq, Error)]
#[error("line {line}: {kind}")]
pub struct TextFault {
    pub line: u32,
    pub kind: TextKind,
}

impl From<TraceFault> for TextKind {
    ghost use Rattle.causal_line.specs.Kinds.{text_kind_of};
    ghost use Rattle.std.specs.Prelude.{◌≡◌};

    ghost from_gives = { λ f e. e ≡ text_kind_of f };

    fn from(fault: TraceFault) -> TextKind {
        match fault {
            TraceFault::Processes => TextKind::Processes,
            TraceFault::TooLong => TextKind::TooLong,
            TraceFault::NoProcess => TextKind::NoProcess,
            TraceFault::NotUp => TextKind::NotUp,
            TraceFault::NotDown => TextKind::NotDown,
            TraceFault::Lanes => TextKind::Lanes,
            TraceFault::WrongSsn => TextKind::WrongSsn,
            TraceFault::NoSend => TextKind::NoSend,
            TraceFault::WrongRsn => TextKind::WrongRsn,
            TraceFault::Doubled => TextKind::Doubled,
            TraceFault::Unsorted => TextKind::Unsorted,
            TraceFault::NoDelivery => TextKind::NoDelivery,
            TraceFault::NoMemory => TextKind::NoMemory,
        }
    }
}

impl From<AllocError> for TextKind {
    ghost use Rattle.causal_line.specs.declared.kind.TextKind.TheVariants.{NoMemory};
    ghost use Rattle.std.specs.Prelude.{◌≡◌};

    ghost from_gives = { λ _ e. e ≡ NoMemory };

    fn from(_refused: AllocError) -> TextKind {
        TextKind::NoMemory
    }
}

impl<T: Drop> From<AllocFailed<T>> for TextKind {
    ghost use Rattle.causal_line.specs.declared.kind.TextKind.TheVariants.{NoMemory};
    ghost use Rattle.std.specs.Prelude.{◌≡◌};

    ghost from_gives = { λ _ e. e ≡ NoMemory };

    fn from(_refused: AllocFailed<T>) -> TextKind {
        Self::NoMemory
    }
}
