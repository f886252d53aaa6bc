//! The parts of a picture. Each is one element of its text.
use crate::marks::Mark;

/// Where a line or a band ends: at the entry at a position, or only with its range or at the instant.
#[derive(Clone, Copy)]
pub enum LineEnd {
    Entry { position: u32 },
    Open,
}

/// What ends or starts at an event, besides its glyph.
#[derive(Clone, Copy)]
pub enum Link {
    Nothing,
    /// The arrow of the delivered message, from its send.
    Arrow,
    /// The line of a process that restarts, to the entry of its next crash; without one, to the end of the range.
    Line { to: LineEnd },
}

/// Where entries are hidden: before the shown ones, between the two ranges, or after them.
#[derive(Clone, Copy)]
pub enum Side {
    Before,
    Between,
    After,
}

/// A part of a picture.
#[derive(Clone, Copy)]
pub enum DrawnPart {
    /// A process, shaded if it is in the crash set.
    Row {
        process: u8,
        is_shaded: bool,
    },
    /// The line of a process that is up where the first or second range begins, to the entry of its next crash; without
    /// one, to the end of the range.
    Up {
        process: u8,
        is_late: bool,
        to: LineEnd,
    },
    /// An event, faint if its message is sent again.
    Event {
        mark: Mark,
        is_faint: bool,
        link: Link,
    },
    /// A band from the entry at a position on; without an end, to the instant.
    Held {
        process: u8,
        from: u32,
        to: LineEnd,
        instant: u32,
    },
    /// The chain's shown entries.
    Chain,
    /// The instant, with the roles of the shown processes.
    Instant {
        instant: u32,
    },
    /// A number of hidden entries.
    HiddenEntries {
        side: Side,
        count: u32,
    },
    /// A number of hidden processes.
    HiddenProcesses {
        count: u16,
    },
}
