//! Glyphs, lines and labels. Text and attributes contain only numbers and the words of this file, so nothing needs
//! escaping. Attributes are in single quotes.
ghost use Rattle.std.specs.Prelude.{◌≤◌};
ghost use Rattle.causal_picture.specs.Pictures.{IsSvgPath};
ghost use Rattle.causal_picture.specs.Writes.{Extends, Writes};

use crate::marks::MarkEvent;
use std::alloc::AllocError;

/// A glyph at a point: one for each kind of event, one for a message sent again, and those of the focus.
#[derive(Clone, Copy)]
pub enum Glyph {
    OpenDot,
    Dot,
    Square,
    Cross,
    Ring,
    Triangle,
    FaintDot,
    Halo,
    Shade,
    Diamond,
    OpenDiamond,
    Band,
}

impl Glyph {
    /// How it is drawn around the origin, as the attributes of a path.
    fn attributes(self) -> &'static str {
        match self {
            Glyph::OpenDot => {
                "d='M-4.5 0a4.5 4.5 0 1 0 9 0a4.5 4.5 0 1 0-9 0z' fill='white' stroke='#222' stroke-width='1.5'"
            }
            Glyph::Dot => "d='M-5 0a5 5 0 1 0 10 0a5 5 0 1 0-10 0z' fill='#222'",
            Glyph::Square => "d='M-4-4H4V4H-4z' fill='#0072b2'",
            Glyph::Cross => "d='M-7-7L7 7M-7 7L7-7' fill='none' stroke='#c00000' stroke-width='3'",
            Glyph::Ring => {
                "d='M-7 0a7 7 0 1 0 14 0a7 7 0 1 0-14 0z' fill='white' stroke='#008060' stroke-width='3'"
            }
            Glyph::Triangle => "d='M0-6L6 4H-6z' fill='#a0549b'",
            Glyph::Halo =>
                "d='M-9 0a9 9 0 1 0 18 0a9 9 0 1 0-18 0z' fill='none' stroke='#d55e00' stroke-width='2'",
            Glyph::Shade => "d='M-9-9H9V9H-9z' fill='#ffe3b3'",
            Glyph::FaintDot => {
                "d='M-4.5 0a4.5 4.5 0 1 0 9 0a4.5 4.5 0 1 0-9 0z' fill='white' stroke='#222' stroke-width='1.5' opacity='0.4'"
            }
            Glyph::Diamond => "d='M0-8L6 0L0 8L-6 0z' fill='#0072b2'",
            Glyph::OpenDiamond =>
                "d='M0-8L6 0L0 8L-6 0z' fill='white' stroke='#c00000' stroke-width='2'",
            Glyph::Band => "d='M-9-5H9V5H-9z' fill='#0072b2' fill-opacity='0.25'",
        }
    }
}

/// The glyph of an event: an open dot for a send, a full one for a delivery, a square for a stable determinant, a cross
/// for a crash, a ring for a restart, a triangle for a forget.
pub fn glyph_of(event: &MarkEvent) -> Glyph {
    match event {
        MarkEvent::Send { .. } => Glyph::OpenDot,
        MarkEvent::Delivery { .. } => Glyph::Dot,
        MarkEvent::Stable { .. } => Glyph::Square,
        MarkEvent::Crash { .. } => Glyph::Cross,
        MarkEvent::Restart { .. } => Glyph::Ring,
        MarkEvent::Forget { .. } => Glyph::Triangle,
    }
}

/// Appends a glyph at a point.
pub fn push_glyph(out: &mut String, x: u64, y: u32, shape: Glyph) -> Result<(), AllocError>
    ensures { Extends result out.old out.new }
{
    let attributes = shape.attributes();
    write!(out, "<path transform='translate({x},{y})' {attributes}/>\n")
}

/// Appends a horizontal line.
pub fn push_level(
    out: &mut String,
    from: u64,
    to: u64,
    y: u32,
    stroke: &str,
) -> Result<(), AllocError>
    ensures { Writes result out.old out.new IsSvgPath }
{
    write!(out, "<path d='M{from} {y}H{to}' fill='none' {stroke}/>\n")
}

/// Appends the line of a process that is up.
pub fn push_up(out: &mut String, from: u64, to: u64, y: u32) -> Result<(), AllocError>
    ensures { Extends result out.old out.new }
{
    push_level(out, from, to, y, "stroke='#222' stroke-width='1.5'")
}

/// Appends a vertical line, from above the processes' lines to the bottom.
pub fn push_upright(out: &mut String, x: u64, bottom: u32, stroke: &str) -> Result<(), AllocError>
    ensures { Extends result out.old out.new }
{
    write!(out, "<path d='M{x} 70V{bottom}' fill='none' {stroke}/>\n")
}

/// Appends an arrow from one process's line to another's.
pub fn push_straight(
    out: &mut String,
    from_x: u64,
    from_y: u32,
    to_x: u64,
    to_y: u32,
) -> Result<(), AllocError>
    ensures { Extends result out.old out.new }
{
    write!(
        out,
        "<path d='M{from_x} {from_y}L{to_x} {to_y}' fill='none' stroke='#555' marker-end='url(#arrowhead)'/>\n"
    )
}

/// Appends an arrow from a process's line to itself, bent upwards.
pub fn push_bent(out: &mut String, from_x: u64, to_x: u64, y: u32) -> Result<(), AllocError>
    requires { 30 ≤ y }
    ensures { Extends result out.old out.new }
{
    let middle = from_x.midpoint(to_x);
    let above = y - 30;
    write!(
        out,
        "<path d='M{from_x} {y}Q{middle} {above} {to_x} {y}' fill='none' stroke='#555' marker-end='url(#arrowhead)'/>\n"
    )
}

/// The kind of a label with a number.
#[derive(Clone, Copy)]
pub enum Label {
    /// The name of a process at the left end of its line.
    Name,
    /// The name of a process repeated above its line.
    NameAgain,
    /// The number of an entry's line, above its column.
    LineNumber,
    Instant,
}

impl Label {
    /// The style of the label, and its words before the number.
    fn opening(self) -> &'static str {
        match self {
            Label::Name => "dy='4' text-anchor='end' fill='#222'>process ",
            Label::NameAgain => {
                "dy='-5' text-anchor='middle' font-size='10' fill='#777'>process "
            }
            Label::LineNumber => "text-anchor='middle' font-size='9' fill='#777'>",
            Label::Instant => "dy='14' text-anchor='middle' fill='#0072b2'>instant ",
        }
    }
}

/// Appends a label at a point.
pub fn push_label(
    out: &mut String,
    x: u64,
    y: u32,
    label: Label,
    number: u64,
) -> Result<(), AllocError>
    ensures { Extends result out.old out.new }
{
    let opening = label.opening();
    write!(out, "<text x='{x}' y='{y}' {opening}{number}</text>\n")
}
