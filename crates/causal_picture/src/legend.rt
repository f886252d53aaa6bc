//! The legend below the rows: each glyph with its meaning.
ghost use Rattle.std.specs.Prelude.{◌≤◌, length};
ghost use Rattle.causal_picture.specs.Writes.{Extends};

use crate::glyphs::{Glyph, push_glyph};
use std::alloc::AllocError;

/// A glyph and its meaning.
type Key = (Glyph, &'static str);

const UPPER_KEYS: [Key; 6] = [
    (Glyph::OpenDot, "send"),
    (Glyph::FaintDot, "sent again"),
    (Glyph::Dot, "delivery"),
    (Glyph::Cross, "crash"),
    (Glyph::Ring, "restart"),
    (Glyph::Square, "stable"),
];

const LOWER_KEYS: [Key; 6] = [
    (Glyph::Triangle, "forgetting"),
    (Glyph::Halo, "chain"),
    (Glyph::Shade, "crash set"),
    (Glyph::Diamond, "holder"),
    (Glyph::OpenDiamond, "orphan"),
    (Glyph::Band, "in its log"),
];

/// Appends a glyph and its meaning.
fn push_key(out: &mut String, x: u64, y: u32, shape: Glyph, meaning: &str) -> Result<(), AllocError>
    ensures { Extends result out.old out.new }
{
    push_glyph(out, x, y, shape)?;
    write!(
        out,
        "<text x='{x}' y='{y}' dx='16' dy='4' fill='#222'>{meaning}</text>\n"
    )
}

/// Appends the keys of a row, from left to right.
fn push_keys(out: &mut String, y: u32, keys: &[Key]) -> Result<(), AllocError>
    requires { length keys.now ≤ 6 }
    ensures { Extends result out.old out.new }
{
    let mut x = 20;
    for (shape, meaning) in keys {
        push_key(out, x, y, *shape, meaning)?;
        x += 100;
    }
    Ok(())
}

/// Appends two rows of glyphs with their meanings.
pub fn push_legend(out: &mut String, upper: u32, lower: u32) -> Result<(), AllocError>
    ensures { Extends result out.old out.new }
{
    push_keys(out, upper, &UPPER_KEYS)?;
    push_keys(out, lower, &LOWER_KEYS)
}
