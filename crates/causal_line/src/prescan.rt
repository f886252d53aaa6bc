//! A scan of a long line before its JSON tree is built. The tree of a deeply nested line, or of one with many small
//! arrays or objects, may take 170 times its size. The tree of a line that passes the scan takes at most 20 times its
//! size.
ghost use Rattle.std.specs.Prelude.{◌≡◌, ◌≢◌, ◌<◌, length, true, false, Some, None, Err, IfOk, IfErr, OnOk, OnErr, is_some, slice_index, ◌==◌, IsTrue};
ghost use Rattle.json.specs.Json.{parse_map, items, members, value};
ghost use Rattle.json.specs.Reads.{token_of};
ghost use Rattle.serde_json.specs.Data.{Data, Members, no_members};
ghost use Rattle.serde_json.specs.Read.{of_json, of_items, of_members, converted, number_of, number_from, read};
ghost use Rattle.causal_line.specs.Returns.{IsFaultOrNoMemory, Returns};
ghost use Rattle.causal_line.specs.Prescan.{levels, count_capped, may_have_items, is_plain, value_fits, items_fit, prescan_of, parsed_line_of};

use crate::kind::TextKind;
use fast_float::Numeral;
use json::{Invalid, Reader, Scratch, Token};
use std::alloc::Global;
use std::str;

/// The maximum nesting depth that `serde_json` accepts.
const MAX_DEPTH: usize = 127;

/// The maximum nesting depth of a line's arrays: the line, a list of determinants, a determinant.
const LEVELS: usize = 3;

fn has_minus(bytes: &[u8]) -> bool
    ensures value { result ≡ (slice_index bytes.now 0 == 45) }
    ensures some { IsTrue result → 0 < length bytes.now }
{
    !bytes.is_empty() && bytes[0] == b'-'
}

fn is_positive(numeral: &Numeral<'_>) -> bool
    ensures { result ≡ is_some (number_from false numeral.now) }
{
    numeral.to_u64().is_some() || numeral.to_float::<f64>(false).is_finite()
}

fn is_negative(numeral: &Numeral<'_>) -> bool
    ensures { result ≡ is_some (number_from true numeral.now) }
{
    if let Some(number) = numeral.to_i64(true) {
        if number < 0 {
            return true;
        }
    }
    numeral.to_float::<f64>(true).is_finite()
}

/// Checks whether `serde_json` accepts the number: some finite float is near it.
#[tactic(auto, unfolding(serde_json::specs::Read::number_of))]
fn is_in_range(text: &str) -> bool
    ensures { result ≡ is_some (number_of text.now) }
{
    let bytes = text.as_bytes();
    if has_minus(bytes) {
        is_negative(&Numeral::scan(&bytes[1..]))
    } else {
        is_positive(&Numeral::scan(bytes))
    }
}

fn count_capped(count: u32) -> u32
    ensures { result ≡ count_capped count }
{
    if count < 9 { count + 1 } else { count }
}

/// Checks whether an array that may contain `left` levels, itself included, may have `count` items.
fn may_have_items(left: usize, count: u32) -> bool
    ensures { result ≡ may_have_items left count }
{
    match left {
        0 => false,
        1 => count == 4,
        2 => true,
        _ => count < 9,
    }
}

/// Checks whether the token is a whole value that `serde_json` accepts.
fn is_plain(token: Token<'_>) -> bool
    ensures { result ≡ is_plain (token_of token.entry) }
{
    match token {
        Token::String(_) | Token::Bool(_) | Token::Null => true,
        Token::Number(text) => is_in_range(text),
        _ => false,
    }
}

/// Skips the next value, and returns whether it fits where `left` levels of arrays are allowed.
#[cycle(value_fits)]
fn value_fits(reader: &mut Reader<'_>, depth: usize, left: usize) -> Result<bool, Invalid>
    ensures ok { IfOk result (λ fit. (d : Data)
        × (converted of_json (value depth reader.old) ≡ Some (d, reader.new)) ×
        (value_fits left d ≡ fit)) }
    ensures shorter { OnOk result (length reader.new < length reader.old) }
    ensures err { OnErr result (converted of_json (value depth reader.old) ≡ None) }
{
    let token = reader.next().ok_or(Invalid)?;
    match token {
        Token::BeginArray => {
            if depth == 0 {
                return Err(Invalid);
            }
            items_fit(reader, depth - 1, left)
        }
        Token::BeginObject => {
            if depth == 0 {
                return Err(Invalid);
            }
            skip_members(reader, depth - 1)?;
            Ok(false)
        }
        _ => {
            if is_plain(token) {
                Ok(true)
            } else {
                Err(Invalid)
            }
        }
    }
}

/// Skips the items of an array, and returns whether the array fits.
#[cycle(value_fits)]
fn items_fit(reader: &mut Reader<'_>, depth: usize, left: usize) -> Result<bool, Invalid>
    ensures ok { IfOk result (λ fit. parse_map (items_fit left 0)
        (converted of_items (items (value depth) (length reader.old) reader.old))
        ≡ Some (fit, reader.new)) }
    ensures shorter { OnOk result (length reader.new < length reader.old) }
    ensures err { OnErr result
        (converted of_items (items (value depth) (length reader.old) reader.old) ≡ None) }
{
    let mut fit = true;
    let mut count: u32 = 0;
    'items: while !reader.take_end_array() {
        let item = value_fits(reader, depth, left.saturating_sub(1))?;
        fit &= item;
        count = count_capped(count);
    }
    Ok(fit & may_have_items(left, count))
}

/// Skips the members of an object, which no line contains.
#[cycle(value_fits)]
fn skip_members(reader: &mut Reader<'_>, depth: usize) -> Result<(), Invalid>
    ensures ok { OnOk result ((ms : Members) × (converted (λ ms. of_members ms no_members)
        (members (value depth) (length reader.old) reader.old) ≡ Some (ms, reader.new))) }
    ensures shorter { OnOk result (length reader.new < length reader.old) }
    ensures err { OnErr result (converted (λ ms. of_members ms no_members)
        (members (value depth) (length reader.old) reader.old) ≡ None) }
{
    'members: while let Some(_) = reader.next_key()? {
        value_fits(reader, depth, 0)?;
    }
    Ok(())
}

/// Checks whether a text is a JSON value that fits.
///
/// # Errors
/// `Syntax` if it is not a JSON value, `NoMemory` if an allocation failed.
fn text_fits(alloc: Global, text: &str) -> Result<bool, TextKind>
    ensures ok { IfOk result
        (λ fit. (d : Data) × (read text.now ≡ Some d) × (value_fits levels d ≡ fit)) }
    ensures err { IfErr result (λ kind. kind ≢ TextKind.NoMemory
        → (kind ≡ TextKind.Syntax) × (read text.now ≡ None)) }
{
    let mut scratch = Scratch::new(alloc);
    let mut reader = Reader::new(text, &mut scratch)?;
    match value_fits(&mut reader, MAX_DEPTH, LEVELS) {
        Ok(fit) if reader.next().is_none() => Ok(fit),
        _ => Err(TextKind::Syntax),
    }
}

/// Checks whether the bytes are a JSON value that nests no deeper, and has no longer arrays, than a line may.
/// O(bytes) time; it builds no tree.
///
/// # Errors
/// `Syntax` if they are not a JSON value, `NoMemory` if an allocation failed.
pub fn passes_prescan(alloc: Global, bytes: &[u8]) -> Result<bool, TextKind>
    ensures { Returns result (prescan_of bytes.now) }
{
    match str::from_utf8(bytes) {
        Ok(text) => text_fits(alloc, text),
        Err(_) => Err(TextKind::Syntax),
    }
}

/// Checks whether the bytes are a JSON value that may be a line; if not, its error is `Form`.
#[tactic(auto, using(crate::proofs::Outlines::no_shape, crate::proofs::Lemmas::DefinedErrors::error_is_defined, crate::proofs::Lemmas::DefinedErrors::defined_or_no_memory))]
pub(crate) fn prescan_line(alloc: Global, bytes: &[u8]) -> Result<bool, TextKind>
    ensures no { result ≡ Ok false → parsed_line_of bytes.now ≡ Err TextKind.Form }
    ensures err { IfErr result (λ kind. IsFaultOrNoMemory kind kind (parsed_line_of bytes.now)) }
{
    passes_prescan(alloc, bytes)
}
