//! The fields of a line, which is a JSON array: its name, numbers, processes and determinants. A missing field, or
//! one of another type, is a `Form` error.
ghost use Rattle.std.specs.Prelude.{◌≡◌};
ghost use Rattle.serde_json.specs.View.{view, items_view};
ghost use Rattle.causal_line.specs.Returns.{Returns};
ghost use Rattle.causal_line.specs.ParsedLines.{array_len, number_at, u8_at, u32_at, u64_at, pid_at, parse_det, parse_dets, dets_at, is_array_named};

use crate::kind::TextKind;
use causal_name::{Det, Pid};
use causal_trace::entry::Dets;
use serde_json::Value;
use std::alloc::Global;

/// Returns the length of an array; 0 if the value is not an array.
#[tactic(auto, using(crate::proofs::ItemCounts::items_len_of_view))]
pub fn array_len(value: &Value) -> usize
    ensures { result ≡ array_len (view value.now) }
{
    match value.as_array() {
        Some(items) => items.as_slice().len(),
        None => 0,
    }
}

fn number_at(value: &Value, i: usize, limit: u64) -> Result<u64, TextKind>
    ensures { result ≡ number_at limit i (view value.now) }
{
    match value.get(i).and_then(Value::as_u64) {
        Some(number) if number < limit => Ok(number),
        _ => Err(TextKind::Form),
    }
}

/// Returns the number at index i, if it is below 2^8.
///
/// # Errors
/// `Form` if the item is missing or is not such a number.
pub fn u8_at(value: &Value, i: usize) -> Result<u8, TextKind>
    ensures { result ≡ u8_at i (view value.now) }
{
    match number_at(value, i, 1 << 8) {
        Ok(number) => Ok(number as u8),
        Err(kind) => Err(kind),
    }
}

/// Returns the number at index i, if it is below 2^32.
///
/// # Errors
/// `Form` if the item is missing or is not such a number.
pub fn u32_at(value: &Value, i: usize) -> Result<u32, TextKind>
    ensures { result ≡ u32_at i (view value.now) }
{
    match number_at(value, i, 1 << 32) {
        Ok(number) => Ok(number as u32),
        Err(kind) => Err(kind),
    }
}

/// Returns the number at index i, if it is an integer below 2^64.
///
/// # Errors
/// `Form` if the item is missing or is not such a number.
pub fn u64_at(value: &Value, i: usize) -> Result<u64, TextKind>
    ensures { result ≡ u64_at i (view value.now) }
{
    match value.get(i).and_then(Value::as_u64) {
        Some(number) => Ok(number),
        None => Err(TextKind::Form),
    }
}

/// Returns the process at index i, a number below 2^8.
///
/// # Errors
/// `Form` if the item is missing or is not such a number.
#[tactic(auto, unfolding(crate::specs::ParsedLines::pid_at))]
pub fn pid_at(value: &Value, i: usize) -> Result<Pid, TextKind>
    ensures { result ≡ pid_at i (view value.now) }
{
    Ok(Pid(u8_at(value, i)?))
}

/// Returns the determinant `[source,ssn,dest,rsn]`.
///
/// # Errors
/// `Form` if the value is not a determinant.
#[tactic(auto, unfolding(crate::specs::ParsedLines::parse_det))]
pub fn parse_det(value: &Value) -> Result<Det, TextKind>
    ensures { result ≡ parse_det (view value.now) }
{
    if array_len(value) != 4 {
        return Err(TextKind::Form);
    }
    Ok(Det {
        source: pid_at(value, 0)?,
        ssn: u32_at(value, 1)?,
        dest: pid_at(value, 2)?,
        rsn: u32_at(value, 3)?,
    })
}

fn parse_dets(alloc: Global, values: &[Value]) -> Result<Dets, TextKind>
    ensures { Returns result (parse_dets (items_view values.now)) }
{
    if let [value] = values {
        return Ok(Dets::one(parse_det(value)?));
    }
    let mut dets = Vec::with_capacity(alloc, values.len())?;
    for value in values {
        dets.push(parse_det(value)?)?;
    }
    Ok(Dets::new(dets))
}

/// Returns the list of determinants at index i.
///
/// # Errors
/// `Form` if the item is missing or is not such a list, `NoMemory` if an allocation failed.
#[tactic(auto, unfolding(crate::specs::ParsedLines::dets_at))]
pub fn dets_at(alloc: Global, value: &Value, i: usize) -> Result<Dets, TextKind>
    ensures { Returns result (dets_at i (view value.now)) }
{
    match value.get(i).and_then(Value::as_array) {
        Some(values) => parse_dets(alloc, values.as_slice()),
        None => Err(TextKind::Form),
    }
}

/// Checks whether the value is an array of n items, the first of which is the name.
pub fn is_array_named(value: &Value, name: &str, n: usize) -> bool
    ensures { result ≡ is_array_named (view value.now) name.now n }
{
    value.get(0).and_then(Value::as_str).unwrap_or("") == name && array_len(value) == n
}
