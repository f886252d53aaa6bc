//! Appending of arrays. After an error an unspecified part of the text is appended.
ghost use Rattle.std.specs.Prelude.{◌≡◌, ◌++◌, OnOk, string_bytes};
ghost use Rattle.causal_spelling.specs.Spelling.{det_text, more_dets_text, dets_text, numbers_text, named_text, listed_text};

use causal_name::{Det, Pid};
use std::alloc::AllocError;

/// Appends the numbers, each after a comma, and then `end`.
fn push_numbers(out: &mut String, numbers: &[u64], end: &str) -> Result<(), AllocError>
    ensures { OnOk result
        (string_bytes out.new ≡ string_bytes out.old ++ numbers_text numbers.now end.now) }
{
    for number in numbers {
        out.push_str(",")?;
        write!(out, "{number}")?;
    }
    out.push_str(end)
}

/// Appends an array of a name and numbers, up to `end`.
///
/// # Errors
/// Only if an allocation failed.
pub fn push_named(
    out: &mut String,
    name: &str,
    numbers: &[u64],
    end: &str,
) -> Result<(), AllocError>
    ensures { OnOk result
        (string_bytes out.new ≡ string_bytes out.old ++ named_text name.now numbers.now end.now) }
{
    out.push_str("[\"")?;
    out.push_str(name)?;
    out.push_str("\"")?;
    push_numbers(out, numbers, end)
}

/// Appends a determinant.
///
/// # Errors
/// Only if an allocation failed.
pub fn push_det(out: &mut String, det: &Det) -> Result<(), AllocError>
    ensures { OnOk result (string_bytes out.new ≡ string_bytes out.old ++ det_text det.now) }
{
    let Pid(source) = det.source;
    out.push_str("[")?;
    write!(out, "{source}")?;
    let numbers = [
        u64::from(det.ssn),
        u64::from(det.dest.0),
        u64::from(det.rsn),
    ];
    push_numbers(out, &numbers, "]")
}

/// Appends determinants, each after a comma.
fn push_more_dets(out: &mut String, dets: &[Det]) -> Result<(), AllocError>
    ensures { OnOk result (string_bytes out.new ≡ string_bytes out.old ++ more_dets_text dets.now) }
{
    for det in dets {
        out.push_str(",")?;
        push_det(out, det)?;
    }
    Ok(())
}

/// Appends a list of determinants.
///
/// # Errors
/// Only if an allocation failed.
pub fn push_dets(out: &mut String, dets: &[Det]) -> Result<(), AllocError>
    ensures { OnOk result (string_bytes out.new ≡ string_bytes out.old ++ dets_text dets.now) }
{
    match dets.split_first() {
        None => out.push_str("[]"),
        Some((first, more)) => {
            out.push_str("[")?;
            push_det(out, first)?;
            push_more_dets(out, more)?;
            out.push_str("]")
        }
    }
}

/// Appends an array of a name, numbers and a list, which `end` closes.
///
/// # Errors
/// Only if an allocation failed.
pub fn push_listed(
    out: &mut String,
    name: &str,
    numbers: &[u64],
    dets: &[Det],
    end: &str,
) -> Result<(), AllocError>
    ensures { OnOk result (string_bytes out.new
        ≡ string_bytes out.old ++ listed_text name.now numbers.now dets.now end.now) }
{
    push_named(out, name, numbers, ",")?;
    push_dets(out, dets)?;
    out.push_str(end)
}
