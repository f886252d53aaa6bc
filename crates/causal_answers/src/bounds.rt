//! The bounds f for which a verdict holds, as lines and as JSON objects.
ghost use Rattle.std.specs.Prelude.{OnOk, flat_map};
ghost use Rattle.causal_answers.specs.Inside.Appends.{Appends};
ghost use Rattle.causal_answers.specs.Bounds as bounds;

use crate::field_printing::{push_number, push_object_start, push_text};
use causal_facts::Form;
use std::alloc::AllocError;

/// The bounds f for which a verdict holds.
#[derive(Clone, Copy)]
pub enum Bounds {
    /// For f up to `last` more than f processes are down at some instant.
    Exceeded { last: u16 },
    /// For f from `first` on the run is safe.
    AcceptFrom { first: u16 },
    /// For f from `first` to `last` the run is safe.
    Accept { first: u16, last: u16 },
    /// For f from `first` on a delivery has an orphan at some instant.
    Orphan { first: u16 },
}

impl Bounds {
    ghost use Rattle.std.specs.Prelude.{◌≡◌};
    ghost use Rattle.causal_answers.specs.Bounds.{bounds_word, bounds_sentence};

    fn word(self) -> &'static str
        ensures { result.now ≡ bounds_word self }
    {
        match self {
            Bounds::Exceeded { .. } => "exceeded",
            Bounds::AcceptFrom { .. } | Bounds::Accept { .. } => "accept",
            Bounds::Orphan { .. } => "orphan",
        }
    }

    fn sentence(self) -> &'static str
        ensures { result.now ≡ bounds_sentence self }
    {
        match self {
            Bounds::Exceeded { .. } => ": at some instant more than f processes are down\n",
            Bounds::AcceptFrom { .. } | Bounds::Accept { .. } => ": the run is safe for f\n",
            Bounds::Orphan { .. } => ": at some instant a delivery has an orphan for f\n",
        }
    }
}

fn push_bounds_fields(out: &mut String, form: Form, range: Bounds) -> Result<(), AllocError>
    ensures { OnOk result (Appends out.old out.new (bounds.bounds_fields form range)) }
{
    match range {
        Bounds::Exceeded { last } => push_number(out, form, "to", u64::from(last)),
        Bounds::AcceptFrom { first } | Bounds::Orphan { first } => {
            push_number(out, form, "from", u64::from(first))
        }
        Bounds::Accept { first, last } => {
            push_number(out, form, "from", u64::from(first))?;
            push_number(out, form, "to", u64::from(last))
        }
    }
}

/// Appends a line for each of the bounds.
pub(crate) fn push_bounds_lines(out: &mut String, ranges: &[Bounds]) -> Result<(), AllocError>
    ensures { OnOk result (Appends out.old out.new (flat_map bounds.bounds_line ranges.now)) }
{
    for range in ranges {
        push_bounds_line(out, *range)?;
    }
    Ok(())
}

fn push_bounds_line(out: &mut String, range: Bounds) -> Result<(), AllocError>
    ensures { OnOk result (Appends out.old out.new (bounds.bounds_line range)) }
{
    push_text(out, range.word())?;
    push_bounds_fields(out, Form::Lines, range)?;
    push_text(out, range.sentence())
}

/// Appends an object for each of the bounds, with commas between them.
pub(crate) fn push_bounds_objects(out: &mut String, ranges: &[Bounds]) -> Result<(), AllocError>
    ensures { OnOk result (Appends out.old out.new (bounds.bounds_objects ranges.now)) }
{
    let [range, more @ ..] = ranges else {
        return Ok(());
    };
    push_bounds_object(out, *range)?;
    push_more_bounds(out, more)
}

fn push_more_bounds(out: &mut String, ranges: &[Bounds]) -> Result<(), AllocError>
    ensures { OnOk result (Appends out.old out.new (flat_map bounds.next_bounds ranges.now)) }
{
    for range in ranges {
        push_text(out, ",")?;
        push_bounds_object(out, *range)?;
    }
    Ok(())
}

fn push_bounds_object(out: &mut String, range: Bounds) -> Result<(), AllocError>
    ensures { OnOk result (Appends out.old out.new (bounds.bounds_object range)) }
{
    push_object_start(out, "verdict", range.word())?;
    push_bounds_fields(out, Form::Json, range)?;
    push_text(out, "}")
}
