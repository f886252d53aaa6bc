//! The fields of answers, as they are printed.
ghost use Rattle.std.specs.Prelude.{OnOk};
ghost use Rattle.causal_answers.specs.Inside.Appends.{Appends};
ghost use Rattle.causal_answers.specs.Fields as fields;

use causal_facts::Form;
use std::alloc::AllocError;

// One clause, since it makes the callers' proofs cheaper than those of `String::push_str`.
/// Appends a text.
pub(crate) fn push_text(out: &mut String, text: &str) -> Result<(), AllocError>
    ensures { OnOk result (Appends out.old out.new text.now) }
{
    out.push_str(text)
}

/// Appends a field with a number.
#[tactic(auto, unfolding(crate::specs::Fields::json_number))]
pub(crate) fn push_number(
    out: &mut String,
    form: Form,
    name: &str,
    number: u64,
) -> Result<(), AllocError>
    ensures { OnOk result (Appends out.old out.new (fields.json_number form name.now number)) }
{
    match form {
        Form::Lines => write!(out, " {name}={number}"),
        Form::Json => write!(out, ",\"{name}\":{number}"),
    }
}

/// Appends a field with a word.
#[tactic(auto, unfolding(crate::specs::Fields::word))]
pub(crate) fn push_word(
    out: &mut String,
    form: Form,
    name: &str,
    word: &str,
) -> Result<(), AllocError>
    ensures { OnOk result (Appends out.old out.new (fields.word form name.now word.now)) }
{
    match form {
        Form::Lines => write!(out, " {name}={word}"),
        Form::Json => write!(out, ",\"{name}\":\"{word}\""),
    }
}

/// Appends a field without a value.
#[tactic(auto, unfolding(crate::specs::Fields::empty_field))]
pub(crate) fn push_empty_field(out: &mut String, form: Form, name: &str) -> Result<(), AllocError>
    ensures { OnOk result (Appends out.old out.new (fields.empty_field form name.now)) }
{
    match form {
        Form::Lines => write!(out, " {name}=-"),
        Form::Json => write!(out, ",\"{name}\":null"),
    }
}

/// Appends the beginning of an object, whose first member is a word.
#[tactic(auto, unfolding(crate::specs::Fields::object_start))]
pub(crate) fn push_object_start(out: &mut String, name: &str, word: &str) -> Result<(), AllocError>
    ensures { OnOk result (Appends out.old out.new (fields.object_start name.now word.now)) }
{
    write!(out, "{{\"{name}\":\"{word}\"")
}

/// Appends the field of a line of the trace's text.
pub(crate) fn push_line(out: &mut String, form: Form, line: u64) -> Result<(), AllocError>
    ensures { OnOk result (Appends out.old out.new (fields.line form line)) }
{
    push_number(out, form, "line", line)
}

/// Appends the field of a process.
pub(crate) fn push_process(out: &mut String, form: Form, process: u8) -> Result<(), AllocError>
    ensures { OnOk result (Appends out.old out.new (fields.process_field form process)) }
{
    push_number(out, form, "process", u64::from(process))
}
