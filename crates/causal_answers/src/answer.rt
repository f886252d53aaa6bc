//! Answers to questions on a trace, as lines and as JSON.
ghost use Rattle.std.specs.Prelude.{◌≡◌, ◌++◌, ℕ, List, IfOk, OnOk, flat_map};
ghost use Rattle.std.specs.String.{string_bytes};
ghost use Rattle.causal_answers.specs.Bounds.{bounds_line};
ghost use Rattle.causal_answers.specs.Findings.{finding_line};
ghost use Rattle.causal_answers.specs.Inside.Appends.{Appends, Writes};
ghost use Rattle.causal_answers.specs.Lines.{AreFactLines};
ghost use Rattle.causal_answers.specs.Answers as answers;

use crate::bounds::{Bounds, push_bounds_lines, push_bounds_objects};
use crate::field_printing::{push_object_start, push_text};
use crate::fields::push_fields;
use crate::finding::{Finding, finding_line};
use crate::lines::facts_text;
use crate::members::push_members;
use causal_facts::{Fact, Form};
use causal_name::NoMemory;
use std::alloc::{AllocError, Global};

/// An answer to a question on a trace.
#[derive(Drop)]
pub enum Answer {
    /// What was found, and the facts that explain it.
    Found { finding: Finding, facts: Vec<Fact> },
    /// The bounds f for which each verdict holds, ascending.
    Ranges { ranges: Vec<Bounds> },
}

/// Formats an answer: a line for the finding and for each fact, or for each range of bounds; or one JSON object, on one
/// line. O(bytes) time and memory.
///
/// # Errors
/// `NoMemory` if allocation failed.
pub fn answer_text(alloc: Global, form: Form, answer: &Answer) -> Result<Vec<u8>, NoMemory>
    ensures { IfOk result (λ text. answers.IsAnswerText form answer.now text.items) }
{
    match form {
        Form::Lines => answer_lines(alloc, answer),
        Form::Json => Ok(answer_object(alloc, answer)?.into_bytes()),
    }
}

fn answer_lines(alloc: Global, answer: &Answer) -> Result<Vec<u8>, NoMemory>
    ensures { IfOk result (λ text. answers.IsAnswerText Form.Lines answer.now text.items) }
{
    match answer {
        Answer::Found { finding, facts } => found_lines(alloc, finding, facts.as_slice()),
        Answer::Ranges { ranges } => range_lines(alloc, ranges.as_slice()),
    }
}

fn found_lines(alloc: Global, finding: &Finding, facts: &[Fact]) -> Result<Vec<u8>, NoMemory>
    ensures { IfOk result (λ text. (reason : List ℕ)
        × AreFactLines facts.now reason × (text.items ≡ finding_line finding.now ++ reason)) }
{
    let reason = facts_text(alloc, facts)?;
    let mut text = finding_line(alloc, finding)?;
    text.extend_from_slice(reason.as_slice())?;
    Ok(text)
}

fn range_lines(alloc: Global, ranges: &[Bounds]) -> Result<Vec<u8>, NoMemory>
    ensures { IfOk result (λ text. text.items ≡ flat_map bounds_line ranges.now) }
{
    let mut out = String::new(alloc);
    push_bounds_lines(&mut out, ranges)?;
    Ok(out.into_bytes())
}

fn answer_object(alloc: Global, answer: &Answer) -> Result<String, AllocError>
    ensures { IfOk result (λ text. answers.IsAnswerText Form.Json answer.now (string_bytes text)) }
{
    let mut out = String::new(alloc);
    push_answer(alloc, &mut out, answer)?;
    Ok(out)
}

fn push_answer(alloc: Global, out: &mut String, answer: &Answer) -> Result<(), AllocError>
    ensures { Writes result out.old out.new (answers.IsAnswerText Form.Json answer.now) }
{
    match answer {
        Answer::Found { finding, facts } => push_found(alloc, out, finding, facts.as_slice()),
        Answer::Ranges { ranges } => push_ranges(out, ranges.as_slice()),
    }
}

fn push_ranges(out: &mut String, ranges: &[Bounds]) -> Result<(), AllocError>
    ensures { OnOk result (Appends out.old out.new (answers.ranges_object ranges.now)) }
{
    push_text(out, "{\"ranges\":[")?;
    push_bounds_objects(out, ranges)?;
    push_text(out, "]}\n")
}

fn push_found(
    alloc: Global,
    out: &mut String,
    finding: &Finding,
    facts: &[Fact],
) -> Result<(), AllocError>
    ensures { OnOk result (Appends out.old out.new
        (answers.finding_object finding.now facts.now)) }
{
    push_object_start(out, "verdict", finding.word())?;
    push_members(alloc, out, finding)?;
    push_reason(out, facts)?;
    push_text(out, "}\n")
}

fn push_reason(out: &mut String, facts: &[Fact]) -> Result<(), AllocError>
    ensures { OnOk result (Appends out.old out.new (answers.reason_member facts.now)) }
{
    if facts.is_empty() {
        Ok(())
    } else {
        push_reason_array(out, facts)
    }
}

fn push_reason_array(out: &mut String, facts: &[Fact]) -> Result<(), AllocError>
    ensures { OnOk result (Appends out.old out.new (answers.reason_array facts.now)) }
{
    push_text(out, ",\"reason\":[")?;
    push_objects(out, facts)?;
    push_text(out, "]")
}

/// Appends an object for each fact, with commas between them.
fn push_objects(out: &mut String, facts: &[Fact]) -> Result<(), AllocError>
    ensures { OnOk result (Appends out.old out.new (answers.fact_objects facts.now)) }
{
    let [fact, more @ ..] = facts else {
        return Ok(());
    };
    push_object(out, fact)?;
    push_more(out, more)
}

fn push_more(out: &mut String, facts: &[Fact]) -> Result<(), AllocError>
    ensures { OnOk result (Appends out.old out.new (flat_map answers.next_fact facts.now)) }
{
    for fact in facts {
        push_text(out, ",")?;
        push_object(out, fact)?;
    }
    Ok(())
}

fn push_object(out: &mut String, fact: &Fact) -> Result<(), AllocError>
    ensures { OnOk result (Appends out.old out.new (answers.fact_object fact.now)) }
{
    push_object_start(out, "fact", fact.word())?;
    push_fields(out, Form::Json, fact)?;
    push_text(out, "}")
}
