//! The lines of facts.
ghost use Rattle.std.specs.Prelude.{◌≡◌, OnOk, IfOk};
ghost use Rattle.causal_answers.specs.Inside.Appends.{Appends, Writes};
ghost use Rattle.causal_answers.specs.Lines.{AreFactLines, IsFactLine, fact_head};
ghost use Rattle.causal_answers.specs.Sentences.{IsSentence};

use crate::field_printing::push_text;
use crate::fields::push_fields;
use crate::sentences::push_sentence;
use causal_facts::{Fact, Form};
use std::alloc::{AllocError, Global};

/// Formats a line for each fact.
///
/// # Errors
/// `AllocError` if allocation failed.
pub fn facts_text(alloc: Global, facts: &[Fact]) -> Result<Vec<u8>, AllocError>
    ensures { IfOk result (λ text. AreFactLines facts.now text.items) }
{
    let mut out = String::new(alloc);
    push_facts(&mut out, facts)?;
    Ok(out.into_bytes())
}

fn push_facts(out: &mut String, facts: &[Fact]) -> Result<(), AllocError>
    ensures { Writes result out.old out.new (AreFactLines facts.now) }
{
    for fact in facts {
        push_fact(out, fact)?;
    }
    Ok(())
}

fn push_fact(out: &mut String, fact: &Fact) -> Result<(), AllocError>
    ensures { Writes result out.old out.new (IsFactLine fact.now) }
{
    push_head(out, fact)?;
    push_sentence(out, fact)
}

fn push_head(out: &mut String, fact: &Fact) -> Result<(), AllocError>
    ensures { OnOk result (Appends out.old out.new (fact_head fact.now)) }
{
    push_text(out, fact.word())?;
    push_fields(out, Form::Lines, fact)
}

/// Formats the word and the fields of a fact.
///
/// # Errors
/// `AllocError` if allocation failed.
pub fn fact_head(alloc: Global, fact: &Fact) -> Result<Vec<u8>, AllocError>
    ensures { IfOk result (λ text. text.items ≡ fact_head fact.now) }
{
    let mut out = String::new(alloc);
    push_head(&mut out, fact)?;
    Ok(out.into_bytes())
}

/// Formats the sentence of a fact, after a colon and with a line feed.
///
/// # Errors
/// `AllocError` if allocation failed.
pub fn fact_sentence(alloc: Global, fact: &Fact) -> Result<Vec<u8>, AllocError>
    ensures { IfOk result (λ text. IsSentence text.items) }
{
    let mut out = String::new(alloc);
    push_sentence(&mut out, fact)?;
    Ok(out.into_bytes())
}
