//! What an answer finds, and its line.
ghost use Rattle.std.specs.Prelude.{◌≡◌, ◌++◌, IfOk, OnOk, codes};
ghost use Rattle.std.specs.String.{string_bytes};
ghost use Rattle.causal_answers.specs.Inside.Appends.{Appends};
ghost use Rattle.causal_answers.specs.Fields as fields;
ghost use Rattle.causal_answers.specs.Findings as findings;

use crate::field_printing::{push_number, push_text};
use crate::fields::push_stray;
use causal_audit::{Judged, Verdict, verdict_line};
use causal_facts::{Form, Stray};
use causal_line::line_value::without_line_feed;
use causal_line::{TextFault, fault_line};
use causal_name::NoMemory;
use std::alloc::{AllocError, Global};

/// What an answer finds; facts may explain it.
#[derive(Clone, Copy)]
pub enum Finding {
    /// The verdict for f on a trace.
    Verdict { f: u16, judged: Judged },
    /// The breach for f that an early audit found, when it had read `judged.entries` entries.
    EarlyBreach { f: u16, judged: Judged },
    /// The first error of a text.
    Fault(TextFault),
    /// Recoveries follow what survives, in a trace with these counts.
    Followed { entries: u32, deliveries: u32 },
    /// The first stray.
    Strayed(Stray),
}

impl Finding {
    ghost use Rattle.std.specs.Prelude.{◌≡◌};
    ghost use Rattle.causal_answers.specs.Findings.{finding_word};

    /// Returns the word for the finding: `accept`.
    pub fn word(&self) -> &'static str
        ensures { result.now ≡ finding_word self.now }
    {
        match self {
            Finding::Verdict { judged, .. } => verdict_word(&judged.verdict),
            Finding::EarlyBreach { judged, .. } => verdict_word(&judged.verdict),
            Finding::Fault(_) => "fault",
            Finding::Followed { .. } => "followed",
            Finding::Strayed(_) => "strayed",
        }
    }
}

fn verdict_word(verdict: &Verdict) -> &'static str
    ensures { result.now ≡ findings.verdict_word verdict.now }
{
    match verdict {
        Verdict::Accept => "accept",
        Verdict::Exceeded { .. } => "exceeded",
        Verdict::Orphan { .. } => "orphan",
    }
}

/// Formats the line of a finding.
///
/// # Errors
/// `NoMemory` if allocation failed.
pub(crate) fn finding_line(alloc: Global, finding: &Finding) -> Result<Vec<u8>, NoMemory>
    ensures { IfOk result (λ line. line.items ≡ findings.finding_line finding.now) }
{
    match finding {
        Finding::Verdict { f, judged } => verdict_line(alloc, *f, judged),
        Finding::EarlyBreach { f, judged } => early_line(alloc, *f, judged),
        Finding::Fault(fault) => fault_line(alloc, fault),
        Finding::Followed {
            entries,
            deliveries,
        } => Ok(followed_line(alloc, *entries, *deliveries)?.into_bytes()),
        Finding::Strayed(stray) => Ok(strayed_line(alloc, *stray)?.into_bytes()),
    }
}

/// The line of a breach that an early audit found, with the number of entries read.
fn early_line(alloc: Global, f: u16, judged: &Judged) -> Result<Vec<u8>, NoMemory>
    ensures { IfOk result (λ line. line.items ≡ findings.early_line f judged.now) }
{
    let verdict = verdict_line(alloc, f, judged)?;
    let read = read_field(alloc, judged.entries)?;
    let mut line = Vec::new(alloc);
    line.extend_from_slice(without_line_feed(verdict.as_slice()))?;
    line.extend_from_slice(read.as_bytes())?;
    Ok(line)
}

fn read_field(alloc: Global, entries: u32) -> Result<String, AllocError>
    ensures { IfOk result (λ field. string_bytes field ≡
        fields.json_number Form.Lines (codes "read") entries ++ codes "\n") }
{
    let mut out = String::new(alloc);
    push_number(&mut out, Form::Lines, "read", u64::from(entries))?;
    push_text(&mut out, "\n")?;
    Ok(out)
}

fn followed_line(alloc: Global, entries: u32, deliveries: u32) -> Result<String, AllocError>
    ensures { IfOk result (λ line. string_bytes line ≡ findings.followed_line entries deliveries) }
{
    let mut out = String::new(alloc);
    push_text(&mut out, "followed")?;
    push_counts(&mut out, Form::Lines, entries, deliveries)?;
    push_text(&mut out, "\n")?;
    Ok(out)
}

fn strayed_line(alloc: Global, stray: Stray) -> Result<String, AllocError>
    ensures { IfOk result (λ line. string_bytes line ≡ findings.strayed_line stray) }
{
    let mut out = String::new(alloc);
    push_text(&mut out, "strayed")?;
    push_stray(&mut out, Form::Lines, stray)?;
    push_text(&mut out, "\n")?;
    Ok(out)
}

/// Appends the numbers of entries and deliveries.
pub(crate) fn push_counts(
    out: &mut String,
    form: Form,
    entries: u32,
    deliveries: u32,
) -> Result<(), AllocError>
    ensures { OnOk result (Appends out.old out.new (findings.counts form entries deliveries)) }
{
    push_number(out, form, "entries", u64::from(entries))?;
    push_number(out, form, "deliveries", u64::from(deliveries))
}
