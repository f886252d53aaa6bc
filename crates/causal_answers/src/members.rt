//! The members of findings in a JSON object.
ghost use Rattle.std.specs.Prelude.{◌≡◌, ◌++◌, IfOk, OnOk, codes, flat_map};
ghost use Rattle.causal_holders.specs.Members.{ascending};
ghost use Rattle.causal_answers.specs.Inside.Appends.{Appends};
ghost use Rattle.causal_answers.specs.Findings as findings;

use crate::field_printing::{push_line, push_number, push_text, push_word};
use crate::fields::push_stray;
use crate::finding::{Finding, push_counts};
use causal_audit::{Judged, Verdict};
use causal_facts::Form;
use causal_holders::Holders;
use causal_line::TextFault;
use causal_line::report::kind_name;
use std::alloc::{AllocError, Global};

/// Appends the members of a finding.
pub(crate) fn push_members(
    alloc: Global,
    out: &mut String,
    finding: &Finding,
) -> Result<(), AllocError>
    ensures { OnOk result (Appends out.old out.new (findings.finding_members finding.now)) }
{
    match finding {
        Finding::Verdict { f, judged } => push_judged(alloc, out, *f, judged),
        Finding::EarlyBreach { f, judged } => {
            push_judged(alloc, out, *f, judged)?;
            push_number(out, Form::Json, "read", u64::from(judged.entries))
        }
        Finding::Fault(fault) => push_fault(out, fault),
        Finding::Followed {
            entries,
            deliveries,
        } => push_counts(out, Form::Json, *entries, *deliveries),
        Finding::Strayed(stray) => push_stray(out, Form::Json, *stray),
    }
}

fn push_fault(out: &mut String, fault: &TextFault) -> Result<(), AllocError>
    ensures { OnOk result (Appends out.old out.new
        (findings.finding_members (Finding.Fault fault.now))) }
{
    push_line(out, Form::Json, u64::from(fault.line))?;
    push_word(out, Form::Json, "kind", kind_name(fault.kind))
}

fn push_judged(alloc: Global, out: &mut String, f: u16, judged: &Judged) -> Result<(), AllocError>
    ensures { OnOk result (Appends out.old out.new (findings.judged_members f judged.now)) }
{
    push_number(out, Form::Json, "f", u64::from(f))?;
    push_verdict(alloc, out, judged)
}

fn push_verdict(alloc: Global, out: &mut String, judged: &Judged) -> Result<(), AllocError>
    ensures { OnOk result (Appends out.old out.new
        (findings.verdict_members judged.now.entries judged.now.deliveries judged.now.verdict)) }
{
    match judged.verdict {
        Verdict::Accept => push_counts(out, Form::Json, judged.entries, judged.deliveries),
        Verdict::Exceeded { instant, down } => push_excess(alloc, out, instant, down),
        Verdict::Orphan {
            instant,
            delivery,
            crash,
            orphan,
        } => push_orphan(alloc, out, instant, delivery, crash, orphan),
    }
}

fn push_excess(
    alloc: Global,
    out: &mut String,
    instant: u32,
    down: Holders,
) -> Result<(), AllocError>
    ensures { OnOk result (Appends out.old out.new (findings.excess_members instant down)) }
{
    push_number(out, Form::Json, "instant", u64::from(instant))?;
    push_set(alloc, out, "down", down)
}

fn push_orphan(
    alloc: Global,
    out: &mut String,
    instant: u32,
    delivery: u32,
    crash: Holders,
    orphan: u8,
) -> Result<(), AllocError>
    ensures { OnOk result (Appends out.old out.new
        (findings.orphan_members instant delivery crash orphan)) }
{
    push_number(out, Form::Json, "instant", u64::from(instant))?;
    push_number(out, Form::Json, "delivery", u64::from(delivery))?;
    push_set(alloc, out, "crash", crash)?;
    push_number(out, Form::Json, "orphan", u64::from(orphan))
}

/// Appends the member of a set of processes.
fn push_set(
    alloc: Global,
    out: &mut String,
    name: &str,
    processes: Holders,
) -> Result<(), AllocError>
    ensures { OnOk result (Appends out.old out.new (findings.set_member name.now processes)) }
{
    let members = members_of(alloc, processes)?;
    write!(out, ",\"{name}\":[")?;
    push_processes(out, members.as_slice())?;
    push_text(out, "]")
}

/// Returns the processes of a set, ascending.
fn members_of(alloc: Global, processes: Holders) -> Result<Vec<u8>, AllocError>
    ensures { IfOk result (λ members. members.items ≡ ascending processes) }
{
    let mut members = Vec::new(alloc);
    for process in processes.iter() {
        members.push(process)?;
    }
    Ok(members)
}

/// Appends processes with commas between them.
fn push_processes(out: &mut String, processes: &[u8]) -> Result<(), AllocError>
    ensures { OnOk result (Appends out.old out.new (findings.processes processes.now)) }
{
    let [process, more @ ..] = processes else {
        return Ok(());
    };
    write!(out, "{process}")?;
    push_more_processes(out, more)
}

fn push_more_processes(out: &mut String, processes: &[u8]) -> Result<(), AllocError>
    ensures { OnOk result (Appends out.old out.new
        (flat_map findings.next_process processes.now)) }
{
    for process in processes {
        push_next_process(out, *process)?;
    }
    Ok(())
}

#[tactic(auto, unfolding(crate::specs::Findings::next_process))]
fn push_next_process(out: &mut String, process: u8) -> Result<(), AllocError>
    ensures { OnOk result (Appends out.old out.new (findings.next_process process)) }
{
    write!(out, ",{process}")
}
