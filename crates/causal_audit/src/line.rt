//! The printed line of a verdict.
ghost use Rattle.std.specs.Prelude.{◌≡◌, IfOk, map};
ghost use Rattle.std.specs.Fmt.{decimal};
ghost use Rattle.std.specs.String.{string_bytes};
ghost use Rattle.causal_holders.specs.Members.{ascending};
ghost use Rattle.causal_audit.specs.VerdictLines as lines;
ghost use Rattle.causal_audit.specs.Inside.JoinedNumbers.{JoinsNumbers};

use crate::judged::Judged;
use crate::verdict::Verdict;
use causal_holders::Holders;
use causal_name::NoMemory;
use std::alloc::{AllocError, Global};

/// Returns the line of a verdict for f, with a line feed: `accept f=0 entries=6 deliveries=3`, `exceeded f=1 instant=8
/// down=1,2` or `orphan f=1 instant=4 delivery=1 crash=1 orphan=2`.
///
/// # Errors
/// `NoMemory` if allocation fails.
pub fn verdict_line(alloc: Global, f: u16, judged: &Judged) -> Result<Vec<u8>, NoMemory>
    ensures { IfOk result (λ line. line.items ≡ lines.verdict_line f judged.now) }
{
    Ok(line_of(alloc, f, judged)?.into_bytes())
}

fn line_of(alloc: Global, f: u16, judged: &Judged) -> Result<String, AllocError>
    ensures { IfOk result (λ line. string_bytes line ≡ lines.verdict_line f judged.now) }
{
    match judged.verdict {
        Verdict::Accept => accept_line(alloc, f, judged.entries, judged.deliveries),
        Verdict::Exceeded { instant, down } => exceeded_line(alloc, f, instant, down),
        Verdict::Orphan {
            instant,
            delivery,
            crash,
            orphan,
        } => orphan_line(alloc, f, instant, delivery, crash, orphan),
    }
}

fn accept_line(alloc: Global, f: u16, entries: u32, deliveries: u32) -> Result<String, AllocError>
    ensures { IfOk result (λ line. string_bytes line ≡ lines.accept_line f entries deliveries) }
{
    format!(in alloc; "accept f={f} entries={entries} deliveries={deliveries}\n")
}

fn exceeded_line(alloc: Global, f: u16, instant: u32, down: Holders) -> Result<String, AllocError>
    ensures { IfOk result (λ line. string_bytes line ≡ lines.exceeded_line f instant down) }
{
    let down = set_text(alloc, down)?;
    format!(in alloc; "exceeded f={f} instant={instant} down={down}\n")
}

fn orphan_line(
    alloc: Global,
    f: u16,
    instant: u32,
    delivery: u32,
    crash: Holders,
    orphan: u8,
) -> Result<String, AllocError>
    ensures { IfOk result (λ line. string_bytes line ≡
        lines.orphan_line f instant delivery crash orphan) }
{
    let crash = set_text(alloc, crash)?;
    format!(in alloc;
        "orphan f={f} instant={instant} delivery={delivery} crash={crash} orphan={orphan}\n"
    )
}

/// Returns the processes of a set, ascending and joined by commas; `-` for the empty set.
#[tactic(auto, using(crate::proofs::Rules::of_results), unfolding(crate::specs::VerdictLines::set_text))]
fn set_text(alloc: Global, processes: Holders) -> Result<String, AllocError>
    ensures { IfOk result (λ text. string_bytes text ≡ lines.set_text processes) }
{
    let numbers = decimals(alloc, processes)?;
    join_numbers(alloc, numbers.as_slice())
}

/// Returns numbers joined by commas; `-` if there is none.
#[tactic(auto, using(crate::proofs::Rules::of_texts))]
fn join_numbers(alloc: Global, numbers: &[String]) -> Result<String, AllocError>
    ensures { IfOk result
        (λ line. JoinsNumbers (map string_bytes numbers.now) (string_bytes line)) }
{
    if numbers.is_empty() {
        format!(in alloc; "-")
    } else {
        numbers.join(alloc, ",")
    }
}

/// Returns the numbers of the processes of a set in decimal, ascending.
fn decimals(alloc: Global, processes: Holders) -> Result<Vec<String>, AllocError>
    ensures { IfOk result (λ numbers. map string_bytes numbers.items ≡
        map decimal (ascending processes)) }
{
    let mut numbers = Vec::new(alloc);
    for process in processes.iter() {
        numbers.push(format!(in alloc; "{process}")?)?;
    }
    Ok(numbers)
}
