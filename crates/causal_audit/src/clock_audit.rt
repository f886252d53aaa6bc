//! The verdict on a recorded run, by vector clocks.
ghost use Rattle.std.specs.Prelude.{◌≡◌, ◌≤◌, ◌<◌, ℕ, length};
ghost use Rattle.causal_trace.specs.Past.{deliveries_in};
ghost use Rattle.causal_audit.specs.Breaches.{IsDecidedVerdict, FirstBreach, FirstExcess, EarliestBreachBy};
ghost use Rattle.causal_audit.specs.Inside.Among.{FirstBreachBy};
ghost use Rattle.causal_audit.specs.Numbers.{IsNumbered};
ghost use Rattle.causal_audit.specs.Verdicts.{IsVerdict};
ghost use Rattle.causal_audit.specs.declared.verdict.Verdict.{Verdict};
ghost use Rattle.causal_audit.specs.declared.breach.Breach.{Breach};

use crate::breach::{Breach, Excess, earlier_breach};
use crate::excess::{first_excess_in, last_deciding_instant};
use crate::tables::Tables;
use crate::verdict::Verdict;

/// Returns the first instant with more than f processes down, with these processes; `None` if there is none.
pub fn first_excess(tables: &Tables, f: u16) -> Option<Excess>
    ensures { FirstExcess tables.now f result }
{
    first_excess_in(tables.trace(), f)
}

/// Returns the first breach of the delivery at position k, if it comes by the instant `end`; `None` otherwise.
#[tactic(auto, using(crate::proofs::DeliveryNumbers::numbered_some))]
fn first_breach_at(tables: &Tables, f: u16, end: u32, k: u32) -> Option<Breach>
    requires delivery { (i : ℕ) × IsNumbered tables.now.past i k }
    requires within { end ≤ length tables.now.past }
    ensures { FirstBreachBy tables.now f end k result }
{
    let Some(det) = tables.det_at(k) else {
        unreachable!()
    };
    tables.first_orphan(f, end, k, det)
}

/// Returns the first breach of delivery number i, which must be below the number of deliveries; `None` if it never has
/// an orphan. At each instant the number of processes that are down or hold the determinant is compared with f. No
/// crash set is enumerated.
#[tactic(auto, using(crate::proofs::DeliveryNumbers::numbered_one))]
pub fn first_breach(tables: &Tables, f: u16, i: u32) -> Option<Breach>
    requires { i < deliveries_in tables.now.past }
    ensures { (k : ℕ) → IsNumbered tables.now.past i k → FirstBreach tables.now f k result }
{
    first_breach_at(tables, f, tables.entries(), tables.position(i))
}

/// Returns the earliest breach of all deliveries, by instant and then by position, if it comes by the instant `end`;
/// `None` otherwise.
#[tactic(auto, using(crate::proofs::AmongLemmas::below_more, crate::proofs::AmongLemmas::below_all))]
fn earliest_breach_by_clock(tables: &Tables, f: u16, end: u32) -> Option<Breach>
    requires { end ≤ length tables.now.past }
    ensures { EarliestBreachBy tables.now f end 0 (deliveries_in tables.now.past) result }
{
    let mut least = None;
    for i in 0..tables.deliveries() {
        let found = first_breach_at(tables, f, end, tables.position(i));
        least = earlier_breach(least, found);
    }
    least
}

/// Returns the verdict of an excess.
fn exceeded_verdict(excess: Excess) -> Verdict
    ensures { result ≡ Verdict.Exceeded excess.instant excess.down }
{
    Verdict::Exceeded {
        instant: excess.instant,
        down: excess.down,
    }
}

/// Returns the verdict of a breach.
fn orphan_verdict(breach: Breach) -> Verdict
    ensures { result ≡ Verdict.Orphan breach.instant breach.delivery breach.crash breach.orphan }
{
    Verdict::Orphan {
        instant: breach.instant,
        delivery: breach.delivery,
        crash: breach.crash,
        orphan: breach.orphan,
    }
}

/// Returns the verdict, given the first excess, and the earliest breach of all deliveries up to the last instant that
/// can decide.
pub fn decide_verdict(excess: Option<Excess>, breach: Option<Breach>) -> Verdict
    ensures { IsDecidedVerdict excess breach result }
{
    match (excess, breach) {
        (None, None) => Verdict::Accept,
        (Some(x), None) => exceeded_verdict(x),
        (None, Some(b)) => orphan_verdict(b),
        (Some(x), Some(b)) => {
            if x.instant <= b.instant {
                exceeded_verdict(x)
            } else {
                orphan_verdict(b)
            }
        }
    }
}

/// Returns the verdict on a recorded run for f: every instant is safe, or the first unsafe instant decides. At that
/// instant the first delivery with an orphan decides. Takes O(entries · deliveries) steps, so it is for short runs.
pub fn judge(tables: &Tables, f: u16) -> Verdict
    ensures verdict { IsVerdict tables.now f result }
    ensures only { (other : Verdict) → IsVerdict tables.now f other → other ≡ result }
{
    let excess = first_excess(tables, f);
    let end = last_deciding_instant(tables.trace(), &excess);
    decide_verdict(excess, earliest_breach_by_clock(tables, f, end))
}
