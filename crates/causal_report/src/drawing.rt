//! The space-time diagram of a trace, with its verdict.
ghost use Rattle.std.specs.Prelude.{◌≡◌, IfOk};
ghost use Rattle.causal_audit.specs.Verdicts.{IsVerdict};
ghost use Rattle.std.specs.FinSet as set;
ghost use Rattle.causal_report.specs.Drawings.{IsDrawing, IsSelectedDrawing, band_of, bands_of, lost_band, holders_of};

use causal_audit::{Breach, Verdict};
use causal_explain::explain;
use causal_facts::{Holding, Loss};
use causal_holders::Holders;
use causal_name::NoMemory;
use causal_picture::{Band, Focus, Orphan, Selection, picture_of};
use causal_trace::trace::Trace;
use std::alloc::Global;

fn insert_process(mut members: Holders, process: u8) -> Holders
    ensures { result ≡ set.insert members process }
{
    members.insert(process);
    members
}

/// The set of the processes that hold a determinant.
fn holders_of(holdings: &[Holding]) -> Holders
    ensures { result ≡ holders_of holdings.now }
{
    holdings.iter().fold(
        Holders::none(),
        |members, holding| insert_process(members, holding.process),
    )
}

/// The band of a holder: from the entry by which its log came to contain the determinant, to the instant.
fn band_of(holding: &Holding) -> Band
    ensures { result ≡ band_of holding.now }
{
    Band {
        process: holding.process,
        from: holding.since,
        to: None,
    }
}

/// The band of a process that lost a determinant: from the entry by which its log last came to contain it, to the entry
/// by which it lost it.
fn lost_band(loss: &Loss) -> Band
    ensures { result ≡ lost_band loss.now }
{
    Band {
        process: loss.process,
        from: loss.since,
        to: Some(loss.lost),
    }
}

/// The bands of the processes that hold a determinant, and of those that lost it.
fn bands_of(alloc: Global, holdings: &[Holding], losses: &[Loss]) -> Result<Vec<Band>, NoMemory>
    ensures { IfOk result (λ bands. bands.items ≡ bands_of holdings.now losses.now) }
{
    let held = holdings.iter().map(band_of);
    Ok(held.chain(losses.iter().map(lost_band)).collect(alloc)?)
}

/// The diagram of a delivery with an orphan: the chain to the orphan, the crash set, the holders of the determinant, how
/// long processes held it, and the instant.
fn breach_drawing(
    alloc: Global,
    trace: &Trace,
    f: u16,
    breach: &Breach,
    selection: Selection,
) -> Result<Vec<u8>, NoMemory>
    requires { IsVerdict trace.now.recording f
        (Verdict.Orphan breach.now.instant breach.now.delivery breach.now.crash breach.now.orphan) }
    ensures { IfOk result (λ text. IsSelectedDrawing trace.now.recording f selection
        (Verdict.Orphan breach.now.instant breach.now.delivery breach.now.crash breach.now.orphan) text.items) }
{
    let explanation = explain(alloc, trace, breach)?;
    let bands = bands_of(
        alloc,
        explanation.holders.as_slice(),
        explanation.losses.as_slice(),
    )?;
    let focus = Focus {
        instant: breach.instant,
        crash: breach.crash,
        chain: explanation.chain.as_slice(),
        orphan: Some(Orphan {
            process: breach.orphan,
            delivery: breach.delivery,
            holders: holders_of(explanation.holders.as_slice()),
        }),
        bands: bands.as_slice(),
    };
    picture_of(alloc, trace, f, Some(&focus), selection)
}

/// Draws the space-time diagram of a trace with its verdict for f, in SVG. For an excess it shows the down processes
/// and the instant; for an orphan, a shortest chain from the delivery to it, the crash set, the holders of the
/// determinant, from when to when processes held it, and the instant; if the verdict is accept, the run alone.
///
/// O(entries + listed determinants) time.
///
/// # Errors
/// `NoMemory` if allocation failed.
pub fn picture_with_verdict(
    alloc: Global,
    trace: &Trace,
    f: u16,
    verdict: Verdict,
) -> Result<Vec<u8>, NoMemory>
    requires { IsVerdict trace.now.recording f verdict }
    ensures { IfOk result (λ text. IsDrawing trace.now.recording f verdict text.items) }
{
    selected_picture_with_verdict(alloc, trace, f, verdict, Selection::whole())
}

/// Draws the selected part of that diagram: entries around one, and all processes or those that the verdict concerns.
///
/// O(entries + listed determinants) time.
///
/// # Errors
/// `NoMemory` if allocation failed.
pub fn selected_picture_with_verdict(
    alloc: Global,
    trace: &Trace,
    f: u16,
    verdict: Verdict,
    selection: Selection,
) -> Result<Vec<u8>, NoMemory>
    requires { IsVerdict trace.now.recording f verdict }
    ensures { IfOk result
        (λ text. IsSelectedDrawing trace.now.recording f selection verdict text.items) }
{
    match verdict {
        Verdict::Exceeded { instant, down } => {
            let focus = Focus {
                instant,
                crash: down,
                chain: &[],
                orphan: None,
                bands: &[],
            };
            picture_of(alloc, trace, f, Some(&focus), selection)
        }
        _ => match verdict.breach() {
            Some(breach) => breach_drawing(alloc, trace, f, &breach, selection),
            None => picture_of(alloc, trace, f, None, selection),
        },
    }
}
