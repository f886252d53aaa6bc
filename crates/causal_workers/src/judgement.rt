//! The audit of a text or a trace, with the counts of the trace.
ghost use Rattle.std.specs.Prelude.{◌≡◌, ◌≤◌, IfOk, IfErr, Err, length};
ghost use Rattle.causal_trace.specs.Past.{deliveries_in};
ghost use Rattle.causal_audit.specs.Verdicts.{IsVerdict};
ghost use Rattle.causal_workers.specs.Judgements.{IsJudgement, IsFaultOf};

use crate::gate::Gate;
use crate::parallel_audit::{AuditFault, audit};
use causal_audit::Judged;
use causal_reading::read_trace_by;
use causal_text::TextFault;
use causal_trace::trace::Trace;
use std::alloc::Global;
use std::sync::Wait;
use std::thread::Threads;
use thiserror::Error;

/// Why a text got no verdict.
#[derive(Clone, Copy, Debug, PartialEq, Eq, Error)]
pub enum AuditTextFault {
    /// The text spells no trace, and this is its first error; or allocation failed while it was read.
    #[error(transparent)]
    Text(TextFault),
    /// The text spells a trace, but its audit returned no verdict.
    #[error(transparent)]
    Audit(AuditFault),
}

impl From<TextFault> for AuditTextFault {
    ghost use Rattle.causal_workers.specs.declared.judgement.AuditTextFault.TheVariants.{Text};

    ghost from_gives = { λ fault told. told ≡ Text fault };

    fn from(fault: TextFault) -> AuditTextFault {
        AuditTextFault::Text(fault)
    }
}

impl From<AuditFault> for AuditTextFault {
    ghost use Rattle.causal_workers.specs.declared.judgement.AuditTextFault.TheVariants.{Audit};

    ghost from_gives = { λ fault told. told ≡ Audit fault };

    fn from(fault: AuditFault) -> AuditTextFault {
        AuditTextFault::Audit(fault)
    }
}

/// Returns the verdict for f on the trace that a text spells, by 1 to 64 workers, who also parse its lines. It is the
/// same for every number of workers.
///
/// # Errors
/// `Text` with the text's first error if it spells no trace, or of kind `NoMemory` if allocation fails during the
/// reading. `Audit` if it spells a trace whose audit returned no verdict; with one worker never of `NoWorker`.
pub fn audit_text<G: Gate + Sync, R: Threads + Wait>(
    rt: &R,
    alloc: Global,
    bytes: &[u8],
    f: u16,
    workers: u32,
    gate: &G,
) -> Result<Judged, AuditTextFault>
    requires { (1 ≤ workers) × (workers ≤ 64) }
    ensures ok { IfOk result (IsJudgement bytes.now f) }
    ensures only { IfOk result (λ judged. (other : Judged) → IsJudgement bytes.now f other →
        other ≡ judged) }
    ensures err { IfErr result (IsFaultOf bytes.now) }
    ensures one_worker { result ≡ Err (AuditTextFault.Audit AuditFault.NoWorker) → 2 ≤ workers }
{
    let trace = read_trace_by(rt, alloc, bytes, workers)?;
    let judged = judge_read(rt, alloc, trace, f, workers, gate)?;
    Ok(judged)
}

/// Returns what `judge_trace` does on a trace that was just read, and drops the trace.
///
/// # Errors
/// Those of [`audit`].
pub(crate) fn judge_read<G: Gate + Sync, R: Threads + Wait>(
    rt: &R,
    alloc: Global,
    trace: Trace,
    f: u16,
    workers: u32,
    gate: &G,
) -> Result<Judged, AuditFault>
    requires { (1 ≤ workers) × (workers ≤ 64) }
    ensures verdict { IfOk result (λ judged. IsVerdict trace.recording f judged.verdict) }
    ensures entries { IfOk result (λ judged. judged.entries ≡ length trace.recording.past) }
    ensures deliveries { IfOk result (λ judged. judged.deliveries ≡
        deliveries_in trace.recording.past) }
    ensures one_worker { result ≡ Err AuditFault.NoWorker → 2 ≤ workers }
{
    judge_trace(rt, alloc, &trace, f, workers, gate)
}

/// Returns the verdict for f on a trace, by 1 to 64 workers, with the numbers of its entries and deliveries.
///
/// # Errors
/// Those of [`audit`].
pub fn judge_trace<G: Gate + Sync, R: Threads + Wait>(
    rt: &R,
    alloc: Global,
    trace: &Trace,
    f: u16,
    workers: u32,
    gate: &G,
) -> Result<Judged, AuditFault>
    requires { (1 ≤ workers) × (workers ≤ 64) }
    ensures verdict { IfOk result (λ judged. IsVerdict trace.now.recording f judged.verdict) }
    ensures entries { IfOk result (λ judged. judged.entries ≡ length trace.now.recording.past) }
    ensures deliveries { IfOk result (λ judged. judged.deliveries ≡
        deliveries_in trace.now.recording.past) }
    ensures one_worker { result ≡ Err AuditFault.NoWorker → 2 ≤ workers }
{
    match audit(rt, alloc, trace, f, workers, gate) {
        Ok(verdict) => Ok(Judged {
            verdict,
            entries: trace.len(),
            deliveries: trace.deliveries(),
        }),
        Err(fault) => Err(fault),
    }
}
