//! The verdict on a text while it is read: the reading stops at the first audit that does not accept.
ghost use Rattle.std.specs.Prelude.{◌≡◌, ◌≢◌, ◌≤◌, ◌++◌, ℕ, List, IfOk, IfErr, IfSome, IfNone, Err, length, true};
ghost use Rattle.causal_text.specs.PushReaders.{HasReceived};
ghost use Rattle.causal_text.specs.Prefixes.{SpellsSoFar};
ghost use Rattle.causal_trace.specs.Judgement.{IsSafeTrace};
ghost use Rattle.causal_trace.specs.Rows.{Recording};
ghost use Rattle.causal_workers.specs.Streaming.{EarlyBreachIsFinal, HasNoEarlyBreach, IsBreachSoFar, IsLook, IsStreamVerdict, ExplainsVerdictError, StopsOnceJudged};
ghost use Rattle.causal_workers.specs.Inside.PieceOutcomes.{IsPieceOutcome};
ghost use Rattle.causal_workers.specs.declared.looks.Looks.{Looks};

use crate::gate::Gate;
use crate::judgement::{judge_read, judge_trace};
use crate::looks::{LookTimer, Looks};
use crate::parallel_audit::AuditFault;
use causal_audit::{Judged, Verdict};
use causal_text::lines::split_complete;
use causal_text::{PushReader, ReadError, max_text_len};
use causal_trace::limits::Limits;
use std::alloc::Global;
use std::io::Read;
use std::rt::Clock;
use std::sync::Wait;
use std::thread::Threads;

/// The size of one read in bytes.
const PIECE: usize = 4_096;

/// The verdict on a text that may not have been read to its end.
#[derive(Clone, Copy)]
pub enum StreamVerdict {
    /// The judgement of the first audit that does not accept; reading stopped there.
    Early(Judged),
    /// The whole text spells a trace with this verdict.
    Whole(Judged),
}

/// Why a text got no verdict.
#[derive(Drop)]
pub enum VerdictError {
    /// The source failed, or the text read is invalid.
    Input(ReadError),
    /// An audit returned no verdict.
    Audit(AuditFault),
}

/// The outcome of one more piece of the text.
#[derive(Drop)]
enum PieceOutcome {
    More(PushReader),
    Breach(Judged),
}

/// Returns the verdict for f on the text of a source, by 1 to 64 workers, who share each audit. The trace read so far
/// is audited at each checkpoint: at 1, 2, 4, 8 .. entries. An audit that does not accept ends the reading. Later text
/// cannot change the verdict, and its errors are not reported. So at most about twice the entries up to the first
/// unsafe instant are read, and the rest of the last piece, which has at most 4,096 bytes.
///
/// With [`Looks::Live`] there are audits between checkpoints too. So the entries of an `Early` verdict depend on the
/// time; what it finds does not.
///
/// Each audit starts from the first entry. As each at a checkpoint covers twice as many entries as the one before, all
/// these together cost about twice the last. The others take at most half of the time.
///
/// # Errors
/// `Input` as in `read_within`, `Audit` as in `audit`.
pub fn judge_stream<I: Read, G: Gate + Sync, R: Threads + Wait + Clock>(
    rt: &R,
    alloc: Global,
    source: &mut I,
    limits: Limits,
    looks: Looks,
    f: u16,
    workers: u32,
    gate: &G,
) -> Result<StreamVerdict, VerdictError>
    requires { (1 ≤ workers) × (workers ≤ 64) }
    ensures ok { IfOk result (λ known. IfSome (I.remaining source.old)
        (λ text. IsStreamVerdict looks limits.entries text f known)) }
    ensures err { IfErr result (λ unjudged. IfSome (I.remaining source.old)
        (λ text. ExplainsVerdictError limits.entries text f unjudged)) }
    ensures stops { StopsOnceJudged limits.entries f (I.remaining source.old) (I.remaining source.new) }
    ensures one_worker { result ≡ Err (VerdictError.Audit AuditFault.NoWorker) → 2 ≤ workers }
{
    let mut prefix = PushReader::within(alloc, limits);
    let mut timer = LookTimer::start(rt, looks);
    let mut buffer = [0u8; PIECE];
    for _i in 0..max_text_len(limits) + 2 {
        let Ok(n) = source.read(&mut buffer) else {
            return Err(VerdictError::Input(ReadError::Source));
        };
        if n == 0 {
            return judge_whole(rt, alloc, prefix, f, workers, gate);
        }
        match feed_in_time(
            rt,
            alloc,
            &mut timer,
            prefix,
            &buffer[..n],
            f,
            workers,
            gate,
        ) {
            Ok(PieceOutcome::More(next)) => prefix = next,
            Ok(PieceOutcome::Breach(judged)) => return Ok(StreamVerdict::Early(judged)),
            Err(unjudged) => return Err(unjudged),
        }
    }
    unreachable!()
}

/// Reads one more piece, and audits the trace at each checkpoint in it, and at its last line if that is due.
fn feed_in_time<G: Gate + Sync, R: Threads + Wait + Clock>(
    rt: &R,
    alloc: Global,
    timer: &mut LookTimer,
    prefix: PushReader,
    piece: &[u8],
    f: u16,
    workers: u32,
    gate: &G,
) -> Result<PieceOutcome, VerdictError>
    requires { (1 ≤ workers) × (workers ≤ 64) }
    ensures same { timer.new.looks ≡ timer.old.looks }
    ensures ok { IfOk result (λ heard. (most : ℕ) (b : List ℕ) → HasReceived most prefix b
        → HasNoEarlyBreach most b f
        → IsPieceOutcome timer.old.looks most b piece.now f heard) }
    ensures err { IfErr result (λ unjudged. (most : ℕ) (b : List ℕ) → HasReceived most prefix b
        → HasNoEarlyBreach most b f → (more : List ℕ) →
        ExplainsVerdictError most ((b ++ piece.now) ++ more) f unjudged) }
    ensures one_worker { result ≡ Err (VerdictError.Audit AuditFault.NoWorker) → 2 ≤ workers }
{
    let Some(began) = timer.due(rt, piece) else {
        let looks = Looks::Checkpoints;
        return feed_and_audit(rt, alloc, prefix, piece, looks, f, workers, gate);
    };
    let looks = timer.looks;
    let outcome = feed_and_audit(rt, alloc, prefix, piece, looks, f, workers, gate);
    timer.note_look(rt, began);
    outcome
}

/// Reads one more piece, and audits the trace at each checkpoint in it; in a live run, also at its last line.
fn feed_and_audit<G: Gate + Sync, R: Threads + Wait>(
    rt: &R,
    alloc: Global,
    prefix: PushReader,
    piece: &[u8],
    looks: Looks,
    f: u16,
    workers: u32,
    gate: &G,
) -> Result<PieceOutcome, VerdictError>
    requires { (1 ≤ workers) × (workers ≤ 64) }
    ensures ok { IfOk result (λ heard. (most : ℕ) (b : List ℕ) → HasReceived most prefix b
        → HasNoEarlyBreach most b f → IsPieceOutcome looks most b piece.now f heard) }
    ensures err { IfErr result (λ unjudged. (most : ℕ) (b : List ℕ) → HasReceived most prefix b
        → HasNoEarlyBreach most b f → (more : List ℕ) →
        ExplainsVerdictError most ((b ++ piece.now) ++ more) f unjudged) }
    ensures one_worker { result ≡ Err (VerdictError.Audit AuditFault.NoWorker) → 2 ≤ workers }
{
    let mut reader = prefix;
    let mut left = piece;
    while let Some((line, after)) = split_complete(left) {
        reader = match reader.push_line(line) {
            Ok(next) => next,
            Err(rejected) => return Err(VerdictError::Input(ReadError::Text(rejected))),
        };
        let looks_here = looks.before(after);
        match breach_so_far(rt, alloc, &reader, looks_here, f, workers, gate) {
            Ok(None) => {}
            Ok(Some(judged)) => return Ok(PieceOutcome::Breach(judged)),
            Err(fault) => return Err(VerdictError::Audit(fault)),
        }
        left = after;
    }
    match reader.push_part(left) {
        Ok(next) => Ok(PieceOutcome::More(next)),
        Err(rejected) => Err(VerdictError::Input(ReadError::Text(rejected))),
    }
}

/// Returns the judgement of the trace so far if it is audited now and its verdict does not accept; `None` otherwise.
fn breach_so_far<G: Gate + Sync, R: Threads + Wait>(
    rt: &R,
    alloc: Global,
    prefix: &PushReader,
    looks: Looks,
    f: u16,
    workers: u32,
    gate: &G,
) -> Result<Option<Judged>, AuditFault>
    requires { (1 ≤ workers) × (workers ≤ 64) }
    ensures breach { IfOk result (λ found. IfSome found (λ judged. (most : ℕ) (b : List ℕ)
        → HasReceived most prefix.now b → IsBreachSoFar looks most b f judged)) }
    ensures none { IfOk result (λ found. IfNone found ((most : ℕ) (b : List ℕ) (r : Recording)
        → HasReceived most prefix.now b → SpellsSoFar most b r →
        IsLook looks (length r.past) → IsSafeTrace r f)) }
    ensures one_worker { result ≡ Err AuditFault.NoWorker → 2 ≤ workers }
{
    let Some(trace) = prefix.trace() else {
        return Ok(None);
    };
    if !looks.has(trace.len()) {
        return Ok(None);
    }
    let judged = judge_trace(rt, alloc, trace, f, workers, gate)?;
    match judged.verdict {
        Verdict::Accept => Ok(None),
        Verdict::Exceeded { .. } | Verdict::Orphan { .. } => Ok(Some(judged)),
    }
}

/// Returns the judgement of a whole text, after its last byte.
fn judge_whole<G: Gate + Sync, R: Threads + Wait>(
    rt: &R,
    alloc: Global,
    prefix: PushReader,
    f: u16,
    workers: u32,
    gate: &G,
) -> Result<StreamVerdict, VerdictError>
    requires { (1 ≤ workers) × (workers ≤ 64) }
    ensures ok { IfOk result (λ known. (most : ℕ) (b : List ℕ) → HasReceived most prefix b
        → HasNoEarlyBreach most b f → (looks : Looks) → IsStreamVerdict looks most b f known) }
    ensures err { IfErr result (λ unjudged. (most : ℕ) (b : List ℕ) → HasReceived most prefix b
        → HasNoEarlyBreach most b f → ExplainsVerdictError most b f unjudged) }
    ensures one_worker { result ≡ Err (VerdictError.Audit AuditFault.NoWorker) → 2 ≤ workers }
{
    let trace = match prefix.finish() {
        Ok(trace) => trace,
        Err(rejected) => return Err(VerdictError::Input(ReadError::Text(rejected))),
    };
    match judge_read(rt, alloc, trace, f, workers, gate) {
        Ok(judged) => Ok(StreamVerdict::Whole(judged)),
        Err(fault) => Err(VerdictError::Audit(fault)),
    }
}

/// A law, of a function that does nothing: a verdict of an audit that does not accept is the verdict on the whole
/// text, if that spells a trace.
pub fn early_breach_is_final()
    ensures { EarlyBreachIsFinal }
{}
