//! The command `run`, over any reader and writer.
ghost use Rattle.std.specs.Prelude.{◌≡◌, ◌≤◌, Ok, Some, None, IfOk, IfErr, IfSome};
ghost use Rattle.causal_runtime_commands.specs.Runs.{IsScriptAnswer, WritesScriptFor, ReadsAtMostScript};
ghost use Rattle.causal_runtime_commands.specs.Reasons.{IsScriptReason, IsReasonFor, IsPendingAt, ArePendingIn, ArePendingFor};
ghost use Rattle.causal_runtime_commands.specs.declared.script.Reason.TheVariants as Why;
ghost use Rattle.causal_runtime_commands.specs.Inside.ScriptAnswers.{IsScriptFaultAnswer, IsRefusalAnswer, IsPrintedFor, PendingIsTrue, RunWritesNothing};
ghost use Rattle.causal_runtime_commands.specs.Inside.ReasonsForScripts.{IsFaultReason, IsRefusalReason};

use crate::script_reading::read_script;
use causal_name::{MsgName, NoMemory};
use causal_outcomes::{Ended, ReadFault};
use causal_protocol::request::CoreFault;
use causal_run::{RunFault, pending_before, run_script};
use causal_script::{
    Script, ScriptFault, ScriptFaultKind, parse_script, refused_line, script_line,
};
use causal_text::{text_of, write_whole};
use std::alloc::Global;
use std::io::{Read, Write};
use std::sync::Wait;
use thiserror::Error;

/// Why a script has no trace.
#[derive(Clone, Copy, Debug, Error)]
pub enum Reason {
    /// The text is not a valid script: its first error.
    #[error(transparent)]
    Script(ScriptFault),
    /// The runtime refused a command.
    #[error(transparent)]
    Run(RunFault),
}

impl Reason {
    ghost use Rattle.causal_runtime_commands.specs.Reasons.{reason_line};

    /// Returns the number of the line with the error or the refused command; None if the run failed for another reason.
    pub fn line(self) -> Option<u32>
        ensures { result ≡ reason_line self }
    {
        match self {
            Reason::Script(fault) => Some(fault.line),
            Reason::Run(RunFault::Refused { line, .. }) => Some(line),
            Reason::Run(_) => None,
        }
    }
}

/// The outcome of `run`: how it ended, why there is no trace, and, if a delivery was refused as `NotAvailable`, the
/// messages that were pending for its receiver, by sender and number, if they could be determined.
#[derive(Drop)]
pub struct ScriptOutcome {
    pub ended: Ended,
    pub fault: Option<Reason>,
    pub pending: Option<Vec<MsgName>>,
}

impl ScriptOutcome {
    /// Returns the outcome of a run that ended before there was an answer.
    fn unanswered(ended: Ended) -> ScriptOutcome
        ensures { result ≡ record { ended = ended; fault = None; pending = None } }
    {
        ScriptOutcome {
            ended,
            fault: None,
            pending: None,
        }
    }
}

/// Reads the text of a script, runs it and writes the trace of the run. If a command is refused or the text is not a
/// valid script, it writes one line with that, and the outcome has the error or the refusal. The ending reports a failure
/// of the reader, the writer or an allocation, and a shared runtime that could not be finished. After a `NotAvailable` the
/// commands before it are performed again, to find what was pending.
///
/// At most 1,048,577 bytes of the text are read, one more than a script may have. The logs of the run hash with the seed;
/// only costs depend on it.
pub fn answer_script<R: Wait, I: Read, O: Write>(
    rt: &R,
    alloc: Global,
    input: &mut I,
    output: &mut O,
    seed: u64,
) -> ScriptOutcome
    ensures prints { WritesScriptFor (I.remaining input.old) result.ended
        (O.contents output.old) (O.contents output.new) }
    ensures reason { IsReasonFor (I.remaining input.old) result.fault }
    ensures pending { ArePendingFor (I.remaining input.old) result }
    ensures most { ReadsAtMostScript (I.remaining input.old) (I.remaining input.new) }
{
    let ScriptAnswer {
        ended,
        text,
        reason,
        pending,
    } = match answer_from(rt, alloc, input, seed) {
        Ok(answer) => answer,
        Err(ended) => return ScriptOutcome::unanswered(ended),
    };
    match write_whole(text.as_slice(), output) {
        Ok(()) => ScriptOutcome {
            ended,
            fault: reason,
            pending,
        },
        Err(_) => ScriptOutcome {
            ended: Ended::WriteFault,
            fault: reason,
            pending,
        },
    }
}

/// The text that answers a script, the ending after it is written, and, if it is not a trace, the reason and what was
/// pending.
#[derive(Drop)]
struct ScriptAnswer {
    ended: Ended,
    text: Vec<u8>,
    reason: Option<Reason>,
    pending: Option<Vec<MsgName>>,
}

fn answer_from<R: Wait, I: Read>(
    rt: &R,
    alloc: Global,
    input: &mut I,
    seed: u64,
) -> Result<ScriptAnswer, Ended>
    ensures ok { IfOk result
        (λ answer. IsPrintedFor (I.remaining input.old) answer.ended answer.text.items) }
    ensures reason { IfOk result (λ answer. IsReasonFor (I.remaining input.old) answer.reason) }
    ensures pending { IfOk result (λ answer. PendingIsTrue (I.remaining input.old) answer) }
    ensures err { IfErr result RunWritesNothing }
    ensures most { ReadsAtMostScript (I.remaining input.old) (I.remaining input.new) }
{
    match read_script(alloc, input) {
        Ok(text) => answer_to(rt, alloc, text.as_slice(), seed),
        Err(ReadFault::Read) => Err(Ended::ReadFault),
        Err(ReadFault::NoMemory) => Err(Ended::NoMemory),
    }
}

fn answer_to<R: Wait>(rt: &R, alloc: Global, text: &[u8], seed: u64) -> Result<ScriptAnswer, Ended>
    ensures ok { IfOk result (λ answer. IsScriptAnswer text.now answer.ended answer.text.items) }
    ensures reason { IfOk result (λ answer. IfSome answer.reason (IsScriptReason text.now)) }
    ensures pending { IfOk result (λ answer. IfSome answer.pending
        (λ names. ArePendingIn text.now answer.reason names.items)) }
    ensures err { IfErr result RunWritesNothing }
{
    let script = match parse_script(alloc, text) {
        Ok(script) => script,
        Err(fault) => return fault_answer(alloc, fault),
    };
    match run_script(rt, alloc, &script, seed) {
        Ok(trace) => line_answer(Ended::Ran, text_of(alloc, &trace), None),
        Err(fault) => refused_answer(rt, alloc, &script, fault, seed),
    }
}

/// Returns the answer to the script of this run, with what was pending.
fn refused_answer<R: Wait>(
    rt: &R,
    alloc: Global,
    script: &Script,
    fault: RunFault,
    seed: u64,
) -> Result<ScriptAnswer, Ended>
    requires some { 1 ≤ script.now.n }
    requires few { script.now.n ≤ 256 }
    ensures ok { IfOk result (λ answer. IsRefusalAnswer fault answer.ended answer.text.items) }
    ensures reason { IfOk result (λ answer. IsRefusalReason fault answer.reason) }
    ensures pending { IfOk result (λ answer. IfSome answer.pending (λ names.
        (answer.reason ≡ Some (Why.Run fault)) × IsPendingAt script.now fault names.items)) }
    ensures err { IfErr result RunWritesNothing }
{
    let ScriptAnswer {
        ended,
        text,
        reason,
        ..
    } = refusal_answer(alloc, fault)?;
    let pending = pending_at(rt, alloc, script, fault, seed);
    Ok(ScriptAnswer {
        ended,
        text,
        reason,
        pending,
    })
}

/// Returns what was pending for the receiver of a delivery that was refused as `NotAvailable`; None after any other fault,
/// or if that cannot be determined.
fn pending_at<R: Wait>(
    rt: &R,
    alloc: Global,
    script: &Script,
    fault: RunFault,
    seed: u64,
) -> Option<Vec<MsgName>>
    requires some { 1 ≤ script.now.n }
    requires few { script.now.n ≤ 256 }
    ensures { IfSome result (λ names. IsPendingAt script.now fault names.items) }
{
    match fault {
        RunFault::Refused {
            line,
            fault: CoreFault::NotAvailable,
        } => pending_before(rt, alloc, script, line, seed).ok()?,
        _ => None,
    }
}

fn fault_answer(alloc: Global, fault: ScriptFault) -> Result<ScriptAnswer, Ended>
    ensures ok { IfOk result (λ answer. IsScriptFaultAnswer fault answer.ended answer.text.items) }
    ensures reason { IfOk result (λ answer. IsFaultReason fault answer.reason) }
    ensures pending { IfOk result (λ answer. answer.pending ≡ None) }
    ensures err { IfErr result RunWritesNothing }
{
    match fault.kind {
        ScriptFaultKind::NoMemory => Err(Ended::NoMemory),
        _ => line_answer(
            Ended::Faulted,
            script_line(alloc, &fault),
            Some(Reason::Script(fault)),
        ),
    }
}

fn refusal_answer(alloc: Global, fault: RunFault) -> Result<ScriptAnswer, Ended>
    ensures ok { IfOk result (λ answer. IsRefusalAnswer fault answer.ended answer.text.items) }
    ensures reason { IfOk result (λ answer. IsRefusalReason fault answer.reason) }
    ensures same { IfOk result (λ answer. answer.reason ≡ Some (Why.Run fault)) }
    ensures err { IfErr result RunWritesNothing }
{
    match fault {
        RunFault::Refused {
            line,
            fault: refusal,
        } => line_answer(
            Ended::Refused,
            refused_line(alloc, line, refusal),
            Some(Reason::Run(fault)),
        ),
        RunFault::Memory => Err(Ended::NoMemory),
        RunFault::Lock | RunFault::Finish(_) => Err(Ended::FinishFault),
    }
}

/// Returns the answer with this text; `NoMemory` if the text could not be allocated.
fn line_answer(
    ended: Ended,
    line: Result<Vec<u8>, NoMemory>,
    reason: Option<Reason>,
) -> Result<ScriptAnswer, Ended>
    ensures ok { IfOk result (λ answer. (answer.ended ≡ ended) × (line ≡ Ok answer.text)) }
    ensures reason { IfOk result (λ answer. answer.reason ≡ reason) }
    ensures pending { IfOk result (λ answer. answer.pending ≡ None) }
    ensures err { IfErr result RunWritesNothing }
{
    match line {
        Ok(text) => Ok(ScriptAnswer {
            ended,
            text,
            reason,
            pending: None,
        }),
        Err(NoMemory) => Err(Ended::NoMemory),
    }
}
