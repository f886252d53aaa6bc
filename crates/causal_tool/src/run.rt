//! Runs the command of a command line, over any reader and any writer.
ghost use Rattle.causal_tool.specs.Invocations.{HasWorkerCountInRange};
ghost use Rattle.causal_tool.specs.Commands.{Answers, ReadsFor, ReadsMapFor};

use crate::invocation::Invocation;
use causal_commands::{MappedOutcome, answer_drawing, answer_mapped_reason, answer_question};
use causal_outcomes::{DiagnosedFault, MergeOutcome, Outcome, answer_merge};
use causal_runtime_commands::{ScriptOutcome, answer_script};
use causal_workers::OpenGate;
use std::io::{Read, Write};
use std::random::RandomSource;
use std::rt::Clock;
use std::sync::Wait;
use std::thread::Threads;

/// The outcome of a command.
#[derive(Drop)]
pub(crate) enum CommandOutcome {
    /// Of a question on a trace or its picture, for the bound f.
    Trace {
        f: u16,
        outcome: Outcome<DiagnosedFault>,
    },
    /// Of an explanation with the places of a map, for the bound f.
    MappedReason {
        f: u16,
        outcome: MappedOutcome,
    },
    /// Of a merge of recordings.
    Merge {
        outcome: MergeOutcome,
    },
    /// Of the run of a script.
    Script {
        outcome: ScriptOutcome,
    },
}

/// Returns a seed from the system's random source, or 0 if that fails: only costs depend on it.
fn random_seed<R: RandomSource>(rt: &R) -> u64 {
    let mut bytes = [0; 8];
    match rt.fill_bytes(&mut bytes) {
        Ok(()) => u64::from_le_bytes(bytes),
        Err(_) => 0,
    }
}

/// Runs the command, and returns its outcome. Only `explain` reads a map.
pub(crate) fn run_command<
    R: Threads + Wait + Clock + AllocGlobal + RandomSource,
    I: Read,
    M: Read,
    O: Write,
>(rt: &R, asked: Invocation, input: &mut I, map: &mut M, output: &mut O) -> CommandOutcome
    requires { HasWorkerCountInRange asked }
    ensures answers { Answers asked result (I.remaining input.old) (M.remaining map.old)
        (O.contents output.old) (O.contents output.new) }
    ensures reads { ReadsFor asked (I.remaining input.old) (I.remaining input.new) }
    ensures map { ReadsMapFor asked (M.remaining map.old) (M.remaining map.new) }
{
    let alloc = rt.alloc();
    match asked {
        Invocation::Trace {
            question,
            form,
            limits,
        } => CommandOutcome::Trace {
            f: question.faults(),
            outcome: answer_question(rt, alloc, input, output, limits, question, form, &OpenGate),
        },
        Invocation::Draw {
            faults,
            workers,
            limits,
            selection,
        } => CommandOutcome::Trace {
            f: faults,
            outcome: answer_drawing(rt, alloc, input, output, limits, faults, workers, selection),
        },
        Invocation::MappedReason {
            faults,
            workers,
            limits,
        } => CommandOutcome::MappedReason {
            f: faults,
            outcome: answer_mapped_reason(rt, alloc, input, map, output, limits, faults, workers),
        },
        Invocation::Merge {
            workers,
            limits,
            mapping,
        } => CommandOutcome::Merge {
            outcome: answer_merge(rt, alloc, input, output, limits, workers, mapping),
        },
        Invocation::Run => CommandOutcome::Script {
            outcome: answer_script(rt, alloc, input, output, random_seed(rt)),
        },
    }
}
