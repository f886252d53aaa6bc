//! Messages on the outcome of a command, for standard error.
ghost use Rattle.std.specs.Prelude.{◌≡◌};
ghost use Rattle.causal_tool.specs.Commands.{ended_of};

use crate::run::CommandOutcome;
use causal_commands::MappedOutcome;
use causal_console::{
    InputNames, print_map_fault, print_merge_diagnostics, print_pending, print_script_fault,
    print_trace_outcome,
};
use causal_outcomes::Ended;
use causal_runtime_commands::{ScriptOutcome, reason_hint};

/// Prints the diagnostics of a command's outcome, and returns how the command ended.
pub(crate) fn print_diagnostics<R: Eprint + AllocGlobal, S: Drop>(
    rt: &R,
    command: &str,
    input: &InputNames<'_, S>,
    map: &str,
    outcome: CommandOutcome,
) -> Ended
    ensures { result ≡ ended_of outcome }
{
    match outcome {
        CommandOutcome::Trace { f, outcome } => {
            print_trace_outcome(rt, command, input, f, outcome)
        }
        CommandOutcome::MappedReason { f, outcome } => {
            let MappedOutcome { outcome, map_fault } = outcome;
            if let Some(fault) = map_fault {
                print_map_fault(rt, command, map, &fault);
            }
            print_trace_outcome(rt, command, input, f, outcome)
        }
        CommandOutcome::Merge { outcome } => print_merge_diagnostics(rt, command, input, outcome),
        CommandOutcome::Script { outcome } => {
            let ScriptOutcome {
                ended,
                fault,
                pending,
            } = outcome;
            if let Some(reason) = fault {
                let expected = reason_hint(reason);
                print_script_fault(rt, command, input, reason.line(), &reason, expected);
            }
            if let Some(names) = pending {
                print_pending(rt, command, names.as_slice());
            }
            ended
        }
    }
}
