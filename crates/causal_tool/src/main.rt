//! Audits or draws a recorded run, merges recorder files, or runs a script: of files, or on standard input.
//!
//! The commands are calls of `causal_commands` and `causal_runtime_commands`, over any reader and any writer. Their
//! contracts are what the program guarantees.
//!
//! - [`answer_question`] is `audit`, `explain` and `replays`, as lines or with `--json`.
//! - [`answer_mapped_reason`] is `explain --map`, and [`answer_drawing`] is `draw`.
//! - [`answer_merge`] is `merge`, and [`answer_script`] is `run`.
//!
//! [`parse_command_line`] of `causal_arguments` parses the command line, [`Invocation::of`] names the call that answers it,
//! [`open_sources`] of `causal_console` opens what it names, and [`run_command`] runs the command.
//! `main` adds the standard streams, the exit status, and the name of the command before each line on standard error.
#![tactic(auto)]

ghost use Rattle.std.specs.Prelude.{◌≡◌};
ghost use Rattle.std.specs.Process.{exit_status};
ghost use Rattle.causal_outcomes.specs.Endings.{status_of};
ghost use Rattle.causal_tool.specs.Commands.{ended_of};

/// Messages on the outcome of a command, for standard error.
mod diagnostics;
/// The call that answers a command.
mod invocation;
/// Runs the command of a command line.
mod run;

use crate::diagnostics::print_diagnostics;
use crate::invocation::Invocation;
use crate::run::{CommandOutcome, run_command};
use causal_arguments::{CommandLine, Subcommand, parse_command_line};
pub use causal_commands::audit_stream;
use causal_console::{
    InputNames, MapFile, ProgressStream, exit_before_replacing, exit_code_of, exit_early,
    exit_unopened, is_standard_input, open_sources, print_ending, print_stream_ending, write_map,
};
use causal_outcomes::{LastErrorStream, MergeOutcome};
use std::io::{self, IsTerminal};
use std::process::ExitCode;

/// Returns the prefix of each line on standard error.
fn name_of(command: Subcommand) -> &'static str {
    match command {
        Subcommand::Audit { .. } => "causal_tool audit",
        Subcommand::Explain { .. } | Subcommand::ExplainByMap { .. } => "causal_tool explain",
        Subcommand::Replays { .. } => "causal_tool replays",
        Subcommand::Draw { .. } => "causal_tool draw",
        Subcommand::Merge { .. } => "causal_tool merge",
        Subcommand::Run => "causal_tool run",
    }
}

/// Prints what is read, if it has to be typed at a terminal.
fn prompt(rt: &HostRuntime, command: Subcommand, files: &[String]) {
    let is_typed = files.is_empty() || files.iter().any(|name| is_standard_input(name.as_str()));
    if !is_typed || !rt.stdin().is_terminal() {
        return;
    }
    let what = match command {
        Subcommand::Merge { .. } => "recordings",
        Subcommand::Run => "a script",
        _ => "a trace",
    };
    let name = name_of(command);
    let _ = eprintln!(rt; "{name}: reading {what} from the terminal; end it with control-D");
}

/// Prints the diagnostics of the outcome, and why no answer was written whole, if so; returns the exit code. `map` is the
/// name of the file of the map, if one was read or written, and `map_error` its error, by which the command then ended.
fn exit_after<S: Drop>(
    rt: &HostRuntime,
    command: &str,
    input: &InputNames<'_, S>,
    outcome: CommandOutcome,
    read_error: Option<io::Error>,
    write_error: Option<io::Error>,
    map: &str,
    map_error: Option<io::Error>,
) -> ExitCode
    ensures { exit_status result ≡ status_of (ended_of outcome) }
{
    let ended = print_diagnostics(rt, command, input, map, outcome);
    if map_error.is_some() {
        print_ending(rt, command, ended, Some(map), map_error);
    } else {
        print_stream_ending(rt, command, input, ended, read_error, write_error);
    }
    exit_code_of(ended)
}

/// Writes the map of a merge, if one is wanted; returns the outcome with how the command then ends, and the error of the
/// map's file.
fn with_map<S: Drop>(
    rt: &HostRuntime,
    map: Option<&str>,
    input: &InputNames<'_, S>,
    outcome: CommandOutcome,
) -> (CommandOutcome, Option<io::Error>) {
    match outcome {
        CommandOutcome::Merge { outcome } => {
            let (ended, error) = write_map(rt, map, input, &outcome);
            let outcome = MergeOutcome { ended, ..outcome };
            (CommandOutcome::Merge { outcome }, error)
        }
        _ => (outcome, None),
    }
}

fn main(rt: HostRuntime) -> ExitCode {
    let CommandLine {
        command,
        files,
        map,
    } = match parse_command_line(&rt) {
        Ok(line) => line,
        Err(exit) => return exit_early(&rt, "causal_tool", exit),
    };
    let name = name_of(command);
    let map = map.as_ref().map(|path| path.as_str());
    if let (Subcommand::Merge { .. }, Some(map)) = (command, map)
        && let Some(exit) = exit_before_replacing(&rt, name, map, files.as_slice())
    {
        return exit;
    }
    let sources = match open_sources(&rt, rt.alloc(), files.as_slice()) {
        Ok(sources) => sources,
        Err(fault) => return exit_unopened(&rt, name, files.as_slice(), fault),
    };
    prompt(&rt, command, files.as_slice());
    let is_watched = rt.stderr().is_terminal();
    let reader = ProgressStream::new(rt, name, sources, is_watched);
    let mut input = LastErrorStream::new(reader);
    let mut output = LastErrorStream::new(io::writer(&rt));
    let mut map_input = LastErrorStream::new(MapFile::new(rt, map));
    let asked = Invocation::of(command);
    let outcome = run_command(&rt, asked, &mut input, &mut map_input, &mut output);
    let names = InputNames::new(files.as_slice(), input.stream().stream());
    let (outcome, map_error) = with_map(&rt, map, &names, outcome);
    exit_after(
        &rt,
        name,
        &names,
        outcome,
        input.error(),
        output.error(),
        map.unwrap_or(""),
        map_input.error().or(map_error),
    )
}
