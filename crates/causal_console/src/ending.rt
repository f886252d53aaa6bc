//! How the program ends: the exit code, and why no answer was written whole, for standard error.
ghost use Rattle.std.specs.Prelude.{◌≡◌};
ghost use Rattle.std.specs.Process.{exit_status};
ghost use Rattle.causal_outcomes.specs.Endings.{status_of};
ghost use Rattle.causal_console.specs.Exits.{status_after};

use crate::diagnostics::print_error_line;
use crate::map_file::replaced_input;
use crate::place::{InputNames, file_name};
use crate::source::OpenFault;
use causal_arguments::{BAD_USAGE, EarlyExit};
use causal_outcomes::Ended;
use std::fs::Files;
use std::io::{self, ErrorKind};
use std::process::ExitCode;

/// Returns the exit code of a command that ended so.
pub fn exit_code_of(ended: Ended) -> ExitCode
    ensures { exit_status result ≡ status_of ended }
{
    ExitCode::from(ended.status())
}

/// Prints why no answer was written whole, if so, with the name of the file that failed and the system's reason. It prints
/// nothing if the answer's reader closed the pipe.
pub fn print_ending<R: Eprint>(
    rt: &R,
    command: &str,
    ended: Ended,
    file: Option<&str>,
    reason: Option<io::Error>,
) {
    let Some(text) = ended.text() else {
        return;
    };
    let is_closed = matches!(&reason, Some(error) if error.kind() == ErrorKind::BrokenPipe);
    if is_closed {
        return;
    }
    let _ = rt.eprintln(text);
    match (reason, file) {
        (Some(error), Some(file)) => {
            let _ = eprintln!(rt; "{command}: {file}: {error}");
        }
        (Some(error), None) => print_error_line(rt, command, &error),
        (None, _) => {}
    }
}

/// Prints why no answer was written whole, if so, where the input or the output failed.
pub fn print_stream_ending<R: Eprint, S: Drop>(
    rt: &R,
    command: &str,
    input: &InputNames<'_, S>,
    ended: Ended,
    read_error: Option<io::Error>,
    write_error: Option<io::Error>,
) {
    let (file, reason) = match ended {
        Ended::ReadFault => (input.present_file(), read_error),
        Ended::WriteFault => (None, write_error),
        _ => (None, None),
    };
    print_ending(rt, command, ended, file, reason);
}

/// Prints why a file was not opened, and returns the exit code.
pub fn exit_unopened<R: Eprint>(
    rt: &R,
    command: &str,
    files: &[String],
    fault: OpenFault,
) -> ExitCode {
    match fault {
        OpenFault::Refused { file, error } => {
            let name = file_name(files, file);
            print_ending(rt, command, Ended::ReadFault, name, Some(error));
            exit_code_of(Ended::ReadFault)
        }
        OpenFault::NoMemory => {
            print_ending(rt, command, Ended::NoMemory, None, None);
            exit_code_of(Ended::NoMemory)
        }
    }
}

/// Prints why no command is run, if that is still to be printed, and returns the exit code.
pub fn exit_early<R: Eprint>(rt: &R, program: &str, exit: EarlyExit) -> ExitCode
    ensures { exit_status result ≡ status_after exit }
{
    let ended = match exit {
        EarlyExit::Status(status) => return ExitCode::from(status),
        EarlyExit::WriteFault => Ended::WriteFault,
        EarlyExit::NoMemory => Ended::NoMemory,
    };
    print_ending(rt, program, ended, None, None);
    exit_code_of(ended)
}

/// Prints that a map which is to be written would replace one of the files that are read, if so, and returns the exit code
/// of bad usage then.
pub fn exit_before_replacing<R: Files + Eprint + AllocGlobal>(
    rt: &R,
    command: &str,
    map: &str,
    files: &[String],
) -> Option<ExitCode> {
    let file = replaced_input(rt, map, files)?;
    let _ = eprintln!(rt;
        "{command}: the map {map} would replace {file}, which is read: name another file"
    );
    Some(ExitCode::from(BAD_USAGE))
}
