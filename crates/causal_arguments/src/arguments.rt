//! Reads the arguments of the program, and prints why they request no command.
ghost use Rattle.std.specs.Prelude.{◌≡◌, Bool, IfOk};
ghost use Rattle.clap.specs.Values.{kind_of};
ghost use Rattle.causal_arguments.specs.Workers.{HasWorkersInRange};
ghost use Rattle.causal_arguments.specs.Inside.Refusals.{exit_for_clap_error};

use crate::subcommand::CommandLine;
use crate::values::parse_args;
use clap::Error;
use clap::error::ErrorKind;
use std::rt::Env;
use std::{env, io};

/// The exit status after bad usage.
pub const BAD_USAGE: u8 = 3;

const ARGUMENTS_NOT_UTF8: &str =
    "error: the arguments are no UTF-8 text\n\nFor more information, try '--help'.";

/// The usage of `explain`, none of whose options must be given.
const EXPLAIN_USAGE: &str = "Usage: causal_tool explain [OPTIONS] [FILE]";

/// Why no command is run.
#[derive(Clone, Copy)]
pub enum EarlyExit {
    /// The message has been printed; the program exits with this status.
    Status(u8),
    /// Help or the version could not be printed.
    WriteFault,
    /// An allocation failed.
    NoMemory,
}

/// Reads the command line. Messages of `clap` are printed: help on standard output, bad usage on standard error.
/// Arguments that are not UTF-8 are bad usage, too.
pub fn parse_command_line<R: Env + Print + Eprint + AllocGlobal>(
    rt: &R,
) -> Result<CommandLine, EarlyExit>
    ensures { IfOk result (λ line. HasWorkersInRange line.command) }
{
    let words = match env::args(rt) {
        Ok(args) => args.collect::<Vec<String>>(rt.alloc()),
        Err(error) if error.kind() == io::ErrorKind::OutOfMemory => {
            return Err(EarlyExit::NoMemory);
        }
        Err(_) => {
            let _ = rt.eprintln(ARGUMENTS_NOT_UTF8);
            return Err(EarlyExit::Status(BAD_USAGE));
        }
    };
    let Ok(words) = words else {
        return Err(EarlyExit::NoMemory);
    };
    match parse_args(rt.alloc(), words.as_slice()) {
        Ok(Some(line)) => Ok(line),
        Ok(None) => Err(EarlyExit::Status(BAD_USAGE)),
        Err(error) => Err(print_clap_error(rt, error)),
    }
}

/// Prints the message of `clap`, and returns how the program ends.
fn print_clap_error<R: Print + Eprint + AllocGlobal>(rt: &R, error: Error) -> EarlyExit
    ensures { (printed : Bool) × (result ≡ exit_for_clap_error (kind_of error) printed) }
{
    let kind = error.kind();
    let printed = match kind {
        ErrorKind::OutOfMemory => false,
        ErrorKind::UnknownArgument => print_unknown_argument(rt, &error),
        _ => error.print(rt).is_ok(),
    };
    exit_for_clap_error(kind, printed)
}

/// Prints the message on an unknown argument, and returns whether it was written. `clap` shows an option of `explain` that was
/// given as one that must be; the usage of the command replaces that.
fn print_unknown_argument<R: Eprint + AllocGlobal>(rt: &R, error: &Error) -> bool {
    let Ok(text) = format!(in rt.alloc(); "{error}") else {
        return false;
    };
    for line in text.as_str().lines() {
        let line = if line.starts_with("Usage: ") && line.contains(" explain ") {
            EXPLAIN_USAGE
        } else {
            line
        };
        if rt.eprintln(line).is_err() {
            return false;
        }
    }
    true
}

/// Returns how the program ends after a message of `clap`, which was printed or not. Help that was requested must be
/// printed. An error is printed on standard error, if it can be written.
fn exit_for_clap_error(kind: ErrorKind, printed: bool) -> EarlyExit
    ensures { result ≡ exit_for_clap_error kind printed }
{
    match kind {
        ErrorKind::OutOfMemory => EarlyExit::NoMemory,
        ErrorKind::DisplayHelp | ErrorKind::DisplayVersion => {
            if printed {
                EarlyExit::Status(0)
            } else {
                EarlyExit::WriteFault
            }
        }
        _ => EarlyExit::Status(BAD_USAGE),
    }
}
