//! The options of each command, for `clap`.
use crate::help_text::{ANSWERS, PICTURES, REASONS, RECORDINGS, REPLAYS, SCRIPTS};
use clap::builder::ValueParser;
use clap::{Arg, ArgAction, Command, value_parser};
use std::alloc::{AllocError, Global};

/// The value of `--until-breach` by which a breach is looked for by time, too.
pub(crate) const LIVE: &str = "live";

/// An option of a command.
#[derive(Clone, Copy)]
enum OptionKind {
    /// The bound f: the number of processes that may be down at once.
    Faults { is_required: bool },
    /// The number of threads that read, and that audit.
    Workers,
    /// The maximum number of entries of the trace.
    Entries,
    /// The audit stops at the first breach found.
    UntilBreach,
    /// The answer is JSON.
    Json,
    /// The file of the map that is read.
    MapRead,
    /// The file of the map that is written.
    MapWritten,
    /// The line of the entry around which entries are drawn.
    Around,
    /// The processes that are drawn.
    Only,
    /// The file that is read.
    File,
    /// The files that are read, one after the other.
    Files,
}

/// A command, with the texts of its help and its options.
#[derive(Clone, Copy)]
struct CommandSpec {
    name: &'static str,
    about: &'static str,
    help: &'static str,
    given: &'static [OptionKind],
}

const COMMANDS: [CommandSpec; 6] = [
    CommandSpec {
        name: "audit",
        about: "Audits a trace",
        help: ANSWERS,
        given: &[
            OptionKind::File,
            OptionKind::Faults { is_required: true },
            OptionKind::Workers,
            OptionKind::Entries,
            OptionKind::UntilBreach,
            OptionKind::Json,
        ],
    },
    CommandSpec {
        name: "explain",
        about: "Audits a trace, and tells why the verdict is so; or for which F it is safe",
        help: REASONS,
        given: &[
            OptionKind::File,
            OptionKind::Faults { is_required: false },
            OptionKind::Workers,
            OptionKind::Entries,
            OptionKind::Json,
            OptionKind::MapRead,
        ],
    },
    CommandSpec {
        name: "replays",
        about: "Tells whether recoveries follow the determinants that survive",
        help: REPLAYS,
        given: &[
            OptionKind::File,
            OptionKind::Workers,
            OptionKind::Entries,
            OptionKind::Json,
        ],
    },
    CommandSpec {
        name: "draw",
        about: "Audits a trace, and draws it with the verdict",
        help: PICTURES,
        given: &[
            OptionKind::File,
            OptionKind::Faults { is_required: true },
            OptionKind::Workers,
            OptionKind::Entries,
            OptionKind::Around,
            OptionKind::Only,
        ],
    },
    CommandSpec {
        name: "merge",
        about: "Merges recordings into one trace",
        help: RECORDINGS,
        given: &[
            OptionKind::Files,
            OptionKind::Workers,
            OptionKind::Entries,
            OptionKind::MapWritten,
        ],
    },
    CommandSpec {
        name: "run",
        about: "Runs a script and prints its trace",
        help: SCRIPTS,
        given: &[OptionKind::File],
    },
];

/// Returns an option with a value.
fn valued<'a>(
    alloc: Global,
    name: &'static str,
    letter: &'static str,
    help: &'static str,
) -> Arg<'a> {
    Arg::new(alloc, name)
        .long(name)
        .value_name(letter)
        .help(help)
}

fn faults<'a>(alloc: Global, is_required: bool) -> Arg<'a> {
    valued(
        alloc,
        "faults",
        "F",
        "How many processes may be down at once [0 to 65535]",
    )
    .required(is_required)
    .allow_negative_numbers(true)
    .value_parser(value_parser!(u16))
}

fn workers_option<'a>(alloc: Global) -> Arg<'a> {
    let help = "How many threads work [1 to 64]";
    number_option(valued(alloc, "workers", "W", help), 1, 64).default_value("1")
}

fn entries_option<'a>(alloc: Global) -> Arg<'a> {
    let help = "How many entries the trace may have [1 to 16777216]";
    number_option(valued(alloc, "entries", "N", help), 1, 16_777_216).default_value("65536")
}

fn around_option<'a>(alloc: Global) -> Arg<'a> {
    let help = "Draws entries around the one of this line of the text [2 to 16777217]";
    number_option(valued(alloc, "around", "LINE", help), 2, 16_777_217)
}

/// Lets the value of an option be a number from `least` to `most`.
fn number_option(option: Arg<'_>, least: i64, most: i64) -> Arg<'_> {
    option
        .allow_negative_numbers(true)
        .value_parser(value_parser!(u32).range(least..=most))
}

fn only_option<'a>(alloc: Global) -> Arg<'a> {
    let help = "Draws the processes of the breach alone, and counts the others";
    valued(alloc, "only", "PART", help).value_parser(ValueParser::Names(&["breach"]))
}

/// Returns the option that ends an audit at a breach; its value may be left out.
fn until_breach_option<'a>(alloc: Global) -> Arg<'a> {
    valued(
        alloc,
        "until-breach",
        "WHEN",
        "Ends at the first breach found, without reading on; live also looks by time",
    )
    .num_args(0..=1)
    .require_equals(true)
    .default_missing_value("checkpoints")
    .value_parser(ValueParser::Names(&["checkpoints", LIVE]))
}

/// Returns the option that names the file of a map.
fn map_option<'a>(alloc: Global, help: &'static str) -> Arg<'a> {
    valued(alloc, "map", "PATH", help)
}

/// Returns the option of a map that is read: for an explanation in lines.
fn map_read_option<'a>(alloc: Global) -> Result<Arg<'a>, AllocError> {
    map_option(
        alloc,
        "Tells of each entry its file, line and clock, by the map that merge wrote",
    )
    .requires_arg("faults")?
    .conflicts_with("json")
}

/// Returns an option without a value.
fn flag<'a>(alloc: Global, name: &'static str, help: &'static str) -> Arg<'a> {
    Arg::new(alloc, name)
        .long(name)
        .help(help)
        .action(ArgAction::SetTrue)
}

/// Returns the argument that names what is read.
fn file_argument<'a>(alloc: Global, help: &'static str) -> Arg<'a> {
    Arg::new(alloc, "file").value_name("FILE").help(help)
}

/// Returns the argument that names any number of files.
fn files_argument<'a>(alloc: Global) -> Arg<'a> {
    let help = "The files that are read, one after the other; -, or none, is standard input";
    file_argument(alloc, help).num_args(0..)
}

fn option<'a>(alloc: Global, given: OptionKind) -> Result<Arg<'a>, AllocError> {
    Ok(match given {
        OptionKind::Faults { is_required } => faults(alloc, is_required),
        OptionKind::Workers => workers_option(alloc),
        OptionKind::Entries => entries_option(alloc),
        OptionKind::UntilBreach => until_breach_option(alloc),
        OptionKind::Json => flag(alloc, "json", "Answers with one JSON object"),
        OptionKind::MapRead => return map_read_option(alloc),
        OptionKind::MapWritten => map_option(
            alloc,
            "Writes the file, the line and the clock of each entry into this file",
        ),
        OptionKind::Around => around_option(alloc),
        OptionKind::Only => only_option(alloc),
        OptionKind::File => file_argument(
            alloc,
            "The file that is read; -, or none, is standard input",
        ),
        OptionKind::Files => files_argument(alloc),
    })
}

/// Returns the options of one command.
fn options_of<'a>(alloc: Global, given: &[OptionKind]) -> Result<Vec<Arg<'a>>, AllocError> {
    let mut options = Vec::new(alloc);
    for kind in given {
        options.push(option(alloc, *kind)?)?;
    }
    Ok(options)
}

/// Returns one command with its options.
fn subcommand_of<'a>(alloc: Global, described: &CommandSpec) -> Result<Command<'a>, AllocError> {
    let options = options_of(alloc, described.given)?;
    Command::new(alloc, described.name)
        .about(described.about)
        .after_help(described.help)
        .args(options)
}

/// Returns the commands of the program.
fn subcommands<'a>(alloc: Global) -> Result<Vec<Command<'a>>, AllocError> {
    let mut subcommands = Vec::new(alloc);
    for described in &COMMANDS {
        subcommands.push(subcommand_of(alloc, described)?)?;
    }
    Ok(subcommands)
}

/// Returns the program with its commands.
pub(crate) fn program_command<'a>(alloc: Global) -> Result<Command<'a>, AllocError> {
    let subcommands = subcommands(alloc)?;
    Command::new(alloc, "causal_tool")
        .about(
            "Audits recorded runs of processes that log their messages causally, and records such runs",
        )
        .version("1.0.0")
        .subcommand_required(true)
        .subcommands(subcommands)
}
