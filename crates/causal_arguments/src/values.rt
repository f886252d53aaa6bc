//! Takes a command with its options from what `clap` has matched.
ghost use Rattle.std.specs.Prelude.{◌≤◌, IfOk, IfSome};
ghost use Rattle.causal_arguments.specs.Workers.{HasWorkersInRange};

use crate::options::{LIVE, program_command};
use crate::subcommand::{CommandLine, Subcommand, Until};
use causal_facts::Form;
use causal_trace::limits::{DEFAULT_ENTRIES, Limits};
use clap::{ArgMatches, Error};
use std::alloc::{AllocError, Global};
use std::convert::AsStr;

/// Parses the arguments, the first of which is the program's name. None if they contain no command.
pub(crate) fn parse_args<'a, S: AsStr>(
    alloc: Global,
    words: &'a [S],
) -> Result<Option<CommandLine>, Error>
    ensures { IfOk result (λ line. IfSome line (λ line. HasWorkersInRange line.command)) }
{
    let matches = program_command(alloc)?.try_get_matches_from(words)?;
    let Some((name, given)) = matches.subcommand() else {
        return Ok(None);
    };
    match parse_command(name, given) {
        Some(command) => Ok(Some(CommandLine {
            command,
            files: parse_files(alloc, given)?,
            map: parse_map(alloc, given)?,
        })),
        None => Ok(None),
    }
}

/// Returns the command with this name, and its options.
fn parse_command(name: &str, given: &ArgMatches) -> Option<Subcommand>
    ensures { IfSome result HasWorkersInRange }
{
    match name {
        "audit" => parse_audit(given),
        "explain" => parse_explain(given),
        "replays" => parse_replays(given),
        "draw" => parse_draw(given),
        "merge" => parse_merge(given),
        "run" => Some(Subcommand::Run),
        _ => None,
    }
}

fn parse_audit(given: &ArgMatches) -> Option<Subcommand>
    ensures { IfSome result HasWorkersInRange }
{
    Some(Subcommand::Audit {
        faults: given.get_one::<u16>("faults")?,
        until: parse_until(given),
        form: parse_form(given),
        workers: parse_workers(given)?,
        limits: parse_limits(given),
    })
}

fn parse_explain(given: &ArgMatches) -> Option<Subcommand>
    ensures { IfSome result HasWorkersInRange }
{
    let workers = parse_workers(given)?;
    let limits = parse_limits(given);
    match given.get_one::<u16>("faults") {
        Some(faults) if given.get_str("map").is_some() => Some(Subcommand::ExplainByMap {
            faults,
            workers,
            limits,
        }),
        faults => Some(Subcommand::Explain {
            faults,
            form: parse_form(given),
            workers,
            limits,
        }),
    }
}

fn parse_replays(given: &ArgMatches) -> Option<Subcommand>
    ensures { IfSome result HasWorkersInRange }
{
    Some(Subcommand::Replays {
        form: parse_form(given),
        workers: parse_workers(given)?,
        limits: parse_limits(given),
    })
}

/// Returns what `draw` requests. The entry at position k is on line k + 2.
fn parse_draw(given: &ArgMatches) -> Option<Subcommand>
    ensures { IfSome result HasWorkersInRange }
{
    Some(Subcommand::Draw {
        faults: given.get_one::<u16>("faults")?,
        around: given
            .get_one::<u32>("around")
            .map(|line| line.saturating_sub(2)),
        only_breach: given.get_str("only").is_some(),
        workers: parse_workers(given)?,
        limits: parse_limits(given),
    })
}

fn parse_merge(given: &ArgMatches) -> Option<Subcommand>
    ensures { IfSome result HasWorkersInRange }
{
    Some(Subcommand::Merge {
        workers: parse_workers(given)?,
        limits: parse_limits(given),
        has_map: given.get_str("map").is_some(),
    })
}

/// Returns the number of workers.
fn parse_workers(given: &ArgMatches) -> Option<u32>
    ensures { IfSome result (λ workers. (1 ≤ workers) × (workers ≤ 64)) }
{
    match given.get_one::<u32>("workers") {
        Some(workers @ 1..=64) => Some(workers),
        _ => None,
    }
}

/// Returns how far an audit reads.
fn parse_until(given: &ArgMatches) -> Until {
    match given.get_str("until-breach") {
        None => Until::End,
        Some(when) if when == LIVE => Until::LiveBreach,
        Some(_) => Until::Breach,
    }
}

fn parse_form(given: &ArgMatches) -> Form {
    if given.get_flag("json") {
        Form::Json
    } else {
        Form::Lines
    }
}

/// Returns the maximum length of the trace.
fn parse_limits(given: &ArgMatches) -> Limits {
    Limits {
        entries: given.get_one::<u32>("entries").unwrap_or(DEFAULT_ENTRIES),
    }
}

/// Returns the names of the files in their order.
fn parse_files(alloc: Global, given: &ArgMatches) -> Result<Vec<String>, AllocError> {
    let mut files = Vec::new(alloc);
    for name in given.get_strs("file").unwrap_or(&[]) {
        files.push(String::from_str(alloc, name)?)?;
    }
    Ok(files)
}

/// Returns the name of the file of a map, if there is one.
fn parse_map(alloc: Global, given: &ArgMatches) -> Result<Option<String>, AllocError> {
    match given.get_str("map") {
        Some(name) => Ok(Some(String::from_str(alloc, name)?)),
        None => Ok(None),
    }
}
