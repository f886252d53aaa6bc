//! Parsing of a script's first line.
ghost use Rattle.std.specs.Prelude.{◌≡◌, option_map};
ghost use Rattle.causal_script.specs.Inside.Reading.{split_last, numbered_start, parse_start_numbers, tally_of, start_of_kind, named_start, start_of};

use crate::script::{Exploration, Kind};
use crate::tokens::{parse_number, parse_process_count, split_at_byte};

/// The maximum number of calls of an exploration.
pub const MAX_STEPS: u32 = 1_000;

/// The content of a first line.
#[derive(Clone, Copy)]
pub(crate) struct Start {
    pub(crate) kind: Kind,
    pub(crate) n: u16,
    pub(crate) f: u16,
    pub(crate) param: u8,
    pub(crate) exploration: Option<Exploration>,
}

/// Splits what follows a start's last number off that number: an exploration, `SEED STEPS`, if the line is to have one.
#[tactic(auto, unfolding(crate::specs::Inside::Reading::split_last))]
fn split_last(explores: bool, words: &[u8]) -> Option<(&[u8], Option<Exploration>)>
    ensures { option_map (λ parts. (parts.0.now, parts.1)) result ≡ split_last explores words.now }
{
    if !explores {
        return Some((words, None));
    }
    let (last, words) = split_at_byte(words, b' ')?;
    let (seed, steps) = split_at_byte(words, b' ')?;
    let exploration = Exploration {
        seed: parse_number(seed, u32::MAX)?,
        steps: parse_number(steps, MAX_STEPS)?,
    };
    Some((last, Some(exploration)))
}

/// Parses the process count and the failure bound of a start.
#[tactic(auto, unfolding(crate::specs::Inside::Reading::numbered_start))]
fn start_from_numbers(
    kind: Kind,
    n: &[u8],
    f: &[u8],
    param: u8,
    exploration: Option<Exploration>,
) -> Option<Start>
    ensures { result ≡ numbered_start kind n.now f.now param exploration }
{
    Some(Start {
        kind,
        n: parse_process_count(n)?,
        f: parse_number(f, 65_535)? as u16,
        param,
        exploration,
    })
}

/// Parses `N F PARAM`, or `N F PARAM SEED STEPS`.
#[tactic(auto, unfolding(crate::specs::Inside::Reading::parse_start_numbers))]
fn parse_start_numbers(explores: bool, kind: Kind, words: &[u8]) -> Option<Start>
    ensures { result ≡ parse_start_numbers explores kind words.now }
{
    let (n, words) = split_at_byte(words, b' ')?;
    let (f, words) = split_at_byte(words, b' ')?;
    let (param, exploration) = split_last(explores, words)?;
    start_from_numbers(kind, n, f, parse_number(param, 255)? as u8, exploration)
}

/// Parses `N F`, or `N F SEED STEPS`.
#[tactic(auto, unfolding(crate::specs::Inside::Reading::tally_of))]
fn parse_tally(explores: bool, words: &[u8]) -> Option<Start>
    ensures { result ≡ tally_of explores words.now }
{
    let (n, words) = split_at_byte(words, b' ')?;
    let (f, exploration) = split_last(explores, words)?;
    start_from_numbers(Kind::Tally, n, f, 0, exploration)
}

/// Parses a start, by its kind and its numbers.
#[tactic(auto, unfolding(crate::specs::Inside::Reading::start_of_kind))]
fn parse_start_of_kind(explores: bool, kind: &[u8], words: &[u8]) -> Option<Start>
    ensures { result ≡ start_of_kind explores kind.now words.now }
{
    if kind == b"ring".as_slice() {
        parse_start_numbers(explores, Kind::Ring, words)
    } else if kind == b"echo".as_slice() {
        parse_start_numbers(explores, Kind::Echo, words)
    } else if kind == b"tally".as_slice() {
        parse_tally(explores, words)
    } else {
        None
    }
}

#[tactic(auto, unfolding(crate::specs::Inside::Reading::named_start))]
fn parse_start(name: &[u8], words: &[u8]) -> Option<Start>
    ensures { result ≡ named_start name.now words.now }
{
    let explores = if name == b"start".as_slice() {
        false
    } else if name == b"explore".as_slice() {
        true
    } else {
        return None;
    };
    let (kind, words) = split_at_byte(words, b' ')?;
    parse_start_of_kind(explores, kind, words)
}

/// Parses the first line.
#[tactic(auto, unfolding(crate::specs::Inside::Reading::start_of))]
pub(crate) fn parse_first_line(line: &[u8]) -> Option<Start>
    ensures { result ≡ start_of line.now }
{
    let (name, words) = split_at_byte(line, b' ')?;
    parse_start(name, words)
}
