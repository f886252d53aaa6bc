//! Splitting of a line, and parsing of its numbers.
ghost use Rattle.std.specs.Prelude.{◌≡◌, ◌≤◌, IfSome, option_map};
ghost use Rattle.causal_script.specs.Inside.Reading.{split_at_byte, parse_number, parse_process, parse_count};

use causal_name::Pid;
use std::str;

/// Returns the bytes before the first such byte, and the bytes after it.
pub(crate) fn split_at_byte(text: &[u8], byte: u8) -> Option<(&[u8], &[u8])>
    ensures { option_map (λ parts. (parts.0.now, parts.1.now)) result
        ≡ split_at_byte byte text.now }
{
    let at = text.iter().position(|b| *b == byte)?;
    let (front, back) = text.split_at(at);
    Some((front, &back[1..]))
}

/// Parses a plain decimal number up to a limit.
#[tactic(auto, unfolding(crate::specs::Inside::Reading::parse_number))]
pub(crate) fn parse_number(word: &[u8], limit: u32) -> Option<u32>
    ensures value { result ≡ parse_number limit word.now }
    ensures bound { IfSome result (λ n. n ≤ limit) }
{
    let first = *word.first()?;
    // `parse` accepts a plus sign and leading zeros
    if first == b'+' || (first == b'0' && word.len() > 1) {
        return None;
    }
    let Ok(text) = str::from_utf8(word) else {
        return None;
    };
    match text.parse::<u32>() {
        Ok(number) if number <= limit => Some(number),
        _ => None,
    }
}

/// Parses the number of a process.
#[tactic(auto, unfolding(crate::specs::Inside::Reading::parse_process))]
pub(crate) fn parse_process(word: &[u8]) -> Option<Pid>
    ensures { result ≡ parse_process word.now }
{
    Some(Pid(parse_number(word, 255)? as u8))
}

/// Parses a process count, 1 to 256.
#[tactic(auto, unfolding(crate::specs::Inside::Reading::parse_count))]
pub(crate) fn parse_process_count(word: &[u8]) -> Option<u16>
    ensures { result ≡ parse_count word.now }
{
    let n = parse_number(word, 256)?;
    if n > 0 { Some(n as u16) } else { None }
}
