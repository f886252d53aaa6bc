//! Parsing of a script's commands.
ghost use Rattle.std.specs.Prelude.{◌≡◌};
ghost use Rattle.causal_script.specs.Inside.Reading.{parse_delivery, parse_process_command, named_request, parse_request};

use crate::tokens::{parse_number, parse_process, split_at_byte};
use causal_name::Pid;
use causal_protocol::request::Request;

/// Parses `Q SOURCE SSN`.
#[tactic(auto, unfolding(crate::specs::Inside::Reading::parse_delivery))]
fn parse_delivery(words: &[u8]) -> Option<Request>
    ensures { result ≡ parse_delivery words.now }
{
    let (q, words) = split_at_byte(words, b' ')?;
    let (source, ssn) = split_at_byte(words, b' ')?;
    Some(Request::Deliver {
        q: parse_process(q)?,
        source: parse_process(source)?,
        ssn: parse_number(ssn, u32::MAX)?,
    })
}

/// Parses a command with one process, by its name.
#[tactic(auto, unfolding(crate::specs::Inside::Reading::parse_process_command))]
fn parse_process_command(name: &[u8], p: Pid) -> Option<Request>
    ensures { result ≡ parse_process_command name.now p }
{
    if name == b"crash".as_slice() {
        Some(Request::Crash { p })
    } else if name == b"restart".as_slice() {
        Some(Request::Restart { p })
    } else if name == b"flush".as_slice() {
        Some(Request::Flush { p })
    } else if name == b"forget".as_slice() {
        Some(Request::Forget { p })
    } else {
        None
    }
}

/// Parses a command, by its name and its arguments.
#[tactic(auto, unfolding(crate::specs::Inside::Reading::named_request))]
fn parse_command(name: &[u8], words: &[u8]) -> Option<Request>
    ensures { result ≡ named_request name.now words.now }
{
    if name == b"deliver".as_slice() {
        return parse_delivery(words);
    }
    parse_process_command(name, parse_process(words)?)
}

/// Parses a line after the first.
#[tactic(auto, unfolding(crate::specs::Inside::Reading::parse_request))]
pub(crate) fn parse_request(line: &[u8]) -> Option<Request>
    ensures { result ≡ parse_request line.now }
{
    let (name, words) = split_at_byte(line, b' ')?;
    parse_command(name, words)
}
