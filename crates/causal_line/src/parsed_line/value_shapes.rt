//! Parsing the JSON value of a line, by its name and length.
ghost use Rattle.std.specs.Prelude.{◌≡◌};
ghost use Rattle.serde_json.specs.View.{view};
ghost use Rattle.causal_line.specs.Returns.{Returns};
ghost use Rattle.causal_line.specs.ParsedLines.{parse_header, parse_send, parse_deliver, parse_stable, end_of, parse_value};

use crate::fields::{dets_at, is_array_named, parse_det, pid_at, u32_at};
use crate::kind::TextKind;
use crate::parsed_line::ParsedLine;
use causal_trace::entry::Entry;
use serde_json::Value;
use std::alloc::Global;

#[tactic(auto, unfolding(crate::specs::ParsedLines::parse_header))]
fn parse_header(value: &Value) -> Result<ParsedLine, TextKind>
    ensures { result ≡ parse_header (view value.now) }
{
    Ok(ParsedLine::Header {
        version: u32_at(value, 1)?,
        processes: u32_at(value, 2)?,
    })
}

#[tactic(auto, unfolding(crate::specs::ParsedLines::parse_send))]
fn parse_send(value: &Value) -> Result<ParsedLine, TextKind>
    ensures { result ≡ parse_send (view value.now) }
{
    let entry = Entry::Send {
        from: pid_at(value, 1)?,
        to: pid_at(value, 2)?,
        ssn: u32_at(value, 3)?,
    };
    Ok(ParsedLine::Entry { entry })
}

#[tactic(auto, unfolding(crate::specs::ParsedLines::parse_deliver))]
fn parse_deliver(alloc: Global, value: &Value) -> Result<ParsedLine, TextKind>
    ensures { Returns result (parse_deliver (view value.now)) }
{
    let entry = Entry::Deliver {
        to: pid_at(value, 1)?,
        send: u32_at(value, 2)?,
        rsn: u32_at(value, 3)?,
        listed: dets_at(alloc, value, 4)?,
    };
    Ok(ParsedLine::Entry { entry })
}

#[tactic(auto, unfolding(crate::specs::ParsedLines::parse_stable))]
fn parse_stable(value: &Value) -> Result<ParsedLine, TextKind>
    ensures { result ≡ parse_stable (view value.now) }
{
    let named = value.get(1).ok_or(TextKind::Form)?;
    let det = parse_det(named)?;
    Ok(ParsedLine::Entry {
        entry: Entry::Stable { det },
    })
}

#[tactic(auto, unfolding(crate::specs::ParsedLines::end_of))]
fn end_of(value: &Value) -> Result<ParsedLine, TextKind>
    ensures { result ≡ end_of (view value.now) }
{
    Ok(ParsedLine::End {
        entries: u32_at(value, 1)?,
    })
}

/// Parses the JSON value of a line.
#[tactic(auto, unfolding(crate::specs::ParsedLines::parse_value, crate::specs::ParsedLines::parse_crash, crate::specs::ParsedLines::parse_restart, crate::specs::ParsedLines::parse_forget))]
pub(crate) fn parse_value(alloc: Global, value: &Value) -> Result<ParsedLine, TextKind>
    ensures { Returns result (parse_value (view value.now)) }
{
    if is_array_named(value, "trace", 3) {
        parse_header(value)
    } else if is_array_named(value, "send", 4) {
        parse_send(value)
    } else if is_array_named(value, "deliver", 5) {
        parse_deliver(alloc, value)
    } else if is_array_named(value, "stable", 2) {
        parse_stable(value)
    } else if is_array_named(value, "crash", 2) {
        let who = pid_at(value, 1)?;
        Ok(ParsedLine::Entry {
            entry: Entry::Crash { who },
        })
    } else if is_array_named(value, "restart", 3) {
        let who = pid_at(value, 1)?;
        let listed = dets_at(alloc, value, 2)?;
        Ok(ParsedLine::Entry {
            entry: Entry::Restart { who, listed },
        })
    } else if is_array_named(value, "forget", 3) {
        let who = pid_at(value, 1)?;
        let listed = dets_at(alloc, value, 2)?;
        Ok(ParsedLine::Entry {
            entry: Entry::Forget { who, listed },
        })
    } else if is_array_named(value, "end", 2) {
        end_of(value)
    } else {
        Err(TextKind::Form)
    }
}
