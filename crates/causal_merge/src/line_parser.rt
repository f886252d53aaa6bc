//! Parses the bytes of a line.
ghost use Rattle.std.specs.Prelude.{◌≡◌, ◌≤◌, IfOk, OnOk};
ghost use Rattle.serde_json.specs.View.{view};
ghost use Rattle.causal_line.specs.Returns.{Returns};
ghost use Rattle.causal_merge.specs.Shapes.{check_header_values, parse_recording_header, parse_event, parse_send_event, parse_deliver_event, parse_stable_event, heard_of, parse_recorder_value};
ghost use Rattle.causal_merge.specs.Reading.{parse_bytes, check_header, next_line, same_run, max_bytes};
ghost use Rattle.causal_line.specs.Values.{without_line_feed};
ghost use Rattle.causal_merge.specs.ParsedFiles.{IsSoundLine};
ghost use Rattle.causal_merge.specs.Inside.RecorderChunks.{IsParsedLine};

use crate::event::{Action, RecordedEvent, RecorderLine, RunHeader};
use crate::limits::max_input_len;
use crate::recorder_chunk::RecorderChunkLine;
use crate::torn_lines::{is_blank, is_torn};
use crate::value::value_of;
use causal_line::fields::{dets_at, is_array_named, parse_det, pid_at, u32_at, u64_at};
use causal_line::kind::TextKind;
use causal_line::line_value::without_line_feed;
use causal_name::Pid;
use causal_trace::limits::Limits;
use serde_json::Value;
use std::alloc::Global;

fn check_header_values(
    process: Pid,
    version: u32,
    processes: u32,
    number: u64,
) -> Result<RecorderLine, TextKind>
    ensures value { result ≡ check_header_values process version processes number }
    ensures sound { IfOk result IsSoundLine }
{
    if version != 1 {
        return Err(TextKind::Version);
    }
    if processes < 1 || processes > 256 {
        return Err(TextKind::Processes);
    }
    let run = RunHeader {
        processes: processes as u16,
        number,
    };
    Ok(RecorderLine::Header { process, run })
}

#[tactic(auto, unfolding(crate::specs::Shapes::parse_recording_header))]
fn parse_recording_header(value: &Value) -> Result<RecorderLine, TextKind>
    ensures value { result ≡ parse_recording_header (view value.now) }
    ensures sound { IfOk result IsSoundLine }
{
    let process = pid_at(value, 1)?;
    let version = u32_at(value, 2)?;
    let processes = u32_at(value, 3)?;
    let number = u64_at(value, 4)?;
    check_header_values(process, version, processes, number)
}

// parses the process and the clock of an event
#[tactic(auto, unfolding(crate::specs::Shapes::parse_event))]
fn parse_event(value: &Value, act: Action) -> Result<RecorderLine, TextKind>
    ensures value { result ≡ parse_event (view value.now) act }
    ensures sound { IfOk result IsSoundLine }
{
    let process = pid_at(value, 1)?;
    let clock = u64_at(value, 2)?;
    Ok(RecorderLine::Event {
        event: RecordedEvent {
            process,
            clock,
            act,
        },
    })
}

#[tactic(auto, unfolding(crate::specs::Shapes::parse_send_event))]
fn parse_send_event(value: &Value) -> Result<RecorderLine, TextKind>
    ensures value { result ≡ parse_send_event (view value.now) }
    ensures sound { IfOk result IsSoundLine }
{
    let act = Action::Send {
        to: pid_at(value, 3)?,
        ssn: u32_at(value, 4)?,
    };
    parse_event(value, act)
}

#[tactic(auto, unfolding(crate::specs::Shapes::parse_deliver_event))]
fn parse_deliver_event(alloc: Global, value: &Value) -> Result<RecorderLine, TextKind>
    ensures value { Returns result (parse_deliver_event (view value.now)) }
    ensures sound { IfOk result IsSoundLine }
{
    let act = Action::Deliver {
        source: pid_at(value, 3)?,
        lane: u32_at(value, 4)?,
        ssn: u32_at(value, 5)?,
        rsn: u32_at(value, 6)?,
        listed: dets_at(alloc, value, 7)?,
    };
    parse_event(value, act)
}

#[tactic(auto, unfolding(crate::specs::Shapes::parse_stable_event))]
fn parse_stable_event(value: &Value) -> Result<RecorderLine, TextKind>
    ensures value { result ≡ parse_stable_event (view value.now) }
    ensures sound { IfOk result IsSoundLine }
{
    let named = value.get(3).ok_or(TextKind::Form)?;
    let det = parse_det(named)?;
    parse_event(value, Action::Stable { det })
}

#[tactic(auto, unfolding(crate::specs::Shapes::heard_of))]
fn heard_of(value: &Value) -> Result<RecorderLine, TextKind>
    ensures value { result ≡ heard_of (view value.now) }
    ensures sound { IfOk result IsSoundLine }
{
    pid_at(value, 1)?;
    u64_at(value, 2)?;
    pid_at(value, 3)?;
    u64_at(value, 4)?;
    Ok(RecorderLine::Heard)
}

#[tactic(auto, unfolding(crate::specs::Shapes::parse_recorder_value, crate::specs::Shapes::parse_restart_event, crate::specs::Shapes::parse_forget_event))]
fn parse_recorder_value(alloc: Global, value: &Value) -> Result<RecorderLine, TextKind>
    ensures value { Returns result (parse_recorder_value (view value.now)) }
    ensures sound { IfOk result IsSoundLine }
{
    if is_array_named(value, "recording", 5) {
        parse_recording_header(value)
    } else if is_array_named(value, "send", 5) {
        parse_send_event(value)
    } else if is_array_named(value, "deliver", 8) {
        parse_deliver_event(alloc, value)
    } else if is_array_named(value, "stable", 4) {
        parse_stable_event(value)
    } else if is_array_named(value, "crash", 3) {
        parse_event(value, Action::Crash)
    } else if is_array_named(value, "restart", 4) {
        let listed = dets_at(alloc, value, 3)?;
        parse_event(value, Action::Restart { listed })
    } else if is_array_named(value, "forget", 4) {
        let listed = dets_at(alloc, value, 3)?;
        parse_event(value, Action::Forget { listed })
    } else if is_array_named(value, "heard", 5) {
        heard_of(value)
    } else {
        Err(TextKind::Form)
    }
}

/// Parses the bytes of a line without its line feed.
#[tactic(auto, unfolding(crate::specs::Reading::parse_bytes))]
fn parse_bytes(alloc: Global, bytes: &[u8]) -> Result<RecorderLine, TextKind>
    ensures value { Returns result (parse_bytes bytes.now) }
    ensures sound { IfOk result IsSoundLine }
{
    if is_blank(bytes) {
        return Ok(RecorderLine::Blank);
    }
    match value_of(alloc, bytes) {
        Ok(Some(value)) => parse_recorder_value(alloc, &value),
        Ok(None) => Err(TextKind::Form),
        Err(TextKind::NoMemory) => Err(TextKind::NoMemory),
        Err(kind) => {
            if is_torn(bytes) {
                Ok(RecorderLine::Torn)
            } else {
                Err(kind)
            }
        }
    }
}

// whether two headers agree on the run
fn same_run(a: RunHeader, b: RunHeader) -> bool
    ensures { result ≡ same_run a b }
{
    a.processes == b.processes && a.number == b.number
}

fn check_header(first: Option<RunHeader>, line: RecorderLine) -> Result<RecorderLine, TextKind>
    requires { IsSoundLine line }
    ensures value { result ≡ check_header first line }
    ensures sound { IfOk result IsSoundLine }
{
    let RecorderLine::Header { process, run } = line else {
        return Ok(line);
    };
    if !same_run(first.unwrap_or(run), run) {
        return Err(TextKind::Header);
    }
    if u16::from(process.0) >= run.processes {
        return Err(TextKind::NoProcess);
    }
    Ok(RecorderLine::Header { process, run })
}

/// Parses a line, with its line feed if it has one. Needs nothing of the lines before it.
pub(crate) fn parse_recorder_line(alloc: Global, line: &[u8]) -> Result<RecorderLine, TextKind>
    ensures value { Returns result (parse_bytes (without_line_feed line.now)) }
    ensures sound { IfOk result IsSoundLine }
{
    parse_bytes(alloc, without_line_feed(line))
}

/// Returns the content of the next line, which ends at byte number `end` of the text, or its error; `first` is the run
/// of the first header, if there was one.
pub(crate) fn next_line(
    alloc: Global,
    limits: Limits,
    first: Option<RunHeader>,
    end: usize,
    line: &[u8],
) -> Result<RecorderLine, TextKind>
    ensures value { Returns result (next_line limits.entries first end line.now) }
    ensures sound { IfOk result IsSoundLine }
    ensures within { OnOk result (end ≤ max_bytes) }
{
    if end > max_input_len(limits) {
        return Err(TextKind::Big);
    }
    let said = parse_recorder_line(alloc, line)?;
    check_header(first, said)
}

/// Returns what `next_line` does of a line that was parsed before its turn.
pub(crate) fn next_parsed_line(
    limits: Limits,
    first: Option<RunHeader>,
    end: usize,
    line: RecorderChunkLine<'_>,
) -> Result<RecorderLine, TextKind>
    requires { IsParsedLine line }
    ensures value { Returns result (next_line limits.entries first end line.entry.bytes.now) }
    ensures sound { IfOk result IsSoundLine }
    ensures within { OnOk result (end ≤ max_bytes) }
{
    if end > max_input_len(limits) {
        return Err(TextKind::Big);
    }
    let said = line.content?;
    check_header(first, said)
}
