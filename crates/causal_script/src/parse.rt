//! Parsing of a script.
ghost use Rattle.std.specs.Prelude.{◌≡◌, ◌≢◌, ◌<◌, ◌≤◌, ℕ, List, [], ◌∷◌, length, IfOk, IfErr, IfSome, MatchOption};
ghost use Rattle.causal_script.specs.Lines.{script_lines, count_line_feeds};
ghost use Rattle.causal_script.specs.Spelling.{SpellsScript, IsScriptContent, script_content};
ghost use Rattle.causal_script.specs.Faults.{IsFirstScriptFault, IsScriptReadUpTo};
ghost use Rattle.causal_script.specs.Inside.Place.{IsBigLine, IsAfter, AreCommands, AreOnLines, line_or_fault};

use crate::command::parse_request;
use crate::script::{Command, Commands, Script, ScriptFault, ScriptFaultKind};
use crate::start::parse_first_line;
use crate::tokens::split_at_byte;
use std::alloc::Global;

/// The maximum size of a script in bytes.
const MAX_SCRIPT: usize = 1_048_576;

/// Returns the first line, without its line feed, and the bytes after it; None if the text is empty.
fn split_line(text: &[u8]) -> Option<(&[u8], &[u8])>
    ensures parts { MatchOption result (text.now ≡ [])
        (λ parts. script_lines text.now ≡ parts.0.now ∷ script_lines parts.1.now) }
    ensures shorter { IfSome result (λ parts. length parts.1.now < length text.now) }
{
    if text.is_empty() {
        return None;
    }
    match split_at_byte(text, b'\n') {
        Some((line, after)) => Some((line, after)),
        None => Some(text.split_at(text.len())),
    }
}

/// Counts the line feeds.
fn count_line_feeds(bytes: &[u8]) -> u32
    requires { length bytes.now ≤ 1048576 }
    ensures value { result ≡ count_line_feeds bytes.now }
    ensures bound { result ≤ length bytes.now }
{
    let mut feeds = 0;
    for byte in bytes {
        if *byte == b'\n' {
            feeds += 1;
        }
    }
    feeds
}

/// The number of the line that contains the first byte past the limit, if any.
fn first_line_past_limit(text: &[u8]) -> Option<u32>
    ensures { IsBigLine text.now result }
{
    if text.len() <= MAX_SCRIPT {
        return None;
    }
    let (within, _past) = text.split_at(MAX_SCRIPT);
    Some(count_line_feeds(within) + 1)
}

/// Returns the parsed line, or its error.
fn line_or_fault<T: Drop>(big: Option<u32>, line: u32, said: Option<T>) -> Result<T, ScriptFault>
    ensures { result ≡ line_or_fault big line said }
{
    let kind = match big {
        Some(big) if big == line => ScriptFaultKind::Big,
        _ => match said {
            Some(said) => return Ok(said),
            None => ScriptFaultKind::Script,
        },
    };
    Err(ScriptFault { line, kind })
}

/// Parses the commands on the lines after the first.
fn parse_commands(alloc: Global, rest: &[u8], big: Option<u32>) -> Result<Vec<Command>, ScriptFault>
    ensures ok { IfOk result (λ commands. AreCommands rest.now commands.items []) }
    ensures reaches { IfOk result
        (λ commands. (text : List ℕ) → IsAfter text 1 rest.now → IsBigLine text big
        → (line : ℕ) × AreOnLines text commands.items line []) }
    ensures err { IfErr result (λ fault. fault.kind ≢ ScriptFaultKind.NoMemory
        → (text : List ℕ) → IsAfter text 1 rest.now → IsBigLine text big →
        IsFirstScriptFault text fault) }
    ensures memory { IfErr result (λ fault. fault.kind ≡ ScriptFaultKind.NoMemory
        → (text : List ℕ) → IsAfter text 1 rest.now → IsBigLine text big →
        IsScriptReadUpTo text fault.line) }
{
    let mut commands = Vec::new(alloc);
    let mut line: u32 = 1;
    let mut left = rest;
    while let Some((text, after)) = split_line(left) {
        // cannot saturate before an error is found: the line with the first byte past the limit comes earlier
        line = line.saturating_add(1);
        let request = line_or_fault(big, line, parse_request(text))?;
        if commands.push(Command { line, request }).is_err() {
            return Err(ScriptFault {
                line,
                kind: ScriptFaultKind::NoMemory,
            });
        }
        left = after;
    }
    Ok(commands)
}

/// Parses a script of at most 1,048,576 bytes. The whole text is parsed before this returns. O(bytes) time; allocates
/// only the commands.
///
/// # Errors
/// For any other text, the first line that breaks the rules, counted from 1, and the kind of error. `NoMemory` if
/// allocation failed, with the line that was being read; no line before it has an error.
pub fn parse_script(alloc: Global, bytes: &[u8]) -> Result<Script, ScriptFault>
    ensures ok { IfOk result (λ script. SpellsScript bytes.now (script_content script)) }
    ensures content { IfOk result (λ script. IsScriptContent (script_content script)) }
    ensures err { IfErr result
        (λ fault. fault.kind ≢ ScriptFaultKind.NoMemory → IsFirstScriptFault bytes.now fault) }
    ensures memory { IfErr result
        (λ fault. fault.kind ≡ ScriptFaultKind.NoMemory → IsScriptReadUpTo bytes.now fault.line) }
{
    let big = first_line_past_limit(bytes);
    let Some((first, rest)) = split_line(bytes) else {
        return Err(ScriptFault {
            line: 1,
            kind: ScriptFaultKind::Script,
        });
    };
    let start = line_or_fault(big, 1, parse_first_line(first))?;
    let commands = parse_commands(alloc, rest, big)?;
    Ok(Script {
        kind: start.kind,
        n: start.n,
        f: start.f,
        param: start.param,
        exploration: start.exploration,
        commands: Commands::new(commands),
    })
}
