//! Hints on invalid lines of a script.
ghost use Rattle.std.specs.Prelude.{◌≡◌, option_map};
ghost use Rattle.causal_runtime_commands.specs.Hints as hints;

use crate::script::Reason;
use causal_script::ScriptFaultKind;

/// Returns what was expected at the line of a script's error, if that line is invalid there; None for any other reason.
pub fn reason_hint(reason: Reason) -> Option<&'static str>
    ensures { option_map (λ text. text.now) result ≡ hints.reason_hint reason }
{
    match reason {
        Reason::Script(fault) => match fault.kind {
            ScriptFaultKind::Script => Some(expected_at(fault.line)),
            ScriptFaultKind::Big | ScriptFaultKind::NoMemory => None,
        },
        Reason::Run(_) => None,
    }
}

fn expected_at(line: u32) -> &'static str
    ensures { result.now ≡ hints.expected_at line }
{
    if line == 1 {
        "expected there: start ring N F H, start echo N F H or start tally N F, or the same with explore in place of start and SEED STEPS at the end, with N 1 to 256, F 0 to 65535, H 0 to 255, SEED 0 to 4294967295 and STEPS 0 to 1000"
    } else {
        "expected there: deliver Q SOURCE SSN, crash P, restart P, flush P or forget P, with one space between words, Q, SOURCE and P 0 to 255 and SSN 0 to 4294967295"
    }
}
