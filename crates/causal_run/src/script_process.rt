//! The processes of a script.
ghost use Rattle.std.specs.Prelude.{◌≡◌, ◌<◌};
ghost use Rattle.causal_process.specs.declared.message.Input.{Input};
ghost use Rattle.causal_run.specs.ScriptProcesses.{script_process_answers, script_process_of};
ghost use Rattle.causal_run.specs.Inside.ScriptProcessLaws.{members_each, members_in_order};

use causal_name::NoMemory;
use causal_process::{Echo, Input, Outgoing, Process, Ring, Tally};
use causal_script::{Kind, Script};
use std::alloc::Global;

/// A process of one of the three kinds.
#[derive(Drop)]
pub(crate) enum ScriptProcess {
    Ring(Ring),
    Echo(Echo),
    Tally(Tally),
}

impl ScriptProcess {
    /// Returns process `me` of the script's n.
    pub(crate) fn new(script: &Script, me: u8) -> ScriptProcess
        requires { me < script.now.n }
        ensures { result ≡ script_process_of script.now.kind script.now.n script.now.param me }
    {
        match script.kind {
            Kind::Ring => ScriptProcess::Ring(Ring::new(script.n, me, script.param)),
            Kind::Echo => ScriptProcess::Echo(Echo::new(script.n, me, script.param)),
            Kind::Tally => ScriptProcess::Tally(Tally::new(script.n, me)),
        }
    }
}

impl Process for ScriptProcess {
    ghost answers = { script_process_answers };

    fn step(&mut self, alloc: Global, input: &Input) -> Result<Vec<Outgoing>, NoMemory> {
        match self {
            ScriptProcess::Ring(ring) => ring.step(alloc, input),
            ScriptProcess::Echo(echo) => echo.step(alloc, input),
            ScriptProcess::Tally(tally) => tally.step(alloc, input),
        }
    }

    ghost each = { members_each };

    ghost in_order = { members_in_order };
}
