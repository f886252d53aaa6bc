//! The set of the down processes.
ghost use Rattle.std.specs.Prelude.{◌≤◌, length, is_none};
ghost use Rattle.causal_holders.specs.Members.{HasMembers};
ghost use Rattle.causal_trace.specs.Past.{is_down};
ghost use Rattle.causal_protocol.specs.Memory.{present_at};
ghost use Rattle.causal_core.specs.Inside.Memories.{memories_in};
ghost use Rattle.causal_core.specs.CoreView.{core_run};
ghost use Rattle.causal_trace.specs.Limits.{max_processes};

use crate::run_data::RunData;
use crate::runtime::Core;
use causal_holders::Holders;
use causal_log::Stable;
use causal_memory::process_memory::ProcessMemory;

/// Returns the processes without volatile memory.
#[tactic(auto, using(crate::proofs::Rules::of_down))]
fn down_processes_among(process_memories: &[Option<ProcessMemory>]) -> Holders
    requires { length process_memories.now ≤ max_processes }
    ensures { HasMembers (length process_memories.now) result (λ p. is_none (present_at
        (memories_in process_memories.now) p)) }
{
    let mut down = Holders::none();
    for (p, process_memory) in process_memories.iter().enumerate() {
        if process_memory.is_none() {
            down.insert(p as u8);
        }
    }
    down
}

impl RunData {
    /// Returns the down processes.
    pub(crate) fn down(&self) -> Holders
        ensures { HasMembers self.now.run.recording.processes result
            (is_down self.now.run.recording.past) }
    {
        down_processes_among(self.process_memories.as_slice())
    }
}

impl<S: Stable> Core<S> {
    /// Returns the down processes. It allocates nothing.
    pub fn down(&self) -> Holders
        ensures { HasMembers (core_run self.now).recording.processes result
            (is_down (core_run self.now).recording.past) }
    {
        self.run_data.down()
    }
}
