//! Forget: stable determinants leave a log.
ghost use Rattle.std.specs.Prelude.{◌≡◌, ◌<◌};
ghost use Rattle.causal_protocol.specs.declared.request.Request.TheVariants as Requests;
ghost use Rattle.causal_protocol.specs.Steps.{Steps, reply_of_forget};
ghost use Rattle.causal_core.specs.Boxes.{SameAnswers};
ghost use Rattle.causal_core.specs.CoreView.{core_run, core_state};

use crate::runtime::Core;
use causal_log::Stable;
use causal_name::Pid;
use causal_protocol::request::CoreFault;

impl<S: Stable> Core<S> {
    /// Removes from p's log the determinants that p knows to be stable, and returns their number. One entry of the
    /// trace lists them; if there are none, nothing is recorded. It takes O(logged determinants) time up to logarithmic
    /// factors. A refusal as `Full` takes O(logged determinants) too, since it counts those that are known to be
    /// stable.
    ///
    /// # Errors
    /// The first of `NoProcess`, `Down`, and `Full` if there is something to forget and the entry or its list would
    /// exceed a limit; if none applies, `NoMemory` if allocation failed. A refusal changes nothing.
    pub fn forget(&mut self, p: Pid) -> Result<u32, CoreFault>
        requires { p.0 < 256 }
        ensures step { Steps (core_run self.old)
            (Requests.Forget p) (reply_of_forget result) (core_run self.new) }
        ensures bodies { (core_state self.new).bodies ≡ (core_state self.old).bodies }
        ensures boxes { SameAnswers answers (core_state self.old).slots
            (core_state self.new).slots }
    {
        drop(self.gather_cache.take());
        self.run_data.forget(self.alloc, p)
    }
}
