//! Restart of a down process.
ghost use Rattle.std.specs.Prelude.{◌<◌, OnOk, OnErr, IfErr};
ghost use Rattle.causal_protocol.specs.declared.request.Request.TheVariants as Requests;
ghost use Rattle.causal_protocol.specs.Steps.{Steps, reply_of_restart};
ghost use Rattle.causal_core.specs.Boxes.{AnswersUnchanged};
ghost use Rattle.causal_core.specs.CoreView.{core_run, core_state, IsUnchanged};
ghost use Rattle.causal_core.specs.Restarts.{Restarts, refused_fault};

use crate::boxes::{begin_box, put_box};
use crate::gather_cache::invalidate_except;
use crate::runtime::Core;
use causal_log::Stable;
use causal_name::Pid;
use causal_process::Process;
use causal_protocol::request::{CoreFault, Restarted};

/// Why a restart was refused, with the spare.
#[derive(Drop)]
pub struct Refused<B = Box<dyn Process + Send>> {
    pub fault: CoreFault,
    /// It answers as it did before the call.
    pub spare: B,
}

impl<S: Stable> Core<S> {
    /// Restarts process p as the spare, which begins. The process then knows every determinant in the logs of the up
    /// processes and in stable storage.
    ///
    /// It takes O(d) time up to logarithmic factors; d is the sum of the sizes of the up processes' logs and of stable
    /// storage. A refusal because the list is too long takes the same time. If p's last gathered log is still cached,
    /// it takes O(listed determinants) time. The cache is valid if p gathered last, no other process has since
    /// delivered, crashed or restarted, and no flush or forget was requested. A refusal at the limit of entries or
    /// restarts, or because p is up, takes O(1) time. If allocation of the list fails, the list is counted without
    /// allocation, by a search for each logged determinant in the logs before its own.
    ///
    /// # Errors
    /// The first of: `NoProcess`; `NotDown`; `Full` if fewer than nine entries are left, the list exceeds the limit, or
    /// 192 restarts have been made. If none applies, `NoMemory` if allocation failed. A refusal changes nothing, and
    /// returns the spare.
    pub fn restart(
        &mut self,
        p: Pid,
        mut spare: Box<dyn Process + Send>,
    ) -> Result<Restarted, Refused>
        requires { p.0 < 256 }
        ensures step { Steps (core_run self.old) (Requests.Restart p)
            (reply_of_restart refused_fault result) (core_run self.new) }
        ensures ok { OnOk result
            (Restarts answers p spare (core_state self.old) (core_state self.new)) }
        ensures refused { OnErr result
            (IsUnchanged answers (core_state self.old) (core_state self.new)) }
        ensures spare { IfErr result (λ refused. AnswersUnchanged answers spare refused.spare) }
    {
        let gather_cache = &mut self.gather_cache;
        let gathered = match self
            .run_data
            .prepare_restart(self.alloc, p, &self.store, gather_cache)
        {
            Ok(gathered) => gathered,
            Err(fault) => return Err(Refused { fault, spare }),
        };
        match begin_box(&mut spare, self.alloc) {
            Ok(sends) => {
                invalidate_except(&mut self.gather_cache, p);
                put_box(&mut self.slots, usize::from(p.0), spare);
                Ok(self.run_data.finish_restart(p, gathered, sends))
            }
            Err(_) => {
                drop(gathered);
                Err(Refused {
                    fault: CoreFault::NoMemory,
                    spare,
                })
            }
        }
    }
}
