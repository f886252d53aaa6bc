//! Replay: deliveries of the named messages, one after the other.
ghost use Rattle.std.specs.Prelude.{◌≡◌, ◌≤◌, ◌<◌, IfOk, IfErr, IsOk, OnOk, OnErr, Err, None};
ghost use Rattle.causal_core.specs.CoreView.{core_run, core_state, core_replay_refusal, IsUnchanged};
ghost use Rattle.causal_core.specs.View.{named_message_of};
ghost use Rattle.causal_core.specs.Replays.{ReplayEnds, RefusesNamed, IsReplay, IsReplayStep};

use crate::runtime::Core;
use causal_log::Stable;
use causal_name::Pid;
use causal_protocol::request::{CoreFault, Delivered};

/// How a replay ended: the number of deliveries, and the refusal of the next one, if it was refused.
#[derive(Clone, Copy)]
struct ReplayEnd {
    count: u32,
    refusal: Option<CoreFault>,
}

impl<S: Stable> Core<S> {
    /// Delivers the message that is named for p's next delivery, if one is named.
    #[tactic(auto, using(crate::proofs::Rules::of_replaying))]
    fn deliver_named(&mut self, p: Pid) -> Result<Option<Delivered>, CoreFault>
        requires { p.0 < 256 }
        ensures ok { IfOk result
            (λ told. IsReplayStep answers p told (core_state self.old) (core_state self.new)) }
        ensures refused { OnErr result
            (IsUnchanged answers (core_state self.old) (core_state self.new)) }
        ensures fault { IfErr result (λ fault. RefusesNamed (core_run self.old) p fault) }
    {
        let name = match self.named(p) {
            Ok(Some(name)) => name,
            Ok(None) => return Ok(None),
            Err(fault) => return Err(fault),
        };
        match self.deliver(p, name.source, name.ssn) {
            Ok(delivered) => Ok(Some(delivered)),
            Err(fault) => Err(fault),
        }
    }

    /// Delivers the named messages of p's next deliveries, one after the other, at most `limit`, and returns how it
    /// ended.
    #[tactic(auto, using(crate::proofs::Rules::of_replaying))]
    fn run_replay(&mut self, p: Pid, limit: u32) -> ReplayEnd
        requires { p.0 < 256 }
        ensures made { IsReplay answers p result.count (core_state self.old) (core_state self.new) }
        ensures within { result.count ≤ limit }
        ensures ends { ReplayEnds p limit result.count result.refusal (core_run self.new) }
    {
        for count in 0..limit {
            match self.deliver_named(p) {
                Ok(Some(_)) => {}
                Ok(None) => {
                    return ReplayEnd {
                        count,
                        refusal: None,
                    };
                }
                Err(fault) => {
                    return ReplayEnd {
                        count,
                        refusal: Some(fault),
                    };
                }
            }
        }
        ReplayEnd {
            count: limit,
            refusal: None,
        }
    }

    /// Delivers to p the messages that are named for its next deliveries, one after the other, at most `limit`, and
    /// returns their number. After a restart these are the messages that p delivered before its crash, as far as their
    /// determinants are known. The replay ends at the limit, if no message is named for the next delivery, or if that
    /// delivery is refused; `replay_refusal` returns the refusal.
    ///
    /// A determinant of a later delivery may be known although none of the next delivery is. The replay ends there.
    /// `deliver` may then deliver any available message, also the one that is named for the later delivery; since p
    /// receives a message once, that later delivery then can never be made: `deliver` refuses every message for it.
    ///
    /// # Errors
    /// `NoProcess` and `Down`, also for a limit of 0. Otherwise the refusal of the first delivery, if that is refused;
    /// nothing has changed then.
    #[tactic(auto, using(crate::proofs::Rules::of_replaying))]
    pub fn replay(&mut self, p: Pid, limit: u32) -> Result<u32, CoreFault>
        requires { p.0 < 256 }
        ensures ok { IfOk result
            (λ count. IsReplay answers p count (core_state self.old) (core_state self.new)) }
        ensures within { IfOk result (λ count. count ≤ limit) }
        ensures ends { IfOk result
            (λ count. ReplayEnds p limit count (core_replay_refusal self.new) (core_run self.new)) }
        ensures first { IfOk result
            (λ count. count ≡ 0 → core_replay_refusal self.new ≡ None) }
        ensures legal { OnOk result (IsOk (named_message_of (core_run self.old) p)) }
        ensures refused { OnErr result
            (IsUnchanged answers (core_state self.old) (core_state self.new)) }
        ensures fault { IfErr result (λ fault. RefusesNamed (core_run self.old) p fault) }
        ensures zero_limit { limit ≡ 0 →
            IfErr result (λ fault. named_message_of (core_run self.old) p ≡ Err fault) }
    {
        if let Err(fault) = self.named(p) {
            return Err(fault);
        }
        let ending = self.run_replay(p, limit);
        match ending.refusal {
            Some(fault) if ending.count == 0 => Err(fault),
            refusal => {
                self.replay_refusal = refusal;
                Ok(ending.count)
            }
        }
    }

    /// Returns the refusal at which the last replay ended, if it made a delivery and was not refused itself; `None` if
    /// it ended at its limit, or because no message is named for the next delivery.
    pub fn replay_refusal(&self) -> Option<CoreFault>
        ensures { result ≡ core_replay_refusal self.now }
    {
        self.replay_refusal
    }
}
