//! What a process that restarts learns: that it holds determinants, and which of them are stable.
ghost use Rattle.std.specs.Prelude.{◌≡◌, OnOk};
ghost use Rattle.std.specs.FinMap as fin;
ghost use Rattle.causal_protocol.specs.Gathering.{with_held, with_stored};

use causal_log::Log;
use causal_name::{Det, NoMemory, Pid};
use std::alloc::Global;

/// Adds to a log that p holds each of these determinants.
#[tactic(auto, using(std::proofs::lemmas::List::drop_more, std::proofs::lemmas::List::drop_all), unfolding(causal_protocol::specs::Gathering::with_held))]
pub fn learn_held(log: &mut Log, dets: &[Det], p: Pid) -> Result<(), NoMemory>
    ensures { OnOk result (log.new.map ≡ with_held dets.now p log.old.map) }
{
    for det in dets {
        log.add_own(*det, p)?;
    }
    Ok(())
}

/// Adds to a log that p holds each of these determinants and that they are stable.
#[tactic(auto, using(std::proofs::lemmas::List::drop_more, std::proofs::lemmas::List::drop_all), unfolding(causal_protocol::specs::Gathering::with_stored))]
pub fn learn_stored(log: &mut Log, dets: &[Det], p: Pid) -> Result<(), NoMemory>
    ensures { OnOk result (log.new.map ≡ with_stored dets.now p log.old.map) }
{
    for det in dets {
        log.add_stable(*det, p)?;
    }
    Ok(())
}

/// Adds to a log that p holds every determinant of it.
pub fn learn_own_holding(alloc: Global, log: &mut Log, p: Pid) -> Result<(), NoMemory>
    ensures { OnOk result (log.new.map ≡ with_held (fin.keys log.old.map) p log.old.map) }
{
    let dets = log.dets(alloc)?;
    learn_held(log, dets.as_slice(), p)
}
