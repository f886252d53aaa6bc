//! The start of a core.
ghost use Rattle.std.specs.Prelude.{◌≡◌, ◌<◌, ◌≤◌, [], length, replicate, IfOk, IfErr, OnOk, None};
ghost use Rattle.std.specs.FinMap as fin;
ghost use Rattle.causal_core.specs.CoreView.{core_run, core_state};
ghost use Rattle.causal_core.specs.Inside.Begins.{CanBegin, Begins, HaveAllBegun};
ghost use Rattle.causal_core.specs.Starts.{opening, start_fault, IsOpening, IsStartReason, Starts};
ghost use Rattle.causal_trace.specs.Limits.{max_processes};

use crate::boxes::begin_box;
use crate::run_data::RunData;
use crate::runtime::Core;
use causal_log::Stable;
use causal_name::{NoMemory, Pid};
use causal_process::Process;
use std::alloc::Global;
use thiserror::Error;

/// Why a core did not start.
#[derive(Clone, Copy, Debug, PartialEq, Eq, Error)]
pub enum StartFault {
    /// A core has 1 to 256 processes.
    #[error("the number of processes is not from 1 to 256")]
    Processes,
    /// Nothing is stable at the beginning.
    #[error("the store is not empty")]
    StoreNotEmpty,
    /// Allocation failed.
    #[error("no memory")]
    NoMemory,
}

/// Begins a box as the next process, records what it sends, and puts it into the next slot.
fn begin(
    alloc: Global,
    run_data: &mut RunData,
    slots: &mut Vec<Option<Box<dyn Process + Send>>>,
    mut process: Box<dyn Process + Send>,
) -> Result<(), NoMemory>
    requires { CanBegin (length slots.old.items) run_data.old.run }
    ensures { OnOk result
        (Begins answers process slots.old.items slots.new.items run_data.old run_data.new) }
{
    let p = Pid(slots.len() as u8);
    let fresh = run_data.prepare_begin(alloc, p)?;
    let sends = match begin_box(&mut process, alloc) {
        Ok(sends) => sends,
        Err(fault) => {
            drop(fresh);
            return Err(fault);
        }
    };
    run_data.record_begin(p, fresh, sends);
    slots.push(Some(process))?;
    Ok(())
}

/// Begins each box, in order, and returns the slots.
fn begin_all(
    alloc: Global,
    run_data: &mut RunData,
    boxes: Vec<Box<dyn Process + Send>>,
) -> Result<Vec<Option<Box<dyn Process + Send>>>, NoMemory>
    requires run { run_data.old.run ≡ opening (length boxes.items) run_data.old.run.faults [] }
    requires bodies { run_data.old.bodies ≡ replicate (length boxes.items) [] }
    requires few { length boxes.items ≤ max_processes }
    ensures { IfOk result
        (λ slots. HaveAllBegun answers run_data.old.run.faults boxes.items slots.items run_data.new) }
{
    let mut slots = Vec::new(alloc);
    for process in boxes {
        if let Err(fault) = begin(alloc, run_data, &mut slots, process) {
            drop(slots);
            return Err(fault);
        }
    }
    Ok(slots)
}

impl<S: Stable> Core<S> {
    /// Starts a core with these processes, numbered in order from 0, and the bound f on failures. Each process begins,
    /// in order, and what it sends is recorded. On a refusal the boxes and the store are dropped.
    ///
    /// # Errors
    /// The first of `Processes`, if there are not 1 to 256 boxes, and `StoreNotEmpty`; if neither applies, `NoMemory`
    /// if allocation failed.
    pub fn start(
        alloc: Global,
        f: u16,
        boxes: Vec<Box<dyn Process + Send>>,
        store: S,
    ) -> Result<Core<S>, StartFault>
        requires { f < 65536 }
        ensures ok { IfOk result (λ core. Starts answers f boxes.items (core_state core)) }
        ensures opens { IfOk result
            (λ core. IsOpening (length boxes.items) (core_run core).recording.past) }
        ensures store_empty { IfOk result (λ core. S.contents core.store ≡ fin.empty) }
        ensures legal { OnOk result (start_fault (length boxes.items) (S.contents store) ≡ None) }
        ensures refused { IfErr result (IsStartReason (length boxes.items) (S.contents store)) }
    {
        Core::start_seeded(alloc, f, boxes, store, 0)
    }

    /// Starts a core as `start`, whose logs hash their entries with this seed. Only costs depend on it: a caller who
    /// does not know the seed cannot choose requests after which look-ups in logs are slow.
    ///
    /// # Errors
    /// Those of `start`.
    pub fn start_seeded(
        alloc: Global,
        f: u16,
        boxes: Vec<Box<dyn Process + Send>>,
        store: S,
        seed: u64,
    ) -> Result<Core<S>, StartFault>
        requires { f < 65536 }
        ensures ok { IfOk result (λ core. Starts answers f boxes.items (core_state core)) }
        ensures opens { IfOk result
            (λ core. IsOpening (length boxes.items) (core_run core).recording.past) }
        ensures store_empty { IfOk result (λ core. S.contents core.store ≡ fin.empty) }
        ensures legal { OnOk result (start_fault (length boxes.items) (S.contents store) ≡ None) }
        ensures refused { IfErr result (IsStartReason (length boxes.items) (S.contents store)) }
    {
        let n = boxes.len();
        if n == 0 || n > 256 {
            drop(boxes);
            return Err(StartFault::Processes);
        }
        let stored = store.len();
        if stored > 0 {
            drop(boxes);
            return Err(StartFault::StoreNotEmpty);
        }
        let Ok(mut run_data) = RunData::open(alloc, n as u16, f, seed) else {
            drop(boxes);
            return Err(StartFault::NoMemory);
        };
        let Ok(slots) = begin_all(alloc, &mut run_data, boxes) else {
            drop(run_data);
            return Err(StartFault::NoMemory);
        };
        Ok(Core {
            alloc,
            run_data: run_data,
            slots,
            store,
            gather_cache: None,
            replay_refusal: None,
        })
    }
}
