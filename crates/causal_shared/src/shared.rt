//! The core that several threads share.
#![tactic(auto, using(crate::proofs::Seats::seat_called, crate::proofs::Answered::holds))]

ghost use Rattle.std.specs.Prelude.{◌≡◌, ◌↔◌, ◌≤◌, ◌<◌, ℕ, length, All, vec_len, IfOk, IfErr, IsErrAnd, IfNone, OnErr, Ok, Err, Some};
ghost use Rattle.causal_core.specs.CoreView.{core_run};
ghost use Rattle.causal_protocol.specs.Runs.{IsSafeRun, HasSingleSlots};
ghost use Rattle.causal_protocol.specs.declared.request.Request.TheVariants as Requests;
ghost use Rattle.causal_protocol.specs.declared.request.Reply.TheVariants as Replies;
ghost use Rattle.causal_shared.specs.History.{run_length, IsHistory};
ghost use Rattle.causal_shared.specs.Limits.{max_seats};
ghost use Rattle.causal_shared.specs.Locked.{locked_state, new_locked_state, AnswersAs, IsSafeSnapshot};
ghost use Rattle.causal_shared.specs.Finish.{HasSeatHistory, AreAllSeats, IsNoneOrSeat, AllHaveSeats, AreSeatsOf, items_together, before_items};
ghost use Rattle.causal_shared.specs.Inside.FinishChecks.{IsMismatch, HasOpening, HasOtherOpening, CanFinish};
ghost use Rattle.causal_shared.specs.Pending.{AreAscending, IsPendingFault, IsSnapshotFault};
ghost use Rattle.causal_shared.specs.Seat.{AreNewSeats, SeatAnswers, SeatCall, SnapshotSeen, RefusesForeignSeat, seat_restart_reply};
ghost use Rattle.causal_shared.specs.Shared.{opening_of, tag_of, seats_of_shared};

use crate::checks::{all_have_seats, first_mismatch, is_complete, is_opening};
use crate::counting_call::CountingCall;
use crate::fault::{FinishFault, SharedFault};
use crate::item::{Items, Snapshot};
use crate::locked::Locked;
use crate::refused::SharedRefused;
use crate::seat::{
    Seat, deliver_locked, pending_locked, restart_locked, snapshot_locked, task_locked,
};
use causal_core::runtime::Core;
use causal_log::Stable;
use causal_name::{MsgName, NoMemory, Pid};
use causal_process::Process;
use causal_protocol::request::{Delivered, Restarted};
use causal_trace::trace::Trace;
use std::alloc::Global;
use std::sync::{Mutex, Wait};

/// A core behind one lock.
#[derive(Drop)]
pub struct Shared<S: Stable, B = Box<dyn Process + Send>> {
    locked: Mutex<Locked<S, B>>,
    tag: u64,
    seats: u32,
    faults: u16,
    opening: Trace,
}

impl<S: Stable + Send> Shared<S> {
    /// Places the core behind the lock and returns `k` seats, 1 to 64, numbered from 0. The caller chooses the tag; it
    /// distinguishes the seats of one runtime from those of another. The core's logs keep the seed of its start.
    ///
    /// # Errors
    /// `NoMemory`; the core is dropped.
    pub fn open(
        alloc: Global,
        core: Core<S>,
        k: u32,
        tag: u64,
    ) -> Result<(Shared<S>, Vec<Seat>), NoMemory>
        requires some { 1 ≤ k }
        requires few { k ≤ max_seats }
        ensures recording { IfOk result
            (λ r. (opening_of r.0).recording ≡ (core_run core).recording) }
        ensures faults { IfOk result (λ r. (opening_of r.0).faults ≡ (core_run core).faults) }
        ensures tag { IfOk result (λ r. tag_of r.0 ≡ tag) }
        ensures number { IfOk result (λ r. seats_of_shared r.0 ≡ k) }
        ensures len { IfOk result (λ r. vec_len r.1 ≡ k) }
        ensures seats { IfOk result (λ r. AreNewSeats tag (run_length
            (core_run core)) k r.1.items) }
    {
        let faults = core.faults();
        let seats = seats_of(alloc, k, tag, core.trace().len());
        let ((locked, opening), seats) = both_ok(lock_with_opening(alloc, core, k), seats)?;
        let shared = Shared {
            locked: Mutex::new(locked),
            tag,
            seats: k,
            faults,
            opening,
        };
        Ok((shared, seats))
    }

    /// Delivers to q the message with that source and ssn.
    ///
    /// # Errors
    /// `WrongSeat`, `HistoryFull`, `NoRecord`: nothing changes. `Core` with the core's error: it is recorded as an item
    /// in the history and the seat's list; nothing else changes.
    pub fn deliver<R: Wait>(
        &self,
        rt: &R,
        seat: &mut Seat,
        q: Pid,
        source: Pid,
        ssn: u32,
    ) -> Result<Delivered, SharedFault>
        ensures item { SeatAnswers seat.old seat.new (Requests.Deliver q source ssn)
            Replies.Delivered result }
        ensures foreign_seat { RefusesForeignSeat (tag_of self.now) seat.old.view result }
    {
        deliver_locked(&mut self.locked.lock(rt), self.tag, seat, q, source, ssn)
    }

    /// Crashes process p and returns the position of the crash entry.
    ///
    /// # Errors
    /// `WrongSeat`, `HistoryFull`, `NoRecord`: nothing changes. `Core` with the core's error: it is recorded as an item
    /// in the history and the seat's list; nothing else changes.
    pub fn crash<R: Wait>(&self, rt: &R, seat: &mut Seat, p: Pid) -> Result<u32, SharedFault>
        ensures item { SeatAnswers seat.old seat.new (Requests.Crash p) Replies.Crashed result }
        ensures foreign_seat { RefusesForeignSeat (tag_of self.now) seat.old.view result }
    {
        task_locked(
            &mut self.locked.lock(rt),
            self.tag,
            seat,
            CountingCall::Crash,
            p,
        )
    }

    /// Restarts process p with the spare, which must be in its initial state.
    ///
    /// # Errors
    /// `WrongSeat`, `HistoryFull`, `NoRecord`: nothing changes. `Core` with the core's error: it is recorded as an item
    /// in the history and the seat's list; nothing else changes. Each error contains the spare.
    pub fn restart<R: Wait>(
        &self,
        rt: &R,
        seat: &mut Seat,
        p: Pid,
        spare: Box<dyn Process + Send>,
    ) -> Result<Restarted, SharedRefused>
        ensures item { SeatCall seat.old.view seat.new.view (Requests.Restart p)
            (seat_restart_reply result) }
        ensures spare { IfErr result (λ refused. AnswersAs answers refused.spare spare) }
        ensures foreign_seat { ¬ (seat.old.view.tag ≡ tag_of self.now)
            → IsErrAnd result (λ refused. refused.fault ≡ SharedFault.WrongSeat) }
    {
        restart_locked(&mut self.locked.lock(rt), self.tag, seat, p, spare)
    }

    /// Writes to stable storage each determinant that is in p's log and not known to be stable, and returns how many.
    ///
    /// # Errors
    /// `WrongSeat`, `HistoryFull`, `NoRecord`: nothing changes. `Flush` contains the core's error and how many
    /// determinants were stored and recorded.
    pub fn flush<R: Wait>(&self, rt: &R, seat: &mut Seat, p: Pid) -> Result<u32, SharedFault>
        ensures item { SeatAnswers seat.old seat.new (Requests.Flush p) Replies.Flushed result }
        ensures foreign_seat { RefusesForeignSeat (tag_of self.now) seat.old.view result }
    {
        task_locked(
            &mut self.locked.lock(rt),
            self.tag,
            seat,
            CountingCall::Flush,
            p,
        )
    }

    /// Removes from p's log the determinants that are known to be stable, and returns how many.
    ///
    /// # Errors
    /// `WrongSeat`, `HistoryFull`, `NoRecord`: nothing changes. `Core` with the core's error: it is recorded as an item
    /// in the history and the seat's list; nothing else changes.
    pub fn forget<R: Wait>(&self, rt: &R, seat: &mut Seat, p: Pid) -> Result<u32, SharedFault>
        ensures item { SeatAnswers seat.old seat.new (Requests.Forget p) Replies.Forgotten result }
        ensures foreign_seat { RefusesForeignSeat (tag_of self.now) seat.old.view result }
    {
        task_locked(
            &mut self.locked.lock(rt),
            self.tag,
            seat,
            CountingCall::Forget,
            p,
        )
    }

    /// The messages that up processes keep for q and that q's present lane has not received, ascending by source and
    /// ssn.
    ///
    /// # Errors
    /// `WrongSeat`; `Core` with `NoProcess`, `Down` or `NoMemory`.
    pub fn pending<R: Wait>(&self, rt: &R, seat: &Seat, q: Pid) -> Result<Vec<MsgName>, SharedFault>
        ensures ascends { IfOk result (λ names. AreAscending names.items) }
        ensures faults { IfErr result IsPendingFault }
        ensures foreign_seat { RefusesForeignSeat (tag_of self.now) seat.now.view result }
    {
        pending_locked(&self.locked.lock(rt), self.tag, seat, q)
    }

    /// Returns a copy of the trace recorded so far. The copy is made under the lock and can be audited while other
    /// calls go on. O(trace length) time.
    ///
    /// # Errors
    /// `WrongSeat`; `Core` with `NoMemory`. Neither changes anything.
    pub fn snapshot<R: Wait>(&self, rt: &R, seat: &mut Seat) -> Result<Snapshot, SharedFault>
        ensures seen { IfOk result
            (λ s. SnapshotSeen seat.old.view seat.new.view s.trace.recording.past) }
        ensures safe { IfOk result IsSafeSnapshot }
        ensures err { OnErr result (seat.new.view ≡ seat.old.view) }
        ensures faults { IfErr result IsSnapshotFault }
        ensures foreign_seat { RefusesForeignSeat (tag_of self.now) seat.old.view result }
    {
        snapshot_locked(&mut self.locked.lock(rt), self.tag, seat)
    }
}

/// Makes the value for the lock, with `k` seats, and a copy of the core's recording. `finish` compares the copy with
/// the entries before the first item.
fn lock_with_opening<S: Stable>(
    alloc: Global,
    core: Core<S>,
    k: u32,
) -> Result<(Locked<S>, Trace), NoMemory>
    requires some { 1 ≤ k }
    requires few { k ≤ max_seats }
    ensures locked { IfOk result (λ r. locked_state r.0 ≡ new_locked_state (core_run core) k) }
    ensures opening { IfOk result (λ r. r.1.recording ≡ (locked_state r.0).run.recording) }
{
    let opening = core.trace().try_clone();
    let locked = Locked::new(alloc, core, k);
    both_ok(locked, opening)
}

/// k new seats, numbered from 0.
fn seats_of(alloc: Global, k: u32, tag: u64, seen: u32) -> Result<Vec<Seat>, NoMemory>
    ensures len { IfOk result (λ seats. vec_len seats ≡ k) }
    ensures seats { IfOk result (λ seats. AreNewSeats tag seen k seats.items) }
{
    let mut seats = Vec::new(alloc);
    for number in 0..k {
        seats.push(Seat::new(alloc, number, tag, seen))?;
    }
    Ok(seats)
}

/// Both values, or `NoMemory`. The caller drops neither on an early return, which would make its proof long.
fn both_ok<A: Drop, B: Drop>(
    a: Result<A, NoMemory>,
    b: Result<B, NoMemory>,
) -> Result<(A, B), NoMemory>
    ensures first { IfOk result (λ both. a ≡ Ok both.0) }
    ensures second { IfOk result (λ both. b ≡ Ok both.1) }
{
    Ok((a?, b?))
}

/// The core and the history of a finished runtime.
#[derive(Drop)]
pub struct Finished<S: Stable, B = Box<dyn Process + Send>> {
    pub core: Core<S, B>,
    pub history: Items,
}

/// Ends a shared runtime and returns its core and history. The seats, in any order, must be all that `open` returned,
/// each with exactly the history's items of it. O(seats · history + opening) time.
///
/// # Errors
/// The first of `Missing`, `Mismatch` and `Opening` that applies. The runtime and the seats are dropped.
pub fn finish<S: Stable + Send>(
    shared: Shared<S>,
    seats: Vec<Seat>,
) -> Result<Finished<S>, FinishFault>
    ensures legal { IfOk result (λ f. IsHistory (core_run f.core) f.history) }
    ensures safe { IfOk result (λ f. IsSafeRun (core_run f.core)) }
    ensures single { IfOk result (λ f. HasSingleSlots (core_run f.core)) }
    ensures opening { IfOk result
        (λ f. before_items (core_run f.core) f.history ≡ opening_of shared) }
    ensures seats { IfOk result (λ f. All (HasSeatHistory f.history) seats.items) }
    ensures others { IfOk result (λ f. AllHaveSeats seats.items f.history) }
    ensures total { IfOk result (λ f. length f.history ≡ items_together seats.items) }
    ensures missing { result ≡ Err FinishFault.Missing ↔ ¬ AreSeatsOf shared seats.items }
    ensures mismatch { (n : ℕ)
        → result ≡ Err (FinishFault.Mismatch n) → IsNoneOrSeat seats.items n }
{
    let Shared {
        locked,
        tag,
        seats: k,
        faults,
        opening,
    } = shared;
    finish_core(
        locked.into_inner(),
        seats.as_slice(),
        tag,
        k,
        faults,
        &opening,
    )
}

/// Returns the first error that prevents the finish, if any.
fn finish_fault<S: Stable>(
    locked: &Locked<S>,
    seats: &[Seat],
    tag: u64,
    k: u32,
    faults: u16,
    opening: &Trace,
) -> Option<FinishFault>
    ensures settled { IfNone result
        (CanFinish (locked_state locked.now) tag k seats.now opening.now.recording faults) }
    ensures missing { result ≡ Some FinishFault.Missing ↔ ¬ AreAllSeats tag k seats.now }
    ensures mismatch { (n : ℕ) → result ≡ Some (FinishFault.Mismatch n)
        → IsMismatch (locked_state locked.now).history seats.now n }
    ensures opened { result ≡ Some FinishFault.Opening
        → HasOtherOpening (locked_state locked.now).run
        (locked_state locked.now).history seats.now opening.now.recording faults }
{
    if !is_complete(seats, tag, k) {
        return Some(FinishFault::Missing);
    }
    if let Some(number) = first_mismatch(locked.history(), seats) {
        return Some(FinishFault::Mismatch(number));
    }
    if !all_have_seats(locked.history(), seats) {
        return Some(FinishFault::Mismatch(0));
    }
    if !is_opening(locked.core(), locked.history(), opening, faults) {
        return Some(FinishFault::Opening);
    }
    None
}

/// Performs `finish` on the value taken out of the lock.
pub(crate) fn finish_core<S: Stable>(
    locked: Locked<S>,
    seats: &[Seat],
    tag: u64,
    k: u32,
    faults: u16,
    opening: &Trace,
) -> Result<Finished<S>, FinishFault>
    ensures run { IfOk result (λ f. core_run f.core ≡ (locked_state locked).run) }
    ensures history { IfOk result (λ f. f.history ≡ (locked_state locked).history) }
    ensures legal { IfOk result (λ f. IsHistory (core_run f.core) f.history) }
    ensures safe { IfOk result (λ f. IsSafeRun (core_run f.core)) }
    ensures single { IfOk result (λ f. HasSingleSlots (core_run f.core)) }
    ensures opening { IfOk result
        (λ f. HasOpening (core_run f.core) f.history opening.now.recording faults) }
    ensures seats { IfOk result (λ f. All (HasSeatHistory f.history) seats.now) }
    ensures others { IfOk result (λ f. AllHaveSeats seats.now f.history) }
    ensures total { IfOk result (λ f. length f.history ≡ items_together seats.now) }
    ensures missing { result ≡ Err FinishFault.Missing ↔ ¬ AreAllSeats tag k seats.now }
    ensures mismatch { (n : ℕ) → result ≡ Err (FinishFault.Mismatch n)
        → IsMismatch (locked_state locked).history seats.now n }
    ensures opened { result ≡ Err FinishFault.Opening
        → HasOtherOpening (locked_state locked).run
        (locked_state locked).history seats.now opening.now.recording faults }
{
    match finish_fault(&locked, seats, tag, k, faults, opening) {
        Some(fault) => {
            // dropped by a call: an early return that drops the locked value has a long proof
            drop(locked);
            Err(fault)
        }
        None => {
            let (core, history) = locked.into_parts();
            Ok(Finished { core, history })
        }
    }
}
