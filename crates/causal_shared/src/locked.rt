//! The value under the lock.
ghost use Rattle.std.specs.Prelude.{◌≡◌, ◌+◌, ◌<◌, ◌≤◌, ◌↔◌, [], ◌∷◌, ◌++◌, length, replicate, slice_get, vec_len, vec_capacity, IfOk, IfErr, OnOk, OnErr, IsTrue, None};
ghost use Rattle.std.specs.Option.{option_copied};
ghost use Rattle.causal_core.specs.CoreView.{core_run};
ghost use Rattle.causal_shared.specs.History.{IsHistory, Holds, UpdatesSeen, new_record, run_length, history_item, with_record};
ghost use Rattle.causal_shared.specs.LockInvariant.{LockInvariant, item_at};
ghost use Rattle.causal_shared.specs.Inside.ItemAppends.{PreservesInvariant};
ghost use Rattle.causal_shared.specs.Limits.{max_items, max_seats};
ghost use Rattle.causal_protocol.specs.Steps.{reply_of_restart as restart_says};
ghost use Rattle.causal_core.specs.Restarts.{refused_fault as fault_beside};
ghost use Rattle.causal_shared.specs.Inside.Props.{Keeps-prop};

use crate::fault::LockedFault;
use crate::item::{Item, Items, SeatRecord, Snapshot};
use crate::limits::MAX_ITEMS;
use crate::refused::LockedRefused;
use crate::replies::{from_core_result, from_flush_result, from_restart_result};
use crate::same::same_item;
use causal_core::restart::Refused;
use causal_core::runtime::Core;
use causal_log::Stable;
use causal_name::{MsgName, NoMemory, Pid};
use causal_process::Process;
use causal_protocol::request::{CoreFault, Delivered, Reply, Request, Restarted};
use std::alloc::Global;

/// A core, the items of all calls, and a record of each seat.
#[derive(Drop)]
pub struct Locked<S: Stable, B = Box<dyn Process + Send>> {
    core: Core<S, B>,
    history: Vec<Item>,
    seats: Vec<SeatRecord>,
    ghost is_consistent: { LockInvariant (core_run core) history.items seats.items } by { Keeps-prop (core_run core) history.items seats.items },
    ghost has_space: { vec_len history ≤ max_items },
    ghost few: { vec_len seats ≤ max_seats },
}

/// The number of entries that the core has recorded.
fn entry_count<S: Stable>(core: &Core<S>) -> u32
    ensures { result ≡ run_length (core_run core.now) }
{
    core.trace().len()
}

/// k records without items, with this `seen` count.
fn new_seat_records(alloc: Global, k: u32, seen: u32) -> Result<Vec<SeatRecord>, NoMemory>
    ensures items { IfOk result (λ seats. seats.items ≡ replicate k (new_record seen)) }
    ensures len { IfOk result (λ seats. vec_len seats ≡ k) }
{
    let seat = SeatRecord {
        count: 0,
        seen,
        last: None,
    };
    Ok(vec![in alloc; seat; k as usize]?)
}

/// Reserves capacity for one more item and returns the number of entries before it.
///
/// # Errors
/// `NoRecord`; the items are unchanged.
fn reserve_item<S: Stable>(core: &Core<S>, history: &mut Vec<Item>) -> Result<u32, LockedFault>
    ensures items { history.new.items ≡ history.old.items }
    ensures len { vec_len history.new ≡ vec_len history.old }
    ensures room { OnOk result (vec_len history.new < vec_capacity history.new) }
    ensures first { IfOk result (λ first. first ≡ run_length (core_run core.now)) }
    ensures err { IfErr result (λ fault. fault ≡ LockedFault.NoRecord) }
{
    if history.reserve(1).is_err() {
        return Err(LockedFault::NoRecord);
    }
    Ok(entry_count(core))
}

/// A call of a seat, and the number of entries before it.
#[derive(Clone, Copy)]
struct CallContext {
    seat: u32,
    call: u32,
    first: u32,
}

/// Appends the item of a call and updates its seat's record. If the item records the step that led to the core's run,
/// the history stays legal.
fn append_item<S: Stable>(
    core: &Core<S>,
    history: &mut Vec<Item>,
    seats: &mut Vec<SeatRecord>,
    turn: CallContext,
    told: (Request, Reply),
)
    requires seat { turn.seat < vec_len seats.old }
    requires call { turn.call < max_items }
    requires place { vec_len history.old < max_items }
    requires room { vec_len history.old < vec_capacity history.old }
    ensures history { history.new.items
        ≡ history.old.items ++ history_item turn.seat turn.call told.0 told.1 turn.first ∷ [] }
    ensures len { vec_len history.new ≡ vec_len history.old + 1 }
    ensures seats { seats.new.items
        ≡ with_record seats.old.items (history_item turn.seat turn.call told.0 told.1 turn.first)
        (run_length (core_run core.now)) (vec_len history.old) }
    ensures same { vec_len seats.new ≡ vec_len seats.old }
    ensures is_consistent { PreservesInvariant (core_run core.now)
        (history_item turn.seat turn.call told.0 told.1 turn.first)
        history.old.items seats.old.items history.new.items seats.new.items }
{
    let place = history.len() as u32;
    let item = Item {
        seat: turn.seat,
        call: turn.call,
        request: told.0,
        reply: told.1,
        first: turn.first,
    };
    history.push_reserved(item);
    seats[turn.seat as usize] = SeatRecord {
        count: turn.call + 1,
        seen: entry_count(core),
        last: Some(place),
    };
}

/// The item at the index, if there is one.
fn item_at_place(history: &[Item], place: Option<u32>) -> Option<&Item>
    ensures { option_copied result ≡ item_at history.now place }
{
    history.get(place? as usize)
}

fn same_option(a: Option<&Item>, b: Option<&Item>) -> bool
    ensures { IsTrue result ↔ (option_copied a.entry ≡ option_copied b.entry) }
{
    match (a, b) {
        (Some(a), Some(b)) => same_item(a, b),
        (None, None) => true,
        _ => false,
    }
}

fn seat_record_at(seats: &[SeatRecord], number: u32) -> Option<SeatRecord>
    ensures { result ≡ slice_get seats.now number }
{
    seats.get(number as usize).copied()
}

/// The item reply for a restart.
fn restart_reply(answer: &Result<Restarted, Refused>) -> Reply
    ensures { result ≡ restart_says fault_beside answer.now }
{
    Reply::of_restart(match answer {
        Ok(restarted) => Ok(*restarted),
        Err(refused) => Err(refused.fault),
    })
}

impl<S: Stable> Locked<S> {
    ghost use Rattle.causal_shared.specs.Locked.{locked_state, core_state_of, core_store_of, new_locked_state, restart_item_reply, IsNextCall, IsRecordedCall, IsRecordedResult, AnswersAs, LeavesCore, LockedFaultMeansFailure, IsSnapshot, IsSafeSnapshot};
    ghost use Rattle.causal_core.specs.CoreView.{core_state, Delivers, Crashes};
    ghost use Rattle.causal_core.specs.Boxes.{SameAnswers};
    ghost use Rattle.causal_core.specs.Restarts.{Restarts};
    ghost use Rattle.causal_core.specs.Pendings.{pending_in, pending_fault};
    ghost use Rattle.causal_protocol.specs.Run.{memories_of};
    ghost use Rattle.causal_protocol.specs.Steps.{reason_of};
    ghost use Rattle.causal_protocol.specs.declared.request.Request.TheVariants as Requests;
    ghost use Rattle.causal_protocol.specs.declared.request.Reply.TheVariants as Replies;

    /// Wraps the core, with an empty history and `k` seats, 1 to 64, numbered from 0. Their `seen` count is the trace's
    /// length. The core's logs keep the seed of its start.
    ///
    /// # Errors
    /// `NoMemory`; the core is dropped.
    pub fn new(alloc: Global, core: Core<S>, k: u32) -> Result<Locked<S>, NoMemory>
        requires some { 1 ≤ k }
        requires few { k ≤ max_seats }
        ensures state { IfOk result (λ l. locked_state l ≡ new_locked_state (core_run core) k) }
        ensures core { IfOk result (λ l. core_state_of l ≡ core_state core) }
    {
        match new_seat_records(alloc, k, entry_count(&core)) {
            Ok(seats) => Ok(Locked {
                core,
                history: Vec::new(alloc),
                seats,
            }),
            Err(NoMemory) => {
                // dropped by a call: an early return that drops the core has a long proof
                drop(core);
                Err(NoMemory)
            }
        }
    }

    /// Law: the history is legal over the core's run, each seat's record fits it, and the trace contains the delivery
    /// of each delivery item.
    pub fn state_invariant(&self)
        ensures { LockInvariant (locked_state self.now).run (locked_state self.now).history
            (locked_state self.now).seats }
    {}

    /// Returns whether the history contains the maximum number of items.
    pub fn full(&self) -> bool
        ensures { IsTrue result ↔ (length (locked_state self.now).history ≡ max_items) }
    {
        self.history.len() >= MAX_ITEMS
    }

    /// The number of recorded entries.
    pub(crate) fn entry_count(&self) -> u32
        ensures { result ≡ run_length (locked_state self.now).run }
    {
        entry_count(&self.core)
    }

    pub(crate) fn history(&self) -> &[Item]
        ensures { result.now ≡ (locked_state self.now).history }
    {
        self.history.as_slice()
    }

    pub(crate) fn core(&self) -> &Core<S>
        ensures { core_run result.now ≡ (locked_state self.now).run }
    {
        &self.core
    }

    pub(crate) fn into_parts(self) -> (Core<S>, Items)
        ensures run { core_run result.0 ≡ (locked_state self).run }
        ensures history { result.1 ≡ (locked_state self).history }
        ensures legal { IsHistory (core_run result.0) result.1 }
    {
        let Locked {
            core,
            history,
            seats: _,
        } = self;
        (core, Items::new(history))
    }

    /// Returns whether the values equal the record of seat `number`: its call count, its `seen` count and its last
    /// item.
    pub fn holds(&self, number: u32, count: u32, seen: u32, last: Option<&Item>) -> bool
        ensures { IsTrue result
            ↔ Holds (locked_state self.now) number count seen (option_copied last.entry) }
    {
        let Some(kept) = seat_record_at(self.seats.as_slice(), number) else {
            return false;
        };
        if kept.count != count || kept.seen != seen {
            return false;
        }
        same_option(item_at_place(self.history.as_slice(), kept.last), last)
    }

    /// Returns a copy of the trace and sets the seat's `seen` count to its length. O(trace length) time.
    ///
    /// # Errors
    /// `NoMemory`; nothing changes.
    pub fn snapshot(&mut self, seat: u32) -> Result<Snapshot, NoMemory>
        requires { seat < length (locked_state self.old).seats }
        ensures copy { IfOk result (IsSnapshot (locked_state self.old)) }
        ensures safe { IfOk result IsSafeSnapshot }
        ensures ok { OnOk result (UpdatesSeen (locked_state self.old)
            (locked_state self.new) seat) }
        ensures core { core_state_of self.new ≡ core_state_of self.old }
        ensures err { OnErr result (locked_state self.new ≡ locked_state self.old) }
    {
        let copy = self.core.trace().try_clone()?;
        self.seats[seat as usize].seen = entry_count(&self.core);
        Ok(Snapshot {
            trace: copy,
            calls: self.history.len() as u32,
            faults: self.core.faults(),
        })
    }

    /// Delivers to q the message with that source and ssn. `call` is the number of the seat's items.
    ///
    /// # Errors
    /// `NoRecord`; nothing changes. An error of the core is recorded as an item; nothing else changes.
    pub fn deliver(
        &mut self,
        seat: u32,
        call: u32,
        q: Pid,
        source: Pid,
        ssn: u32,
    ) -> Result<Delivered, LockedFault>
        requires { IsNextCall (locked_state self.old) seat call }
        ensures item { IsRecordedResult self.old self.new seat call (Requests.Deliver q source ssn)
            Replies.Delivered result }
        ensures ok { OnOk result
            (Delivers answers q source ssn (core_state_of self.old) (core_state_of self.new)) }
        ensures refused { OnErr result (LeavesCore answers self.old self.new) }
    {
        let first = reserve_item(&self.core, &mut self.history)?;
        let answer = self.core.deliver(q, source, ssn);
        let request = Request::Deliver { q, source, ssn };
        let told = (request, Reply::of_delivery(answer));
        let turn = CallContext { seat, call, first };
        append_item(&self.core, &mut self.history, &mut self.seats, turn, told);
        from_core_result(answer)
    }

    /// Crashes process p. `call` is the number of the seat's items.
    ///
    /// # Errors
    /// `NoRecord`; nothing changes. An error of the core is recorded as an item; nothing else changes.
    pub fn crash(&mut self, seat: u32, call: u32, p: Pid) -> Result<u32, LockedFault>
        requires { IsNextCall (locked_state self.old) seat call }
        ensures item { IsRecordedResult self.old self.new seat call
            (Requests.Crash p) Replies.Crashed result }
        ensures ok { OnOk result (Crashes answers p (core_state_of self.old)
            (core_state_of self.new)) }
        ensures refused { OnErr result (LeavesCore answers self.old self.new) }
    {
        let first = reserve_item(&self.core, &mut self.history)?;
        let answer = self.core.crash(p);
        let told = (Request::Crash { p }, Reply::of_crash(answer));
        let turn = CallContext { seat, call, first };
        append_item(&self.core, &mut self.history, &mut self.seats, turn, told);
        from_core_result(answer)
    }

    /// Restarts process p with the spare. `call` is the number of the seat's items.
    ///
    /// # Errors
    /// `NoRecord`; nothing changes. An error of the core is recorded as an item; nothing else changes. Each error
    /// contains the spare.
    pub fn restart(
        &mut self,
        seat: u32,
        call: u32,
        p: Pid,
        spare: Box<dyn Process + Send>,
    ) -> Result<Restarted, LockedRefused>
        requires { IsNextCall (locked_state self.old) seat call }
        ensures item { IsRecordedCall self.old self.new seat call (Requests.Restart p)
            (restart_item_reply result) }
        ensures ok { OnOk result
            (Restarts answers p spare (core_state_of self.old) (core_state_of self.new)) }
        ensures refused { OnErr result (LeavesCore answers self.old self.new) }
        ensures spare { IfErr result (λ refused. AnswersAs answers refused.spare spare) }
    {
        let first = match reserve_item(&self.core, &mut self.history) {
            Ok(first) => first,
            Err(fault) => return Err(LockedRefused { fault, spare }),
        };
        let answer = self.core.restart(p, spare);
        let told = (Request::Restart { p }, restart_reply(&answer));
        let turn = CallContext { seat, call, first };
        append_item(&self.core, &mut self.history, &mut self.seats, turn, told);
        from_restart_result(answer)
    }

    /// Writes to stable storage each determinant that is in p's log and not known to be stable. `call` is the number of
    /// the seat's items. If the flush stops before it finished, the item contains how many determinants were stored and
    /// recorded.
    ///
    /// # Errors
    /// `NoRecord`; nothing changes. An error of the core is recorded as an item.
    pub fn flush(&mut self, seat: u32, call: u32, p: Pid) -> Result<u32, LockedFault>
        requires { IsNextCall (locked_state self.old) seat call }
        ensures fault { IfErr result
            (LockedFaultMeansFailure (S.faults (core_store_of self.old)) (S.faults
            (core_store_of self.new))) }
        ensures item { IsRecordedResult self.old self.new seat call
            (Requests.Flush p) Replies.Flushed result }
        ensures bodies { (core_state_of self.new).bodies ≡ (core_state_of self.old).bodies }
        ensures boxes { SameAnswers answers
            (core_state_of self.old).slots (core_state_of self.new).slots }
    {
        let first = reserve_item(&self.core, &mut self.history)?;
        let answer = self.core.flush(p);
        let told = (Request::Flush { p }, Reply::of_flush(answer));
        let turn = CallContext { seat, call, first };
        append_item(&self.core, &mut self.history, &mut self.seats, turn, told);
        from_flush_result(answer)
    }

    /// Removes from p's log the determinants that are known to be stable. `call` is the number of the seat's items.
    ///
    /// # Errors
    /// `NoRecord`; nothing changes. An error of the core is recorded as an item; nothing else changes.
    pub fn forget(&mut self, seat: u32, call: u32, p: Pid) -> Result<u32, LockedFault>
        requires { IsNextCall (locked_state self.old) seat call }
        ensures item { IsRecordedResult self.old self.new seat call
            (Requests.Forget p) Replies.Forgotten result }
        ensures bodies { (core_state_of self.new).bodies ≡ (core_state_of self.old).bodies }
        ensures boxes { SameAnswers answers
            (core_state_of self.old).slots (core_state_of self.new).slots }
    {
        let first = reserve_item(&self.core, &mut self.history)?;
        let answer = self.core.forget(p);
        let told = (Request::Forget { p }, Reply::of_forget(answer));
        let turn = CallContext { seat, call, first };
        append_item(&self.core, &mut self.history, &mut self.seats, turn, told);
        from_core_result(answer)
    }

    /// The messages that up processes keep for q and that q's present lane has not received, ascending by source and
    /// ssn.
    ///
    /// # Errors
    /// `NoProcess` or `Down`, the first that applies; otherwise `NoMemory` if allocation failed.
    pub fn pending(&self, q: Pid) -> Result<Vec<MsgName>, CoreFault>
        ensures ok { IfOk result
            (λ names. names.items ≡ pending_in (memories_of (locked_state self.now).run) q) }
        ensures legal { OnOk result (pending_fault (locked_state self.now).run q ≡ None) }
        ensures refused { IfErr result
            (λ fault. pending_fault (locked_state self.now).run q ≡ reason_of fault) }
    {
        self.core.pending(q)
    }
}
