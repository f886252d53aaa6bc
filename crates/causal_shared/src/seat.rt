//! A caller's seat, with its own list of its calls.
ghost use Rattle.std.specs.Prelude.{◌≡◌, ◌↔◌, ◌≤◌, ◌<◌, length, ◌-◌, vec_len, IfOk, IfErr, OnOk, OnErr, IsTrue, Option, Some, None};
ghost use Rattle.std.specs.Option.{option_copied};
ghost use Rattle.causal_protocol.specs.declared.request.Request.TheVariants as Requests;
ghost use Rattle.causal_protocol.specs.declared.request.Reply.TheVariants as Replies;
ghost use Rattle.causal_shared.specs.Limits.{max_items};
ghost use Rattle.causal_protocol.specs.Steps.{reason_of};
ghost use Rattle.causal_core.specs.Pendings.{pending_fault, pending_in};
ghost use Rattle.causal_protocol.specs.declared.request.CoreFault.{CoreFault};
ghost use Rattle.causal_shared.specs.History.{UpdatesSeen};
ghost use Rattle.causal_protocol.specs.Run.{memories_of};
ghost use Rattle.causal_shared.specs.Inside.Sections.{RecordsReply, LockSections};
ghost use Rattle.causal_shared.specs.Locked.{locked_state, AnswersAs, IsSnapshot, IsSafeSnapshot};
ghost use Rattle.causal_shared.specs.Pending.{AreAscending, IsPendingFault, IsSnapshotFault};
ghost use Rattle.causal_shared.specs.Seat.{seat_reply, seat_fault_reply, seat_restart_reply, with_item, SnapshotSeen};
ghost use Rattle.causal_shared.specs.Inside.SeatChecks.{refusal_of, MatchesRecord, CanCall, HistoryFullIsTrue, NoRecordIsTrue, WrongSeatIsTrue};
ghost use Rattle.causal_shared.specs.Inside.CountingCalls.{reply_of, request_of};

use crate::counting_call::CountingCall;
use crate::fault::SharedFault;
use crate::item::{Item, Snapshot};
use crate::locked::Locked;
use crate::refused::SharedRefused;
use crate::replies::{
    count_item_reply, delivery_item_reply, restart_item_reply, to_shared_restart, to_shared_result,
};
use causal_log::Stable;
use causal_name::{MsgName, NoMemory, Pid};
use causal_process::Process;
use causal_protocol::request::{CoreFault, Delivered, Reply, Request, Restarted};
use std::alloc::Global;
use std::marker::Model;

/// A caller's handle. Contracts see its number, its runtime's tag, its own list of items and its `seen` count; and how
/// many more items fit without allocation, which the equality of views ignores.
#[derive(Drop)]
pub struct Seat {
    number: u32,
    tag: u64,
    items: Vec<Item>,
    seen: u32,
}

impl Model for Seat {
    ghost use Rattle.causal_shared.specs.Limits.{max_items};
    ghost use Rattle.causal_shared.specs.Seat.{SeatMemory};
    ghost use Rattle.std.specs.Prelude.{◌≤◌, ◌-◌, vec_len, vec_capacity};

    ghost Value = { SeatMemory };

    ghost view = { λ s. record {
      view = record { number = s.number; tag = s.tag; items = s.items.items; seen = s.seen };
      spare = vec_capacity s.items - vec_len s.items;
    } };

    ghost invariant = { λ s. vec_len s.items ≤ max_items };
}

impl Seat {
    ghost use Rattle.causal_shared.specs.History.{last_item};
    ghost use Rattle.causal_shared.specs.Seat.{new_seat_view};

    pub(crate) fn new(alloc: Global, number: u32, tag: u64, seen: u32) -> Seat
        ensures { result.view ≡ new_seat_view number tag seen }
    {
        Seat {
            number,
            tag,
            items: Vec::new(alloc),
            seen,
        }
    }

    pub fn number(&self) -> u32
        ensures { result ≡ self.now.view.number }
    {
        self.number
    }

    pub(crate) fn tag(&self) -> u64
        ensures { result ≡ self.now.view.tag }
    {
        self.tag
    }

    pub(crate) fn items(&self) -> &[Item]
        ensures { result.now ≡ self.now.view.items }
    {
        self.items.as_slice()
    }

    /// The number of its items.
    pub fn count(&self) -> u32
        ensures { result ≡ length self.now.view.items }
    {
        self.items.len() as u32
    }

    /// Its last item.
    pub fn last(&self) -> Option<&Item>
        ensures { option_copied result ≡ last_item self.now.view.items }
    {
        self.items.as_slice().last()
    }

    /// The trace length after its last recorded call or snapshot; before these, the length at `open`.
    pub fn seen(&self) -> u32
        ensures { result ≡ self.now.view.seen }
    {
        self.seen
    }

    /// Reserves capacity for one more item.
    fn reserve_item(&mut self) -> Result<(), NoMemory>
        ensures view { self.new.view ≡ self.old.view }
        ensures ok { OnOk result (1 ≤ self.new.spare) }
    {
        self.items.reserve(1)?;
        Ok(())
    }

    /// Appends the next item and sets the `seen` count.
    fn add_item(&mut self, request: Request, reply: Reply, first: u32, seen: u32)
        requires few { length self.old.view.items < max_items }
        requires spare { 1 ≤ self.old.spare }
        ensures { self.new.view ≡ with_item self.old.view request reply first seen }
    {
        let call = self.count();
        self.items.push_reserved(Item {
            seat: self.number,
            call,
            request,
            reply,
            first,
        });
        self.seen = seen;
    }

    /// Sets the `seen` count.
    fn set_seen(&mut self, seen: u32)
        ensures { self.new.view ≡ record self.old.view { seen = seen } }
    {
        self.seen = seen;
    }
}

/// Returns whether the seat is of this runtime and matches its record.
fn matches_record<S: Stable>(locked: &Locked<S>, tag: u64, seat: &Seat) -> bool
    ensures { IsTrue result ↔ MatchesRecord tag (locked_state locked.now) seat.now.view }
{
    if seat.tag() != tag {
        return false;
    }
    locked.holds(seat.number(), seat.count(), seat.seen(), seat.last())
}

/// Checks that the seat can call, reserves capacity for its item, and returns the number of entries before it.
fn begin_call<S: Stable>(locked: &Locked<S>, tag: u64, seat: &mut Seat) -> Result<u32, SharedFault>
    ensures view { seat.new.view ≡ seat.old.view }
    ensures wrong { WrongSeatIsTrue tag (locked_state locked.now) seat.old.view result }
    ensures full { HistoryFullIsTrue (locked_state locked.now) result }
    ensures no_record { NoRecordIsTrue (locked_state locked.now) result }
    ensures ok { IfOk result (CanCall (locked_state locked.now) seat.new) }
    ensures early { IfErr result (λ fault. seat_fault_reply fault ≡ None) }
{
    if !matches_record(locked, tag, seat) {
        return Err(SharedFault::WrongSeat);
    }
    if locked.full() {
        return Err(SharedFault::HistoryFull);
    }
    if seat.reserve_item().is_err() {
        return Err(SharedFault::NoRecord);
    }
    Ok(locked.entry_count())
}

/// Appends the call's item to the seat's list, if one was made.
fn record_reply<S: Stable>(
    locked: &Locked<S>,
    seat: &mut Seat,
    request: Request,
    reply: Option<Reply>,
    first: u32,
)
    requires few { length seat.old.view.items < max_items }
    requires spare { 1 ≤ seat.old.spare }
    ensures { RecordsReply locked.now seat.old seat.new request reply first }
{
    let Some(reply) = reply else {
        return;
    };
    seat.add_item(request, reply, first, locked.entry_count());
}

/// Delivers, with the lock held.
pub(crate) fn deliver_locked<S: Stable>(
    locked: &mut Locked<S>,
    tag: u64,
    seat: &mut Seat,
    q: Pid,
    source: Pid,
    ssn: u32,
) -> Result<Delivered, SharedFault>
    ensures section { LockSections locked.old locked.new seat.old seat.new
        (Requests.Deliver q source ssn)
        (seat_reply Replies.Delivered result) }
    ensures wrong { WrongSeatIsTrue tag (locked_state locked.old) seat.old.view result }
    ensures full { HistoryFullIsTrue (locked_state locked.old) result }
    ensures no_record { NoRecordIsTrue (locked_state locked.old) result }
{
    let first = begin_call(locked, tag, seat)?;
    let answer = locked.deliver(seat.number(), seat.count(), q, source, ssn);
    let request = Request::Deliver { q, source, ssn };
    record_reply(locked, seat, request, delivery_item_reply(answer), first);
    to_shared_result(answer)
}

/// Crashes, flushes or forgets, with the lock held.
pub(crate) fn task_locked<S: Stable>(
    locked: &mut Locked<S>,
    tag: u64,
    seat: &mut Seat,
    task: CountingCall,
    p: Pid,
) -> Result<u32, SharedFault>
    ensures section { LockSections locked.old locked.new seat.old seat.new (request_of task p)
        (seat_reply (reply_of task) result) }
    ensures wrong { WrongSeatIsTrue tag (locked_state locked.old) seat.old.view result }
    ensures full { HistoryFullIsTrue (locked_state locked.old) result }
    ensures no_record { NoRecordIsTrue (locked_state locked.old) result }
{
    let first = begin_call(locked, tag, seat)?;
    let answer = task.perform(locked, seat.number(), seat.count(), p);
    record_reply(
        locked,
        seat,
        task.request(p),
        count_item_reply(task, answer),
        first,
    );
    to_shared_result(answer)
}

/// Restarts, with the lock held.
pub(crate) fn restart_locked<S: Stable>(
    locked: &mut Locked<S>,
    tag: u64,
    seat: &mut Seat,
    p: Pid,
    spare: Box<dyn Process + Send>,
) -> Result<Restarted, SharedRefused>
    ensures section { LockSections locked.old locked.new seat.old seat.new (Requests.Restart p)
        (seat_restart_reply result) }
    ensures spare { IfErr result (λ refused. AnswersAs answers refused.spare spare) }
    ensures wrong { refusal_of result ≡ Some SharedFault.WrongSeat
        ↔ ¬ MatchesRecord tag (locked_state locked.old) seat.old.view }
    ensures full { refusal_of result ≡ Some SharedFault.HistoryFull
        → length (locked_state locked.old).history ≡ max_items }
    ensures no_record { refusal_of result ≡ Some SharedFault.NoRecord
        → length (locked_state locked.old).history < max_items }
{
    let first = match begin_call(locked, tag, seat) {
        Ok(first) => first,
        Err(fault) => return Err(SharedRefused { fault, spare }),
    };
    let answer = locked.restart(seat.number(), seat.count(), p, spare);
    let request = Request::Restart { p };
    record_reply(locked, seat, request, restart_item_reply(&answer), first);
    to_shared_restart(answer)
}

/// Copies the trace, with the lock held.
pub(crate) fn snapshot_locked<S: Stable>(
    locked: &mut Locked<S>,
    tag: u64,
    seat: &mut Seat,
) -> Result<Snapshot, SharedFault>
    ensures copy { IfOk result (IsSnapshot (locked_state locked.old)) }
    ensures safe { IfOk result IsSafeSnapshot }
    ensures seen { IfOk result
        (λ s. SnapshotSeen seat.old.view seat.new.view s.trace.recording.past) }
    ensures sees { OnOk result
        (UpdatesSeen (locked_state locked.old)
        (locked_state locked.new) seat.old.view.number) }
    ensures err { OnErr result (seat.new.view ≡ seat.old.view) }
    ensures unchanged { OnErr result (locked_state locked.new ≡ locked_state locked.old) }
    ensures faults { IfErr result IsSnapshotFault }
    ensures wrong { WrongSeatIsTrue tag (locked_state locked.old) seat.old.view result }
{
    if !matches_record(locked, tag, seat) {
        return Err(SharedFault::WrongSeat);
    }
    let Ok(snapshot) = locked.snapshot(seat.number()) else {
        return Err(SharedFault::Core(CoreFault::NoMemory));
    };
    seat.set_seen(snapshot.trace.len());
    Ok(snapshot)
}

/// Lists the pending messages, with the lock held.
#[tactic(auto, using(crate::proofs::Ascents::pending_ascends))]
pub(crate) fn pending_locked<S: Stable>(
    locked: &Locked<S>,
    tag: u64,
    seat: &Seat,
    q: Pid,
) -> Result<Vec<MsgName>, SharedFault>
    ensures ok { IfOk result
        (λ names. names.items ≡ pending_in (memories_of (locked_state locked.now).run) q) }
    ensures ascends { IfOk result (λ names. AreAscending names.items) }
    ensures legal { OnOk result (pending_fault (locked_state locked.now).run q ≡ None) }
    ensures faults { IfErr result IsPendingFault }
    ensures refused { (fault : CoreFault) → result ≡ Err (SharedFault.Core fault)
        → pending_fault (locked_state locked.now).run q ≡ reason_of fault }
    ensures wrong { WrongSeatIsTrue tag (locked_state locked.now) seat.now.view result }
{
    if !matches_record(locked, tag, seat) {
        return Err(SharedFault::WrongSeat);
    }
    match locked.pending(q) {
        Ok(names) => Ok(names),
        Err(fault) => Err(SharedFault::Core(fault)),
    }
}
