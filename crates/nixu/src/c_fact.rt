//! Facts that explain a verdict, in the layout of `nixu_fact` in nixu.h.
ghost use Rattle.std.specs.Prelude.{◌≡◌, IfOk, map};
ghost use Rattle.nixu.specs.CFacts as facts;

use causal_facts::{Cause, ChainEvent, ClosestFailure, Fact, Loss, LostBy, Stray};
use causal_name::Det;
use std::alloc::{AllocError, Global};

/// A fact that explains a verdict, or says that a recovery strayed.
///
/// Fields that the `kind` does not use are 0. Entries are identified by their positions, from 0; instants count entries.
#[repr(C)]
#[derive(Clone, Copy)]
pub struct CFact {
    /// 1 down, 2 delivery, 3 cause, 4 unstable, 5 holder, 6 no holder, 7 loss, 8 crash, 9 chain, 10 unlisted, 11 listed,
    /// 12 underway, 13 orphan, 14 closest, 15 never, 16 strayed, 17 logged, 18 stable.
    pub kind: u32,
    /// The entry of the fact.
    pub entry: u32,
    /// The delivery that the fact is about.
    pub delivery: u32,
    /// The send entry whose message is delivered.
    pub send: u32,
    /// Strayed: the first delivery with another survivor of the slot.
    pub second: u32,
    /// The instant at which the fact holds.
    pub instant: u32,
    /// The send sequence number.
    pub ssn: u32,
    /// The receive sequence number.
    pub rsn: u32,
    /// Closest: the least number of failures for which a delivery has an orphan.
    pub faults: u32,
    /// Cause, loss: the kind of the entry, as in `nixu_entry`.
    pub by: u32,
    /// The process of the fact.
    pub process: u8,
    /// Delivery: the message's sender.
    pub source: u8,
}

/// The struct of a kind alone.
fn fact(kind: u32) -> CFact
    ensures { result ≡ facts.fact kind }
{
    CFact {
        kind,
        entry: 0,
        delivery: 0,
        send: 0,
        second: 0,
        instant: 0,
        ssn: 0,
        rsn: 0,
        faults: 0,
        by: 0,
        process: 0,
        source: 0,
    }
}

/// The struct of a kind and a process.
fn process_fact(kind: u32, process: u8) -> CFact
    ensures { result ≡ facts.process_fact kind process }
{
    CFact {
        process,
        ..fact(kind)
    }
}

/// The struct of a kind, a process and an entry.
fn process_entry_fact(kind: u32, process: u8, entry: u32) -> CFact
    ensures { result ≡ facts.process_entry_fact kind process entry }
{
    CFact {
        entry,
        ..process_fact(kind, process)
    }
}

/// The structs of facts.
pub(crate) fn c_facts_of(alloc: Global, found: &[Fact]) -> Result<Vec<CFact>, AllocError>
    ensures { IfOk result (λ structs. structs.items ≡ map facts.c_fact_of found.now) }
{
    found.iter().map(c_fact_of).collect(alloc)
}

/// The struct of a fact.
fn c_fact_of(found: &Fact) -> CFact
    ensures { result ≡ facts.c_fact_of found.now }
{
    match found {
        Fact::Down(down) => process_entry_fact(1, down.process, down.since),
        Fact::Delivery { delivery, det } => delivery_fact(*delivery, *det),
        Fact::Cause { instant, cause } => cause_fact(*instant, *cause),
        Fact::Unstable { instant } => at_instant(fact(4), *instant),
        Fact::Holder(holding) => process_entry_fact(5, holding.process, holding.since),
        Fact::NoHolder => fact(6),
        Fact::Loss(loss) => loss_fact(*loss),
        Fact::Crash { process } => process_fact(8, *process),
        Fact::Chain { position, event } => process_entry_fact(9, chain_process(*event), *position),
        Fact::Unlisted {
            position,
            event,
            ..
        } => with_send_entry(
            process_entry_fact(10, chain_process(*event), *position),
            chain_send(*event),
        ),
        Fact::Listed => fact(11),
        Fact::Underway { position, send, to } => with_send_entry(
            process_entry_fact(12, *to, *position),
            *send,
        ),
        Fact::Orphan { process } => process_fact(13, *process),
        Fact::Closest(closest) => closest_struct(*closest),
        Fact::Never => fact(15),
        Fact::Strayed(stray) => strayed_fact(*stray),
        Fact::Logged { delivery, holding } => {
            of_delivery(
                process_entry_fact(17, holding.process, holding.since),
                *delivery,
            )
        }
        Fact::Stable { delivery } => of_delivery(fact(18), *delivery),
    }
}

/// The struct with a delivery.
fn of_delivery(of: CFact, delivery: u32) -> CFact
    ensures { result ≡ facts.of_delivery of delivery }
{
    CFact { delivery, ..of }
}

/// The struct with an instant.
fn at_instant(of: CFact, instant: u32) -> CFact
    ensures { result ≡ facts.at_instant of instant }
{
    CFact { instant, ..of }
}

/// The struct with a send entry.
fn with_send_entry(of: CFact, send: u32) -> CFact
    ensures { result ≡ facts.with_send_entry of send }
{
    CFact { send, ..of }
}

/// The struct with the kind of its entry.
fn by_entry(of: CFact, by: u32) -> CFact
    ensures { result ≡ facts.by_entry of by }
{
    CFact { by, ..of }
}

/// The delivery that has an orphan, with its determinant.
fn delivery_fact(delivery: u32, det: Det) -> CFact
    ensures { result ≡ facts.delivery_fact delivery det }
{
    CFact {
        delivery,
        source: det.source.0,
        ssn: det.ssn,
        rsn: det.rsn,
        ..process_fact(2, det.dest.0)
    }
}

/// The entry by which an instant fails.
fn cause_fact(instant: u32, cause: Cause) -> CFact
    ensures { result ≡ facts.cause_fact instant cause }
{
    let last = instant.saturating_sub(1);
    match cause {
        Cause::Delivery { process, send } => with_send_entry(
            by_entry(process_entry_fact(3, process, last), 1),
            send,
        ),
        Cause::Crash { process } => by_entry(process_entry_fact(3, process, last), 3),
        Cause::Restart { process } => by_entry(process_entry_fact(3, process, last), 4),
        Cause::Forgetting { process } => by_entry(process_entry_fact(3, process, last), 5),
    }
}

/// A process that lost the determinant, with the entry by which it did.
fn loss_fact(loss: Loss) -> CFact
    ensures { result ≡ facts.loss_fact loss }
{
    by_entry(
        process_entry_fact(7, loss.process, loss.lost),
        kind_of_loss(loss.by),
    )
}

/// The kind of the entry by which a process loses a determinant.
fn kind_of_loss(by: LostBy) -> u32
    ensures { result ≡ facts.kind_of_loss by }
{
    match by {
        LostBy::Crash => 3,
        LostBy::Forgetting => 5,
    }
}

/// The process of an event: the sender of a send, the receiver of a delivery; 0 if it is neither.
fn chain_process(event: ChainEvent) -> u8
    ensures { result ≡ facts.chain_process event }
{
    match event {
        ChainEvent::Send { from, .. } => from,
        ChainEvent::Delivery { to, .. } => to,
        ChainEvent::Other => 0,
    }
}

/// The send entry of a delivery; 0 if the event is none.
fn chain_send(event: ChainEvent) -> u32
    ensures { result ≡ facts.chain_send event }
{
    match event {
        ChainEvent::Delivery { send, .. } => send,
        _ => 0,
    }
}

/// The delivery that has an orphan for the least number of failures.
fn closest_struct(closest: ClosestFailure) -> CFact
    ensures { result ≡ facts.closest_struct closest }
{
    CFact {
        faults: u32::from(closest.faults),
        delivery: closest.delivery,
        instant: closest.instant,
        ..process_fact(14, closest.orphan)
    }
}

/// The first stray.
fn strayed_fact(stray: Stray) -> CFact
    ensures { result ≡ facts.strayed_fact stray }
{
    CFact {
        instant: stray.instant,
        rsn: stray.slot.rsn,
        delivery: stray.first,
        second: stray.second,
        ..process_fact(16, stray.slot.dest.0)
    }
}
