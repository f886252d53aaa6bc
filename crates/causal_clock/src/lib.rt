//! Events in lanes, and which of them happened before which.
//!
//! A lane is one incarnation of a process: its events follow one another, and a receive also follows its send. The
//! order is Lamport's happened-before relation ("Time, Clocks, and the Ordering of Events in a Distributed System",
//! CACM 21(7), 1978), here with each event also before itself.
//!
//! Begin at [`Clocks`]: call [`Clocks::new`], then [`Clocks::local`] and [`Clocks::receive`] for each event in order.
//! [`Clocks::precedes`] and [`Clocks::reach`] query the order; [`Clocks::rises`] returns the counts of a whole lane.
//! [`laws`] states the properties of the relation.
//!
//! A clock stores no vector of counters for an event. It stores a column for each lane and source lane: the places at
//! which the count of the source's events rises. [`Clocks`] lists the costs.
#![tactic(auto)]

/// Columns of rises.
mod column;
/// A lane and its columns.
mod lane;
/// Laws of the order, and what one more event changes.
pub mod laws;

ghost use Rattle.std.specs.Prelude.{◌≡◌, ◌≢◌, ℕ, ◌+◌, ◌<◌, ◌≤◌, ◌↔◌, [], ◌∷◌, ◌++◌, length, vec_len, vec_capacity, IsTrue, IfOk, IfErr, OnOk, OnErr, Some, None, slice_index};
ghost use Rattle.causal_clock.specs.Timeline.{lane_of, lane_place, receiving, with_event, with_lane};
ghost use Rattle.causal_clock.specs.Precedence.{Precedes, FirstReach};
ghost use Rattle.causal_clock.specs.Rises.{AreRises, RisesStrictly};
ghost use Rattle.causal_clock.specs.Inside.Columns.{column_in, SameOrNoNews};
ghost use Rattle.causal_clock.specs.Inside.Fields.{count_at_event};
ghost use Rattle.causal_clock.specs.Inside.Lanes.{AreEmpty, AllStrict, rises_in};
ghost use Rattle.causal_clock.specs.declared.ClockFault.TheVariants.{NoMemory};

use crate::lane::LaneColumns;
use std::alloc::{AllocError, AllocFailed, Global};
use std::marker::Model;
use thiserror::Error;

/// An event of a lane. A receive also has the number of its send's event.
#[derive(Clone, Copy)]
pub struct Event {
    pub lane: u32,
    pub send: Option<u32>,
}

/// A rise: from `place` of a lane on, `count` events of a source lane are reached. An event's place is the number of
/// events of its lane before it ([`Clocks::place`]).
#[derive(Clone, Copy)]
pub struct Rise {
    pub place: u32,
    pub count: u32,
}

/// Why a clock refused a lane or an event.
#[derive(Clone, Copy, Debug, PartialEq, Eq, Error)]
pub enum ClockFault {
    /// [`OPENED_LANES`] lanes were opened.
    #[error("no further lane can be opened")]
    Lanes,
    /// Allocation failed.
    #[error("no memory")]
    NoMemory,
}

impl From<AllocError> for ClockFault {
    ghost from_gives = { λ _ r. r ≡ NoMemory };

    fn from(_e: AllocError) -> ClockFault {
        ClockFault::NoMemory
    }
}

impl<T: Drop> From<AllocFailed<T>> for ClockFault {
    ghost from_gives = { λ _ r. r ≡ NoMemory };

    fn from(_e: AllocFailed<T>) -> ClockFault {
        ClockFault::NoMemory
    }
}

/// The greatest number of lanes of a new clock.
pub const FIRST_LANES: u16 = 256;

/// The greatest number of lanes that can be opened later.
pub const OPENED_LANES: u32 = 192;

/// The greatest number of events.
pub const EVENTS: u32 = 16_777_216;

/// An event, and its place in its lane.
#[derive(Clone, Copy)]
struct PlacedEvent {
    event: Event,
    place: u32,
}

/// A growing list of events in lanes, with queries of which happened before which.
///
/// Lanes and events are numbered from 0 in the order in which they were added. Contracts see the number of lanes, how
/// many of them were opened after the start, and the list of events.
///
/// Memory: 16 bytes for each event. A receive adds 8 bytes for each lane whose count it raises, at most twice that
/// with unused capacity; a column has no more rises than its source lane has events. A lane that receives has a
/// column of 24 bytes and a last count of 4 for each lane, 5.6 MB in all if 448 lanes receive.
///
/// Time: a receive compares one count for each lane. It searches the columns of the sender's lane only if that lane's
/// last counts are greater than the receiver's. A search or a query takes O(log n) time for n rises of one column
/// after the place, and O(1) time if no column has any.
#[derive(Drop)]
pub struct Clocks {
    alloc: Global,
    placed_events: Vec<PlacedEvent>,
    lanes: Vec<LaneColumns>,
    opened: u32,
}

impl Model for Clocks {
    ghost use Rattle.causal_clock.specs.Timeline.{Timeline};

    ghost Value = { Timeline };

    ghost use Rattle.causal_clock.specs.Inside.Fields.{timeline_of, IsClock};

    ghost view = { timeline_of };

    ghost invariant = { IsClock };
}

impl Clocks {
    /// Returns a clock with `lanes` lanes, from 1 to [`FIRST_LANES`], and no events. Its only error is
    /// [`ClockFault::NoMemory`].
    pub fn new(alloc: Global, lanes: u16) -> Result<Self, ClockFault>
        requires some { 1 ≤ lanes }
        requires few { lanes ≤ FIRST_LANES }
        ensures ok { IfOk result (λ clocks. clocks ≡
            record { lanes = lanes; opened = 0; events = [] }) }
        ensures refusal { IfErr result (λ fault. fault ≡ ClockFault.NoMemory) }
    {
        let count = usize::from(lanes);
        Ok(Self {
            alloc,
            placed_events: Vec::new(alloc),
            lanes: first_lanes(alloc, count)?,
            opened: 0,
        })
    }

    /// Returns the number of events, at most [`EVENTS`].
    pub fn len(&self) -> u32
        ensures counted { result ≡ length self.now.events }
        ensures few { result ≤ EVENTS }
    {
        self.placed_events.len() as u32
    }

    /// Returns the number of lanes, at most [`FIRST_LANES`] + [`OPENED_LANES`]. There are at most [`EVENTS`] events.
    pub fn lanes(&self) -> u32
        ensures counted { result ≡ self.now.lanes }
        ensures few { result ≤ FIRST_LANES + OPENED_LANES }
        ensures short { length self.now.events ≤ EVENTS }
    {
        self.lanes.len() as u32
    }

    /// Returns the lane of an event, which must exist.
    #[tactic(auto, using(crate::proofs::Fields::tells_event))]
    pub fn lane(&self, event: u32) -> u32
        requires { event < length self.now.events }
        ensures value { result ≡ lane_of self.now.events event }
        ensures within { result < self.now.lanes }
        ensures few { self.now.lanes ≤ FIRST_LANES + OPENED_LANES }
    {
        self.placed_events[event as usize].event.lane
    }

    /// Returns the place of an event, which must exist: how many events of its lane precede it.
    #[tactic(auto, using(crate::proofs::Fields::tells_event))]
    pub fn place(&self, event: u32) -> u32
        requires { event < length self.now.events }
        ensures { result ≡ lane_place self.now.events event }
    {
        self.placed_events[event as usize].place
    }

    /// Opens one more lane and returns its number, which is the number of lanes before.
    ///
    /// # Errors
    ///
    /// [`ClockFault::Lanes`] if [`OPENED_LANES`] lanes were opened, else [`ClockFault::NoMemory`] if out of memory.
    /// An error changes nothing.
    pub fn open_lane(&mut self) -> Result<u32, ClockFault>
        ensures number { IfOk result (λ lane. lane ≡ self.old.lanes) }
        ensures opened { OnOk result (self.new ≡ with_lane self.old) }
        ensures unchanged { OnErr result (self.new ≡ self.old) }
        ensures lanes { (result ≡ Err ClockFault.Lanes) ↔ (OPENED_LANES ≤ self.old.opened) }
    {
        if self.opened >= OPENED_LANES {
            return Err(ClockFault::Lanes);
        }
        let lane = self.lanes.len() as u32;
        self.lanes.push(LaneColumns::new(self.alloc))?;
        self.opened += 1;
        Ok(lane)
    }

    /// Appends an event of the lane and returns its number. The lane must exist, and there must be fewer than
    /// [`EVENTS`] events. Its only error is [`ClockFault::NoMemory`], which changes nothing.
    pub fn local(&mut self, lane: u32) -> Result<u32, ClockFault>
        requires lane { lane < self.old.lanes }
        requires room { length self.old.events < EVENTS }
        ensures number { IfOk result (λ event. event ≡ length self.old.events) }
        ensures appended { OnOk result (self.new ≡ with_event self.old
            (record { lane = lane; send = None })) }
        ensures unchanged { OnErr result (self.new ≡ self.old) }
        ensures refusal { IfErr result (λ fault. fault ≡ ClockFault.NoMemory) }
    {
        self.placed_events.reserve(1)?;
        Ok(append(
            &mut self.placed_events,
            &mut self.lanes[lane as usize],
            Event { lane, send: None },
        ))
    }

    /// Appends an event of the lane that receives what event `send_event` sent, and returns its number. The lane and
    /// that event must exist, and there must be fewer than [`EVENTS`] events. Its only error is
    /// [`ClockFault::NoMemory`], which changes nothing.
    pub fn receive(&mut self, lane: u32, send_event: u32) -> Result<u32, ClockFault>
        requires lane { lane < self.old.lanes }
        requires sent { send_event < length self.old.events }
        requires room { length self.old.events < EVENTS }
        ensures number { IfOk result (λ event. event ≡ length self.old.events) }
        ensures appended { OnOk result (self.new ≡
            with_event self.old (receiving lane send_event)) }
        ensures unchanged { OnErr result (self.new ≡ self.old) }
        ensures refusal { IfErr result (λ fault. fault ≡ ClockFault.NoMemory) }
    {
        let sent = self.placed_events[send_event as usize];
        let count = self.lanes();
        let from = &self.lanes[sent.event.lane as usize];
        let to = &self.lanes[lane as usize];
        let counts = counts_for(self.alloc, from, sent, to, lane, count)?;
        self.placed_events.reserve(1)?;
        let own = &mut self.lanes[lane as usize];
        own.reserve_counts(self.alloc, counts.as_slice())?;
        own.append_counts(counts.as_slice());
        let event = Event {
            lane,
            send: Some(send_event),
        };
        Ok(append(&mut self.placed_events, own, event))
    }

    /// Returns whether event i is event j or happened before it. Both must exist.
    #[tactic(auto, using(crate::proofs::Fields::tells_event))]
    pub fn precedes(&self, i: u32, j: u32) -> bool
        requires earlier { i < length self.now.events }
        requires later { j < length self.now.events }
        ensures { IsTrue result ↔ Precedes self.now.events i j }
    {
        let first = self.placed_events[i as usize];
        first.place < self.reach(j, first.event.lane)
    }

    /// Returns how many events of the lane precede or equal the event; they are the lane's first ones. The event and
    /// the lane must exist.
    #[tactic(auto, using(crate::proofs::Fields::tells_event))]
    pub fn reach(&self, event: u32, lane: u32) -> u32
        requires event { event < length self.now.events }
        requires lane { lane < self.now.lanes }
        ensures { FirstReach self.now.events event lane result }
    {
        let entry = self.placed_events[event as usize];
        if entry.event.lane == lane {
            entry.place + 1
        } else {
            self.lanes[entry.event.lane as usize].count_at(lane, entry.place)
        }
    }

    /// Returns the rises of a lane by a source, which is another lane: the places and values at which the result of
    /// [`Clocks::reach`] increases along the lane. Both lanes must exist. Takes O(1) time.
    pub fn rises(&self, lane: u32, source: u32) -> &[Rise]
        requires lane { lane < self.now.lanes }
        requires source { source < self.now.lanes }
        requires other_lane { source ≢ lane }
        ensures { AreRises self.now.events lane source result.now }
    {
        self.lanes[lane as usize].rises(source)
    }
}

// Returns `count` lanes without events.
fn first_lanes(alloc: Global, count: usize) -> Result<Vec<LaneColumns>, AllocError>
    ensures { IfOk result (λ lanes. AreEmpty lanes.items count) }
{
    let mut lanes = Vec::with_capacity(alloc, count)?;
    for _ in 0..count {
        lanes.push(LaneColumns::new(alloc))?;
    }
    Ok(lanes)
}

// Returns for each of `lanes` lanes how many of its events reach `sent`, an event of the lane `from`. These are the
// counts of a receive by the lane `to`, whose number is `own`. A count that is no greater than the one known to `to`
// may be less, and the count of `own` is 0, since no lane has a column for itself.
fn counts_for(
    alloc: Global,
    from: &LaneColumns,
    sent: PlacedEvent,
    to: &LaneColumns,
    own: u32,
    lanes: u32,
) -> Result<Vec<u32>, AllocError>
    requires place { sent.place + 1 < EVENTS }
    requires strictly { AllStrict from.now }
    ensures count { IfOk result (λ counts. length counts.items ≡ lanes) }
    ensures own { IfOk result (λ counts. slice_index counts.items own ≡ 0) }
    ensures each { IfOk result (λ counts. (source : ℕ) → source < lanes → source ≢ own →
        SameOrNoNews (slice_index to.now.row.items source) (slice_index counts.items source)
        (count_at_event (rises_in from.now) sent source)) }
{
    let mut counts = Vec::with_capacity(alloc, lanes as usize)?;
    for source in 0..lanes {
        counts.push(if source == own {
            0
        } else {
            count_for(from, sent, source, to.last_count(source))
        })?;
    }
    Ok(counts)
}

// Returns how many events of one lane reach `sent`, if they are more than `known`; else any number up to `known`.
fn count_for(from: &LaneColumns, sent: PlacedEvent, source: u32, known: u32) -> u32
    requires place { sent.place + 1 < EVENTS }
    requires strictly { RisesStrictly (column_in (rises_in from.now) source) }
    ensures { SameOrNoNews known result (count_at_event (rises_in from.now) sent source) }
{
    if sent.event.lane == source {
        sent.place + 1
    } else {
        from.count_if_greater(source, sent.place, known)
    }
}

// Appends an event of the lane, in reserved capacity, and returns its number.
fn append(entries: &mut Vec<PlacedEvent>, lane: &mut LaneColumns, event: Event) -> u32
    requires place { lane.old.events < EVENTS }
    requires few { vec_len entries.old < EVENTS }
    requires room { vec_len entries.old < vec_capacity entries.old }
    ensures number { result ≡ vec_len entries.old }
    ensures appended { entries.new.items ≡
        entries.old.items ++ record { event = event; place = lane.old.events } ∷ [] }
    ensures counted { lane.new.events ≡ lane.old.events + 1 }
    ensures same { rises_in lane.new ≡ rises_in lane.old }
{
    let number = entries.len() as u32;
    let place = lane.events;
    entries.push_reserved(PlacedEvent { event, place });
    lane.events += 1;
    number
}
