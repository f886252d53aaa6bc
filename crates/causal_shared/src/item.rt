//! History items: the request and the reply of one call.
use causal_protocol::request::{Reply, Request};
use causal_trace::trace::Trace;
use std::marker::Model;

/// One call of a seat.
#[derive(Clone, Copy)]
pub struct Item {
    /// The number of the calling seat.
    pub seat: u32,
    /// The number of the call among the seat's calls, from 0.
    pub call: u32,
    pub request: Request,
    pub reply: Reply,
    /// The number of entries before the call.
    pub first: u32,
}

/// Items in order. Contracts see their list.
#[derive(Drop)]
pub struct Items {
    items: Vec<Item>,
}

impl Model for Items {
    ghost use Rattle.std.specs.Prelude.{List};
    ghost use Rattle.causal_shared.specs.declared.item.Item.{Item};

    ghost Value = { List Item };

    ghost view = { λ a. a.items.items };
}

impl Items {
    ghost use Rattle.std.specs.Prelude.{◌≡◌};

    /// Wraps the list of a vector.
    pub fn new(items: Vec<Item>) -> Items
        ensures { result ≡ items.items }
    {
        Items { items }
    }

    /// The items in order.
    pub fn as_slice(&self) -> &[Item]
        ensures { result.now ≡ self.now }
    {
        self.items.as_slice()
    }
}

/// The lock's record of a seat.
#[derive(Clone, Copy)]
pub struct SeatRecord {
    /// The number of its items.
    pub count: u32,
    /// The trace length after its last recorded call or snapshot.
    pub seen: u32,
    /// The index of its last item in the history.
    pub last: Option<u32>,
}

/// A copy of the recorded run, made under the lock.
#[derive(Drop)]
pub struct Snapshot {
    /// The trace.
    pub trace: Trace,
    /// The number of history items at that time.
    pub calls: u32,
    /// The core's failure bound f.
    pub faults: u16,
}
