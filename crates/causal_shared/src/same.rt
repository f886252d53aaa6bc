//! Equality of items and entries.
ghost use Rattle.std.specs.Prelude.{◌≡◌, ◌↔◌, IsTrue};

use crate::item::Item;
use causal_protocol::request::{Reply, Request};
use causal_trace::entry::Entry;

fn same_request(a: &Request, b: &Request) -> bool
    ensures { IsTrue result ↔ (a.now ≡ b.now) }
{
    a == b
}

fn same_reply(a: &Reply, b: &Reply) -> bool
    ensures { IsTrue result ↔ (a.now ≡ b.now) }
{
    a == b
}

/// Returns whether the items are equal.
pub(crate) fn same_item(a: &Item, b: &Item) -> bool
    ensures { IsTrue result ↔ (a.now ≡ b.now) }
{
    a.seat == b.seat
        && a.call == b.call
        && same_request(&a.request, &b.request)
        && same_reply(&a.reply, &b.reply)
        && a.first == b.first
}

/// Returns whether the entries are equal.
pub(crate) fn same_entries(a: &[Entry], b: &[Entry]) -> bool
    ensures { IsTrue result ↔ (a.now ≡ b.now) }
{
    a == b
}
