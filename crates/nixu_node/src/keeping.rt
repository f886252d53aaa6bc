//! What the last call has kept, besides a line: a parcel, a body, a list of determinants.
ghost use Rattle.std.specs.Prelude.{◌≡◌, ◌⊎◌, ◌↔◌, None};
ghost use Rattle.nixu_boundary.specs.Buffers.{IsCopiedOut, IsUntouched};
ghost use Rattle.nixu_boundary.specs.Determinants.{AreCopiedOut};
ghost use Rattle.nixu_node.specs.OpenNodes.{OfNode};
ghost use Rattle.nixu_node.specs.Keeping.{kept_parcel, body_of, listed_of};

use crate::handle::NodeHandle;
use crate::open_node::Kept;
use causal_endpoint::receiving::Received;
use causal_name::Det;
use nixu_boundary::buffer::copy_out;
use nixu_boundary::c_determinant::{CDeterminant, copy_dets};
use nixu_boundary::content_owner::ContentOwner;
use nixu_boundary::status::{CLOSED, OK};
use std::alloc::Global;

impl Kept {
    /// Returns the parcel; empty if there is none.
    fn parcel(&self) -> &[u8]
        ensures { result.now ≡ kept_parcel self.now }
    {
        match self {
            Kept::Sent(_, sent) => sent.bytes.as_slice(),
            Kept::Received(Received::Question(_, reply)) => reply.as_slice(),
            Kept::Parcel(parcel) => parcel.as_slice(),
            _ => &[],
        }
    }

    /// Returns the body; empty if there is none.
    fn body(&self) -> &[u8]
        ensures { result.now ≡ body_of self.now }
    {
        match self {
            Kept::Received(Received::Message(delivered)) => delivered.body.as_slice(),
            _ => &[],
        }
    }

    /// Returns the determinants that are listed; empty if there are none.
    fn listed(&self) -> &[Det]
        ensures { result.now ≡ listed_of self.now }
    {
        match self {
            Kept::Received(Received::Message(delivered)) => delivered.listed.as_slice(),
            Kept::Restarted(restarted) => restarted.listed.as_slice(),
            Kept::Forgotten(forgotten) => forgotten.listed.as_slice(),
            _ => &[],
        }
    }
}

/// Writes the parcel that the last call has kept: as much of it as fits to `out`, and its whole length to `needed`.
///
/// Returns [`OK`]; or [`CLOSED`] if no node is open, and nothing is written.
#[unsafe(no_mangle)]
pub extern "C" fn nixu_node_parcel(
    alloc: Global,
    node: &mut NodeHandle,
    out: &mut [u8],
    needed: &mut usize,
) -> u32
    ensures ok { result ≡ OK → OfNode node.old.held.value
        (λ o. IsCopiedOut (kept_parcel o.kept) out.old out.new needed.new) }
    ensures closed { (result ≡ CLOSED) ↔ (node.old.held.value ≡ None) }
    ensures node_unchanged { node.new.held.value ≡ node.old.held.value }
    ensures unchanged { result ≡ CLOSED → IsUntouched out.old out.new needed.old needed.new }
    ensures status { (result ≡ OK) ⊎ (result ≡ CLOSED) }
{
    let Some(open) = node.take(alloc) else {
        return CLOSED;
    };
    copy_out(open.kept.parcel(), out, needed);
    node.fill(open);
    OK
}

/// Writes the body of the message that was delivered, as [`nixu_node_parcel`] writes a parcel.
///
/// Returns its statuses.
#[unsafe(no_mangle)]
pub extern "C" fn nixu_node_body(
    alloc: Global,
    node: &mut NodeHandle,
    out: &mut [u8],
    needed: &mut usize,
) -> u32
    ensures ok { result ≡ OK → OfNode node.old.held.value
        (λ o. IsCopiedOut (body_of o.kept) out.old out.new needed.new) }
    ensures closed { (result ≡ CLOSED) ↔ (node.old.held.value ≡ None) }
    ensures node_unchanged { node.new.held.value ≡ node.old.held.value }
    ensures unchanged { result ≡ CLOSED → IsUntouched out.old out.new needed.old needed.new }
    ensures status { (result ≡ OK) ⊎ (result ≡ CLOSED) }
{
    let Some(open) = node.take(alloc) else {
        return CLOSED;
    };
    copy_out(open.kept.body(), out, needed);
    node.fill(open);
    OK
}

/// Writes the determinants that a delivery, a restart or a forgetting lists: as many as fit to `out`, and their number
/// to `needed`.
///
/// Returns [`OK`]; or [`CLOSED`] if no node is open, and nothing is written.
#[unsafe(no_mangle)]
pub extern "C" fn nixu_node_listed(
    alloc: Global,
    node: &mut NodeHandle,
    out: &mut [CDeterminant],
    needed: &mut usize,
) -> u32
    ensures ok { result ≡ OK → OfNode node.old.held.value
        (λ o. AreCopiedOut (listed_of o.kept) out.old out.new needed.new) }
    ensures closed { (result ≡ CLOSED) ↔ (node.old.held.value ≡ None) }
    ensures node_unchanged { node.new.held.value ≡ node.old.held.value }
    ensures unchanged { result ≡ CLOSED → (out.new ≡ out.old) × (needed.new ≡ needed.old) }
    ensures status { (result ≡ OK) ⊎ (result ≡ CLOSED) }
{
    let Some(open) = node.take(alloc) else {
        return CLOSED;
    };
    copy_dets(open.kept.listed(), out, needed);
    node.fill(open);
    OK
}
