//! The lines of the recording.
ghost use Rattle.std.specs.Prelude.{◌≡◌, ◌≢◌, ◌⊎◌, ◌↔◌, None, IfOk};
ghost use Rattle.causal_endpoint.specs.Lines.{crash_line};
ghost use Rattle.nixu_boundary.specs.Buffers.{IsCopiedOut, IsUntouched};
ghost use Rattle.nixu_node.specs.OpenNodes.{OfNode};
ghost use Rattle.nixu_node.specs.Structs.{pid};
ghost use Rattle.nixu_node.specs.Lines.{forget_line_unless_empty, kept_line, header_of};

use crate::handle::NodeHandle;
use crate::open_node::Kept;
use causal_endpoint::forgetting::Forgotten;
use causal_endpoint::lines;
use causal_endpoint::receiving::Received;
use causal_name::{NoMemory, Pid};
use nixu_boundary::buffer::copy_out;
use nixu_boundary::content_owner::ContentOwner;
use nixu_boundary::status::{CLOSED, NO_MEMORY, OK};
use std::alloc::Global;

/// Returns the line of a forgetting; empty if it lists no determinant.
fn forget_line(alloc: Global, me: Pid, forgotten: &Forgotten) -> Result<Vec<u8>, NoMemory>
    ensures { IfOk result (λ line. line.items ≡ forget_line_unless_empty me forgotten.now
        forgotten.now.listed.items) }
{
    if forgotten.listed.is_empty() {
        return Ok(Vec::new(alloc));
    }
    lines::forget_line(alloc, me, forgotten)
}

/// Returns the line that a call has kept; empty if there is none.
pub(crate) fn kept_line(alloc: Global, me: Pid, kept: &Kept) -> Result<Vec<u8>, NoMemory>
    ensures { IfOk result (λ line. line.items ≡ kept_line me kept.now) }
{
    match kept {
        Kept::Sent(to, sent) => lines::send_line(alloc, me, *to, sent),
        Kept::Received(Received::Message(delivered)) => lines::deliver_line(alloc, me, delivered),
        Kept::Stored(clock, det) => lines::stable_line(alloc, me, *clock, det),
        Kept::Restarted(restarted) => lines::restart_line(alloc, me, restarted),
        Kept::Forgotten(forgotten) => forget_line(alloc, me, forgotten),
        _ => Ok(Vec::new(alloc)),
    }
}

/// Writes the line of the recording that the last call has kept, with its line feed: as much of it as fits to `out`,
/// and its whole length to `needed`.
///
/// Returns [`OK`]; [`NO_MEMORY`]; or [`CLOSED`] if no node is open. After the last two, nothing is written.
#[unsafe(no_mangle)]
pub extern "C" fn nixu_node_line(
    alloc: Global,
    node: &mut NodeHandle,
    out: &mut [u8],
    needed: &mut usize,
) -> u32
    ensures ok { result ≡ OK → OfNode node.old.held.value (λ o. IsCopiedOut
        (kept_line o.endpoint.node.identity.me o.kept) out.old out.new needed.new) }
    ensures closed { (result ≡ CLOSED) ↔ (node.old.held.value ≡ None) }
    ensures node_unchanged { node.new.held.value ≡ node.old.held.value }
    ensures unchanged { result ≢ OK → IsUntouched out.old out.new needed.old needed.new }
    ensures status { (result ≡ OK) ⊎ ((result ≡ NO_MEMORY) ⊎ (result ≡ CLOSED)) }
{
    let Some(open) = node.take(alloc) else {
        return CLOSED;
    };
    let me = open.endpoint.node().identity().me;
    let status = match kept_line(alloc, me, &open.kept) {
        Ok(line) => {
            copy_out(line.as_slice(), out, needed);
            OK
        }
        Err(NoMemory) => NO_MEMORY,
    };
    node.fill(open);
    status
}

/// Writes the header line of the process's recording, with its line feed, as [`nixu_node_line`] writes a line.
///
/// Returns its statuses.
#[unsafe(no_mangle)]
pub extern "C" fn nixu_node_header(
    alloc: Global,
    node: &mut NodeHandle,
    out: &mut [u8],
    needed: &mut usize,
) -> u32
    ensures ok { result ≡ OK → OfNode node.old.held.value (λ o. IsCopiedOut
        (header_of o.endpoint) out.old out.new needed.new) }
    ensures closed { (result ≡ CLOSED) ↔ (node.old.held.value ≡ None) }
    ensures node_unchanged { node.new.held.value ≡ node.old.held.value }
    ensures unchanged { result ≢ OK → IsUntouched out.old out.new needed.old needed.new }
    ensures status { (result ≡ OK) ⊎ ((result ≡ NO_MEMORY) ⊎ (result ≡ CLOSED)) }
{
    let Some(open) = node.take(alloc) else {
        return CLOSED;
    };
    let identity = open.endpoint.node().identity();
    let run = open.endpoint.run_number();
    let status = match lines::header_line(alloc, identity.me, identity.processes, run) {
        Ok(line) => {
            copy_out(line.as_slice(), out, needed);
            OK
        }
        Err(NoMemory) => NO_MEMORY,
    };
    node.fill(open);
    status
}

/// Writes the line of a crash of `process` at this clock, with its line feed, for whoever has seen the process end.
///
/// Returns [`OK`]; or [`NO_MEMORY`], and nothing is written.
#[unsafe(no_mangle)]
pub extern "C" fn nixu_crash_line(
    alloc: Global,
    process: u8,
    clock: u64,
    out: &mut [u8],
    needed: &mut usize,
) -> u32
    ensures ok { result ≡ OK → IsCopiedOut
        (crash_line (pid process) clock) out.old out.new needed.new }
    ensures unchanged { result ≢ OK → IsUntouched out.old out.new needed.old needed.new }
    ensures status { (result ≡ OK) ⊎ (result ≡ NO_MEMORY) }
{
    match lines::crash_line(alloc, Pid(process), clock) {
        Ok(line) => {
            copy_out(line.as_slice(), out, needed);
            OK
        }
        Err(NoMemory) => NO_MEMORY,
    }
}
