//! More bytes of a text, read by the calling thread while other workers parse chunks of them.
ghost use Rattle.std.specs.Prelude.{◌<◌};
ghost use Rattle.std.specs.Arc.{arc_value};
ghost use Rattle.causal_reading.specs.Inside.Feeding.{IsFedBy};
ghost use Rattle.causal_reading.specs.Inside.PartReading.{IsReadFrom};

use crate::chunks::UNDIVIDED;
use crate::shared_chunk::feed_here;
use crate::shared_chunks::{PartlyRead, SharedChunks};
use causal_text::{PushReader, TextRefusal};
use std::alloc::Global;
use std::sync::Arc;
use std::thread::{Threads, join};

/// Reads one more piece. Several workers parse it if it is long.
pub(crate) fn feed_by<R: Threads>(
    rt: &R,
    alloc: Global,
    reader: PushReader,
    piece: &[u8],
    workers: u32,
) -> Result<PushReader, TextRefusal>
    ensures { IsFedBy reader piece.now result }
{
    if piece.len() <= UNDIVIDED {
        return feed_here(reader, piece);
    }
    let Some(shared) = SharedChunks::of(alloc, piece) else {
        return feed_here(reader, piece);
    };
    let Ok(shared) = Arc::new(alloc, shared) else {
        return feed_here(reader, piece);
    };
    // The closure owns a share, since nothing is known of what one returns that only borrows the chunks.
    let Ok(own) = Arc::try_clone(&shared) else {
        return feed_here(reader, piece);
    };
    let others = (workers as usize)
        .min(shared.chunks.len())
        .saturating_sub(1);
    let read = move || -> PartlyRead
        ensures { IsReadFrom reader (arc_value own.entry).chunks.items result }
    { own.read_ready(alloc, reader) };
    let begun = with_workers(rt, alloc, &shared, others, read);
    shared.read_rest(alloc, begun)
}

/// Does the calling thread's work while this many other workers, each in a thread of its own, parse chunks.
#[cycle(readers)]
fn with_workers<R: Threads, W: FnOnce() -> PartlyRead>(
    rt: &R,
    alloc: Global,
    shared: &SharedChunks<'_>,
    others: usize,
    work: W,
) -> PartlyRead
    requires { W.pre work }
    ensures { W.post work result }
{
    if others == 0 {
        return work();
    }
    let parse = move || shared.parse_rest(alloc);
    let rest = move || -> PartlyRead
        requires { (0 < others) × W.pre work }
        ensures { W.post work result }
    { with_workers(rt, alloc, shared, others - 1, work) };
    let (_, begun) = join(rt, parse, rest);
    begun
}
