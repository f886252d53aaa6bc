//! Reading a trace from a byte source, with the context of an error.
ghost use Rattle.std.specs.Prelude.{IfOk, IfErr, IfSome};
ghost use Rattle.causal_text.specs.Spelling.{SpellsWithin};
ghost use Rattle.causal_text.specs.FaultContexts.{ExplainsReadErrorWithin};
ghost use Rattle.causal_text.specs.Streams.{StopsOnceDecided};

use crate::push_reader::PushReader;
use crate::stream::PIECE;
use causal_line::stage::max_text_len;
use causal_line::text_refusal::TextRefusal;
use causal_trace::limits::Limits;
use causal_trace::trace::Trace;
use std::alloc::Global;
use std::io::Read;

/// Why no trace was read.
#[derive(Drop)]
pub enum ReadError {
    /// The source returned an error, of any kind.
    Source,
    /// The bytes read are not a trace.
    Text(TextRefusal),
}

/// Returns the trace that the bytes of a source spell, within the limits: a trace has at most `limits.entries` entries,
/// and 16 times as many listed determinants; a text has at most 512 times as many bytes. It uses memory for what it
/// reads, not for the limits. It reads pieces of at most 4,096 bytes, to the end of the source or to the piece that has
/// the first error.
///
/// # Errors
/// `Source` if the source failed; `Text` with the first error of the text and its context, the trace of the lines before
/// and the parsed faulty line; or with `NoMemory` if an allocation failed.
pub fn read_within<R: Read>(
    alloc: Global,
    source: &mut R,
    limits: Limits,
) -> Result<Trace, ReadError>
    ensures ok { IfOk result (λ trace. IfSome (R.remaining source.old)
        (λ text. SpellsWithin limits.entries text trace.recording)) }
    ensures err { IfErr result (λ unread. IfSome (R.remaining source.old)
        (λ text. ExplainsReadErrorWithin limits.entries text unread)) }
    ensures stops { StopsOnceDecided limits.entries
        (R.remaining source.old) (R.remaining source.new) }
{
    let mut reader = PushReader::within(alloc, limits);
    let mut buffer = [0u8; PIECE];
    for _i in 0..max_text_len(limits) + 2 {
        let Ok(n) = source.read(&mut buffer) else {
            return Err(ReadError::Source);
        };
        if n == 0 {
            return match reader.finish() {
                Ok(trace) => Ok(trace),
                Err(rejected) => Err(ReadError::Text(rejected)),
            };
        }
        match reader.feed(&buffer[..n]) {
            Ok(next) => reader = next,
            Err(rejected) => return Err(ReadError::Text(rejected)),
        }
    }
    unreachable!()
}
