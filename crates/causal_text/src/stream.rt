//! Reading a trace from a byte source, piece by piece.
ghost use Rattle.std.specs.Prelude.{◌≡◌, ◌≢◌, ◌++◌, ◌<◌, List, [], ℕ, length, Ok, Err, IfOk, IfErr, IfSome, OnErr};
ghost use Rattle.std.specs.Io.KnownBytes.{Consumes};
ghost use Rattle.causal_trace.specs.Rows.{Recording};
ghost use Rattle.causal_text.specs.Inside.Contexts.{HasTrueContextAfter};
ghost use Rattle.causal_text.specs.Spelling.{Spells, IsReadAt};
ghost use Rattle.causal_text.specs.Streams.{HasRead, HasReadWithin, IsReading, HasPiece, IsProgressOf, FoundEnd, IsFaultAfter, HasExplainedFault, HasNoMemoryLine, ExplainsFaultOf, IsNoMemoryLineOf, trace_of_state, IsTraceOfState};

use crate::context_reading::{ReadError, read_within};
use crate::reader::PieceReader;
use causal_line::kind::{TextFault, TextKind};
use causal_line::text_refusal::TextRefusal;
use causal_line::trace_builder::TraceBuilder;
use causal_trace::limits::{DEFAULT_LIMITS, Limits};
use causal_trace::trace::Trace;
use std::alloc::Global;
use std::io::Read;
use std::marker::Model;
use std::mem;
use thiserror::Error;

// how many bytes one call requests from the source
pub(crate) const PIECE: usize = 4096;

/// The state of a reader: within the text, after its end with the trace, or after an error.
#[derive(Drop)]
pub(crate) enum State {
    Reading(PieceReader),
    Ended(TraceBuilder),
    Failed,
}

/// Whether the text continues.
#[derive(Clone, Copy, Debug, PartialEq, Eq)]
pub enum Progress {
    /// A piece of at least one byte was read.
    More,
    /// The text has ended and spells a trace.
    Ended,
}

/// Why no trace was read.
#[derive(Clone, Copy, Debug, PartialEq, Eq, Error)]
pub enum ReaderFault {
    /// The source returned an error, of any kind.
    #[error("reading failed")]
    Read,
    /// The bytes read are not a trace.
    #[error(transparent)]
    Text(TextFault),
    /// An earlier call failed.
    #[error("an earlier call failed")]
    Failed,
    /// The text has not ended.
    #[error("the text has not ended")]
    Unfinished,
}

// returns the state after one more piece; an empty piece is the end of the text
pub(crate) fn push_piece(
    alloc: Global,
    limits: Limits,
    pieces: PieceReader,
    piece: &[u8],
) -> Result<State, TextRefusal>
    ensures ok { IfOk result
        (λ s. (b : List ℕ) → HasReadWithin limits.entries (State.Reading pieces) b
        → HasReadWithin limits.entries s (b ++ piece.now)) }
    ensures err { IfErr result (λ rejected. rejected.fault.kind ≢ TextKind.NoMemory
        → (b : List ℕ) → HasReadWithin limits.entries (State.Reading pieces) b
        → IsFaultAfter limits.entries piece.now (b ++ piece.now) rejected.fault) }
    ensures memory { IfErr result (λ rejected. rejected.fault.kind ≡ TextKind.NoMemory
        → (b : List ℕ) → HasReadWithin limits.entries (State.Reading pieces) b
        → IsReadAt limits.entries (b ++ piece.now) rejected.fault.line) }
    ensures before { IfErr result
        (λ rejected. (b : List ℕ) → HasReadWithin limits.entries (State.Reading pieces) b
        → HasTrueContextAfter limits.entries piece.now (b ++ piece.now) rejected) }
    ensures more { 0 < length piece.now → IfOk result (IsProgressOf Progress.More) }
    ensures ended { length piece.now ≡ 0 → IfOk result (IsProgressOf Progress.Ended) }
{
    if piece.is_empty() {
        Ok(State::Ended(pieces.end(alloc, limits)?))
    } else {
        Ok(State::Reading(pieces.feed(alloc, limits, piece)?))
    }
}

/// Reads a trace from a byte source, one piece at a time, under the default limits. It buffers only the partial line
/// and the trace, and no byte of a line that is too long or follows the end line. After an error, each call returns
/// `Failed`.
#[derive(Drop)]
pub struct TraceReader<R: Drop> {
    source: R,
    alloc: Global,
    state: State,
}

impl<R: Drop> Model for TraceReader<R> {
    ghost use Rattle.causal_text.specs.Streams.{ReaderState};

    ghost Value = { ReaderState R };

    ghost view = { λ r. record { source = r.source; state = r.state } };
}

impl<R: Read + Drop> TraceReader<R> {
    /// Returns a reader that has read nothing.
    pub fn new(alloc: Global, source: R) -> TraceReader<R>
        ensures source { result.source ≡ source }
        ensures read { HasRead result.state [] }
        ensures reading { IsReading result.state }
    {
        TraceReader {
            source,
            alloc,
            state: State::Reading(PieceReader::new(alloc)),
        }
    }

    // reads the next piece within the text
    fn read_piece(&mut self, pieces: PieceReader) -> Result<Progress, ReaderFault>
        requires { self.old.state ≡ State.Failed }
        ensures ok { IfOk result (λ progress. (piece : List ℕ)
            × Consumes (R.remaining self.old.source) (R.remaining self.new.source) piece
            × HasPiece progress piece
            × ((b : List ℕ) → HasRead (State.Reading pieces) b →
            HasRead self.new.state (b ++ piece))) }
        ensures follows { IfOk result (λ progress. IsProgressOf progress self.new.state) }
        ensures end { FoundEnd result (R.remaining self.new.source) }
        ensures text { HasExplainedFault result
            (R.remaining self.old.source) (R.remaining self.new.source) (State.Reading pieces) }
        ensures memory { HasNoMemoryLine result
            (R.remaining self.old.source) (R.remaining self.new.source) (State.Reading pieces) }
        ensures failed { OnErr result (self.new.state ≡ State.Failed) }
    {
        let mut buffer = [0u8; PIECE];
        let Ok(n) = self.source.read(&mut buffer) else {
            return Err(ReaderFault::Read);
        };
        match push_piece(self.alloc, DEFAULT_LIMITS, pieces, &buffer[..n]) {
            Ok(state) => {
                self.state = state;
                Ok(if n == 0 {
                    Progress::Ended
                } else {
                    Progress::More
                })
            }
            Err(rejected) => Err(ReaderFault::Text(rejected.into_fault())),
        }
    }

    /// Reads the next piece, by one call of the source for 4,096 bytes. A line is checked when its line feed arrives,
    /// or when the text exceeds its limit or ends; a line after the end line, at its first byte. After `Ended` it
    /// returns `Ended` again and reads nothing.
    ///
    /// # Errors
    /// `Read`, only if the source returned an error. `Text` with the first error of the text, or with `NoMemory`,
    /// only if an allocation failed; the lines before it are correct. `Failed` after an earlier error.
    pub fn next_piece(&mut self) -> Result<Progress, ReaderFault>
        // One more piece was read, which is empty at the end.
        ensures ok { IfOk result (λ progress. (piece : List ℕ)
            × Consumes (R.remaining self.old.source) (R.remaining self.new.source) piece
            × HasPiece progress piece
            × ((b : List ℕ) → HasRead self.old.state b → HasRead self.new.state (b ++ piece))) }
        ensures follows { IfOk result (λ progress. IsProgressOf progress self.new.state) }
        ensures end { IsReading self.old.state → FoundEnd result (R.remaining self.new.source) }
        ensures text { HasExplainedFault result (R.remaining self.old.source)
            (R.remaining self.new.source) self.old.state }
        ensures memory { HasNoMemoryLine result (R.remaining self.old.source)
            (R.remaining self.new.source) self.old.state }
        ensures failed { OnErr result (self.new.state ≡ State.Failed) }
        ensures ended { (r : Recording) → self.old.state ≡ State.Ended r
            → (result ≡ Ok Progress.Ended) × (self.new ≡ self.old) }
        ensures stays_failed { self.old.state ≡ State.Failed → result ≡ Err ReaderFault.Failed }
    {
        match mem::replace(&mut self.state, State::Failed) {
            State::Failed => Err(ReaderFault::Failed),
            State::Ended(trace) => {
                self.state = State::Ended(trace);
                Ok(Progress::Ended)
            }
            State::Reading(pieces) => self.read_piece(pieces),
        }
    }

    /// Returns the trace, if the text has ended.
    ///
    /// # Errors
    /// `Unfinished` if the text has not ended, `Failed` after an earlier error.
    pub fn into_trace(self) -> Result<Trace, ReaderFault>
        ensures ok { IfOk result
            (λ trace. (b : List ℕ) → HasRead self.state b → Spells b trace.recording) }
        ensures value { IsTraceOfState result (trace_of_state self.state) }
    {
        let TraceReader {
            source: _source,
            alloc: _alloc,
            state,
        } = self;
        match state {
            State::Ended(recorded) => Ok(recorded.into_trace()),
            State::Failed => Err(ReaderFault::Failed),
            State::Reading(_) => Err(ReaderFault::Unfinished),
        }
    }
}

/// Returns the trace that the bytes of a source spell, under the default limits. It reads the source to its end, or
/// up to the first error. It requests at most 33,554,434 pieces, since each but the last has a byte.
///
/// # Errors
/// `Read` if the source failed; `Text` with the first error of the text, or with `NoMemory` if an allocation failed.
pub fn read_from<R: Read + Drop>(alloc: Global, mut source: R) -> Result<Trace, ReaderFault>
    ensures ok { IfOk result
        (λ trace. IfSome (R.remaining source) (λ bytes. Spells bytes trace.recording)) }
    ensures err { IfErr result
        (λ fault. IfSome (R.remaining source) (λ bytes. ExplainsFaultOf bytes fault)) }
    ensures memory { IfErr result
        (λ fault. IfSome (R.remaining source) (λ bytes. IsNoMemoryLineOf bytes fault)) }
{
    match read_within(alloc, &mut source, DEFAULT_LIMITS) {
        Ok(trace) => Ok(trace),
        Err(ReadError::Source) => Err(ReaderFault::Read),
        Err(ReadError::Text(rejected)) => Err(ReaderFault::Text(rejected.into_fault())),
    }
}
