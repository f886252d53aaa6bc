//! The command `audit` within the default limits.
ghost use Rattle.std.specs.Prelude.{◌≡◌, ◌≤◌};
ghost use Rattle.causal_text.specs.Streams.{StopsWithin};
ghost use Rattle.causal_reading.specs.Reads.{max_read};
ghost use Rattle.causal_trace.specs.Limits.{default_entries};
ghost use Rattle.causal_commands.specs.PrintedAnswers.{WritesFor};

use crate::question::{Question, answer_question};
use causal_facts::Form;
use causal_outcomes::Ended;
use causal_trace::limits::DEFAULT_LIMITS;
use causal_workers::Gate;
use std::alloc::Global;
use std::io::{Read, Write};
use std::rt::Clock;
use std::sync::Wait;
use std::thread::Threads;

/// Reads the text of a trace within the default limits, audits it for f by 1 to 64 workers, and writes one line: the
/// verdict, or the text's first error. The ending reports a failure of the reader, the writer, an allocation or a
/// thread start. With one worker it is never `NoWorker`.
///
/// The text is read in pieces, of 4,096 bytes with one worker and otherwise as `read_by` reads it, to its end or to the
/// piece with its first error.
pub fn audit_stream<R: Threads + Wait + Clock, I: Read, O: Write, G: Gate + Sync>(
    rt: &R,
    alloc: Global,
    input: &mut I,
    output: &mut O,
    f: u16,
    workers: u32,
    gate: &G,
) -> Ended
    requires { (1 ≤ workers) × (workers ≤ 64) }
    ensures writes { WritesFor default_entries Form.Lines (Question.Verdict f workers)
        (I.remaining input.old) result (O.contents output.old) (O.contents output.new) }
    ensures stops { StopsWithin default_entries (max_read workers)
        (I.remaining input.old) (I.remaining input.new) }
    ensures one_worker { result ≡ Ended.NoWorker → 2 ≤ workers }
{
    let (question, form) = (Question::Verdict { faults: f, workers }, Form::Lines);
    answer_question(
        rt,
        alloc,
        input,
        output,
        DEFAULT_LIMITS,
        question,
        form,
        gate,
    )
    .ended
}
