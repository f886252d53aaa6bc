//! The error messages of recorder files, and possible causes.
ghost use Rattle.std.specs.Prelude.{◌≡◌, option_map};
ghost use Rattle.causal_merge.specs.Hints.{merge_hint_of, line_hint};
ghost use Rattle.causal_merge.specs.Sentences.{line_sentence, sentence_of};

use crate::fault::MergeKind;
use causal_line::kind::TextKind;

impl MergeKind {
    /// Returns the error message of the kind.
    pub fn sentence(self) -> &'static str
        ensures { result.now ≡ sentence_of self }
    {
        match self {
            MergeKind::NoHeader { .. } => "some process has no header",
            MergeKind::Twice => "another line of this process has the same clock",
            MergeKind::Line(kind) => line_sentence(kind),
        }
    }

    /// Returns a possible cause of an error of this kind, for people; None if its sentence is enough.
    pub fn hint(self) -> Option<&'static str>
        ensures { option_map (λ text. text.now) result ≡ merge_hint_of self }
    {
        match self {
            MergeKind::NoHeader { .. } => Some("a recording may be missing"),
            MergeKind::Twice => Some(
                "a recording may stand twice, or a clock fell back at a restart",
            ),
            MergeKind::Line(kind) => line_hint(kind),
        }
    }
}

fn line_sentence(kind: TextKind) -> &'static str
    ensures { result.now ≡ line_sentence kind }
{
    match kind {
        TextKind::Header => "the header differs from the first one",
        kind => kind.sentence(),
    }
}

fn line_hint(kind: TextKind) -> Option<&'static str>
    ensures { option_map (λ text. text.now) result ≡ line_hint kind }
{
    match kind {
        TextKind::Syntax => Some("a line that a kill has cut may run into the next one"),
        TextKind::Header => Some("these may be recordings of two runs"),
        TextKind::NotUp | TextKind::NotDown => Some(
            "it is so by the clocks: a line before it may be missing, or a clock was not carried along",
        ),
        TextKind::WrongSsn | TextKind::WrongRsn => Some("a line before it may be missing"),
        TextKind::NoSend => Some(
            "a recording or its end may be missing, or the send stands behind, since a clock was not carried along",
        ),
        TextKind::NoDelivery => Some(
            "a recording or its end may be missing, or the delivery stands behind, since a clock was not carried along",
        ),
        _ => None,
    }
}
