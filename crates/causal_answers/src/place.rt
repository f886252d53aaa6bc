//! The line of an entry in its trace's text. Lines count from 1; line 1 is the header.
ghost use Rattle.std.specs.Prelude.{◌≡◌};
ghost use Rattle.causal_answers.specs.Places.{line_before};

/// The line of the last entry before an instant; the header's if there is none.
pub(crate) fn line_before(instant: u32) -> u64
    ensures { result ≡ line_before instant }
{
    u64::from(instant) + 1
}
