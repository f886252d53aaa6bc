//! The caption of a picture: the verdict and the bound f.
ghost use Rattle.std.specs.Prelude.{◌≡◌, string_bytes};
ghost use Rattle.std.specs.Option.{option_copied};
ghost use Rattle.causal_picture.specs.Pictures as pictures;
ghost use Rattle.causal_picture.specs.Writes.{Adds, Extends};

use crate::focus::Focus;
use causal_trace::entry::line_at;
use std::alloc::AllocError;

/// The word of the verdict. Without a focus the run is safe; without an orphan too many processes are down.
fn focus_word(focus: Option<&Focus<'_>>) -> &'static str
    ensures { result.now ≡ pictures.focus_word (option_copied focus.entry) }
{
    match focus {
        Some(focus) => match &focus.orphan {
            Some(_) => "orphan",
            None => "exceeded",
        },
        None => "accept",
    }
}

/// Appends the verdict with its bound: `orphan f=1`.
pub fn push_verdict(
    out: &mut String,
    faults: u16,
    focus: Option<&Focus<'_>>,
) -> Result<(), AllocError>
    ensures { Adds result (string_bytes out.old) (string_bytes out.new)
        (pictures.verdict_text faults (option_copied focus.entry)) }
{
    let word = focus_word(focus);
    write!(out, "{word} f={faults}")
}

/// Appends the rest of the caption: `: process 2 depends on the delivery of line 3`.
pub fn push_reason(out: &mut String, focus: Option<&Focus<'_>>) -> Result<(), AllocError>
    ensures { Extends result out.old out.new }
{
    match focus {
        Some(focus) => match &focus.orphan {
            Some(orphan) => {
                let (process, line) = (orphan.process, line_at(orphan.delivery));
                write!(
                    out,
                    ": process {process} depends on the delivery of line {line}</text>\n"
                )
            }
            None => write!(out, ": the shaded processes are down</text>\n"),
        },
        None => write!(out, ": no delivery has an orphan</text>\n"),
    }
}
