//! Fixed words in the picture.
ghost use Rattle.std.specs.Prelude.{◌≡◌, ◌++◌, OnOk, string_bytes};

use std::alloc::AllocError;

// One clause, since it makes the callers' proofs cheaper than the five of `String::push_str`.
/// Appends the words.
pub fn push_words(out: &mut String, words: &str) -> Result<(), AllocError>
    ensures { OnOk result (string_bytes out.new ≡ string_bytes out.old ++ words.now) }
{
    out.push_str(words)
}
