//! Writing into a caller's buffer.
ghost use Rattle.std.specs.Prelude.{◌≡◌, ◌++◌, take, drop, length};
ghost use Rattle.nixu_boundary.specs.Buffers.{IsCopiedOut};

/// Copies as much of `text` as fits to the front of `out`, and sets `needed` to the text's length.
pub fn copy_out(text: &[u8], out: &mut [u8], needed: &mut usize)
    ensures { IsCopiedOut text.now out.old out.new needed.new }
{
    let fitting = out.len().min(text.len());
    out[..fitting].copy_from_slice(&text[..fitting]);
    *needed = text.len();
}

/// Copies as many of the numbers as fit to the front of `out`, and sets `needed` to their number.
pub fn copy_numbers(numbers: &[u32], out: &mut [u32], needed: &mut usize)
    ensures { IsCopiedOut numbers.now out.old out.new needed.new }
{
    let fitting = out.len().min(numbers.len());
    out[..fitting].copy_from_slice(&numbers[..fitting]);
    *needed = numbers.len();
}
