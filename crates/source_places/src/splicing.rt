//! A text with a part of it exchanged.
ghost use Rattle.std.specs.Prelude.{◌≡◌, IfOk};
ghost use Rattle.source_places.specs.Splicing as spec;

use std::alloc::{AllocError, Global};

/// The text with its bytes from `start` to before `end` exchanged for `new`. An end before the
/// start is the start, and an offset past the end of the text is its end.
///
/// # Errors
/// Out of memory.
pub fn spliced(
    alloc: Global,
    text: &[u8],
    start: usize,
    end: usize,
    new: &[u8],
) -> Result<Vec<u8>, AllocError>
    ensures { IfOk result (λ all. all.items ≡ spec.spliced text.now start end new.now) }
{
    let front = &text[..start.min(text.len())];
    let back = &text[start.max(end).min(text.len())..];
    let mut all = Vec::new(alloc);
    all.extend_from_slice(front)?;
    all.extend_from_slice(new)?;
    all.extend_from_slice(back)?;
    Ok(all)
}
