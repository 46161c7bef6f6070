//! A source in its layout, and whether it has another.
ghost use Rattle.std.specs.Prelude.{◌≡◌, ◌≢◌, IfOk, MatchOption};
ghost use Rattle.everyday_fmt.specs.Layouts as spec;

use crate::options::FmtOptions;
use source_format::formatted_source;
use source_kept_lines::repaired_source;
use std::alloc::{AllocError, Global};

/// A source in its layout.
///
/// # Errors
/// Out of memory.
pub(crate) fn laid(alloc: Global, options: FmtOptions, source: &[u8]) -> Result<Vec<u8>, AllocError>
    ensures { IfOk result (λ text. text.items ≡ spec.laid options source.now) }
{
    if options.keep {
        repaired_source(alloc, options.width, source)
    } else {
        formatted_source(alloc, options.width, source)
    }
}

/// A source in its layout, if it has another.
///
/// # Errors
/// Out of memory.
pub(crate) fn changed_text(
    alloc: Global,
    options: FmtOptions,
    source: &[u8],
) -> Result<Option<Vec<u8>>, AllocError>
    ensures { IfOk result (λ changed. MatchOption changed (spec.laid options source.now ≡ source.now)
        (λ text. (text.items ≡ spec.laid options source.now) × (spec.laid options source.now ≢ source.now))) }
{
    let text = laid(alloc, options, source)?;
    if text.as_slice() == source {
        return Ok(None);
    }
    Ok(Some(text))
}
