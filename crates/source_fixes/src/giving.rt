//! The names that a source can give.
ghost use Rattle.std.specs.Prelude.{◌≡◌, IfOk, filter, map};
ghost use Rattle.source_blocks.specs.Giving.{can_be_given};

use source_blocks::can_be_given;
use std::alloc::{AllocError, Global};

/// Those of some names that a source can give.
///
/// # Errors
/// Out of memory.
pub(crate) fn given_names<'a>(
    alloc: Global,
    names: &[&'a [u8]],
) -> Result<Vec<&'a [u8]>, AllocError>
    ensures { IfOk result (λ found. map (λ name. name.now) found.items ≡ filter can_be_given (map (λ name. name.now) names.now)) }
{
    let mut found = Vec::new(alloc);
    for name in names {
        if can_be_given(alloc, name)? {
            found.push(*name)?;
        }
    }
    Ok(found)
}
