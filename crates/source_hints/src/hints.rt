//! All hints on a block.
ghost use Rattle.std.specs.Prelude.{◌≡◌, IfOk};
ghost use Rattle.source_hints.specs.Hints.{hints_of};

use crate::merging::merged;
use crate::unknown::unknown_names;
use source_block_hints::{Hint, hints_of_block};
use std::alloc::{AllocError, Global};

/// The hints on a block, in the order in which they begin. If it may have user-defined
/// capabilities, those on unknown names are among them; if not, such names are faults.
///
/// # Errors
/// Out of memory.
pub fn hints_of(alloc: Global, user_defined: bool, block: &[u8]) -> Result<Vec<Hint>, AllocError>
    ensures { IfOk result (λ hints. hints.items ≡ hints_of user_defined block.now) }
{
    let hints = hints_of_block(alloc, block)?;
    if !user_defined {
        return Ok(hints);
    }
    let unknown = unknown_names(alloc, block)?;
    merged(alloc, &hints, &unknown)
}
