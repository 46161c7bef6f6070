//! A push on a full stack, where no parameters are given.
ghost use Rattle.std.specs.Prelude.{◌≡◌, IfOk};
ghost use Rattle.source_block_hints.specs.Formats.{reading_of};
ghost use Rattle.source_block_hints.specs.Stacks as spec;

use std::alloc::{AllocError, Global};
use ti_param::{ParamError, Statics, Value, expand_output};
use ti_text::limits::{EXTENDED_ENTRY_MAX, PARAMETERS_MAX};

// Where a format finds the stack full that is run with no parameters.
fn full_in_whole(alloc: Global, format: &[u8]) -> Result<Option<usize>, AllocError>
    ensures { IfOk result (λ place. place ≡ spec.full_in_whole (reading_of format.now).stop format.now) }
{
    let mut statics = Statics::new();
    match expand_output(
        alloc,
        format,
        &[Value::Number(0); PARAMETERS_MAX],
        &mut statics,
    ) {
        Ok(_output) => Ok(None),
        Err(ParamError::StackFull(place)) => Ok(Some(place)),
        Err(ParamError::BadFormat(_)) => Ok(None),
        Err(ParamError::Memory) => Err(AllocError),
    }
}

/// The same; a format for which no entry has room is not run, so that it writes no more than an
/// entry can.
///
/// # Errors
/// Out of memory.
pub(crate) fn full_in(alloc: Global, format: &[u8]) -> Result<Option<usize>, AllocError>
    ensures { IfOk result (λ place. place ≡ spec.full_in format.now) }
{
    if format.len() > EXTENDED_ENTRY_MAX {
        return Ok(None);
    }
    full_in_whole(alloc, format)
}
