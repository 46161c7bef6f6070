//! Which byte of a string a place of its source text is of.
ghost use Rattle.std.specs.Prelude.{◌≡◌, IfOk};
ghost use Rattle.source_strings.specs.Places as spec;
ghost use Rattle.source_strings.specs.Places.{place_by, spelled_len};

use std::alloc::{AllocError, Global};
use ti_spelling::{UnescapeError, unescape};

// How many bytes a text spells, if it spells any.
fn spelled_len(alloc: Global, text: &[u8]) -> Result<Option<usize>, AllocError>
    ensures { IfOk result (λ len. len ≡ spelled_len text.now) }
{
    match unescape(alloc, text) {
        Ok(found) => Ok(Some(found.bytes.len())),
        Err(UnescapeError::Memory) => Err(AllocError),
        Err(_) => Ok(None),
    }
}

// The place of a byte, by how many bytes are spelled up to it, and before it.
fn place_by(through: Option<usize>, before: Option<usize>) -> Option<usize>
    ensures { result ≡ place_by through before }
{
    match through {
        Some(count) => Some(count.saturating_sub(1)),
        None => before,
    }
}

/// Which byte of a string the byte at an offset of its source text is of; `None` after the text,
/// and if the text before it spells nothing.
///
/// # Errors
/// Out of memory.
pub fn place_in(alloc: Global, raw: &[u8], offset: usize) -> Result<Option<usize>, AllocError>
    ensures { IfOk result (λ place. place ≡ spec.place_in raw.now offset) }
{
    if offset >= raw.len() {
        return Ok(None);
    }
    let through = spelled_len(alloc, &raw[..offset + 1])?;
    let before = spelled_len(alloc, &raw[..offset])?;
    Ok(place_by(through, before))
}
