//! The `^` at the end of a string that takes nothing.
ghost use Rattle.std.specs.Prelude.{◌≡◌, ◌<◌, ◌^◌, All, IfOk};
ghost use Rattle.ti_source.specs.Items.{bytes};
ghost use Rattle.source_edits.specs.Carets as spec;
ghost use Rattle.source_edits.specs.Carets.{with_backslash};

use crate::pieces::bytes_of;
use source_spans::Part;
use std::alloc::{AllocError, Global};
use ti_source::{UnescapeError, unescape};

// Where a byte is, if it is a `^`.
fn caret_at(byte: (u8, usize)) -> Option<Part>
    requires { byte.1 < 2 ^ 63 }
    ensures { result ≡ spec.caret_at byte }
{
    if byte.0 != b'^' {
        return None;
    }
    Some(Part {
        start: byte.1,
        end: byte.1 + 1,
    })
}

// Where the last byte of a value is, if it is a `^`.
fn caret_at_end(value: &[(u8, usize)]) -> Option<Part>
    requires { All (λ x. x.1 < 2 ^ 63) value.now }
    ensures { result ≡ spec.caret_at_end value.now }
{
    match value.last() {
        Some(byte) => caret_at(*byte),
        None => None,
    }
}

/// Whether a text spells a string.
///
/// # Errors
/// Out of memory.
pub(crate) fn can_be_read(alloc: Global, text: &[u8]) -> Result<bool, AllocError>
    ensures { IfOk result (λ can. can ≡ spec.can_be_read text.now) }
{
    match unescape(alloc, text) {
        Ok(_) => return Ok(true),
        Err(UnescapeError::Memory) => return Err(AllocError),
        Err(_) => return Ok(false),
    }
}

// Whether a value that ends with a `^` is read once a backslash is before that.
fn heals(alloc: Global, value: &[(u8, usize)]) -> Result<bool, AllocError>
    ensures { IfOk result (λ heals. heals ≡ spec.can_be_read (with_backslash (bytes value.now))) }
{
    let mut text = bytes_of(alloc, value)?;
    let front = text.len().saturating_sub(1);
    text.truncate(front);
    text.extend_from_slice(b"\\^")?;
    can_be_read(alloc, &text)
}

/// Where the `^` at the end of a value is, if the value is read once a backslash is before it.
///
/// # Errors
/// Out of memory.
pub(crate) fn healing_caret(
    alloc: Global,
    value: &[(u8, usize)],
) -> Result<Option<Part>, AllocError>
    requires { All (λ x. x.1 < 2 ^ 63) value.now }
    ensures { IfOk result (λ caret. caret ≡ spec.healing_caret value.now) }
{
    if !heals(alloc, value)? {
        return Ok(None);
    }
    Ok(caret_at_end(value))
}
