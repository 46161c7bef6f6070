//! Bytes as a source spells them.
ghost use Rattle.std.specs.Prelude.{◌≡◌, IfOk, map};
ghost use Rattle.std.specs.String.{string_bytes};
ghost use Rattle.source_strings.specs.Spelled as spec;

use std::alloc::{AllocError, Global};
use ti_spelling::escape;

// A byte as it is shown.
fn printed(byte: u8) -> u8
    ensures { result ≡ spec.printed byte }
{
    match byte {
        b' '..=b'~' => byte,
        _ => b'?',
    }
}

// Bytes as they are shown.
fn all_printed(alloc: Global, bytes: &[u8]) -> Result<Vec<u8>, AllocError>
    ensures { IfOk result (λ shown. shown.items ≡ map spec.printed bytes.now) }
{
    let mut shown = Vec::with_capacity(alloc, bytes.len())?;
    for byte in bytes {
        shown.push(printed(*byte))?;
    }
    Ok(shown)
}

/// The bytes of a string as the source spells them, in ASCII.
///
/// # Errors
/// Out of memory.
pub fn spelled(alloc: Global, value: &[u8]) -> Result<String, AllocError>
    ensures { IfOk result (λ text. string_bytes text ≡ spec.spelled value.now) }
{
    let spelling = escape(alloc, value)?;
    let shown = all_printed(alloc, &spelling)?;
    match String::from_utf8(shown) {
        Ok(shown) => Ok(shown),
        Err(_) => unreachable!(),
    }
}
