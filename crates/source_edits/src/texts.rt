//! Bytes as an editor is sent them, and the last byte of a text.
ghost use Rattle.std.specs.Prelude.{◌≡◌, IfOk, map, option_map};
ghost use Rattle.std.specs.String.{string_bytes};
ghost use Rattle.ti_text.specs.Texts.{last_byte};
ghost use Rattle.source_edits.specs.Shown as spec;
ghost use Rattle.source_edits.specs.Shown.{utf8_of};

use std::alloc::{AllocError, Global};

// A byte as it is shown.
fn shown_byte(byte: u8) -> u8
    ensures { result ≡ spec.shown_byte byte }
{
    match byte {
        b' '..=b'~' => byte,
        _ => b'?',
    }
}

// Bytes as they are shown.
fn shown_bytes(alloc: Global, bytes: &[u8]) -> Result<Vec<u8>, AllocError>
    ensures { IfOk result (λ all. all.items ≡ spec.shown bytes.now) }
{
    let mut all = Vec::with_capacity(alloc, bytes.len())?;
    for byte in bytes {
        all.push(shown_byte(*byte))?;
    }
    Ok(all)
}

/// The last byte of a text, or a NUL if there is none.
pub(crate) fn last_byte(text: &[u8]) -> u8
    ensures { result ≡ last_byte 0 text.now }
{
    match text.last() {
        Some(byte) => *byte,
        None => 0,
    }
}

/// Bytes as they are shown, in ASCII.
///
/// # Errors
/// Out of memory.
pub(crate) fn shown(alloc: Global, bytes: &[u8]) -> Result<String, AllocError>
    ensures { IfOk result (λ text. string_bytes text ≡ spec.shown bytes.now) }
{
    let all = shown_bytes(alloc, bytes)?;
    match String::from_utf8(all) {
        Ok(text) => Ok(text),
        Err(_) => unreachable!(),
    }
}

/// Bytes as a text, if they are UTF-8.
pub fn utf8_of(bytes: Vec<u8>) -> Option<String>
    ensures { option_map string_bytes result ≡ utf8_of bytes.items }
{
    match String::from_utf8(bytes) {
        Ok(text) => Some(text),
        Err(_) => None,
    }
}
