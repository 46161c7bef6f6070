//! The names field of a block, if it is too long for the profile.
ghost use Rattle.std.specs.Prelude.{◌≡◌, ◌<◌, ◌≤◌, ◌++◌, OnOk, drop, length, suc};
ghost use Rattle.std.specs.Option.{option_map};
ghost use Rattle.ti_text.specs.Limits.{names_max};
ghost use Rattle.everyday_names.specs.Fields as spec;
ghost use Rattle.everyday_names.specs.Fields.{described};

use memchr::memchr;
use std::alloc::AllocError;
use ti_layout::push_fill;
use ti_text::limits::NAMES_MAX;

/// The most bytes of a names field that `ti-tic` takes.
pub const LONG_NAMES_MAX: usize = 512;

// The names and one byte of the description have to be within the limit of the profile.
const DESCRIBED: usize = NAMES_MAX - 1;

// Whether a byte is in a text.
fn has(byte: u8, text: &[u8]) -> bool
    ensures { result ≡ spec.has byte text.now }
{
    text.iter().any(|other| *other == byte)
}

// Whether only a part of a description is past the limit of the profile.
fn is_described(field: &[u8]) -> bool
    requires { described ≤ length field.now }
    ensures { result ≡ spec.is_described field.now }
{
    let (names, rest) = field.split_at(DESCRIBED);
    has(b'|', names) && !has(b'|', rest)
}

// Whether a names field is too long for the profile, and its names are not.
fn is_long_field(field: &[u8]) -> bool
    ensures { result ≡ spec.is_long_field field.now }
{
    if field.len() <= NAMES_MAX {
        return false;
    }
    field.len() <= LONG_NAMES_MAX && !has(b'\n', field) && !has(0, field) && is_described(field)
}

/// The names field of a block, if it is over 127 bytes and at most 512, is on the first line of the
/// block, and its names and one byte of the description are within 127 bytes.
pub fn long_field(text: &[u8]) -> Option<&[u8]>
    ensures { option_map (λ f. f.now) result ≡ spec.long_field text.now }
{
    match memchr(b',', text) {
        None => None,
        Some(end) => {
            let field = &text[..end];
            if is_long_field(field) {
                Some(field)
            } else {
                None
            }
        }
    }
}

// What follows a names field of that size and its comma.
fn behind(text: &[u8], size: usize) -> &[u8]
    requires { size < length text.now }
    ensures { result.now ≡ drop (suc size) text.now }
{
    &text[size + 1..]
}

// Appends the part of a names field that the profile takes, a comma, blanks in the place of the rest,
// and what follows the field.
fn push_part(out: &mut Vec<u8>, field: &[u8], rest: &[u8]) -> Result<(), AllocError>
    requires { names_max < length field.now }
    ensures { OnOk result (out.new.items ≡ out.old.items ++ spec.part_and_blanks field.now rest.now) }
{
    out.extend_from_slice(&field[..NAMES_MAX])?;
    out.push(b',')?;
    push_fill(out, field.len() - NAMES_MAX, b' ')?;
    out.extend_from_slice(rest)
}

/// Appends a block with a names field of at most 127 bytes, if [`long_field`] has one: a comma ends it
/// after as many bytes, and blanks are in the place of the rest, so that all that follows keeps its
/// place. Any other block is appended as it is.
///
/// # Errors
/// Out of memory.
pub fn push_fitted(out: &mut Vec<u8>, text: &[u8]) -> Result<(), AllocError>
    ensures { OnOk result (out.new.items ≡ out.old.items ++ spec.fitted text.now) }
{
    match long_field(text) {
        None => out.extend_from_slice(text),
        Some(field) => push_part(out, field, behind(text, field.len())),
    }
}
