//! The names field of a block, and the names that a terminal can be looked up by.
ghost use Rattle.std.specs.Prelude.{◌≡◌, ◌==◌, ◌↔◌, IsTrue, IfOk, map, not, length};
ghost use Rattle.std.specs.List.{list_all, list_any};
ghost use Rattle.std.specs.Option.{option_map};
ghost use Rattle.std.specs.Rc.{rc_slice_items};
ghost use Rattle.ti_text.specs.Ascii as ascii;
ghost use Rattle.ti_source.specs.Header as spec;
ghost use Rattle.ti_source.specs.inside.Header as computed;

use memchr::{memchr, memrchr};
use std::alloc::{AllocError, Global};
use std::rc::RcSlice;

fn is_name_byte(byte: u8) -> bool
    ensures { result ≡ spec.is_name_byte byte }
{
    matches!(byte, b'!'..=b'~') && !matches!(byte, b',' | b'/' | b'|')
}

fn has_name_bytes(text: &[u8]) -> bool
    ensures { result ≡ list_all spec.is_name_byte text.now }
{
    text.iter().all(|byte| is_name_byte(*byte))
}

/// Whether a terminal can have `name`: it is not empty, has only printable bytes other than space,
/// comma, `/` and `|`, and is neither `.` nor `..`.
pub fn is_lookup_name(name: &[u8]) -> bool
    ensures rule { IsTrue result ↔ spec.IsLookupName name.now }
    ensures test { result ≡ spec.is_lookup_name name.now }
{
    !name.is_empty() && name != b".".as_slice() && name != b"..".as_slice() && has_name_bytes(name)
}

// The part of `field` whose parts are its lookup names.
fn without_description(field: &[u8]) -> &[u8]
    ensures { computed.header_parts result.now ≡ spec.lookup_parts (computed.header_parts field.now) }
{
    match memrchr(b'|', field) {
        Some(last) => &field[..last],
        None => field,
    }
}

fn has_no_empty_part(field: &[u8]) -> bool
    ensures { result ≡ list_all (λ part. not (length part == 0)) (computed.header_parts field.now) }
{
    field
        .split(|byte| *byte == b'|')
        .all(|part| !part.is_empty())
}

fn are_lookup_names(joined: &[u8]) -> bool
    ensures { result ≡ list_all spec.is_lookup_name (computed.header_parts joined.now) }
{
    joined
        .split(|byte| *byte == b'|')
        .all(|name| is_lookup_name(name))
}

fn has_nul(field: &[u8]) -> bool
    ensures { result ≡ list_any (λ b. b == ascii.nul) field.now }
{
    memchr(0, field).is_some()
}

fn is_header(field: &[u8]) -> bool
    ensures { result ≡ computed.is_header field.now }
{
    !has_nul(field) && has_no_empty_part(field) && are_lookup_names(without_description(field))
}

fn parts(alloc: Global, joined: &[u8]) -> Result<Vec<RcSlice<u8>>, AllocError>
    ensures { IfOk result (λ v. map rc_slice_items v.items ≡ computed.header_parts joined.now) }
{
    let mut parts = Vec::new(alloc);
    for part in joined.split(|byte| *byte == b'|') {
        parts.push(RcSlice::from_slice(alloc, part)?)?;
    }
    Ok(parts)
}

/// The lookup names of the names field of a block, in order, or `None` if the field is bad: it or a
/// part of it between bytes `|` is empty, it holds a NUL, or a lookup name breaks the rule of
/// [`is_lookup_name`]. Of two or more parts, the last is a description and not a lookup name
/// (X/Open Curses Issue 7, "Terminfo Source Format").
///
/// # Errors
/// `AllocError` if there was no memory for the list.
pub fn lookup_names(alloc: Global, field: &[u8]) -> Result<Option<Vec<RcSlice<u8>>>, AllocError>
    ensures { IfOk result (λ names. spec.ReadsNames field.now (option_map (λ v. map rc_slice_items v.items) names)) }
{
    let names = read_names(alloc, field)?;
    Ok(names)
}

/// The lookup names of a names field, or `None` if it is bad, as [`lookup_names`] gives them.
pub(crate) fn read_names(
    alloc: Global,
    field: &[u8],
) -> Result<Option<Vec<RcSlice<u8>>>, AllocError>
    ensures { IfOk result (λ names. option_map (λ v. map rc_slice_items v.items) names ≡ computed.header_names field.now) }
{
    if !is_header(field) {
        return Ok(None);
    }
    let names = parts(alloc, without_description(field))?;
    Ok(Some(names))
}
