//! What is wrong with the format of a string that takes parameters.
ghost use Rattle.std.specs.Prelude.{◌≡◌, ◌+◌, ◌++◌, ◌^◌, ◌≤◌, IfOk, IfSome, OnOk, length};
ghost use Rattle.ti_formats.specs.Parameters.{number_named};
ghost use Rattle.ti_text.specs.Ascii as ascii;
ghost use Rattle.source_block_hints.specs.Formats as spec;
ghost use Rattle.source_block_hints.specs.Strings as strings;

use crate::counts::parameter_count;
use crate::found::{Found, front_of, push_found};
use crate::hint::HintKind;
use crate::stacks::full_in;
use source_spans::Part;
use std::alloc::{AllocError, Global};
use ti_caps::{Cap, Kind, name};
use ti_formats::{Code, Lexer, Placed, Token};
use ti_source::UnescapeError;
use ti_spelling::unescape_into;

// The value that a text spells, nothing if it spells none.
fn value_of(alloc: Global, raw: &[u8]) -> Result<Vec<u8>, AllocError>
    ensures { IfOk result (λ value. value.items ≡ spec.value_of raw.now) }
{
    let mut value = Vec::new(alloc);
    match unescape_into(&mut value, raw) {
        Ok(_) => Ok(value),
        Err(UnescapeError::Memory) => Err(AllocError),
        Err(_) => Ok(Vec::new(alloc)),
    }
}

// Where the `%` of this number is in a text that begins at this offset.
fn percent_from(text: &[u8], number: usize, from: usize) -> Option<usize>
    requires { from + length text.now ≤ 2 ^ 63 + 1 }
    ensures at { result ≡ spec.nth_from ascii.percent number from text.now }
    ensures bound { IfSome result (λ at. at ≤ 2 ^ 63 + 1) }
{
    let mut left = number;
    let mut at = from;
    let mut rest = text;
    while let Some((byte, after)) = rest.split_first() {
        if *byte == b'%' {
            if left == 0 {
                return Some(at);
            }
            left -= 1;
        }
        at += 1;
        rest = after;
    }
    None
}

// How many bytes of a text are `%`.
fn count_percents(text: &[u8]) -> usize
    ensures { result ≡ spec.count_of ascii.percent text.now }
{
    text.iter().filter(|byte| **byte == b'%').count()
}

// What is found at a `%` of a value, with so many bytes of the text that spells it, which begins at
// this offset of its item.
fn found_at(
    kind: HintKind,
    len: usize,
    from: usize,
    raw: &[u8],
    value: &[u8],
    place: usize,
) -> Found
    requires from { from + length raw.now ≤ 2 ^ 63 + 1 }
    requires len { len ≤ 3 }
    ensures { result ≡ spec.found_at kind len from raw.now value.now place }
{
    let number = count_percents(front_of(value, place));
    let part = match percent_from(raw, number, from) {
        Some(at) => Part {
            start: at,
            end: at + len,
        },
        None => Part { start: 0, end: 0 },
    };
    Found { kind, part }
}

// The name of the string of an index, nothing if there is no such string.
fn string_name(index: usize) -> &'static str
    ensures { result.now ≡ spec.string_name index }
{
    match Cap::at(Kind::Text, index) {
        Some(cap) => name(cap),
        None => "",
    }
}

// Whether a name is that of a user string.
fn is_user_name(name: &str) -> bool
    ensures { result ≡ spec.is_user_name name.now }
{
    matches!(
        name,
        "u0" | "u1" | "u2" | "u3" | "u4" | "u5" | "u6" | "u7" | "u8" | "u9"
    )
}

// Whether the string of an index is a user string.
fn is_user_string(index: usize) -> bool
    ensures { result ≡ spec.is_user_string index }
{
    is_user_name(string_name(index))
}

// Whether the string of an index is `cup`.
fn is_cursor_address(index: usize) -> bool
    ensures { result ≡ spec.is_cursor_address index }
{
    string_name(index) == "cup"
}

// Whether the string of an index is a format.
fn is_format(index: usize) -> bool
    ensures { result ≡ spec.is_format index }
{
    parameter_count(index) > 0 && !is_user_string(index)
}

// Where a format is stuck.
fn stop_of(format: &[u8]) -> Option<usize>
    ensures { result ≡ (spec.reading_of format.now).stop }
{
    let mut lexer = Lexer::new(format);
    lexer.end()
}

// The number of the parameter that a token pushes, 0 if it pushes none.
fn number_of(token: &Token) -> usize
    ensures { result ≡ number_named token.now }
{
    match token {
        Token::Operation(Code::Parameter(index)) => index.index() + 1,
        _ => 0,
    }
}

// Where the first token of a format is that pushes a parameter over this number.
fn foreign_in(format: &[u8], count: usize) -> Option<usize>
    ensures { result ≡ spec.foreign_in count (spec.reading_of format.now).tokens }
{
    let mut lexer = Lexer::new(format);
    while let Some(Placed { place, token }) = lexer.next_token() {
        if number_of(&token) > count {
            return Some(place);
        }
    }
    None
}

// Whether a token of a format pushes the parameter of this number.
fn names_parameter(format: &[u8], number: usize) -> bool
    ensures { result ≡ spec.names_parameter number (spec.reading_of format.now).tokens }
{
    let mut lexer = Lexer::new(format);
    while let Some(Placed { token, .. }) = lexer.next_token() {
        if number_of(&token) == number {
            return true;
        }
    }
    false
}

// Where the format of a string is stuck.
fn wrong_found(index: usize, from: usize, raw: &[u8], value: &[u8]) -> Option<Found>
    requires { from + length raw.now ≤ 2 ^ 63 + 1 }
    ensures { result ≡ spec.wrong_found index from raw.now value.now }
{
    if !is_format(index) {
        return None;
    }
    let place = stop_of(value)?;
    Some(found_at(HintKind::WrongFormat, 2, from, raw, value, place))
}

// The first parameter that a string does not have.
fn foreign_found(index: usize, from: usize, raw: &[u8], value: &[u8]) -> Option<Found>
    requires { from + length raw.now ≤ 2 ^ 63 + 1 }
    ensures { result ≡ spec.foreign_found index from raw.now value.now }
{
    let place = foreign_in(value, parameter_count(index))?;
    Some(found_at(HintKind::ForeignParameter, 3, from, raw, value, place))
}

// Whether a whole format leaves the first or the second parameter unused.
fn leaves_one(format: &[u8]) -> bool
    ensures { result ≡ spec.leaves_one (spec.reading_of format.now) }
{
    stop_of(format).is_none() && !(names_parameter(format, 1) && names_parameter(format, 2))
}

// One of the parameters of `cup` that is not used.
fn unused_found(index: usize, value: &[u8]) -> Option<Found>
    ensures { result ≡ spec.unused_found index value.now }
{
    if is_cursor_address(index) && leaves_one(value) {
        Some(Found {
            kind: HintKind::UnusedParameter,
            part: Part { start: 0, end: 0 },
        })
    } else {
        None
    }
}

// A push on a full stack.
fn full_found(
    alloc: Global,
    index: usize,
    from: usize,
    raw: &[u8],
    value: &[u8],
) -> Result<Option<Found>, AllocError>
    requires { from + length raw.now ≤ 2 ^ 63 + 1 }
    ensures { IfOk result (λ found. found ≡ strings.full_found index from raw.now value.now) }
{
    if !is_format(index) {
        return Ok(None);
    }
    match full_in(alloc, value)? {
        Some(place) => Ok(Some(found_at(HintKind::FullStack, 2, from, raw, value, place))),
        None => Ok(None),
    }
}

/// Appends what is wrong with the format that a text spells, which begins at this offset of its
/// item, of the string of that index.
pub(crate) fn push_format(
    alloc: Global,
    found: &mut Vec<Found>,
    index: usize,
    from: usize,
    raw: &[u8],
) -> Result<(), AllocError>
    requires { from + length raw.now ≤ 2 ^ 63 + 1 }
    ensures { OnOk result (found.new.items ≡ found.old.items ++ strings.text_found index from raw.now) }
{
    let value = value_of(alloc, raw)?;
    push_found(found, wrong_found(index, from, raw, &value))?;
    push_found(found, full_found(alloc, index, from, raw, &value)?)?;
    push_found(found, foreign_found(index, from, raw, &value))?;
    push_found(found, unused_found(index, &value))
}
