//! Bodies as JSON.
ghost use Rattle.std.specs.Prelude.{◌≡◌, ◌≤◌, IfOk, option_map};
ghost use Rattle.serde_json.specs.View.{view};
ghost use Rattle.lsp_messages.specs.Bodies.{begins_half, byte_at, byte_for, digit_before, ends_half, exchanged_after, exchanged_next, is_alone, is_first_digit, is_first_half, is_pair, is_second_digit, is_second_half, kept_after, kept_next, repaired, value_in, value_of};

use serde_json::Value;
use std::alloc::{AllocError, Global};

// The byte at that place, or 0 after the end.
fn byte_at(text: &[u8], at: usize) -> u8
    ensures { result ≡ byte_at text.now at }
{
    match text.get(at) {
        Some(byte) => *byte,
        None => 0,
    }
}

// Whether a byte is the second digit of the first half of a pair.
fn is_first_digit(byte: u8) -> bool
    ensures { result ≡ is_first_digit byte }
{
    matches!(byte, b'8'..=b'9' | b'A'..=b'B' | b'a'..=b'b')
}

// Whether a byte is the second digit of the second half of a pair.
fn is_second_digit(byte: u8) -> bool
    ensures { result ≡ is_second_digit byte }
{
    matches!(byte, b'C'..=b'F' | b'c'..=b'f')
}

// Whether a backslash, `u` and a `D` are at that place.
fn begins_half(text: &[u8], at: usize) -> bool
    requires { at ≤ 6 }
    ensures { result ≡ begins_half text.now at }
{
    let digit = byte_at(text, at + 2);
    byte_at(text, at) == b'\\' && byte_at(text, at + 1) == b'u' && (digit == b'D' || digit == b'd')
}

// Whether two hexadecimal digits are at that place.
fn ends_half(text: &[u8], at: usize) -> bool
    requires { at ≤ 10 }
    ensures { result ≡ ends_half text.now at }
{
    byte_at(text, at).is_ascii_hexdigit() && byte_at(text, at + 1).is_ascii_hexdigit()
}

// Whether the escape of the first half of a pair is at that place.
fn is_first_half(text: &[u8], at: usize) -> bool
    requires { at ≤ 6 }
    ensures { result ≡ is_first_half text.now at }
{
    begins_half(text, at) && is_first_digit(byte_at(text, at + 3)) && ends_half(text, at + 4)
}

// Whether the escape of the second half of a pair is at that place.
fn is_second_half(text: &[u8], at: usize) -> bool
    requires { at ≤ 6 }
    ensures { result ≡ is_second_half text.now at }
{
    begins_half(text, at) && is_second_digit(byte_at(text, at + 3)) && ends_half(text, at + 4)
}

// Whether a text begins with the escapes of both halves of a pair.
fn is_pair(text: &[u8]) -> bool
    ensures { result ≡ is_pair text.now }
{
    is_first_half(text, 0) && is_second_half(text, 6)
}

// Whether a text begins with the escape of a half that is alone.
fn is_alone(text: &[u8]) -> bool
    ensures { result ≡ is_alone text.now }
{
    (is_first_half(text, 0) || is_second_half(text, 0)) && !is_pair(text)
}

// How many bytes after the first of a text stay as they are.
fn kept_after(text: &[u8]) -> usize
    ensures { result ≡ kept_after text.now }
{
    if is_pair(text) {
        11
    } else if byte_at(text, 0) == b'\\' {
        1
    } else {
        0
    }
}

// How many bytes after those are exchanged.
fn exchanged_after(text: &[u8]) -> usize
    ensures { result ≡ exchanged_after text.now }
{
    if is_alone(text) { 4 } else { 0 }
}

// The digit of U+FFFD that so many come after.
fn digit_before(left: usize) -> u8
    ensures { result ≡ digit_before left }
{
    if left == 0 { b'd' } else { b'f' }
}

// The byte in place of one, if so many bytes are still to be kept and then so many to be exchanged.
fn byte_for(kept: usize, exchanged: usize, byte: u8) -> u8
    ensures { result ≡ byte_for kept exchanged byte }
{
    if kept == 0 && exchanged != 0 {
        digit_before(exchanged - 1)
    } else {
        byte
    }
}

// How many bytes are still to be kept after the first of a text.
fn kept_next(kept: usize, exchanged: usize, text: &[u8]) -> usize
    ensures { result ≡ kept_next kept exchanged text.now }
{
    if kept == 0 && exchanged == 0 {
        kept_after(text)
    } else {
        kept.saturating_sub(1)
    }
}

// How many are to be exchanged after those.
fn exchanged_next(kept: usize, exchanged: usize, text: &[u8]) -> usize
    ensures { result ≡ exchanged_next kept exchanged text.now }
{
    if kept != 0 {
        exchanged
    } else if exchanged == 0 {
        exchanged_after(text)
    } else {
        exchanged - 1
    }
}

// A text with U+FFFD in place of each half of a pair that is alone.
fn repaired(alloc: Global, text: &[u8]) -> Result<Vec<u8>, AllocError>
    ensures { IfOk result (λ all. all.items ≡ repaired text.now) }
{
    let mut all = Vec::with_capacity(alloc, text.len())?;
    let mut kept = 0;
    let mut exchanged = 0;
    for at in 0..text.len() {
        let rest = &text[at..];
        all.push(byte_for(kept, exchanged, text[at]))?;
        let kept_now = kept_next(kept, exchanged, rest);
        exchanged = exchanged_next(kept, exchanged, rest);
        kept = kept_now;
    }
    Ok(all)
}

// The value that a text is, if it is JSON in UTF-8.
fn value_in(alloc: Global, text: &[u8]) -> Result<Option<Value>, AllocError>
    ensures { IfOk result (λ value. option_map view value ≡ value_in text.now) }
{
    match Value::from_slice(alloc, text) {
        Ok(value) => Ok(Some(value)),
        Err(error) if error.is_memory() => Err(AllocError),
        Err(_) => Ok(None),
    }
}

/// The value that a body is. `None` if it is not JSON in UTF-8, or nests deeper than 127. Half of a
/// pair of UTF-16 units that is alone in a string is read as U+FFFD, so that no text is lost.
///
/// # Errors
/// `AllocError` if memory ran out.
pub fn parse(alloc: Global, body: &[u8]) -> Result<Option<Value>, AllocError>
    ensures { IfOk result (λ value. option_map view value ≡ value_of body.now) }
{
    match value_in(alloc, body)? {
        Some(value) => Ok(Some(value)),
        None => {
            let repaired = repaired(alloc, body)?;
            value_in(alloc, &repaired)
        }
    }
}
