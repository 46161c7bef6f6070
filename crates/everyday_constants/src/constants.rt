//! A string with its constants as characters.
ghost use Rattle.std.specs.Prelude.{◌≡◌, ◌++◌, IfOk, OnOk, drop, slice_index};
ghost use Rattle.ti_text.specs.Digits.{is_decimal_digit};
ghost use Rattle.everyday_constants.specs.Constants as spec;

use std::alloc::{AllocError, Global};

/// A constant of a string that is written as a character.
#[derive(Clone, Copy)]
pub(crate) struct Constant {
    /// Its value, which is the code of the character.
    pub value: u8,
    /// How many bytes it has in the string.
    pub size: usize,
}

// The byte at a place of a text, and 0 past its end.
fn byte_at(text: &[u8], place: usize) -> u8
    ensures { result ≡ slice_index text.now place }
{
    if place < text.len() { text[place] } else { 0 }
}

// What a text has after so many bytes.
fn after(text: &[u8], size: usize) -> &[u8]
    ensures { result.now ≡ drop size text.now }
{
    if size <= text.len() {
        &text[size..]
    } else {
        &[]
    }
}

// Whether a digit is at a place of a text.
fn is_digit_at(text: &[u8], place: usize) -> bool
    ensures { result ≡ is_decimal_digit (slice_index text.now place) }
{
    byte_at(text, place).is_ascii_digit()
}

// The value of the digit at a place of a text.
fn digit(text: &[u8], place: usize) -> u32
    ensures { result ≡ spec.digit text.now place }
{
    u32::from(byte_at(text, place).saturating_sub(b'0'))
}

// Whether a number is written as a character.
fn is_character(value: u32) -> bool
    ensures { result ≡ spec.is_character value }
{
    32 <= value && value < 127 && value != 92
}

// A constant of so many bytes, if it is written as a character.
fn if_character(value: u32, size: usize) -> Option<Constant>
    ensures { result ≡ spec.if_character value size }
{
    if !is_character(value) {
        return None;
    }
    Some(Constant {
        value: value as u8,
        size,
    })
}

// Whether a text begins with `%{` and two digits, of which the first is not 0.
fn begins_number(text: &[u8]) -> bool
    ensures { result ≡ spec.begins_number text.now }
{
    byte_at(text, 0) == b'%'
        && byte_at(text, 1) == b'{'
        && is_digit_at(text, 2)
        && is_digit_at(text, 3)
        && byte_at(text, 2) != b'0'
}

// The constant at the front of a text that is written as a character, if one is.
fn constant_at(text: &[u8]) -> Option<Constant>
    ensures { result ≡ spec.constant_at text.now }
{
    if !begins_number(text) {
        return None;
    }
    let two = 10 * digit(text, 2) + digit(text, 3);
    if byte_at(text, 4) == b'}' {
        return if_character(two, 5);
    }
    if is_digit_at(text, 4) && byte_at(text, 5) == b'}' {
        return if_character(10 * two + digit(text, 4), 6);
    }
    None
}

// How many bytes at the front of a text stay as they are if no such constant is there.
fn kept_size(text: &[u8]) -> usize
    ensures { result ≡ spec.kept_size text.now }
{
    match (byte_at(text, 0), byte_at(text, 1)) {
        (b'\\', b'%') => 3,
        (b'\\', _) | (b'%', b'%') => 2,
        _ => 1,
    }
}

// How many bytes the piece at the front of a text has, by the constant that is there.
fn size_by(constant: Option<Constant>, text: &[u8]) -> usize
    ensures { result ≡ spec.size_by constant text.now }
{
    match constant {
        None => kept_size(text),
        Some(constant) => constant.size,
    }
}

// Appends what is written of this piece.
fn push_piece(out: &mut Vec<u8>, constant: Option<Constant>, text: &[u8]) -> Result<(), AllocError>
    ensures { OnOk result (out.new.items ≡ out.old.items ++ spec.text_by constant text.now) }
{
    match constant {
        None => {
            let size = kept_size(text).min(text.len());
            out.extend_from_slice(&text[..size])
        }
        Some(constant) => out.extend_from_slice(&[b'%', b'\'', constant.value, b'\'']),
    }
}

/// A string with its constants as characters.
///
/// # Errors
/// Out of memory.
pub(crate) fn string_with(alloc: Global, text: &[u8]) -> Result<Vec<u8>, AllocError>
    ensures { IfOk result (λ out. out.items ≡ spec.with_characters text.now) }
{
    let mut out = Vec::new(alloc);
    let mut rest = text;
    while !rest.is_empty() {
        let constant = constant_at(rest);
        push_piece(&mut out, constant, rest)?;
        let size = size_by(constant, rest);
        let others = after(rest, 1);
        rest = after(others, size.saturating_sub(1));
    }
    Ok(out)
}
