//! Writes string values as terminfo(5) spells them.

ghost use Rattle.std.specs.Prelude.{◌≡◌, ◌+◌, ◌*◌, ◌^◌, ◌<◌, ◌≤◌, ◌++◌, ◌∷◌, [], length, OnErr, OnOk, IfOk, vec_len, vec_capacity};
ghost use Rattle.ti_spelling.specs.Spelling.{short_escape, octal_text, byte_text, spelling_of, WrittenSpells};
ghost use Rattle.ti_spelling.specs.inside.Writing.{is_plain};

use std::alloc::{AllocError, Global};
use ti_text::room::append_reserved;

// Whether `byte` is its own text wherever it is. Most bytes of most values are, and need no look
// at the tables.
#[inline(always)]
fn is_plain(byte: u8) -> bool
    ensures { result ≡ is_plain byte }
{
    matches!(byte, b'!'..=b'+' | b'-'..=b'[' | b']' | b'_'..=b'~')
}

// The letter that spells `byte` after a backslash, if there is one.
fn short_escape(byte: u8) -> Option<u8>
    ensures { result ≡ short_escape byte }
{
    match byte {
        0x1b => Some(b'E'),
        b'\n' => Some(b'n'),
        b'\r' => Some(b'r'),
        b'\t' => Some(b't'),
        0x08 => Some(b'b'),
        0x0c => Some(b'f'),
        b',' | b'\\' => Some(byte),
        0 => Some(b'0'),
        _ => None,
    }
}

/// The most bytes that the text of one byte has.
pub const MOST_ESCAPED: usize = 4;

// Appends a backslash and three octal digits. There is room for them.
fn write_octal(text: &mut Vec<u8>, byte: u8)
    requires { vec_len text.old + 4 ≤ vec_capacity text.old }
    ensures items { text.new.items ≡ text.old.items ++ octal_text byte }
    ensures len { vec_len text.new ≡ vec_len text.old + 4 }
    ensures capacity { vec_capacity text.old ≤ vec_capacity text.new }
{
    let digits = [
        b'\\',
        b'0' + byte / 64,
        b'0' + byte / 8 % 8,
        b'0' + byte % 8,
    ];
    append_reserved(text, &digits);
}

// Appends two bytes. There is room for them.
fn write_pair(text: &mut Vec<u8>, first: u8, second: u8)
    requires { vec_len text.old + 2 ≤ vec_capacity text.old }
    ensures items { text.new.items ≡ text.old.items ++ first ∷ second ∷ [] }
    ensures len { vec_len text.new ≡ vec_len text.old + 2 }
    ensures capacity { vec_capacity text.old ≤ vec_capacity text.new }
{
    text.push_reserved(first);
    text.push_reserved(second);
}

// Appends the text of one byte: `percent` if it follows a `%`, `edge` if it is the first or the
// last of its value. There is room for any such text.
#[tactic(auto, unfolding(crate::specs::Spelling::byte_text))]
fn write_byte(text: &mut Vec<u8>, percent: bool, edge: bool, byte: u8)
    requires { vec_len text.old + 4 ≤ vec_capacity text.old }
    ensures items { text.new.items ≡ text.old.items ++ byte_text percent edge byte }
    ensures len { vec_len text.new ≤ vec_len text.old + 4 }
    ensures capacity { vec_capacity text.old ≤ vec_capacity text.new }
{
    if is_plain(byte) {
        text.push_reserved(byte);
        return;
    }
    if let Some(letter) = short_escape(byte) {
        write_pair(text, b'\\', letter);
        return;
    }
    match byte {
        b' ' if edge => write_pair(text, b'\\', b's'),
        b'^' if !percent => write_pair(text, b'\\', b'^'),
        0x1c | 0x80..=0xff => write_octal(text, byte),
        0x01..=0x1f | 0x7f if percent => write_octal(text, byte),
        0x7f => write_pair(text, b'^', b'?'),
        0x01..=0x1f => write_pair(text, b'^', byte + 0x40),
        _ => text.push_reserved(byte),
    }
}

/// Appends the text that spells `value`, as [`escape`] gives it, into room for four bytes for each
/// of its bytes. It takes no memory.
pub fn write_escaped(text: &mut Vec<u8>, value: &[u8])
    requires { vec_len text.old + 4 * length value.now ≤ vec_capacity text.old }
    ensures items { text.new.items ≡ text.old.items ++ spelling_of value.now }
    ensures len { vec_len text.new ≤ vec_len text.old + 4 * length value.now }
    ensures capacity { vec_capacity text.old ≤ vec_capacity text.new }
{
    let mut before = 0;
    for (i, &byte) in value.iter().enumerate() {
        let edge = i == 0 || i == value.len() - 1;
        write_byte(text, before == b'%', edge, byte);
        before = byte;
    }
}

/// Appends the text that spells `value`, as [`escape`] gives it.
///
/// # Errors
///
/// `AllocError` if there is no room for the text; then nothing has been appended.
pub fn push_escaped(text: &mut Vec<u8>, value: &[u8]) -> Result<(), AllocError>
    ensures items { OnOk result (text.new.items ≡ text.old.items ++ spelling_of value.now) }
    ensures err { OnErr result (text.new.items ≡ text.old.items) }
{
    text.reserve(value.len().saturating_mul(MOST_ESCAPED))?;
    write_escaped(text, value);
    Ok(())
}

/// The text that spells `value`: `unescape` reads it as `value` if `value` holds no NUL.
///
/// A NUL is written `\0`, which reads as 0200.
///
/// # Errors
///
/// `AllocError` if there is no room for the text.
pub fn escape(alloc: Global, value: &[u8]) -> Result<Vec<u8>, AllocError>
    ensures { IfOk result (λ text. text.items ≡ spelling_of value.now) }
{
    let mut text = Vec::new(alloc);
    push_escaped(&mut text, value)?;
    Ok(text)
}
