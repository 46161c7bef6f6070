//! Bytes as they are written in termcap's form and in a terminfo source.
ghost use Rattle.std.specs.Prelude.{◌≡◌, ◌<◌, ◌++◌, OnOk};
ghost use Rattle.everyday_converting.specs.Bytes.{begins_with_digit, caret_text, control_text, is_blank, is_printed, octal_text, operand_text, source_byte, termcap_byte};

use std::alloc::AllocError;

// Whether a byte is of ASCII and printed, or a space.
pub(crate) fn is_printed(byte: u8) -> bool
    ensures { result ≡ is_printed byte }
{
    b' ' <= byte && byte < 0x7f
}

// Appends a backslash and three octal digits.
fn push_octal(out: &mut Vec<u8>, byte: u8) -> Result<(), AllocError>
    ensures { OnOk result (out.new.items ≡ out.old.items ++ octal_text byte) }
{
    let digits = [
        b'\\',
        b'0' + byte / 64,
        b'0' + byte / 8 % 8,
        b'0' + byte % 8,
    ];
    out.extend_from_slice(&digits)
}

// Appends a caret and the letter of a control byte.
fn push_caret(out: &mut Vec<u8>, byte: u8) -> Result<(), AllocError>
    requires { byte < 32 }
    ensures { OnOk result (out.new.items ≡ out.old.items ++ caret_text byte) }
{
    out.extend_from_slice(&[b'^', byte + 64])
}

// Whether a text begins with a digit.
fn begins_with_digit(text: &[u8]) -> bool
    ensures { result ≡ begins_with_digit text.now }
{
    match text {
        [first, ..] => first.is_ascii_digit(),
        [] => false,
    }
}

// Whether a text has only spaces.
fn is_blank(text: &[u8]) -> bool
    ensures { result ≡ is_blank text.now }
{
    text.iter().all(|byte| *byte == b' ')
}

// Appends a byte that is not printed, before others.
fn push_control(out: &mut Vec<u8>, caret: bool, byte: u8, after: &[u8]) -> Result<(), AllocError>
    ensures { OnOk result (out.new.items ≡ out.old.items ++ control_text caret byte after.now) }
{
    if byte == 0x80 {
        return out.extend_from_slice(b"\\0");
    }
    if byte == 0x1b {
        return out.extend_from_slice(b"\\E");
    }
    if byte == b'\r' {
        return out.extend_from_slice(b"\\r");
    }
    if byte == b'\n' {
        return out.extend_from_slice(b"\\n");
    }
    if byte < b' ' && (caret || begins_with_digit(after)) {
        return push_caret(out, byte);
    }
    push_octal(out, byte)
}

/// Where a byte of a string stands.
#[derive(Clone, Copy)]
pub(crate) struct Place {
    /// Whether control bytes have carets.
    pub caret: bool,
    /// Whether it is the first of its string.
    pub first: bool,
    /// Whether a `%` that begins a code is before it.
    pub percent: bool,
}

/// Appends a byte of a string in termcap's form, before the others.
pub(crate) fn push_termcap_byte(
    out: &mut Vec<u8>,
    place: Place,
    byte: u8,
    after: &[u8],
) -> Result<(), AllocError>
    ensures { OnOk result (out.new.items ≡ out.old.items ++ termcap_byte place byte after.now) }
{
    if byte == b':' {
        return out.extend_from_slice(b"\\072");
    }
    if byte == b'^' && !place.percent {
        return out.extend_from_slice(b"\\136");
    }
    if byte == b'\\' {
        return out.extend_from_slice(b"\\\\");
    }
    if byte == b' ' && (place.first || is_blank(after)) {
        return out.extend_from_slice(b"\\s");
    }
    if is_printed(byte) {
        return out.extend_from_slice(&[byte]);
    }
    push_control(out, place.caret, byte, after)
}

/// Appends a byte of a string as ncurses writes it in a terminfo source, before the others.
pub(crate) fn push_source_byte(
    out: &mut Vec<u8>,
    place: Place,
    byte: u8,
    after: &[u8],
) -> Result<(), AllocError>
    ensures { OnOk result (out.new.items ≡ out.old.items ++ source_byte place byte after.now) }
{
    if byte == b',' {
        return out.extend_from_slice(b"\\,");
    }
    if is_printed(byte) && place.percent {
        return out.extend_from_slice(&[byte]);
    }
    if byte == b'^' {
        return out.extend_from_slice(b"\\^");
    }
    if byte == b'\\' {
        return out.extend_from_slice(b"\\\\");
    }
    if byte == b' ' && (place.first || is_blank(after)) {
        return out.extend_from_slice(b"\\s");
    }
    if is_printed(byte) {
        return out.extend_from_slice(&[byte]);
    }
    if byte == 0x7f && place.caret {
        return out.extend_from_slice(b"^?");
    }
    push_control(out, place.caret, byte, after)
}

/// Appends a byte that termcap's form has after a code.
pub(crate) fn push_operand(out: &mut Vec<u8>, byte: u8) -> Result<(), AllocError>
    ensures { OnOk result (out.new.items ≡ out.old.items ++ operand_text byte) }
{
    if byte == b':' {
        return out.extend_from_slice(b"\\:");
    }
    if byte == b'\\' {
        return out.extend_from_slice(b"\\\\");
    }
    if is_printed(byte) {
        return out.extend_from_slice(&[byte]);
    }
    if byte < b' ' {
        return push_caret(out, byte);
    }
    push_octal(out, byte)
}
