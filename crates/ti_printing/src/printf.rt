//! The printf forms of a parameter string: `%d`, `%o`, `%x`, `%X` and `%s`.
ghost use Rattle.std.specs.Prelude.{◌≡◌, ◌≢◌, ◌+◌, ◌^◌, ◌<◌, ◌≤◌, ◌++◌, length, map, drop, replicate, slice_index, vec_len, vec_capacity, OnOk, OnErr};
ghost use Rattle.std.specs.Fmt.{digit_glyph};
ghost use Rattle.std.specs.Int.Digits.{digits_of};
ghost use Rattle.ti_printing.specs.inside.Printf.{digits_max, parts_text};
ghost use Rattle.ti_printing.specs.Printf.{form_bytes, printed_text, printed_number, numeral, digits_in, in_width, sign_in, prefix_in, OneNumeral};
ghost use Rattle.ti_text.specs.Ascii as ascii;

use std::alloc::AllocError;
use ti_text::room::{append_reserved, fill_reserved};

/// The flags of a printf form.
#[derive(Clone, Copy, Debug, PartialEq, Eq, Default)]
pub struct Flags {
    /// `-`: blanks are after what is printed, not before it.
    pub left: bool,
    /// `+`: `d` shows the sign of a number that is not negative.
    pub sign: bool,
    /// `#`: `o` begins with a 0, `x` and `X` with `0x` and `0X` at a number other than 0.
    pub alternate: bool,
    /// A space: `d` shows a space in place of the sign of a number that is not negative.
    pub space: bool,
    /// A leading 0 of the width: a number is padded with zeros after its sign and prefix.
    pub zero: bool,
}

/// What a printf form converts.
#[derive(Clone, Copy, Debug, PartialEq, Eq)]
pub enum Conversion {
    /// `d`: a signed number.
    Decimal,
    /// `o`: the number modulo 2^32, to the base 8.
    Octal,
    /// `x`: the number modulo 2^32, to the base 16.
    LowerHex,
    /// `X`: the number modulo 2^32, to the base 16, in capitals.
    UpperHex,
    /// `s`: a string.
    Text,
}

/// A printf form.
#[derive(Clone, Copy, Debug, PartialEq, Eq)]
pub struct Directive {
    pub flags: Flags,
    /// The least count of bytes; 0 if the form names none.
    pub width: u16,
    /// The least count of digits of a number, the greatest count of bytes of a string.
    pub precision: Option<u16>,
    pub conversion: Conversion,
}

/// Appends what the form prints of a value, which is `number` as a number and `text` as a string: a
/// string is 0 as a number, and a number is the empty string. See "Parameterized Strings" in
/// terminfo(5), and printf(3).
///
/// # Errors
///
/// `AllocError` if the room was refused; `out` then has its items as before.
pub fn print(
    out: &mut Vec<u8>,
    directive: &Directive,
    number: i32,
    text: &[u8],
) -> Result<(), AllocError>
    ensures ok { OnOk result (out.new.items ≡ out.old.items ++ form_bytes directive.now number text.now) }
    ensures err { OnErr result (out.new.items ≡ out.old.items) }
{
    match directive.conversion {
        Conversion::Text => print_text(out, directive, text),
        _ => print_number(out, directive, number),
    }
}

// As many digits as 32 bits have to the base 8.
const MOST_DIGITS: usize = 11;

// What is printed, part by part.
#[derive(Clone, Copy)]
struct Layout<'a> {
    // Blanks.
    before: usize,
    // The sign and the prefix.
    front: &'a [u8],
    zeros: usize,
    // The digits, or a string.
    shown: &'a [u8],
    // Blanks.
    after: usize,
}

// Appends what the form prints of a string.
fn print_text(out: &mut Vec<u8>, directive: &Directive, text: &[u8]) -> Result<(), AllocError>
    ensures ok { OnOk result (out.new.items ≡ out.old.items ++ printed_text directive.now text.now) }
    ensures err { OnErr result (out.new.items ≡ out.old.items) }
{
    let shown = match directive.precision {
        None => text,
        Some(most) => &text[..text.len().min(usize::from(most))],
    };
    let short = usize::from(directive.width).saturating_sub(shown.len());
    let (before, after) = if directive.flags.left {
        (0, short)
    } else {
        (short, 0)
    };
    let layout = Layout {
        before,
        front: b"",
        zeros: 0,
        shown,
        after,
    };
    push_parts(out, &layout)
}

// Appends what the form prints of a number.
fn print_number(out: &mut Vec<u8>, directive: &Directive, number: i32) -> Result<(), AllocError>
    ensures ok { OnOk result (out.new.items ≡ out.old.items ++ printed_number directive.now number) }
    ensures err { OnErr result (out.new.items ≡ out.old.items) }
{
    let mut buffer = [0; MOST_DIGITS];
    let start = write_numeral(&mut buffer, directive.conversion, number);
    let digits = &buffer[start..];
    let front = front_of(directive, number);
    let zeros = zeros_before(directive, digits);
    push_parts(out, &arrange(directive, front, zeros, digits))
}

// The parts of a number: blanks or zeros fill it up to the width.
fn arrange<'a>(directive: &Directive, front: &'a [u8], zeros: usize, shown: &'a [u8]) -> Layout<'a>
    requires { length front.now + zeros + length shown.now < 2 ^ 32 }
    ensures parts { parts_text result.before result.front.now result.zeros result.shown.now result.after
        ≡ in_width directive.now front.now (replicate zeros ascii.digit_0 ++ shown.now) }
    ensures bound { result.before + length result.front.now + result.zeros + length result.shown.now + result.after < 2 ^ 64 }
{
    let long = front.len() + zeros + shown.len();
    let short = usize::from(directive.width).saturating_sub(long);
    if directive.flags.left {
        Layout {
            before: 0,
            front,
            zeros,
            shown,
            after: short,
        }
    } else if directive.flags.zero && directive.precision.is_none() {
        Layout {
            before: 0,
            front,
            zeros: short + zeros,
            shown,
            after: 0,
        }
    } else {
        Layout {
            before: short,
            front,
            zeros,
            shown,
            after: 0,
        }
    }
}

// Makes room for all parts, and then appends them.
fn push_parts(out: &mut Vec<u8>, layout: &Layout<'_>) -> Result<(), AllocError>
    requires { layout.now.before + length layout.now.front.now + layout.now.zeros + length layout.now.shown.now + layout.now.after < 2 ^ 64 }
    ensures ok { OnOk result (out.new.items
        ≡ out.old.items ++ parts_text layout.now.before layout.now.front.now layout.now.zeros layout.now.shown.now layout.now.after) }
    ensures err { OnErr result (out.new.items ≡ out.old.items) }
{
    let Layout {
        before,
        front,
        zeros,
        shown,
        after,
    } = *layout;
    out.reserve(before + front.len() + zeros + shown.len() + after)?;
    fill(out, b' ', before);
    append(out, front);
    fill(out, b'0', zeros);
    append_reserved(out, shown);
    fill(out, b' ', after);
    Ok(())
}

// Appends the byte `count` times, mostly none. The caller has made room for them.
#[inline(always)]
fn fill(out: &mut Vec<u8>, byte: u8, count: usize)
    requires { vec_len out.old + count ≤ vec_capacity out.old }
    ensures items { out.new.items ≡ out.old.items ++ replicate count byte }
    ensures len { vec_len out.new ≡ vec_len out.old + count }
    ensures capacity { vec_capacity out.old ≤ vec_capacity out.new }
{
    if count > 0 {
        fill_reserved(out, byte, count);
    }
}

// Appends the bytes, mostly none. The caller has made room for them.
#[inline(always)]
fn append(out: &mut Vec<u8>, bytes: &[u8])
    requires { vec_len out.old + length bytes.now ≤ vec_capacity out.old }
    ensures items { out.new.items ≡ out.old.items ++ bytes.now }
    ensures len { vec_len out.new ≡ vec_len out.old + length bytes.now }
    ensures capacity { vec_capacity out.old ≤ vec_capacity out.new }
{
    if !bytes.is_empty() {
        append_reserved(out, bytes);
    }
}

// The sign and the prefix.
fn front_of(directive: &Directive, number: i32) -> &'static [u8]
    ensures value { result.now ≡ sign_in directive.now.conversion directive.now.flags number
        ++ prefix_in directive.now.conversion directive.now.flags number }
    ensures bound { length result.now ≤ 2 }
{
    let flags = directive.flags;
    match directive.conversion {
        Conversion::Decimal if number < 0 => b"-",
        Conversion::Decimal if flags.sign => b"+",
        Conversion::Decimal if flags.space => b" ",
        Conversion::LowerHex if flags.alternate && number != 0 => b"0x",
        Conversion::UpperHex if flags.alternate && number != 0 => b"0X",
        _ => b"",
    }
}

// How many zeros are before the digits, for the precision and the leading 0 of `o`.
fn zeros_before(directive: &Directive, digits: &[u8]) -> usize
    requires { slice_index digits.now 0 ≢ ascii.digit_0 }
    ensures value { replicate result ascii.digit_0 ++ digits.now ≡ digits_in directive.now.conversion directive.now.flags directive.now.precision digits.now }
    ensures bound { result < 2 ^ 16 }
{
    let least = usize::from(directive.precision.unwrap_or(1));
    let zeros = least.saturating_sub(digits.len());
    match directive.conversion {
        Conversion::Octal if directive.flags.alternate => zeros.max(1),
        _ => zeros,
    }
}

// Writes the number's digits to the end of the buffer, and returns where they begin.
fn write_numeral(buffer: &mut [u8; MOST_DIGITS], conversion: Conversion, number: i32) -> usize
    ensures bound { result ≤ digits_max }
    ensures digits { drop result buffer.new ≡ numeral conversion number }
    ensures plain { slice_index (drop result buffer.new) 0 ≢ ascii.digit_0 }
{
    match conversion {
        Conversion::Decimal => write_digits(buffer, number.unsigned_abs(), 10, false),
        Conversion::Octal => write_digits(buffer, number.cast_unsigned(), 8, false),
        Conversion::LowerHex => write_digits(buffer, number.cast_unsigned(), 16, false),
        Conversion::UpperHex => write_digits(buffer, number.cast_unsigned(), 16, true),
        Conversion::Text => MOST_DIGITS,
    }
}

// Writes the digits of a number to a base to the end of the buffer, none for 0, and returns where
// they begin.
fn write_digits(buffer: &mut [u8; MOST_DIGITS], number: u32, base: u32, upper: bool) -> usize
    requires { (8 ≤ base) × (base ≤ 16) }
    ensures bound { result ≤ digits_max }
    ensures digits { drop result buffer.new ≡ map (digit_glyph upper) (digits_of base number) }
    ensures plain { slice_index (drop result buffer.new) 0 ≢ ascii.digit_0 }
{
    let mut at = MOST_DIGITS;
    let mut rest = number;
    while rest != 0 {
        at -= 1;
        buffer[at] = glyph((rest % base) as u8, upper);
        rest /= base;
    }
    at
}

// The byte for a digit.
fn glyph(digit: u8, upper: bool) -> u8
    requires { digit < 16 }
    ensures { result ≡ digit_glyph upper digit }
{
    if digit < 10 {
        b'0' + digit
    } else if upper {
        b'A' + (digit - 10)
    } else {
        b'a' + (digit - 10)
    }
}
