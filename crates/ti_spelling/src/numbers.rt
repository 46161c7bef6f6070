//! The numbers of a source.
ghost use Rattle.std.specs.Prelude.{◌≡◌, ◌≤◌, ◌+◌, min, IfSome};
ghost use Rattle.std.specs.Option.{option_map, option_and_then};
ghost use Rattle.ti_text.specs.Limits.{number_max};
ghost use Rattle.ti_spelling.specs.Numbers as spec;
ghost use Rattle.ti_spelling.specs.inside.Numbers as computed;

use crate::white_space::trim_end;
use thiserror::Error;
use ti_text::limits::NUMBER_MAX;

// The greatest value of a number.
const GREATEST: u32 = NUMBER_MAX;

/// Why a text is not a number.
#[derive(Clone, Copy, PartialEq, Eq, Debug, Error)]
pub enum NumberError {
    /// It is not written as a number is.
    #[error("bad number")]
    Bad,
    /// Its value is over 2,147,483,647.
    #[error("number too large")]
    TooLarge,
}

fn digit_value(byte: u8) -> u32
    ensures { result ≡ spec.digit_value byte }
{
    match byte {
        b'0'..=b'9' => (byte - b'0') as u32,
        b'a'..=b'f' => (byte - b'a') as u32 + 10,
        b'A'..=b'F' => (byte - b'A') as u32 + 10,
        _ => 16,
    }
}

// The digits of a number, and the base that they are in.
fn base_and_digits(number: &[u8]) -> Option<(u32, &[u8])>
    ensures value { computed.value_read number.now ≡ option_and_then (λ p. computed.digits_read p.0 p.1.now) result }
    ensures base { IfSome result (λ p. p.0 ≤ 16) }
{
    match number {
        [] => None,
        [b'0', b'x' | b'X', _, ..] => Some((16, &number[2..])),
        [b'0', ..] => Some((8, &number[1..])),
        _ => Some((10, number)),
    }
}

// The value of digits in a base. A value over the limit stops just above it.
fn digits_value(base: u32, digits: &[u8]) -> Option<u32>
    requires { base ≤ 16 }
    ensures { result ≡ option_map (λ value. min value (number_max + 1)) (computed.digits_read base digits.now) }
{
    let mut value = 0;
    for byte in digits {
        let digit = digit_value(*byte);
        if digit >= base {
            return None;
        }
        let more = u64::from(value) * u64::from(base) + u64::from(digit);
        value = more.min(u64::from(GREATEST) + 1) as u32;
    }
    Some(value)
}

fn value(number: &[u8]) -> Option<u32>
    ensures { result ≡ option_map (λ value. min value (number_max + 1)) (computed.value_read number.now) }
{
    let (base, digits) = base_and_digits(number)?;
    digits_value(base, digits)
}

/// The number that `text` writes, as C does: `0` and octal digits, `0x` or `0X` and hexadecimal
/// digits, or decimal digits, with any white space after it (X/Open Curses Issue 7, "Terminfo
/// Source Format").
///
/// # Errors
///
/// `Bad` if the text is not written so, and `TooLarge` if its value, of however many digits, is
/// over 2,147,483,647.
pub fn read_number(text: &[u8]) -> Result<u32, NumberError>
    ensures { spec.ReadsAs text.now result }
{
    match value(trim_end(text)) {
        None => Err(NumberError::Bad),
        Some(value) if value > GREATEST => Err(NumberError::TooLarge),
        Some(value) => Ok(value),
    }
}
