//! Reads a printf form of a format: flags, width, precision and conversion.
ghost use Rattle.std.specs.Prelude.{◌≡◌, if◌then◌else◌};
ghost use Rattle.ti_formats.specs.Codes.{with_flag, span, row_for, conversions, begins_zero, is_flag};
ghost use Rattle.ti_formats.specs.inside.Codes.{directive_after, precision_after, flags_after, flags_of};
ghost use Rattle.ti_text.specs.Digits.{is_decimal_digit};
ghost use Rattle.ti_formats.specs.inside.Reader.{with_rest};

use crate::decimals::number;
use ti_printing::printf::{Conversion, Directive, Flags};

/// A printf form: flags, width, precision, conversion.
#[inline(always)]
#[tactic(auto, unfolding(crate::specs::inside::Codes::directive_after))]
pub(crate) fn directive(text: &[u8]) -> Option<(Directive, &[u8])>
    ensures { with_rest result ≡ directive_after text.now }
{
    let (flags, text) = flags(text);
    let zero = begins_with_zero(text);
    let (width, text) = number(text);
    let (precision, text) = precision(text)?;
    let (&letter, rest) = text.split_first()?;
    if width > SIZE_MAX {
        return None;
    }
    let conversion = conversion(letter)?;
    let flags = Flags { zero, ..flags };
    let form = Directive {
        flags,
        width: width as u16,
        precision,
        conversion,
    };
    Some((form, rest))
}

// Whether a width begins with a 0.
#[inline(always)]
fn begins_with_zero(text: &[u8]) -> bool
    ensures { result ≡ begins_zero (span is_decimal_digit text.now).0 }
{
    match text.split_first() {
        Some((&digit, _)) => digit == b'0',
        None => false,
    }
}

// The greatest width and precision.
const SIZE_MAX: u32 = 999;

// The flags of a printf form; `-` and `+` are flags only after a `:`, since they are operators
// too.
#[inline(always)]
#[tactic(auto, unfolding(crate::specs::inside::Codes::flags_after))]
fn flags(text: &[u8]) -> (Flags, &[u8])
    ensures { (result.0, result.1.now) ≡ flags_after text.now }
{
    match text.split_first() {
        Some((&b':', rest)) => flags_at(rest, true),
        _ => flags_at(text, false),
    }
}

// The flags at the front, with `-` and `+` among them if `signed` is set.
#[inline(always)]
fn flags_at(text: &[u8], signed: bool) -> (Flags, &[u8])
    ensures { (result.0, result.1.now) ≡ flags_of (span (is_flag signed) text.now) }
{
    let mut flags = Flags::default();
    let mut rest = text;
    while let Some((&byte, after)) = rest.split_first() {
        let Some(more) = flag(flags, byte, signed) else {
            break;
        };
        flags = more;
        rest = after;
    }
    (flags, rest)
}

// The flags with that of a byte, which is one.
#[inline(always)]
fn flag(flags: Flags, byte: u8, signed: bool) -> Option<Flags>
    ensures { result ≡ (if is_flag signed byte then Some (with_flag flags byte) else None) }
{
    match byte {
        b'#' => Some(Flags {
            alternate: true,
            ..flags
        }),
        b' ' => Some(Flags {
            space: true,
            ..flags
        }),
        b'-' if signed => Some(Flags {
            left: true,
            ..flags
        }),
        b'+' if signed => Some(Flags {
            sign: true,
            ..flags
        }),
        _ => None,
    }
}

// The precision of a printf form, if it has one; `.` without digits is 0.
#[inline(always)]
#[tactic(auto, unfolding(crate::specs::inside::Codes::precision_after))]
fn precision(text: &[u8]) -> Option<(Option<u16>, &[u8])>
    ensures { with_rest result ≡ precision_after text.now }
{
    match text.split_first() {
        Some((&b'.', digits)) => {
            let (value, rest) = number(digits);
            if value > SIZE_MAX {
                return None;
            }
            Some((Some(value as u16), rest))
        }
        _ => Some((None, text)),
    }
}

// What a printf form's last letter asks for.
#[inline(always)]
fn conversion(letter: u8) -> Option<Conversion>
    ensures { result ≡ row_for letter conversions }
{
    match letter {
        b'd' => Some(Conversion::Decimal),
        b'o' => Some(Conversion::Octal),
        b'x' => Some(Conversion::LowerHex),
        b'X' => Some(Conversion::UpperHex),
        b's' => Some(Conversion::Text),
        _ => None,
    }
}
