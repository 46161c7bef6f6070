//! Reads the decimal digits of a format.
ghost use Rattle.std.specs.Prelude.{◌≡◌, ◌-◌, ◌^◌, min};
ghost use Rattle.ti_formats.specs.Codes.{span};
ghost use Rattle.ti_text.specs.Digits.{is_decimal_digit, decimal_value};

/// The number that the digits at the front spell, 0 if there are none; `u32::MAX` for any greater
/// one.
#[inline(always)]
pub(crate) fn number(text: &[u8]) -> (u32, &[u8])
    ensures value { result.0 ≡ min (decimal_value (span is_decimal_digit text.now).0) (2 ^ 32 - 1) }
    ensures rest { result.1.now ≡ (span is_decimal_digit text.now).1 }
{
    let mut value = 0u32;
    let mut rest = text;
    while let Some((&byte, after)) = rest.split_first() {
        if !byte.is_ascii_digit() {
            break;
        }
        value = value
            .saturating_mul(10)
            .saturating_add(u32::from(byte - b'0'));
        rest = after;
    }
    (value, rest)
}
