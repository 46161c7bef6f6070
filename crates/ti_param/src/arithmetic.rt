//! The operators of a parameter string, on signed numbers of 32 bits that wrap.
ghost use Rattle.std.specs.Prelude.{◌≡◌, pos, length};
ghost use Rattle.ti_param.specs.Meaning.{operation, complement, low_byte, truth, is_zero, in_32_bits};

use ti_formats::Operator;

/// `x` and `y` under an operator. A division by 0 gives 0.
pub(crate) fn operate(operator: Operator, x: i32, y: i32) -> i32
    ensures { result ≡ operation operator x y }
{
    match operator {
        Operator::Add => x.wrapping_add(y),
        Operator::Subtract => x.wrapping_sub(y),
        Operator::Multiply => x.wrapping_mul(y),
        Operator::Divide => divide(x, y),
        Operator::Remainder => remainder(x, y),
        Operator::BitAnd => x & y,
        Operator::BitOr => x | y,
        Operator::BitXor => x ^ y,
        Operator::Equal => i32::from(x == y),
        Operator::Greater => i32::from(x > y),
        Operator::Less => i32::from(x < y),
        Operator::And => i32::from(x != 0 && y != 0),
        Operator::Or => i32::from(x != 0 || y != 0),
    }
}

// The quotient, cut towards 0; 0 if `y` is 0.
fn divide(x: i32, y: i32) -> i32
    ensures { result ≡ operation Operator.Divide x y }
{
    if y == 0 { 0 } else { x.wrapping_div(y) }
}

// The remainder, with the sign of `x`; 0 if `y` is 0.
fn remainder(x: i32, y: i32) -> i32
    ensures { result ≡ operation Operator.Remainder x y }
{
    if y == 0 { 0 } else { x.wrapping_rem(y) }
}

/// The bitwise complement.
pub(crate) fn bitwise_not(x: i32) -> i32
    ensures { result ≡ complement x }
{
    !x
}

/// 1 for 0, 0 for any other number.
pub(crate) fn logical_not(x: i32) -> i32
    ensures { result ≡ truth (is_zero x) }
{
    i32::from(x == 0)
}

/// The low eight bits, and 0x80 in place of 0.
pub(crate) fn character(x: i32) -> u8
    ensures { result ≡ low_byte x }
{
    let byte = (x.cast_unsigned() % 256) as u8;
    if byte == 0 { 0x80 } else { byte }
}

/// A length as a number.
pub(crate) fn wrapped_length(text: &[u8]) -> i32
    ensures { result ≡ in_32_bits (pos (length text.now)) }
{
    ((text.len() % (1 << 32)) as u32).cast_signed()
}
