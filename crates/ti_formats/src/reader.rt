//! Reads one code of a format.
//!
//! Each reader takes the text at which it begins, and gives what it read and the text after it.
ghost use Rattle.std.specs.Prelude.{◌≡◌, Some, None};
ghost use Rattle.ti_formats.specs.declared.codes.Code.TheVariants.{Print};
ghost use Rattle.ti_formats.specs.Codes.{OneCode};
ghost use Rattle.ti_formats.specs.inside.Codes.{code_of, token_after, parameter_after, store_after, fetch_after, byte_after, number_after, plain_form};
ghost use Rattle.ti_formats.specs.inside.Reader.{with_rest};

use crate::codes::{Code, Operator, parameter_index, variable_of};
use crate::decimals::number;
use crate::directives::directive;
use ti_printing::printf::{Conversion, Directive, Flags};
use ti_text::limits::NUMBER_MAX;

/// The code by itself at the front of the text after a `%`.
#[tactic(auto, unfolding(crate::specs::inside::Codes::token_after, crate::specs::inside::Codes::letter_after))]
#[inline(always)]
pub(crate) fn read_code(text: &[u8]) -> Option<(Code, &[u8])>
    ensures { with_rest result ≡ code_of (token_after text.now) }
{
    let (&letter, rest) = text.split_first()?;
    match letter {
        b'd' => Some((plain_form(Conversion::Decimal), rest)),
        b'p' => parameter(rest),
        b'{' => number_constant(rest),
        b'P' => store(rest),
        b'g' => fetch(rest),
        b'\'' => byte(rest),
        b's' => Some((plain_form(Conversion::Text), rest)),
        b'o' => Some((plain_form(Conversion::Octal), rest)),
        b'x' => Some((plain_form(Conversion::LowerHex), rest)),
        b'X' => Some((plain_form(Conversion::UpperHex), rest)),
        b':' | b'#' | b' ' | b'0'..=b'9' | b'.' => {
            let (form, rest) = directive(text)?;
            Some((Code::Print(form), rest))
        }
        b'%' => Some((Code::Percent, rest)),
        b'c' => Some((Code::Character, rest)),
        b'l' => Some((Code::Length, rest)),
        b'i' => Some((Code::Increment, rest)),
        b'!' => Some((Code::Not, rest)),
        b'~' => Some((Code::Complement, rest)),
        b'+' => Some((Code::Binary(Operator::Add), rest)),
        b'-' => Some((Code::Binary(Operator::Subtract), rest)),
        b'*' => Some((Code::Binary(Operator::Multiply), rest)),
        b'/' => Some((Code::Binary(Operator::Divide), rest)),
        b'm' => Some((Code::Binary(Operator::Remainder), rest)),
        b'&' => Some((Code::Binary(Operator::BitAnd), rest)),
        b'|' => Some((Code::Binary(Operator::BitOr), rest)),
        b'^' => Some((Code::Binary(Operator::BitXor), rest)),
        b'=' => Some((Code::Binary(Operator::Equal), rest)),
        b'>' => Some((Code::Binary(Operator::Greater), rest)),
        b'<' => Some((Code::Binary(Operator::Less), rest)),
        b'A' => Some((Code::Binary(Operator::And), rest)),
        b'O' => Some((Code::Binary(Operator::Or), rest)),
        _ => None,
    }
}

// A printf form of a conversion alone.
#[inline(always)]
fn plain_form(conversion: Conversion) -> Code
    ensures { result ≡ Print (plain_form conversion) }
{
    Code::Print(Directive {
        flags: Flags::default(),
        width: 0,
        precision: None,
        conversion,
    })
}

// `%p1` to `%p9`, after the `p`.
#[inline(always)]
#[tactic(auto, unfolding(crate::specs::inside::Codes::parameter_after))]
fn parameter(text: &[u8]) -> Option<(Code, &[u8])>
    ensures { with_rest result ≡ code_of (parameter_after text.now) }
{
    let (&digit, rest) = text.split_first()?;
    let index = parameter_index(digit)?;
    Some((Code::Parameter(index), rest))
}

// `%P` and a letter, after the `P`.
#[inline(always)]
#[tactic(auto, unfolding(crate::specs::inside::Codes::store_after))]
fn store(text: &[u8]) -> Option<(Code, &[u8])>
    ensures { with_rest result ≡ code_of (store_after text.now) }
{
    let (&letter, rest) = text.split_first()?;
    let variable = variable_of(letter)?;
    Some((Code::Store(variable), rest))
}

// `%g` and a letter, after the `g`.
#[inline(always)]
#[tactic(auto, unfolding(crate::specs::inside::Codes::fetch_after))]
fn fetch(text: &[u8]) -> Option<(Code, &[u8])>
    ensures { with_rest result ≡ code_of (fetch_after text.now) }
{
    let (&letter, rest) = text.split_first()?;
    let variable = variable_of(letter)?;
    Some((Code::Fetch(variable), rest))
}

// `%'c'`, after the first quote: the value of the byte, whatever it is.
#[inline(always)]
#[tactic(auto, unfolding(crate::specs::inside::Codes::byte_after))]
fn byte(text: &[u8]) -> Option<(Code, &[u8])>
    ensures { with_rest result ≡ code_of (byte_after text.now) }
{
    let (&byte, rest) = text.split_first()?;
    let (&quote, rest) = rest.split_first()?;
    if quote != b'\'' {
        return None;
    }
    Some((Code::Constant(i32::from(byte)), rest))
}

// `%{n}`, after the brace: one or more digits, at most `LARGEST`.
#[inline(always)]
#[tactic(auto, unfolding(crate::specs::inside::Codes::number_after))]
fn number_constant(text: &[u8]) -> Option<(Code, &[u8])>
    ensures { with_rest result ≡ code_of (number_after text.now) }
{
    let (value, after) = number(text);
    let (&brace, rest) = after.split_first()?;
    if brace != b'}' || after.len() == text.len() || value > LARGEST {
        return None;
    }
    Some((Code::Constant(value as i32), rest))
}

// The largest number that a `%{n}` may push.
const LARGEST: u32 = NUMBER_MAX;

/// The law of codes: no code's text begins another's, so a text has at most one code at its front.
pub fn one_code()
    ensures { OneCode }
{}
