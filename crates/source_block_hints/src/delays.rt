//! Padding that is none.
ghost use Rattle.std.specs.Prelude.{◌≡◌, ◌+◌, ◌^◌, ◌≤◌, length};
ghost use Rattle.ti_text.specs.Digits as digits;
ghost use Rattle.source_block_hints.specs.Delays as spec;

use crate::found::{Found, rest_of};
use crate::hint::HintKind;
use source_spans::Part;

// The most digits of the milliseconds of a delay.
const DELAY_DIGITS_MAX: usize = 5;

// How many digits are at the front of a text.
fn digits_len(text: &[u8]) -> usize
    ensures count { result ≡ spec.run_len digits.is_decimal_digit text.now }
    ensures within { result ≤ length text.now }
{
    let mut len = 0;
    let mut rest = text;
    while let Some((byte, after)) = rest.split_first() {
        if !byte.is_ascii_digit() {
            break;
        }
        len += 1;
        rest = after;
    }
    len
}

// Whether a byte may be in a delay after its `$<`.
fn is_delay_byte(byte: u8) -> bool
    ensures { result ≡ spec.is_delay_byte byte }
{
    byte.is_ascii_digit() || byte == b'.' || byte == b'*' || byte == b'/' || byte == b'>'
}

// How many bytes at the front of a text may be in a delay after its `$<`.
fn delay_len(text: &[u8]) -> usize
    ensures count { result ≡ spec.run_len spec.is_delay_byte text.now }
    ensures within { result ≤ length text.now }
{
    let mut len = 0;
    let mut rest = text;
    while let Some((byte, after)) = rest.split_first() {
        if !is_delay_byte(*byte) {
            break;
        }
        len += 1;
        rest = after;
    }
    len
}

// A text without a point and a digit at its front.
fn after_tenths(text: &[u8]) -> &[u8]
    ensures { result.now ≡ spec.after_tenths text.now }
{
    match text {
        [b'.', b'0'..=b'9', rest @ ..] => rest,
        _ => text,
    }
}

// Whether a text begins with this byte.
fn begins(text: &[u8], byte: u8) -> bool
    ensures { result ≡ spec.begins byte text.now }
{
    match text.split_first() {
        Some((first, _)) => *first == byte,
        None => false,
    }
}

// A text without this byte at its front.
fn after_mark(text: &[u8], mark: u8) -> &[u8]
    ensures { result.now ≡ spec.after_mark mark text.now }
{
    match text.split_first() {
        Some((first, rest)) if *first == mark => rest,
        _ => text,
    }
}

// A text without `*` and `/` at its front.
fn after_marks(text: &[u8]) -> &[u8]
    ensures { result.now ≡ spec.after_marks text.now }
{
    if begins(text, b'*') {
        after_mark(after_mark(text, b'*'), b'/')
    } else {
        after_mark(after_mark(text, b'/'), b'*')
    }
}

// Whether what follows the digits of a delay ends it as it must.
fn is_ended(text: &[u8]) -> bool
    ensures { result ≡ spec.is_ended text.now }
{
    begins(after_marks(after_tenths(text)), b'>')
}

// What is wrong with a delay of so many digits.
fn digits_fault(digits: usize, ended: bool) -> Option<HintKind>
    ensures { result ≡ spec.digits_fault digits ended }
{
    if !ended || digits == 0 {
        return Some(HintKind::WrongPadding);
    }
    if digits > DELAY_DIGITS_MAX {
        return Some(HintKind::LongDelay);
    }
    None
}

// What is wrong with the delay whose `$<` is just before a text.
fn delay_fault(text: &[u8]) -> Option<HintKind>
    ensures { result ≡ spec.delay_fault text.now }
{
    let digits = digits_len(text);
    digits_fault(digits, is_ended(rest_of(text, digits)))
}

// What is wrong with the delay that a text begins with, if its `$<` is there.
fn fault_at(text: &[u8]) -> Option<HintKind>
    ensures { result ≡ spec.fault_at text.now }
{
    match text {
        [b'$', b'<', rest @ ..] => delay_fault(rest),
        _ => None,
    }
}

// What is wrong with the delay that a text begins with, which is at this offset of its item.
fn found_at(text: &[u8], at: usize) -> Option<Found>
    requires { at + length text.now ≤ 2 ^ 63 + 1 }
    ensures { result ≡ spec.found_at at text.now (spec.fault_at text.now) }
{
    let kind = fault_at(text)?;
    let quoted = delay_len(rest_of(text, 2));
    Some(Found {
        kind,
        part: Part {
            start: at,
            end: at + 2 + quoted,
        },
    })
}

/// The first wrong delay of a text, which is at this offset of its item.
pub(crate) fn delay_from(text: &[u8], from: usize) -> Option<Found>
    requires { from + length text.now ≤ 2 ^ 63 + 1 }
    ensures { result ≡ spec.delay_from from text.now }
{
    let mut at = from;
    let mut rest = text;
    while let Some((_, after)) = rest.split_first() {
        if let Some(found) = found_at(rest, at) {
            return Some(found);
        }
        at += 1;
        rest = after;
    }
    None
}
