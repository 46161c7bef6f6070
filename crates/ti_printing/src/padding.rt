//! Padding: a capability's string as bytes for the terminal, with pad bytes at the line's speed.
ghost use Rattle.std.specs.Prelude.{◌≡◌, ◌+◌, ◌<◌, ◌≤◌, ◌++◌, ◌↔◌, length, IfOk, IfSome, SomeIff, MatchOption, vec_len, vec_capacity};
ghost use Rattle.std.specs.Iterator.{YieldsFirst, item_count};
ghost use Rattle.ti_printing.specs.Padding.{AsksForTooMuch, IsPadded, TextsHaveOneCut, delay_digits_max, pad_bytes_max, pad_count, time_due};
ghost use Rattle.ti_printing.specs.inside.Padding.{parts_of, padding_at, padding_of, after_byte, digits_len, milliseconds_at, tenths_at, mark_at, marks_at, with_pad_bytes};

use memchr::memchr;
use std::alloc::{AllocError, Global};
use thiserror::Error;
use ti_text::room::fill_reserved;

/// The line to the terminal.
#[derive(Clone, Copy, Debug, PartialEq, Eq)]
pub struct Line {
    /// The speed in bits per second; a byte takes ten bits.
    pub rate: u32,
    /// The terminal stops the line itself, so that only mandatory padding is written.
    pub xon: bool,
    /// The least rate, in bits per second, at which padding is written.
    pub pad_from: u32,
    /// The byte that passes the time; `None` if the terminal has none: then no padding is written.
    pub pad_byte: Option<u8>,
}

/// Why a text was not padded.
#[derive(Clone, Copy, Debug, PartialEq, Eq, Error)]
pub enum PadError {
    /// More than 65,536 pad bytes.
    #[error("more than 65536 pad bytes")]
    TooMuch,
    /// The room for the padded text was refused.
    #[error("out of memory")]
    Memory,
}

// The most pad bytes of one text.
const MOST_PAD_BYTES: u128 = 65536;

// The most digits of the milliseconds of a padding.
const DELAY_DIGITS_MAX: usize = 5;

impl From<AllocError> for PadError {
    ghost use Rattle.ti_printing.specs.declared.padding.PadError.TheVariants.{Memory};

    ghost from_gives = { λ _ e. e ≡ Memory };

    fn from(_error: AllocError) -> PadError {
        PadError::Memory
    }
}

/// The text with each padding `$<..>` as pad bytes, if it takes effect on `lines` lines. See
/// "Delays and Padding" in terminfo(5).
///
/// # Errors
///
/// `TooMuch` if the text asks for more than 65,536 pad bytes, which is found before any room is
/// made; `Memory` if the room was refused.
pub fn pad(alloc: Global, text: &[u8], lines: u32, line: &Line) -> Result<Vec<u8>, PadError>
    ensures ok { IfOk result (λ out. IsPadded text.now lines line.now out.items) }
    ensures too_much { (result ≡ Err PadError.TooMuch) ↔ AsksForTooMuch text.now lines line.now }
{
    match memchr(b'$', text) {
        None => Ok(Vec::from_slice(alloc, text)?),
        Some(_) => pad_parts(alloc, text, lines, line),
    }
}

/// A text that the caller gives up, padded as [`pad`] does. A text without padding is given back as
/// it is, and takes no memory.
///
/// # Errors
///
/// Those of [`pad`].
pub fn pad_owned(alloc: Global, text: Vec<u8>, lines: u32, line: &Line) -> Result<Vec<u8>, PadError>
    ensures ok { IfOk result (λ out. IsPadded text.items lines line.now out.items) }
    ensures too_much { (result ≡ Err PadError.TooMuch) ↔ AsksForTooMuch text.items lines line.now }
{
    match memchr(b'$', text.as_slice()) {
        None => Ok(text),
        Some(_) => pad_parts(alloc, text.as_slice(), lines, line),
    }
}

// Pads a text, part by part.
fn pad_parts(alloc: Global, text: &[u8], lines: u32, line: &Line) -> Result<Vec<u8>, PadError>
    ensures ok { IfOk result (λ out. IsPadded text.now lines line.now out.items) }
    ensures too_much { (result ≡ Err PadError.TooMuch) ↔ AsksForTooMuch text.now lines line.now }
{
    let Some(pads) = pads_in(text, lines, line) else {
        return Err(PadError::TooMuch);
    };
    let mut out = Vec::with_capacity(alloc, text.len() + pads)?;
    write(&mut out, text, lines, line);
    Ok(out)
}

// A time, and when it is waited.
#[derive(Clone, Copy)]
pub(crate) struct Padding {
    // Tenths of a millisecond.
    tenths: u32,
    // `*`: the time is for each line.
    proportional: bool,
    // `/`: the padding is written under `xon` and at any rate.
    mandatory: bool,
}

// A part of a text.
#[derive(Clone, Copy)]
enum Part {
    // A byte at which no padding begins.
    Literal(u8),
    Delay(Padding),
}

// The parts of a text, from the left.
#[derive(Clone, Copy)]
struct Parts<'a> {
    rest: &'a [u8],
}

impl<'a> Iterator for Parts<'a> {
    type Item = Part;

    ghost next_gives = { YieldsFirst (λ s. parts_of s.rest.now) };

    ghost remaining = { item_count (λ s. parts_of s.rest.now) };

    fn next(&mut self) -> Option<Part> {
        if let Some((padding, rest)) = padding_at(self.rest) {
            self.rest = rest;
            return Some(Part::Delay(padding));
        }
        let [first, rest @ ..] = self.rest else {
            return None;
        };
        self.rest = rest;
        Some(Part::Literal(*first))
    }
}

// How many pad bytes the text asks for, if they are not too many.
#[tactic(auto, unfolding(crate::specs::inside::Padding::padding_of))]
fn pads_in(text: &[u8], lines: u32, line: &Line) -> Option<usize>
    ensures { SomeIff result (padding_of text.now lines line.now ≤ pad_bytes_max) (padding_of text.now lines line.now) }
{
    let mut total = 0;
    let parts = Parts { rest: text };
    for part in parts {
        if let Part::Delay(padding) = part {
            total += pads_for(padding, lines, line);
        }
        if total > MOST_PAD_BYTES {
            return None;
        }
    }
    Some(total as usize)
}

// Appends the padded text. The caller has made room for it.
#[tactic(auto, using(crate::proofs::Cuts::parts_fit), unfolding(crate::specs::inside::Padding::padding_of, crate::specs::inside::Padding::with_pad_bytes))]
fn write(out: &mut Vec<u8>, text: &[u8], lines: u32, line: &Line)
    requires { vec_len out.old + length text.now + padding_of text.now lines line.now ≤ vec_capacity out.old }
    ensures { out.new.items ≡ out.old.items ++ with_pad_bytes text.now lines line.now }
{
    let parts = Parts { rest: text };
    for part in parts {
        match part {
            Part::Literal(byte) => out.push_reserved(byte),
            Part::Delay(padding) => {
                let count = pads_for(padding, lines, line) as usize;
                fill_reserved(out, line.pad_byte.unwrap_or(0), count);
            }
        }
    }
}

// How many pad bytes a padding is written as.
fn pads_for(padding: Padding, lines: u32, line: &Line) -> u128
    ensures { result ≡ pad_count lines line.now padding }
{
    if line.pad_byte.is_none() {
        return 0;
    }
    (u128::from(time_due(padding, lines, line)) * u128::from(line.rate)).div_ceil(100_000)
}

/// The time that is due at a padding, in tenths of a millisecond; 0 if the line does not want it.
pub(crate) fn time_due(padding: Padding, lines: u32, line: &Line) -> u64
    ensures { result ≡ time_due lines line.now padding }
{
    if !padding.mandatory && (line.xon || line.rate < line.pad_from) {
        return 0;
    }
    let each = u64::from(padding.tenths);
    if padding.proportional {
        each * u64::from(lines)
    } else {
        each
    }
}

/// The padding that the text begins with, and what follows it.
#[tactic(auto, unfolding(crate::specs::inside::Padding::padding_at))]
pub(crate) fn padding_at(text: &[u8]) -> Option<(Padding, &[u8])>
    ensures { MatchOption result (padding_at text.now ≡ None) (λ found. padding_at text.now ≡ Some (found.0, found.1.now)) }
{
    let opened = after_byte(text, b'$')?;
    let inner = after_byte(opened, b'<')?;
    let (whole, rest) = milliseconds_at(inner)?;
    let (part, rest) = tenths_at(rest);
    let (proportional, mandatory, rest) = marks_at(rest);
    let rest = after_byte(rest, b'>')?;
    let tenths = 10 * whole + part;
    let padding = Padding {
        tenths,
        proportional,
        mandatory,
    };
    Some((padding, rest))
}

// What follows the byte, if the text begins with it.
fn after_byte(text: &[u8], byte: u8) -> Option<&[u8]>
    ensures { MatchOption result (after_byte byte text.now ≡ None) (λ rest. after_byte byte text.now ≡ Some rest.now) }
{
    let (first, rest) = text.split_first()?;
    if *first == byte { Some(rest) } else { None }
}

// The number of one to five digits that the text begins with, and what follows it.
fn milliseconds_at(text: &[u8]) -> Option<(u32, &[u8])>
    ensures value { MatchOption result (milliseconds_at text.now ≡ None) (λ found. milliseconds_at text.now ≡ Some (found.0, found.1.now)) }
    ensures bound { IfSome result (λ found. found.0 < 100000) }
{
    let (digits, rest) = text.split_at(digits_len(text));
    if digits.is_empty() {
        return None;
    }
    let mut whole = 0;
    for digit in digits {
        whole = 10 * whole + u32::from(*digit - b'0');
    }
    Some((whole, rest))
}

// How many of the first five bytes, from the left, are digits.
fn digits_len(text: &[u8]) -> usize
    ensures { result ≡ digits_len delay_digits_max text.now }
{
    let mut len = 0;
    while len < DELAY_DIGITS_MAX && len < text.len() && text[len].is_ascii_digit() {
        len += 1;
    }
    len
}

// The digit after a `.`, or 0, and what follows.
fn tenths_at(text: &[u8]) -> (u32, &[u8])
    ensures value { (result.0, result.1.now) ≡ tenths_at text.now }
    ensures bound { result.0 < 10 }
{
    match text {
        [b'.', digit @ b'0'..=b'9', rest @ ..] => (u32::from(*digit - b'0'), rest),
        _ => (0, text),
    }
}

// Whether `*` and `/` are there, and what follows.
fn marks_at(text: &[u8]) -> (bool, bool, &[u8])
    ensures { (result.0, result.1, result.2.now) ≡ marks_at text.now }
{
    let (star, rest) = mark_at(text, b'*');
    let (slash, rest) = mark_at(rest, b'/');
    let (star, rest) = if star {
        (true, rest)
    } else {
        mark_at(rest, b'*')
    };
    (star, slash, rest)
}

// Whether the byte is there, and what follows.
fn mark_at(text: &[u8], byte: u8) -> (bool, &[u8])
    ensures { (result.0, result.1.now) ≡ mark_at byte text.now }
{
    match after_byte(text, byte) {
        Some(rest) => (true, rest),
        None => (false, text),
    }
}
