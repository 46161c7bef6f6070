//! Writes a string in termcap's form.
ghost use Rattle.std.specs.Prelude.{◌≡◌, ◌<◌, ◌∷◌, ◌++◌, option_map, vec_len, length, IfOk, OnOk};
ghost use Rattle.everyday_converting.specs.Strings.{closing_size, delay_at_end, is_end, is_of_number, is_short, number_at_end, number_size};
ghost use Rattle.everyday_converting.specs.Strings.{source_is_short, source_text};
ghost use Rattle.everyday_converting.specs.Strings.{source_with, termcap_text, with_delay};
ghost use Rattle.everyday_converting.specs.Strings.{piece_text, place_in, start, state_after, written};

use crate::bytes::{Place, push_operand, push_source_byte, push_termcap_byte};
use crate::pieces::{Piece, after, byte_at, piece_at};
use std::alloc::{AllocError, Global};

/// What is known of a string before one of its pieces.
#[derive(Clone, Copy)]
pub(crate) struct State {
    /// Whether no piece is before it.
    pub first: bool,
    /// Whether a `%` that begins a code is before it.
    pub percent: bool,
    /// Whether a parameter was used.
    pub parameter: bool,
    /// Whether `%n` was written.
    pub toggled: bool,
    /// Whether `%m` was written.
    pub inverted: bool,
}

impl State {
    // The state at the front of a string.
    fn start() -> State
        ensures { result ≡ start }
    {
        State {
            first: true,
            percent: false,
            parameter: false,
            toggled: false,
            inverted: false,
        }
    }

    // The state after a piece whose first byte is given.
    fn after(self, piece: Piece, byte: u8) -> State
        ensures { result ≡ state_after self piece byte }
    {
        let percent = matches!(piece, Piece::Literal) && byte == b'%' && !self.percent;
        let parameter = self.parameter || matches!(piece, Piece::First | Piece::Second);
        State {
            first: false,
            percent,
            parameter,
            toggled: self.toggled || matches!(piece, Piece::Toggle),
            inverted: self.inverted || matches!(piece, Piece::Invert),
        }
    }

    // Where a byte stands, before others.
    fn place(self, caret: bool, after: &[u8]) -> Place
        ensures { result ≡ place_in caret self after.now }
    {
        Place {
            caret,
            first: self.first,
            percent: self.percent && !is_end(after),
        }
    }
}

// Appends a piece in termcap's form, of which the first byte and what follows that are given.
fn push_piece(
    out: &mut Vec<u8>,
    caret: bool,
    state: State,
    piece: Piece,
    byte: u8,
    after: &[u8],
) -> Result<(), AllocError>
    ensures { OnOk result (out.new.items ≡ out.old.items ++ piece_text caret state piece byte after.now) }
{
    match piece {
        Piece::Literal => push_termcap_byte(out, state.place(caret, after), byte, after),
        Piece::Delay | Piece::First => Ok(()),
        Piece::Percent => out.extend_from_slice(b"%%"),
        Piece::Decimal => out.extend_from_slice(b"%d"),
        Piece::Wide(digit) => out.extend_from_slice(&[b'%', digit]),
        Piece::Character => out.extend_from_slice(b"%."),
        Piece::Text => out.extend_from_slice(b"%s"),
        Piece::Increment => out.extend_from_slice(b"%i"),
        Piece::Second if state.parameter => Ok(()),
        Piece::Second => out.extend_from_slice(b"%r"),
        Piece::Add(constant) => {
            out.extend_from_slice(b"%+")?;
            push_operand(out, constant)
        }
        Piece::Above(least, more) => {
            out.extend_from_slice(b"%>")?;
            push_operand(out, least)?;
            push_operand(out, more)
        }
        Piece::Bcd => out.extend_from_slice(b"%B"),
        Piece::Delta => out.extend_from_slice(b"%D"),
        Piece::Toggle if state.toggled => Ok(()),
        Piece::Toggle => out.extend_from_slice(b"%n"),
        Piece::Invert if state.inverted => Ok(()),
        Piece::Invert => out.extend_from_slice(b"%m"),
    }
}

// All pieces of a string in termcap's form; `None` if termcap does not have one of them.
fn written(
    alloc: Global,
    caret: bool,
    parameters: bool,
    text: &[u8],
) -> Result<Option<Vec<u8>>, AllocError>
    ensures { IfOk result (λ done. option_map (λ out. out.items) done ≡ written caret parameters text.now) }
{
    let mut out = Vec::new(alloc);
    let mut state = State::start();
    let mut rest = text;
    while !rest.is_empty() {
        let Some(placed) = piece_at(parameters, rest) else {
            return Ok(None);
        };
        let byte = byte_at(rest, 0);
        let others = after(rest, 1);
        push_piece(&mut out, caret, state, placed.piece, byte, others)?;
        state = state.after(placed.piece, byte);
        rest = after(others, placed.size.saturating_sub(1));
    }
    Ok(Some(out))
}

// Whether a byte is of the number of a delay.
fn is_of_number(byte: u8) -> bool
    ensures { result ≡ is_of_number byte }
{
    byte.is_ascii_digit() || byte == b'.' || byte == b'*'
}

// How many bytes of a number are at the end of a text.
fn number_size(text: &[u8]) -> usize
    ensures { result ≡ number_size text.now }
{
    text.iter()
        .rev()
        .take_while(|byte| is_of_number(**byte))
        .count()
}

// The number at the end of a text, if a `<` is before it.
fn number_at_end(text: &[u8]) -> &[u8]
    ensures { result.now ≡ number_at_end text.now }
{
    let start = text.len().saturating_sub(number_size(text));
    if byte_at(text, start.saturating_sub(1)) == b'<' {
        after(text, start)
    } else {
        &[]
    }
}

// How many bytes close a delay at the end of a text.
fn closing_size(text: &[u8]) -> usize
    ensures { result ≡ closing_size text.now }
{
    if byte_at(text, text.len().saturating_sub(2)) == b'/' {
        2
    } else {
        1
    }
}

// Whether nothing of a string is left but the delay at its end.
fn is_end(text: &[u8]) -> bool
    ensures { result ≡ is_end text.now }
{
    let size = text.len().saturating_sub(closing_size(text));
    text.is_empty()
        || byte_at(text, 0) == b'$'
            && byte_at(text, 1) == b'<'
            && byte_at(text, text.len().saturating_sub(1)) == b'>'
            && size.saturating_sub(2) == number_size(&text[..size])
}

// The number of the delay at the end of a string.
fn delay_at_end(text: &[u8]) -> &[u8]
    ensures { result.now ≡ delay_at_end text.now }
{
    if byte_at(text, text.len().saturating_sub(1)) == b'>' {
        number_at_end(&text[..text.len().saturating_sub(closing_size(text))])
    } else {
        &[]
    }
}

// A string as ncurses writes it in a source, with its control bytes in octal or with carets.
fn source_with(alloc: Global, caret: bool, text: &[u8]) -> Result<Vec<u8>, AllocError>
    ensures { IfOk result (λ out. out.items ≡ source_with caret text.now) }
{
    let mut out = Vec::new(alloc);
    let mut first = true;
    let mut percent = false;
    let mut rest = text;
    while !rest.is_empty() {
        let byte = byte_at(rest, 0);
        let others = after(rest, 1);
        let place = Place {
            caret,
            first,
            percent,
        };
        push_source_byte(&mut out, place, byte, others)?;
        first = false;
        percent = byte == b'%' && !percent;
        rest = others;
    }
    Ok(out)
}

// Whether little else than control bytes is in a text of these sizes.
fn is_short(octal: usize, caret: usize) -> bool
    ensures { result ≡ is_short octal caret }
{
    caret < octal
        && octal.saturating_sub(caret) <= 20
        && caret.saturating_sub(octal.saturating_sub(caret)) < 4
}

// Whether a source has carets in a string.
fn source_is_short(alloc: Global, text: &[u8]) -> Result<bool, AllocError>
    ensures { IfOk result (λ short. short ≡ source_is_short text.now) }
{
    let octal = source_with(alloc, false, text)?;
    let caret = source_with(alloc, true, text)?;
    Ok(is_short(octal.len(), caret.len()))
}

/// A string as ncurses writes it in a terminfo source.
///
/// # Errors
/// `AllocError` if memory ran out.
pub fn source_text(alloc: Global, text: &[u8]) -> Result<Vec<u8>, AllocError>
    ensures { IfOk result (λ out. out.items ≡ source_text text.now) }
{
    let short = source_is_short(alloc, text)?;
    source_with(alloc, short, text)
}

// A delay, and a string after it: with carets if it is short, or has little else.
fn with_delay(
    alloc: Global,
    short: bool,
    delay: &[u8],
    octal: &[u8],
    caret: &[u8],
) -> Result<Vec<u8>, AllocError>
    ensures { IfOk result (λ out. out.items ≡ with_delay short delay.now octal.now caret.now) }
{
    let mut out = Vec::from_slice(alloc, delay)?;
    let lens = (
        delay.len().saturating_add(octal.len()),
        delay.len().saturating_add(caret.len()),
    );
    if short || is_short(lens.0, lens.1) {
        out.extend_from_slice(caret)?;
    } else {
        out.extend_from_slice(octal)?;
    }
    Ok(out)
}

/// A string in termcap's form; `None` if termcap has no form for it. `parameters` says whether the
/// string has parameters.
///
/// # Errors
/// `AllocError` if memory ran out.
#[tactic(auto, unfolding(crate::specs::Strings::termcap_text))]
pub fn termcap_text(
    alloc: Global,
    parameters: bool,
    text: &[u8],
) -> Result<Option<Vec<u8>>, AllocError>
    ensures { IfOk result (λ done. option_map (λ out. out.items) done ≡ termcap_text parameters text.now) }
{
    let Some(octal) = written(alloc, false, parameters, text)? else {
        return Ok(None);
    };
    let Some(caret) = written(alloc, true, parameters, text)? else {
        return Ok(None);
    };
    let short = source_is_short(alloc, text)?;
    let done = with_delay(alloc, short, delay_at_end(text), &octal, &caret)?;
    Ok(Some(done))
}
