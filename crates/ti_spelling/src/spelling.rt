//! Reads string values as terminfo(5) spells them.

ghost use Rattle.std.specs.Prelude.{◌≡◌, ◌≤◌, ◌<◌, length, take, true, false, Ok, Err, IsOk, OnOk, IfOk, IfErr};
ghost use Rattle.std.specs.List.{list_all};
ghost use Rattle.ti_spelling.specs.declared.spelling.UnescapeError.TheVariants.{Memory};
ghost use Rattle.ti_spelling.specs.Spelling.{named_escape, is_octal_digit, octal_digits, octal_value, not_nul, Spells, IsCauseOf, HasNoNul, OneOutcome, ValuesAreSound};
ghost use Rattle.ti_spelling.specs.inside.Spelling.{octal_piece, escape_piece, control_piece, first_piece, is_literal, unescape_result, left_of, with_front, TakesPiece};

use std::alloc::{AllocError, AllocFailed, Global};
use thiserror::Error;

/// What a text spells.
#[derive(Debug, Drop)]
pub struct Unescaped {
    /// The bytes that it spells, none of them a NUL.
    pub bytes: Vec<u8>,
    /// Whether an escape occurred that terminfo(5) does not name.
    pub odd: bool,
}

/// Why a text spells nothing: the first fault in it, or no memory.
#[derive(Clone, Copy, Debug, PartialEq, Eq, Error)]
pub enum UnescapeError {
    /// A backslash and octal digits whose value is over 255.
    #[error("octal escape over 255")]
    BadOctal,
    /// A `^` without a byte after it that it can take.
    #[error("bad control pair")]
    BadControl,
    /// A NUL, plain or after a backslash.
    #[error("NUL in a string")]
    BadByte,
    /// The text spells something, but there was no room for it.
    #[error("out of memory")]
    Memory,
}

impl From<AllocError> for UnescapeError {
    ghost from_gives = { λ _ e. e ≡ Memory };

    fn from(_error: AllocError) -> UnescapeError {
        UnescapeError::Memory
    }
}

impl<T: Drop> From<AllocFailed<T>> for UnescapeError {
    ghost from_gives = { λ _ e. e ≡ Memory };

    fn from(_error: AllocFailed<T>) -> UnescapeError {
        UnescapeError::Memory
    }
}

// A piece at the front of a text: how long it is, and the byte that it spells.
#[derive(Clone, Copy)]
struct Piece {
    size: usize,
    byte: u8,
    odd: bool,
}

impl Piece {
    fn new(size: usize, byte: u8) -> Piece
        ensures { result ≡ record { size = size; byte = byte; odd = false } }
    {
        Piece {
            size,
            byte,
            odd: false,
        }
    }

    // A piece of an escape that terminfo(5) does not name.
    fn of_odd_escape(size: usize, byte: u8) -> Piece
        ensures { result ≡ record { size = size; byte = byte; odd = true } }
    {
        Piece {
            size,
            byte,
            odd: true,
        }
    }
}

// The byte that a letter after a backslash spells, if terminfo(5) names one.
fn named_escape(letter: u8) -> Option<u8>
    ensures { result ≡ named_escape letter }
{
    match letter {
        b'E' | b'e' => Some(0x1b),
        b'n' | b'l' => Some(b'\n'),
        b'r' => Some(b'\r'),
        b't' => Some(b'\t'),
        b'b' => Some(0x08),
        b'f' => Some(0x0c),
        b's' => Some(b' '),
        b'a' => Some(0x07),
        b'^' | b'\\' | b',' | b':' => Some(letter),
        _ => None,
    }
}

fn is_octal_digit(byte: u8) -> bool
    ensures { result ≡ is_octal_digit byte }
{
    matches!(byte, b'0'..=b'7')
}

// A string can't hold a NUL: terminfo(5) has 0200 in its place.
fn not_nul(byte: u8) -> u8
    ensures { result ≡ not_nul byte }
{
    if byte == 0 { 0x80 } else { byte }
}

// The most digits of an octal escape.
const MOST_OCTAL_DIGITS: usize = 3;

// The value and the count of the octal digits at the front of `text`, at most three.
fn octal_front(text: &[u8]) -> (u16, usize)
    ensures value { result.0 ≡ octal_value (octal_digits text.now) }
    ensures count { result.1 ≡ length (octal_digits text.now) }
{
    let mut value: u16 = 0;
    let mut count: usize = 0;
    for &digit in text {
        if count == MOST_OCTAL_DIGITS || !is_octal_digit(digit) {
            break;
        }
        value = value * 8 + u16::from(digit - b'0');
        count += 1;
    }
    (value, count)
}

// The piece of a backslash and the octal digits at the front of `after`.
fn octal_piece(after: &[u8]) -> Result<Piece, UnescapeError>
    ensures { result ≡ octal_piece (octal_digits after.now) }
{
    let (value, count) = octal_front(after);
    if value > 255 {
        return Err(UnescapeError::BadOctal);
    }
    Ok(Piece::new(count + 1, not_nul(value as u8)))
}

// The piece of a backslash and the front of `after`.
#[tactic(auto, unfolding(crate::specs::inside::Spelling::escape_piece))]
fn escape_piece(after: &[u8]) -> Result<Piece, UnescapeError>
    ensures { result ≡ escape_piece after.now }
{
    let [letter, ..] = after else {
        return Ok(Piece::of_odd_escape(1, b'\\'));
    };
    if let Some(byte) = named_escape(*letter) {
        return Ok(Piece::new(2, byte));
    }
    if is_octal_digit(*letter) {
        return octal_piece(after);
    }
    if *letter == 0 {
        return Err(UnescapeError::BadByte);
    }
    Ok(Piece::of_odd_escape(2, *letter))
}

// The piece of a `^` and the front of `after`.
#[tactic(auto, unfolding(crate::specs::inside::Spelling::control_piece))]
fn control_piece(after: &[u8]) -> Result<Piece, UnescapeError>
    ensures { result ≡ control_piece after.now }
{
    match after {
        [b'?', ..] => Ok(Piece::new(2, 0x7f)),
        [letter @ b' '..=b'~', ..] if *letter != b',' => Ok(Piece::new(2, not_nul(*letter & 0x1f))),
        _ => Err(UnescapeError::BadControl),
    }
}

// The piece at the front of `text`, which is not empty; `percent` if it is just after a `%`.
#[tactic(auto, unfolding(crate::specs::inside::Spelling::first_piece))]
fn first_piece(percent: bool, text: &[u8]) -> Result<Piece, UnescapeError>
    requires { 0 < length text.now }
    ensures { result ≡ first_piece percent text.now }
{
    match text {
        [b'\\', after @ ..] => escape_piece(after),
        [b'^', after @ ..] if !percent => control_piece(after),
        [0, ..] => Err(UnescapeError::BadByte),
        [byte, ..] => Ok(Piece::new(1, *byte)),
        [] => unreachable!(),
    }
}

// Whether a byte spells itself, whatever is around it.
fn is_literal(byte: u8) -> bool
    ensures { result ≡ is_literal byte }
{
    !matches!(byte, b'\\' | b'^' | 0)
}

// How many bytes at the front of `text` spell themselves, up to the first that may not.
fn literal_len(text: &[u8]) -> usize
    ensures len { result ≤ length text.now }
    ensures literal { list_all is_literal (take result text.now) ≡ true }
{
    let mut len = 0;
    while len < text.len() && is_literal(text[len]) {
        len += 1;
    }
    len
}

// What is left of a text, and the byte before it.
#[derive(Drop)]
struct Pieces<'a> {
    before: u8,
    rest: &'a [u8],
}

impl<'a> Pieces<'a> {
    #[tactic(auto, unfolding(crate::specs::inside::Spelling::unescape_result))]
    fn new(raw: &'a [u8]) -> Pieces<'a>
        ensures all { left_of result ≡ unescape_result raw.now }
        ensures len { length result.rest.now ≡ length raw.now }
    {
        Pieces {
            before: 0,
            rest: raw,
        }
    }

    // Takes the bytes at the front that spell themselves.
    fn take_literal(&mut self) -> &'a [u8]
        ensures taken { left_of self.old ≡ with_front result.now false (left_of self.new) }
        ensures len { length self.new.rest.now ≤ length self.old.rest.now }
    {
        let len = literal_len(self.rest);
        if len == 0 {
            return &self.rest[..0];
        }
        let (literal, rest) = self.rest.split_at(len);
        self.before = self.rest[len - 1];
        self.rest = rest;
        literal
    }

    // Takes the next piece, or returns that none is left.
    fn next_piece(&mut self) -> Result<Option<Piece>, UnescapeError>
        ensures { TakesPiece self.old result self.new }
    {
        if self.rest.is_empty() {
            return Ok(None);
        }
        let piece = first_piece(self.before == b'%', self.rest)?;
        self.before = self.rest[piece.size - 1];
        self.rest = &self.rest[piece.size..];
        Ok(Some(piece))
    }
}

// Whether `raw` spells something, or its first fault.
fn check(raw: &[u8]) -> Result<(), UnescapeError>
    ensures ok { OnOk result (IsOk (unescape_result raw.now)) }
    ensures err { IfErr result (λ cause. unescape_result raw.now ≡ Err cause) }
{
    let mut pieces = Pieces::new(raw);
    while let Some(_) = pieces.next_piece()? {}
    Ok(())
}

// Puts what `raw` spells into `bytes`, in one walk over it, and returns whether an escape is odd.
// The error may be `Memory` though `raw` spells nothing.
fn decode(bytes: &mut Vec<u8>, raw: &[u8]) -> Result<bool, UnescapeError>
    ensures { IfOk result (λ odd. unescape_result raw.now ≡ Ok (bytes.new.items, odd)) }
{
    let mut pieces = Pieces::new(raw);
    bytes.clear();
    // a value is no longer than its text
    bytes.reserve(raw.len())?;
    let mut odd = false;
    loop {
        bytes.extend_from_slice(pieces.take_literal())?;
        let Some(piece) = pieces.next_piece()? else {
            return Ok(odd);
        };
        bytes.push(piece.byte)?;
        odd |= piece.odd;
    }
}

/// The bytes that `raw` spells, by the escapes of terminfo(5), "Types of capabilities", and X/Open
/// Curses Issue 7, "Terminfo Source Format".
///
/// A `^` just after a `%` is literal, so that the operator `%^` stays as it is. A backslash before
/// a byte that the manual does not name spells that byte; a backslash at the end of the text spells
/// itself. In both cases the answer is `odd`. The bytes hold no NUL, and are no more than those of
/// the text.
///
/// # Errors
///
/// The first fault of the text: `BadOctal` for a value over 255, `BadControl` for a `^` before a
/// byte that it does not take, `BadByte` for a NUL outside of a pair. `Memory` comes only if the
/// text has none of these.
pub fn unescape(alloc: Global, raw: &[u8]) -> Result<Unescaped, UnescapeError>
    ensures ok { IfOk result (λ found. Spells raw.now found.bytes.items found.odd) }
    ensures err { IfErr result (λ cause. IsCauseOf cause raw.now) }
    ensures no_nul { IfOk result (λ found. HasNoNul found.bytes.items) }
    ensures no_longer { IfOk result (λ found. length found.bytes.items ≤ length raw.now) }
{
    let mut bytes = Vec::new(alloc);
    let odd = unescape_into(&mut bytes, raw)?;
    Ok(Unescaped { bytes, odd })
}

/// Puts the bytes that `raw` spells, which [`unescape`] gives, into `bytes` in the place of what
/// was there, and returns whether an escape is odd. Room that `bytes` has is used again.
///
/// # Errors
///
/// Those of [`unescape`]. What `bytes` then has is not specified.
pub fn unescape_into(bytes: &mut Vec<u8>, raw: &[u8]) -> Result<bool, UnescapeError>
    ensures ok { IfOk result (λ odd. Spells raw.now bytes.new.items odd) }
    ensures err { IfErr result (λ cause. IsCauseOf cause raw.now) }
    ensures no_nul { IfOk result (λ odd. HasNoNul bytes.new.items) }
    ensures no_longer { IfOk result (λ odd. length bytes.new.items ≤ length raw.now) }
{
    if let Ok(odd) = decode(bytes, raw) {
        return Ok(odd);
    }
    check(raw)?;
    Err(UnescapeError::Memory)
}
