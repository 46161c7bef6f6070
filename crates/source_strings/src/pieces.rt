//! A string as its pieces: runs of bytes that are written as they are, and codes.
ghost use Rattle.std.specs.Prelude.{◌≡◌, ◌++◌, IfOk, OnOk, map};
ghost use Rattle.std.specs.String.{string_bytes};
ghost use Rattle.ti_formats.specs.Left.{left_of};
ghost use Rattle.source_strings.specs.Pieces as spec;
ghost use Rattle.source_strings.specs.Pieces.{PiecesAreWhole, piece_seen, pieces_after, reading_of, stop_or};
ghost use Rattle.source_strings.specs.Words.{words_of};

use crate::words::words_of;
use std::alloc::{AllocError, Global};
use ti_formats::{Lexer, Placed, Token};

/// A piece of a string.
#[derive(Debug, Drop)]
pub struct Piece {
    /// The index of its first byte.
    pub start: usize,
    /// The index after its last byte.
    pub end: usize,
    /// Whether it is a run of bytes that are written as they are; else it is a code.
    pub literal: bool,
    /// What it does, in words.
    pub words: String,
}

/// A string as its pieces.
#[derive(Debug, Drop)]
pub struct Pieces {
    /// The pieces in order, from the first byte of the string on.
    pub list: Vec<Piece>,
    /// The index of the first `%` that begins no code which may come there, if there is one. The
    /// pieces end there, else with the string.
    pub stop: Option<usize>,
}

// Whether a token only writes its own byte.
fn is_literal(token: &Token) -> bool
    ensures { result ≡ spec.is_literal token.now }
{
    match token {
        Token::Literal(_) => true,
        Token::Operation(_) | Token::If | Token::Then | Token::Else | Token::EndIf => false,
    }
}

// Adds the pieces of the tokens that are left, after one that begins a piece. They end where the
// format is stuck, which is returned, else at this place.
#[tactic(auto, unfolding(crate::specs::Pieces::pieces_after))]
fn push_after(
    alloc: Global,
    list: &mut Vec<Piece>,
    lexer: &mut Lexer<'_>,
    begun: Placed,
    len: usize,
) -> Result<Option<usize>, AllocError>
    ensures list { OnOk result (map piece_seen list.new.items ≡ map piece_seen list.old.items
        ++ pieces_after begun.place (spec.is_literal begun.token) (words_of begun.token) (left_of lexer.old).tokens (stop_or len (left_of lexer.old).stop)) }
    ensures stop { IfOk result (λ stop. stop ≡ (left_of lexer.old).stop) }
{
    let mut start = begun.place;
    let mut literal = is_literal(&begun.token);
    let mut words = words_of(alloc, &begun.token)?;
    while let Some(Placed { place, token }) = lexer.next_token() {
        let plain = is_literal(&token);
        if literal && plain {
            continue;
        }
        list.push(Piece {
            start,
            end: place,
            literal,
            words,
        })?;
        start = place;
        literal = plain;
        words = words_of(alloc, &token)?;
    }
    let stop = lexer.end();
    list.push(Piece {
        start,
        end: stop.unwrap_or(len),
        literal,
        words,
    })?;
    Ok(stop)
}

/// The pieces of a string, and where it is no format, if it is none. terminfo(5), "Parameterized
/// Strings".
///
/// # Errors
/// Out of memory.
pub fn pieces_of(alloc: Global, format: &[u8]) -> Result<Pieces, AllocError>
    ensures list { IfOk result (λ pieces. map piece_seen pieces.list.items ≡ spec.pieces_of format.now) }
    ensures stop { IfOk result (λ pieces. pieces.stop ≡ (reading_of format.now).stop) }
{
    let mut lexer = Lexer::new(format);
    let mut list = Vec::new(alloc);
    let Some(first) = lexer.next_token() else {
        let stop = lexer.end();
        return Ok(Pieces { list, stop });
    };
    let stop = push_after(alloc, &mut list, &mut lexer, first, format.len())?;
    Ok(Pieces { list, stop })
}

/// A law, with no code: nothing of a string is dropped.
pub fn pieces_are_whole()
    ensures { PiecesAreWhole }
{}

/// The text of a piece of a string.
pub(crate) fn text_of<'a>(format: &'a [u8], piece: &Piece) -> &'a [u8]
    ensures { result.now ≡ spec.text_of format.now (piece_seen piece.now) }
{
    let end = piece.end.min(format.len());
    let start = piece.start.min(end);
    &format[start..end]
}
