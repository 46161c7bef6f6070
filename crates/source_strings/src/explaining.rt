//! The text on a string that an editor shows.
ghost use Rattle.std.specs.Prelude.{◌≡◌, ◌++◌, IfOk, OnOk, drop, length, map, nat_lt, option_map};
ghost use Rattle.std.specs.List.{find, flat_map};
ghost use Rattle.std.specs.String.{string_bytes};
ghost use Rattle.source_strings.specs.Explained as spec;
ghost use Rattle.source_strings.specs.Explained.{here_line, here_of, has_padding, holds, lines_of, lines_on, piece_line, stop_line, told, unread_line, wait_words};
ghost use Rattle.source_strings.specs.Pieces.{piece_seen};

use crate::examples::push_example;
use crate::pieces::{Piece, Pieces, pieces_of, text_of};
use crate::spellings::spelled;
use std::alloc::{AllocError, Global};
use ti_printing::{Line, pad};

// The most bytes of a string that is explained.
const EXPLAINED_MAX: usize = 4096;

// Whether what is sent is shorter than a text.
fn is_shorter(sent: &[u8], text: &[u8]) -> bool
    ensures { result ≡ nat_lt (length sent.now) (length text.now) }
{
    sent.len() < text.len()
}

// Whether a text has padding.
fn has_padding(alloc: Global, text: &[u8]) -> Result<bool, AllocError>
    ensures { IfOk result (λ has. has ≡ has_padding text.now) }
{
    let line = Line {
        rate: 9600,
        xon: false,
        pad_from: 0,
        pad_byte: None,
    };
    match pad(alloc, text, 1, &line) {
        Ok(sent) => Ok(is_shorter(sent.as_slice(), text)),
        // without a pad byte it is never too much
        Err(_) => Err(AllocError),
    }
}

// Adds what else a piece does that is written as it is, if its text has padding.
#[tactic(auto, unfolding(crate::specs::Explained::wait_words))]
fn push_wait(
    alloc: Global,
    text: &mut String,
    literal: bool,
    written: &[u8],
) -> Result<(), AllocError>
    ensures { OnOk result (string_bytes text.new ≡ string_bytes text.old ++ wait_words literal written.now) }
{
    if !literal {
        return Ok(());
    }
    if !has_padding(alloc, written)? {
        return Ok(());
    }
    text.push_str(", and wait where it has $<..>")
}

// Adds a piece as a source spells it, and what it does.
fn push_told(
    alloc: Global,
    text: &mut String,
    format: &[u8],
    piece: &Piece,
) -> Result<(), AllocError>
    ensures { OnOk result (string_bytes text.new ≡ string_bytes text.old ++ told format.now (piece_seen piece.now)) }
{
    let bytes = text_of(format, piece);
    let written = spelled(alloc, bytes)?;
    text.push_str(written.as_str())?;
    text.push_str(": ")?;
    text.push_str(piece.words.as_str())?;
    push_wait(alloc, text, piece.literal, bytes)
}

// Adds a line for each piece.
fn push_pieces(
    alloc: Global,
    text: &mut String,
    format: &[u8],
    pieces: &[Piece],
) -> Result<(), AllocError>
    ensures { OnOk result (string_bytes text.new ≡ string_bytes text.old ++ flat_map (piece_line format.now) (map piece_seen pieces.now)) }
{
    for piece in pieces {
        text.push_str("\n  ")?;
        push_told(alloc, text, format, piece)?;
    }
    Ok(())
}

// Whether a piece holds the byte at a place.
fn holds(place: usize, piece: &Piece) -> bool
    ensures { result ≡ holds place (piece_seen piece.now) }
{
    piece.start <= place && place < piece.end
}

// The first piece that holds the byte at a place.
fn piece_at(pieces: &[Piece], place: usize) -> Option<&Piece>
    ensures { option_map (λ piece. piece_seen piece.now) result ≡ find (holds place) (map piece_seen pieces.now) }
{
    for piece in pieces {
        if holds(place, piece) {
            return Some(piece);
        }
    }
    None
}

// Adds a line on a piece, if it is a code.
fn push_code_line(
    alloc: Global,
    text: &mut String,
    format: &[u8],
    piece: &Piece,
) -> Result<(), AllocError>
    ensures { OnOk result (string_bytes text.new ≡ string_bytes text.old ++ here_of format.now (piece_seen piece.now)) }
{
    if piece.literal {
        return Ok(());
    }
    text.push_str("\nHere: ")?;
    push_told(alloc, text, format, piece)
}

// Adds a line on the code at a place, if one is there.
fn push_here(
    alloc: Global,
    text: &mut String,
    format: &[u8],
    pieces: &[Piece],
    at: Option<usize>,
) -> Result<(), AllocError>
    ensures { OnOk result (string_bytes text.new ≡ string_bytes text.old ++ here_line format.now (map piece_seen pieces.now) at) }
{
    let Some(place) = at else {
        return Ok(());
    };
    match piece_at(pieces, place) {
        None => Ok(()),
        Some(piece) => push_code_line(alloc, text, format, piece),
    }
}

// What is left of a string from a place on.
fn rest_from(format: &[u8], place: usize) -> &[u8]
    ensures { result.now ≡ drop place format.now }
{
    let start = place.min(format.len());
    &format[start..]
}

// A line with what is left of a string that is no format.
fn unread_line(alloc: Global, rest: &[u8]) -> Result<String, AllocError>
    ensures { IfOk result (λ line. string_bytes line ≡ unread_line rest.now) }
{
    let written = spelled(alloc, rest)?;
    format!(in alloc; "\n  {written}: invalid from here on")
}

// Adds such a line.
fn push_unread(alloc: Global, text: &mut String, rest: &[u8]) -> Result<(), AllocError>
    ensures { OnOk result (string_bytes text.new ≡ string_bytes text.old ++ unread_line rest.now) }
{
    let line = unread_line(alloc, rest)?;
    text.push_str(line.as_str())
}

// Adds such a line, if the string stops.
fn push_stop(
    alloc: Global,
    text: &mut String,
    format: &[u8],
    stop: Option<usize>,
) -> Result<(), AllocError>
    ensures { OnOk result (string_bytes text.new ≡ string_bytes text.old ++ stop_line format.now stop) }
{
    match stop {
        None => Ok(()),
        Some(place) => push_unread(alloc, text, rest_from(format, place)),
    }
}

// Adds the lines on a string with these pieces.
fn push_lines(
    alloc: Global,
    text: &mut String,
    name: &str,
    parameters: &str,
    format: &[u8],
    pieces: &Pieces,
    at: Option<usize>,
) -> Result<(), AllocError>
    ensures { OnOk result (string_bytes text.new ≡ string_bytes text.old
        ++ lines_of name.now parameters.now format.now (map piece_seen pieces.now.list.items) pieces.now.stop at) }
{
    push_here(alloc, text, format, pieces.list.as_slice(), at)?;
    text.push_str("\nPieces:")?;
    push_pieces(alloc, text, format, pieces.list.as_slice())?;
    push_stop(alloc, text, format, pieces.stop)?;
    push_example(alloc, text, name, parameters, format)
}

// The lines on a string.
fn lines_on(
    alloc: Global,
    name: &str,
    parameters: &str,
    format: &[u8],
    at: Option<usize>,
) -> Result<String, AllocError>
    ensures { IfOk result (λ text. string_bytes text ≡ lines_on name.now parameters.now format.now at) }
{
    let pieces = pieces_of(alloc, format)?;
    let mut text = String::new(alloc);
    push_lines(alloc, &mut text, name, parameters, format, &pieces, at)?;
    Ok(text)
}

/// What is said about the string of a capability that takes parameters with these names, each line
/// after a newline: what the code at a place of the string does, if one is there, the pieces of the
/// string and what they do, and what the string gives for an example. Nothing is said about a
/// string of more than 4,096 bytes.
///
/// # Errors
/// Out of memory.
pub fn explained(
    alloc: Global,
    name: &str,
    parameters: &str,
    format: &[u8],
    at: Option<usize>,
) -> Result<String, AllocError>
    ensures { IfOk result (λ text. string_bytes text ≡ spec.explained name.now parameters.now format.now at) }
{
    if format.len() > EXPLAINED_MAX {
        return Ok(String::new(alloc));
    }
    lines_on(alloc, name, parameters, format, at)
}
