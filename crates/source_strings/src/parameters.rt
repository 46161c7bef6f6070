//! Which parameter a place of the source text of a string is about.
ghost use Rattle.std.specs.Prelude.{◌≡◌, IfOk, None};
ghost use Rattle.std.specs.List.{filter_map, last_or};
ghost use Rattle.ti_formats.specs.Left.{left_of};
ghost use Rattle.ti_spelling.specs.inside.Spelling.{unescape_result};
ghost use Rattle.source_strings.specs.Parameters as spec;
ghost use Rattle.source_strings.specs.Parameters.{last_pushed, last_read, pushed_by};

use crate::places::place_in;
use std::alloc::{AllocError, Global};
use ti_formats::{Code, Lexer, Placed, Token};
use ti_spelling::{UnescapeError, unescape};

// The parameter that a token pushes, if it begins at a place or before it.
fn pushed_by(place: usize, found: &Placed) -> Option<usize>
    ensures { result ≡ pushed_by place found.now }
{
    if found.place > place {
        return None;
    }
    match found.token {
        Token::Operation(Code::Parameter(index)) => Some(index.index()),
        _ => None,
    }
}

// The last parameter that the tokens which are left push, if they begin at a place or before it.
fn last_left(lexer: &mut Lexer<'_>, place: usize) -> Option<usize>
    ensures { result ≡ last_or None (filter_map (pushed_by place) (left_of lexer.old).tokens) }
{
    let mut last = None;
    while let Some(found) = lexer.next_token() {
        last = pushed_by(place, &found).or(last);
    }
    last
}

// The last parameter that a format pushes by a code which begins at a place or before it.
fn last_pushed(format: &[u8], place: usize) -> Option<usize>
    ensures { result ≡ last_pushed place format.now }
{
    let mut lexer = Lexer::new(format);
    last_left(&mut lexer, place)
}

// The same of the string that a source text spells, if it spells one.
fn last_read(alloc: Global, raw: &[u8], place: usize) -> Result<Option<usize>, AllocError>
    ensures { IfOk result (λ last. last ≡ last_read place (unescape_result raw.now)) }
{
    match unescape(alloc, raw) {
        Ok(found) => Ok(last_pushed(found.bytes.as_slice(), place)),
        Err(UnescapeError::Memory) => Err(AllocError),
        Err(_) => Ok(None),
    }
}

/// The last parameter, counted from 0, that the string of a source text pushes by a `%p` which begins
/// with the byte at an offset of that text or before it; `None` if none does, after the text, and if
/// the text spells nothing.
///
/// # Errors
/// Out of memory.
pub fn parameter_at(alloc: Global, raw: &[u8], offset: usize) -> Result<Option<usize>, AllocError>
    ensures { IfOk result (λ last. last ≡ spec.parameter_at raw.now offset) }
{
    match place_in(alloc, raw, offset)? {
        None => Ok(None),
        Some(place) => last_read(alloc, raw, place),
    }
}
