//! Hints on a whole file (N6): a byte order mark in front, lines that end in CR LF, and a comment
//! sign after white space.
ghost use Rattle.std.specs.Prelude.{◌≡◌, ◌<◌, ◌≤◌, ◌^◌, IfOk, IfSome, length};
ghost use Rattle.source_hints.specs.FileForms as spec;
ghost use Rattle.source_hints.specs.FileForms.{begins_with, hints_at};

use crate::merging::merged;
use memchr::memchr;
use source_block_hints::{Hint, HintKind};
use std::alloc::{AllocError, Global};
use ti_text::is_white_space;

// What is looked for in a file.
#[derive(Clone, Copy)]
pub(crate) enum Shape {
    // CR LF.
    Returns,
    // A newline, and in the line after it a comment sign after white space.
    Comment,
}

// Whether a text begins with the byte order mark of UTF-8.
fn has_mark(text: &[u8]) -> bool
    ensures { result ≡ spec.has_mark text.now }
{
    matches!(text, [0xEF, 0xBB, 0xBF, ..])
}

// Whether a text begins with a byte.
fn begins_with(text: &[u8], byte: u8) -> bool
    ensures { result ≡ begins_with byte text.now }
{
    match text {
        [first, ..] => *first == byte,
        [] => false,
    }
}

// Whether a text begins with a comment sign, after any white space.
fn signs(text: &[u8]) -> bool
    ensures { result ≡ spec.signs text.now }
{
    for at in 0..text.len() {
        if !is_white_space(text[at]) {
            return text[at] == b'#';
        }
    }
    false
}

// Whether a line begins with a comment sign, after some white space.
fn signs_late(line: &[u8]) -> bool
    ensures { result ≡ spec.signs_late line.now }
{
    match line {
        [first, rest @ ..] => is_white_space(*first) && signs(rest),
        [] => false,
    }
}

// Whether what is looked for begins a text.
fn is_shape(shape: Shape, text: &[u8]) -> bool
    ensures { result ≡ spec.is_shape shape text.now }
{
    match text {
        [] => false,
        [first, rest @ ..] => match shape {
            Shape::Returns => *first == b'\r' && begins_with(rest, b'\n'),
            Shape::Comment => *first == b'\n' && signs_late(rest),
        },
    }
}

// The byte with which it begins.
fn first_byte(shape: Shape) -> u8
    ensures { result ≡ spec.first_byte shape }
{
    match shape {
        Shape::Returns => b'\r',
        Shape::Comment => b'\n',
    }
}

// Where the first of that shape is in a text.
fn first_shape(shape: Shape, text: &[u8]) -> Option<usize>
    ensures shape { result ≡ spec.first_shape shape text.now }
    ensures within { IfSome result (λ at. at < length text.now) }
{
    let byte = first_byte(shape);
    let mut from = 0;
    while let Some(passed) = memchr(byte, &text[from..]) {
        let at = from + passed;
        if is_shape(shape, &text[at..]) {
            return Some(at);
        }
        from = at + 1;
    }
    None
}

// Where the first line begins in which a comment sign is after white space.
fn comment_line(text: &[u8]) -> Option<usize>
    ensures line { result ≡ spec.comment_line text.now }
    ensures within { IfSome result (λ at. at ≤ length text.now) }
{
    if signs_late(text) {
        return Some(0);
    }
    match first_shape(Shape::Comment, text) {
        Some(at) => Some(at + 1),
        None => None,
    }
}

// Adds the hint of that kind at an offset, if there is one.
fn hints_at(
    alloc: Global,
    kind: HintKind,
    size: usize,
    at: Option<usize>,
) -> Result<Vec<Hint>, AllocError>
    requires size { size ≤ 3 }
    requires room { IfSome at (λ start. start ≤ 2 ^ 63) }
    ensures { IfOk result (λ hints. hints.items ≡ hints_at kind size at) }
{
    let mut hints = Vec::new(alloc);
    if let Some(start) = at {
        let end = start + size;
        hints.push(Hint {
            kind,
            start,
            end,
            detail_start: end,
            detail_end: end,
        })?;
    }
    Ok(hints)
}

// The hint on a byte order mark, if the text begins with one.
fn mark_hints(alloc: Global, text: &[u8]) -> Result<Vec<Hint>, AllocError>
    ensures { IfOk result (λ hints. hints.items ≡ spec.mark_hints text.now) }
{
    let at = if has_mark(text) { Some(0) } else { None };
    hints_at(alloc, HintKind::ByteOrderMark, 3, at)
}

/// The hints on the form of a whole file, each at most once, in the order in which they begin (N6):
/// on a byte order mark in front, on the first comment sign that is after white space at the start
/// of a line, and on the first CR LF. Their places are in bytes of the text, and they quote
/// nothing.
///
/// # Errors
/// Out of memory.
pub fn file_hints(alloc: Global, text: &[u8]) -> Result<Vec<Hint>, AllocError>
    ensures { IfOk result (λ hints. hints.items ≡ spec.file_hints text.now) }
{
    let mut hints = mark_hints(alloc, text)?;
    let comments = hints_at(alloc, HintKind::IndentedComment, 1, comment_line(text))?;
    let returns = first_shape(Shape::Returns, text);
    let returns = hints_at(alloc, HintKind::CarriageReturns, 2, returns)?;
    let lines = merged(alloc, &comments, &returns)?;
    hints.extend_from_slice(&lines)?;
    Ok(hints)
}
