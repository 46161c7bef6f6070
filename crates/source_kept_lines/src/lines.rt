//! The lines of a block, and the white space that its items have in front.
ghost use Rattle.std.specs.Prelude.{◌≡◌, ◌≢◌, ◌<◌, [], ◌∷◌, IfOk, length, map};
ghost use Rattle.std.specs.List.{list_all};
ghost use Rattle.ti_text.specs.WhiteSpace.{is_white_space};
ghost use Rattle.source_format.specs.Pieces as pieces;
ghost use Rattle.source_kept_lines.specs.Layout as spec;
ghost use Rattle.source_kept_lines.specs.Parts.{after};

use crate::fronts::split_front;
use crate::parts::Reached;
use memchr::memchr;
use std::alloc::{AllocError, Global};
use ti_text::is_white_space;

// Whether each byte of a line is white space.
fn is_white(line: &[u8]) -> bool
    ensures { result ≡ list_all is_white_space line.now }
{
    line.iter().all(|byte| is_white_space(*byte))
}

/// Whether a line is a comment, or has nothing but white space.
pub(crate) fn is_kept(line: &[u8]) -> bool
    ensures { result ≡ pieces.is_kept line.now }
{
    match line.first() {
        Some(byte) => *byte == b'#' || is_white(line),
        None => true,
    }
}

// The first line of a text, without its newline, and what comes after it.
fn first_line(text: &[u8]) -> (&[u8], &[u8])
    requires { text.now ≢ [] }
    ensures lines { pieces.lines_of text.now ≡ result.0.now ∷ pieces.lines_of result.1.now }
    ensures shorter { length result.1.now < length text.now }
{
    match memchr(b'\n', text) {
        Some(at) => (&text[..at], &text[at + 1..]),
        None => (text, &text[text.len()..]),
    }
}

/// The lines of a block, without the newlines that end them.
///
/// # Errors
/// Out of memory.
pub(crate) fn lines_of(alloc: Global, block: &[u8]) -> Result<Vec<&[u8]>, AllocError>
    ensures { IfOk result (λ lines. map (λ line. line.now) lines.items ≡ pieces.lines_of block.now) }
{
    let mut lines = Vec::new(alloc);
    let mut rest = block;
    while !rest.is_empty() {
        let (line, after) = first_line(rest);
        lines.push(line)?;
        rest = after;
    }
    Ok(lines)
}

// What is reached by a text.
fn after(reached: Reached, text: &[u8]) -> Reached
    ensures { result ≡ after reached text.now }
{
    let mut so_far = reached;
    for byte in text {
        so_far = so_far.after_byte(*byte);
    }
    so_far
}

/// The white space of the first of these lines that begins with an item, comments and blank lines left
/// out; a tab if there is none.
pub(crate) fn indent_of<'a>(lines: &[&'a [u8]]) -> &'a [u8]
    ensures { result.now ≡ spec.indent_from Reached.Names (map (λ line. line.now) lines.now) }
{
    let mut reached = Reached::Names;
    for line in lines {
        if is_kept(line) {
            continue;
        }
        let (front, content) = split_front(line);
        if reached.is_between() {
            return front;
        }
        reached = after(reached, content);
    }
    b"\t"
}
