//! The lines of a block that are kept as they are.
ghost use Rattle.std.specs.Prelude.{◌≡◌, ◌≢◌, ◌<◌, [], ◌∷◌, IfOk, OnOk, length, map, if◌then◌else◌, ◌++◌};
ghost use Rattle.std.specs.List.{list_all};
ghost use Rattle.ti_text.specs.WhiteSpace.{is_white_space};
ghost use Rattle.source_format.specs.Pieces as spec;
ghost use Rattle.source_format.specs.inside.Steps.{line_seen};

use memchr::memchr;
use std::alloc::{AllocError, Global};
use ti_text::is_white_space;

/// A comment or a blank line.
#[derive(Clone, Copy)]
pub(crate) struct KeptLine<'a> {
    /// Its number in the block, counted from 1.
    pub(crate) number: usize,
    /// Its text, without the newline that ends it.
    pub(crate) text: &'a [u8],
}

// Whether each byte of a line is white space.
fn is_white(line: &[u8]) -> bool
    ensures { result ≡ list_all is_white_space line.now }
{
    line.iter().all(|byte| is_white_space(*byte))
}

/// Whether a line is a comment, or has nothing but white space.
pub(crate) fn is_kept(line: &[u8]) -> bool
    ensures { result ≡ spec.is_kept line.now }
{
    match line.first() {
        Some(byte) => *byte == b'#' || is_white(line),
        None => true,
    }
}

/// The first line of a text, without its newline, and what comes after it.
pub(crate) fn first_line(text: &[u8]) -> (&[u8], &[u8])
    requires { text.now ≢ [] }
    ensures lines { spec.lines_of text.now ≡ result.0.now ∷ spec.lines_of result.1.now }
    ensures shorter { length result.1.now < length text.now }
{
    match memchr(b'\n', text) {
        Some(at) => (&text[..at], &text[at + 1..]),
        None => (text, &text[text.len()..]),
    }
}

// Adds a line, if it is kept.
fn push_line<'a>(
    lines: &mut Vec<KeptLine<'a>>,
    number: usize,
    text: &'a [u8],
) -> Result<(), AllocError>
    ensures { OnOk result (map line_seen lines.new.items ≡ map line_seen lines.old.items ++ (if spec.is_kept text.entry.now then line_seen (record { number = number; text = text.entry }) ∷ [] else [])) }
{
    if is_kept(text) {
        lines.push(KeptLine { number, text })?;
    }
    Ok(())
}

/// The comments and blank lines of a block, in order.
///
/// # Errors
/// Out of memory.
pub(crate) fn kept_lines(alloc: Global, block: &[u8]) -> Result<Vec<KeptLine<'_>>, AllocError>
    ensures { IfOk result (λ lines. map line_seen lines.items ≡ spec.kept_lines block.now) }
{
    let mut lines = Vec::new(alloc);
    let mut rest = block;
    let mut number = 1;
    while !rest.is_empty() {
        let (line, after) = first_line(rest);
        push_line(&mut lines, number, line)?;
        rest = after;
        number += 1;
    }
    Ok(lines)
}
