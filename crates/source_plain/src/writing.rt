//! A text in the place of a source: with the byte order mark and the line ends that the source has.
ghost use Rattle.std.specs.Prelude.{◌≡◌, ◌++◌, IfOk, OnOk};
ghost use Rattle.source_plain.specs.Writing as spec;
ghost use Rattle.source_plain.specs.Writing.{mark_if, marked_like, returns_if, with_returns, written_like};

use crate::reading::{MARK, has_mark, holds_return, is_return_at};
use std::alloc::{AllocError, Global};

// Whether the first line of a text ends in CR LF.
fn first_returns(text: &[u8]) -> bool
    ensures { result ≡ spec.first_returns text.now }
{
    for at in 0..text.len() {
        if is_return_at(text, at) {
            return true;
        }
        if text[at] == b'\n' {
            return false;
        }
    }
    false
}

// Whether a line of a text ends in CR LF, by a look at each byte.
fn has_line_of_return(text: &[u8]) -> bool
    ensures { result ≡ spec.has_return text.now }
{
    for at in 0..text.len() {
        if is_return_at(text, at) {
            return true;
        }
    }
    false
}

// Whether a line of a text ends in CR LF.
fn has_return(text: &[u8]) -> bool
    ensures { result ≡ spec.has_return text.now }
{
    holds_return(text) && has_line_of_return(text)
}

// Adds a byte order mark, if there is to be one.
fn push_mark(out: &mut Vec<u8>, marked: bool) -> Result<(), AllocError>
    ensures { OnOk result (out.new.items ≡ out.old.items ++ mark_if marked) }
{
    if marked {
        out.extend_from_slice(MARK)
    } else {
        Ok(())
    }
}

// Adds a text with each of its lines ended by CR LF.
fn push_returns(out: &mut Vec<u8>, text: &[u8]) -> Result<(), AllocError>
    ensures { OnOk result (out.new.items ≡ out.old.items ++ with_returns text.now) }
{
    for byte in text {
        if *byte == b'\n' {
            out.extend_from_slice(b"\r\n")?;
        } else {
            out.push(*byte)?;
        }
    }
    Ok(())
}

// Adds a text, each of whose lines ends in CR LF if they are to.
fn push_lines(out: &mut Vec<u8>, returns: bool, text: &[u8]) -> Result<(), AllocError>
    ensures { OnOk result (out.new.items ≡ out.old.items ++ returns_if returns text.now) }
{
    if returns {
        push_returns(out, text)
    } else {
        out.extend_from_slice(text)
    }
}

/// A text in the place of a source, whose lines end as they are: with a byte order mark in front if
/// the source has one.
///
/// # Errors
/// Out of memory.
pub fn marked_like(alloc: Global, source: &[u8], text: Vec<u8>) -> Result<Vec<u8>, AllocError>
    ensures { IfOk result (λ written. written.items ≡ marked_like source.now text.items) }
{
    if !has_mark(source) {
        return Ok(text);
    }
    let mut written = Vec::with_capacity(alloc, text.len())?;
    push_mark(&mut written, true)?;
    written.extend_from_slice(&text)?;
    Ok(written)
}

/// A text in the place of a source. It has a byte order mark in front if the source has one, and
/// each of its lines ends in CR LF if the first line of the source does. A text that would be read
/// as another one without them has them too.
///
/// # Errors
/// Out of memory.
pub fn written_like(alloc: Global, source: &[u8], text: Vec<u8>) -> Result<Vec<u8>, AllocError>
    ensures { IfOk result (λ written. written.items ≡ written_like source.now text.items) }
{
    let marked = has_mark(source) || has_mark(&text);
    let returns = first_returns(source) || has_return(&text);
    if !marked && !returns {
        return Ok(text);
    }
    let mut written = Vec::with_capacity(alloc, text.len())?;
    push_mark(&mut written, marked)?;
    push_lines(&mut written, returns, &text)?;
    Ok(written)
}
