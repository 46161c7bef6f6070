//! A source without what other systems put into it: a byte order mark in front, and the CR of lines
//! that end in CR LF.
ghost use Rattle.std.specs.Prelude.{◌≡◌, ◌<◌, IfOk, length, drop};
ghost use Rattle.std.specs.Option.{option_map_or};
ghost use Rattle.std.specs.List.{list_any};
ghost use Rattle.source_plain.specs.Reading as spec;
ghost use Rattle.source_plain.specs.Reading.{plain_lines, plain_source};

use memchr::memchr;
use std::alloc::{AllocError, Global};

/// The byte order mark of UTF-8.
pub(crate) const MARK: &[u8] = b"\xEF\xBB\xBF";

/// Whether a source has a byte order mark in front.
pub(crate) fn has_mark(source: &[u8]) -> bool
    ensures { result ≡ spec.has_mark source.now }
{
    source.starts_with(MARK)
}

/// A source without the byte order mark in front, if it has one.
pub fn without_mark(source: &[u8]) -> &[u8]
    ensures { result.now ≡ spec.without_mark source.now }
{
    if has_mark(source) {
        &source[MARK.len()..]
    } else {
        source
    }
}

/// Whether the byte at an offset is a CR with a newline after it.
pub(crate) fn is_return_at(text: &[u8], at: usize) -> bool
    requires { at < length text.now }
    ensures { result ≡ spec.is_return_at (drop at text.now) }
{
    text[at] == b'\r' && at + 1 < text.len() && text[at + 1] == b'\n'
}

// A text with each CR left out that has a newline after it.
fn plain_lines(alloc: Global, text: &[u8]) -> Result<Vec<u8>, AllocError>
    ensures { IfOk result (λ plain. plain.items ≡ plain_lines text.now) }
{
    let mut plain = Vec::with_capacity(alloc, text.len())?;
    for at in 0..text.len() {
        if !is_return_at(text, at) {
            plain.push(text[at])?;
        }
    }
    Ok(plain)
}

/// Whether a text has a CR.
pub(crate) fn holds_return(text: &[u8]) -> bool
    ensures { result ≡ list_any spec.is_return text.now }
{
    memchr(b'\r', text).is_some()
}

/// A text without the CR of each line that ends in CR LF. `None` if it has none, so that it is read as
/// it is.
///
/// # Errors
/// Out of memory.
pub fn without_returns(alloc: Global, text: &[u8]) -> Result<Option<Vec<u8>>, AllocError>
    ensures { IfOk result (λ plain. option_map_or (λ plain. plain.items) plain text.now ≡ plain_lines text.now) }
{
    if holds_return(text) {
        return Ok(Some(plain_lines(alloc, text)?));
    }
    Ok(None)
}

/// A source as it is read: without a byte order mark in front, and without the CR of each line that
/// ends in CR LF. `None` if it has neither, so that it is read as it is.
///
/// # Errors
/// Out of memory.
pub fn plain(alloc: Global, source: &[u8]) -> Result<Option<Vec<u8>>, AllocError>
    ensures { IfOk result (λ plain. option_map_or (λ plain. plain.items) plain source.now ≡ plain_source source.now) }
{
    let text = without_mark(source);
    if holds_return(text) {
        return Ok(Some(plain_lines(alloc, text)?));
    }
    if text.len() < source.len() {
        return Ok(Some(Vec::from_slice(alloc, text)?));
    }
    Ok(None)
}
