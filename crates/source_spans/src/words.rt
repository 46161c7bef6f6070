//! The word that an editor completes.
ghost use Rattle.std.specs.Prelude.{◌≡◌, ◌^◌, ◌<◌, ◌≤◌, All, IfOk, List, false, length, map};
ghost use Rattle.std.specs.List.{list_any};
ghost use Rattle.ti_text.specs.Ascii as ascii;
ghost use Rattle.ti_source.specs.Folding.{PlacedByte};
ghost use Rattle.ti_source.specs.Items.{is_mark};
ghost use Rattle.source_spans.specs.Parts.{IsWithin, part_of};
ghost use Rattle.source_spans.specs.Words as spec;
ghost use Rattle.source_spans.specs.Words.{last_of, start_of, word_at_end, word_in, word_of};

use crate::folding::folded;
use crate::items::{begins_with, value_part, visible_items};
use crate::parts::{Part, field_len};
use std::alloc::{AllocError, Global};

/// A word, as far as it is typed: it ends at the cursor.
#[derive(Clone, Copy, Debug, PartialEq, Eq)]
pub struct Word {
    /// Where it begins in the block.
    pub start: usize,
    /// Whether it is the name that an item `use=` gives, and not the name of an item.
    pub used: bool,
}

// Whether a text ends in a line that has begun and is not a comment.
fn is_open(text: &[u8]) -> bool
    ensures { result ≡ spec.is_open false ascii.newline text.now }
{
    let mut plain = false;
    let mut before = b'\n';
    for &byte in text {
        plain = if before == b'\n' { byte != b'#' } else { plain };
        before = byte;
    }
    plain && before != b'\n'
}

// The last of some parts.
fn last_of(parts: &[Part]) -> Part
    ensures last { (text : List PlacedByte) → part_of text result ≡ last_of (map (part_of text) parts.now) }
    ensures within { (text : List PlacedByte) → All (IsWithin text) parts.now → IsWithin text result }
{
    if parts.len() == 0 {
        Part { start: 0, end: 0 }
    } else {
        parts[parts.len() - 1]
    }
}

// Where a part begins, or the end of the text if it has no bytes.
fn start_of(text: &[(u8, usize)], part: Part, end: usize) -> usize
    requires { IsWithin text.now part }
    ensures { result ≡ start_of end (part_of text.now part) }
{
    if part.start == part.end {
        end
    } else {
        text[part.start].1
    }
}

// Whether an item has come to its value.
fn has_mark(item: &[(u8, usize)]) -> bool
    ensures { result ≡ list_any (λ (x : PlacedByte). is_mark x.0) item.now }
{
    item.iter().any(|x| x.0 == b'#' || x.0 == b'=')
}

// The word with which an item ends.
fn word_in(text: &[(u8, usize)], item: Part, end: usize) -> Option<Word>
    requires { IsWithin text.now item }
    ensures { result ≡ word_in end (part_of text.now item) }
{
    let bytes = &text[item.start..item.end];
    if begins_with(bytes, b"use=") {
        return Some(Word {
            start: start_of(text, value_part(text, item), end),
            used: true,
        });
    }
    if has_mark(bytes) {
        return None;
    }
    Some(Word {
        start: start_of(text, item, end),
        used: false,
    })
}

// The word with which a folded text ends.
fn word_of(alloc: Global, text: &[(u8, usize)], end: usize) -> Result<Option<Word>, AllocError>
    ensures { IfOk result (λ word. word ≡ word_of end text.now) }
{
    if field_len(text) >= text.len() {
        return Ok(None);
    }
    let items = visible_items(alloc, text)?;
    Ok(word_in(text, last_of(&items), end))
}

// The word with which a text ends.
fn word_at_end(alloc: Global, text: &[u8]) -> Result<Option<Word>, AllocError>
    ensures { IfOk result (λ word. word ≡ word_at_end text.now) }
{
    if !is_open(text) {
        return Ok(None);
    }
    let folded_text = folded(alloc, text)?;
    word_of(alloc, &folded_text, text.len())
}

/// The word before an offset of a block: the name of an item, or the name that an item `use=`
/// gives, as far as it is typed. There is none in a comment, in the names field, in a value, and at
/// the start of a line.
///
/// # Errors
/// Out of memory.
pub fn word_before(alloc: Global, block: &[u8], offset: usize) -> Result<Option<Word>, AllocError>
    ensures { IfOk result (λ word. word ≡ spec.word_before block.now offset) }
{
    word_at_end(alloc, &block[..offset.min(block.len())])
}
