//! The item that an offset of a block is on, as it is written.
ghost use Rattle.std.specs.Prelude.{◌≡◌, ◌^◌, ◌<◌, All, IfOk, IfSome, length, map};
ghost use Rattle.std.specs.List.{position};
ghost use Rattle.std.specs.Option.{option_map};
ghost use Rattle.ti_source.specs.Folding.{PlacedByte};
ghost use Rattle.ti_source.specs.Items.{is_mark};
ghost use Rattle.source_spans.specs.Ordinals.{OrdinalsAreOfItems, OrdinalsAreOfTouched, SayingsAreRead, SeenItemsAreRead};
ghost use Rattle.source_spans.specs.Parts.{IsWithin, part_of};
ghost use Rattle.source_spans.specs.Touching as spec;
ghost use Rattle.source_spans.specs.Subjects.{is_on, items_of};
ghost use Rattle.source_spans.specs.Touching.{item_in, marked_name, name_of, seen_of, without_at};

use crate::heads::span_or_start;
use crate::items::{visible_items, without_end};
use crate::parts::{Part, push_bytes, span_of};
use crate::subjects::{is_on, item_on};
use std::alloc::{AllocError, Global};

/// An item as it is written.
#[derive(Drop)]
pub struct Item {
    /// Where it is in the block.
    pub span: Part,
    /// Its name: what is before its first `#` or `=`, or all but an `@` at its end if it has
    /// neither.
    pub name: Vec<u8>,
    /// Its bytes, without comments and line breaks, and without the white space around it.
    pub text: Vec<u8>,
}

// Where the first mark of a text is, if it has one.
fn mark_at(text: &[(u8, usize)]) -> Option<usize>
    ensures { result ≡ position (λ (x : PlacedByte). is_mark x.0) text.now }
{
    text.iter().position(|x| x.0 == b'#' || x.0 == b'=')
}

// What is before the first mark of a part, if it has one.
fn marked_name(text: &[(u8, usize)], part: Part) -> Option<Part>
    requires { IsWithin text.now part }
    ensures part { option_map (part_of text.now) result ≡ marked_name (part_of text.now part) }
    ensures within { IfSome result (IsWithin text.now) }
{
    let at = mark_at(&text[part.start..part.end])?;
    Some(Part {
        start: part.start,
        end: part.start + at,
    })
}

// A part without an `@` at its end.
fn without_at(text: &[(u8, usize)], part: Part) -> Part
    requires { IsWithin text.now part }
    ensures part { part_of text.now result ≡ without_at (part_of text.now part) }
    ensures within { IsWithin text.now result }
{
    if part.start < part.end && text[part.end - 1].0 == b'@' {
        Part {
            start: part.start,
            end: part.end - 1,
        }
    } else {
        part
    }
}

/// The name of an item that has no white space around it.
pub fn name_of(text: &[(u8, usize)], item: Part) -> Part
    requires { IsWithin text.now item }
    ensures part { part_of text.now result ≡ name_of (part_of text.now item) }
    ensures within { IsWithin text.now result }
{
    match marked_name(text, item) {
        Some(name) => name,
        None => without_at(text, item),
    }
}

// An item as it is written.
fn seen_of(alloc: Global, text: &[(u8, usize)], item: Part) -> Result<Item, AllocError>
    requires within { IsWithin text.now item }
    requires offsets { All (λ x. x.1 < 2 ^ 63) text.now }
    ensures { IfOk result (λ found. spec.item_seen found ≡ seen_of (part_of text.now item)) }
{
    let written = without_end(text, item);
    let mut name = Vec::new(alloc);
    push_bytes(&mut name, text, name_of(text, written))?;
    let mut bytes = Vec::new(alloc);
    push_bytes(&mut bytes, text, written)?;
    Ok(Item {
        span: span_or_start(span_of(text, item)),
        name,
        text: bytes,
    })
}

/// The item that an offset of a block with this folded text is on. An offset just after the last
/// byte of an item is on it.
///
/// # Errors
/// Out of memory.
pub fn item_in(
    alloc: Global,
    text: &[(u8, usize)],
    offset: usize,
) -> Result<Option<Item>, AllocError>
    requires { All (λ x. x.1 < 2 ^ 63) text.now }
    ensures { IfOk result (λ found. option_map spec.item_seen found ≡ item_in text.now offset) }
{
    match item_on(alloc, text, offset)? {
        Some(item) => Ok(Some(seen_of(alloc, text, item)?)),
        None => Ok(None),
    }
}

// Which of some parts is the first that an offset is on, from 0.
fn ordinal_on(text: &[(u8, usize)], parts: &[Part], offset: usize) -> Option<usize>
    requires within { All (IsWithin text.now) parts.now }
    requires offsets { All (λ x. x.1 < 2 ^ 63) text.now }
    ensures { result ≡ position (is_on offset) (map (part_of text.now) parts.now) }
{
    for at in 0..parts.len() {
        if is_on(text, parts[at], offset) {
            return Some(at);
        }
    }
    None
}

/// The ordinal of the item that an offset of a block with this folded text is on: which of its items
/// that is, counted from 0. Empty and disabled items count.
///
/// # Errors
/// Out of memory.
pub fn ordinal_in(
    alloc: Global,
    text: &[(u8, usize)],
    offset: usize,
) -> Result<Option<usize>, AllocError>
    requires { All (λ x. x.1 < 2 ^ 63) text.now }
    ensures { IfOk result (λ found. found ≡ position (is_on offset) (items_of text.now)) }
{
    let items = visible_items(alloc, text)?;
    Ok(ordinal_on(text, &items, offset))
}

/// A law, with no code: the items that are seen are those that are read, by their ordinals, and an
/// offset is on the item of its ordinal.
pub fn ordinals_are_read()
    ensures seen { SeenItemsAreRead }
    ensures items { OrdinalsAreOfItems }
    ensures sayings { SayingsAreRead }
    ensures touched { OrdinalsAreOfTouched }
{}
