//! The parts of an item as it is written. An item is a part of a folded text: bytes, each with its
//! offset in the block.
ghost use Rattle.std.specs.Prelude.{◌≡◌, ◌≤◌, ◌<◌, ◌^◌, All, IfOk, IfSome, drop, length, option_map};
ghost use Rattle.ti_text.specs.Texts.{last_byte};
ghost use Rattle.ti_source.specs.Items.{bytes};
ghost use Rattle.source_spans.specs.Parts.{IsWithin, part_of, spanned};
ghost use Rattle.source_spans.specs.Subjects as subjects;
ghost use Rattle.source_spans.specs.Touching as touching;
ghost use Rattle.source_edits.specs.Pieces.{after_name, bytes_in, value_of, without_last, written_name};

use source_spans::{Part, name_of, span_of, used_part, without_end};
use std::alloc::{AllocError, Global};

// The whole of an item, as a part of it.
#[tactic(auto, using(crate::proofs::Wholes::whole))]
fn whole(item: &[(u8, usize)]) -> Part
    ensures part { part_of item.now result ≡ item.now }
    ensures within { IsWithin item.now result }
{
    Part {
        start: 0,
        end: item.len(),
    }
}

// An item without the white space at its end.
fn written(item: &[(u8, usize)]) -> &[(u8, usize)]
    ensures text { result.now ≡ subjects.without_end item.now }
    ensures offsets { All (λ x. x.1 < 2 ^ 63) item.now → All (λ x. x.1 < 2 ^ 63) result.now }
{
    let part = without_end(item, whole(item));
    &item[part.start..part.end]
}

// The name of an item that has no white space around it.
fn front_name(item: &[(u8, usize)]) -> &[(u8, usize)]
    ensures name { result.now ≡ touching.name_of item.now }
    ensures within { length result.now ≤ length item.now }
    ensures offsets { All (λ x. x.1 < 2 ^ 63) item.now → All (λ x. x.1 < 2 ^ 63) result.now }
{
    let part = name_of(item, whole(item));
    &item[part.start..part.end]
}

/// The name of an item.
pub fn written_name(item: &[(u8, usize)]) -> &[(u8, usize)]
    ensures name { result.now ≡ written_name item.now }
    ensures offsets { All (λ x. x.1 < 2 ^ 63) item.now → All (λ x. x.1 < 2 ^ 63) result.now }
{
    front_name(written(item))
}

/// What is after the name of an item, without the white space at its end.
pub(crate) fn after_name(item: &[(u8, usize)]) -> &[(u8, usize)]
    ensures rest { result.now ≡ after_name item.now }
    ensures offsets { All (λ x. x.1 < 2 ^ 63) item.now → All (λ x. x.1 < 2 ^ 63) result.now }
{
    let written = written(item);
    &written[front_name(written).len()..]
}

/// What is after the sign that follows the name of an item.
pub(crate) fn value_of(item: &[(u8, usize)]) -> &[(u8, usize)]
    ensures value { result.now ≡ value_of item.now }
    ensures offsets { All (λ x. x.1 < 2 ^ 63) item.now → All (λ x. x.1 < 2 ^ 63) result.now }
{
    let start = written_name(item).len().saturating_add(1).min(item.len());
    &item[start..]
}

/// The name that an item uses, if it is a use.
pub fn used_of(item: &[(u8, usize)]) -> Option<&[(u8, usize)]>
    ensures name { option_map (λ name. name.now) result ≡ subjects.used_name item.now }
    ensures offsets { All (λ x. x.1 < 2 ^ 63) item.now → IfSome result (λ name. All (λ x. x.1 < 2 ^ 63) name.now) }
{
    let part = used_part(item, whole(item))?;
    Some(&item[part.start..part.end])
}

/// Where bytes are in their block, if there are some.
pub fn span(text: &[(u8, usize)]) -> Option<Part>
    requires { All (λ x. x.1 < 2 ^ 63) text.now }
    ensures { result ≡ spanned text.now }
{
    span_of(text, whole(text))
}

/// Bytes without the last of them.
pub(crate) fn without_last(text: &[(u8, usize)]) -> &[(u8, usize)]
    ensures text { result.now ≡ without_last text.now }
    ensures offsets { All (λ x. x.1 < 2 ^ 63) text.now → All (λ x. x.1 < 2 ^ 63) result.now }
{
    &text[..text.len().saturating_sub(1)]
}

/// The last byte, or a NUL if there is none.
pub(crate) fn last_of(text: &[(u8, usize)]) -> u8
    ensures { result ≡ last_byte 0 (bytes text.now) }
{
    match text.last() {
        Some(byte) => byte.0,
        None => 0,
    }
}

/// The bytes, without their places.
///
/// # Errors
/// Out of memory.
pub fn bytes_of(alloc: Global, text: &[(u8, usize)]) -> Result<Vec<u8>, AllocError>
    ensures { IfOk result (λ found. found.items ≡ bytes text.now) }
{
    let mut found = Vec::with_capacity(alloc, text.len())?;
    for byte in text {
        found.push(byte.0)?;
    }
    Ok(found)
}

/// The bytes of a folded text in a part of its block.
///
/// # Errors
/// Out of memory.
pub fn bytes_in(
    alloc: Global,
    part: Part,
    text: &[(u8, usize)],
) -> Result<Vec<(u8, usize)>, AllocError>
    ensures bytes { IfOk result (λ found. found.items ≡ bytes_in part text.now) }
    ensures offsets { All (λ x. x.1 < 2 ^ 63) text.now → IfOk result (λ found. All (λ x. x.1 < 2 ^ 63) found.items) }
{
    let mut found = Vec::new(alloc);
    for byte in text {
        if part.start <= byte.1 && byte.1 < part.end {
            found.push(*byte)?;
        }
    }
    Ok(found)
}
