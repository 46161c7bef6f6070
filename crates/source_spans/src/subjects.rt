//! What an offset of a block is on.
ghost use Rattle.std.specs.Prelude.{◌≡◌, ◌^◌, ◌<◌, All, IfOk, IfSome, map};
ghost use Rattle.std.specs.Option.{option_map};
ghost use Rattle.source_spans.specs.Parts.{IsWithin, field_of, names_of, part_of};
ghost use Rattle.source_spans.specs.Subjects as spec;
ghost use Rattle.source_spans.specs.Subjects.{lookup_parts, subject_in, touched_item, touched_name, touched_seen};

use crate::folding::folded;
use crate::heads::span_or_start;
use crate::items::{used_part, visible_items};
use crate::names::own_parts;
use crate::parts::{Part, push_bytes, span_of};
use std::alloc::{AllocError, Global};

/// What an offset of a block is on.
#[derive(Drop)]
pub enum Subject {
    /// A name in the head by which the block can be looked up.
    OwnName(Vec<u8>),
    /// An item `use=`, with the name that it uses.
    Used(Vec<u8>),
}

/// What an offset of a block is on, and where that is.
#[derive(Drop)]
pub struct Touched {
    /// Where it is in the block.
    pub span: Part,
    /// Where its name is; an empty one is at the start of the block.
    pub name: Part,
    /// What it is.
    pub subject: Subject,
}

/// Whether an offset is on a part: from its first byte to after its last.
pub(crate) fn is_on(text: &[(u8, usize)], part: Part, offset: usize) -> bool
    requires within { IsWithin text.now part }
    requires offsets { All (λ x. x.1 < 2 ^ 63) text.now }
    ensures { result ≡ spec.is_on offset (part_of text.now part) }
{
    match span_of(text, part) {
        Some(span) => span.start <= offset && offset <= span.end,
        None => false,
    }
}

// The first part that an offset is on.
fn part_on(text: &[(u8, usize)], parts: &[Part], offset: usize) -> Option<Part>
    requires within { All (IsWithin text.now) parts.now }
    requires offsets { All (λ x. x.1 < 2 ^ 63) text.now }
    ensures part { option_map (part_of text.now) result ≡ spec.part_on offset (map (part_of text.now) parts.now) }
    ensures within { IfSome result (IsWithin text.now) }
{
    for part in parts {
        if is_on(text, *part, offset) {
            return Some(*part);
        }
    }
    None
}

// The name in the head that an offset is on.
fn name_on(alloc: Global, text: &[(u8, usize)], offset: usize) -> Result<Option<Part>, AllocError>
    requires { All (λ x. x.1 < 2 ^ 63) text.now }
    ensures part { IfOk result (λ part. option_map (part_of text.now) part ≡ spec.part_on offset (lookup_parts (names_of (field_of text.now)))) }
    ensures within { IfOk result (λ part. IfSome part (IsWithin text.now)) }
{
    let names = own_parts(alloc, text)?;
    Ok(part_on(text, &names, offset))
}

/// The item that an offset is on.
pub(crate) fn item_on(
    alloc: Global,
    text: &[(u8, usize)],
    offset: usize,
) -> Result<Option<Part>, AllocError>
    requires { All (λ x. x.1 < 2 ^ 63) text.now }
    ensures part { IfOk result (λ part. option_map (part_of text.now) part ≡ spec.part_on offset (spec.items_of text.now)) }
    ensures within { IfOk result (λ part. IfSome part (IsWithin text.now)) }
{
    let items = visible_items(alloc, text)?;
    Ok(part_on(text, &items, offset))
}

// A name in the head.
fn touched_name(alloc: Global, text: &[(u8, usize)], name: Part) -> Result<Touched, AllocError>
    requires within { IsWithin text.now name }
    requires offsets { All (λ x. x.1 < 2 ^ 63) text.now }
    ensures { IfOk result (λ found. touched_seen found ≡ touched_name (part_of text.now name)) }
{
    let mut bytes = Vec::new(alloc);
    push_bytes(&mut bytes, text, name)?;
    let span = span_or_start(span_of(text, name));
    Ok(Touched {
        span,
        name: span,
        subject: Subject::OwnName(bytes),
    })
}

// An item, if it is a use.
fn touched_item(
    alloc: Global,
    text: &[(u8, usize)],
    item: Part,
) -> Result<Option<Touched>, AllocError>
    requires within { IsWithin text.now item }
    requires offsets { All (λ x. x.1 < 2 ^ 63) text.now }
    ensures { IfOk result (λ found. option_map touched_seen found ≡ touched_item (part_of text.now item)) }
{
    let Some(name) = used_part(text, item) else {
        return Ok(None);
    };
    let mut bytes = Vec::new(alloc);
    push_bytes(&mut bytes, text, name)?;
    Ok(Some(Touched {
        span: span_or_start(span_of(text, item)),
        name: span_or_start(span_of(text, name)),
        subject: Subject::Used(bytes),
    }))
}

/// What an offset of a block with this folded text is on, as `subject_at` finds it.
///
/// # Errors
/// Out of memory.
pub fn subject_in(
    alloc: Global,
    text: &[(u8, usize)],
    offset: usize,
) -> Result<Option<Touched>, AllocError>
    requires { All (λ x. x.1 < 2 ^ 63) text.now }
    ensures { IfOk result (λ found. option_map touched_seen found ≡ subject_in text.now offset) }
{
    if let Some(name) = name_on(alloc, text, offset)? {
        return Ok(Some(touched_name(alloc, text, name)?));
    }
    match item_on(alloc, text, offset)? {
        Some(item) => touched_item(alloc, text, item),
        None => Ok(None),
    }
}

/// What an offset of a block is on: a name in its head by which it can be looked up, or an item
/// `use=`. An offset just after the last byte of a name or an item is on it.
///
/// # Errors
/// Out of memory.
pub fn subject_at(alloc: Global, block: &[u8], offset: usize) -> Result<Option<Touched>, AllocError>
    ensures { IfOk result (λ found. option_map touched_seen found ≡ spec.subject_at block.now offset) }
{
    let text = folded(alloc, block)?;
    subject_in(alloc, &text, offset)
}
