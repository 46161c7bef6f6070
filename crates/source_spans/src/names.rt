//! The names by which a block can be looked up, and where it has one of them.
ghost use Rattle.std.specs.Prelude.{◌≡◌, ◌^◌, ◌++◌, ◌<◌, ◌≤◌, All, IfOk, List, OnOk, length, map, take};
ghost use Rattle.ti_source.specs.Folding.{PlacedByte};
ghost use Rattle.source_spans.specs.Parts.{IsWithin, field_of, names_of, part_of};
ghost use Rattle.source_spans.specs.Subjects as spec;
ghost use Rattle.source_spans.specs.Subjects.{lookup_parts, span_if};

use crate::folding::folded;
use crate::parts::{Part, field_len, name_parts, push_bytes, span_of};
use std::alloc::{AllocError, Global};

// How many of the names of a field can be looked up, if it has so many parts.
fn lookup_count(parts: usize) -> usize
    ensures within { result ≤ parts }
    ensures count { (names : List (List PlacedByte)) → length names ≡ parts → take result names ≡ lookup_parts names }
{
    if parts == 1 {
        1
    } else {
        parts.saturating_sub(1)
    }
}

/// The parts of a folded text that are the names by which its block can be looked up.
pub(crate) fn own_parts(alloc: Global, text: &[(u8, usize)]) -> Result<Vec<Part>, AllocError>
    ensures parts { IfOk result (λ parts. map (part_of text.now) parts.items ≡ lookup_parts (names_of (field_of text.now))) }
    ensures within { IfOk result (λ parts. All (IsWithin text.now) parts.items) }
{
    let mut names = name_parts(alloc, text, field_len(text))?;
    let count = lookup_count(names.len());
    names.truncate(count);
    Ok(names)
}

// Adds where a part of a folded text is, if its bytes are this name.
fn push_if(
    alloc: Global,
    spans: &mut Vec<Part>,
    text: &[(u8, usize)],
    part: Part,
    name: &[u8],
) -> Result<(), AllocError>
    requires within { IsWithin text.now part }
    requires offsets { All (λ x. x.1 < 2 ^ 63) text.now }
    ensures { OnOk result (spans.new.items ≡ spans.old.items ++ span_if name.now (part_of text.now part)) }
{
    let mut bytes = Vec::new(alloc);
    push_bytes(&mut bytes, text, part)?;
    if bytes.as_slice() != name {
        return Ok(());
    }
    if let Some(span) = span_of(text, part) {
        spans.push(span)?;
    }
    Ok(())
}

/// Where a block has this name in its head: more than one place if it is there twice. The
/// description is not a name.
///
/// # Errors
/// Out of memory.
pub fn own_spans(alloc: Global, block: &[u8], name: &[u8]) -> Result<Vec<Part>, AllocError>
    ensures { IfOk result (λ spans. spans.items ≡ spec.own_spans name.now block.now) }
{
    let text = folded(alloc, block)?;
    let parts = own_parts(alloc, &text)?;
    let mut spans = Vec::new(alloc);
    for part in &parts {
        push_if(alloc, &mut spans, &text, *part, name)?;
    }
    Ok(spans)
}
