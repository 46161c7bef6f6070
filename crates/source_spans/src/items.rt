//! The items of a block as they are seen, and the names that they use.
ghost use Rattle.std.specs.Prelude.{◌≡◌, ◌^◌, ◌+◌, ◌++◌, ◌<◌, ◌≤◌, All, IfOk, IfSome, OnOk, codes, drop, length, map, true};
ghost use Rattle.std.specs.Option.{option_map};
ghost use Rattle.ti_source.specs.Items as source;
ghost use Rattle.source_spans.specs.Parts.{IsWithin, part_of};
ghost use Rattle.source_spans.specs.Subjects as spec;
ghost use Rattle.source_spans.specs.Subjects.{begins_with, items_of, use_in, use_seen, used_name};

use crate::folding::folded;
use crate::parts::{Part, field_len, item_parts, push_bytes, span_of};
use std::alloc::{AllocError, Global};
use ti_text::is_white_space;

/// A use of a name by an item `use=`.
#[derive(Drop)]
pub struct Use {
    /// Where the name is in the block.
    pub span: Part,
    /// The name.
    pub name: Vec<u8>,
}

// A part without the white space at its front.
fn without_front(text: &[(u8, usize)], part: Part) -> Part
    requires { IsWithin text.now part }
    ensures part { part_of text.now result ≡ source.without_front (part_of text.now part) }
    ensures within { IsWithin text.now result }
{
    for at in part.start..part.end {
        if !is_white_space(text[at].0) {
            return Part {
                start: at,
                end: part.end,
            };
        }
    }
    Part {
        start: part.end,
        end: part.end,
    }
}

/// A part without the white space at its end.
pub fn without_end(text: &[(u8, usize)], part: Part) -> Part
    requires { IsWithin text.now part }
    ensures part { part_of text.now result ≡ spec.without_end (part_of text.now part) }
    ensures within { IsWithin text.now result }
{
    let mut end = part.start;
    for at in part.start..part.end {
        if !is_white_space(text[at].0) {
            end = at + 1;
        }
    }
    Part {
        start: part.start,
        end,
    }
}

/// The items of a folded text, without the white space at their front.
///
/// # Errors
/// Out of memory.
pub fn visible_items(alloc: Global, text: &[(u8, usize)]) -> Result<Vec<Part>, AllocError>
    ensures items { IfOk result (λ parts. map (part_of text.now) parts.items ≡ items_of text.now) }
    ensures within { IfOk result (λ parts. All (IsWithin text.now) parts.items) }
{
    let parts = item_parts(alloc, text, text.len().min(field_len(text) + 1))?;
    let mut items = Vec::with_capacity(alloc, parts.len())?;
    for part in &parts {
        items.push(without_front(text, *part))?;
    }
    Ok(items)
}

/// Whether a text begins with these bytes.
pub(crate) fn begins_with(text: &[(u8, usize)], word: &[u8]) -> bool
    ensures begins { result ≡ begins_with word.now text.now }
    ensures long { result ≡ true → length word.now ≤ length text.now }
{
    if text.len() < word.len() {
        return false;
    }
    for at in 0..word.len() {
        if text[at].0 != word[at] {
            return false;
        }
    }
    true
}

/// What is after `use=` in an item, without the white space at its front.
pub(crate) fn value_part(text: &[(u8, usize)], item: Part) -> Part
    requires within { IsWithin text.now item }
    requires begins { begins_with (codes "use=") (part_of text.now item) ≡ true }
    ensures part { part_of text.now result ≡ source.without_front (drop 4 (part_of text.now item)) }
    ensures within { IsWithin text.now result }
{
    let value = Part {
        start: item.start + 4,
        end: item.end,
    };
    without_front(text, value)
}

/// The name that an item uses, if it is a use.
pub fn used_part(text: &[(u8, usize)], item: Part) -> Option<Part>
    requires { IsWithin text.now item }
    ensures name { option_map (part_of text.now) result ≡ used_name (part_of text.now item) }
    ensures within { IfSome result (IsWithin text.now) }
{
    if !begins_with(&text[item.start..item.end], b"use=") {
        return None;
    }
    Some(without_end(text, value_part(text, item)))
}

// Adds the use that an item is, if it has a name.
fn push_use(
    alloc: Global,
    uses: &mut Vec<Use>,
    text: &[(u8, usize)],
    item: Part,
) -> Result<(), AllocError>
    requires within { IsWithin text.now item }
    requires offsets { All (λ x. x.1 < 2 ^ 63) text.now }
    ensures { OnOk result (map use_seen uses.new.items ≡ map use_seen uses.old.items ++ use_in (used_name (part_of text.now item))) }
{
    let Some(part) = used_part(text, item) else {
        return Ok(());
    };
    let Some(span) = span_of(text, part) else {
        return Ok(());
    };
    let mut name = Vec::new(alloc);
    push_bytes(&mut name, text, part)?;
    uses.push(Use { span, name })?;
    Ok(())
}

/// The uses of names in a block, in order. An item `use=` with no name is none.
///
/// # Errors
/// Out of memory.
pub fn uses_of(alloc: Global, block: &[u8]) -> Result<Vec<Use>, AllocError>
    ensures { IfOk result (λ all. map use_seen all.items ≡ spec.uses_of block.now) }
{
    let text = folded(alloc, block)?;
    let items = visible_items(alloc, &text)?;
    let mut uses = Vec::new(alloc);
    for item in &items {
        push_use(alloc, &mut uses, &text, *item)?;
    }
    Ok(uses)
}
