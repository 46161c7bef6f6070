//! The names field and the items, as parts of a folded text.
ghost use Rattle.std.specs.Prelude.{ℕ, ◌≡◌, ◌^◌, ◌+◌, ◌++◌, ◌<◌, ◌≤◌, All, IfOk, OnOk, drop, false, length, map, take};
ghost use Rattle.ti_text.specs.Ascii as ascii;
ghost use Rattle.ti_source.specs.Header.{PartsOf};
ghost use Rattle.ti_source.specs.Items.{AreItems, Begins, bytes, takes};
ghost use Rattle.source_spans.specs.Parts as spec;
ghost use Rattle.source_spans.specs.Parts.{IsWithin, field_of, items_after, names_of, part_of, rest_of, spanned, text_of};
ghost use Rattle.source_spans.specs.inside.Steps.{EndsHere, GoesOn};

use std::alloc::{AllocError, Global};

/// A part of a text: from `start` to before `end`.
#[derive(Clone, Copy, Debug, PartialEq, Eq)]
pub struct Part {
    /// Where it begins.
    pub start: usize,
    /// Where it ends.
    pub end: usize,
}

/// How many bytes the names field has: those before the first comma, or all.
pub fn field_len(text: &[(u8, usize)]) -> usize
    ensures begins { Begins text.now (take result text.now) (drop (result + 1) text.now) }
    ensures field { take result text.now ≡ field_of text.now }
    ensures rest { drop (result + 1) text.now ≡ rest_of text.now }
    ensures within { result ≤ length text.now }
{
    for at in 0..text.len() {
        if text[at].0 == b',' {
            return at;
        }
    }
    text.len()
}

// Whether the byte `byte`, which is just after `before`, takes the byte `next`.
fn takes(before: u8, byte: u8, next: u8) -> bool
    ensures { result ≡ takes before byte next }
{
    byte == b'\\' || (byte == b'^' && before != b'%' && next != b',')
}

// Whether a byte may take the next one. Few do, so this is asked first.
fn may_take(byte: u8) -> bool
    ensures { (before next : ℕ) → result ≡ false → takes before byte next ≡ false }
{
    byte == b'\\' || byte == b'^'
}

// How many bytes an item continues for at the front of a text, which is just after `before`; none
// at the comma that ends it.
fn step_len(text: &[(u8, usize)], before: u8) -> usize
    requires { 0 < length text.now }
    ensures within { result ≤ length text.now }
    ensures ends { result ≡ 0 → EndsHere text.now }
    ensures goes { 0 < result → GoesOn text.now before result }
{
    let byte = text[0].0;
    if byte == b',' {
        return 0;
    }
    if may_take(byte) && text.len() > 1 && takes(before, byte, text[1].0) {
        return 2;
    }
    1
}

/// The names in a names field of so many bytes: what is between its bars. The last of two or more
/// is the description.
///
/// # Errors
/// Out of memory.
pub fn name_parts(alloc: Global, text: &[(u8, usize)], len: usize) -> Result<Vec<Part>, AllocError>
    requires { len ≤ length text.now }
    ensures names { IfOk result (λ parts. PartsOf (bytes (take len text.now)) (map (text_of text.now) parts.items)) }
    ensures computed { IfOk result (λ parts. map (part_of text.now) parts.items ≡ names_of (take len text.now)) }
    ensures within { IfOk result (λ parts. All (IsWithin text.now) parts.items) }
{
    let mut parts = Vec::new(alloc);
    let mut start = 0;
    let mut at = 0;
    while at < len {
        if text[at].0 == b'|' {
            parts.push(Part { start, end: at })?;
            at += 1;
            start = at;
        } else {
            at += 1;
        }
    }
    parts.push(Part { start, end: len })?;
    Ok(parts)
}

/// The items of a folded text from an offset on.
///
/// # Errors
/// Out of memory.
pub fn item_parts(alloc: Global, text: &[(u8, usize)], from: usize) -> Result<Vec<Part>, AllocError>
    requires { from ≤ length text.now }
    ensures items { IfOk result (λ parts. AreItems ascii.comma (drop from text.now) (map (part_of text.now) parts.items)) }
    ensures computed { IfOk result (λ parts. map (part_of text.now) parts.items ≡ items_after ascii.comma (drop from text.now)) }
    ensures within { IfOk result (λ parts. All (IsWithin text.now) parts.items) }
{
    let mut parts = Vec::new(alloc);
    let mut start = from;
    let mut at = from;
    let mut before = b',';
    while at < text.len() {
        let size = step_len(&text[at..], before);
        if size == 0 {
            parts.push(Part { start, end: at })?;
            at += 1;
            start = at;
            before = b',';
        } else {
            at += size;
            before = text[at - 1].0;
        }
    }
    parts.push(Part {
        start,
        end: text.len(),
    })?;
    Ok(parts)
}

/// Appends the bytes of a part of a folded text.
pub(crate) fn push_bytes(
    bytes: &mut Vec<u8>,
    text: &[(u8, usize)],
    part: Part,
) -> Result<(), AllocError>
    requires { IsWithin text.now part }
    ensures { OnOk result (bytes.new.items ≡ bytes.old.items ++ text_of text.now part) }
{
    for at in part.start..part.end {
        bytes.push(text[at].0)?;
    }
    Ok(())
}

/// Where a part of a folded text is in its block: from the offset of its first byte to after that
/// of its last; `None` if it has no bytes. Comments and line breaks between them are spanned too.
pub fn span_of(text: &[(u8, usize)], part: Part) -> Option<Part>
    requires within { IsWithin text.now part }
    requires offsets { All (λ x. x.1 < 2 ^ 63) text.now }
    ensures { result ≡ spanned (part_of text.now part) }
{
    if part.start == part.end {
        return None;
    }
    Some(Part {
        start: text[part.start].1,
        end: text[part.end - 1].1 + 1,
    })
}

/// A law, with no code: the field, the names and the items that are computed are those of the
/// format.
pub fn parts_are_computed()
    ensures fields { spec.FieldsAreComputed }
    ensures names { spec.NamesAreComputed }
    ensures items { spec.ItemsAreComputed }
{}
