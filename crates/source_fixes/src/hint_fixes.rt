//! What is offered against the hints on what a range touches.
ghost use Rattle.std.specs.Prelude.{◌≡◌, ◌≤◌, ◌<◌, ◌+◌, ◌++◌, ◌^◌, All, IfOk, IfSome, OnOk, Vec, None, [], ◌∷◌, length};
ghost use Rattle.std.specs.List.{flat_map};
ghost use Rattle.ti_text.specs.Ascii as ascii;
ghost use Rattle.source_spans.specs.Folding.{folded_of};
ghost use Rattle.source_spans.specs.Replacing.{exchanged};
ghost use Rattle.source_document.specs.Diagnostics.{text_at};
ghost use Rattle.source_document.specs.Documents.{IsShortBlock};
ghost use Rattle.source_fixes.specs.HintFixes as spec;

use crate::fixes::{Stretch, can_be_exchanged, stretch_to};
use crate::parting::{is_parted, texts_of};
use source_block_hints::{Hint, HintKind, hints_of_block};
use source_blocks::{Spot, range_in, spot_at};
use source_document::Document;
use source_keeping::stays_in_line;
use source_spans::{Part, folded};
use source_types::{Position, Range};
use std::alloc::{AllocError, Global};
use ti_base::Database;
use ti_text::is_white_space;

/// What is offered against a hint: a comma in the place of a part of the text.
#[derive(Clone, Copy, Debug)]
pub struct HintFix {
    /// What the hint says.
    pub kind: HintKind,
    /// The part of the text that is exchanged. It may have no bytes.
    pub range: Range,
}

// The last byte of a folded text that is before an offset and no white space, and the offset after
// it.
fn last_before(text: &[(u8, usize)], offset: usize) -> Option<(u8, usize)>
    ensures { result ≡ spec.last_before None offset text.now }
{
    let mut found = None;
    let mut rest = text;
    while let Some((placed, after)) = rest.split_first() {
        if placed.1 < offset && !is_white_space(placed.0) {
            found = Some((placed.0, placed.1 + 1));
        }
        rest = after;
    }
    found
}

// What takes the place of no byte at an offset.
fn empty_at(offset: usize) -> Part
    ensures { result ≡ spec.empty_at offset }
{
    Part {
        start: offset,
        end: offset,
    }
}

// The part of a block whose place a comma takes, if this is the last byte before the item that a hint
// quotes and the offset after that byte.
fn comma_part(kind: HintKind, last: (u8, usize)) -> Option<Part>
    ensures { result ≡ spec.comma_part kind last }
{
    match kind {
        HintKind::MissingComma => Some(empty_at(last.1)),
        HintKind::ItemsInHead if last.0 == b'|' => Some(Part {
            start: last.1.saturating_sub(1),
            end: last.1,
        }),
        HintKind::ItemsInHead => Some(empty_at(last.1)),
        _ => None,
    }
}

// The same of a hint on a block with this folded text.
fn hint_part(text: &[(u8, usize)], hint: &Hint) -> Option<Part>
    ensures { result ≡ spec.hint_part text.now hint.now }
{
    let last = last_before(text, hint.detail_start)?;
    comma_part(hint.kind, last)
}

// Whether an editor can put a comma in the place of a part of a block, and the edit is within a line
// of items and after something that is seen on that line.
fn can_be_put(block: &[u8], part: Part) -> bool
    ensures { result ≡ spec.can_be_put block.now part }
{
    let Part { start, end } = part;
    can_be_exchanged(block, part)
        && start <= end
        && stays_in_line(block, start, end, b",")
        && stays_in_line(block, start, start, b"")
}

// A block with a comma in the place of a part.
fn with_comma(alloc: Global, block: &[u8], part: Part) -> Result<Vec<u8>, AllocError>
    requires forward { part.start ≤ part.end }
    requires within { part.end ≤ length block.now }
    ensures { IfOk result (λ text. text.items ≡ exchanged block.now part (ascii.comma ∷ [])) }
{
    let mut text = Vec::new(alloc);
    text.extend_from_slice(&block[..part.start])?;
    text.push(b',')?;
    text.extend_from_slice(&block[part.end..])?;
    Ok(text)
}

// Whether a comma in the place of a part of a block makes one of its texts two, and leaves the others
// as they are.
fn parts_text(alloc: Global, block: &[u8], part: Part) -> Result<bool, AllocError>
    requires forward { part.start ≤ part.end }
    requires within { part.end ≤ length block.now }
    ensures { IfOk result (λ parts. parts ≡ spec.parts_text block.now part) }
{
    let before = texts_of(alloc, block)?;
    let text = with_comma(alloc, block, part)?;
    let after = texts_of(alloc, &text)?;
    Ok(is_parted(&before, &after))
}

// Whether a comma is offered in the place of a part of a block.
fn is_offered(alloc: Global, block: &[u8], part: Part) -> Result<bool, AllocError>
    ensures { IfOk result (λ offered. offered ≡ spec.is_offered block.now part) }
{
    if !can_be_put(block, part) {
        return Ok(false);
    }
    parts_text(alloc, block, part)
}

// Adds what is offered against a hint on a block with this folded text, which begins on that line.
fn push_against(
    alloc: Global,
    fixes: &mut Vec<HintFix>,
    line: usize,
    block: &[u8],
    text: &[(u8, usize)],
    hint: &Hint,
) -> Result<(), AllocError>
    requires room { line + length block.now < 2 ^ 64 }
    requires folded { text.now ≡ folded_of block.now }
    ensures { OnOk result (fixes.new.items ≡ fixes.old.items ++ spec.against_hint line block.now hint.now) }
{
    let Some(part) = hint_part(text, hint) else {
        return Ok(());
    };
    if is_offered(alloc, block, part)? {
        fixes.push(HintFix {
            kind: hint.kind,
            range: range_in(line, block, part),
        })?;
    }
    Ok(())
}

// Whether a stretch touches what a hint is on.
fn touches_hint(stretch: Stretch, hint: &Hint) -> bool
    ensures { result ≡ spec.touches_hint stretch hint.now }
{
    hint.start <= stretch.end && stretch.start <= hint.end
}

// Adds what is offered against a hint, if the stretch touches what it is on.
fn push_if_touched(
    alloc: Global,
    fixes: &mut Vec<HintFix>,
    line: usize,
    block: &[u8],
    text: &[(u8, usize)],
    stretch: Stretch,
    hint: &Hint,
) -> Result<(), AllocError>
    requires room { line + length block.now < 2 ^ 64 }
    requires folded { text.now ≡ folded_of block.now }
    ensures { OnOk result (fixes.new.items ≡ fixes.old.items ++ spec.if_touched line block.now stretch hint.now) }
{
    if !touches_hint(stretch, hint) {
        return Ok(());
    }
    push_against(alloc, fixes, line, block, text, hint)
}

// Adds what is offered against those of some hints that are on what the stretch touches.
fn push_all(
    alloc: Global,
    fixes: &mut Vec<HintFix>,
    line: usize,
    block: &[u8],
    text: &[(u8, usize)],
    stretch: Stretch,
    hints: &[Hint],
) -> Result<(), AllocError>
    requires room { line + length block.now < 2 ^ 64 }
    requires folded { text.now ≡ folded_of block.now }
    ensures { OnOk result (fixes.new.items ≡ fixes.old.items ++ flat_map (spec.if_touched line block.now stretch) hints.now) }
{
    for hint in hints {
        push_if_touched(alloc, fixes, line, block, text, stretch, hint)?;
    }
    Ok(())
}

// What is offered against the hints on a block that begins on that line.
fn hint_fixes_in(
    alloc: Global,
    line: usize,
    block: &[u8],
    stretch: Stretch,
) -> Result<Vec<HintFix>, AllocError>
    requires room { line + length block.now < 2 ^ 64 }
    ensures { IfOk result (λ fixes. fixes.items ≡ spec.hint_fixes_in line block.now stretch) }
{
    let hints = hints_of_block(alloc, block)?;
    let text = folded(alloc, block)?;
    let mut fixes = Vec::new(alloc);
    push_all(alloc, &mut fixes, line, block, &text, stretch, &hints)?;
    Ok(fixes)
}

// What is offered from a place in a block on to another place.
fn hint_fixes_from(
    alloc: Global,
    database: &Database,
    end: Position,
    spot: Spot,
) -> Result<Vec<HintFix>, AllocError>
    requires short { All IsShortBlock database.now }
    requires within { spot.at < length database.now }
    requires room { spot.line + length (text_at database.now spot.at) < 2 ^ 64 }
    ensures { IfOk result (λ fixes. fixes.items ≡ spec.hint_fixes_from database.now end spot) }
{
    let block = database.text(spot.at);
    let stretch = stretch_to(block, end, spot);
    hint_fixes_in(alloc, spot.line, block, stretch)
}

/// What is offered against the hints on what a range touches, of the block in which it begins, in
/// their order: a comma in a string or after a boolean that goes on with another item (N4), and one at
/// the end of a head that holds an item, in the place of a bar before that (N5). It comes right after
/// what is seen before the item. So it is on the line of that, and each comment and each blank line
/// stays as it is.
///
/// It is offered if one text of the block is two with it, its names field or an item, of which the
/// other says a capability, and each other text is as it was. An editor has to have the places of the
/// part whose place it takes.
///
/// # Errors
/// Out of memory.
pub fn hint_fixes_of(
    alloc: Global,
    document: &Document,
    range: Range,
) -> Result<Vec<HintFix>, AllocError>
    ensures { IfOk result (λ fixes. fixes.items ≡ spec.hint_fixes_of document.now range) }
{
    source_document::laws::held_blocks_fit();
    match spot_at(document, range.start) {
        Some(spot) => hint_fixes_from(alloc, document.database(), range.end, spot),
        None => Ok(Vec::new(alloc)),
    }
}
