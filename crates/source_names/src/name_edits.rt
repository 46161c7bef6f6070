//! The edits that put a new name in the place of another: each exchanges bytes of one line.
ghost use Rattle.std.specs.Prelude.{◌≡◌, ◌≤◌, ◌<◌, ◌^◌, All, IfOk, OnOk, flat_map, length, map, reverse};
ghost use Rattle.source_blocks.specs.Places.{can_be_exchanged, is_place};
ghost use Rattle.source_document.specs.Diagnostics.{text_at};
ghost use Rattle.source_names.specs.NameEdits as spec;
ghost use Rattle.source_names.specs.NameEdits.{dealt, is_in_line, line_parts, name_edit_seen, name_edits, rename_seen, share, with_byte};

use crate::names::{Sought, head_parts, push_uses_at};
use source_edits::{bytes_in, is_start};
use source_keeping::stays_in_line;
use source_spans::{Part, folded};
use std::alloc::{AllocError, Global};
use ti_base::Database;

/// A rename.
#[derive(Clone, Copy)]
pub(crate) struct Rename<'a> {
    /// The position of the block that owns the name.
    pub owner: usize,
    /// The name.
    pub name: &'a [u8],
    /// The new name.
    pub new: &'a [u8],
}

/// A part of a block, and what takes its place.
#[derive(Clone, Copy)]
pub(crate) struct NameEdit<'a> {
    /// The part.
    pub part: Part,
    /// What takes its place.
    pub text: &'a [u8],
}

// Puts the byte of that offset before parts, of which the last comes first.
fn push_byte(parts: &mut Vec<Part>, at: usize) -> Result<(), AllocError>
    requires { at < 2 ^ 63 }
    ensures { OnOk result (reverse parts.new.items ≡ with_byte at (reverse parts.old.items)) }
{
    let one = Part {
        start: at,
        end: at + 1,
    };
    let Some(next) = parts.pop() else {
        parts.push(one)?;
        return Ok(());
    };
    if next.start == at + 1 {
        parts.push(Part {
            start: at,
            end: next.end,
        })?;
        return Ok(());
    }
    parts.push(next)?;
    parts.push(one)?;
    Ok(())
}

// The parts of a block that bytes of its folded text are in: one on each line.
fn line_parts(alloc: Global, text: &[(u8, usize)]) -> Result<Vec<Part>, AllocError>
    requires { All (λ x. x.1 < 2 ^ 63) text.now }
    ensures { IfOk result (λ parts. parts.items ≡ line_parts text.now) }
{
    let mut parts = Vec::new(alloc);
    for count in 0..text.len() {
        push_byte(&mut parts, text[text.len() - 1 - count].1)?;
    }
    parts.reverse();
    Ok(parts)
}

// How many of the bytes that are left a part gets, if these parts are after it: those that they do
// not take, each as many as it had.
fn share(left: usize, later: &[Part]) -> usize
    ensures share { result ≡ share left later.now }
    ensures within { result ≤ left }
{
    let mut rest = left;
    for part in later {
        rest = rest.saturating_sub(part.end.saturating_sub(part.start));
    }
    rest
}

// A new text in the place of parts: each but the first gets as many bytes as it had, from the last
// on, and the first what is left.
fn dealt<'a>(alloc: Global, parts: &[Part], new: &'a [u8]) -> Result<Vec<NameEdit<'a>>, AllocError>
    ensures { IfOk result (λ edits. map name_edit_seen edits.items ≡ dealt parts.now new.now) }
{
    let mut edits = Vec::new(alloc);
    let mut rest = new;
    for at in 0..parts.len() {
        let (text, later) = rest.split_at(share(rest.len(), &parts[at + 1..]));
        let part = parts[at];
        edits.push(NameEdit { part, text })?;
        rest = later;
    }
    Ok(edits)
}

// The edits that put a new name in the place of the one in that part of a block with this folded
// text.
fn name_edits<'a>(
    alloc: Global,
    text: &[(u8, usize)],
    new: &'a [u8],
    part: Part,
) -> Result<Vec<NameEdit<'a>>, AllocError>
    requires { All (λ x. x.1 < 2 ^ 63) text.now }
    ensures { IfOk result (λ edits. map name_edit_seen edits.items ≡ name_edits text.now new.now part) }
{
    let bytes = bytes_in(alloc, part, text)?;
    let parts = line_parts(alloc, &bytes)?;
    dealt(alloc, &parts, new)
}

// The same of several parts.
fn all_edits<'a>(
    alloc: Global,
    text: &[(u8, usize)],
    new: &'a [u8],
    parts: &[Part],
) -> Result<Vec<NameEdit<'a>>, AllocError>
    requires { All (λ x. x.1 < 2 ^ 63) text.now }
    ensures { IfOk result (λ edits. map name_edit_seen edits.items ≡ flat_map (name_edits text.now new.now) parts.now) }
{
    let mut edits = Vec::new(alloc);
    for part in parts {
        let found = name_edits(alloc, text, new, *part)?;
        edits.extend_from_slice(&found)?;
    }
    Ok(edits)
}

/// The edits of a rename in the block at that position.
///
/// # Errors
/// Out of memory.
pub(crate) fn edits_in<'a>(
    alloc: Global,
    database: &Database,
    rename: Rename<'a>,
    at: usize,
) -> Result<Vec<NameEdit<'a>>, AllocError>
    requires { at < length database.now }
    ensures { IfOk result (λ edits. map name_edit_seen edits.items ≡ spec.edits_in (rename_seen rename.entry) at (text_at database.now at)) }
{
    let block = database.text(at);
    let sought = Sought::Name {
        owner: rename.owner,
        name: rename.name,
    };
    let mut parts = head_parts(alloc, sought, at, block)?;
    push_uses_at(alloc, &mut parts, database, sought, at)?;
    if parts.is_empty() {
        return Ok(Vec::new(alloc));
    }
    let text = folded(alloc, block)?;
    all_edits(alloc, &text, rename.new, &parts)
}

// Whether an editor has a place of that offset of a block.
fn is_place(block: &[u8], offset: usize) -> bool
    ensures { result ≡ is_place block.now offset }
{
    offset < block.len() && is_start(block, offset)
}

// Whether an editor can exchange a part of a block, and no more and no less.
fn can_be_exchanged(block: &[u8], part: Part) -> bool
    ensures { result ≡ can_be_exchanged block.now part }
{
    is_place(block, part.start) && is_place(block, part.end)
}

/// Whether an editor can make an edit of a block, no more and no less, and it is within a line of
/// items, so that it leaves comments and blank lines as they are.
pub(crate) fn is_in_line(block: &[u8], edit: NameEdit<'_>) -> bool
    ensures { result ≡ is_in_line block.now (name_edit_seen edit.entry) }
{
    let Part { start, end } = edit.part;
    can_be_exchanged(block, edit.part)
        && start <= end
        && stays_in_line(block, start, end, edit.text)
}
