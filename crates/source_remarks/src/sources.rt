//! The hints on a source.
ghost use Rattle.std.specs.Prelude.{◌≡◌, ◌+◌, ◌-◌, ◌<◌, ◌≤◌, ◌^◌, ◌++◌, ℕ, IfOk, List, OnOk, length, map, slice_get, Some};
ghost use Rattle.base_meaning.specs.Report.{lines_before};
ghost use Rattle.ti_text.specs.Limits.{block_bytes_max};
ghost use Rattle.tools_sources.specs.Sources.{first_line};
ghost use Rattle.source_diagnostics.specs.Marking.{text_at};
ghost use Rattle.source_hints.specs.FileForms.{file_hints};
ghost use Rattle.source_document.specs.Documents.{held};
ghost use Rattle.source_remarks.specs.Hints as spec;
ghost use Rattle.source_remarks.specs.Hints.{has_user_defined, hint_seen, hints_before, hints_on, hints_seen, shown_after, shown_in_file, source_marks, text_hints};
ghost use Rattle.source_remarks.specs.inside.Marked.{AreMarksOf};

use crate::kept::{KeptHints, taken_or_found};
use crate::marks::{HintMark, marks_of};
use crate::shown::{ShownHint, shown_after, shown_in_file};
use source_diagnostics::Capabilities;
use source_document::Document;
use source_hints::{file_hints, hints_after_uses, hints_of, merged};
use std::alloc::{AllocError, Global};
use ti_base::Database;
use tools_sources::first_line;

/// The hints on a source.
#[derive(Debug, Drop)]
pub struct SourceHints {
    /// Those on its blocks, in their order.
    pub blocks: Vec<ShownHint>,
    /// Those on the whole file, in the order in which they begin.
    pub file: Vec<ShownHint>,
}

// Adds what is shown for hints on a block that so many lines are before.
fn push_marks(
    alloc: Global,
    all: &mut Vec<ShownHint>,
    lines: usize,
    text: &[u8],
    marks: &[HintMark],
) -> Result<(), AllocError>
    requires marks { AreMarksOf text.now marks.now }
    requires lines { lines ≤ 2 ^ 63 + 2 ^ 37 }
    requires short { length text.now ≤ block_bytes_max }
    ensures { OnOk result (map hint_seen all.new.items ≡ map hint_seen all.old.items ++ map (shown_after lines text.now) marks.now) }
{
    for mark in marks {
        all.push(shown_after(alloc, lines, text, *mark)?)?;
    }
    Ok(())
}

// The hints on the block at a position, with those on items after a use.
fn marks_with_uses(
    alloc: Global,
    user_defined: bool,
    database: &Database,
    at: usize,
) -> Result<Vec<HintMark>, AllocError>
    requires { at < length database.now }
    ensures { IfOk result (λ marks. marks.items ≡ source_marks user_defined database.now at) }
{
    let text = database.text(at);
    let hints = hints_of(alloc, user_defined, text)?;
    let after = hints_after_uses(alloc, database, at)?;
    let all = merged(alloc, &hints, &after)?;
    marks_of(alloc, text, &all)
}

// Adds the hints on the block at a position that so many lines are before. Most blocks have no item
// after a use, and what is kept of them is all.
fn push_block(
    alloc: Global,
    all: &mut Vec<ShownHint>,
    lines: usize,
    database: &Database,
    at: usize,
    user_defined: bool,
    kept: &KeptHints,
) -> Result<(), AllocError>
    requires within { at < length database.now }
    requires kept { (text : List ℕ) → slice_get database.now at ≡ Some text → kept.now ≡ (user_defined, text) }
    requires lines { lines ≤ 2 ^ 63 + 2 ^ 37 }
    requires short { length (text_at database.now at) ≤ block_bytes_max }
    ensures { OnOk result (map hint_seen all.new.items
        ≡ map hint_seen all.old.items ++ map (shown_after lines (text_at database.now at)) (source_marks user_defined database.now at)) }
{
    // A law, with no code: a block without such items has no hint on one.
    source_hints::laws::others_have_no_hint_after_uses();
    let text = database.text(at);
    if kept.says_after_use() {
        let marks = marks_with_uses(alloc, user_defined, database, at)?;
        push_marks(alloc, all, lines, text, &marks)
    } else {
        push_marks(alloc, all, lines, text, kept.marks())
    }
}

// The number of the line on which a block begins, counted from 0, if so many lines are before it in
// its list, and the first block begins on the line `first`, counted from 1.
fn lines_before(first: usize, before: u64) -> usize
    requires first { 1 ≤ first }
    requires room { first ≤ 2 ^ 63 }
    requires before { before ≤ 68719476736 }
    ensures lines { result ≡ first - 1 + before }
    ensures few { result ≤ 2 ^ 63 + 2 ^ 37 }
{
    first - 1 + before as usize
}

// The hints on the blocks of a document, and what is kept of each.
fn block_hints(
    alloc: Global,
    user_defined: bool,
    document: &Document,
    kept: &mut Vec<KeptHints>,
) -> Result<(Vec<ShownHint>, Vec<KeptHints>), AllocError>
    ensures { IfOk result (λ r. map hint_seen r.0.items
        ≡ hints_before user_defined (held document.now) (first_line document.now) (length (held document.now))) }
{
    // A law, with no code: the blocks are not long.
    source_document::laws::held_blocks_fit();
    let database = document.database();
    let first = first_line(document.text());
    let starts = database.line_starts()?;
    kept.reverse();
    let mut all = Vec::new(alloc);
    let mut found = Vec::with_capacity(alloc, database.len())?;
    for at in 0..database.len() {
        let text = database.text(at);
        let hints = taken_or_found(alloc, kept, user_defined, text)?;
        push_block(
            alloc,
            &mut all,
            lines_before(first, starts[at]),
            database,
            at,
            user_defined,
            &hints,
        )?;
        found.push(hints)?;
    }
    Ok((all, found))
}

// The hints on a whole source, of which a text is read.
fn shown_on_file(alloc: Global, source: &[u8], text: &[u8]) -> Result<Vec<ShownHint>, AllocError>
    ensures { IfOk result (λ all. map hint_seen all.items ≡ map (shown_in_file source.now text.now) (file_hints source.now)) }
{
    let hints = file_hints(alloc, source)?;
    let mut all = Vec::with_capacity(alloc, hints.len())?;
    for hint in &hints {
        all.push(shown_in_file(alloc, source, text, *hint)?)?;
    }
    Ok(all)
}

// Whether a source may have user-defined capabilities.
fn has_user_defined(capabilities: Capabilities) -> bool
    ensures { result ≡ has_user_defined capabilities }
{
    match capabilities {
        Capabilities::Profile => false,
        Capabilities::UserDefined => true,
    }
}

/// The hints on a source of which the text of a document is read, by which capabilities it may
/// have. Those on its blocks are kept, and are taken again for the same text. A source that is
/// refused has those on the form of its file alone. A hint on a block is on its item, as far as
/// that is on its first line; its message has the name of the hint, what it quotes, and its
/// sentence.
///
/// # Errors
/// Out of memory.
pub fn source_hints_in(
    alloc: Global,
    capabilities: Capabilities,
    source: &[u8],
    document: &Document,
    kept: &mut Vec<KeptHints>,
) -> Result<SourceHints, AllocError>
    ensures { IfOk result (λ hints. hints_seen hints ≡ hints_on capabilities source.now document.now) }
{
    let user_defined = has_user_defined(capabilities);
    let (blocks, found) = block_hints(alloc, user_defined, document, kept)?;
    *kept = found;
    Ok(SourceHints {
        blocks,
        file: shown_on_file(alloc, source, document.text())?,
    })
}

/// The hints on a document, by which capabilities it may have, as it is. Those on its blocks are kept,
/// and are taken again for the same text. No clause says so: only the time of the next call depends
/// on it.
///
/// # Errors
/// Out of memory.
pub fn hints_in(
    alloc: Global,
    capabilities: Capabilities,
    document: &Document,
    kept: &mut Vec<KeptHints>,
) -> Result<SourceHints, AllocError>
    ensures { IfOk result (λ hints. hints_seen hints ≡ text_hints capabilities document.now) }
{
    source_hints_in(alloc, capabilities, document.text(), document, kept)
}
