//! Where the names of a document lead.
ghost use Rattle.std.specs.Prelude.{◌≡◌, ◌<◌, ◌+◌, ◌++◌, ◌^◌, IfOk, IfSome, OnOk, length, map, option_map};
ghost use Rattle.ti_source.specs.Reading.{item_of, said_of};
ghost use Rattle.base_meaning.specs.Owner.{owner, readings};
ghost use Rattle.base_meaning.specs.Reaching.{any_use, use_passes, used_name};
ghost use Rattle.source_spans.specs.Subjects.{subject_seen, touched_seen};
ghost use Rattle.source_document.specs.Diagnostics.{text_at};
ghost use Rattle.source_document.specs.Documents.{held};
ghost use Rattle.source_blocks.specs.Spots as place;
ghost use Rattle.source_blocks.specs.Counting.{CanCount};
ghost use Rattle.source_names.specs.Names as spec;
ghost use Rattle.source_names.specs.Names.{head_parts, is_sought, name_of, ranges_from, ranges_in, used_parts};
ghost use Rattle.source_names.specs.inside.Seeking.{sought_seen};

use source_blocks::{block_line, head_line, is_owner, range_in, spot_at};
use source_document::Document;
use source_spans::{Part, Subject, Touched, head_of, own_spans, subject_at, uses_of};
use source_types::{Position, Range};
use std::alloc::{AllocError, Global};
use ti_base::Database;
use ti_source::{Item, What};
use ti_text::count_lines;

/// What is sought in the blocks of a document.
#[derive(Clone, Copy)]
pub(crate) enum Sought<'a> {
    /// The uses of the names that the block at that position owns.
    UsesOf(usize),
    /// A name: in the head of the block at that position, which owns it, and in uses.
    Name {
        /// The position of the block.
        owner: usize,
        /// The name.
        name: &'a [u8],
    },
}

/// What a place of a document is on.
pub(crate) fn touched_at(
    alloc: Global,
    document: &Document,
    place: Position,
) -> Result<Option<Touched>, AllocError>
    ensures { IfOk result (λ found. option_map touched_seen found ≡ spec.touched_at document.now place) }
{
    match spot_at(document, place) {
        Some(spot) => subject_at(alloc, document.database().text(spot.at), spot.offset),
        None => Ok(None),
    }
}

/// The name of a subject: its own, or the one that it uses.
pub fn name_of(subject: &Subject) -> &[u8]
    ensures { result.now ≡ name_of (subject_seen subject.now) }
{
    match subject {
        Subject::OwnName(name) => name,
        Subject::Used(name) => name,
    }
}

/// The block that owns the name of a subject.
pub(crate) fn owner_of(database: &Database, subject: &Subject) -> Option<usize>
    ensures { result ≡ owner (readings database.now) (name_of (subject_seen subject.now)) }
{
    database.owner(name_of(subject))
}

// The block that owns the name that a place is on.
fn owner_at(
    alloc: Global,
    document: &Document,
    place: Position,
) -> Result<Option<usize>, AllocError>
    ensures owner { IfOk result (λ at. at ≡ spec.owner_at document.now place) }
    ensures within { IfOk result (λ at. IfSome at (λ at. at < length (held document.now))) }
{
    match touched_at(alloc, document, place)? {
        Some(touched) => Ok(owner_of(document.database(), &touched.subject)),
        None => Ok(None),
    }
}

// The names field of a block.
fn head_range(alloc: Global, document: &Document, at: usize) -> Result<Range, AllocError>
    requires { at < length (held document.now) }
    ensures { IfOk result (λ range. range ≡ spec.head_range document.now at) }
{
    let database = document.database();
    let block = database.text(at);
    let head = head_of(alloc, block)?;
    let line = block_line(database, head_line(document), at);
    Ok(range_in(line, block, head.span))
}

/// The names field of the block that owns the name that a place is on, in a head or in an item
/// `use=`; `None` if the place is on no name, or no block has the name.
///
/// # Errors
/// Out of memory.
pub fn definition_of(
    alloc: Global,
    document: &Document,
    place: Position,
) -> Result<Option<Range>, AllocError>
    ensures { IfOk result (λ found. found ≡ spec.definition_of document.now place) }
{
    match owner_at(alloc, document, place)? {
        Some(at) => Ok(Some(head_range(alloc, document, at)?)),
        None => Ok(None),
    }
}

// Whether a use of that name is sought.
fn is_sought(database: &Database, sought: Sought<'_>, name: &[u8]) -> bool
    ensures { result ≡ is_sought database.now (sought_seen sought.entry) name.now }
{
    match sought {
        Sought::UsesOf(owner) => is_owner(database, name, owner),
        Sought::Name { name: wanted, .. } => name == wanted,
    }
}

/// The parts of the head of a block at that position that are sought.
///
/// # Errors
/// Out of memory.
pub(crate) fn head_parts(
    alloc: Global,
    sought: Sought<'_>,
    at: usize,
    block: &[u8],
) -> Result<Vec<Part>, AllocError>
    ensures { IfOk result (λ parts. parts.items ≡ head_parts (sought_seen sought.entry) at block.now) }
{
    match sought {
        Sought::Name { owner, name } if owner == at => own_spans(alloc, block, name),
        _ => Ok(Vec::new(alloc)),
    }
}

// Adds the uses in a block that are sought.
fn push_uses(
    alloc: Global,
    parts: &mut Vec<Part>,
    database: &Database,
    sought: Sought<'_>,
    block: &[u8],
) -> Result<(), AllocError>
    ensures { OnOk result (parts.new.items ≡ parts.old.items ++ used_parts database.now (sought_seen sought.entry) block.now) }
{
    let uses = uses_of(alloc, block)?;
    for found in &uses {
        if is_sought(database, sought, &found.name) {
            parts.push(found.span)?;
        }
    }
    Ok(())
}

// Whether what an item says is that it uses a name that is sought.
fn is_sought_use(database: &Database, sought: Sought<'_>, what: &What) -> bool
    ensures { result ≡ use_passes (is_sought database.now (sought_seen sought.entry)) (used_name (said_of what.now)) }
{
    match what {
        What::Flag(_) => false,
        What::Number(_, _) => false,
        What::Text(_, _) => false,
        What::Cancel(_) => false,
        What::Import(used) => is_sought(database, sought, used.as_slice()),
    }
}

// Whether one of the items uses a name that is sought.
fn any_sought_use(database: &Database, sought: Sought<'_>, items: &[Item]) -> bool
    ensures { result ≡ any_use (is_sought database.now (sought_seen sought.entry)) (map item_of items.now) }
{
    for item in items {
        if is_sought_use(database, sought, &item.what) {
            return true;
        }
    }
    false
}

/// Adds the uses in the block at that position that are sought. Its text is gone through only if one
/// of its items, as they were read, is such a use.
///
/// # Errors
/// Out of memory.
pub(crate) fn push_uses_at(
    alloc: Global,
    parts: &mut Vec<Part>,
    database: &Database,
    sought: Sought<'_>,
    at: usize,
) -> Result<(), AllocError>
    requires { at < length database.now }
    ensures { OnOk result (parts.new.items ≡ parts.old.items ++ used_parts database.now (sought_seen sought.entry) (text_at database.now at)) }
{
    if any_sought_use(database, sought, database.items(at)) {
        return push_uses(alloc, parts, database, sought, database.text(at));
    }
    Ok(())
}

// Adds parts of a block that begins on that line.
fn push_ranges(
    ranges: &mut Vec<Range>,
    line: usize,
    block: &[u8],
    parts: &[Part],
) -> Result<(), AllocError>
    requires { line + length block.now < 2 ^ 64 }
    ensures { OnOk result (ranges.new.items ≡ ranges.old.items ++ map (place.range_in line block.now) parts.now) }
{
    for part in parts {
        ranges.push(range_in(line, block, *part))?;
    }
    Ok(())
}

// Adds what is sought in the block at that position, which begins on that line.
fn push_sought(
    alloc: Global,
    ranges: &mut Vec<Range>,
    database: &Database,
    sought: Sought<'_>,
    line: usize,
    at: usize,
) -> Result<(), AllocError>
    requires within { at < length database.now }
    requires room { line + length (text_at database.now at) < 2 ^ 64 }
    ensures { OnOk result (ranges.new.items ≡ ranges.old.items ++ ranges_in database.now (sought_seen sought.entry) at line (text_at database.now at)) }
{
    let block = database.text(at);
    let mut parts = head_parts(alloc, sought, at, block)?;
    push_uses_at(alloc, &mut parts, database, sought, at)?;
    push_ranges(ranges, line, block, &parts)
}

/// Adds what is sought in all blocks, of which the first begins on that line: in the order of the
/// text.
pub(crate) fn push_all(
    alloc: Global,
    ranges: &mut Vec<Range>,
    database: &Database,
    sought: Sought<'_>,
    first: usize,
) -> Result<(), AllocError>
    requires { CanCount first database.now }
    ensures { OnOk result (ranges.new.items ≡ ranges.old.items ++ ranges_from database.now (sought_seen sought.entry) 0 first database.now) }
{
    let mut line = first;
    for at in 0..database.len() {
        push_sought(alloc, ranges, database, sought, line, at)?;
        line += count_lines(database.text(at));
    }
    Ok(())
}

/// The names in items `use=` that belong to the owner of the name that a place is on, after the
/// owner's names field if that is asked for; none if no block owns the name.
///
/// # Errors
/// Out of memory.
pub fn references_of(
    alloc: Global,
    document: &Document,
    place: Position,
    with_declaration: bool,
) -> Result<Vec<Range>, AllocError>
    ensures { IfOk result (λ all. all.items ≡ spec.references_of document.now place with_declaration) }
{
    let mut ranges = Vec::new(alloc);
    let Some(at) = owner_at(alloc, document, place)? else {
        return Ok(ranges);
    };
    if with_declaration {
        ranges.push(head_range(alloc, document, at)?)?;
    }
    let first = head_line(document);
    push_all(
        alloc,
        &mut ranges,
        document.database(),
        Sought::UsesOf(at),
        first,
    )?;
    Ok(ranges)
}
