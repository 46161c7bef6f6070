//! What an editor renames: a name of an entry, with its uses.
ghost use Rattle.std.specs.Prelude.{◌≡◌, ◌<◌, ◌+◌, ◌++◌, ◌^◌, IfOk, None, Some, length, map, option_map, true, if◌then◌else◌};
ghost use Rattle.std.specs.List.{list_all};
ghost use Rattle.std.specs.Str.{bytes_eq};
ghost use Rattle.ti_source.specs.Reading.{item_of, said_of};
ghost use Rattle.base_meaning.specs.Owner.{owner, readings};
ghost use Rattle.base_meaning.specs.Reaching.{any_use, use_passes, used_name};
ghost use Rattle.source_document.specs.Diagnostics.{text_at};
ghost use Rattle.source_blocks.specs.Counting.{CanCount};
ghost use Rattle.source_names.specs.Edited.{RenamesAreApplied};
ghost use Rattle.source_names.specs.NameEdits.{can_be_put, edits_in, name_edit_seen, rename_seen};
ghost use Rattle.source_names.specs.Renamed.{BlocksSayWhatTheyDid, EntriesHoldWhatTheyDid, UsesLeadWhereTheyDid};
ghost use Rattle.source_names.specs.UserRenamed.{BlocksSayOfUsersWhatTheyDid, UserValuesStay};
ghost use Rattle.source_names.specs.Renaming as spec;
ghost use Rattle.source_names.specs.Renaming.{can_be_renamed, edits_from, failure_of, is_taken, is_used, placed_edit, rename_edit_seen, renamed, renaming_seen};

use crate::name_edits::{NameEdit, Rename, edits_in, is_in_line};
use crate::names::{name_of, owner_of, touched_at};
use source_blocks::{can_be_given, head_line, range_in, spot_at};
use source_document::Document;
use source_edits::utf8_of;
use source_spans::subject_at;
use source_types::{Failure, Position, Range};
use std::alloc::{AllocError, Global};
use ti_base::Database;
use ti_source::{Item, What};
use ti_text::count_lines;

/// A text that takes the place of a part of a document, within a line.
#[derive(Debug, Drop)]
pub struct RenameEdit {
    /// The part.
    pub range: Range,
    /// Its new text.
    pub text: String,
}

/// What comes of a rename.
#[derive(Drop)]
pub enum Renaming {
    /// Nothing is renamed: the place is on no name, or no block has the name.
    Nothing,
    /// The new name is refused.
    Refused(Failure),
    /// These edits put the new name in the place of the old one, in the order of the text: one for
    /// each, or one for each line of a name that is folded over lines.
    Edits(Vec<RenameEdit>),
}

// Whether what an item says is that it uses a name.
fn is_use_of(what: &What, name: &[u8]) -> bool
    ensures { result ≡ use_passes (bytes_eq name.now) (used_name (said_of what.now)) }
{
    match what {
        What::Flag(_) => false,
        What::Number(_, _) => false,
        What::Text(_, _) => false,
        What::Cancel(_) => false,
        What::Import(used) => name == used.as_slice(),
    }
}

// Whether one of the items uses a name.
fn any_use_of(items: &[Item], name: &[u8]) -> bool
    ensures { result ≡ any_use (bytes_eq name.now) (map item_of items.now) }
{
    for item in items {
        if is_use_of(&item.what, name) {
            return true;
        }
    }
    false
}

// Whether an item of the blocks uses a name.
fn is_used(database: &Database, name: &[u8]) -> bool
    ensures { result ≡ is_used (readings database.now) name.now }
{
    for at in 0..database.len() {
        if any_use_of(database.items(at), name) {
            return true;
        }
    }
    false
}

// Whether a block cannot get a name without leading a use elsewhere.
fn is_taken(database: &Database, at: usize, name: &[u8]) -> bool
    ensures { result ≡ is_taken (readings database.now) at name.now }
{
    match database.owner(name) {
        Some(other) => other != at,
        None => is_used(database, name),
    }
}

// Why a name of the block at a position cannot be this one instead, if it cannot.
fn failure_of(
    alloc: Global,
    database: &Database,
    owner: usize,
    name: &[u8],
) -> Result<Option<Failure>, AllocError>
    ensures { IfOk result (λ failure. failure ≡ failure_of database.now owner name.now) }
{
    if !can_be_given(alloc, name)? {
        return Ok(Some(Failure::NoName));
    }
    if is_taken(database, owner, name) {
        return Ok(Some(Failure::NameTaken));
    }
    Ok(None)
}

// An edit of a block that begins on that line, as one of the text, if it can be put in its place.
fn put(
    alloc: Global,
    line: usize,
    block: &[u8],
    edit: NameEdit<'_>,
) -> Result<Option<RenameEdit>, AllocError>
    requires { line + length block.now < 2 ^ 64 }
    ensures { IfOk result (λ found. option_map rename_edit_seen found
        ≡ (if can_be_put block.now (name_edit_seen edit.entry) then Some (placed_edit line block.now (name_edit_seen edit.entry)) else None)) }
{
    if !is_in_line(block, edit) {
        return Ok(None);
    }
    match utf8_of(Vec::from_slice(alloc, edit.text)?) {
        Some(text) => Ok(Some(RenameEdit {
            range: range_in(line, block, edit.part),
            text,
        })),
        None => Ok(None),
    }
}

// Adds edits of a block that begins on that line, and tells whether each can be put in its place.
fn push_edits(
    alloc: Global,
    edits: &mut Vec<RenameEdit>,
    line: usize,
    block: &[u8],
    found: &[NameEdit<'_>],
) -> Result<bool, AllocError>
    requires { line + length block.now < 2 ^ 64 }
    ensures all { IfOk result (λ all. all ≡ list_all (can_be_put block.now) (map name_edit_seen found.now)) }
    ensures edits { IfOk result (λ all. all ≡ true → map rename_edit_seen edits.new.items
        ≡ map rename_edit_seen edits.old.items ++ map (placed_edit line block.now) (map name_edit_seen found.now)) }
{
    for edit in found {
        match put(alloc, line, block, *edit)? {
            Some(edit) => edits.push(edit)?,
            None => return Ok(false),
        }
    }
    Ok(true)
}

// The same of the edits of a rename in the block at that position.
fn push_edits_at(
    alloc: Global,
    edits: &mut Vec<RenameEdit>,
    database: &Database,
    rename: Rename<'_>,
    line: usize,
    at: usize,
) -> Result<bool, AllocError>
    requires within { at < length database.now }
    requires room { line + length (text_at database.now at) < 2 ^ 64 }
    ensures all { IfOk result (λ all. all ≡ list_all (can_be_put (text_at database.now at)) (edits_in (rename_seen rename.entry) at (text_at database.now at))) }
    ensures edits { IfOk result (λ all. all ≡ true → map rename_edit_seen edits.new.items ≡ map rename_edit_seen edits.old.items
        ++ map (placed_edit line (text_at database.now at)) (edits_in (rename_seen rename.entry) at (text_at database.now at))) }
{
    let found = edits_in(alloc, database, rename, at)?;
    push_edits(alloc, edits, line, database.text(at), &found)
}

// The edits of a rename in all blocks, of which the first begins on that line, if each can be put in
// its place.
fn all_edits(
    alloc: Global,
    database: &Database,
    rename: Rename<'_>,
    first: usize,
) -> Result<Option<Vec<RenameEdit>>, AllocError>
    requires { CanCount first database.now }
    ensures { IfOk result (λ found. option_map (λ edits. map rename_edit_seen edits.items) found
        ≡ (if can_be_renamed (rename_seen rename.entry) 0 database.now then Some (edits_from (rename_seen rename.entry) 0 first database.now) else None)) }
{
    let mut edits = Vec::new(alloc);
    let mut line = first;
    for at in 0..database.len() {
        if !push_edits_at(alloc, &mut edits, database, rename, line, at)? {
            return Ok(None);
        }
        line += count_lines(database.text(at));
    }
    Ok(Some(edits))
}

// What comes of a rename of a name that a block owns.
fn renamed(alloc: Global, document: &Document, rename: Rename<'_>) -> Result<Renaming, AllocError>
    ensures { IfOk result (λ renaming. renaming_seen renaming ≡ renamed document.now (rename_seen rename.entry)) }
{
    let database = document.database();
    if let Some(failure) = failure_of(alloc, database, rename.owner, rename.new)? {
        return Ok(Renaming::Refused(failure));
    }
    match all_edits(alloc, database, rename, head_line(document))? {
        Some(edits) => Ok(Renaming::Edits(edits)),
        None => Ok(Renaming::Refused(Failure::NoName)),
    }
}

/// What comes of a rename at a place: the name that it is on, in a head or in an item `use=`, gets
/// another name in the head of the block that owns it, and in all items `use=` of that name. The
/// new name is refused if a source cannot give it, if another block owns it, or if no block has it
/// and an item uses it; and if it cannot be put in the place of the old one within lines, or an
/// editor cannot exchange that. A name that goes on over lines gets the new name line by line: from
/// the last line on as many bytes as each had, and the first line what is left.
///
/// # Errors
/// Out of memory.
pub fn renaming_of(
    alloc: Global,
    document: &Document,
    place: Position,
    new: &[u8],
) -> Result<Renaming, AllocError>
    ensures { IfOk result (λ renaming. renaming_seen renaming ≡ spec.renaming_of document.now place new.now) }
{
    let Some(touched) = touched_at(alloc, document, place)? else {
        return Ok(Renaming::Nothing);
    };
    let name = name_of(&touched.subject);
    match owner_of(document.database(), &touched.subject) {
        Some(owner) => renamed(alloc, document, Rename { owner, name, new }),
        None => Ok(Renaming::Nothing),
    }
}

/// The name that a rename at a place is of; `None` if nothing is renamed there.
///
/// # Errors
/// Out of memory.
pub fn renamable_at(
    alloc: Global,
    document: &Document,
    place: Position,
) -> Result<Option<Range>, AllocError>
    ensures { IfOk result (λ found. found ≡ spec.renamable_at document.now place) }
{
    let Some(spot) = spot_at(document, place) else {
        return Ok(None);
    };
    let block = document.database().text(spot.at);
    let Some(touched) = subject_at(alloc, block, spot.offset)? else {
        return Ok(None);
    };
    if owner_of(document.database(), &touched.subject).is_none() {
        return Ok(None);
    }
    Ok(Some(range_in(spot.line, block, touched.name)))
}

/// A law, with no code: the edits of a rename are in the order of the text, and no two of them
/// overlap.
pub fn renamed_parts_follow()
    ensures { spec.RenamedPartsFollow }
{
    source_document::laws::held_blocks_fit();
}

/// A law, with no code: the client that makes the edits of a rename that is accepted has each block
/// with the name exchanged in its head, if it is the owner, and in its uses; what is before the
/// blocks is as it was. Each comment and each blank line is as it was, on the line that it was on.
pub fn renames_are_applied()
    ensures { RenamesAreApplied }
{
    source_document::laws::held_blocks_fit();
    source_keeping::laws::edits_keep_lines();
}

/// A law, with no code, on the texts of blocks before and after a rename that is accepted: each says
/// of user-defined capabilities what it said once its uses are expanded, and so has the values that
/// it had.
pub fn renames_keep_user_values()
    ensures sayings { BlocksSayOfUsersWhatTheyDid }
    ensures values { UserValuesStay }
{}

/// A law, with no code, on blocks as they are read before and after a rename that is accepted: each
/// use leads to the block that it led to, each block says what it said once its uses are expanded,
/// and so its entry is what it was, but for its names field. No law says that the blocks which the
/// client has then are read so: one whose names field gets too long has E2.
pub fn renames_keep_entries()
    ensures uses { UsesLeadWhereTheyDid }
    ensures sayings { BlocksSayWhatTheyDid }
    ensures entries { EntriesHoldWhatTheyDid }
{}
