//! An entry in memory with changes, written anew.
ghost use Rattle.std.specs.Prelude.{◌≡◌, ◌≢◌, ◌↔◌, ◌⊎◌, ◌++◌, ◌∷◌, [], All, IfOk, IsTrue, OnOk, option_map};
ghost use Rattle.ti_layout.specs.Values.{content_seen};
ghost use Rattle.user_changing.specs.Changes.{CanBeMade, IsOver, edit_of, edits_of};
ghost use Rattle.user_changing.specs.Faults.{IsFirstFault};
ghost use Rattle.ti_c.specs.Changing as spec;
ghost use Rattle.ti_c.specs.Changing.{AreNames, NeedsRoom, WritesChanged, given_content, given_edit, given_edits};
ghost use Rattle.ti_c.specs.Entries.{entry_contents};
ghost use Rattle.ti_c.specs.UserDefined.{rows_held};

use crate::answers::{
    BAD_CAPABILITY, BAD_NAMES, BAD_VALUE, NO_MEMORY, NO_ROOM, OK, Outcome, TOO_LARGE, Text,
    write_to,
};
use crate::entries::view_of;
use crate::entry::Entry;
use crate::extension::EntryExtension;
use crate::user_defined::{FoundValue, extension_of};
use memchr::memchr;
use std::alloc::{AllocError, Global};
use ti_layout::{Content, WriteError};
use ti_text::limits::NAMES_MAX;
use user_changing::{Change, ChangeFault, changed, first_fault};

/// A change: the name of a capability, and the value that it is given; if that is not present, what
/// the capability has is taken away.
#[repr(C)]
#[derive(Clone, Copy)]
pub struct EntryChange<'a> {
    pub name: &'a [u8],
    pub value: FoundValue<'a>,
}

/// The bytes from which an entry was read.
#[unsafe(no_mangle)]
pub extern "C" fn ti_entry_bytes<'a>(entry: &Entry<'a>, text: &mut Text<'a>)
    ensures { text.new.bytes ≡ entry.now.bytes }
{
    text.bytes = entry.bytes;
}

// What is given, as the library has it.
fn content_of<'a>(value: &FoundValue<'a>) -> Option<Content<'a>>
    ensures { option_map content_seen result ≡ given_content value.now }
{
    if !value.is_present {
        return None;
    }
    Some(match value.kind {
        0 => Content::True,
        1 => Content::Number(value.number),
        2 => Content::Text(value.text),
        _ => Content::Cancelled,
    })
}

// A change, as the library has it.
fn change_of<'a>(given: &EntryChange<'a>) -> Change<'a>
    ensures { edit_of result ≡ given_edit given.now }
{
    Change {
        name: given.name,
        value: content_of(&given.value),
    }
}

// Adds a change.
fn push_change<'a>(given: &EntryChange<'a>, changes: &mut Vec<Change<'a>>) -> Result<(), AllocError>
    ensures { OnOk result (edits_of changes.new.items ≡ edits_of changes.old.items ++ given_edit given.now ∷ []) }
{
    changes.push(change_of(given))?;
    Ok(())
}

// The changes, as the library has them.
fn changes_of<'a>(alloc: Global, given: &[EntryChange<'a>]) -> Result<Vec<Change<'a>>, AllocError>
    ensures { IfOk result (λ changes. edits_of changes.items ≡ given_edits given.now) }
{
    let mut changes = Vec::with_capacity(alloc, given.len())?;
    for change in given {
        push_change(change, &mut changes)?;
    }
    Ok(changes)
}

// Whether an entry may be written with a names field.
fn are_names(names: &[u8]) -> bool
    ensures { IsTrue result ↔ AreNames names.now }
{
    !names.is_empty() && names.len() <= NAMES_MAX && memchr(0, names).is_none()
}

// An answer without bytes.
fn answer(status: u32, size: usize) -> Outcome
    ensures status { result.status ≡ status }
    ensures size { result.size ≡ size }
{
    Outcome { status, size }
}

// The status of a change that cannot be made.
fn fault_status(fault: ChangeFault) -> u32
    ensures { result ≡ spec.fault_status fault }
{
    match fault {
        ChangeFault::BadName => BAD_CAPABILITY,
        ChangeFault::BadValue => BAD_VALUE,
    }
}

/// Writes to the front of `out` the entry of a names field that holds what changes leave of an
/// entry and its user-defined capabilities: the last change of a name decides, and what is not named
/// is as before. The answer is `OK` with how many bytes that are; `NO_ROOM` with how many are needed;
/// `BAD_CAPABILITY` or `BAD_VALUE` with the place of the first change that cannot be made;
/// `BAD_NAMES`; `TOO_LARGE`; `NO_MEMORY`. After all but `OK`, `out` is as it was.
#[unsafe(no_mangle)]
pub extern "C" fn ti_entry_write(
    alloc: Global,
    entry: &Entry<'_>,
    extension: &EntryExtension<'_>,
    names: &[u8],
    changes: &[EntryChange<'_>],
    out: &mut [u8],
) -> Outcome
    ensures known { (result.status ≡ OK) ⊎ (result.status ≡ BAD_NAMES) ⊎ (result.status ≡ NO_MEMORY) ⊎ (result.status ≡ NO_ROOM)
        ⊎ (result.status ≡ BAD_CAPABILITY) ⊎ (result.status ≡ BAD_VALUE) ⊎ (result.status ≡ TOO_LARGE) }
    ensures ok { result.status ≡ OK → WritesChanged names.now entry.now extension.now (given_edits changes.now) out.old out.new result.size }
    ensures bad_names { result.status ≡ BAD_NAMES ↔ ¬ AreNames names.now }
    ensures bad_capability { result.status ≡ BAD_CAPABILITY → IsFirstFault (given_edits changes.now) result.size ChangeFault.BadName }
    ensures bad_value { result.status ≡ BAD_VALUE → IsFirstFault (given_edits changes.now) result.size ChangeFault.BadValue }
    ensures can_be_made { (result.status ≡ OK) ⊎ (result.status ≡ NO_ROOM) ⊎ (result.status ≡ TOO_LARGE) → All CanBeMade (given_edits changes.now) }
    ensures too_large { result.status ≡ TOO_LARGE → IsOver names.now (entry_contents entry.now) (rows_held extension.now) (given_edits changes.now) }
    ensures no_room { result.status ≡ NO_ROOM → NeedsRoom names.now entry.now extension.now (given_edits changes.now) out.old result.size }
    ensures kept { result.status ≢ OK → out.new ≡ out.old }
{
    if !are_names(names) {
        return answer(BAD_NAMES, 0);
    }
    let Ok(changes) = changes_of(alloc, changes) else {
        return answer(NO_MEMORY, 0);
    };
    if let Some((place, fault)) = first_fault(&changes) {
        return answer(fault_status(fault), place);
    }
    let view = view_of(entry);
    match changed(alloc, names, &view, &extension_of(extension), &changes) {
        Ok(bytes) if write_to(&bytes, out) => answer(OK, bytes.len()),
        Ok(bytes) => answer(NO_ROOM, bytes.len()),
        Err(WriteError::TooLarge) => answer(TOO_LARGE, 0),
        Err(_) => answer(NO_MEMORY, 0),
    }
}
