//! The entries with the whole names fields of blocks that are compiled with a part of them.
ghost use Rattle.std.specs.Prelude.{◌≡◌, ◌<◌, ℕ, List, IfOk, Some, length, option_map, slice_get, if◌then◌else◌};
ghost use Rattle.base_meaning.specs.Compiled.{EntryState, written};
ghost use Rattle.everyday_names.specs.Fields.{field_seen, fields_seen};
ghost use Rattle.everyday_tic.specs.Named.{named_state, named_states};
ghost use Rattle.everyday_tic.specs.inside.States.{option_flat, others_seen, over, put, states_of};

use crate::entries::{entry_at, other_at};
use everyday_names::with_names;
use std::alloc::{AllocError, Global};
use ti_base::RuledDatabase;
use ti_layout::Format;
use user_compiling::Compiled;

// The entry that bytes are, with a names field, if it is then within the limit of an entry file.
fn name_entry(alloc: Global, bytes: &[u8], field: &[u8]) -> Result<Vec<u8>, AllocError>
    ensures { IfOk result (λ named. written named.items ≡ named_state (Some field.now) (written bytes.now)) }
{
    let named = with_names(alloc, bytes, field)?;
    if named.len() <= Format::Extended.limit() {
        return Ok(named);
    }
    Vec::from_slice(alloc, bytes)
}

/// The entry that is written in the place of the compiled one of the block at a position, if one is.
pub(crate) fn copy_other(
    alloc: Global,
    others: &[Option<Vec<u8>>],
    at: usize,
) -> Result<Option<Vec<u8>>, AllocError>
    ensures { IfOk result (λ copy. field_seen copy ≡ option_flat (slice_get (others_seen others.now) at)) }
{
    match other_at(others, at) {
        Some(bytes) => Ok(Some(Vec::from_slice(alloc, bytes)?)),
        None => Ok(None),
    }
}

// The entry that is written in the place of the compiled one of the block at a position, with its
// names field; `None` if the compiled one is written.
fn named_at(
    alloc: Global,
    database: &RuledDatabase,
    compiled: Option<&[Compiled]>,
    others: &[Option<Vec<u8>>],
    fields: &[Option<Vec<u8>>],
    at: usize,
) -> Result<Option<Vec<u8>>, AllocError>
    requires within { at < length database.now.texts }
    requires as_many { length (states_of database.now.rule database.now.texts (option_map (λ c. c.now) compiled)) ≡ length database.now.texts }
    ensures { IfOk result (λ named. (state : EntryState)
        → slice_get (states_of database.now.rule database.now.texts (option_map (λ c. c.now) compiled.entry)) at ≡ Some state
        → put state (field_seen named) ≡ named_state (option_flat (slice_get (fields_seen fields.now) at))
        (put state (option_flat (slice_get (others_seen others.now) at)))) }
{
    let Some(field) = other_at(fields, at) else {
        return copy_other(alloc, others, at);
    };
    let Some(bytes) = entry_at(database, compiled, others, at) else {
        return Ok(None);
    };
    Ok(Some(name_entry(alloc, bytes, field)?))
}

// For each block the entry that is written in the place of its compiled one, with its names field if
// there is one for it; `None` if the compiled one is written.
fn named_entries(
    alloc: Global,
    database: &RuledDatabase,
    compiled: Option<&[Compiled]>,
    others: &[Option<Vec<u8>>],
    fields: &[Option<Vec<u8>>],
) -> Result<Vec<Option<Vec<u8>>>, AllocError>
    requires as_many { length (states_of database.now.rule database.now.texts (option_map (λ c. c.now) compiled)) ≡ length database.now.texts }
    ensures { IfOk result (λ named. over (states_of database.now.rule database.now.texts (option_map (λ c. c.now) compiled.entry)) (others_seen named.items)
        ≡ named_states (fields_seen fields.now)
        (over (states_of database.now.rule database.now.texts (option_map (λ c. c.now) compiled.entry)) (others_seen others.now))) }
{
    let mut named = Vec::new(alloc);
    for at in 0..database.len() {
        let entry = named_at(alloc, database, compiled, others, fields, at)?;
        named.push(entry)?;
    }
    Ok(named)
}

/// For each block the entry that is written in the place of its compiled one: `others`, and if files
/// are written each with its names field, if there is one for it; `None` if the compiled one is
/// written.
///
/// # Errors
/// Out of memory.
pub(crate) fn written_entries(
    alloc: Global,
    database: &RuledDatabase,
    compiled: Option<&[Compiled]>,
    others: Vec<Option<Vec<u8>>>,
    fields: &[Option<Vec<u8>>],
    check: bool,
) -> Result<Vec<Option<Vec<u8>>>, AllocError>
    requires as_many { length (states_of database.now.rule database.now.texts (option_map (λ c. c.now) compiled)) ≡ length database.now.texts }
    ensures { IfOk result (λ made. over (states_of database.now.rule database.now.texts (option_map (λ c. c.now) compiled.entry)) (others_seen made.items)
        ≡ (if check then over (states_of database.now.rule database.now.texts (option_map (λ c. c.now) compiled.entry)) (others_seen others.items)
        else named_states (fields_seen fields.now)
        (over (states_of database.now.rule database.now.texts (option_map (λ c. c.now) compiled.entry)) (others_seen others.items)))) }
{
    if check {
        return Ok(others);
    }
    named_entries(alloc, database, compiled, &others, fields)
}
