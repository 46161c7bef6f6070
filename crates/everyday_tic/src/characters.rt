//! The entries with the constants of their strings as characters.
ghost use Rattle.std.specs.Prelude.{◌≡◌, ◌<◌, List, IfOk, Some, length, option_map, slice_get};
ghost use Rattle.std.specs.List.{AllZip};
ghost use Rattle.base_meaning.specs.Compiled.{EntryState};
ghost use Rattle.everyday_names.specs.Fields.{field_seen};
ghost use Rattle.everyday_tic.specs.Characters.{AreWithCharacters, IsStateWithCharacters};
ghost use Rattle.everyday_tic.specs.inside.States.{option_flat, others_seen, over, put, states_of};

use crate::entries::entry_at;
use crate::naming::copy_other;
use everyday_constants::with_characters;
use std::alloc::{AllocError, Global};
use ti_base::RuledDatabase;
use user_compiling::Compiled;

// The entry that is written in the place of the compiled one of the block at a position, with
// characters; `None` if the compiled one is written.
fn spelled_at(
    alloc: Global,
    database: &RuledDatabase,
    compiled: Option<&[Compiled]>,
    others: &[Option<Vec<u8>>],
    at: usize,
) -> Result<Option<Vec<u8>>, AllocError>
    requires within { at < length database.now.texts }
    requires as_many { length (states_of database.now.rule database.now.texts (option_map (λ c. c.now) compiled)) ≡ length database.now.texts }
    ensures { IfOk result (λ made. (state : EntryState)
        → slice_get (states_of database.now.rule database.now.texts (option_map (λ c. c.now) compiled.entry)) at ≡ Some state
        → IsStateWithCharacters (put state (option_flat (slice_get (others_seen others.now) at))) (put state (field_seen made))) }
{
    let Some(bytes) = entry_at(database, compiled, others, at) else {
        return Ok(None);
    };
    match with_characters(alloc, bytes)? {
        Some(made) => Ok(Some(made)),
        None => copy_other(alloc, others, at),
    }
}

// For each block the entry that is written in the place of its compiled one, with characters; `None`
// if the compiled one is written.
fn spelled_entries(
    alloc: Global,
    database: &RuledDatabase,
    compiled: Option<&[Compiled]>,
    others: &[Option<Vec<u8>>],
) -> Result<Vec<Option<Vec<u8>>>, AllocError>
    requires as_many { length (states_of database.now.rule database.now.texts (option_map (λ c. c.now) compiled)) ≡ length database.now.texts }
    ensures { IfOk result (λ made. AllZip IsStateWithCharacters
        (over (states_of database.now.rule database.now.texts (option_map (λ c. c.now) compiled.entry)) (others_seen others.now))
        (over (states_of database.now.rule database.now.texts (option_map (λ c. c.now) compiled.entry)) (others_seen made.items))) }
{
    let mut made = Vec::new(alloc);
    for at in 0..database.len() {
        let entry = spelled_at(alloc, database, compiled, others, at)?;
        made.push(entry)?;
    }
    Ok(made)
}

/// For each block the entry that is written in the place of its compiled one: `others`, and if files
/// are written each with its constants as characters; `None` if the compiled one is written.
///
/// # Errors
/// Out of memory.
pub(crate) fn entries_with_characters(
    alloc: Global,
    database: &RuledDatabase,
    compiled: Option<&[Compiled]>,
    others: Vec<Option<Vec<u8>>>,
    check: bool,
) -> Result<Vec<Option<Vec<u8>>>, AllocError>
    requires as_many { length (states_of database.now.rule database.now.texts (option_map (λ c. c.now) compiled)) ≡ length database.now.texts }
    ensures { IfOk result (λ made. AreWithCharacters check
        (over (states_of database.now.rule database.now.texts (option_map (λ c. c.now) compiled.entry)) (others_seen others.items))
        (over (states_of database.now.rule database.now.texts (option_map (λ c. c.now) compiled.entry)) (others_seen made.items))) }
{
    if check {
        return Ok(others);
    }
    spelled_entries(alloc, database, compiled, &others)
}
