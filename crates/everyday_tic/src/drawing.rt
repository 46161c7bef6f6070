//! The entries with line graphics that are written in the places of compiled ones.
ghost use Rattle.std.specs.Prelude.{◌≡◌, ◌<◌, ℕ, List, IfOk, Some, length, option_map, slice_get};
ghost use Rattle.std.specs.Option.{is_some};
ghost use Rattle.base_meaning.specs.Compiled.{EntryState};
ghost use Rattle.everyday_graphics.specs.Entries.{AreWrittenStates, IsWrittenState};
ghost use Rattle.everyday_tic.specs.Entries.{BecomeThese};
ghost use Rattle.everyday_tic.specs.inside.States.{others_seen, over, put, states_of};

use crate::entries::compiled_at;
use everyday_graphics::{drawn_entry, drawn_image};
use std::alloc::{AllocError, Global};
use ti_base::RuledDatabase;
use user_compiling::Compiled;

// The entry that is written in the place of that of the block at a position; `None` if that is
// written.
fn draw(
    alloc: Global,
    database: &RuledDatabase,
    compiled: Option<&[Compiled]>,
    at: usize,
    draws: bool,
) -> Result<Option<Vec<u8>>, AllocError>
    requires within { at < length database.now.texts }
    requires states { BecomeThese database.now.rule (is_some compiled) database.now.texts (states_of database.now.rule database.now.texts (option_map (λ c. c.now) compiled)) }
    ensures { IfOk result (λ other. (text : List ℕ) (state : EntryState) → slice_get database.now.texts at ≡ Some text
        → slice_get (states_of database.now.rule database.now.texts (option_map (λ c. c.now) compiled.entry)) at ≡ Some state
        → IsWrittenState database.now.rule (is_some compiled.entry) draws database.now.texts text (put state (option_map (λ v. v.items) other))) }
{
    // A law, with no code: the entries of the profile are those of what becomes of its blocks.
    user_compiling::laws::plain_sources_are_as_in_the_profile();
    if !draws {
        return Ok(None);
    }
    let Some(bytes) = compiled_at(database, compiled, at) else {
        return Ok(None);
    };
    match compiled {
        Some(_) => drawn_entry(alloc, database, at, bytes),
        None => drawn_image(alloc, database, at, bytes),
    }
}

/// For each block the entry that is written in the place of its compiled one; `None` if that is
/// written: line graphics are not drawn, or the entry is the same with them.
///
/// # Errors
/// Out of memory.
pub(crate) fn drawn_entries(
    alloc: Global,
    database: &RuledDatabase,
    compiled: Option<&[Compiled]>,
    draws: bool,
) -> Result<Vec<Option<Vec<u8>>>, AllocError>
    requires states { BecomeThese database.now.rule (is_some compiled) database.now.texts (states_of database.now.rule database.now.texts (option_map (λ c. c.now) compiled)) }
    requires as_many { length (states_of database.now.rule database.now.texts (option_map (λ c. c.now) compiled)) ≡ length database.now.texts }
    ensures { IfOk result (λ others. AreWrittenStates database.now.rule (is_some compiled.entry) draws database.now.texts
        (over (states_of database.now.rule database.now.texts (option_map (λ c. c.now) compiled.entry)) (others_seen others.items))) }
{
    let mut others = Vec::new(alloc);
    for at in 0..database.len() {
        let other = draw(alloc, database, compiled, at, draws)?;
        others.push(other)?;
    }
    Ok(others)
}
