//! What becomes of each block of a source.
ghost use Rattle.std.specs.Prelude.{◌≡◌, ◌<◌, ◌≤◌, ℕ, List, All, length, map, slice_get, option_map, Some, IfOk, IsErrOf, OnOk};
ghost use Rattle.ti_source.specs.Cutting.{OneBlock};
ghost use Rattle.ti_source.specs.Parsing.{reading_of_text};
ghost use Rattle.ti_layout.specs.Values.{Mention, contents};
ghost use Rattle.base_meaning.specs.Expansion.{is_broken};
ghost use Rattle.base_meaning.specs.Readings.{reading_by, readings_by};
ghost use Rattle.base_meaning.specs.ValueTables.{HasTable, IsTableOfMentions};
ghost use Rattle.std.specs.Prelude.{false};
ghost use Rattle.user_extension.specs.UserDefined.{rows_of as rows_seen};
ghost use Rattle.user_values.specs.Limit.{name_count, name_limit, IsOverLimitAt};
ghost use Rattle.user_values.specs.Tables.{said_at, IsTableAtBy, IsUserTableBy};
ghost use Rattle.user_values.specs.Walking.{IsStartBy};
ghost use Rattle.user_compiling.specs.Entries.{state_seen, state_with, AreStatesBy, HasStateBy, IsStateBy};
ghost use Rattle.user_compiling.specs.inside.States.{state_of_entry};

use crate::compiled::Compiled;
use crate::rows::rows_of;
use std::alloc::{AllocError, Global};
use ti_base::RuledDatabase;
use ti_layout::{Table, WriteError};
use ti_source::names_field;
use user_extension::{UserDefined, write};
use user_values::{UserTable, UserTables, ValuesError};

// What becomes of a sound block that says this.
fn write_block(
    alloc: Global,
    text: &[u8],
    table: &Table,
    rows: &[UserDefined<'_>],
) -> Result<Compiled, AllocError>
    requires one { OneBlock text.now }
    requires whole { is_broken (reading_of_text text.now) ≡ false }
    ensures { IfOk result (λ state. (mentions : List Mention) → IsTableOfMentions (contents table.now) mentions
        → state_seen state ≡ state_with (reading_of_text text.now) mentions (rows_seen rows.now)) }
{
    // A law, with no code: the names field of a sound block can be written.
    ti_source::laws::each_is_well_read();
    let field = names_field(alloc, text)?;
    match write(alloc, &field, table, rows) {
        Ok(entry) => Ok(Compiled::Written(entry)),
        Err(WriteError::TooLarge) => Ok(Compiled::TooLarge),
        Err(WriteError::Memory) => Err(AllocError),
        Err(WriteError::NamesTooLong) => unreachable!(),
    }
}

// What the profile makes of a block that resolves: its entry, if it has one.
fn profile_state(alloc: Global, found: Option<&[u8]>) -> Result<Compiled, AllocError>
    ensures { IfOk result (λ state. state_seen state ≡ state_of_entry (option_map (λ bytes. bytes.now) found.entry)) }
{
    match found {
        Some(bytes) => Ok(Compiled::Written(Vec::from_slice(alloc, bytes)?)),
        None => Ok(Compiled::TooLarge),
    }
}

// What becomes of the block at a position, which resolves and says this.
fn compile_resolved(
    alloc: Global,
    database: &RuledDatabase,
    at: usize,
    user: &UserTable,
    table: &Table,
) -> Result<Compiled, AllocError>
    requires within { at < length database.now.texts }
    requires one { All OneBlock database.now.texts }
    requires user { (text : List ℕ) → slice_get database.now.texts at ≡ Some text → IsUserTableBy database.now.rule database.now.texts text (said_at user.now) }
    requires table { (text : List ℕ) → slice_get database.now.texts at ≡ Some text → HasTable contents (readings_by database.now.rule database.now.texts) (reading_by database.now.rule text) (Some table.now) }
    ensures { IfOk result (λ state. (text : List ℕ) → slice_get database.now.texts at ≡ Some text → HasStateBy database.now.rule database.now.texts text (state_seen state)) }
{
    let rows = rows_of(alloc, user)?;
    if rows.is_empty() {
        let state = profile_state(alloc, database.compiled(at))?;
        return Ok(state);
    }
    let written = write_block(alloc, database.text(at), table, &rows)?;
    Ok(written)
}

/// What becomes of the block at a position, which says this of user-defined names.
///
/// # Errors
/// Out of memory.
pub fn compile_with(
    alloc: Global,
    database: &RuledDatabase,
    at: usize,
    user: &UserTable,
) -> Result<Compiled, AllocError>
    requires within { at < length database.now.texts }
    requires one { All OneBlock database.now.texts }
    requires user { (text : List ℕ) → slice_get database.now.texts at ≡ Some text → IsUserTableBy database.now.rule database.now.texts text (said_at user.now) }
    ensures { IfOk result (λ state. (text : List ℕ) → slice_get database.now.texts at ≡ Some text → IsStateBy database.now.rule database.now.texts text (state_seen state)) }
{
    match database.values(at) {
        Some(table) => {
            let state = compile_resolved(alloc, database, at, user, table)?;
            Ok(state)
        }
        None => Ok(Compiled::Unresolved),
    }
}

// What becomes of the block at a position, with what it says of user-defined names.
fn compile_block(
    alloc: Global,
    database: &RuledDatabase,
    at: usize,
    user: &Option<UserTable>,
) -> Result<Compiled, AllocError>
    requires within { at < length database.now.texts }
    requires one { All OneBlock database.now.texts }
    requires user { IsTableAtBy database.now.rule database.now.texts at user.now }
    ensures { IfOk result (λ state. (text : List ℕ) → slice_get database.now.texts at ≡ Some text → IsStateBy database.now.rule database.now.texts text (state_seen state)) }
{
    user_values::laws::values_by_rule_are_where_resolved();
    match user {
        Some(user) => compile_with(alloc, database, at, user),
        None => Ok(Compiled::Unresolved),
    }
}

// As many states as there are blocks, before any is found.
fn no_states(alloc: Global, count: usize) -> Result<Vec<Compiled>, AllocError>
    ensures { IfOk result (λ all. length all.items ≡ count) }
{
    let mut all = Vec::with_capacity(alloc, count)?;
    for _at in 0..count {
        all.push(Compiled::Unresolved)?;
    }
    Ok(all)
}

// What becomes of each block, each when the table of what it says of user-defined names is made.
fn compile_all(
    alloc: Global,
    database: &RuledDatabase,
    tables: &mut UserTables<'_>,
) -> Result<Vec<Compiled>, AllocError>
    requires one { All OneBlock database.now.texts }
    requires start { IsStartBy database.now.rule database.now.texts tables.old }
    ensures { IfOk result (λ all. AreStatesBy database.now.rule database.now.texts (map state_seen all.items)) }
{
    let mut all = no_states(alloc, database.len())?;
    while let Some(at) = tables.make_next()? {
        let state = compile_block(alloc, database, at, tables.table(at))?;
        all[at] = state;
    }
    Ok(all)
}

/// What becomes of each block of a source whose user-defined capabilities are kept. A block without
/// them has the entry that the profile gives it.
///
/// # Errors
/// `TooManyNames` for a source of more than 1,024 distinct user-defined names, with the position of
/// the first block by which it has more; or `Memory`.
pub fn compile(alloc: Global, database: &RuledDatabase) -> Result<Vec<Compiled>, ValuesError>
    ensures states { IfOk result (λ all. AreStatesBy database.now.rule database.now.texts (map state_seen all.items)) }
    ensures few { OnOk result (name_count database.now.texts (length database.now.texts) ≤ name_limit) }
    ensures too_many { (at : ℕ) → IsErrOf result (ValuesError.TooManyNames at) → IsOverLimitAt database.now.texts at }
{
    database.each_is_one_block();
    match UserTables::of(alloc, database) {
        Ok(mut tables) => Ok(compile_all(alloc, database, &mut tables)?),
        Err(error) => Err(error),
    }
}
