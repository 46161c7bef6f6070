//! The entry of a block with its line graphics.
ghost use Rattle.std.specs.Prelude.{◌≡◌, ◌<◌, ℕ, List, All, IfOk, Some, length, map, option_map, slice_get, unwrap_or, false, true};
ghost use Rattle.base_meaning.specs.Compiled.{compiled_by, written};
ghost use Rattle.base_meaning.specs.Expansion.{expansion, is_broken, values};
ghost use Rattle.base_meaning.specs.Readings.{reading_by, readings_by};
ghost use Rattle.base_meaning.specs.ValueTables.{IsTableOfMentions};
ghost use Rattle.ti_layout.specs.Image.{image, image_limit};
ghost use Rattle.ti_layout.specs.Values.{Mention, contents};
ghost use Rattle.ti_source.specs.Cutting.{OneBlock};
ghost use Rattle.ti_source.specs.Parsing.{reading_of_text};
ghost use Rattle.user_compiling.specs.Entries.{IsStateBy};
ghost use Rattle.user_extension.specs.Extension.{entry, entry_limit};
ghost use Rattle.user_extension.specs.Laws.{as_read};
ghost use Rattle.user_extension.specs.UserDefined.{Row, rows_of as rows_seen};
ghost use Rattle.user_extension.specs.View.{read_rows};
ghost use Rattle.everyday_graphics.specs.Entries as spec;
ghost use Rattle.everyday_graphics.specs.Entries.{IsDrawnState, in_place};
ghost use Rattle.everyday_graphics.specs.Graphics.{with_acsc as acsc_given};

use crate::graphics::{lacks_acsc, with_acsc};
use std::alloc::{AllocError, Global};
use ti_base::RuledDatabase;
use ti_layout::{Table, WriteError};
use ti_source::names_field;
use user_extension::{Extension, UserDefined, read, write};

// The user-defined capabilities that an extension shows.
fn rows_of<'a>(alloc: Global, extension: &Extension<'a>) -> Result<Vec<UserDefined<'a>>, AllocError>
    ensures { IfOk result (λ rows. (given : List Row) → read_rows extension.now ≡ as_read given → rows_seen rows.items ≡ given) }
{
    let mut rows = Vec::new(alloc);
    for place in 0..extension.len() {
        if let Some(value) = extension.value(place) {
            let name = extension.name(place);
            rows.push(UserDefined { name, value })?;
        }
    }
    Ok(rows)
}

// The entry of a sound block with the `acsc` of a VT100 and these user-defined capabilities; `None`
// if it is over its limit.
fn write_drawn(
    alloc: Global,
    text: &[u8],
    table: &Table,
    rows: &[UserDefined<'_>],
) -> Result<Option<Vec<u8>>, AllocError>
    requires one { OneBlock text.now }
    requires whole { is_broken (reading_of_text text.now) ≡ false }
    ensures { IfOk result (λ made. (mentions : List Mention) (bytes : List ℕ) → IsTableOfMentions (contents table.now) mentions
        → written (unwrap_or (option_map (λ v. v.items) made) bytes)
        ≡ in_place (written bytes) (entry_limit (acsc_given (values mentions)) (rows_seen rows.now))
        (entry (reading_of_text text.now).field (acsc_given (values mentions)) (rows_seen rows.now))) }
{
    // A law, with no code: the names field of a sound block can be written.
    ti_source::laws::each_is_well_read();
    let field = names_field(alloc, text)?;
    let table = with_acsc(alloc, table)?;
    match write(alloc, &field, &table, rows) {
        Ok(entry) => Ok(Some(entry)),
        Err(WriteError::TooLarge) => Ok(None),
        Err(WriteError::Memory) => Err(AllocError),
        Err(WriteError::NamesTooLong) => unreachable!(),
    }
}

/// The entry of the block at a position with the `acsc` of a VT100, if the block lacks it: neither
/// has it, nor cancels it itself, but has `smacs` and `rmacs`. These bytes are its entry, as it is
/// compiled with its user-defined capabilities. `None` if they are also what is written: if it does
/// not lack it, or would be over its limit with it.
///
/// # Errors
/// Out of memory.
pub fn drawn_entry(
    alloc: Global,
    database: &RuledDatabase,
    at: usize,
    bytes: &[u8],
) -> Result<Option<Vec<u8>>, AllocError>
    requires within { at < length database.now.texts }
    requires state { (text : List ℕ) → slice_get database.now.texts at ≡ Some text → IsStateBy database.now.rule database.now.texts text (written bytes.now) }
    ensures { IfOk result (λ drawn. (text : List ℕ) → slice_get database.now.texts at ≡ Some text
        → IsDrawnState true database.now.rule database.now.texts text (written (unwrap_or (option_map (λ v. v.items) drawn) bytes.now))) }
{
    // Laws, with no code: what is compiled of a block is read as what it says.
    database.each_is_one_block();
    ti_source::laws::each_is_well_read();
    ti_layout::laws::one_reading();
    user_extension::laws::entries_are_read();
    user_compiling::laws::rows_are_user_defined();
    let Some(table) = database.values(at) else {
        return Ok(None);
    };
    table.values_agree();
    if !lacks_acsc(table) {
        return Ok(None);
    }
    let Ok((_, extension)) = read(bytes) else {
        unreachable!()
    };
    let rows = rows_of(alloc, &extension)?;
    write_drawn(alloc, database.text(at), table, &rows)
}

/// The same of an entry that is compiled without user-defined capabilities.
///
/// # Errors
/// Out of memory.
pub fn drawn_image(
    alloc: Global,
    database: &RuledDatabase,
    at: usize,
    bytes: &[u8],
) -> Result<Option<Vec<u8>>, AllocError>
    requires within { at < length database.now.texts }
    requires compiled { compiled_by database.now.rule database.now.texts at ≡ Some bytes.now }
    ensures { IfOk result (λ drawn. (text : List ℕ) → slice_get database.now.texts at ≡ Some text
        → written (unwrap_or (option_map (λ v. v.items) drawn) bytes.now)
        ≡ spec.drawn_image true (reading_by database.now.rule text)
        (expansion (readings_by database.now.rule database.now.texts) (reading_by database.now.rule text))) }
{
    // Laws, with no code: an entry without them is that of what becomes of its block.
    database.each_is_one_block();
    user_compiling::laws::plain_sources_are_as_in_the_profile();
    let Some(table) = database.values(at) else {
        return Ok(None);
    };
    if !lacks_acsc(table) {
        return Ok(None);
    }
    write_drawn(alloc, database.text(at), table, &[])
}
