//! An entry with the constants of its strings as characters.
ghost use Rattle.std.specs.Prelude.{◌≡◌, ◌≢◌, ◌<◌, ◌++◌, IfOk, OnOk, Some, length, option_map, slice_get, unwrap_or};
ghost use Rattle.ti_caps.specs.Tables.{Capability, IsCapability, capability, count_of};
ghost use Rattle.ti_layout.specs.Reading.{Reads};
ghost use Rattle.ti_layout.specs.Values.{content_of, content_seen, contents};
ghost use Rattle.ti_layout.specs.View.{names_of, view_contents};
ghost use Rattle.user_extension.specs.Reading.{EndsWell, ReadRow, rows_after};
ghost use Rattle.user_extension.specs.UserDefined.{rows_of as rows_seen};
ghost use Rattle.user_extension.specs.View.{read_rows};
ghost use Rattle.everyday_constants.specs.Entries as spec;
ghost use Rattle.everyday_constants.specs.Entries.{IsWithCharacters, content_with, present_row, present_rows};

use crate::constants::string_with;
use std::alloc::{AllocError, Global};
use std::rc::RcSlice;
use ti_caps::{Cap, Kind, count};
use ti_layout::{Content, Table, Value, View, WriteError};
use user_extension::{Extension, UserDefined, read, write};

// A value, with the constants of a string as characters.
fn value_with(alloc: Global, content: Content<'_>) -> Result<Value, AllocError>
    ensures { IfOk result (λ value. content_with (Some (content_seen content.entry)) ≡ Some (content_of value)) }
{
    Ok(match content {
        Content::True => Value::True,
        Content::Number(number) => Value::Number(number),
        Content::Text(text) => {
            let text = string_with(alloc, text)?;
            Value::Text(RcSlice::from_slice(alloc, &text)?)
        }
        Content::Cancelled => Value::Cancelled,
    })
}

// Gives the capability of a kind at an index what an entry has, with characters.
fn give_at(
    alloc: Global,
    table: &mut Table,
    entry: &View<'_>,
    kind: Kind,
    index: usize,
) -> Result<(), AllocError>
    requires within { index < count_of kind }
    ensures given { OnOk result (contents table.new (capability kind index) ≡ content_with (view_contents entry.now (capability kind index))) }
    ensures others { OnOk result ((c : Capability) → c ≢ capability kind index → contents table.new c ≡ contents table.old c) }
{
    let Some(cap) = Cap::at(kind, index) else {
        return Ok(());
    };
    match entry.get(cap) {
        Some(content) => {
            let value = value_with(alloc, content)?;
            table.set(cap, Some(value))
        }
        None => table.set(cap, None),
    }
}

// Gives each capability of a kind what an entry has, with characters.
fn give_kind(
    alloc: Global,
    table: &mut Table,
    entry: &View<'_>,
    kind: Kind,
) -> Result<(), AllocError>
    ensures given { OnOk result ((c : Capability) → IsCapability c → c.kind ≡ kind → contents table.new c ≡ content_with (view_contents entry.now c)) }
    ensures others { OnOk result ((c : Capability) → c.kind ≢ kind → contents table.new c ≡ contents table.old c) }
{
    for index in 0..count(kind) {
        give_at(alloc, table, entry, kind, index)?;
    }
    Ok(())
}

// What an entry has of the capabilities, with characters.
fn table_with(alloc: Global, entry: &View<'_>) -> Result<Table, AllocError>
    ensures { IfOk result (λ table. (c : Capability) → IsCapability c → contents table c ≡ content_with (view_contents entry.now c)) }
{
    let mut table = Table::new(alloc);
    give_kind(alloc, &mut table, entry, Kind::Flag)?;
    give_kind(alloc, &mut table, entry, Kind::Number)?;
    give_kind(alloc, &mut table, entry, Kind::Text)?;
    Ok(table)
}

// Appends the user-defined capability of the row at a place, if it has a value.
fn push_row<'a>(
    rows: &mut Vec<UserDefined<'a>>,
    extension: &Extension<'a>,
    place: usize,
) -> Result<(), AllocError>
    requires within { place < length (read_rows extension.now) }
    ensures { OnOk result ((row : ReadRow) → slice_get (read_rows extension.now) place ≡ Some row
        → rows_seen rows.new.items ≡ rows_seen rows.old.items ++ present_row row) }
{
    match extension.value(place) {
        Some(value) => {
            let name = extension.name(place);
            rows.push(UserDefined { name, value })?;
            Ok(())
        }
        None => Ok(()),
    }
}

// The user-defined capabilities that an extension shows.
fn present<'a>(alloc: Global, extension: &Extension<'a>) -> Result<Vec<UserDefined<'a>>, AllocError>
    ensures { IfOk result (λ rows. rows_seen rows.items ≡ present_rows (read_rows extension.now)) }
{
    let mut rows = Vec::new(alloc);
    for place in 0..extension.len() {
        push_row(&mut rows, extension, place)?;
    }
    Ok(rows)
}

// The entry that bytes are, with characters; `None` if they cannot be written so.
fn written(
    alloc: Global,
    bytes: &[u8],
    entry: &View<'_>,
    extension: &Extension<'_>,
) -> Result<Option<Vec<u8>>, AllocError>
    requires reads { Reads bytes.now (names_of entry.now) (view_contents entry.now) }
    requires rows { read_rows extension.now ≡ rows_after bytes.now }
    requires ends_well { EndsWell bytes.now }
    ensures { IfOk result (λ made. IsWithCharacters bytes.now (unwrap_or (option_map (λ v. v.items) made) bytes.now)) }
{
    // A law, with no code: bytes are an entry in one way.
    ti_layout::laws::one_reading();
    let table = table_with(alloc, entry)?;
    let rows = present(alloc, extension)?;
    match write(alloc, entry.names(), &table, &rows) {
        Ok(made) => Ok(Some(made)),
        Err(WriteError::NamesTooLong) => Ok(None),
        Err(WriteError::TooLarge) => Ok(None),
        Err(WriteError::Memory) => Err(AllocError),
    }
}

/// The entry that bytes are, with the constants of the strings of its tables as characters: `%{32}` is
/// `%' '`, and so is each number that is the code of a printed character but a backslash. `None` if
/// the bytes stay as they are: they are no entry, or one that cannot be written.
///
/// # Errors
/// Out of memory.
pub fn with_characters(alloc: Global, bytes: &[u8]) -> Result<Option<Vec<u8>>, AllocError>
    ensures { IfOk result (λ made. IsWithCharacters bytes.now (unwrap_or (option_map (λ v. v.items) made) bytes.now)) }
{
    // A law, with no code: bytes that are refused are no entry.
    ti_layout::laws::one_reading();
    match read(bytes) {
        Ok((entry, extension)) => written(alloc, bytes, &entry, &extension),
        Err(_) => Ok(None),
    }
}
