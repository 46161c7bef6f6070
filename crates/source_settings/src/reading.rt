//! What a file settles.
ghost use Rattle.std.specs.Prelude.{◌≡◌, Err, IsErrOf, Some, codes, option_and_then};
ghost use Rattle.toml.specs.Data.{as_integer, as_str, get_member};
ghost use Rattle.toml.specs.Errors.{IsMemory, IsWithin};
ghost use Rattle.toml.specs.View.{table_view, view};
ghost use Rattle.source_settings.specs.Document as spec;
ghost use Rattle.source_settings.specs.Document.{Answers};
ghost use Rattle.source_settings.specs.Files.{IsNoDocument, Reads};
ghost use Rattle.source_settings.specs.Levels.{level_of as level_by};
ghost use Rattle.source_settings.specs.Settings.{change_seen, settings_seen};
ghost use Rattle.source_settings.specs.inside.Views.{changes_seen, itself, names_seen};

use crate::levels::{Level, is_error_code, is_settled_code, level_of};
use crate::refusals::{Refusal, Section, SettingsFault};
use crate::settings::{Change, Settings};
use crate::tables::{texts_of, unknown_key, value_at};
use std::alloc::Global;
use ti_text::count_lines;
use toml::{Table, Value, table_from_slice};

// That this is wrong.
fn refused<T>(refusal: Refusal) -> Result<T, SettingsFault>
    ensures { IsErrOf result (SettingsFault.Refused refusal) }
{
    Err(SettingsFault::Refused(refusal))
}

// The names by the value that says them.
fn names_in(alloc: Global, value: &Value) -> Result<Vec<String>, SettingsFault>
    ensures { Answers names_seen (spec.names_by (Some (view value.now))) result }
{
    let Some(array) = value.as_array() else {
        return refused(Refusal::NoNames);
    };
    match texts_of(alloc, array)? {
        Some(texts) => Ok(texts),
        None => refused(Refusal::NoNames),
    }
}

// The names, none if nothing is said of them.
fn names_of(alloc: Global, table: &Table) -> Result<Vec<String>, SettingsFault>
    ensures { Answers names_seen (spec.names_by (get_member (codes "names") (table_view table.now))) result }
{
    match value_at(table, "names") {
        None => Ok(Vec::new(alloc)),
        Some(value) => names_in(alloc, value),
    }
}

// The level that a value says.
fn level_in(value: &Value) -> Option<Level>
    ensures { result ≡ option_and_then level_by (as_str (view value.now)) }
{
    level_of(value.as_str()?)
}

// The level of a code by the value at it.
fn change_of(alloc: Global, code: &str, value: &Value) -> Result<Change, SettingsFault>
    ensures { Answers change_seen (spec.change_of code.now (view value.now)) result }
{
    let copy = String::from_str(alloc, code)?;
    if !is_settled_code(code) {
        return if is_error_code(code) {
            refused(Refusal::ErrorCode(copy))
        } else {
            refused(Refusal::UnknownCode(copy))
        };
    }
    match level_in(value) {
        Some(level) => Ok(Change { code: copy, level }),
        None => refused(Refusal::NoLevel(copy)),
    }
}

// The levels of the codes in a table.
fn changes_of(alloc: Global, table: &Table) -> Result<Vec<Change>, SettingsFault>
    ensures { Answers changes_seen (spec.changes_of (table_view table.now)) result }
{
    let mut changes = Vec::new(alloc);
    for (code, value) in table {
        changes.push(change_of(alloc, code.as_str(), value)?)?;
    }
    Ok(changes)
}

// The same by what is said of severities, if anything is.
fn severities_of(alloc: Global, table: &Table) -> Result<Vec<Change>, SettingsFault>
    ensures { Answers changes_seen (spec.changes_by (get_member (codes "severity") (table_view table.now))) result }
{
    let Some(value) = value_at(table, "severity") else {
        return Ok(Vec::new(alloc));
    };
    match value.as_table() {
        Some(table) => changes_of(alloc, table),
        None => refused(Refusal::NoSeverities),
    }
}

// How many columns a number says.
fn columns_of(number: i64) -> Option<usize>
    ensures { result ≡ spec.columns_of number }
{
    if number == 0 || (20 <= number && number <= 4096) {
        Some(number as usize)
    } else {
        None
    }
}

// How many columns a value says.
fn columns_in(value: &Value) -> Option<usize>
    ensures { result ≡ option_and_then spec.columns_of (as_integer (view value.now)) }
{
    columns_of(value.as_integer()?)
}

// The width that a table says, if it says one.
fn width_of(alloc: Global, table: &Table) -> Result<Option<usize>, SettingsFault>
    ensures { Answers itself (spec.width_of (table_view table.now)) result }
{
    if let Some(key) = unknown_key(Section::Layout, table) {
        let key = String::from_str(alloc, key)?;
        return refused(Refusal::UnknownKey(Section::Layout, key));
    }
    let Some(value) = value_at(table, "width") else {
        return Ok(None);
    };
    match columns_in(value) {
        Some(columns) => Ok(Some(columns)),
        None => refused(Refusal::NoWidth),
    }
}

// The same by what is said of the layout, if anything is.
fn layout_of(alloc: Global, table: &Table) -> Result<Option<usize>, SettingsFault>
    ensures { Answers itself (spec.layout_by (get_member (codes "layout") (table_view table.now))) result }
{
    let Some(value) = value_at(table, "layout") else {
        return Ok(None);
    };
    match value.as_table() {
        Some(table) => width_of(alloc, table),
        None => refused(Refusal::NoLayout),
    }
}

// What a document settles.
fn settings_of(alloc: Global, table: &Table) -> Result<Settings, SettingsFault>
    ensures { Answers settings_seen (spec.settings_of (table_view table.now)) result }
{
    if let Some(key) = unknown_key(Section::File, table) {
        let key = String::from_str(alloc, key)?;
        return refused(Refusal::UnknownKey(Section::File, key));
    }
    let names = names_of(alloc, table)?;
    let changes = severities_of(alloc, table)?;
    let width = layout_of(alloc, table)?;
    Ok(Settings {
        names,
        changes,
        width,
    })
}

// Why a text is not taken that is no TOML.
fn fault_of(alloc: Global, text: &[u8], error: toml::de::Error) -> SettingsFault
    requires within { IsWithin text.now error }
    requires refused { ¬ IsMemory error → IsNoDocument text.now }
    ensures { Reads text.now (Err result) }
{
    let Some(span) = error.span() else {
        return SettingsFault::Memory;
    };
    match String::from_str(alloc, error.message()) {
        Ok(reason) => {
            let line = count_lines(&text[..span.start]) + 1;
            SettingsFault::Refused(Refusal::NoToml(line, reason))
        }
        Err(_) => SettingsFault::Memory,
    }
}

/// What the bytes of a file settle.
///
/// # Errors
/// `Refused`: the file is no TOML, or, in this order, a key has no meaning, or something is wrong
/// with `names`, with `severity` or with `layout`; of several the first in the order of their keys.
/// Then `Memory`.
pub fn read_settings(alloc: Global, text: &[u8]) -> Result<Settings, SettingsFault>
    ensures { Reads text.now result }
{
    match table_from_slice(alloc, text) {
        Ok(table) => settings_of(alloc, &table),
        Err(error) => Err(fault_of(alloc, text, error)),
    }
}
