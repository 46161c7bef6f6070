//! A table of TOML, and the texts in an array.
ghost use Rattle.std.specs.Prelude.{◌≡◌, IfOk, map, option_map};
ghost use Rattle.std.specs.String.{string_bytes};
ghost use Rattle.toml.specs.Data.{get_member};
ghost use Rattle.toml.specs.View.{array_view, table_view, view};
ghost use Rattle.source_settings.specs.Document as spec;

use crate::refusals::Section;
use std::alloc::{AllocError, Global};
use toml::value::Array;
use toml::{Table, Value};

/// The value at a key of a table.
pub(crate) fn value_at<'a>(table: &'a Table, key: &str) -> Option<&'a Value>
    ensures { option_map (λ value. view value.now) result ≡ get_member key.now (table_view table.now) }
{
    table.get(key)
}

// Whether a key of a part has a meaning.
fn is_known(section: Section, key: &str) -> bool
    ensures { result ≡ spec.is_known section key.now }
{
    match section {
        Section::File => matches!(key, "names" | "severity" | "layout"),
        Section::Layout => key == "width",
    }
}

/// The first key of a table, which is a part of a file of settings, that has no meaning.
pub(crate) fn unknown_key(section: Section, table: &Table) -> Option<&str>
    ensures { option_map (λ key. key.now) result ≡ spec.unknown_key section (table_view table.now) }
{
    for (key, _) in table {
        if !is_known(section, key.as_str()) {
            return Some(key.as_str());
        }
    }
    None
}

/// The texts in an array, if each of its items is one.
///
/// # Errors
/// Out of memory.
pub(crate) fn texts_of(alloc: Global, array: &Array) -> Result<Option<Vec<String>>, AllocError>
    ensures { IfOk result (λ texts. option_map (λ texts. map string_bytes texts.items) texts ≡ spec.texts_of (array_view array.now)) }
{
    let mut texts = Vec::with_capacity(alloc, array.len())?;
    for value in array {
        match value.as_str() {
            Some(text) => texts.push(String::from_str(alloc, text)?)?,
            None => return Ok(None),
        }
    }
    Ok(Some(texts))
}
