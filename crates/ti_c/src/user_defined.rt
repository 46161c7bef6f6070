//! The user-defined capabilities of an entry: each call makes the library's extension of what C
//! holds.
ghost use Rattle.std.specs.Prelude.{◌≡◌, [], false, is_some, length, option_map, slice_get, Some};
ghost use Rattle.ti_layout.specs.Values as values;
ghost use Rattle.ti_layout.specs.Values.{content_seen};
ghost use Rattle.user_extension.specs.ExtensionParts.{parts_rows};
ghost use Rattle.user_extension.specs.Reading.{ReadRow, said};
ghost use Rattle.user_extension.specs.View.{read_rows};
ghost use Rattle.ti_c.specs.UserDefined.{ExtensionAnswer, kind_at, kind_of, refusal_number, rows_held, seen_as, value_seen};

use crate::answers::{BAD_EXTENSION, Text};
use crate::entries::{format_of, is_wide, rank};
use crate::entry::Entry;
use crate::extension::EntryExtension;
use ti_layout::Content;
use user_extension::{Extension, ExtensionError, ExtensionParts, read};

/// The value of a user-defined capability: its kind, which is 0 of a boolean, 1 of a number and 2 of
/// a string; whether it is present, and neither absent nor cancelled; the number, which is 1 of a
/// boolean; and the string.
#[repr(C)]
#[derive(Clone, Copy)]
pub struct FoundValue<'a> {
    pub kind: u32,
    pub is_present: bool,
    pub number: u32,
    pub text: &'a [u8],
}

/// The extension that C holds, as one of the library.
#[tactic(auto, unfolding(crate::specs::UserDefined::rows_held))]
pub(crate) fn extension_of<'a>(held: &EntryExtension<'a>) -> Extension<'a>
    ensures { read_rows result ≡ rows_held held.now }
{
    Extension::of_parts(ExtensionParts {
        format: format_of(held.wide),
        flags: held.flags,
        numbers: held.numbers,
        values: held.values,
        names: held.names,
        table: held.table,
        tail: held.tail,
    })
}

// An extension of the library, as C holds it.
#[tactic(auto, unfolding(crate::specs::UserDefined::rows_held))]
fn held_of<'a>(extension: &Extension<'a>) -> EntryExtension<'a>
    ensures { rows_held result ≡ read_rows extension.now }
{
    let parts = extension.parts();
    EntryExtension {
        wide: is_wide(parts.format),
        flags: parts.flags,
        numbers: parts.numbers,
        values: parts.values,
        names: parts.names,
        table: parts.table,
        tail: parts.tail,
    }
}

// The number of a refusal.
fn refusal_number(error: ExtensionError) -> u32
    ensures { result ≡ refusal_number error }
{
    match error {
        ExtensionError::Entry(error) => rank(error),
        ExtensionError::BadExtension => BAD_EXTENSION,
    }
}

/// Reads the user-defined capabilities of an entry where its bytes are, in one pass and without
/// memory. The answer is 0; or the number of the first refusal of the entry that holds, or 12 if
/// what follows the entry is not an extension, and `extension` is then as it was.
#[unsafe(no_mangle)]
pub extern "C" fn ti_extension_read<'a>(
    entry: &Entry<'a>,
    extension: &mut EntryExtension<'a>,
) -> u32
    ensures { ExtensionAnswer entry.now.bytes.now extension.old extension.new result }
{
    match read(entry.bytes) {
        Ok((_, found)) => {
            *extension = held_of(&found);
            0
        }
        Err(error) => refusal_number(error),
    }
}

/// How many user-defined capabilities an entry has.
#[unsafe(no_mangle)]
pub extern "C" fn ti_user_defined_count(extension: &EntryExtension<'_>) -> usize
    ensures { result ≡ length (rows_held extension.now) }
{
    extension_of(extension).len()
}

// The kind of the capability at an index.
fn kind_at(held: &EntryExtension<'_>, index: usize) -> u32
    ensures { result ≡ kind_at held.now index }
{
    let width = format_of(held.wide).width();
    if index < held.flags.len() {
        0
    } else if index < held.flags.len() + held.numbers.len() / width {
        1
    } else {
        2
    }
}

// A capability of a kind that has a boolean or a number, if it is present, as C sees it.
fn without_text<'a>(kind: u32, is_present: bool, number: u32) -> FoundValue<'a>
    ensures { value_seen result ≡ (kind, is_present, number, []) }
{
    FoundValue {
        kind,
        is_present,
        number,
        text: b"",
    }
}

// A capability of a kind with a value, as C sees it.
fn value_found(kind: u32, value: Option<Content<'_>>) -> FoundValue<'_>
    ensures { value_seen result ≡ seen_as kind (option_map content_seen value.entry) }
{
    match value {
        Some(Content::True) => without_text(kind, true, 1),
        Some(Content::Number(number)) => without_text(kind, true, number),
        Some(Content::Text(text)) => FoundValue {
            kind,
            is_present: true,
            number: 0,
            text,
        },
        Some(Content::Cancelled) | None => without_text(kind, false, 0),
    }
}

// The kind of a value.
fn kind_of(value: &Content<'_>) -> u32
    ensures { result ≡ kind_of (content_seen value.now) }
{
    match value {
        Content::True => 0,
        Content::Number(_) => 1,
        Content::Text(_) => 2,
        Content::Cancelled => 3,
    }
}

/// The user-defined capability at an index, in the order of booleans, numbers and strings and of the
/// names of each: its name, and its value. False if there are not that many, and `name` and `value`
/// are then as they were.
#[unsafe(no_mangle)]
pub extern "C" fn ti_user_defined<'a>(
    extension: &EntryExtension<'a>,
    index: usize,
    name: &mut Text<'a>,
    value: &mut FoundValue<'a>,
) -> bool
    ensures is { result ≡ is_some (slice_get (rows_held extension.now) index) }
    ensures name { (row : ReadRow) → slice_get (rows_held extension.now) index ≡ Some row → name.new.bytes.now ≡ row.0 }
    ensures value { (row : ReadRow) → slice_get (rows_held extension.now) index ≡ Some row
        → value_seen value.new ≡ seen_as (kind_at extension.now index) row.1 }
    ensures kept { result ≡ false → (name.new ≡ name.old) × (value.new ≡ value.old) }
{
    let kind = kind_at(extension, index);
    let extension = extension_of(extension);
    if index >= extension.len() {
        return false;
    }
    name.bytes = extension.name(index);
    *value = value_found(kind, extension.value(index));
    true
}

/// The value of a user-defined capability by its name. False if it is absent or cancelled, and
/// `value` is then as it was.
#[unsafe(no_mangle)]
pub extern "C" fn ti_user_defined_named<'a>(
    extension: &EntryExtension<'a>,
    name: &[u8],
    value: &mut FoundValue<'a>,
) -> bool
    ensures is { result ≡ is_some (said (rows_held extension.now) name.now) }
    ensures value { (content : values.Content) → said (rows_held extension.now) name.now ≡ Some content
        → value_seen value.new ≡ seen_as (kind_of content) (Some content) }
    ensures kept { result ≡ false → value.new ≡ value.old }
{
    match extension_of(extension).get(name) {
        Some(found) => {
            *value = value_found(kind_of(&found), Some(found));
            true
        }
        None => false,
    }
}
