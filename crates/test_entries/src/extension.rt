//! Calls of `user_extension`: entries with user-defined capabilities, written and read.
use crate::entry::{Bytes, changed};
use std::alloc::Global;
use test_rows::RowError::{Bad, Memory};
use test_rows::values::{content_of, has_no_nul, said, split, split_at_plus, table_of};
use test_rows::{NO_CALL, Row, RowResult, shown};
use ti_layout::{Content, Format, WriteError};
use user_extension::{Extension, UserDefined, read, write};

// An entry without capabilities.
const BARE: &[u8] = b"\x1a\x01\x02\0\0\0\0\0\0\0\0\0e\0";

// The capabilities of these words.
fn defined_by(alloc: Global, words: &[Vec<u8>]) -> RowResult<Vec<UserDefined<'_>>> {
    let mut defined = Vec::new(alloc);
    for word in words {
        let (name, rest) = split(word);
        let value = content_of(rest)?;
        defined.push(UserDefined { name, value })?;
    }
    Ok(defined)
}

// A name and its value, or `none`.
fn say_value(row: &mut Row<'_>, name: &[u8], value: Option<Content<'_>>) -> RowResult {
    match value {
        Some(content) => row.say(&said(row.alloc, name, content)?),
        None => row.say(b"none"),
    }
}

// Each row: its name, and its value by its place, or that of its name.
fn say_rows(row: &mut Row<'_>, extension: &Extension<'_>, by_name: bool) -> RowResult {
    for place in 0..extension.len() {
        let name = extension.name(place);
        let value = if by_name {
            extension.get(name)
        } else {
            extension.value(place)
        };
        say_value(row, name, value)?;
    }
    Ok(())
}

// An entry, which is to show these words once it is read.
fn say_entry(row: &mut Row<'_>, entry: &[u8], words: &[Vec<u8>]) -> RowResult {
    let Ok((_, extension)) = read(entry) else {
        return Err(Bad("what is written is not read"));
    };
    let wanted = shown(row.alloc, words)?;
    for by_name in [false, true] {
        let mut came = Row::new(row.alloc, &[]);
        say_rows(&mut came, &extension, by_name)?;
        if came.said() != wanted.as_str() {
            return Err(Bad("what is written is not what is read"));
        }
    }
    row.say(entry)
}

// The entry of the values up to a `+` and the user-defined capabilities after it.
fn say_written(row: &mut Row<'_>) -> RowResult {
    let names = row.bytes(0)?;
    let (values, words) = split_at_plus(row.from(1));
    let table = table_of(row.alloc, values)?;
    let defined = defined_by(row.alloc, words)?;
    if names.is_empty() || !has_no_nul(names) {
        return Err(Bad("the names cannot be those of an entry"));
    }
    match write(row.alloc, names, &table, &defined) {
        Ok(entry) => say_entry(row, &entry, words),
        Err(WriteError::Memory) => Err(Memory),
        Err(cause) => row.fail(format!(in row.alloc; "{cause}")?.as_str()),
    }
}

// What an extension shows of a name, by the call of each kind.
fn shown_of<'a>(extension: &Extension<'a>, name: &[u8]) -> Option<Content<'a>> {
    if extension.flag(name) {
        return Some(Content::True);
    }
    if let Some(number) = extension.number(name) {
        return Some(Content::Number(number));
    }
    extension.text(name).map(Content::Text)
}

// What an entry shows of a name, and of each of its rows if none is given.
fn say_shown(row: &mut Row<'_>, entry: &[u8], name: Option<&[u8]>) -> RowResult {
    match (read(entry), name) {
        (Ok((_, extension)), Some(name)) => say_value(row, name, shown_of(&extension, name)),
        (Ok((_, extension)), None) => say_rows(row, &extension, false),
        (Err(cause), _) => row.fail(format!(in row.alloc; "{cause:?}")?.as_str()),
    }
}

// What these bytes after an entry without capabilities show of a name.
fn say_after(row: &mut Row<'_>) -> RowResult {
    let mut entry = Vec::from_slice(row.alloc, BARE)?;
    entry.extend_from_slice(row.bytes(1)?)?;
    say_shown(row, &entry, Some(row.bytes(0)?))
}

// What the bytes of `entry.read`, with others at places, show of a name.
fn say_changed(row: &mut Row<'_>, bytes: &Bytes) -> RowResult {
    let entry = changed(row.alloc, bytes, row.from(1))?;
    say_shown(row, &entry, Some(row.bytes(0)?))
}

fn format_of(row: &Row<'_>) -> RowResult<Format> {
    match row.text(0)? {
        "legacy" => Ok(Format::Legacy),
        "extended" => Ok(Format::Extended),
        _ => Err(Bad("a format is legacy or extended")),
    }
}

// The rows of an extension read by itself, or `refused`.
fn say_alone(row: &mut Row<'_>) -> RowResult {
    match Extension::of(row.bytes(1)?, format_of(row)?) {
        Some(extension) => say_rows(row, &extension, false),
        None => row.say(b"refused"),
    }
}

// How many rows no extension has, and what it shows of a name.
fn say_none(row: &mut Row<'_>) -> RowResult {
    let extension = Extension::none(format_of(row)?);
    let name = row.bytes(1)?;
    row.show(&extension.len())?;
    say_value(row, name, extension.get(name))
}

/// Makes a call of this library.
pub fn call(bytes: &Bytes, name: &str, row: &mut Row<'_>) -> RowResult {
    match name {
        "write" => say_written(row),
        "after" => say_after(row),
        "read" => say_shown(row, row.bytes(0)?, None),
        "change" => say_changed(row, bytes),
        "of" => say_alone(row),
        "none" => say_none(row),
        _ => Err(NO_CALL),
    }
}
