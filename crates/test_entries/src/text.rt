//! Calls of `ti_text` and `ti_spelling`: lines, room made before, and the spelling of values.
ghost use Rattle.std.specs.Prelude.{◌+◌, ◌<◌, ◌^◌, length};

use std::alloc::{AllocError, Global};
use test_rows::RowError::{Bad, Memory};
use test_rows::{NO_CALL, Row, RowResult};
use ti_spelling::{UnescapeError, escape, read_number, trim_end, unescape};
use ti_text::room::{append_reserved, fill_reserved};
use ti_text::{count_lines, is_white_space};

// The longest value that is spelled.
const VALUE_MAX: usize = 1_000;

// The bytes that a text spells, and `odd` or `exact`.
fn say_unescaped(row: &mut Row<'_>) -> RowResult {
    match unescape(row.alloc, row.bytes(0)?) {
        Ok(found) => {
            row.say(&found.bytes)?;
            row.say(if found.odd { b"odd" } else { b"exact" })
        }
        Err(UnescapeError::Memory) => Err(Memory),
        Err(cause) => row.fail(format!(in row.alloc; "{cause:?}")?.as_str()),
    }
}

fn say_escaped(row: &mut Row<'_>) -> RowResult {
    let value = row.bytes(0)?;
    if value.len() > VALUE_MAX {
        return Err(Bad("the value is too long"));
    }
    row.say(&escape(row.alloc, value)?)
}

fn say_number(row: &mut Row<'_>) -> RowResult {
    match read_number(row.bytes(0)?) {
        Ok(number) => row.show(&number),
        Err(cause) => row.fail(format!(in row.alloc; "{cause:?}")?.as_str()),
    }
}

// Some bytes, a byte this many times, and some more bytes, in room made before.
fn filled(
    alloc: Global,
    front: &[u8],
    byte: u8,
    count: usize,
    back: &[u8],
) -> Result<Vec<u8>, AllocError>
    requires { length front.now + count + length back.now < 2 ^ 64 }
{
    let mut text = Vec::with_capacity(alloc, front.len() + count + back.len())?;
    append_reserved(&mut text, front);
    fill_reserved(&mut text, byte, count);
    append_reserved(&mut text, back);
    Ok(text)
}

fn say_filled(row: &mut Row<'_>) -> RowResult {
    let (front, byte, count, back) = (
        row.bytes(0)?,
        byte_of(row.bytes(1)?)?,
        row.count(2)?,
        row.bytes(3)?,
    );
    if front.len() > VALUE_MAX || count > VALUE_MAX || back.len() > VALUE_MAX {
        return Err(Bad("the words are too long"));
    }
    row.say(&filled(row.alloc, front, byte, count, back)?)
}

fn byte_of(word: &[u8]) -> RowResult<u8> {
    match word {
        [byte] => Ok(*byte),
        _ => Err(Bad("a word is to be a byte")),
    }
}

/// Makes a call of these libraries.
pub fn call(name: &str, row: &mut Row<'_>) -> RowResult {
    match name {
        "count_lines" => row.show(&count_lines(row.bytes(0)?)),
        "fill" => say_filled(row),
        "is_white_space" => row.say_yes(is_white_space(byte_of(row.bytes(0)?)?)),
        "unescape" => say_unescaped(row),
        "escape" => say_escaped(row),
        "read_number" => say_number(row),
        "trim_end" => row.say(trim_end(row.bytes(0)?)),
        _ => Err(NO_CALL),
    }
}
