//! Calls of `source_plain`: sources as they are read, and texts that are written in their place.
use source_plain::{laws, plain, written_like};
use test_rows::{NO_CALL, Row, RowResult};

// What a source is read as, or `same` if it is read as it is.
fn say_read(row: &mut Row<'_>) -> RowResult {
    match plain(row.alloc, row.bytes(0)?)? {
        Some(text) => row.say(&text),
        None => row.say(b"same"),
    }
}

fn say_written(row: &mut Row<'_>) -> RowResult {
    let text = Vec::from_slice(row.alloc, row.bytes(1)?)?;
    row.say(&written_like(row.alloc, row.bytes(0)?, text)?)
}

/// Makes a call of this library.
pub fn call(name: &str, row: &mut Row<'_>) -> RowResult {
    laws::sources_of_other_systems_are_read();
    laws::line_ends_stay();
    laws::writing_is_read_back();
    laws::writing_is_settled();
    match name {
        "read" => say_read(row),
        "write" => say_written(row),
        _ => Err(NO_CALL),
    }
}
