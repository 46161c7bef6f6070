//! Calls of `tools_sources` and `source_document`: sources before they are read, and texts exchanged.
use source_document::Document;
use test_rows::RowError::{Bad, Memory};
use test_rows::{NO_CALL, Row, RowResult};
use ti_base::{Database, EditError};
use tools_sources::{SourceError, check, database_of, first_line, is_ended};

// Whether the last line is ended, the line of the first block, and `taken`, or why the source is
// refused with the line of the block.
fn say_check(row: &mut Row<'_>) -> RowResult {
    let source = row.bytes(0)?;
    row.say_yes(is_ended(source))?;
    row.show(&first_line(source))?;
    let (cause, line) = match check(source) {
        Ok(()) => return row.say(b"taken"),
        Err(SourceError::BlockTooLong { line }) => ("BlockTooLong", line),
        Err(SourceError::TooManyBlocks { line }) => ("TooManyBlocks", line),
    };
    row.fail(cause)?;
    row.show(&line)
}

fn say_blocks(row: &mut Row<'_>, database: &Database) -> RowResult {
    for at in 0..database.len() {
        row.say(database.text(at))?;
    }
    Ok(())
}

// The blocks that a database of a source holds.
fn say_database(row: &mut Row<'_>) -> RowResult {
    match database_of(row.alloc, row.bytes(0)?) {
        Ok(database) => say_blocks(row, &database),
        Err(EditError::Memory) => Err(Memory),
        Err(EditError::TooLong) => row.fail("TooLong"),
        Err(EditError::TooMany) => row.fail("TooMany"),
        Err(_) => Err(Bad("the source is refused for another cause")),
    }
}

// Gives a document one text after another: how many edits each took after the first, or its blocks
// after all. One whose first text is empty is not opened.
fn say_exchanged(row: &mut Row<'_>, is_blocks: bool) -> RowResult {
    let mut document = match row.bytes(0)? {
        [] => Document::new(row.alloc),
        text => Document::open(row.alloc, Vec::from_slice(row.alloc, text)?)?,
    };
    for text in row.from(1) {
        let edits = document.set(Vec::from_slice(row.alloc, text)?)?;
        if document.text() != text.as_slice() {
            return Err(Bad("the document has another text"));
        }
        if !is_blocks {
            row.show(&edits)?;
        }
    }
    if is_blocks {
        say_blocks(row, document.database())?;
    }
    Ok(())
}

/// Makes a call of these libraries.
pub fn call(name: &str, row: &mut Row<'_>) -> RowResult {
    tools_sources::laws::sources_have_one_refusal();
    match name {
        "check" => say_check(row),
        "blocks" => say_database(row),
        "edits" => say_exchanged(row, false),
        "exchanged" => say_exchanged(row, true),
        _ => Err(NO_CALL),
    }
}
