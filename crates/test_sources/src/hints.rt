//! Calls of `source_block_hints` and `source_hints`: the parameters of strings, and hints by their offsets.
use source_block_hints::{Hint, HintKind, hints_of_block};
use source_hints::{file_hints, hints_after_uses, merged};
use std::alloc::{AllocError, Global};
use test_rows::RowError::Bad;
use test_rows::{NO_CALL, Row, RowResult, count_of};
use ti_base::Database;
use ti_caps::{Kind, find};

// Whether the parameter of a digit is said to be foreign to the string of a name.
fn is_foreign(alloc: Global, name: &str, digit: u8) -> Result<bool, AllocError> {
    let block = format!(in alloc; "t,{name}=%p{digit},\n")?;
    let hints = hints_of_block(alloc, block.as_bytes())?;
    Ok(
        hints
            .iter()
            .any(|hint| hint.kind == HintKind::ForeignParameter),
    )
}

// How many parameters the string of a name takes.
fn say_parameters(row: &mut Row<'_>) -> RowResult {
    let name = row.text(0)?;
    if !find(name.as_bytes()).is_some_and(|cap| cap.kind() == Kind::Text) {
        return Err(Bad("a word is to name a string"));
    }
    let mut count: usize = 0;
    for digit in 1..10 {
        if !is_foreign(row.alloc, name, digit)? {
            count = count.saturating_add(1);
        }
    }
    row.show(&count)
}

// Each hint on a text: its name, START-END, and what its message quotes.
fn say_hints(row: &mut Row<'_>, text: &[u8], hints: &[Hint]) -> RowResult {
    for hint in hints {
        let (start, end) = (hint.start, hint.end);
        row.say_text(hint.kind.name())?;
        row.say_text(format!(in row.alloc; "{start}-{end}")?.as_str())?;
        row.say(text.get(hint.detail_start..hint.detail_end).unwrap_or(&[]))?;
    }
    Ok(())
}

// A database of these blocks.
fn database_of(alloc: Global, blocks: &[Vec<u8>]) -> RowResult<Database> {
    let mut database = Database::new(alloc);
    for block in blocks {
        let at = database.len();
        if database.insert(at, block).is_err() {
            return Err(Bad("a word is to be a block"));
        }
    }
    Ok(database)
}

// The hints on the items of the first of some blocks that are after a use.
fn say_after_uses(row: &mut Row<'_>) -> RowResult {
    let database = database_of(row.alloc, row.from(0))?;
    if database.len() == 0 {
        return Err(Bad("the call takes a block"));
    }
    let hints = hints_after_uses(row.alloc, &database, 0)?;
    say_hints(row, row.bytes(0)?, &hints)
}

// Hints of a kind that begin at these offsets: `1,2,9`.
fn hints_at(alloc: Global, kind: HintKind, word: &str) -> RowResult<Vec<Hint>> {
    let mut hints = Vec::new(alloc);
    for start in word.split(',') {
        let start = count_of(start.as_bytes())?;
        hints.push(Hint {
            kind,
            start,
            end: start,
            detail_start: start,
            detail_end: start,
        })?;
    }
    Ok(hints)
}

// Hints that begin at some offsets, with others that begin at others.
fn say_merged(row: &mut Row<'_>) -> RowResult {
    let hints = hints_at(row.alloc, HintKind::SaidTwice, row.text(0)?)?;
    let others = hints_at(row.alloc, HintKind::LongDelay, row.text(1)?)?;
    let all = merged(row.alloc, &hints, &others)?;
    say_hints(row, b"", &all)
}

/// Makes a call of these libraries.
pub fn call(name: &str, row: &mut Row<'_>) -> RowResult {
    source_block_hints::laws::each_string_has_a_count();
    let text = row.bytes(0)?;
    match name {
        "parameters" => say_parameters(row),
        "block" => say_hints(row, text, &hints_of_block(row.alloc, text)?),
        "after_uses" => say_after_uses(row),
        "file" => say_hints(row, text, &file_hints(row.alloc, text)?),
        "merged" => say_merged(row),
        _ => Err(NO_CALL),
    }
}
