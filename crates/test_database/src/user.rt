//! Calls of `user_values`: what the blocks of a source say of user-defined names, once their uses
//! are expanded.
use std::alloc::{AllocError, Global};
use std::rc::RcSlice;
use test_rows::RowError::{Bad, Memory};
use test_rows::values::{content_of, said, shown, split, split_at_plus};
use test_rows::{NO_CALL, Row, RowResult};
use ti_base::Database;
use ti_layout::{Content, Value};
use tools_sources::database_of;
use user_kept::KeptDatabase;
use user_values::{UserTable, UserTables, ValuesError, count_names};

/// Why there are no values, but for out of memory.
pub fn say_cause(row: &mut Row<'_>, cause: ValuesError) -> RowResult {
    let ValuesError::TooManyNames(at) = cause else {
        return Err(Memory);
    };
    row.fail("TooManyNames")?;
    row.show(&at)
}

// Takes a source, and says how many blocks it has.
fn take(row: &mut Row<'_>, kept: &mut KeptDatabase) -> RowResult {
    let Ok(database) = database_of(row.alloc, row.bytes(0)?) else {
        return Err(Bad("the source is refused"));
    };
    row.show(&database.len())?;
    *kept = KeptDatabase::of(row.alloc, database);
    Ok(())
}

// What a table says, in the order of the names.
fn say_entries(row: &mut Row<'_>, table: &UserTable) -> RowResult {
    for entry in table.entries() {
        let entry = entry.as_ref();
        row.say(&said(row.alloc, entry.name.as_slice(), shown(&entry.value))?)?;
    }
    Ok(())
}

// What the block at a position says, or `none` if it does not resolve.
fn say_table(row: &mut Row<'_>, mut tables: UserTables<'_>, count: usize) -> RowResult {
    let wanted = row.count(0)?;
    for _ in 0..count {
        let Some(at) = tables.make_next()? else {
            break;
        };
        if at == wanted {
            match tables.table(at) {
                Some(table) => say_entries(row, table)?,
                None => row.say(b"none")?,
            }
        }
    }
    Ok(())
}

// The positions of the blocks as their tables are made, and then twice that there is none.
fn say_order(row: &mut Row<'_>, mut tables: UserTables<'_>, count: usize) -> RowResult {
    for _ in 0..count.saturating_add(2) {
        match tables.make_next()? {
            Some(at) => row.show(&at)?,
            None => row.say(b"none")?,
        }
    }
    Ok(())
}

// Makes a call on the tables of a source.
fn say_tables(row: &mut Row<'_>, database: &Database, is_order: bool) -> RowResult {
    match UserTables::of(row.alloc, database.as_ruled()) {
        Ok(tables) if is_order => say_order(row, tables, database.len()),
        Ok(tables) => say_table(row, tables, database.len()),
        Err(cause) => say_cause(row, cause),
    }
}

fn say_count(row: &mut Row<'_>, database: &Database) -> RowResult {
    match count_names(row.alloc, database.as_ruled()) {
        Ok(count) => row.show(&count),
        Err(cause) => say_cause(row, cause),
    }
}

// A value of its own.
fn owned(alloc: Global, content: Content<'_>) -> Result<Value, AllocError> {
    Ok(match content {
        Content::True => Value::True,
        Content::Number(number) => Value::Number(number),
        Content::Text(text) => Value::Text(RcSlice::from_slice(alloc, text)?),
        Content::Cancelled => Value::Cancelled,
    })
}

// Tells a table what words say.
fn tell(alloc: Global, table: &mut UserTable, words: &[Vec<u8>]) -> RowResult {
    for word in words {
        let (name, rest) = split(word);
        let name = RcSlice::from_slice(alloc, name)?;
        let value = owned(alloc, content_of(rest)?)?;
        table.add(alloc, &name, &value)?;
    }
    Ok(())
}

// The table of some words, with that of others merged into it.
fn merged(alloc: Global, first: &[Vec<u8>], second: &[Vec<u8>]) -> RowResult<UserTable> {
    let mut table = UserTable::new();
    tell(alloc, &mut table, first)?;
    let mut other = UserTable::new();
    tell(alloc, &mut other, second)?;
    table.merge(alloc, &other)?;
    Ok(table)
}

// The table of the words up to a `+`, with that of those up to the next one merged into it: what a
// new table says that it is merged into and that is told the rest, and what it says itself.
fn say_merged(row: &mut Row<'_>) -> RowResult {
    let (first, others) = split_at_plus(row.from(0));
    let (second, more) = split_at_plus(others);
    let table = merged(row.alloc, first, second)?;
    let mut third = UserTable::new();
    third.merge(row.alloc, &table)?;
    tell(row.alloc, &mut third, more)?;
    say_entries(row, &third)?;
    row.say(b"+")?;
    say_entries(row, &table)
}

// What such a table says of a name.
fn say_got(row: &mut Row<'_>) -> RowResult {
    let (first, second) = split_at_plus(row.from(1));
    let table = merged(row.alloc, first, second)?;
    let name = row.bytes(0)?;
    match table.get(name) {
        Some(value) => row.say(&said(row.alloc, name, shown(value))?),
        None => row.say(b"none"),
    }
}

/// Makes a call of this library.
pub fn call(kept: &mut KeptDatabase, name: &str, row: &mut Row<'_>) -> RowResult {
    match name {
        "source" => take(row, kept),
        "merge" => say_merged(row),
        "get" => say_got(row),
        "table" => say_tables(row, kept.database(), false),
        "order" => say_tables(row, kept.database(), true),
        "count" => say_count(row, kept.database()),
        _ => Err(NO_CALL),
    }
}
