//! Calls of `ti_base`: a database that is edited from row to row.
use crate::edits::{cause_of, edit_at, edits_of, say_outcomes};
use std::alloc::{AllocError, Global};
use test_rows::RowError::Bad;
use test_rows::{NO_CALL, Row, RowResult, say_items};
use ti_base::{Database, Edit, EditError, Edited, distinct_names, run};
use ti_caps::find;
use ti_layout::{Table, Value};

fn say_range(row: &mut Row<'_>, first: usize, last: usize) -> RowResult {
    if first == last {
        return row.show(&first);
    }
    row.say_text(format!(in row.alloc; "{first}-{last}")?.as_str())
}

// Says positions, with `A-B` for those that follow one another; `none` if there are none.
fn say_positions(row: &mut Row<'_>, positions: &[usize]) -> RowResult {
    let Some((first, rest)) = positions.split_first() else {
        return row.say(b"none");
    };
    let (mut first, mut last) = (*first, *first);
    for at in rest {
        if last.checked_add(1) != Some(*at) {
            say_range(row, first, last)?;
            first = *at;
        }
        last = *at;
    }
    say_range(row, first, last)
}

// Makes an edit by the call of its name.
fn edit_by_name(database: &mut Database, edit: &Edit<'_>) -> Result<Edited, EditError> {
    match *edit {
        Edit::Insert { at, text } => database.insert(at, text),
        Edit::Replace { at, text } => database.replace(at, text),
        Edit::Remove { at } => database.remove(at),
        Edit::Relocate { from, to } => database.relocate(from, to),
    }
}

// Says the positions that an edit rebuilt and the work, or why it is refused.
fn say_edited(row: &mut Row<'_>, edited: Result<Edited, EditError>) -> RowResult {
    match edited {
        Ok(edited) => {
            say_positions(row, &edited.rebuilt)?;
            row.say(b"work")?;
            row.show(&edited.work)
        }
        Err(cause) => {
            row.say(b"refused")?;
            row.say_text(cause_of(cause)?)
        }
    }
}

// Makes an edit: by the call of its name, or by `apply`.
fn make_edit(row: &mut Row<'_>, database: &mut Database, by_name: bool) -> RowResult {
    let (edit, _) = edit_at(row, 0)?;
    let edited = if by_name {
        edit_by_name(database, &edit)
    } else {
        database.apply(&edit)
    };
    say_edited(row, edited)
}

// Makes a database of a list of edits in one run, and gives what came of each.
fn run_edits(row: &mut Row<'_>, database: &mut Database) -> RowResult {
    let (made, outcomes) = run(row.alloc, &edits_of(row)?)?;
    *database = made;
    say_outcomes(row, &outcomes)
}

// The text of a block `NAME<AT>` that uses the one before it so many times.
fn link_of(alloc: Global, name: &str, at: usize, uses: usize) -> Result<String, AllocError> {
    let mut text = format!(in alloc; "{name}{at},")?;
    let used = at.saturating_sub(1);
    for _ in 0..uses {
        text.push_str(format!(in alloc; "use={name}{used},")?.as_str())?;
    }
    text.push_str("\n")?;
    Ok(text)
}

// Puts in blocks that use the one before them, until there are so many. Each is to rebuild itself
// alone. Says the work of all.
fn put_links(row: &mut Row<'_>, database: &mut Database) -> RowResult {
    let (name, count, uses) = (row.text(0)?, row.count(1)?, row.count(2)?);
    let mut work: u64 = 0;
    for at in database.len()..count {
        let text = link_of(row.alloc, name, at, uses)?;
        match database.insert(at, text.as_bytes()) {
            Ok(edited) if edited.rebuilt.as_slice() == [at].as_slice() => {
                work = work.saturating_add(edited.work);
            }
            _ => return Err(Bad("a block does not rebuild itself alone")),
        }
    }
    row.say(b"work")?;
    row.show(&work)
}

// The entry of each block, or `none`.
fn say_entries(row: &mut Row<'_>, database: &Database) -> RowResult {
    for at in 0..database.len() {
        row.say_or_none(database.compiled(at))?;
    }
    Ok(())
}

// How many blocks there are, and how many of them have an entry that ends with these bytes.
fn say_ends(row: &mut Row<'_>, database: &Database, end: &[u8]) -> RowResult {
    let mut count: usize = 0;
    for at in 0..database.len() {
        if database
            .compiled(at)
            .is_some_and(|entry| entry.ends_with(end))
        {
            count = count.saturating_add(1);
        }
    }
    row.show(&database.len())?;
    row.show(&count)
}

// What values say of `cols`: its number, `cancelled` or `unsaid`.
fn say_cols(row: &mut Row<'_>, values: &Table) -> RowResult {
    match find(b"cols").and_then(|cols| values.get(cols)) {
        Some(Value::Number(number)) => row.show(number),
        Some(Value::Cancelled) => row.say(b"cancelled"),
        _ => row.say(b"unsaid"),
    }
}

// What each block says of `cols` once its uses are expanded.
fn say_values(row: &mut Row<'_>, database: &Database) -> RowResult {
    for at in 0..database.len() {
        match database.values(at) {
            Some(values) => say_cols(row, values)?,
            None => row.say(b"unresolved")?,
        }
    }
    Ok(())
}

// The lookup names of a block, each once; then its accepted items, and its faults.
fn say_block(row: &mut Row<'_>, database: &Database) -> RowResult {
    let at = row.count(0)?;
    if at >= database.len() {
        return Err(Bad("there is no such block"));
    }
    let names = database.names(at);
    row.show(&names.len())?;
    for name in &distinct_names(row.alloc, names)? {
        row.say(name.as_slice())?;
    }
    say_items(row, database.items(at), database.local_faults(at))
}

fn say_owner(row: &mut Row<'_>, database: &Database) -> RowResult {
    match database.owner(row.bytes(0)?) {
        Some(at) => row.show(&at),
        None => row.say(b"none"),
    }
}

// The report of a source that has 6 lines before its first block.
fn say_later_report(row: &mut Row<'_>, database: &Database) -> RowResult {
    let faults = database.faults()?;
    row.say(&database.report_of(&faults, 7)?)
}

/// Makes a call of this library.
pub fn call(database: &mut Database, name: &str, row: &mut Row<'_>) -> RowResult {
    match name {
        "new" => *database = Database::new(row.alloc),
        "edit" => make_edit(row, database, true)?,
        "apply" => make_edit(row, database, false)?,
        "run" => run_edits(row, database)?,
        "links" => put_links(row, database)?,
        "entries" => say_entries(row, database)?,
        "ends" => say_ends(row, database, row.bytes(0)?)?,
        "report" => row.say(&database.report(1)?)?,
        "later_report" => say_later_report(row, database)?,
        "values" => say_values(row, database)?,
        "block" => say_block(row, database)?,
        "owner" => say_owner(row, database)?,
        _ => return Err(NO_CALL),
    }
    Ok(())
}
