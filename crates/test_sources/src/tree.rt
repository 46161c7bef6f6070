//! Calls of `tools_devices` on a tree of files in memory, which fails when it is told to, and of
//! `everyday_sources`, which takes the entries that a source uses from there.
use everyday_sources::{chosen_names, is_chosen, take_used};
use std::alloc::Global;
use test_rows::RowError::{Bad, Memory};
use test_rows::{NO_CALL, Row, RowResult, text_of};
use ti_source::{Rule, lookup_names};
use tools_devices::{File, MemTree, ToolError, Tree, TreeFault, locate, place};
use tools_sources::database_by;

// The files of paths and bytes.
fn files_of(alloc: Global, words: &[Vec<u8>]) -> RowResult<Vec<File>> {
    let mut files = Vec::new(alloc);
    for pair in words.chunks(2) {
        if let [path, bytes] = pair {
            let path = String::from_str(alloc, text_of(path)?)?;
            let bytes = Vec::from_slice(alloc, bytes)?;
            files.push(File { path, bytes })?;
        }
    }
    Ok(files)
}

fn say_fault(row: &mut Row<'_>, fault: TreeFault) -> RowResult {
    match fault {
        TreeFault::Failed => row.fail("Failed"),
        TreeFault::Memory => Err(Memory),
    }
}

// Places files, and says how many are placed before a fault.
fn put(row: &mut Row<'_>, tree: &mut MemTree) -> RowResult {
    let files = files_of(row.alloc, row.from(0))?;
    match place(tree, &files) {
        Ok(()) => row.say(b"placed"),
        Err((count, fault)) => {
            say_fault(row, fault)?;
            row.show(&count)
        }
    }
}

// The front of a file: one byte more than the limit.
fn say_front(row: &mut Row<'_>, tree: &mut MemTree) -> RowResult {
    match tree.read(row.alloc, row.text(0)?, row.count(1)?) {
        Ok(Some(front)) => row.say(&front),
        Ok(None) => row.say(b"none"),
        Err(fault) => say_fault(row, fault),
    }
}

// Lets a call fail.
fn fail_at(row: &mut Row<'_>, tree: &mut MemTree) -> RowResult {
    let call = row.number(0)?;
    if call == 0 {
        return Err(Bad("calls are counted from 1"));
    }
    tree.fail_at(u64::from(call));
    row.say(b"set")
}

// The texts of the words after the first.
fn texts(row: &Row<'_>) -> RowResult<Vec<String>> {
    let mut texts = Vec::new(row.alloc);
    for word in row.from(1) {
        texts.push(String::from_str(row.alloc, text_of(word)?)?)?;
    }
    Ok(texts)
}

fn say_located(row: &mut Row<'_>, tree: &mut MemTree) -> RowResult {
    let places = texts(row)?;
    match locate(row.alloc, tree, row.text(0)?, &places) {
        Ok(entry) => row.say(&entry),
        Err(ToolError::Memory) => Err(Memory),
        Err(cause) => row.fail(format!(in row.alloc; "{cause:?}")?.as_str()),
    }
}

// Takes the entries that a source uses: the blocks that are added, the files that are not taken, and
// the faults of the source if they are known.
fn say_used(row: &mut Row<'_>, tree: &mut MemTree) -> RowResult {
    let Ok(mut database) = database_by(row.alloc, Rule::OwnFirst, row.bytes(0)?) else {
        return Err(Bad("the source is refused"));
    };
    let before = database.len();
    let used = take_used(row.alloc, tree, &texts(row)?, &mut database, false)?;
    for at in before..database.len() {
        row.say(database.text(at))?;
    }
    for problem in &used.problems {
        let cause = problem.cause;
        row.say_text(problem.path.as_str())?;
        row.say_text(format!(in row.alloc; "{cause:?}")?.as_str())?;
    }
    if let Some(faults) = &used.faults {
        row.say(b"faults")?;
        for fault in faults {
            row.say_text(fault.code.name())?;
        }
    }
    Ok(())
}

// Whether one of the names of a names field is among the names that are chosen; `none`: all are.
fn say_is_chosen(row: &mut Row<'_>) -> RowResult {
    let Some(names) = lookup_names(row.alloc, row.bytes(0)?)? else {
        return Err(Bad("the word is not a names field"));
    };
    let chosen = match row.bytes(1)? {
        b"none" => None,
        chosen => Some(chosen),
    };
    row.say_yes(is_chosen(chosen, &names))
}

fn say_chosen(row: &mut Row<'_>) -> RowResult {
    for name in &chosen_names(row.alloc, row.bytes(0)?)? {
        row.say(name)?;
    }
    Ok(())
}

/// Makes a call of these libraries.
pub fn call(tree: &mut MemTree, name: &str, row: &mut Row<'_>) -> RowResult {
    match name {
        "new" => {
            *tree = MemTree::new(row.alloc);
            row.say(b"empty")
        }
        "place" => put(row, tree),
        "file" => row.say_or_none(tree.file(row.text(0)?)),
        "read" => say_front(row, tree),
        "fail_at" => fail_at(row, tree),
        "locate" => say_located(row, tree),
        "used" => say_used(row, tree),
        "is_chosen" => say_is_chosen(row),
        "chosen_names" => say_chosen(row),
        _ => Err(NO_CALL),
    }
}
