//! Edits a source: its blocks in a database, and the files of its entries written if they changed.
ghost use Rattle.std.specs.Prelude.{◌<◌, length};

use std::alloc::{AllocError, Global};
use std::str;
use ti_base::{Database, EditError};
use ti_layout::View;
use ti_source::{blocks, lookup_names};
use tools_devices::{File, Tree, TreeFault};

/// A database of the blocks of a source.
///
/// # Errors
/// The first refusal of a block.
pub fn source_database(alloc: Global, source: &[u8]) -> Result<Database, EditError> {
    let mut database = Database::new(alloc);
    for block in blocks(source) {
        let end = database.len();
        let _ = database.insert(end, block)?;
    }
    Ok(database)
}

// Where the entry of a name is: in a directory of the name's first character.
fn path_of(alloc: Global, place: &str, name: &str) -> Result<Option<String>, AllocError> {
    match name.chars().next() {
        Some(first) => Ok(Some(format!(in alloc; "{place}/{first}/{name}")?)),
        None => Ok(None),
    }
}

// Adds a file for each name that the block at `at` owns, if it has an entry.
fn add_files(
    alloc: Global,
    database: &Database,
    at: usize,
    place: &str,
    files: &mut Vec<File>,
) -> Result<(), AllocError>
    requires { at < length database.now }
{
    let Some(bytes) = database.compiled(at) else {
        return Ok(());
    };
    let Ok(view) = View::read(bytes) else {
        return Ok(());
    };
    let Some(names) = lookup_names(alloc, view.names())? else {
        return Ok(());
    };
    for name in &names {
        if database.owner(name) != Some(at) {
            continue;
        }
        let Ok(text) = str::from_utf8(name) else {
            continue;
        };
        if let Some(path) = path_of(alloc, place, text)? {
            let bytes = Vec::from_slice(alloc, bytes)?;
            files.push(File { path, bytes })?;
        }
    }
    Ok(())
}

// The files of all entries.
fn files_of(alloc: Global, database: &Database, place: &str) -> Result<Vec<File>, AllocError> {
    let mut files = Vec::new(alloc);
    for at in 0..database.len() {
        add_files(alloc, database, at, place, &mut files)?;
    }
    Ok(files)
}

/// Writes the files of the entries that are not in the tree yet, or differ there, and returns how
/// many these were.
///
/// # Errors
/// What the tree returns.
pub fn write_changes<T: Tree>(
    alloc: Global,
    database: &Database,
    tree: &mut T,
    place: &str,
) -> Result<usize, TreeFault> {
    let Ok(files) = files_of(alloc, database, place) else {
        return Err(TreeFault::Memory);
    };
    let mut count = 0usize;
    for file in &files {
        let old = tree.read(alloc, file.path.as_str(), file.bytes.len())?;
        if old.as_ref() == Some(&file.bytes) {
            continue;
        }
        tree.write(file.path.as_str(), file.bytes.as_slice())?;
        count = count.saturating_add(1);
    }
    Ok(count)
}
