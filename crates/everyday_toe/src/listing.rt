//! The table of directories.
ghost use Rattle.std.specs.Prelude.{◌≡◌, ◌++◌, IfOk, OnOk, length, map};
ghost use Rattle.std.specs.String.{string_bytes};
ghost use Rattle.std.specs.List.{flat_map};
ghost use Rattle.everyday_toe.specs.Placed.{placed_of};
ghost use Rattle.everyday_toe.specs.Seeing.{row_line};
ghost use Rattle.everyday_toe.specs.Listing.{IsTable, arrows_from, directory_of, heading_of, headings_text, line_text, placed_as};
ghost use Rattle.everyday_toe.specs.Listing.{placed_from, placed_in, placed_text, plain_text, sorted_lines};

use crate::lines::{push_arrow, push_entry, push_heading};
use crate::marking::push_marked;
use crate::ordering::{Placed, sorted};
use crate::seeing::Row;
use std::alloc::{AllocError, Global};

/// A directory that is listed.
#[derive(Debug, Drop)]
pub struct Directory {
    /// Its path.
    pub path: String,
    /// The rows of its files, in the order in which the system gives these; `None` if it cannot be
    /// read.
    pub rows: Option<Vec<Row>>,
}

/// How directories are listed.
#[derive(Clone, Copy, Debug)]
pub struct Style {
    /// A heading before the entries of each directory.
    pub headings: bool,
    /// The entries of all directories in the order of their names; of several directories with marks
    /// that show which has an entry, and whether it is like the one before.
    pub sorted: bool,
}

// Adds the heading of a directory, if it is to have one and can be read.
fn push_heading_of(
    text: &mut Vec<u8>,
    headings: bool,
    directory: &Directory,
) -> Result<(), AllocError>
    ensures { OnOk result (text.new.items ≡ text.old.items ++ heading_of headings (directory_of directory.now)) }
{
    if headings && directory.rows.is_some() {
        return push_heading(text, directory.path.as_str());
    }
    Ok(())
}

// Adds the headings of all directories.
fn push_headings(
    text: &mut Vec<u8>,
    headings: bool,
    directories: &[Directory],
) -> Result<(), AllocError>
    ensures { OnOk result (text.new.items ≡ text.old.items ++ headings_text headings (map directory_of directories.now)) }
{
    for directory in directories {
        push_heading_of(text, headings, directory)?;
    }
    Ok(())
}

// Adds the lines of rows.
fn push_rows(text: &mut Vec<u8>, rows: &[Row]) -> Result<(), AllocError>
    ensures { OnOk result (text.new.items ≡ text.old.items ++ flat_map line_text (map row_line rows.now)) }
{
    for row in rows {
        push_entry(text, row.name.as_slice(), row.description.as_slice())?;
    }
    Ok(())
}

// Adds the heading and the lines of a directory.
fn push_directory(
    text: &mut Vec<u8>,
    headings: bool,
    directory: &Directory,
) -> Result<(), AllocError>
    ensures { OnOk result (text.new.items ≡ text.old.items ++ plain_text headings (directory_of directory.now)) }
{
    push_heading_of(text, headings, directory)?;
    match &directory.rows {
        Some(rows) => push_rows(text, rows.as_slice()),
        None => Ok(()),
    }
}

// Adds rows of the directory of that number to others.
fn place_rows<'a>(
    placed: &mut Vec<Placed<'a>>,
    number: usize,
    rows: &'a [Row],
) -> Result<(), AllocError>
    ensures { OnOk result (map placed_of placed.new.items ≡ map placed_of placed.old.items ++ placed_as number (map row_line rows.now)) }
{
    for row in rows {
        placed.push(Placed {
            directory: number,
            row,
        })?;
    }
    Ok(())
}

// The same of all rows of a directory.
fn place<'a>(
    placed: &mut Vec<Placed<'a>>,
    number: usize,
    directory: &'a Directory,
) -> Result<(), AllocError>
    ensures { OnOk result (map placed_of placed.new.items ≡ map placed_of placed.old.items ++ placed_in number (directory_of directory.now)) }
{
    match &directory.rows {
        Some(rows) => place_rows(placed, number, rows.as_slice()),
        None => Ok(()),
    }
}

// The rows of all directories.
fn placed(alloc: Global, directories: &[Directory]) -> Result<Vec<Placed<'_>>, AllocError>
    ensures { IfOk result (λ placed. map placed_of placed.items ≡ placed_from 0 (map directory_of directories.now)) }
{
    let mut placed = Vec::new(alloc);
    for (number, directory) in directories.iter().enumerate() {
        place(&mut placed, number, directory)?;
    }
    Ok(placed)
}

// Adds the lines that say which column is that of which directory.
fn push_arrows(text: &mut Vec<u8>, directories: &[Directory]) -> Result<(), AllocError>
    ensures { OnOk result (text.new.items ≡ text.old.items ++ arrows_from 0 (map directory_of directories.now)) }
{
    for (column, directory) in directories.iter().enumerate() {
        push_arrow(text, column, directory.path.as_str())?;
    }
    Ok(())
}

// Adds the lines of rows without marks.
fn push_placed(text: &mut Vec<u8>, rows: &[Placed<'_>]) -> Result<(), AllocError>
    ensures { OnOk result (text.new.items ≡ text.old.items ++ flat_map placed_text (map placed_of rows.now)) }
{
    for placed in rows {
        let row = placed.row;
        push_entry(text, row.name.as_slice(), row.description.as_slice())?;
    }
    Ok(())
}

// Adds the lines of rows in the order of their names.
fn push_sorted(
    text: &mut Vec<u8>,
    directories: &[Directory],
    rows: &[Placed<'_>],
) -> Result<(), AllocError>
    ensures { OnOk result (text.new.items ≡ text.old.items ++ sorted_lines (map directory_of directories.now) (map placed_of rows.now)) }
{
    if directories.len() <= 1 || rows.is_empty() {
        return push_placed(text, rows);
    }
    push_arrows(text, directories)?;
    push_marked(text, rows, directories.len())
}

// The table without an order.
fn plain_table(
    alloc: Global,
    headings: bool,
    directories: &[Directory],
) -> Result<Vec<u8>, AllocError>
    ensures { IfOk result (λ text. text.items ≡ flat_map (plain_text headings) (map directory_of directories.now)) }
{
    let mut text = Vec::new(alloc);
    for directory in directories {
        push_directory(&mut text, headings, directory)?;
    }
    Ok(text)
}

/// The table of the entries of directories (toe(1)).
///
/// # Errors
/// `AllocError` if memory ran out.
pub fn table(alloc: Global, style: Style, directories: &[Directory]) -> Result<Vec<u8>, AllocError>
    ensures { IfOk result (λ text. IsTable style.headings style.sorted (map directory_of directories.now) text.items) }
{
    if !style.sorted {
        return plain_table(alloc, style.headings, directories);
    }
    let rows = placed(alloc, directories)?;
    let rows = sorted(alloc, rows.as_slice())?;
    let mut text = Vec::new(alloc);
    push_headings(&mut text, style.headings, directories)?;
    push_sorted(&mut text, directories, rows.as_slice())?;
    Ok(text)
}
