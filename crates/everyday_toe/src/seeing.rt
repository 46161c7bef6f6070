//! What a file of a directory is to the table.
ghost use Rattle.std.specs.Prelude.{◌≡◌, ◌==◌, IfOk, map};
ghost use Rattle.std.specs.List.{slice_split};
ghost use Rattle.ti_text.specs.Ascii as ascii;
ghost use Rattle.ti_layout.specs.View.{entry_seen, names_of};
ghost use Rattle.user_extension.specs.View.{read_rows};
ghost use Rattle.everyday_toe.specs.Seeing.{IsSeen, described, line_of, row_line};

use crate::sums::entry_sum;
use std::alloc::{AllocError, Global};
use ti_layout::View;
use tools_directories::read;
use user_extension::Extension;

// The description of an entry that has none.
const NO_DESCRIPTION: &[u8] = b"(No description)";

/// A row of the table: an entry.
#[derive(Debug, Drop)]
pub struct Row {
    /// Its first name.
    pub name: Vec<u8>,
    /// The last part of its names, which is a description of the terminal.
    pub description: Vec<u8>,
    /// A sum of what it has, by which entries of one name are told apart.
    pub sum: u64,
}

/// What a file of a directory is to the table.
#[derive(Debug, Drop)]
pub enum Seen {
    /// An entry, in the file of its first name.
    Entry(Row),
    /// An entry, in the file of another of its names.
    Alias,
    /// Not an entry.
    Damaged,
}

// The parts of the names of an entry.
fn parts(alloc: Global, names: &[u8]) -> Result<Vec<&[u8]>, AllocError>
    ensures { IfOk result (λ parts. map (λ part. part.now) parts.items ≡ slice_split (λ byte. byte == ascii.bar) names.now) }
{
    names.split(|byte| *byte == b'|').collect(alloc)
}

// The description among the parts of the names: the last, if it is not the first and not empty.
fn description<'a>(parts: &[&'a [u8]]) -> &'a [u8]
    ensures { result.now ≡ described (map (λ part. part.now) parts.now) }
{
    match parts.last() {
        Some(last) if 1 < parts.len() && 0 < last.len() => last,
        _ => NO_DESCRIPTION,
    }
}

// The row of an entry.
fn make_row(alloc: Global, view: &View<'_>, extension: &Extension<'_>) -> Result<Row, AllocError>
    ensures { IfOk result (λ row. row_line row ≡ line_of (entry_seen view.now) (read_rows extension.now)) }
{
    let parts = parts(alloc, view.names())?;
    Ok(Row {
        name: Vec::from_slice(alloc, view.first_name())?,
        description: Vec::from_slice(alloc, description(parts.as_slice()))?,
        sum: entry_sum(view, extension),
    })
}

/// What a file is to the table, given its name and its bytes: of a file over 65,536 bytes the first
/// 65,537.
///
/// # Errors
/// `AllocError` if memory ran out.
pub fn see(alloc: Global, name: &[u8], bytes: &[u8]) -> Result<Seen, AllocError>
    ensures { IfOk result (IsSeen name.now bytes.now) }
{
    match read(bytes) {
        Ok((view, extension)) => {
            if view.first_name() == name {
                return Ok(Seen::Entry(make_row(alloc, &view, &extension)?));
            }
            Ok(Seen::Alias)
        }
        Err(_) => Ok(Seen::Damaged),
    }
}
