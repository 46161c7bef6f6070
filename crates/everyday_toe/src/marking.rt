//! The marks that show which directory has an entry.
ghost use Rattle.std.specs.Prelude.{◌≡◌, ◌++◌, IfOk, None, OnOk, map, option_map};
ghost use Rattle.everyday_toe.specs.Marking.{begun, closing, columns_after, fresh_text, mark_of, marked, open_of, opened, step_text};
ghost use Rattle.everyday_toe.specs.Placed.{placed_of};

use crate::lines::{push_dashes, push_entry};
use crate::ordering::Placed;
use std::alloc::AllocError;

/// A line that is not at its end: the name and the description of its first row, the sum of its
/// last, and how many columns it has so far.
#[derive(Clone, Copy)]
pub struct Open<'a> {
    name: &'a [u8],
    description: &'a [u8],
    sum: u64,
    columns: usize,
}

// How many columns a line has once a row of a directory is marked after so many.
fn columns_after(columns: usize, directory: usize) -> usize
    ensures { result ≡ columns_after columns directory }
{
    columns.max(directory).saturating_add(1)
}

// Adds the end of a line, of so many directories.
fn push_end(text: &mut Vec<u8>, line: Option<Open<'_>>, count: usize) -> Result<(), AllocError>
    ensures { OnOk result (text.new.items ≡ text.old.items ++ closing count (option_map open_of line.entry)) }
{
    let Some(line) = line else {
        return Ok(());
    };
    push_dashes(text, count.saturating_sub(line.columns))?;
    text.extend_from_slice(b":\t")?;
    push_entry(text, line.name, line.description)
}

// Adds the mark of a row whose name is that of the line: `+` if it is like the one before.
fn push_mark(text: &mut Vec<u8>, line: &Open<'_>, placed: &Placed<'_>) -> Result<(), AllocError>
    ensures { OnOk result (text.new.items ≡ text.old.items ++ mark_of (open_of line.now) (placed_of placed.now)) }
{
    push_dashes(text, placed.directory.saturating_sub(line.columns))?;
    if line.sum == placed.row.sum {
        text.extend_from_slice(b"+-")
    } else {
        text.extend_from_slice(b"*-")
    }
}

// Adds the mark of the first row of a line.
fn push_first(text: &mut Vec<u8>, placed: &Placed<'_>) -> Result<(), AllocError>
    ensures { OnOk result (text.new.items ≡ text.old.items ++ fresh_text (placed_of placed.now)) }
{
    push_dashes(text, placed.directory)?;
    text.extend_from_slice(b"*-")
}

// The line that a row begins.
fn begun<'a>(placed: &Placed<'a>) -> Open<'a>
    ensures { open_of result ≡ begun (placed_of placed.now) }
{
    Open {
        name: placed.row.name.as_slice(),
        description: placed.row.description.as_slice(),
        sum: placed.row.sum,
        columns: columns_after(0, placed.directory),
    }
}

// Adds the mark of a row, after the end of the line before it if its name is another. Gives the line
// that is not at its end then.
fn push_row<'a>(
    text: &mut Vec<u8>,
    line: Option<Open<'a>>,
    placed: &Placed<'a>,
    count: usize,
) -> Result<Open<'a>, AllocError>
    ensures text { OnOk result (text.new.items ≡ text.old.items ++ step_text count (option_map open_of line.entry) (placed_of placed.now)) }
    ensures line { IfOk result (λ after. open_of after ≡ opened (option_map open_of line.entry) (placed_of placed.now)) }
{
    if let Some(line) = line {
        if line.name == placed.row.name.as_slice() {
            push_mark(text, &line, placed)?;
            return Ok(Open {
                name: line.name,
                description: line.description,
                sum: placed.row.sum,
                columns: columns_after(line.columns, placed.directory),
            });
        }
    }
    push_end(text, line, count)?;
    push_first(text, placed)?;
    Ok(begun(placed))
}

/// Adds the lines of rows in the order of their names, with marks for so many directories.
pub(crate) fn push_marked(
    text: &mut Vec<u8>,
    rows: &[Placed<'_>],
    count: usize,
) -> Result<(), AllocError>
    ensures { OnOk result (text.new.items ≡ text.old.items ++ marked count None (map placed_of rows.now)) }
{
    let mut line = None;
    for placed in rows {
        line = Some(push_row(text, line, placed, count)?);
    }
    push_end(text, line, count)
}
