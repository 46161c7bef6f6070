//! The lines of the table.
ghost use Rattle.std.specs.Prelude.{◌≡◌, ◌++◌, OnOk, replicate};
ghost use Rattle.everyday_toe.specs.Lines.{arrow_line, dashes, entry_line, heading_line};

use std::alloc::AllocError;

// How many columns a name has at least.
const NAME_WIDTH: usize = 10;

// Adds copies of a byte.
fn push_copies(text: &mut Vec<u8>, count: usize, byte: u8) -> Result<(), AllocError>
    ensures { OnOk result (text.new.items ≡ text.old.items ++ replicate count byte) }
{
    for _added in 0..count {
        text.push(byte)?;
    }
    Ok(())
}

/// Adds the columns of directories that have no entry of a name: two dashes for each.
pub(crate) fn push_dashes(text: &mut Vec<u8>, count: usize) -> Result<(), AllocError>
    ensures { OnOk result (text.new.items ≡ text.old.items ++ dashes count) }
{
    push_copies(text, count, b'-')?;
    push_copies(text, count, b'-')
}

/// Adds the line of an entry: its name, in at least ten columns, and its description.
pub(crate) fn push_entry(
    text: &mut Vec<u8>,
    name: &[u8],
    description: &[u8],
) -> Result<(), AllocError>
    ensures { OnOk result (text.new.items ≡ text.old.items ++ entry_line name.now description.now) }
{
    text.extend_from_slice(name)?;
    push_copies(text, NAME_WIDTH.saturating_sub(name.len()), b' ')?;
    text.push(b'\t')?;
    text.extend_from_slice(description)?;
    text.push(b'\n')?;
    Ok(())
}

/// Adds the heading of a directory.
pub(crate) fn push_heading(text: &mut Vec<u8>, path: &str) -> Result<(), AllocError>
    ensures { OnOk result (text.new.items ≡ text.old.items ++ heading_line path.now) }
{
    text.extend_from_slice(b"#\n#")?;
    text.extend_from_slice(path.as_bytes())?;
    text.extend_from_slice(b":\n#\n")
}

/// Adds the line that says which column is that of a directory: the one at which its arrow ends.
pub(crate) fn push_arrow(text: &mut Vec<u8>, column: usize, path: &str) -> Result<(), AllocError>
    ensures { OnOk result (text.new.items ≡ text.old.items ++ arrow_line column path.now) }
{
    push_dashes(text, column)?;
    text.extend_from_slice(b"--> ")?;
    text.extend_from_slice(path.as_bytes())?;
    text.push(b'\n')?;
    Ok(())
}
