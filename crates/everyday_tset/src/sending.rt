//! What is sent to a terminal.
ghost use Rattle.std.specs.Prelude.{◌≡◌, OnOk, IfOk};
ghost use Rattle.ti_layout.specs.View.{entry_seen};
ghost use Rattle.everyday_tset.specs.Sending.{Sends, with_return};

use everyday_starting::{first_bytes, last_bytes};
use std::alloc::{AllocError, Global};
use ti_layout::View;
use ti_param::Line;

// Adds a return, if there are bytes.
fn push_return(bytes: &mut Vec<u8>) -> Result<(), AllocError>
    ensures { OnOk result (bytes.new.items ≡ with_return bytes.old.items) }
{
    if !bytes.is_empty() {
        bytes.push(b'\r')?;
    }
    Ok(())
}

/// What is sent to a terminal, up to the last column, counted from 0, with the content of the file that
/// its entry names: its strings, and a return after them, if there are some. `None` if a string cannot be
/// written.
///
/// # Errors
/// `AllocError` if memory ran out.
pub fn strings(
    alloc: Global,
    is_reset: bool,
    view: &View<'_>,
    last: u32,
    file: &[u8],
    line: &Line,
) -> Result<Option<Vec<u8>>, AllocError>
    ensures { IfOk result (λ found. Sends line.now is_reset (entry_seen view.now) last file.now found) }
{
    let Some(mut bytes) = first_bytes(alloc, is_reset, view, last, line)? else {
        return Ok(None);
    };
    let Some(after) = last_bytes(alloc, is_reset, view, line)? else {
        return Ok(None);
    };
    bytes.extend_from_slice(file)?;
    bytes.extend_from_slice(after.as_slice())?;
    push_return(&mut bytes)?;
    Ok(Some(bytes))
}
