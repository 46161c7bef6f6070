//! A line as it is written.
ghost use Rattle.std.specs.Prelude.{◌≡◌, ℕ, List, ◌+◌, ◌*◌, ◌≤◌, ◌++◌, ◌∷◌, nat_le, IfOk, OnOk, length};
ghost use Rattle.ti_source.specs.Items.{without_white_front};
ghost use Rattle.source_format.specs.Layout as layout;
ghost use Rattle.source_kept_lines.specs.Layout as spec;
ghost use Rattle.source_kept_lines.specs.Parts.{after, parts};

use crate::fronts::split_front;
use crate::parts::{Reached, first_part};
use std::alloc::AllocError;

// The columns that a tab takes.
const TAB: u128 = 8;

// The columns that a byte takes.
fn byte_columns(byte: u8) -> u128
    ensures { result ≡ layout.byte_columns byte }
{
    if byte == b'\t' { TAB } else { 1 }
}

// The columns that a text takes. A text of tabs may take more than a `usize` holds.
fn columns(text: &[u8]) -> u128
    ensures size { result ≡ layout.columns text.now }
    ensures bound { result ≤ 8 * length text.now }
{
    let mut columns = 0;
    for byte in text {
        columns += byte_columns(*byte);
    }
    columns
}

// How lines are written: at most so many columns, and what a new line begins with.
#[derive(Clone, Copy)]
pub(crate) struct Lines<'a> {
    pub(crate) width: usize,
    pub(crate) indent: &'a [u8],
}

// Whether so many columns go on a line of which so many are taken, after a space.
fn goes_on(width: usize, column: u128, size: u128) -> bool
    ensures { result ≡ nat_le (column + 1 + size) width }
{
    let width = width as u128;
    column < width && size < width - column
}

// Writes a part after a space, or on a new line, and gives how many columns are taken then.
fn push_part(
    out: &mut Vec<u8>,
    lines: Lines<'_>,
    column: u128,
    part: &[u8],
) -> Result<u128, AllocError>
    ensures { IfOk result (λ next. (ps : List (List ℕ)) → out.old.items ++ spec.filled lines.entry.width lines.entry.indent.now column (part.now ∷ ps)
        ≡ out.new.items ++ spec.filled lines.entry.width lines.entry.indent.now next ps) }
{
    let size = columns(part);
    if goes_on(lines.width, column, size) {
        out.push(b' ')?;
        out.extend_from_slice(part)?;
        return Ok(column + 1 + size);
    }
    out.push(b'\n')?;
    out.extend_from_slice(lines.indent)?;
    out.extend_from_slice(part)?;
    Ok(columns(lines.indent) + size)
}

// Writes the parts of a text after the first of a line, of which so many columns are taken. Gives what
// is reached by them.
fn push_parts(
    out: &mut Vec<u8>,
    lines: Lines<'_>,
    column: u128,
    reached: Reached,
    text: &[u8],
) -> Result<Reached, AllocError>
    ensures written { OnOk result (out.new.items ≡ out.old.items ++ spec.filled lines.entry.width lines.entry.indent.now column (parts reached text.now)) }
    ensures reached { IfOk result (λ next. next ≡ after reached text.now) }
{
    let mut taken = column;
    let mut so_far = reached;
    let mut rest = text;
    while let Some(part) = first_part(so_far, rest) {
        taken = push_part(out, lines, taken, part.text)?;
        so_far = part.reached;
        rest = part.rest;
    }
    Ok(so_far)
}

// Writes the parts of a text after what their line has in front.
fn push_text(
    out: &mut Vec<u8>,
    lines: Lines<'_>,
    front: &[u8],
    reached: Reached,
    text: &[u8],
) -> Result<Reached, AllocError>
    ensures written { OnOk result (out.new.items ≡ out.old.items ++ spec.parts_text lines.entry.width lines.entry.indent.now front.now (parts reached text.now)) }
    ensures reached { IfOk result (λ next. next ≡ after reached text.now) }
{
    out.extend_from_slice(front)?;
    let Some(part) = first_part(reached, text) else {
        return Ok(reached);
    };
    out.extend_from_slice(part.text)?;
    let column = columns(front) + columns(part.text);
    push_parts(out, lines, column, part.reached, part.rest)
}

/// Writes a line that is no comment and not blank, without the newline that ends it. Gives what is
/// reached by it.
///
/// # Errors
/// Out of memory.
pub(crate) fn push_line(
    out: &mut Vec<u8>,
    lines: Lines<'_>,
    reached: Reached,
    line: &[u8],
) -> Result<Reached, AllocError>
    ensures written { OnOk result (out.new.items ≡ out.old.items ++ spec.line_text lines.entry.width lines.entry.indent.now reached line.now) }
    ensures reached { IfOk result (λ next. next ≡ after reached (without_white_front line.now)) }
{
    let (own, content) = split_front(line);
    let front = if reached.is_between() {
        lines.indent
    } else {
        own
    };
    push_text(out, lines, front, reached, content)
}
