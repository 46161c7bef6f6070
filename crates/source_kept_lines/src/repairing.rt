//! A source as it is written.
ghost use Rattle.std.specs.Prelude.{◌≡◌, ◌++◌, IfOk, OnOk, map};
ghost use Rattle.source_format.specs.Laws.{IsReadAlike};
ghost use Rattle.source_kept_lines.specs.Laws.{LinesFit};
ghost use Rattle.source_kept_lines.specs.Layout as spec;

use crate::laws;
use crate::lines::{indent_of, is_kept, lines_of};
use crate::parts::Reached;
use crate::writing::{Lines, push_line};
use std::alloc::{AllocError, Global};
use ti_source::blocks;

// Writes a line without the newline that ends it: a comment or a blank line as it is. Gives what is
// reached by it.
fn push_any(
    out: &mut Vec<u8>,
    lines: Lines<'_>,
    reached: Reached,
    line: &[u8],
) -> Result<Reached, AllocError>
    ensures written { OnOk result (out.new.items ≡ out.old.items ++ spec.any_text lines.entry.width lines.entry.indent.now reached line.now) }
    ensures reached { IfOk result (λ next. next ≡ spec.after_line reached line.now) }
{
    if is_kept(line) {
        out.extend_from_slice(line)?;
        return Ok(reached);
    }
    push_line(out, lines, reached, line)
}

// Writes the lines of a block.
fn push_lines(out: &mut Vec<u8>, form: Lines<'_>, lines: &[&[u8]]) -> Result<(), AllocError>
    ensures { OnOk result (out.new.items ≡ out.old.items ++ spec.lines_text form.entry.width form.entry.indent.now Reached.Names (map (λ line. line.now) lines.now)) }
{
    let mut reached = Reached::Names;
    for line in lines {
        reached = push_any(out, form, reached, line)?;
        out.push(b'\n')?;
    }
    Ok(())
}

// Writes a block.
fn push_block(
    alloc: Global,
    out: &mut Vec<u8>,
    width: usize,
    block: &[u8],
) -> Result<(), AllocError>
    ensures { OnOk result (out.new.items ≡ out.old.items ++ spec.repaired_block width block.now) }
{
    let lines = lines_of(alloc, block)?;
    let indent = indent_of(lines.as_slice());
    push_lines(out, Lines { width, indent }, lines.as_slice())
}

/// A source in its own lines, with white space repaired. Lines on which items begin have the white
/// space in front that the first of them has in their block. A space is between two items of a line, and
/// no white space after the last comma of a line. A line that would be past `width` columns is broken
/// before the item that does not fit; a tab counts as 8 columns, and each other byte as one. Lines on
/// which a string or the names go on keep what they begin with, and comments, blank lines and what is
/// before the first block stay. The text ends with a newline if it has a block.
///
/// # Errors
/// Out of memory.
pub fn repaired(alloc: Global, width: usize, source: &[u8]) -> Result<Vec<u8>, AllocError>
    ensures text { IfOk result (λ text. text.items ≡ spec.repaired_text width source.now) }
    ensures alike { IfOk result (λ text. IsReadAlike source.now text.items) }
    ensures fits { IfOk result (λ text. LinesFit width text.items) }
    ensures settled { IfOk result (λ text. spec.repaired_text width text.items ≡ text.items) }
{
    // Laws, with no code: they give the clauses `alike`, `fits` and `settled` of what is computed.
    laws::repairing_is_faithful();
    let mut cut = blocks(source);
    let mut out = Vec::new(alloc);
    out.extend_from_slice(cut.preface())?;
    while let Some(block) = cut.next() {
        push_block(alloc, &mut out, width, block)?;
    }
    Ok(out)
}
