//! A source as it is written.
ghost use Rattle.std.specs.Prelude.{◌≡◌, ◌++◌, IfOk, OnOk, map};
ghost use Rattle.source_format.specs.Laws.{IsReadAlike, LinesFit};
ghost use Rattle.source_format.specs.Layout as spec;
ghost use Rattle.source_format.specs.Pieces.{merged};
ghost use Rattle.source_format.specs.inside.Steps.{entry_seen, line_seen};

use crate::entries::{Entry, entries_of};
use crate::laws;
use crate::lines::{KeptLine, kept_lines};
use crate::places::Place;
use crate::writing::{end_line, push_item, push_lines, push_lines_before};
use std::alloc::{AllocError, Global};
use ti_source::{blocks, names_field};

// Writes items and kept lines in their order.
fn push_pieces(
    out: &mut Vec<u8>,
    width: usize,
    entries: &[Entry],
    lines: &[KeptLine<'_>],
) -> Result<(), AllocError>
    ensures { OnOk result (out.new.items ≡ out.old.items ++ spec.laid width spec.line_start (merged (map entry_seen entries.now) (map line_seen lines.now))) }
{
    let mut place = Place::start();
    let mut at = 0;
    for entry in entries {
        (at, place) = push_lines_before(out, place, lines, at, entry.line)?;
        place = push_item(out, width, place, &entry.text, entry.ended)?;
    }
    place = push_lines(out, place, &lines[at..])?;
    end_line(out, place)
}

// Writes a block.
fn push_block(
    alloc: Global,
    out: &mut Vec<u8>,
    width: usize,
    block: &[u8],
) -> Result<(), AllocError>
    ensures { OnOk result (out.new.items ≡ out.old.items ++ spec.block_text width block.now) }
{
    let head = names_field(alloc, block)?;
    let entries = entries_of(alloc, block)?;
    let lines = kept_lines(alloc, block)?;
    out.extend_from_slice(&head)?;
    out.extend_from_slice(b",\n")?;
    push_pieces(out, width, &entries, &lines)
}

/// A source in the layout of a listing (infocmp(1)), in lines of `width` columns. The names field of
/// each block has a line of its own. Its items follow in their order, on lines that begin with a
/// tab, with a space between two of them; a tab counts as 8 columns, and each other byte as one. A
/// line is ended before an item that would bring it past the width, and before one of another kind: a
/// boolean, a number, a string or a use. Comments and blank lines stay as they are, before the first
/// item that began after them. What is before the first block stays too. The text ends with a newline
/// if it has a block.
///
/// # Errors
/// Out of memory.
pub fn formatted(alloc: Global, width: usize, source: &[u8]) -> Result<Vec<u8>, AllocError>
    ensures text { IfOk result (λ text. text.items ≡ spec.formatted_text width source.now) }
    ensures alike { IfOk result (λ text. IsReadAlike source.now text.items) }
    ensures fits { IfOk result (λ text. LinesFit width text.items) }
    ensures settled { IfOk result (λ text. spec.formatted_text width text.items ≡ text.items) }
{
    // Laws, with no code: they give the clauses `alike`, `fits` and `settled` of what is computed.
    laws::formatting_is_faithful();
    let mut cut = blocks(source);
    let mut out = Vec::new(alloc);
    out.extend_from_slice(cut.preface())?;
    while let Some(block) = cut.next() {
        push_block(alloc, &mut out, width, block)?;
    }
    Ok(out)
}
