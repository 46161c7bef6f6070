//! The edit that lays out the blocks of a part of a document.
ghost use Rattle.std.specs.Prelude.{◌≡◌, ◌≤◌, ◌<◌, IfOk, option_map};
ghost use Rattle.source_blocks.specs.Counting.{CanCount};
ghost use Rattle.source_features.specs.Formatting.{layout_seen};
ghost use Rattle.source_features.specs.RangeFormatting as spec;

use crate::formatting::{COLUMNS, LayoutEdit};
use source_blocks::head_line;
use source_document::Document;
use source_edits::utf8_of;
use source_format::formatted_source;
use source_places::offset_of;
use source_types::{Position, Range};
use std::alloc::{AllocError, Global};
use ti_base::Database;
use ti_text::count_lines;

// Lines that follow one another: from `first` to before `end`.
#[derive(Clone, Copy)]
struct Lines {
    first: usize,
    end: usize,
}

// From the first of some lines to the last of those that follow.
fn joined(found: Option<Lines>, later: Option<Lines>) -> Option<Lines>
    ensures { option_map spec.lines_seen result ≡ spec.joined (option_map spec.lines_seen found) (option_map spec.lines_seen later) }
{
    match (found, later) {
        (Some(found), Some(later)) => Some(Lines {
            first: found.first,
            end: later.end,
        }),
        (Some(found), None) => Some(found),
        (None, later) => later,
    }
}

// The lines of a block from `start` to before `end`, if one of them is from `first` to `last`.
fn touched_block(first: usize, last: usize, start: usize, end: usize) -> Option<Lines>
    ensures { option_map spec.lines_seen result ≡ spec.touched_block first last start end }
{
    if start <= last && first < end {
        Some(Lines { first: start, end })
    } else {
        None
    }
}

// The lines of the blocks that have a line from `first` to `last`; the first block begins on the line
// `head`.
fn touched_lines(database: &Database, head: usize, first: usize, last: usize) -> Option<Lines>
    requires { CanCount head database.now }
    ensures { option_map spec.lines_seen result ≡ spec.touched first last head database.now }
{
    let mut found = None;
    let mut start = head;
    for at in 0..database.len() {
        let end = start + count_lines(database.text(at));
        let own = touched_block(first, last, start, end);
        found = joined(found, own);
        start = end;
    }
    found
}

// The last line of a range, to which the line does not belong that it ends before.
fn last_line(range: Range) -> usize
    ensures { result ≡ spec.last_line range }
{
    if range.end.column == 0 && range.start.line < range.end.line {
        range.end.line - 1
    } else {
        range.end.line
    }
}

// The range of whole lines.
fn range_of(lines: Lines) -> Range
    ensures { result ≡ spec.range_of (spec.lines_seen lines) }
{
    Range {
        start: Position {
            line: lines.first,
            column: 0,
        },
        end: Position {
            line: lines.end,
            column: 0,
        },
    }
}

// The part of a text in a range.
fn piece_of(text: &[u8], range: Range) -> &[u8]
    ensures { result.now ≡ spec.piece_of text.now range }
{
    let start = offset_of(text, range.start);
    let end = offset_of(text, range.end);
    &text[start..start.max(end)]
}

// The edit that gives a part of a text another text, if it is another and is UTF-8.
fn part_edit(range: Range, piece: &[u8], laid: Vec<u8>) -> Option<LayoutEdit>
    ensures { option_map layout_seen result ≡ spec.part_edit range piece.now laid.items }
{
    if laid.as_slice() == piece {
        return None;
    }
    match utf8_of(laid) {
        Some(text) => Some(LayoutEdit { range, text }),
        None => None,
    }
}

/// The edit that gives the blocks which a range touches the layout of `ti-fmt`, in lines of 80
/// columns, with the line ends that they have; `None` if it touches none, or they have that layout, or
/// would not be UTF-8 then. A range that ends before the first column of a line does not touch that
/// line.
///
/// # Errors
/// Out of memory.
pub fn layout_in(
    alloc: Global,
    document: &Document,
    range: Range,
) -> Result<Option<LayoutEdit>, AllocError>
    ensures { IfOk result (λ edit. option_map layout_seen edit ≡ spec.layout_in document.now range) }
{
    let head = head_line(document);
    let Some(lines) = touched_lines(
        document.database(),
        head,
        range.start.line,
        last_line(range),
    ) else {
        return Ok(None);
    };
    let part = range_of(lines);
    let piece = piece_of(document.text(), part);
    let laid = formatted_source(alloc, COLUMNS, piece)?;
    Ok(part_edit(part, piece, laid))
}

/// A law, with no code: once the client has made the edit, the part of the document in its range has
/// that layout, and all else is as it was.
pub fn edits_lay_out_a_part()
    ensures { spec.EditsLayOutAPart }
{}
