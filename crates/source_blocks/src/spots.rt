//! Where the blocks of a document are, and where in one a place is.
ghost use Rattle.std.specs.Prelude.{◌≡◌, ◌<◌, ◌+◌, ◌^◌, IfSome, length};
ghost use Rattle.base_meaning.specs.Report.{lines_before};
ghost use Rattle.source_spans.specs.declared.parts.Part.{Part};
ghost use Rattle.source_document.specs.Diagnostics.{text_at};
ghost use Rattle.source_document.specs.Documents.{held};
ghost use Rattle.source_blocks.specs.Spots as spec;
ghost use Rattle.source_blocks.specs.Counting.{CanCount};

use source_document::Document;
use source_places::{offset_of, position_of};
use source_spans::Part;
use source_types::{Position, Range};
use ti_base::Database;
use ti_text::count_lines;
use tools_sources::first_line;

/// A place in a block of a document.
#[derive(Clone, Copy)]
pub struct Spot {
    /// The position of the block.
    pub at: usize,
    /// The line on which the block begins, from 0.
    pub line: usize,
    /// The offset of the place in the block.
    pub offset: usize,
}

/// The line on which the first block of a document begins, from 0.
pub fn head_line(document: &Document) -> usize
    ensures line { result ≡ spec.head_line document.now }
    ensures count { CanCount result (held document.now) }
{
    source_document::laws::held_blocks_fit();
    first_line(document.text()) - 1
}

/// The line on which a block begins, if the first begins on the line `first`.
pub fn block_line(database: &Database, first: usize, at: usize) -> usize
    requires count { CanCount first database.now }
    requires within { at < length database.now }
    ensures line { result ≡ first + lines_before database.now at }
    ensures room { result + length (text_at database.now at) < 2 ^ 64 }
{
    let mut line = first;
    for before in 0..at {
        line += count_lines(database.text(before));
    }
    line
}

// The place of an offset of a block that begins on that line.
fn place_in(line: usize, block: &[u8], offset: usize) -> Position
    requires { line + length block.now < 2 ^ 64 }
    ensures { result ≡ spec.place_in line block.now offset }
{
    let place = position_of(block, offset);
    Position {
        line: line + place.line,
        column: place.column,
    }
}

/// The part of a text that is a part of a block which begins on that line.
pub fn range_in(line: usize, block: &[u8], part: Part) -> Range
    requires { line + length block.now < 2 ^ 64 }
    ensures { result ≡ spec.range_in line block.now part }
{
    Range {
        start: place_in(line, block, part.start),
        end: place_in(line, block, part.end),
    }
}

/// The offset of a place in a block that begins on that line; of a place past its end that of its
/// end.
pub fn offset_in(line: usize, block: &[u8], place: Position) -> usize
    ensures { result ≡ spec.offset_in line block.now place }
{
    offset_of(
        block,
        Position {
            line: place.line.saturating_sub(line),
            column: place.column,
        },
    )
}

// Where in the blocks of a database a place is, if it is in one; the first begins on the line
// `first`.
fn spot_from(database: &Database, first: usize, place: Position) -> Option<Spot>
    requires { CanCount first database.now }
    ensures spot { result ≡ spec.spot_from 0 first place database.now }
    ensures within { IfSome result (λ spot. spot.at < length database.now) }
    ensures room { IfSome result (λ spot. spot.line + length (text_at database.now spot.at) < 2 ^ 64) }
{
    let mut start = first;
    for at in 0..database.len() {
        if place.line < start {
            return None;
        }
        let block = database.text(at);
        let next = start + count_lines(block);
        if place.line < next {
            let offset = offset_in(start, block, place);
            return Some(Spot {
                at,
                line: start,
                offset,
            });
        }
        start = next;
    }
    None
}

// A place as it is taken: past the end of a line it is the line's end, past the last line that of
// the text.
fn settled(text: &[u8], place: Position) -> Position
    ensures { result ≡ spec.settled text.now place }
{
    position_of(text, offset_of(text, place))
}

/// Where in the blocks of a document a place is, if it is in one.
pub fn spot_at(document: &Document, place: Position) -> Option<Spot>
    ensures spot { result ≡ spec.spot_at document.now place }
    ensures within { IfSome result (λ spot. spot.at < length (held document.now)) }
    ensures room { IfSome result (λ spot. spot.line + length (text_at (held document.now) spot.at) < 2 ^ 64) }
{
    let place = settled(document.text(), place);
    spot_from(document.database(), head_line(document), place)
}
