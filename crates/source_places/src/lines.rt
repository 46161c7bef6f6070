//! A line of a text.
ghost use Rattle.std.specs.Prelude.{◌≡◌, ◌≤◌, ◌+◌, length};
ghost use Rattle.source_places.specs.Columns.{ColumnsAreFound, ColumnsHaveOneOffset, PlacesAreMeasured, WidthsAreUtf16};
ghost use Rattle.source_places.specs.LineStarts.{LinesAreFound, LinesHaveOneStart, OtherLinesAreTheEnd};
ghost use Rattle.source_places.specs.LineTexts as spec;

use crate::position::{ends_line, line_start, units};
use ti_text::is_white_space;

/// The bytes of the line at the beginning of a text, without its end.
pub fn first_of(text: &[u8]) -> &[u8]
    ensures { result.now ≡ spec.until_end text.now }
{
    for at in 0..text.len() {
        if ends_line(&text[at..]) {
            return &text[..at];
        }
    }
    text
}

/// The bytes of the line of that number, from 0, without its end; nothing if there is no such line.
pub fn line_of(text: &[u8], line: usize) -> &[u8]
    ensures { result.now ≡ spec.line_of text.now line }
{
    first_of(&text[line_start(text, line)..])
}

/// The white space at the beginning of a line, in bytes.
pub fn indent(line: &[u8]) -> usize
    ensures { result ≡ spec.indent line.now }
{
    for (at, byte) in line.iter().enumerate() {
        if !is_white_space(*byte) {
            return at;
        }
    }
    line.len()
}

/// The UTF-16 units of a line.
pub fn width(line: &[u8]) -> usize
    ensures { result ≡ spec.width line.now }
{
    let mut sum = 0;
    for byte in line {
        sum += units(*byte);
    }
    sum
}

/// A law, with no code: the width of a text that is UTF-8 is the length of its UTF-16.
pub fn widths_are_utf16()
    ensures { WidthsAreUtf16 }
{}

/// A law, with no code: the offset of a column in a line is the last before which there is no more
/// than the column, in UTF-16 units; and there is only one.
pub fn columns_have_one_offset()
    ensures found { ColumnsAreFound }
    ensures one { ColumnsHaveOneOffset }
{}

/// A law, with no code: the place of an offset in a line is the line's number, and in UTF-16 units
/// how wide the line is before the offset.
pub fn places_are_measured()
    ensures { PlacesAreMeasured }
{}

/// A law, with no code: a line of a text begins at the first offset with so many newlines before
/// it, the only one; for a line that the text does not have, the offset is that of its end.
pub fn lines_have_one_start()
    ensures found { LinesAreFound }
    ensures other { OtherLinesAreTheEnd }
    ensures one { LinesHaveOneStart }
{}
