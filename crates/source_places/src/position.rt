//! Places in a text as the Language Server Protocol 3.17 counts them: lines from 0, and columns in
//! UTF-16 units. A line ends with LF, or with CR LF, whose CR is not a column. A lone CR ends none.
ghost use Rattle.std.specs.Prelude.{◌≡◌, ◌+◌, ◌-◌, ◌*◌, ◌^◌, ◌<◌, ◌≤◌, length};
ghost use Rattle.source_places.specs.Position as spec;

use memchr::{memchr, memrchr};
use source_types::Position;
use ti_text::count_lines;

// The UTF-16 units of the character that begins with the byte; none for a byte within a character.
pub(crate) fn units(byte: u8) -> usize
    ensures units { result ≡ spec.units byte }
    ensures few { result ≤ 2 }
{
    if byte < 128 {
        1
    } else if byte < 192 {
        0
    } else if byte < 240 {
        1
    } else {
        2
    }
}

// Whether a line ends where the text begins.
pub(crate) fn ends_line(text: &[u8]) -> bool
    ensures { result ≡ spec.ends_line text.now }
{
    matches!(text, [] | [b'\n', ..] | [b'\r', b'\n', ..])
}

// How many bytes are passed together, if the line that is sought begins after them.
const PASSED_TOGETHER: usize = 4_096;

// A text without pieces at its front that the line of that number begins after, and how many lines
// are left before the line.
fn after_pieces(text: &[u8], line: usize) -> (&[u8], usize)
    ensures within { length result.0.now ≤ length text.now }
    ensures start { length text.now - length result.0.now + spec.line_start result.0.now result.1 ≡ spec.line_start text.now line }
{
    let mut rest = text;
    let mut left = line;
    while PASSED_TOGETHER <= rest.len() {
        let (piece, others) = rest.split_at(PASSED_TOGETHER);
        let lines = count_lines(piece);
        if left <= lines {
            return (rest, left);
        }
        left -= lines;
        rest = others;
    }
    (rest, left)
}

// The offset at which the line of that number begins, line by line.
fn start_by_lines(text: &[u8], line: usize) -> usize
    ensures start { result ≡ spec.line_start text.now line }
    ensures within { result ≤ length text.now }
{
    let mut start = 0;
    for _passed in 0..line {
        match memchr(b'\n', &text[start..]) {
            Some(at) => start += at + 1,
            None => return text.len(),
        }
    }
    start
}

/// The offset at which the line of that number begins; the length of the text if it has no such
/// line.
pub(crate) fn line_start(text: &[u8], line: usize) -> usize
    ensures start { result ≡ spec.line_start text.now line }
    ensures within { result ≤ length text.now }
{
    let (rest, left) = after_pieces(text, line);
    text.len() - rest.len() + start_by_lines(rest, left)
}

// The offset in a line, from its start, of a column; that of its end if it is past it.
fn column_offset(line: &[u8], column: usize) -> usize
    ensures offset { result ≡ spec.column_offset line.now column }
    ensures within { result ≤ length line.now }
{
    let mut left = column;
    for (at, byte) in line.iter().enumerate() {
        let wide = units(*byte);
        if left < wide || ends_line(&line[at..]) {
            return at;
        }
        left -= wide;
    }
    line.len()
}

/// The offset of a place in the UTF-8 of a text. Past the end of a line it is the line's end, past
/// the last line the end of the text, and in the middle of a surrogate pair the start of its
/// character.
pub fn offset_of(text: &[u8], position: Position) -> usize
    ensures offset { result ≡ spec.offset_of text.now position }
    ensures within { result ≤ length text.now }
{
    let start = line_start(text, position.line);
    start + column_offset(&text[start..], position.column)
}

// The place after the first byte of a text that begins so far into one, from the place before it.
fn step_over(text: &[u8], at: usize, place: Position) -> Position
    requires line { place.line ≤ at }
    requires column { place.column ≤ 2 * at }
    requires room { at + 1 < 2 ^ 63 }
    ensures next { result ≡ spec.step_over text.now place }
    ensures line { result.line ≤ at + 1 }
    ensures column { result.column ≤ 2 * at + 2 }
{
    match text {
        // Nearly every byte. It ends no line, and needs no further test.
        [b' '..=b'~', ..] => Position {
            line: place.line,
            column: place.column + 1,
        },
        [b'\n', ..] => Position {
            line: place.line + 1,
            column: 0,
        },
        [byte, ..] if !ends_line(text) => Position {
            line: place.line,
            column: place.column + units(*byte),
        },
        _ => place,
    }
}

// Where the last line begins that begins at the offset or before it, and the place of that.
fn line_before(text: &[u8], offset: usize) -> (usize, Position)
    requires { offset ≤ length text.now }
    ensures order { result.0 ≤ offset }
    ensures place { result.1 ≡ spec.position_of text.now result.0 }
    ensures line { result.1.line ≤ result.0 }
    ensures column { result.1.column ≡ 0 }
{
    match memrchr(b'\n', &text[..offset]) {
        Some(at) => {
            let line = count_lines(&text[..at + 1]);
            (at + 1, Position { line, column: 0 })
        }
        None => (0, Position { line: 0, column: 0 }),
    }
}

/// The place of an offset, from that of one before it.
pub(crate) fn place_from(text: &[u8], from: usize, place: Position, offset: usize) -> Position
    requires place { place ≡ spec.position_of text.now from }
    requires line { place.line ≤ from }
    requires column { place.column ≤ 2 * from }
    requires order { from ≤ offset }
    ensures place { result ≡ spec.position_of text.now offset }
    ensures line { result.line ≤ offset }
    ensures column { result.column ≤ 2 * offset }
{
    let mut place = place;
    for at in from..offset.min(text.len()) {
        place = step_over(&text[at..], at, place);
    }
    place
}

/// The place of an offset of a text, that of its end past the end.
pub fn position_of(text: &[u8], offset: usize) -> Position
    ensures place { result ≡ spec.position_of text.now offset }
    ensures line { result.line ≤ length text.now }
{
    let within = offset.min(text.len());
    let (from, place) = line_before(text, within);
    place_from(text, from, place, within)
}

/// A law, with no code: at the start of a character, `offset_of` of `position_of` is the offset
/// again.
pub fn positions_are_inverse()
    ensures { spec.PositionsAreInverse }
{}
