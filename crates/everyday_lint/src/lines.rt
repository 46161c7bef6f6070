//! The lines of a text, one after another.
ghost use Rattle.std.specs.Prelude.{◌≡◌, ◌≤◌, length, true};
ghost use Rattle.std.specs.List.{list_all};
ghost use Rattle.source_places.specs.LineTexts.{line_of, until_end};
ghost use Rattle.source_places.specs.Position.{line_start};
ghost use Rattle.everyday_lint.specs.Telling.{byte_offset};
ghost use Rattle.everyday_lint.specs.inside.Ascii.{is_character};

use memchr::memchr;
use source_places::{first_of, offset_of};
use source_types::Position;
use std::marker::Model;

/// A line of a text, without its end.
#[derive(Drop)]
pub(crate) struct Line<'a> {
    bytes: &'a [u8],
    // Whether each byte is a character.
    is_ascii: bool,
}

impl<'a> Model for Line<'a> {
    ghost use Rattle.std.specs.Prelude.{◌≡◌, ℕ, List};
    ghost use Rattle.std.specs.List.{list_all};
    ghost use Rattle.source_places.specs.LineTexts.{until_end};
    ghost use Rattle.everyday_lint.specs.inside.Ascii.{is_character};

    ghost Value = { List ℕ };

    ghost view = { λ l. l.bytes.now };

    ghost invariant = { λ l. (l.is_ascii ≡ list_all is_character l.bytes.now) × (until_end l.bytes.now ≡ l.bytes.now) };
}

// Whether each byte is a character.
fn are_ascii(bytes: &[u8]) -> bool
    ensures { result ≡ list_all is_character bytes.now }
{
    bytes.iter().all(|byte| *byte < 128)
}

impl<'a> Line<'a> {
    /// The line at the beginning of a text.
    pub(crate) fn of(text: &'a [u8]) -> Line<'a>
        ensures { result ≡ until_end text.now }
    {
        let bytes = first_of(text);
        Line {
            bytes,
            is_ascii: are_ascii(bytes),
        }
    }

    /// The line of that number, from 0; nothing if there is no such line.
    pub(crate) fn at(text: &'a [u8], number: usize) -> Line<'a>
        ensures { result ≡ line_of text.now number }
    {
        Line::of(&text[start_of(text, number)..])
    }

    /// Its bytes.
    pub(crate) fn bytes(&self) -> &'a [u8]
        ensures { result.now ≡ self.now }
    {
        self.bytes
    }

    /// The offset of a column, in bytes.
    pub(crate) fn offset_of(&self, column: usize) -> usize
        ensures { result ≡ byte_offset self.now column }
    {
        if self.is_ascii {
            return column.min(self.bytes.len());
        }
        offset_of(self.bytes, Position { line: 0, column })
    }
}

// The offset at which the line of that number begins, or that of the end if there is none.
fn start_of(text: &[u8], number: usize) -> usize
    ensures start { result ≡ line_start text.now number }
    ensures within { result ≤ length text.now }
{
    let mut start = 0;
    for _passed in 0..number {
        match memchr(b'\n', &text[start..]) {
            Some(at) => start += at + 1,
            None => return text.len(),
        }
    }
    start
}

// The same, from where the line of another number begins.
fn start_from(text: &[u8], from: usize, start: usize, number: usize) -> usize
    requires known { start ≡ line_start text.now from }
    requires inside { start ≤ length text.now }
    ensures start { result ≡ line_start text.now number }
    ensures within { result ≤ length text.now }
{
    if from <= number {
        start + start_of(&text[start..], number - from)
    } else {
        start_of(text, number)
    }
}

/// A walk over the lines of a text. If no line is before the one before it, the text is gone over
/// once for all of them.
#[derive(Drop)]
pub(crate) struct LineWalk<'a> {
    text: &'a [u8],
    // The number of the line, and where it begins.
    number: usize,
    start: usize,
    line: Line<'a>,
}

impl<'a> Model for LineWalk<'a> {
    ghost use Rattle.std.specs.Prelude.{◌≡◌, ◌≤◌, ℕ, List, drop, length};
    ghost use Rattle.source_places.specs.LineTexts.{until_end};
    ghost use Rattle.source_places.specs.Position.{line_start};

    ghost Value = { List ℕ × ℕ };

    ghost view = { λ w. (w.text.now, w.number) };

    ghost invariant = { λ w. (w.start ≡ line_start w.text.now w.number) × (w.start ≤ length w.text.now) × (w.line ≡ until_end (drop w.start w.text.now)) };
}

impl<'a> LineWalk<'a> {
    /// At the first line of a text.
    pub(crate) fn new(text: &'a [u8]) -> LineWalk<'a>
        ensures { result ≡ (text.now, 0) }
    {
        LineWalk {
            text,
            number: 0,
            start: 0,
            line: Line::of(text),
        }
    }

    /// Goes to the line of that number, from 0.
    pub(crate) fn go_to(&mut self, number: usize)
        ensures { self.new ≡ (self.old.0, number) }
    {
        if number != self.number {
            let start = start_from(self.text, self.number, self.start, number);
            self.number = number;
            self.start = start;
            self.line = Line::of(&self.text[start..]);
        }
    }

    /// The line; nothing if there is no such line.
    pub(crate) fn line(&self) -> &Line<'a>
        ensures { result.now ≡ line_of self.now.0 self.now.1 }
    {
        &self.line
    }
}
