//! Columns of a text, as GNU's compilers count them: in bytes from 1, a tab as one.
ghost use Rattle.std.specs.Prelude.{◌≡◌, ◌≤◌, length};
ghost use Rattle.everyday_report.specs.Columns.{column_at};
ghost use Rattle.everyday_report.specs.inside.LineStarts.{IsLineStart};

use memchr::memrchr;
use std::marker::Model;

/// The columns of offsets of a text. Those of offsets in order take time linear in the text, all
/// of them together.
#[derive(Drop)]
pub(crate) struct Columns<'a> {
    text: &'a [u8],
    // The offset that was asked for last, and where its line begins.
    offset: usize,
    start: usize,
}

impl<'a> Model for Columns<'a> {
    ghost use Rattle.std.specs.Prelude.{ℕ, List};
    ghost use Rattle.everyday_report.specs.inside.LineStarts.{IsLineStart};

    ghost Value = { List ℕ };

    ghost view = { λ c. c.text.now };

    ghost invariant = { λ c. IsLineStart c.text.now c.offset c.start };
}

// Where the line of an offset begins, by where that of an earlier offset does.
fn line_start_after(text: &[u8], offset: usize, start: usize, to: usize) -> usize
    requires known { IsLineStart text.now offset start }
    requires later { offset ≤ to }
    requires within { to ≤ length text.now }
    ensures { IsLineStart text.now to result }
{
    match memrchr(b'\n', &text[offset..to]) {
        Some(last) => offset + last + 1,
        None => start,
    }
}

// Where the line of an offset begins, by where that of another does.
fn line_start(text: &[u8], offset: usize, start: usize, to: usize) -> usize
    requires known { IsLineStart text.now offset start }
    requires within { to ≤ length text.now }
    ensures { IsLineStart text.now to result }
{
    if offset <= to {
        line_start_after(text, offset, start, to)
    } else {
        line_start_after(text, 0, 0, to)
    }
}

impl<'a> Columns<'a> {
    /// The columns of a text.
    pub(crate) fn of(text: &'a [u8]) -> Columns<'a>
        ensures { result ≡ text.now }
    {
        Columns {
            text,
            offset: 0,
            start: 0,
        }
    }

    /// The column of an offset of the text; of one past its end that of the end.
    pub(crate) fn column_at(&mut self, offset: usize) -> usize
        ensures column { result ≡ column_at self.old offset }
        ensures text { self.new ≡ self.old }
    {
        let to = offset.min(self.text.len());
        self.start = line_start(self.text, self.offset, self.start, to);
        self.offset = to;
        to - self.start + 1
    }
}
