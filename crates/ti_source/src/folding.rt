//! The text of a block, folded: without its comments and its line breaks.
ghost use Rattle.std.specs.Prelude.{◌≡◌, ◌+◌, ◌<◌, ◌≤◌, ◌^◌, ◌==◌, ◌&&◌, IfSome, IfNone, length};
ghost use Rattle.std.specs.Iterator.{YieldsFirst, item_count};
ghost use Rattle.ti_text.specs.Ascii as ascii;
ghost use Rattle.ti_source.specs.Folding.{EachIsFolded, OneFolding};
ghost use Rattle.ti_source.specs.inside.Folding.{folding_of, SkipsWhiteSpace, after_line};
ghost use Rattle.ti_source.specs.inside.Items.{TakesRun, TakesWholeItem};

use crate::items::{Escape, Run, front_run, whole_item_size};
use memchr::memchr;
use std::marker::Model;
use ti_text::is_white_space;

/// What is left of a folded text: its bytes, each with its line in the block, counted from 1.
#[derive(Drop)]
pub(crate) struct Folded<'a> {
    rest: &'a [u8],
    // How many newlines are before the rest.
    newlines: usize,
    // The byte before the rest, or a newline if there is none.
    before: u8,
    // Whether white space at the front of the rest belongs to a line break.
    joining: bool,
}

impl<'a> Model for Folded<'a> {
    ghost use Rattle.std.specs.Prelude.{◌+◌, ◌<◌, ◌^◌, ℕ, false, List, length};
    ghost use Rattle.ti_source.specs.inside.Folding.{bytes_on_lines, without_comments, without_breaks};

    ghost Value = { List (ℕ × ℕ) };

    ghost view = { λ f. without_breaks f.joining (without_comments false f.before (bytes_on_lines (f.newlines + 1) f.rest.now)) };

    ghost invariant = { λ f. f.newlines + length f.rest.now < 2 ^ 64 };
}

impl<'a> Folded<'a> {
    /// The folded text of a block.
    pub(crate) fn new(block: &'a [u8]) -> Self
        ensures value { result ≡ folding_of block.now }
        ensures len { length result ≤ length block.now }
    {
        Folded {
            rest: block,
            newlines: 0,
            before: b'\n',
            joining: false,
        }
    }

    /// Takes the run at the front over which an item goes on: `escape` takes the first byte, which
    /// is just after `before`. Returns `None` if that byte may belong to a comment or a line break.
    pub(crate) fn take_run(&mut self, escape: Escape, before: u8) -> Run<'a>
        ensures { TakesRun self.old escape before result self.new }
    {
        if self.joining || self.before == b'\n' {
            return Run {
                bytes: &self.rest[..0],
                escape,
                last: before,
            };
        }
        let run = front_run(self.rest, escape, before);
        let (_, rest) = self.rest.split_at(run.bytes.len());
        // neither a byte of the run nor the one before it is a newline, so that `before` need not
        // change
        self.rest = rest;
        run
    }

    /// Passes over the white space at the front.
    pub(crate) fn skip_white_space(&mut self)
        ensures { SkipsWhiteSpace self.old self.new }
    {
        while let Some((byte, rest)) = self.rest.split_first() {
            let byte = *byte;
            if is_white_space(byte) {
                self.rest = rest;
                self.before = byte;
            } else if byte == b'\n' {
                self.rest = rest;
                self.before = byte;
                self.newlines += 1;
                self.joining = true;
            } else if begins_comment(self.before, byte) {
                (self.rest, self.newlines) = after_comment(rest, self.newlines);
            } else {
                // the byte ends the break, if it follows one
                self.joining = false;
                return;
            }
        }
    }

    /// Takes the item at the front with the comma that ends it, and gives its text and its line;
    /// takes nothing if that is not seen at once.
    pub(crate) fn take_item(&mut self) -> Option<(&'a [u8], usize)>
        ensures taken { IfSome result (λ item. TakesWholeItem self.old item.0.now item.1 self.new) }
        ensures none { IfNone result (self.new ≡ self.old) }
    {
        if self.joining || self.before == b'\n' {
            return None;
        }
        let size = whole_item_size(self.rest)?;
        let (item, rest) = self.rest.split_at(size);
        // neither the item nor the comma has a newline, so that `before` need not change
        self.rest = &rest[1..];
        Some((item, self.newlines + 1))
    }
}

// Whether a comment begins at `byte`, with `before` just before it.
fn begins_comment(before: u8, byte: u8) -> bool
    ensures { result ≡ (before == ascii.newline && byte == ascii.number_sign) }
{
    before == b'\n' && byte == b'#'
}

// What follows the first line of a text.
fn after_line(text: &[u8]) -> &[u8]
    ensures rest { result.now ≡ after_line text.now }
    ensures shorter { length result.now ≤ length text.now }
{
    match memchr(b'\n', text) {
        Some(end) => &text[end + 1..],
        None => &[],
    }
}

// What follows the comment that `text` begins in, and how many newlines are before that, if
// `newlines` are before `text`.
fn after_comment(text: &[u8], newlines: usize) -> (&[u8], usize)
    requires { newlines + 1 < 2 ^ 64 }
    ensures rest { result.0.now ≡ after_line text.now }
    ensures shorter { length result.0.now ≤ length text.now }
    ensures newlines { result.1 ≡ newlines + 1 }
{
    (after_line(text), newlines + 1)
}

impl<'a> Iterator for Folded<'a> {
    type Item = (u8, usize);

    ghost next_gives = { YieldsFirst (λ s. s) };

    ghost remaining = { item_count (λ s. s) };

    fn next(&mut self) -> Option<(u8, usize)> {
        while let Some((byte, rest)) = self.rest.split_first() {
            let byte = *byte;
            let line = self.newlines + 1;
            if begins_comment(self.before, byte) {
                (self.rest, self.newlines) = after_comment(rest, self.newlines);
                continue;
            }
            self.rest = rest;
            self.before = byte;
            if byte == b'\n' {
                self.newlines += 1;
            }
            self.joining = byte == b'\n' || self.joining && is_white_space(byte);
            if !self.joining {
                return Some((byte, line));
            }
        }
        None
    }
}
