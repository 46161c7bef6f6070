//! What comments allow on the lines of a text, one line after another.
ghost use Rattle.std.specs.Prelude.{◌≡◌, ◌&&◌, [], ◌+◌, ◌≤◌, ◌<◌, ◌^◌, ℕ, suc, IfOk, drop, false, length, map, true};
ghost use Rattle.ti_text.specs.Lines.{line_count};
ghost use Rattle.source_places.specs.Position.{line_start};
ghost use Rattle.source_settings.specs.Comments as spec;
ghost use Rattle.source_settings.specs.inside.Latest.{latest};

use crate::comments::{is_before_block, is_head, push_allowed};
use memchr::memchr;
use source_places::first_of;
use std::alloc::{AllocError, Global};
use std::marker::Model;
use ti_text::count_lines;

/// The codes that are allowed from a line on, up to that of the next allowance.
#[derive(Debug, Drop)]
pub(crate) struct Allowance<'a> {
    /// The line, counted from 0.
    pub line: usize,
    /// The codes.
    pub codes: Vec<&'a [u8]>,
}

// What the comments of a text allow on its lines before one of a number.
#[derive(Drop)]
struct Walk<'a> {
    text: &'a [u8],
    number: usize,
    all: Vec<Allowance<'a>>,
    // The codes that the lines right before it allow.
    above: Vec<&'a [u8]>,
    // None is allowed on the line before it.
    is_quiet: bool,
}

impl<'a> Model for Walk<'a> {
    ghost use Rattle.std.specs.Prelude.{ℕ, List, map};
    ghost use Rattle.source_settings.specs.inside.Walking.{IsWalk};

    ghost Value = { List ℕ × ℕ };

    ghost view = { λ w. (w.text.now, w.number) };

    ghost invariant = { λ w. IsWalk w.text.now w.number w.all.items (map (λ code. code.now) w.above.items) w.is_quiet };
}

// Whether these are no codes.
fn is_none(codes: &[&[u8]]) -> bool
    ensures { result ≡ true → map (λ code. code.now) codes.now ≡ [] }
{
    codes.is_empty()
}

// Whether nothing changes at a head line.
fn is_nothing(is_quiet: bool, is_empty: bool) -> bool
    ensures { result ≡ (is_quiet && is_empty) }
{
    is_quiet && is_empty
}

impl<'a> Walk<'a> {
    ghost use Rattle.source_places.specs.LineTexts.{line_of};

    // At the first line.
    fn new(alloc: Global, text: &'a [u8]) -> Walk<'a>
        ensures { result ≡ (text.now, 0) }
    {
        Walk {
            text,
            number: 0,
            all: Vec::new(alloc),
            above: Vec::new(alloc),
            is_quiet: true,
        }
    }

    // After a head line.
    fn after_head(self, alloc: Global) -> Result<Walk<'a>, AllocError>
        requires head { spec.is_head (line_of self.0 self.1) ≡ true }
        requires room { self.1 + 1 < 2 ^ 64 }
        ensures { IfOk result (λ walk. walk ≡ (self.entry.0, self.entry.1 + 1)) }
    {
        let Walk {
            text,
            number,
            mut all,
            above,
            is_quiet,
        } = self;
        let is_empty = is_none(above.as_slice());
        if is_nothing(is_quiet, is_empty) {
            return Ok(Walk {
                text,
                number: number + 1,
                all,
                above: Vec::new(alloc),
                is_quiet,
            });
        }
        all.push(Allowance {
            line: number,
            codes: above,
        })?;
        Ok(Walk {
            text,
            number: number + 1,
            all,
            above: Vec::new(alloc),
            is_quiet: is_empty,
        })
    }

    // After a line that may come before a block.
    fn after_comment(self, alloc: Global, line: &'a [u8]) -> Result<Walk<'a>, AllocError>
        requires line { line.now ≡ line_of self.0 self.1 }
        requires head { spec.is_head line.now ≡ false }
        requires before { spec.is_before_block line.now ≡ true }
        requires room { self.1 + 1 < 2 ^ 64 }
        ensures { IfOk result (λ walk. walk ≡ (self.entry.0, self.entry.1 + 1)) }
    {
        let Walk {
            text,
            number,
            all,
            mut above,
            is_quiet,
        } = self;
        push_allowed(alloc, &mut above, line)?;
        Ok(Walk {
            text,
            number: number + 1,
            all,
            above,
            is_quiet,
        })
    }

    // After another line.
    fn after_items(self, alloc: Global) -> Walk<'a>
        requires head { spec.is_head (line_of self.0 self.1) ≡ false }
        requires items { spec.is_before_block (line_of self.0 self.1) ≡ false }
        requires room { self.1 + 1 < 2 ^ 64 }
        ensures { result ≡ (self.entry.0, self.entry.1 + 1) }
    {
        let Walk {
            text,
            number,
            all,
            above: _,
            is_quiet,
        } = self;
        Walk {
            text,
            number: number + 1,
            all,
            above: Vec::new(alloc),
            is_quiet,
        }
    }

    // After the line.
    fn after(self, alloc: Global, line: &'a [u8]) -> Result<Walk<'a>, AllocError>
        requires line { line.now ≡ line_of self.0 self.1 }
        requires room { self.1 + 1 < 2 ^ 64 }
        ensures { IfOk result (λ walk. walk ≡ (self.entry.0, self.entry.1 + 1)) }
    {
        if is_head(line) {
            self.after_head(alloc)
        } else if is_before_block(line) {
            self.after_comment(alloc, line)
        } else {
            Ok(self.after_items(alloc))
        }
    }
}

// Where the next line begins after the one that begins at an offset; the end of the text if none does.
fn next_line(text: &[u8], start: usize) -> usize
    requires { start ≤ length text.now }
    ensures within { result ≤ length text.now }
    ensures next { (more : ℕ) → start + line_start (drop start text.now) (suc more) ≡ result + line_start (drop result text.now) more }
{
    match memchr(b'\n', &text[start..]) {
        Some(at) => start + at + 1,
        None => text.len(),
    }
}

// What comments allow on the lines of a text, after the last of them.
fn walked(alloc: Global, text: &[u8]) -> Result<Walk<'_>, AllocError>
    ensures { IfOk result (λ walk. walk ≡ (text.now, line_count text.now + 1)) }
{
    let mut walk = Walk::new(alloc, text);
    let mut start = 0;
    for _passed in 0..count_lines(text) + 1 {
        walk = walk.after(alloc, first_of(&text[start..]))?;
        start = next_line(text, start);
    }
    Ok(walk)
}

/// The codes that comments allow on the lines of a text.
///
/// # Errors
/// Out of memory.
pub(crate) fn allowances_of<'a>(
    alloc: Global,
    text: &'a [u8],
) -> Result<Vec<Allowance<'a>>, AllocError>
    ensures { IfOk result (λ all. (line : ℕ) → latest [] all.items line ≡ spec.allowed_on text.now line) }
{
    let Walk {
        text: _,
        number: _,
        all,
        above: _,
        is_quiet: _,
    } = walked(alloc, text)?;
    Ok(all)
}
