//! The names field and the items of a block, and what an item states.
ghost use Rattle.std.specs.Prelude.{◌≡◌, ◌+◌, ◌<◌, ◌≤◌, IfOk, IfSome, OnOk, length, take, drop, slice_index, option_map};
ghost use Rattle.memchr.specs.Find.{IsFirstByte};
ghost use Rattle.std.specs.Option.{option_map_or};
ghost use Rattle.ti_source.specs.Items.{bytes, is_mark, item_piece, without_outer_space};
ghost use Rattle.ti_source.specs.inside.Items.{escape_after, cuts, field_of, after_field, PassesRun, ReadsOn, TakesItem, EndsItem, IsWholeItem, with_byte};
ghost use Rattle.ti_source.specs.Stating.{statement_seen, statement_of, statement_with_value, plain_statement};

use crate::folding::Folded;
use memchr::memchr2;
use std::alloc::{AllocError, Global};
use ti_spelling::trim_end;
use ti_text::is_white_space;

/// The escape that takes the byte that comes next, if one does.
#[derive(Clone, Copy)]
pub(crate) enum Escape {
    Nothing,
    Backslash,
    Caret,
}

impl Escape {
    // What takes the byte after `byte`, which `self` takes and which is just after `before`.
    fn next_escape(self, before: u8, byte: u8) -> Escape
        ensures { result ≡ escape_after self before byte }
    {
        match (self, byte) {
            (Escape::Nothing, b'\\') => Escape::Backslash,
            (Escape::Nothing, b'^') if before != b'%' => Escape::Caret,
            _ => Escape::Nothing,
        }
    }

    // Whether `byte`, which `self` takes, ends an item.
    fn cuts(self, byte: u8) -> bool
        ensures { result ≡ cuts self byte }
    {
        byte == b',' && !matches!(self, Escape::Backslash)
    }
}

/// A run of bytes on one line, over which an item goes on.
#[derive(Clone, Copy)]
pub(crate) struct Run<'a> {
    /// The bytes, none of which is a newline or ends the item.
    pub(crate) bytes: &'a [u8],
    /// What takes the byte after them.
    pub(crate) escape: Escape,
    /// The last byte of the run, or the byte before it if the run is empty.
    pub(crate) last: u8,
}

/// The longest run at the front of `text` over which an item goes on: `escape` takes the first
/// byte, which is just after `before`.
pub(crate) fn front_run(text: &[u8], escape: Escape, before: u8) -> Run<'_>
    ensures front { result.bytes.now ≡ take (length result.bytes.now) text.now }
    ensures passes_run { PassesRun escape before result.bytes.now result.escape result.last }
{
    let mut size = 0;
    let mut next = escape;
    let mut last = before;
    for &byte in text {
        if byte == b'\n' || next.cuts(byte) {
            break;
        }
        next = next.next_escape(last, byte);
        last = byte;
        size += 1;
    }
    Run {
        bytes: &text[..size],
        escape: next,
        last,
    }
}

/// The size of the item at the front of `text`, if it is not empty, does not begin with white
/// space, and ends on the same line with a comma that has no backslash before it; `None` for any
/// other item.
pub(crate) fn whole_item_size(text: &[u8]) -> Option<usize>
    ensures { IfSome result (λ size. IsWholeItem text.now size) }
{
    let size = memchr2(b',', b'\n', text)?;
    if size == 0 || text[size] == b'\n' || text[size - 1] == b'\\' || is_white_space(text[0]) {
        return None;
    }
    Some(size)
}

/// The names field of a block: its text up to the first comma, which is taken too.
pub(crate) fn read_field(alloc: Global, source: &mut Folded<'_>) -> Result<Vec<u8>, AllocError>
    ensures field { IfOk result (λ field. field.items ≡ bytes (field_of source.old)) }
    ensures rest { OnOk result (source.new ≡ after_field source.old) }
{
    let mut field = Vec::new(alloc);
    while let Some((byte, _)) = source.next() {
        if byte == b',' {
            break;
        }
        field.push(byte)?;
    }
    Ok(field)
}

/// Where an item is, and whether the block ends with it.
#[derive(Clone, Copy)]
pub struct RawItem<'a> {
    /// Its text, if it is part of the block as it is written.
    pub whole: Option<&'a [u8]>,
    /// The line of its first byte that is not white space.
    pub line: usize,
    /// Whether the block ends with it.
    pub last: bool,
}

// Adds a byte to the text of an item, but no white space at its front, and gives the line of the
// text: `line`, or `at`, the line of the byte, if the byte is the first.
fn push_visible(text: &mut Vec<u8>, line: usize, byte: u8, at: usize) -> Result<usize, AllocError>
    ensures { IfOk result (λ l. item_piece text.new.items l ≡ with_byte (item_piece text.old.items line) (byte, at)) }
{
    if !text.is_empty() {
        text.push(byte)?;
        return Ok(line);
    }
    if is_white_space(byte) {
        return Ok(line);
    }
    text.push(byte)?;
    Ok(at)
}

// Adds the run with which an item goes on, once its text has a byte. Gives what takes the byte
// after it and the byte just before that one. `escape` takes the first byte of the run, which is
// just after `before`.
fn push_run(
    source: &mut Folded<'_>,
    text: &mut Vec<u8>,
    escape: Escape,
    before: u8,
) -> Result<(Escape, u8), AllocError>
    ensures reads { IfOk result (λ reached. ReadsOn source.old escape before text.old.items source.new reached.0 reached.1 text.new.items) }
    ensures shorter { OnOk result (length source.new ≤ length source.old) }
{
    if text.is_empty() {
        return Ok((escape, before));
    }
    let run = source.take_run(escape, before);
    text.extend_from_slice(run.bytes)?;
    Ok((run.escape, run.last))
}

impl<'a> RawItem<'a> {
    /// The text of the item: the part of the block that it is, or what was left in `text`.
    pub(crate) fn text(&self, text: &'a [u8]) -> &'a [u8]
        ensures { result.now ≡ option_map_or (λ t. t.now) self.now.whole text.now }
    {
        match self.whole {
            Some(part) => part,
            None => text,
        }
    }
}

/// Takes the next item, and the comma that ends it. Its text, without white space at its front, is
/// part of the block, or is left in `text`.
pub(crate) fn read_item<'a>(
    source: &mut Folded<'a>,
    text: &mut Vec<u8>,
) -> Result<RawItem<'a>, AllocError>
    ensures { IfOk result (λ item. TakesItem source.old (item_piece (option_map_or (λ t. t.now) item.whole text.new.items) item.line) item.last source.new) }
{
    source.skip_white_space();
    // most items are on one line
    if let Some((item, line)) = source.take_item() {
        return Ok(RawItem {
            whole: Some(item),
            line,
            last: false,
        });
    }
    read_runs(source, text)
}

// Takes the next item as `take_item` does, byte by byte and run by run, from after the white space
// at its front.
fn read_runs<'a>(source: &mut Folded<'a>, text: &mut Vec<u8>) -> Result<RawItem<'a>, AllocError>
    ensures { IfOk result (λ item. EndsItem source.old (item_piece (option_map_or (λ t. t.now) item.whole text.new.items) item.line) item.last source.new) }
{
    text.clear();
    let mut line = 0;
    let mut escape = Escape::Nothing;
    let mut before = b',';
    while let Some((byte, at)) = source.next() {
        if escape.cuts(byte) {
            return Ok(RawItem {
                whole: None,
                line,
                last: false,
            });
        }
        line = push_visible(text, line, byte, at)?;
        // most bytes of an item are in such runs, which are added at once
        (escape, before) = push_run(source, text, escape.next_escape(before, byte), byte)?;
    }
    Ok(RawItem {
        whole: None,
        line,
        last: true,
    })
}

/// What an item states of the capability of a name.
#[derive(Clone, Copy)]
pub struct Statement<'a> {
    pub name: &'a [u8],
    pub claim: Claim<'a>,
}

/// What is stated: a boolean, a number or a string by its spelling, or a cancel.
#[derive(Clone, Copy)]
pub enum Claim<'a> {
    Flag,
    Number(&'a [u8]),
    Text(&'a [u8]),
    Cancel,
}

/// What an item states, by its text with no white space at its front. An empty item, and a disabled
/// one, which begins with a dot, state nothing.
pub fn statement_of(text: &[u8]) -> Option<Statement<'_>>
    ensures { option_map statement_seen result ≡ statement_of text.now }
{
    let (first, _) = text.split_first()?;
    if *first == b'.' {
        return None;
    }
    match first_mark(text) {
        Some(end) => Some(statement_with_value(text, end)),
        None => Some(plain_statement(trim_end(text))),
    }
}

// Whether a byte is a mark: it is between a name and a value.
fn is_mark(byte: u8) -> bool
    ensures { result ≡ is_mark byte }
{
    matches!(byte, b'#' | b'=')
}

// The offset of the first mark. Names are short, so that a search byte by byte is fastest.
fn first_mark(text: &[u8]) -> Option<usize>
    ensures { IsFirstByte is_mark text.now result }
{
    text.iter().position(|byte| is_mark(*byte))
}

// What an item with its first mark at `end` states: a number after `#`, a string after `=`.
fn statement_with_value(text: &[u8], end: usize) -> Statement<'_>
    requires { end < length text.now }
    ensures { statement_seen result ≡ statement_with_value (take end text.now) (slice_index text.now end) (drop (end + 1) text.now) }
{
    let value = &text[end + 1..];
    Statement {
        name: &text[..end],
        claim: if text[end] == b'#' {
            Claim::Number(value)
        } else {
            Claim::Text(value)
        },
    }
}

// What an item with no mark states: a cancel if it ends in `@`, else a boolean.
#[tactic(auto, using(crate::proofs::TextLemmas::plain_statement_lemmas))]
fn plain_statement(text: &[u8]) -> Statement<'_>
    ensures { statement_seen result ≡ plain_statement text.now }
{
    let flag = Statement {
        name: text,
        claim: Claim::Flag,
    };
    let Some((last, name)) = text.split_last() else {
        return flag;
    };
    if *last == b'@' {
        Statement {
            name,
            claim: Claim::Cancel,
        }
    } else {
        flag
    }
}

/// A text without the white space at both ends.
pub fn strip(text: &[u8]) -> &[u8]
    ensures { result.now ≡ without_outer_space text.now }
{
    let mut kept = text;
    while let Some((first, rest)) = kept.split_first() {
        if !is_white_space(*first) {
            break;
        }
        kept = rest;
    }
    trim_end(kept)
}
