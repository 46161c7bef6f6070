//! The lines of a source that an editor may fold.
ghost use Rattle.std.specs.Prelude.{◌≡◌, ◌<◌, ◌≤◌, ◌+◌, ◌^◌, ◌++◌, IfOk, OnOk, length, map, if◌then◌else◌};
ghost use Rattle.source_format.specs.Folds as spec;
ghost use Rattle.source_format.specs.Pieces.{is_kept, lines_of};

use crate::lines::{first_line, is_kept};
use std::alloc::{AllocError, Global};
use ti_text::is_white_space;

/// Lines that an editor may fold: those of an entry, or comments.
#[derive(Clone, Copy, Debug, PartialEq, Eq)]
pub struct Fold {
    /// The number of the first line, from 0.
    pub first: usize,
    /// The number of the last line, which is another.
    pub last: usize,
    /// Whether these are comments.
    pub is_comment: bool,
}

// Whether a line begins an entry.
fn is_head_line(line: &[u8]) -> bool
    ensures { result ≡ spec.is_head_line line.now }
{
    match line.first() {
        Some(byte) => !(is_white_space(*byte) || *byte == b'#' || *byte == b'\n'),
        None => false,
    }
}

// Whether a line is a comment.
fn is_comment_line(line: &[u8]) -> bool
    ensures { result ≡ spec.is_comment_line line.now }
{
    match line.first() {
        Some(byte) => *byte == b'#',
        None => false,
    }
}

// The lines of a source, without the newlines that end them.
fn lines_of(alloc: Global, source: &[u8]) -> Result<Vec<&[u8]>, AllocError>
    ensures { IfOk result (λ lines. map (λ line. line.now) lines.items ≡ lines_of source.now) }
{
    let mut lines = Vec::new(alloc);
    let mut rest = source;
    while !rest.is_empty() {
        let (line, after) = first_line(rest);
        lines.push(line)?;
        rest = after;
    }
    Ok(lines)
}

// How many lines an entry has at least after its first, given so many before one more.
fn lines_with(line: &[u8], at: usize, lines: usize) -> usize
    requires { at < 2 ^ 63 }
    ensures { result ≡ (if is_kept line.now then lines else at + 1) }
{
    if is_kept(line) { lines } else { at + 1 }
}

// How many of the lines after the first of an entry belong to it: those up to its last item.
fn entry_lines(lines: &[&[u8]]) -> usize
    ensures count { result ≡ spec.entry_lines (map (λ line. line.now) lines.now) }
    ensures within { result ≤ length lines.now }
{
    let mut count = 0;
    for (at, line) in lines.iter().enumerate() {
        if is_head_line(line) {
            return count;
        }
        count = lines_with(line, at, count);
    }
    count
}

// How many lines are comments, before the first that is none.
fn comment_lines(lines: &[&[u8]]) -> usize
    ensures count { result ≡ spec.comment_lines (map (λ line. line.now) lines.now) }
    ensures within { result ≤ length lines.now }
{
    for (at, line) in lines.iter().enumerate() {
        if !is_comment_line(line) {
            return at;
        }
    }
    lines.len()
}

// Adds a line and so many after it, if these are some.
fn push_fold(
    folds: &mut Vec<Fold>,
    first: usize,
    more: usize,
    is_comment: bool,
) -> Result<(), AllocError>
    requires { first + more < 2 ^ 64 }
    ensures { OnOk result (folds.new.items ≡ folds.old.items ++ spec.fold_of first more is_comment) }
{
    if more > 0 {
        folds.push(Fold {
            first,
            last: first + more,
            is_comment,
        })?;
    }
    Ok(())
}

// Adds what may be folded from a line on, which comes after a comment or not.
fn push_folds_at(
    folds: &mut Vec<Fold>,
    at: usize,
    after_comment: bool,
    line: &[u8],
    later: &[&[u8]],
) -> Result<(), AllocError>
    requires { at + length later.now < 2 ^ 64 }
    ensures { OnOk result (folds.new.items ≡ folds.old.items ++ spec.folds_at at after_comment line.now (map (λ line. line.now) later.now)) }
{
    if is_head_line(line) {
        return push_fold(folds, at, entry_lines(later), false);
    }
    if is_comment_line(line) && !after_comment {
        return push_fold(folds, at, comment_lines(later), true);
    }
    Ok(())
}

/// The lines of a source that an editor may fold, in the order of their first lines: each entry
/// from its names field to its last item, and comments that follow one another. What takes one line
/// alone is not folded.
///
/// # Errors
/// Out of memory.
pub fn folds_of(alloc: Global, source: &[u8]) -> Result<Vec<Fold>, AllocError>
    ensures { IfOk result (λ folds. folds.items ≡ spec.folds_of source.now) }
{
    let lines = lines_of(alloc, source)?;
    let mut folds = Vec::new(alloc);
    let mut after_comment = false;
    for at in 0..lines.len() {
        let line = lines[at];
        push_folds_at(&mut folds, at, after_comment, line, &lines[at + 1..])?;
        after_comment = is_comment_line(line);
    }
    Ok(folds)
}
