//! The text of a block without its comments and line breaks, each byte with its offset.
ghost use Rattle.std.specs.Prelude.{◌≡◌, ◌^◌, ◌+◌, All, ◌<◌, ◌≤◌, ◌++◌, IfOk, OnOk, length};
ghost use Rattle.source_spans.specs.Folding.{FoldedIsComputed, FoldsAt, OffsetsLead, OneFoldingAt, folded_of, without_breaks};
ghost use Rattle.source_spans.specs.inside.Lines.{IsLineAt, left_at, range_at};

use memchr::memchr;
use std::alloc::{AllocError, Global};
use ti_text::is_white_space;

// Where the line ends that begins at `start`: at its newline, or at the end of the block.
fn line_end(block: &[u8], start: usize) -> usize
    requires { start < length block.now }
    ensures { IsLineAt block.now start result }
{
    match memchr(b'\n', &block[start..]) {
        Some(at) => start + at,
        None => block.len(),
    }
}

// Where a line begins as it is read: after a break, at its first byte that is not white space.
fn line_front(block: &[u8], start: usize, end: usize, joining: bool) -> usize
    requires { IsLineAt block.now start end }
    ensures order { start ≤ result }
    ensures within { result ≤ end }
    ensures read { without_breaks joining (range_at block.now start end) ≡ range_at block.now result end }
{
    if !joining {
        return start;
    }
    for at in start..end {
        if !is_white_space(block[at]) {
            return at;
        }
    }
    end
}

// Appends the bytes from `start` to before `end`, each with its offset.
fn push_range(
    text: &mut Vec<(u8, usize)>,
    block: &[u8],
    start: usize,
    end: usize,
) -> Result<(), AllocError>
    requires order { start ≤ end }
    requires within { end ≤ length block.now }
    ensures { OnOk result (text.new.items ≡ text.old.items ++ range_at block.now start end) }
{
    for at in start..end {
        text.push((block[at], at))?;
    }
    Ok(())
}

// Appends what is read of a line, which is after a break if `joining` says so: nothing of a
// comment. Returns whether the next line is after a break.
fn push_line(
    text: &mut Vec<(u8, usize)>,
    block: &[u8],
    start: usize,
    end: usize,
    joining: bool,
) -> Result<bool, AllocError>
    requires some { start < length block.now }
    requires line { IsLineAt block.now start end }
    ensures { IfOk result (λ after. text.new.items ++ left_at block.now after (end + 1) ≡ text.old.items ++ left_at block.now joining start) }
{
    if block[start] == b'#' {
        return Ok(joining);
    }
    let front = line_front(block, start, end, joining);
    push_range(text, block, front, end)?;
    Ok(true)
}

/// The text of a block as it is read, each byte with its offset in the block.
///
/// # Errors
/// Out of memory.
pub fn folded(alloc: Global, block: &[u8]) -> Result<Vec<(u8, usize)>, AllocError>
    ensures text { IfOk result (λ text. FoldsAt block.now text.items) }
    ensures offsets { IfOk result (λ text. All (λ x. x.1 < 2 ^ 63) text.items) }
    ensures computed { IfOk result (λ text. text.items ≡ folded_of block.now) }
{
    let mut text = Vec::with_capacity(alloc, block.len())?;
    let mut joining = false;
    let mut start = 0;
    while start < block.len() {
        let end = line_end(block, start);
        joining = push_line(&mut text, block, start, end, joining)?;
        start = end + 1;
    }
    Ok(text)
}

/// A law, with no code: a block has one folded text, and each byte of it is that of the block at
/// its offset.
pub fn one_folding_at()
    ensures one { OneFoldingAt }
    ensures offsets { OffsetsLead }
    ensures computed { FoldedIsComputed }
{}
