//! The hints on a block, and what of the block is shown for each.
ghost use Rattle.std.specs.Prelude.{◌≡◌, ◌+◌, IfOk, length, map};
ghost use Rattle.std.specs.List.{slice_range};
ghost use Rattle.source_places.specs.LineTexts.{until_end};
ghost use Rattle.source_remarks.specs.Hints as spec;
ghost use Rattle.source_remarks.specs.Hints.{block_marks, mark_of};

use source_hints::{Hint, hints_of};
use source_places::{PlaceWalk, first_of};
use source_types::Range;
use std::alloc::{AllocError, Global};

/// A hint on a block, and what of the block is shown for it.
#[derive(Clone, Copy, Debug)]
pub struct HintMark {
    /// The hint.
    pub hint: Hint,
    /// What is shown, by the lines of the block.
    pub range: Range,
}

/// The bytes of a text from an offset to another, as far as the text has them.
pub(crate) fn bytes_between(text: &[u8], start: usize, end: usize) -> &[u8]
    ensures { result.now ≡ slice_range text.now start end }
{
    let rest = &text[start.min(text.len())..];
    let size = end.saturating_sub(start).min(rest.len());
    &rest[..size]
}

// Where the first line of a part of a text ends.
fn stop_of(text: &[u8], start: usize, end: usize) -> usize
    ensures { result ≡ start + length (until_end (slice_range text.now start end)) }
{
    start + first_of(bytes_between(text, start, end)).len()
}

// A hint, and what is shown for it.
fn mark_of(walk: &mut PlaceWalk<'_>, hint: Hint) -> HintMark
    ensures mark { result ≡ mark_of walk.old hint }
    ensures same { walk.new ≡ walk.old }
{
    let start = walk.place_of(hint.start);
    let stop = stop_of(walk.text(), hint.start, hint.end);
    let end = walk.place_of(stop);
    HintMark {
        hint,
        range: Range { start, end },
    }
}

/// The same of these hints on a block.
///
/// # Errors
/// Out of memory.
pub(crate) fn marks_of(
    alloc: Global,
    block: &[u8],
    hints: &[Hint],
) -> Result<Vec<HintMark>, AllocError>
    ensures { IfOk result (λ marks. marks.items ≡ map (mark_of block.now) hints.now) }
{
    let mut walk = PlaceWalk::new(block);
    let mut marks = Vec::with_capacity(alloc, hints.len())?;
    for hint in hints {
        marks.push(mark_of(&mut walk, *hint))?;
    }
    Ok(marks)
}

/// The hints on a block, by whether it may have user-defined capabilities, and what of it is shown
/// for each.
///
/// # Errors
/// Out of memory.
pub(crate) fn block_marks(
    alloc: Global,
    user_defined: bool,
    block: &[u8],
) -> Result<Vec<HintMark>, AllocError>
    ensures { IfOk result (λ marks. marks.items ≡ block_marks user_defined block.now) }
{
    let hints = hints_of(alloc, user_defined, block)?;
    marks_of(alloc, block, &hints)
}
