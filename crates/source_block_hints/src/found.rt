//! What is found in a part of a block, and as a hint on it.
ghost use Rattle.std.specs.Prelude.{◌≡◌, ◌^◌, ◌++◌, ◌<◌, ◌≤◌, All, List, OnOk, ℕ, drop, length, map, option_to_list, take};
ghost use Rattle.ti_source.specs.Folding.{PlacedByte};
ghost use Rattle.source_spans.specs.Parts.{part_of};
ghost use Rattle.source_spans.specs.Subjects as subjects;
ghost use Rattle.source_block_hints.specs.Blocks as spec;

use crate::hint::{Hint, HintKind};
use source_spans::{Part, span_of};
use std::alloc::AllocError;

/// What is found in an item or in the names field.
#[derive(Clone, Copy)]
pub struct Found {
    /// What it is.
    pub kind: HintKind,
    /// What the message quotes, in bytes of the text of the item.
    pub part: Part,
}

// A part of a text of that length, without what is past its end.
fn clamped(part: Part, len: usize) -> Part
    ensures order { result.start ≤ result.end }
    ensures within { result.end ≤ len }
    ensures same { (text : List PlacedByte) → length text ≡ len → part_of text result ≡ part_of text part }
{
    let end = part.end.min(len);
    Part {
        start: part.start.min(end),
        end,
    }
}

// A span, or the start of the block if there is none.
fn span_or_start(span: Option<Part>) -> Part
    ensures { result ≡ subjects.span_or_start span }
{
    match span {
        Some(span) => span,
        None => Part { start: 0, end: 0 },
    }
}

// What is found in a part of a folded text, as a hint on it.
fn hint_on(item: &[(u8, usize)], found: Found) -> Hint
    requires { All (λ x. x.1 < 2 ^ 63) item.now }
    ensures { result ≡ spec.hint_on item.now found }
{
    let whole = Part {
        start: 0,
        end: item.len(),
    };
    let span = span_or_start(span_of(item, whole));
    let quoted = span_or_start(span_of(item, clamped(found.part, item.len())));
    Hint {
        kind: found.kind,
        start: span.start,
        end: span.end,
        detail_start: quoted.start,
        detail_end: quoted.end,
    }
}

/// Appends what is found in a part of a folded text, as hints on it.
///
/// # Errors
/// Out of memory.
pub fn push_hints(
    hints: &mut Vec<Hint>,
    item: &[(u8, usize)],
    found: &[Found],
) -> Result<(), AllocError>
    requires { All (λ x. x.1 < 2 ^ 63) item.now }
    ensures { OnOk result (hints.new.items ≡ hints.old.items ++ map (spec.hint_on item.now) found.now) }
{
    for one in found {
        hints.push(hint_on(item, *one))?;
    }
    Ok(())
}

/// Appends what is found, if something is.
pub(crate) fn push_found(found: &mut Vec<Found>, next: Option<Found>) -> Result<(), AllocError>
    ensures { OnOk result (found.new.items ≡ found.old.items ++ option_to_list next) }
{
    if let Some(next) = next {
        found.push(next)?;
    }
    Ok(())
}

/// What is left of a text from an offset on; nothing past its end.
pub(crate) fn rest_of(text: &[u8], at: usize) -> &[u8]
    ensures { result.now ≡ drop at text.now }
{
    &text[at.min(text.len())..]
}

/// The bytes of a text before an offset; all if the offset is past its end.
pub(crate) fn front_of(text: &[u8], at: usize) -> &[u8]
    ensures { result.now ≡ take at text.now }
{
    &text[..at.min(text.len())]
}
