//! Pieces as they are written.
ghost use Rattle.std.specs.Prelude.{◌≡◌, ℕ, ◌==◌, ◌+◌, ◌<◌, ◌≤◌, ◌^◌, ◌++◌, ◌∷◌, [], IfOk, OnOk, drop, length, map};
ghost use Rattle.source_format.specs.Layout as spec;
ghost use Rattle.source_format.specs.Pieces.{item, kept, kept_piece, lines_before, lines_from};
ghost use Rattle.source_format.specs.inside.Steps.{Lays, line_seen, place_seen};
ghost use Rattle.ti_text.specs.Ascii as ascii;

use crate::kinds::kind_of;
use crate::lines::KeptLine;
use crate::places::{Place, columns};
use std::alloc::AllocError;

// What comes before an item: at the start of a line, or after a space if `on`, or on a new line.
fn push_gap(out: &mut Vec<u8>, start: bool, on: bool) -> Result<(), AllocError>
    ensures { OnOk result (out.new.items ≡ out.old.items ++ spec.gap start on) }
{
    if start {
        out.push(b'\t')?;
    } else if on {
        out.push(b' ')?;
    } else {
        out.push(b'\n')?;
        out.push(b'\t')?;
    }
    Ok(())
}

// The text of an item, and the comma if one ends it.
fn push_text(out: &mut Vec<u8>, text: &[u8], ended: bool) -> Result<(), AllocError>
    ensures { OnOk result (out.new.items ≡ out.old.items ++ spec.item_bytes text.now ended) }
{
    out.extend_from_slice(text)?;
    if ended {
        out.push(b',')?;
    }
    Ok(())
}

// How many columns an item takes with its comma.
fn item_columns(text: &[u8], ended: bool) -> u128
    ensures size { result ≡ spec.columns (spec.item_bytes text.now ended) }
    ensures bound { result ≤ 2 ^ 67 }
{
    if ended {
        columns(text) + 1
    } else {
        columns(text)
    }
}

/// Writes an item, and gives the place after it.
///
/// # Errors
/// Out of memory.
pub(crate) fn push_item(
    out: &mut Vec<u8>,
    width: usize,
    place: Place,
    text: &[u8],
    ended: bool,
) -> Result<Place, AllocError>
    ensures { IfOk result (λ after. Lays width out.old.items (place_seen place) (item text.now ended ∷ []) out.new.items (place_seen after)) }
{
    let kind = kind_of(text);
    let size = item_columns(text, ended);
    push_gap(out, place.is_start(), place.goes_on(width, kind, size))?;
    push_text(out, text, ended)?;
    Ok(place.after(width, kind, size))
}

/// Ends the line, if one is begun.
///
/// # Errors
/// Out of memory.
pub(crate) fn end_line(out: &mut Vec<u8>, place: Place) -> Result<(), AllocError>
    ensures { OnOk result (out.new.items ≡ out.old.items ++ spec.line_end (place.column == 0)) }
{
    if !place.is_start() {
        out.push(b'\n')?;
    }
    Ok(())
}

/// Writes a kept line.
///
/// # Errors
/// Out of memory.
pub(crate) fn push_kept(out: &mut Vec<u8>, place: Place, text: &[u8]) -> Result<(), AllocError>
    ensures { OnOk result ((width : ℕ) → Lays width out.old.items (place_seen place) (kept text.now ∷ []) out.new.items spec.line_start) }
{
    end_line(out, place)?;
    out.extend_from_slice(text)?;
    out.push(b'\n')?;
    Ok(())
}

/// Writes the kept lines from the index `at` on that are before the line of a number. Gives the
/// index after them, and the place.
///
/// # Errors
/// Out of memory.
pub(crate) fn push_lines_before(
    out: &mut Vec<u8>,
    place: Place,
    lines: &[KeptLine<'_>],
    at: usize,
    number: usize,
) -> Result<(usize, Place), AllocError>
    requires { at ≤ length lines.now }
    ensures lays { IfOk result (λ left. (width : ℕ) → Lays width out.old.items (place_seen place) (map kept_piece (lines_before number (map line_seen (drop at lines.now)))) out.new.items (place_seen left.1)) }
    ensures left { IfOk result (λ left. map line_seen (drop left.0 lines.now) ≡ lines_from number (map line_seen (drop at lines.now))) }
    ensures within { IfOk result (λ left. left.0 ≤ length lines.now) }
{
    let mut next = at;
    let mut after = place;
    while next < lines.len() && lines[next].number < number {
        push_kept(out, after, lines[next].text)?;
        after = Place::start();
        next += 1;
    }
    Ok((next, after))
}

/// Writes kept lines, and gives the place after them.
///
/// # Errors
/// Out of memory.
pub(crate) fn push_lines(
    out: &mut Vec<u8>,
    place: Place,
    lines: &[KeptLine<'_>],
) -> Result<Place, AllocError>
    ensures { IfOk result (λ after. (width : ℕ) → Lays width out.old.items (place_seen place) (map kept_piece (map line_seen lines.now)) out.new.items (place_seen after)) }
{
    let mut after = place;
    for line in lines {
        push_kept(out, after, line.text)?;
        after = Place::start();
    }
    Ok(after)
}
