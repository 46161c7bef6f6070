//! A line of a source as it is shown, with a mark below a part of it.
ghost use Rattle.std.specs.Prelude.{◌≡◌, ◌++◌, OnOk, drop, map, replicate, take};
ghost use Rattle.everyday_forms.specs.Excerpts as spec;
ghost use Rattle.everyday_forms.specs.Excerpts.{below_byte, excerpt_at, excerpt_text, mark_size, shown_byte};

use std::alloc::AllocError;

// The most bytes of a line that are shown.
const EXCERPT_MAX: usize = 160;

// What of a text is from an offset on.
fn after(text: &[u8], offset: usize) -> &[u8]
    ensures { result.now ≡ drop offset text.now }
{
    &text[offset.min(text.len())..]
}

// The first bytes of a text, at most that many.
#[tactic(auto, using(std::proofs::lemmas::List::take_min))]
fn front(text: &[u8], most: usize) -> &[u8]
    ensures { result.now ≡ take most text.now }
{
    &text[..most.min(text.len())]
}

// What of a line is shown, if the mark begins at that offset.
fn excerpt_text(line: &[u8], offset: usize) -> &[u8]
    ensures { result.now ≡ excerpt_text line.now offset }
{
    if line.len() <= EXCERPT_MAX {
        return line;
    }
    front(after(line, offset), EXCERPT_MAX)
}

// Where in it the mark begins.
fn excerpt_at(line: &[u8], offset: usize) -> usize
    ensures { result ≡ excerpt_at line.now offset }
{
    if line.len() <= EXCERPT_MAX { offset } else { 0 }
}

// A byte as it is shown.
fn shown_byte(byte: u8) -> u8
    ensures { result ≡ shown_byte byte }
{
    match byte {
        b'\t' | b' '..=b'~' => byte,
        _ => b'?',
    }
}

// What stands below a byte before the mark.
fn below_byte(byte: u8) -> u8
    ensures { result ≡ below_byte byte }
{
    if byte == b'\t' { b'\t' } else { b' ' }
}

// Adds a line as it is shown.
fn push_shown(out: &mut Vec<u8>, text: &[u8]) -> Result<(), AllocError>
    ensures { OnOk result (out.new.items ≡ out.old.items ++ map shown_byte text.now) }
{
    for byte in text {
        out.push(shown_byte(*byte))?;
    }
    Ok(())
}

// Adds what stands below the bytes before a mark.
fn push_below(out: &mut Vec<u8>, text: &[u8]) -> Result<(), AllocError>
    ensures { OnOk result (out.new.items ≡ out.old.items ++ map below_byte text.now) }
{
    for byte in text {
        out.push(below_byte(*byte))?;
    }
    Ok(())
}

// Adds a byte that many times.
#[tactic(auto, using(crate::proofs::Marks::replicate_more))]
fn push_many(out: &mut Vec<u8>, byte: u8, count: usize) -> Result<(), AllocError>
    ensures { OnOk result (out.new.items ≡ out.old.items ++ replicate count byte) }
{
    for _at in 0..count {
        out.push(byte)?;
    }
    Ok(())
}

// Adds a mark below some bytes: `^`, and `~` below the second and those after it.
fn push_mark(out: &mut Vec<u8>, size: usize) -> Result<(), AllocError>
    ensures { OnOk result (out.new.items ≡ out.old.items ++ spec.mark size) }
{
    out.push(b'^')?;
    push_many(out, b'~', size.saturating_sub(1))
}

// How many bytes of a shown text a mark is below, if it begins there.
fn mark_size(text: &[u8], at: usize, size: usize) -> usize
    ensures { result ≡ mark_size text.now at size }
{
    size.min(text.len().saturating_sub(at))
}

/// Adds what of a line is shown: the line or, if it has over 160 bytes, what is from the mark on. A
/// byte that does not print is shown as `?`.
///
/// # Errors
/// Out of memory.
pub(crate) fn push_excerpt(out: &mut Vec<u8>, line: &[u8], offset: usize) -> Result<(), AllocError>
    ensures { OnOk result (out.new.items ≡ out.old.items ++ spec.excerpt line.now offset) }
{
    push_shown(out, excerpt_text(line, offset))?;
    out.extend_from_slice(b"\n")
}

/// Adds what is before the mark in the line below it.
///
/// # Errors
/// Out of memory.
pub(crate) fn push_indent(out: &mut Vec<u8>, line: &[u8], offset: usize) -> Result<(), AllocError>
    ensures { OnOk result (out.new.items ≡ out.old.items ++ spec.indent line.now offset) }
{
    let text = excerpt_text(line, offset);
    let at = excerpt_at(line, offset).min(text.len());
    push_below(out, &text[..at])
}

/// Adds the mark below that many bytes of the line.
///
/// # Errors
/// Out of memory.
pub(crate) fn push_mark_of(
    out: &mut Vec<u8>,
    line: &[u8],
    offset: usize,
    size: usize,
) -> Result<(), AllocError>
    ensures { OnOk result (out.new.items ≡ out.old.items ++ spec.mark_of line.now offset size) }
{
    let text = excerpt_text(line, offset);
    push_mark(out, mark_size(text, excerpt_at(line, offset), size))
}
