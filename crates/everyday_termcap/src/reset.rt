//! Makes `me` of `sgr0`.
ghost use Rattle.std.specs.Prelude.{◌≡◌, ◌≤◌, ◌<◌, ◌+◌, ◌++◌, drop, take, length, map, option_map, IfOk, IfSome, OnOk};
ghost use Rattle.std.specs.Option.{option_copied};
ghost use Rattle.ti_layout.specs.View.{view_contents};
ghost use Rattle.ti_param.specs.Meaning.{argument_of};
ghost use Rattle.everyday_termcap.specs.Contents.{text_said};
ghost use Rattle.everyday_termcap.specs.Reset.{are_alike, are_delays, are_similar, begins_with, after_zeros, delay_length, font_of, is_in_delay, is_letter, is_sequence, matched, moved, number_length};
ghost use Rattle.everyday_termcap.specs.Reset.{parameters_of, part_from, part_of, plain_text, rest_of_delay, same_from, same_of, set_text, trimmed, without, without_part, zero_size};
ghost use Rattle.everyday_termcap.specs.Reset.{IsPlain, IsPlainOf, Writes};

use crate::contents::text_said;
use everyday_converting::{after, begins, byte_at};
use std::alloc::{AllocError, Global};
use ti_layout::View;
use ti_param::{ParamError, Statics, Value, expand};

/// A part of a text.
#[derive(Clone, Copy)]
pub(crate) struct Part {
    /// Where it is.
    pub place: usize,
    /// How many bytes it has.
    pub size: usize,
}

// Whether a delay may have this byte before its `>`.
fn is_in_delay(byte: u8) -> bool
    ensures { result ≡ is_in_delay byte }
{
    byte.is_ascii_digit() || byte == b'/'
}

// How many bytes of a number are at the front of a text.
fn number_length(text: &[u8]) -> usize
    ensures is { result ≡ number_length text.now }
    ensures within { result ≤ length text.now }
{
    text.iter().take_while(|byte| is_in_delay(**byte)).count()
}

// How many bytes of a delay are after its `$<`.
fn rest_of_delay(text: &[u8]) -> usize
    ensures is { result ≡ rest_of_delay text.now }
    ensures within { result ≤ length text.now }
{
    let size = number_length(text);
    if byte_at(text, size) == b'>' {
        size + 1
    } else {
        size
    }
}

// How many bytes the delay at the front of a text has; 0 if there is none.
fn delay_length(text: &[u8]) -> usize
    ensures is { result ≡ delay_length text.now }
    ensures within { result ≤ length text.now }
{
    if begins(text, b"$<") {
        2 + rest_of_delay(after(text, 2))
    } else {
        0
    }
}

// Whether a text begins with this byte.
fn begins_with(byte: u8, text: &[u8]) -> bool
    ensures { result ≡ begins_with byte text.now }
{
    !text.is_empty() && byte_at(text, 0) == byte
}

// Whether delays are at the front of both.
fn are_delays(one: &[u8], other: &[u8]) -> bool
    ensures { result ≡ are_delays one.now other.now }
{
    0 < delay_length(one) && 0 < delay_length(other)
}

// How many bytes of a text are those of a part at its front, whatever its delays are.
fn matched(part: &[u8], text: &[u8]) -> usize
    ensures is { result ≡ matched part.now text.now }
    ensures within { result ≤ length text.now }
{
    let mut rest = part;
    let mut left = text;
    let mut used = 0usize;
    let mut pending = 0usize;
    while !rest.is_empty() {
        if !begins_with(byte_at(rest, 0), left) {
            return 0;
        }
        if are_delays(rest, left) {
            let sought = delay_length(rest);
            used += pending;
            pending = delay_length(left);
            rest = after(rest, sought);
            left = after(left, pending);
        } else {
            used += pending + 1;
            pending = 0;
            rest = after(rest, 1);
            left = after(left, 1);
        }
    }
    used
}

// The first place of a text with a part, from a place on, at so many places.
#[tactic(auto, unfolding(crate::specs::Reset::part_from))]
fn part_from(text: &[u8], sought: &[u8], place: usize, tries: usize) -> Option<Part>
    requires { place + tries ≤ length text.now + 1 }
    ensures { result ≡ part_from text.now sought.now place tries }
{
    if tries == 0 {
        return None;
    }
    let size = matched(sought, after(text, place));
    if 0 < size {
        return Some(Part { place, size });
    }
    part_from(text, sought, place + 1, tries - 1)
}

// The part of a longer text.
fn part_of(text: &[u8], sought: &[u8]) -> Option<Part>
    ensures { result ≡ part_of text.now sought.now }
{
    if sought.len() < text.len() {
        part_from(text, sought, 0, text.len() - sought.len() + 1)
    } else {
        None
    }
}

// The first place of a text that is another text, from a place on, at so many places.
#[tactic(auto, unfolding(crate::specs::Reset::same_from))]
fn same_from(text: &[u8], sought: &[u8], place: usize, tries: usize) -> Option<Part>
    requires { place + tries ≤ length text.now + 1 }
    ensures { result ≡ same_from text.now sought.now place tries }
{
    if tries == 0 {
        return None;
    }
    if begins(after(text, place), sought) {
        return Some(Part {
            place,
            size: sought.len(),
        });
    }
    same_from(text, sought, place + 1, tries - 1)
}

// The first place of a longer text that is another text.
fn same_of(text: &[u8], sought: &[u8]) -> Option<Part>
    ensures { result ≡ same_of text.now sought.now }
{
    if sought.len() < text.len() {
        same_from(text, sought, 0, text.len() - sought.len() + 1)
    } else {
        None
    }
}

// The front of a text of so many bytes; all of it, if it has no more.
fn before(text: &[u8], size: usize) -> &[u8]
    ensures { result.now ≡ take size text.now }
{
    if size < text.len() {
        &text[..size]
    } else {
        text
    }
}

// A text without a part.
fn without(alloc: Global, text: &[u8], part: Part) -> Result<Vec<u8>, AllocError>
    ensures { IfOk result (λ out. out.items ≡ without text.now part) }
{
    let mut out = Vec::from_slice(alloc, before(text, part.place))?;
    out.extend_from_slice(after(after(text, part.place), part.size))?;
    Ok(out)
}

// How many bytes a first 0 of a sequence has, with the `;` after it.
fn zero_size(text: &[u8]) -> usize
    ensures is { result ≡ zero_size text.now }
    ensures within { result ≤ 2 }
{
    if byte_at(text, 0) != b'0' {
        return 0;
    }
    if byte_at(text, 1) == b';' {
        return 2;
    }
    if is_letter(byte_at(text, 1)) { 1 } else { 0 }
}

// Whether a byte is a letter.
fn is_letter(byte: u8) -> bool
    ensures { result ≡ is_letter byte }
{
    (b'a' <= byte && byte <= b'z') || (b'A' <= byte && byte <= b'Z')
}

// Whether a text begins a control sequence.
fn is_sequence(text: &[u8]) -> bool
    ensures { result ≡ is_sequence text.now }
{
    begins(text, b"\x1b[")
}

// Whether one text is the front of the other, and neither is empty.
fn are_alike(one: &[u8], other: &[u8]) -> bool
    ensures { result ≡ are_alike one.now other.now }
{
    !one.is_empty() && !other.is_empty() && (begins(one, other) || begins(other, one))
}

// The same of sequences, whatever a first 0 of them.
fn after_zeros(one: &[u8], other: &[u8]) -> bool
    ensures { result ≡ after_zeros one.now other.now }
{
    if byte_at(one, 0) == byte_at(other, 0) {
        return are_alike(one, other);
    }
    are_alike(after(one, zero_size(one)), after(other, zero_size(other)))
}

// Whether two texts do the same, but for what one of them does more.
#[tactic(auto, unfolding(crate::specs::Reset::are_similar))]
fn are_similar(one: &[u8], other: &[u8]) -> bool
    ensures { result ≡ are_similar one.now other.now }
{
    if is_sequence(one) && is_sequence(other) {
        return after_zeros(after(one, 2), after(other, 2));
    }
    are_alike(one, other)
}

// A text that begins with a sequence has it at its end.
#[tactic(auto, unfolding(crate::specs::Reset::moved))]
fn moved(alloc: Global, text: &[u8], front: &[u8]) -> Result<Vec<u8>, AllocError>
    ensures { IfOk result (λ out. out.items ≡ moved text.now front.now) }
{
    if front.len() < text.len() && begins(text, front) {
        let mut out = Vec::from_slice(alloc, after(text, front.len()))?;
        out.extend_from_slice(front)?;
        return Ok(out);
    }
    Vec::from_slice(alloc, text)
}

// The parameter 10 of a sequence.
#[tactic(auto, unfolding(crate::specs::Reset::font_of))]
fn font_of(text: &[u8]) -> Option<Part>
    ensures { result ≡ font_of text.now }
{
    let place = 2 + zero_size(after(text, 2));
    let size = zero_size(after(text, place + 1));
    if !(is_sequence(text) && byte_at(text, text.len().saturating_sub(1)) == b'm') {
        return None;
    }
    if !(byte_at(text, place) == b'1' && 0 < size) {
        return None;
    }
    if byte_at(text, place - 1) == b';' {
        return Some(Part {
            place: place - 1,
            size: size + 2,
        });
    }
    Some(Part {
        place,
        size: size + 1,
    })
}

// The end of all attributes without what ends the alternate character set, given the end as it is.
fn without_part(alloc: Global, off: &[u8], end: &[u8], set: &[u8]) -> Result<Vec<u8>, AllocError>
    ensures { IfOk result (λ out. out.items
        ≡ without_part (part_of off.now set.now) (font_of off.now) (same_of end.now off.now) off.now end.now) }
{
    if let Some(part) = part_of(off, set) {
        return without(alloc, off, part);
    }
    if let Some(part) = font_of(off) {
        return without(alloc, off, part);
    }
    if let Some(part) = same_of(end, off) {
        return without(alloc, end, part);
    }
    Vec::from_slice(alloc, off)
}

// The sequences of the alternate character set.
#[derive(Clone, Copy)]
struct Sets<'a> {
    begin: &'a [u8],
    end: &'a [u8],
}

// The string `sgr0`, given what `sgr` writes with the alternate character set on and off.
#[tactic(auto, unfolding(crate::specs::Reset::trimmed))]
fn trimmed(
    alloc: Global,
    ending: &[u8],
    on: &[u8],
    off: &[u8],
    sets: Sets<'_>,
) -> Result<Vec<u8>, AllocError>
    ensures { IfOk result (λ out. out.items ≡ trimmed ending.now on.now off.now sets.entry.begin.now sets.entry.end.now) }
{
    let with = moved(alloc, on, sets.begin)?;
    let plain = moved(alloc, off, sets.end)?;
    let end = moved(alloc, ending, sets.end)?;
    if are_similar(&plain, &end) && !are_similar(&plain, &with) {
        return without_part(alloc, &plain, &end, sets.end);
    }
    Vec::from_slice(alloc, ending)
}

// The parameters of `sgr`: none of the attributes is on, or the alternate character set.
fn parameters_of(set: bool) -> [Value<'static>; 9]
    ensures { map argument_of result ≡ parameters_of set }
{
    let none = Value::Number(0);
    let last = Value::Number(if set { 1 } else { 0 });
    [none, none, none, none, none, none, none, none, last]
}

// What `sgr` writes with the alternate character set on or off; `None` if it is no format that
// writes anything.
fn attributes(alloc: Global, format: &[u8], set: bool) -> Result<Option<Vec<u8>>, AllocError>
    ensures { IfOk result (λ out. Writes format.now set (option_map (λ text. text.items) out)) }
{
    let parameters = parameters_of(set);
    let mut statics = Statics::new();
    match expand(alloc, format, &parameters, &mut statics) {
        Ok(output) => Ok(Some(output)),
        Err(ParamError::Memory) => Err(AllocError),
        Err(ParamError::BadFormat(_place)) => Ok(None),
        Err(ParamError::StackFull(_place)) => Ok(None),
    }
}

// A sequence of the alternate character set, if it is kept.
fn set_text<'a>(view: &View<'a>, sets: bool, code: &[u8]) -> &'a [u8]
    ensures { result.now ≡ set_text (view_contents view.now) sets code.now }
{
    if !sets {
        return b"";
    }
    match text_said(view, code) {
        Some(text) => text,
        None => b"",
    }
}

// The `me` of an entry that has `sgr0`, given its `sgr`.
fn plain_of(
    alloc: Global,
    view: &View<'_>,
    sets: bool,
    ending: &[u8],
    format: Option<&[u8]>,
) -> Result<Vec<u8>, AllocError>
    ensures { IfOk result (λ out. IsPlainOf (view_contents view.now) sets ending.now (option_copied format.entry) out.items) }
{
    let Some(format) = format else {
        return Vec::from_slice(alloc, ending);
    };
    let on = attributes(alloc, format, true)?;
    let off = attributes(alloc, format, false)?;
    match (&on, &off) {
        (Some(on), Some(off)) => {
            let sets = Sets {
                begin: set_text(view, sets, b"as"),
                end: set_text(view, sets, b"ae"),
            };
            trimmed(alloc, ending, on, off, sets)
        }
        _ => Vec::from_slice(alloc, ending),
    }
}

/// The `me` of an entry: its `sgr0` without what ends the alternate character set, which readers of
/// termcap end by `ae`. `sets` says whether `as` and `ae` are kept.
///
/// # Errors
/// `AllocError` if memory ran out.
pub(crate) fn plain(
    alloc: Global,
    view: &View<'_>,
    sets: bool,
) -> Result<Option<Vec<u8>>, AllocError>
    ensures { IfOk result (λ out. IsPlain (view_contents view.now) sets (option_map (λ text. text.items) out)) }
{
    let Some(ending) = text_said(view, b"me") else {
        return Ok(None);
    };
    let text = plain_of(alloc, view, sets, ending, text_said(view, b"sa"))?;
    Ok(Some(text))
}
