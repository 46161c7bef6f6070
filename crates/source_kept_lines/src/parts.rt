//! The parts of a line, each up to the comma that ends the names field or an item.
ghost use Rattle.std.specs.Prelude.{◌≡◌, ◌<◌, ◌≤◌, [], IfNone, IfSome, MatchOption, length};
ghost use Rattle.source_kept_lines.specs.Parts as spec;
ghost use Rattle.source_kept_lines.specs.inside.Steps.{HasNoGap, IsFirstPart, part_after, part_size};

use crate::fronts::split_front;
use ti_text::is_white_space;

/// How far a block is read.
#[derive(Clone, Copy)]
pub(crate) enum Reached {
    /// Within the names field.
    Names,
    /// After a comma, and no item is begun.
    NoItem,
    /// Within an item.
    Item,
    /// Within one, just after a `%`.
    Percent,
    /// Within one, just after a backslash, which takes the next byte.
    Backslash,
    /// Within one, just after a `^`, which takes the next byte, if that is no comma.
    Caret,
}

// What is reached by a byte of an item that nothing takes; whether a `%` is just before it.
fn by_byte(percent: bool, byte: u8) -> Reached
    ensures { result ≡ spec.by_byte percent byte }
{
    match byte {
        b',' => Reached::NoItem,
        b'\\' => Reached::Backslash,
        b'^' if !percent => Reached::Caret,
        b'%' => Reached::Percent,
        _ => Reached::Item,
    }
}

// What is reached by a byte that a backslash or a `^` takes.
fn by_taken(byte: u8) -> Reached
    ensures { result ≡ spec.by_taken byte }
{
    if byte == b'%' {
        Reached::Percent
    } else {
        Reached::Item
    }
}

impl Reached {
    /// Whether no item is begun.
    pub(crate) fn is_between(self) -> bool
        ensures { result ≡ spec.is_between self }
    {
        matches!(self, Reached::NoItem)
    }

    // Whether a byte ends the names field or an item.
    fn ends(self, byte: u8) -> bool
        ensures { result ≡ spec.ends self byte }
    {
        match self {
            Reached::Backslash => false,
            _ => byte == b',',
        }
    }

    /// What is reached by a byte.
    pub(crate) fn after_byte(self, byte: u8) -> Reached
        ensures { result ≡ spec.after_byte self byte }
    {
        match self {
            Reached::Names if byte == b',' => Reached::NoItem,
            Reached::Names => Reached::Names,
            Reached::NoItem if is_white_space(byte) => Reached::NoItem,
            Reached::NoItem | Reached::Item => by_byte(false, byte),
            Reached::Percent => by_byte(true, byte),
            Reached::Caret if byte == b',' => Reached::NoItem,
            Reached::Backslash | Reached::Caret => by_taken(byte),
        }
    }
}

/// The first part of a text, and what comes after it.
#[derive(Clone, Copy)]
pub(crate) struct Part<'a> {
    /// Its bytes, with the comma that ends it if one does.
    pub(crate) text: &'a [u8],
    /// What is reached by it.
    pub(crate) reached: Reached,
    /// What is after it.
    pub(crate) rest: &'a [u8],
}

// A text without the white space before an item.
fn without_gap(reached: Reached, text: &[u8]) -> &[u8]
    ensures parts { spec.parts reached result.now ≡ spec.parts reached text.now }
    ensures after { spec.after reached result.now ≡ spec.after reached text.now }
    ensures begun { HasNoGap reached result.now }
    ensures shorter { length result.now ≤ length text.now }
{
    if reached.is_between() {
        split_front(text).1
    } else {
        text
    }
}

// How many bytes the first part of a text has that does not begin with white space before an item, and
// what is reached by it.
fn part_end(reached: Reached, text: &[u8]) -> (usize, Reached)
    ensures size { result.0 ≡ part_size reached text.now }
    ensures reached { result.1 ≡ part_after reached text.now }
    ensures within { result.0 ≤ length text.now }
{
    let mut so_far = reached;
    for (at, byte) in text.iter().enumerate() {
        let before = so_far;
        so_far = so_far.after_byte(*byte);
        if before.ends(*byte) {
            return (at + 1, so_far);
        }
    }
    (text.len(), so_far)
}

/// The first part of a text, without white space before it; `None` if there is nothing else.
pub(crate) fn first_part(reached: Reached, text: &[u8]) -> Option<Part<'_>>
    ensures part { MatchOption result (spec.parts reached text.now ≡ []) (λ part. IsFirstPart reached text.now part.text.now part.reached part.rest.now) }
    ensures none { IfNone result (spec.after reached text.now ≡ reached) }
    ensures shorter { IfSome result (λ part. length part.rest.now < length text.now) }
{
    let text = without_gap(reached, text);
    if text.is_empty() {
        return None;
    }
    let (end, after) = part_end(reached, text);
    Some(Part {
        text: &text[..end],
        reached: after,
        rest: &text[end..],
    })
}
