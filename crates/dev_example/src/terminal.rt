//! Drives a terminal: its entry is found, and a string of it expanded and padded.
use std::alloc::Global;
use ti_caps::{Kind, find};
use ti_layout::View;
use ti_param::{Line, ParamError, Statics, Value, expand, pad};
use tools_devices::{ToolError, Tree, locate};

/// The file of a terminal's entry in one place of a tree.
///
/// # Errors
/// `NoTerminal`, `ReadFault` or `Memory`.
pub fn find_entry<T: Tree>(
    alloc: Global,
    tree: &mut T,
    place: &str,
    name: &str,
) -> Result<Vec<u8>, ToolError> {
    let mut places = Vec::new(alloc);
    if places.push(String::from_str(alloc, place)?).is_err() {
        return Err(ToolError::Memory);
    }
    locate(alloc, tree, name, places.as_slice())
}

// The string of a capability, as it is in the entry.
fn text<'a>(view: &View<'a>, name: &[u8]) -> Option<&'a [u8]> {
    match find(name) {
        Some(cap) if cap.kind() == Kind::Text => view.text(cap),
        _ => None,
    }
}

// Whether the entry has a boolean.
fn flag(view: &View<'_>, name: &[u8]) -> bool {
    match find(name) {
        Some(cap) if cap.kind() == Kind::Flag => view.flag(cap),
        _ => false,
    }
}

// The number of a capability, if the entry has one.
fn number(view: &View<'_>, name: &[u8]) -> Option<u32> {
    match find(name) {
        Some(cap) if cap.kind() == Kind::Number => view.number(cap),
        _ => None,
    }
}

// The line to the terminal at this many bits per second.
fn line(view: &View<'_>, rate: u32) -> Line {
    let pad_byte = match text(view, b"pad") {
        Some([first, ..]) => *first,
        _ => 0,
    };
    Line {
        rate,
        xon: flag(view, b"xon"),
        pad_from: number(view, b"pb").unwrap_or(0),
        pad_byte: if flag(view, b"npc") {
            None
        } else {
            Some(pad_byte)
        },
    }
}

// A parameter, or the number 0 if it is not given.
fn parameter<'a>(words: &[Value<'a>], place: usize) -> Value<'a> {
    match words.get(place) {
        Some(word) => *word,
        None => Value::default(),
    }
}

// The nine parameters that a string is expanded with.
fn parameters<'a>(words: &[Value<'a>]) -> [Value<'a>; 9] {
    [
        parameter(words, 0),
        parameter(words, 1),
        parameter(words, 2),
        parameter(words, 3),
        parameter(words, 4),
        parameter(words, 5),
        parameter(words, 6),
        parameter(words, 7),
        parameter(words, 8),
    ]
}

/// What a string of the entry sends to the terminal: expanded with up to nine parameters, and
/// padded for a line of `rate` bits per second. It is empty if the entry has no such string, or the
/// string is bad.
///
/// # Errors
/// `Memory`.
pub fn string_for(
    alloc: Global,
    view: &View<'_>,
    name: &[u8],
    words: &[Value<'_>],
    rate: u32,
) -> Result<Vec<u8>, ToolError> {
    let Some(format) = text(view, name) else {
        return Ok(Vec::new(alloc));
    };
    let mut statics = Statics::new();
    let sent = match expand(alloc, format, &parameters(words), &mut statics) {
        Ok(sent) => sent,
        Err(ParamError::Memory) => return Err(ToolError::Memory),
        Err(_) => return Ok(Vec::new(alloc)),
    };
    match pad(alloc, sent.as_slice(), 1, &line(view, rate)) {
        Ok(padded) => Ok(padded),
        Err(_) => Err(ToolError::Memory),
    }
}
