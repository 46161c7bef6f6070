//! A comma that is missing after a string or a boolean.
ghost use Rattle.std.specs.Prelude.{◌≡◌, ◌+◌, ◌^◌, ◌<◌, ◌≤◌, IfSome, drop, length, option_and_then, take};
ghost use Rattle.ti_source.specs.Stating.{statement_seen};
ghost use Rattle.source_block_hints.specs.Commas as spec;

use crate::found::{Found, front_of, rest_of};
use crate::hint::HintKind;
use crate::mentions::mention_of;
use source_spans::Part;
use ti_source::{Claim, Statement, statement_of};

// How many bytes are read for a name and its `=`.
const NAME_AND_MARK_MAX: usize = 9;

// The length of the name that a text begins with, if it is that of a string and a `=` is after it.
fn name_len_at(text: &[u8]) -> Option<usize>
    ensures len { result ≡ spec.name_len_at text.now }
    ensures small { IfSome result (λ len. len < 2 ^ 63) }
{
    let statement = statement_of(front_of(text, NAME_AND_MARK_MAX))?;
    match statement.claim {
        Claim::Text(_) => match mention_of(&statement) {
            Some(_) => Some(statement.name.len()),
            None => None,
        },
        _ => None,
    }
}

// The name of a string that a text begins with, which is at this offset of its item.
fn name_found(text: &[u8], at: usize) -> Option<Found>
    requires { at ≤ 2 ^ 63 }
    ensures { result ≡ spec.name_found at (spec.name_len_at text.now) }
{
    let len = name_len_at(text)?;
    Some(Found {
        kind: HintKind::MissingComma,
        part: Part {
            start: at,
            end: at + len,
        },
    })
}

/// The first name of a string, with its `=`, in a text that is at this offset of its item.
pub(crate) fn name_from(text: &[u8], from: usize) -> Option<Found>
    requires { from + length text.now ≤ 2 ^ 63 + 1 }
    ensures { result ≡ spec.name_from from text.now }
{
    let mut at = from;
    let mut rest = text;
    while let Some((_, after)) = rest.split_first() {
        if let Some(found) = name_found(rest, at) {
            return Some(found);
        }
        at += 1;
        rest = after;
    }
    None
}

// Whether a statement is that a terminal has a boolean.
fn says_flag(statement: &Statement<'_>) -> bool
    ensures { result ≡ spec.says_flag (statement_seen statement.now) }
{
    match statement.claim {
        Claim::Flag => mention_of(statement).is_some(),
        _ => false,
    }
}

// Whether a text says that a terminal has a boolean.
fn says_boolean(text: &[u8]) -> bool
    ensures { result ≡ spec.says_boolean text.now }
{
    match statement_of(text) {
        Some(statement) => says_flag(&statement),
        None => false,
    }
}

// The length of the name of the capability that a statement is of.
fn said_name_len(statement: &Statement<'_>) -> Option<usize>
    ensures len { result ≡ spec.said_name_len (statement_seen statement.now) }
    ensures small { IfSome result (λ len. len < 2 ^ 63) }
{
    match mention_of(statement) {
        Some(_) => Some(statement.name.len()),
        None => None,
    }
}

// A capability at this offset of a text, if all before it says a boolean.
fn after_boolean(text: &[u8], at: usize) -> Option<Found>
    requires { at ≤ 2 ^ 63 }
    ensures { result ≡ spec.after_boolean text.now at }
{
    if !says_boolean(front_of(text, at)) {
        return None;
    }
    let statement = statement_of(rest_of(text, at))?;
    let len = said_name_len(&statement)?;
    Some(Found {
        kind: HintKind::MissingComma,
        part: Part {
            start: at,
            end: at + len,
        },
    })
}

// Whether the next byte of an item is on another line.
fn is_line_break(byte: (u8, usize), rest: &[(u8, usize)]) -> bool
    ensures { result ≡ spec.is_line_break byte rest.now }
{
    match rest.first() {
        Some(next) => byte.1 < next.1 && 1 < next.1 - byte.1,
        None => false,
    }
}

// A capability after a byte of an item, where the rest begins at this offset, if it is on another
// line and all before it says a boolean.
fn broken_at(text: &[u8], at: usize, byte: (u8, usize), rest: &[(u8, usize)]) -> Option<Found>
    requires { at ≤ 2 ^ 63 }
    ensures { result ≡ spec.broken_at text.now at byte rest.now }
{
    if is_line_break(byte, rest) {
        after_boolean(text, at)
    } else {
        None
    }
}

/// The first capability on another line than a boolean that is all before it in an item of this
/// text.
pub(crate) fn broken_from(text: &[u8], item: &[(u8, usize)]) -> Option<Found>
    requires { length item.now ≤ 2 ^ 63 }
    ensures { result ≡ spec.broken_from text.now 0 item.now }
{
    let mut at = 0;
    let mut rest = item;
    while let Some((byte, after)) = rest.split_first() {
        at += 1;
        if let Some(found) = broken_at(text, at, *byte, after) {
            return Some(found);
        }
        rest = after;
    }
    None
}
