//! The values that a row gives: `NAME`, `NAME#N`, `NAME=BYTES` and `NAME@`, which cancels. Before a
//! name, `-` takes its value away, and `?` gives a value only if there is none. What is said of a name
//! is shown in the same way. A call gives `Bad` if a word is of another form, or memory runs out.
ghost use Rattle.std.specs.Prelude.{◌≤◌, ◌↔◌, IfOk, IsTrue};
ghost use Rattle.ti_layout.specs.Values.{Agrees, HasNoNul, content_of};

use crate::row::{RowResult, text_of};
use crate::words::RowError::{self, Bad};
use std::alloc::{AllocError, Global};
use std::rc::RcSlice;
use ti_caps::{Cap, Kind, find};
use ti_layout::{Content, Table, Value};

const NUMBER_MAX: u32 = 2_147_483_647;

/// No capability has the name.
pub const NO_CAPABILITY: RowError = Bad("a word is to name a capability");

/// Whether none of the bytes is a NUL.
pub fn has_no_nul(bytes: &[u8]) -> bool
    ensures { IsTrue result ↔ HasNoNul bytes.now }
{
    bytes.iter().all(|byte| *byte != 0)
}

/// The number of these digits, which is at most 2,147,483,647.
pub fn number_of(digits: &[u8]) -> RowResult<u32>
    ensures { IfOk result (λ number. number ≤ 2147483647) }
{
    match text_of(digits)?.parse::<u32>() {
        Ok(number) if number <= NUMBER_MAX => Ok(number),
        _ => Err(Bad("a value is to be a number")),
    }
}

/// The name and the rest of a word.
pub fn split(word: &[u8]) -> (&[u8], &[u8]) {
    let end = word
        .iter()
        .position(|byte| matches!(*byte, b'#' | b'=' | b'@'))
        .unwrap_or(word.len());
    (
        word.get(..end).unwrap_or(word),
        word.get(end..).unwrap_or(&[]),
    )
}

/// What is said after a name, which may be one of any kind.
pub fn content_of(rest: &[u8]) -> RowResult<Content<'_>> {
    match rest {
        [] => Ok(Content::True),
        [b'@'] => Ok(Content::Cancelled),
        [b'#', digits @ ..] => Ok(Content::Number(number_of(digits)?)),
        [b'=', text @ ..] => Ok(Content::Text(text)),
        _ => Err(Bad("a word is to say something of a name")),
    }
}

/// A value, with its string where it is.
pub fn shown(value: &Value) -> Content<'_> {
    match value {
        Value::True => Content::True,
        Value::Number(number) => Content::Number(*number),
        Value::Text(text) => Content::Text(text.as_slice()),
        Value::Cancelled => Content::Cancelled,
    }
}

/// A name, and what is said of it.
pub fn said(alloc: Global, name: &[u8], content: Content<'_>) -> Result<Vec<u8>, AllocError> {
    let mut word = Vec::from_slice(alloc, name)?;
    match content {
        Content::True => {}
        Content::Number(number) => {
            word.extend_from_slice(format!(in alloc; "#{number}")?.as_bytes())?;
        }
        Content::Text(text) => {
            word.push(b'=')?;
            word.extend_from_slice(text)?;
        }
        Content::Cancelled => word.push(b'@')?,
    }
    Ok(word)
}

/// The value that is after a name. `Bad` if the capability cannot have it.
pub fn value_of(alloc: Global, cap: Cap, rest: &[u8]) -> RowResult<Value>
    ensures { IfOk result (λ value. Agrees cap (content_of value)) }
{
    match rest {
        [] if cap.kind() == Kind::Flag => return Ok(Value::True),
        [b'@'] => return Ok(Value::Cancelled),
        [b'#', digits @ ..] if cap.kind() == Kind::Number => {
            return Ok(Value::Number(number_of(digits)?));
        }
        [b'=', text @ ..] if cap.kind() == Kind::Text => {
            let shared = RcSlice::from_slice(alloc, text)?;
            if has_no_nul(shared.as_slice()) {
                return Ok(Value::Text(shared));
            }
        }
        _ => {}
    }
    Err(Bad("a capability cannot have the value"))
}

// Gives a table a value, or takes one away.
fn put(alloc: Global, table: &mut Table, word: &[u8]) -> RowResult {
    let (mark, word) = match word {
        [b'-', word @ ..] => (b'-', word),
        [b'?', word @ ..] => (b'?', word),
        _ => (b' ', word),
    };
    let (name, rest) = split(word);
    let Some(cap) = find(name) else {
        return Err(NO_CAPABILITY);
    };
    match mark {
        b'-' => table.set(cap, None)?,
        b'?' => table.set_if_absent(cap, value_of(alloc, cap, rest)?)?,
        _ => table.set(cap, Some(value_of(alloc, cap, rest)?))?,
    }
    Ok(())
}

/// A table of the values of these words.
pub fn table_of(alloc: Global, words: &[Vec<u8>]) -> RowResult<Table> {
    let mut table = Table::new(alloc);
    for word in words {
        put(alloc, &mut table, word)?;
    }
    Ok(table)
}

/// The words before the first `+`, and those after it.
pub fn split_at_plus(words: &[Vec<u8>]) -> (&[Vec<u8>], &[Vec<u8>]) {
    let end = words
        .iter()
        .position(|word| word.as_slice() == b"+".as_slice())
        .unwrap_or(words.len());
    (
        words.get(..end).unwrap_or(words),
        words.get(end.saturating_add(1)..).unwrap_or(&[]),
    )
}
