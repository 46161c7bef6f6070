//! A row: what its call is given, and what the call says.
use crate::words::RowError::{self, Bad};
use std::alloc::{AllocError, Global};
use std::fmt::{Display, Write};
use std::str;
use ti_caps::Kind;

/// What comes of a step of a call.
pub type RowResult<T = ()> = Result<T, RowError>;

/// No call has the name.
pub const NO_CALL: RowError = Bad("there is no such call");

/// The words that a call is given, and those that it says one after another.
///
/// A method that reads a word gives `Bad` if the word is not there or is of another form. One that
/// says a word can only run out of memory.
#[derive(Drop)]
pub struct Row<'a> {
    pub alloc: Global,
    words: &'a [Vec<u8>],
    said: String,
}

/// A word as text. `Bad` if it is not UTF-8.
pub fn text_of(word: &[u8]) -> RowResult<&str> {
    str::from_utf8(word).map_err(|_| Bad("a word is to be text"))
}

/// A word as a count or a place. `Bad` if it is not a number.
pub fn count_of(word: &[u8]) -> RowResult<usize> {
    text_of(word)?
        .parse::<usize>()
        .map_err(|_| Bad("a word is to be a count"))
}

// Adds a byte of a word, which is an escape if no sign is for it.
fn push_byte(text: &mut String, byte: u8) -> Result<(), AllocError> {
    match byte {
        0x1b => text.push_str("\\E"),
        b'\n' => text.push_str("\\n"),
        b'\r' => text.push_str("\\r"),
        b'\t' => text.push_str("\\t"),
        b' ' => text.push_str("\\s"),
        b'\\' => text.push_str("\\\\"),
        b'"' => text.push_str("\\\""),
        b'!'..=b'~' => text.push(char::from(byte)),
        _ => write!(text, "\\{byte:03o}"),
    }
}

// Adds a word, after a blank if there is one before it.
fn push_word(text: &mut String, word: &[u8]) -> Result<(), AllocError> {
    if !text.is_empty() {
        text.push_str(" ")?;
    }
    if word.is_empty() {
        return text.push_str("\"\"");
    }
    for byte in word {
        push_byte(text, *byte)?;
    }
    Ok(())
}

/// Words as a row shows them.
///
/// # Errors
/// Out of memory.
pub fn shown(alloc: Global, words: &[Vec<u8>]) -> Result<String, AllocError> {
    let mut text = String::new(alloc);
    for word in words {
        push_word(&mut text, word)?;
    }
    Ok(text)
}

impl<'a> Row<'a> {
    /// A call that is given these words, and has said nothing yet.
    pub fn new(alloc: Global, words: &'a [Vec<u8>]) -> Row<'a> {
        let said = String::new(alloc);
        Row { alloc, words, said }
    }

    /// How many words there are.
    pub fn len(&self) -> usize {
        self.words.len()
    }

    /// All words from this on.
    pub fn from(&self, at: usize) -> &'a [Vec<u8>] {
        self.words.get(at..).unwrap_or(&[])
    }

    /// The bytes of a word.
    pub fn bytes(&self, at: usize) -> RowResult<&'a [u8]> {
        match self.words.get(at) {
            Some(word) => Ok(word.as_slice()),
            None => Err(Bad("the call takes more words")),
        }
    }

    /// A word as text.
    pub fn text(&self, at: usize) -> RowResult<&'a str> {
        text_of(self.bytes(at)?)
    }

    /// A count or a place.
    pub fn count(&self, at: usize) -> RowResult<usize> {
        count_of(self.bytes(at)?)
    }

    /// A number of 32 bits.
    pub fn number(&self, at: usize) -> RowResult<u32> {
        self.text(at)?
            .parse::<u32>()
            .map_err(|_| Bad("a word is to be a number"))
    }

    /// A number of 32 bits with a sign.
    pub fn signed(&self, at: usize) -> RowResult<i32> {
        self.text(at)?
            .parse::<i32>()
            .map_err(|_| Bad("a word is to be a number"))
    }

    /// A kind of capability: `boolean`, `number` or `string`.
    pub fn kind(&self, at: usize) -> RowResult<Kind> {
        match self.text(at)? {
            "boolean" => Ok(Kind::Flag),
            "number" => Ok(Kind::Number),
            "string" => Ok(Kind::Text),
            _ => Err(Bad("a word is to be boolean, number or string")),
        }
    }

    /// Says a word.
    pub fn say(&mut self, word: &[u8]) -> RowResult {
        Ok(push_word(&mut self.said, word)?)
    }

    /// Says a text.
    pub fn say_text(&mut self, text: &str) -> RowResult {
        self.say(text.as_bytes())
    }

    /// Says a number, or what else is shown as text.
    pub fn show<T: Display>(&mut self, shown: &T) -> RowResult {
        let text = format!(in self.alloc; "{shown}")?;
        self.say(text.as_bytes())
    }

    /// Says `yes` or `no`.
    pub fn say_yes(&mut self, holds: bool) -> RowResult {
        self.say(if holds { b"yes" } else { b"no" })
    }

    /// Says a word, and `none` if there is none.
    pub fn say_or_none(&mut self, word: Option<&[u8]>) -> RowResult {
        self.say(word.unwrap_or(b"none"))
    }

    /// Says `error` and the cause.
    pub fn fail(&mut self, cause: &str) -> RowResult {
        self.say(b"error")?;
        self.say_text(cause)
    }

    /// What was said.
    pub fn said(&self) -> &str {
        self.said.as_str()
    }
}
