//! The words of a row. Blanks are between words. A word in quotes holds blanks, and `""` is the empty
//! word. A backslash begins an escape:
//!
//! - `\E`, `\n`, `\r`, `\t`, `\b`, `\f`, `\s`: the bytes that they are in terminfo(5)
//! - `\` and up to three octal digits: the byte of that number, and NUL for 0
//! - `\(N:` .. `\)`: what is between, N times; in it `\i` is how many copies come before this one,
//!   and `\j` one more
//! - `\` and any other byte that is no letter: this byte
use std::alloc::{AllocError, AllocFailed, Global};
use std::mem;

/// Why a line is not a row, or a call is not made.
#[derive(Clone, Copy, Debug, PartialEq, Eq)]
pub enum RowError {
    /// The row is at fault, for this reason.
    Bad(&'static str),
    /// Out of memory.
    Memory,
}

impl From<AllocError> for RowError {
    fn from(_error: AllocError) -> RowError {
        RowError::Memory
    }
}

impl<T: Drop> From<AllocFailed<T>> for RowError {
    fn from(_error: AllocFailed<T>) -> RowError {
        RowError::Memory
    }
}

// The most copies of a piece, and the longest word.
const COPIES_MAX: usize = 2_000_000;

const WORD_MAX: usize = 4_000_000;

// Where the reader of a line is.
#[derive(Clone, Copy, PartialEq, Eq)]
enum Mode {
    Plain,
    // After the quote that ends a word.
    Closed,
    // After a backslash.
    Escape,
    // In a number of this value and this many digits.
    Octal(u32, u8),
    // In the count of copies.
    Copies,
}

// What is read of a line.
#[derive(Drop)]
struct Reader {
    alloc: Global,
    words: Vec<Vec<u8>>,
    // The word that is being read, if one is.
    bytes: Vec<u8>,
    is_word: bool,
    is_quoted: bool,
    mode: Mode,
    copies: usize,
    // Where the piece begins that is copied.
    piece: Option<usize>,
    // Where in the piece numbers of copies go, and that of the first copy.
    numbers: Vec<(usize, usize)>,
}

// The byte that a letter after a backslash is for.
fn escaped(byte: u8) -> Option<u8> {
    match byte {
        b'E' => Some(0x1b),
        b'n' => Some(b'\n'),
        b'r' => Some(b'\r'),
        b't' => Some(b'\t'),
        b'b' => Some(0x08),
        b'f' => Some(0x0c),
        b's' => Some(b' '),
        _ if byte.is_ascii_alphanumeric() => None,
        _ => Some(byte),
    }
}

fn octal_digit(byte: u8) -> Option<u32> {
    match byte {
        b'0'..=b'7' => Some(u32::from(byte - b'0')),
        _ => None,
    }
}

impl Reader {
    fn new(alloc: Global) -> Reader {
        Reader {
            alloc,
            words: Vec::new(alloc),
            bytes: Vec::new(alloc),
            is_word: false,
            is_quoted: false,
            mode: Mode::Plain,
            copies: 0,
            piece: None,
            numbers: Vec::new(alloc),
        }
    }

    fn push(&mut self, byte: u8) -> Result<(), RowError> {
        if self.bytes.len() >= WORD_MAX {
            return Err(RowError::Bad("a word is too long"));
        }
        self.is_word = true;
        self.mode = Mode::Plain;
        self.bytes.push(byte)?;
        Ok(())
    }

    // Ends the word that is being read, if one is.
    fn end_word(&mut self) -> Result<(), RowError> {
        if self.piece.is_some() {
            return Err(RowError::Bad("a word ends in a piece"));
        }
        if self.is_word {
            let word = mem::replace(&mut self.bytes, Vec::new(self.alloc));
            self.words.push(word)?;
        }
        self.is_word = false;
        self.is_quoted = false;
        Ok(())
    }

    // Ends a number, if one is being read.
    fn end_number(&mut self) -> Result<(), RowError> {
        let Mode::Octal(value, _) = self.mode else {
            return Ok(());
        };
        match u8::try_from(value) {
            Ok(byte) => self.push(byte),
            Err(_) => Err(RowError::Bad("an octal number over 377")),
        }
    }

    // Notes that a number of copies goes here.
    fn take_number(&mut self, first: usize) -> Result<(), RowError> {
        let Some(start) = self.piece else {
            return Err(RowError::Bad("a number of copies is in a piece"));
        };
        let place = self.bytes.len().saturating_sub(start);
        self.numbers.push((place, first))?;
        self.mode = Mode::Plain;
        Ok(())
    }

    // Adds a copy of a piece, with this many copies before it.
    fn push_copy(&mut self, piece: &[u8], before: usize) -> Result<(), AllocError> {
        let mut from: usize = 0;
        for (place, first) in &self.numbers {
            let number = before.saturating_add(*first);
            let text = format!(in self.alloc; "{number}")?;
            self.bytes
                .extend_from_slice(piece.get(from..*place).unwrap_or(&[]))?;
            self.bytes.extend_from_slice(text.as_bytes())?;
            from = *place;
        }
        self.bytes
            .extend_from_slice(piece.get(from..).unwrap_or(&[]))
    }

    // Copies the piece that ends here.
    fn end_piece(&mut self) -> Result<(), RowError> {
        let Some(start) = self.piece else {
            return Err(RowError::Bad("`\\)` without `\\(`"));
        };
        let piece = Vec::from_slice(self.alloc, self.bytes.get(start..).unwrap_or(&[]))?;
        if piece.len().saturating_mul(self.copies) > WORD_MAX {
            return Err(RowError::Bad("a word is too long"));
        }
        self.bytes.truncate(start);
        for before in 0..self.copies {
            self.push_copy(&piece, before)?;
        }
        self.numbers.clear();
        self.piece = None;
        self.mode = Mode::Plain;
        Ok(())
    }

    fn take_escaped(&mut self, byte: u8) -> Result<(), RowError> {
        if let Some(digit) = octal_digit(byte) {
            self.mode = Mode::Octal(digit, 1);
            return Ok(());
        }
        match byte {
            b'(' if self.piece.is_none() => {
                self.mode = Mode::Copies;
                self.copies = 0;
                Ok(())
            }
            b')' => self.end_piece(),
            b'i' => self.take_number(0),
            b'j' => self.take_number(1),
            _ => match escaped(byte) {
                Some(byte) => self.push(byte),
                None => Err(RowError::Bad("an unknown escape")),
            },
        }
    }

    // Takes a byte of a count of copies.
    fn take_count(&mut self, byte: u8) -> Result<(), RowError> {
        match byte {
            b'0'..=b'9' if self.copies <= COPIES_MAX => {
                let digit = usize::from(byte - b'0');
                self.copies = self.copies.saturating_mul(10).saturating_add(digit);
                Ok(())
            }
            b':' => {
                self.piece = Some(self.bytes.len());
                self.mode = Mode::Plain;
                Ok(())
            }
            _ => Err(RowError::Bad("a count of copies is too large, or does not end with `:`")),
        }
    }

    // Takes a byte outside of an escape, or ends a number before it.
    fn take_plain(&mut self, byte: u8) -> Result<(), RowError> {
        self.end_number()?;
        match byte {
            b'\\' => {
                self.is_word = true;
                self.mode = Mode::Escape;
                Ok(())
            }
            b'"' if self.is_quoted => {
                self.mode = Mode::Closed;
                self.end_word()
            }
            b'"' if !self.is_word => {
                self.is_word = true;
                self.is_quoted = true;
                Ok(())
            }
            b' ' | b'\t' if !self.is_quoted => self.end_word(),
            _ => self.push(byte),
        }
    }

    fn take(&mut self, byte: u8) -> Result<(), RowError> {
        match self.mode {
            Mode::Escape => self.take_escaped(byte),
            Mode::Copies => self.take_count(byte),
            Mode::Octal(value, digits) if digits < 3 && octal_digit(byte).is_some() => {
                let digit = octal_digit(byte).unwrap_or(0);
                self.mode = Mode::Octal(value.wrapping_mul(8).wrapping_add(digit), digits + 1);
                Ok(())
            }
            Mode::Closed if byte == b' ' || byte == b'\t' => {
                self.mode = Mode::Plain;
                Ok(())
            }
            Mode::Closed => Err(RowError::Bad("a blank is after a word in quotes")),
            _ => self.take_plain(byte),
        }
    }
}

/// The words of a line.
///
/// # Errors
/// Why a word is none, and out of memory.
pub fn words_of(alloc: Global, line: &[u8]) -> Result<Vec<Vec<u8>>, RowError> {
    let mut reader = Reader::new(alloc);
    for byte in line {
        reader.take(*byte)?;
    }
    reader.end_number()?;
    if reader.is_quoted || reader.mode == Mode::Escape || reader.mode == Mode::Copies {
        return Err(RowError::Bad("a word ends in an escape or before its quote"));
    }
    reader.end_word()?;
    Ok(reader.words)
}
