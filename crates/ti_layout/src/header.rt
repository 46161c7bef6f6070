//! The header of a compiled entry: the format, and the sizes of the sections.
ghost use Rattle.std.specs.Prelude.{◌≡◌, ◌≤◌, ◌^◌, ◌-◌, length, min};
ghost use Rattle.ti_layout.specs.Layout as layout;
ghost use Rattle.ti_layout.specs.Layout.{FitsTwoBytes};
ghost use Rattle.ti_layout.specs.Reading.{IsHeaderAt};

use crate::layout::{Format, word, word_bytes};

/// The bytes of a header.
pub const HEADER_SIZE: usize = 12;

/// What a header says: the format, and the sizes of the sections.
#[derive(Clone, Copy)]
pub struct Header {
    pub format: Format,
    /// The bytes of the names, with their NUL.
    pub names: usize,
    pub flags: usize,
    pub numbers: usize,
    pub texts: usize,
    /// The bytes of the string table.
    pub strings: usize,
}

impl Header {
    /// The header with which bytes begin. The format is the legacy one, unless the first number is
    /// that of the extended format.
    pub fn read(bytes: &[u8]) -> Header
        requires { layout.header_size ≤ length bytes.now }
        ensures { IsHeaderAt bytes.now result }
    {
        let format = if word(bytes, 0) == Format::Extended.magic() as usize {
            Format::Extended
        } else {
            Format::Legacy
        };
        Header {
            format,
            names: word(bytes, 2),
            flags: word(bytes, 4),
            numbers: word(bytes, 6),
            texts: word(bytes, 8),
            strings: word(bytes, 10),
        }
    }

    /// The bytes of the header. What does not fit two bytes is dropped.
    pub fn to_bytes(&self) -> [u8; HEADER_SIZE]
        ensures { result ≡ layout.header self.now.format self.now.names self.now.flags self.now.numbers self.now.texts self.now.strings }
    {
        let magic = word_bytes(self.format.magic() as usize);
        let names = word_bytes(self.names);
        let flags = word_bytes(self.flags);
        let numbers = word_bytes(self.numbers);
        let texts = word_bytes(self.texts);
        let strings = word_bytes(self.strings);
        [
            magic[0], magic[1], names[0], names[1], flags[0], flags[1], numbers[0], numbers[1],
            texts[0], texts[1], strings[0], strings[1],
        ]
    }

    /// Where the booleans begin.
    pub fn flags_offset(&self) -> usize
        requires { FitsTwoBytes self.now.names }
        ensures { result ≡ layout.flags_offset self.now.names }
    {
        HEADER_SIZE + self.names
    }

    /// The bytes between the booleans and the numbers: one if the names and the booleans are an odd
    /// number of bytes, else none.
    pub fn gap(&self) -> usize
        requires names { FitsTwoBytes self.now.names }
        requires flags { FitsTwoBytes self.now.flags }
        ensures { result ≡ layout.gap_size self.now.names self.now.flags }
    {
        (self.names + self.flags) % 2
    }

    /// Where the numbers begin.
    pub fn numbers_offset(&self) -> usize
        requires names { FitsTwoBytes self.now.names }
        requires flags { FitsTwoBytes self.now.flags }
        ensures { result ≡ layout.numbers_offset self.now.names self.now.flags }
    {
        self.flags_offset() + self.flags + self.gap()
    }

    /// Where the offsets of the strings begin.
    pub fn offsets_offset(&self) -> usize
        requires names { FitsTwoBytes self.now.names }
        requires flags { FitsTwoBytes self.now.flags }
        requires numbers { FitsTwoBytes self.now.numbers }
        ensures { result ≡ layout.offsets_offset self.now.format self.now.names self.now.flags self.now.numbers }
    {
        self.numbers_offset() + self.format.width() * self.numbers
    }

    /// Where the string table begins.
    pub fn strings_offset(&self) -> usize
        requires names { FitsTwoBytes self.now.names }
        requires flags { FitsTwoBytes self.now.flags }
        requires numbers { FitsTwoBytes self.now.numbers }
        requires texts { FitsTwoBytes self.now.texts }
        ensures { result ≡ layout.strings_offset self.now.format self.now.names self.now.flags self.now.numbers self.now.texts }
    {
        self.offsets_offset() + 2 * self.texts
    }

    /// The bytes of an entry with this header; the greatest number if they are more.
    pub fn size(&self) -> usize
        requires names { FitsTwoBytes self.now.names }
        requires flags { FitsTwoBytes self.now.flags }
        requires numbers { FitsTwoBytes self.now.numbers }
        requires texts { FitsTwoBytes self.now.texts }
        ensures { result ≡ min (layout.entry_size self.now.format self.now.names self.now.flags self.now.numbers self.now.texts self.now.strings) (2 ^ 64 - 1) }
    {
        self.strings_offset().saturating_add(self.strings)
    }
}
