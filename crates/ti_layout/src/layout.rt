//! The two formats of a compiled entry, and numbers as bytes.
ghost use Rattle.std.specs.Prelude.{◌≡◌, ◌+◌, ◌≤◌, length};
ghost use Rattle.ti_layout.specs.Layout as layout;
ghost use Rattle.ti_layout.specs.Reading.{word_at, number_at};

use byteorder::{ByteOrder, LittleEndian};
use ti_text::limits::{ENTRY_MAX, EXTENDED_ENTRY_MAX};

/// The first number of 16 bits that is negative as a signed one.
pub const NEGATIVE_WORD: usize = 0x8000;

/// -2 as a number of 16 bits, which means cancelled.
pub const CANCELLED_WORD: usize = 0xfffe;

/// -1 as a number of 16 bits, which means absent.
pub const ABSENT_WORD: usize = 0xffff;

/// -1 as a number of 32 bits, which means absent. Its two low bytes are [`ABSENT_WORD`].
pub const ABSENT_NUMBER: u32 = u32::MAX;

/// Each byte of -1 in either format.
pub const ABSENT_BYTE: u8 = 0xff;

/// The formats of term(5). They differ in the magic number and in the bytes that the number of a
/// capability takes.
#[derive(Clone, Copy)]
pub enum Format {
    /// The legacy storage format: numbers of 16 bits.
    Legacy,
    /// The extended number format: numbers of 32 bits.
    Extended,
}

impl Format {
    /// The first number of an entry.
    pub fn magic(self) -> u16
        ensures { result ≡ layout.magic self }
    {
        match self {
            Format::Legacy => 0o432,
            Format::Extended => 0o1036,
        }
    }

    /// The bytes of the number of a capability.
    pub fn width(self) -> usize
        ensures value { result ≡ layout.width self }
        ensures some { 2 ≤ result }
        ensures fits { result ≤ 4 }
    {
        match self {
            Format::Legacy => 2,
            Format::Extended => 4,
        }
    }

    /// The first number that is negative as a signed number.
    pub fn first_negative(self) -> u32
        ensures { result ≡ layout.first_negative self }
    {
        match self {
            Format::Legacy => NEGATIVE_WORD as u32,
            Format::Extended => 0x8000_0000,
        }
    }

    /// -2, which means a cancelled number; -1 means an absent one.
    pub fn cancelled_mark(self) -> u32
        ensures { result ≡ layout.cancelled_mark self }
    {
        match self {
            Format::Legacy => CANCELLED_WORD as u32,
            Format::Extended => 0xffff_fffe,
        }
    }

    /// The most bytes of an entry that is written.
    pub fn limit(self) -> usize
        ensures { result ≡ layout.limit self }
    {
        match self {
            Format::Legacy => ENTRY_MAX,
            Format::Extended => EXTENDED_ENTRY_MAX,
        }
    }
}

/// The 16-bit number at an offset, its low byte first.
pub fn word(bytes: &[u8], at: usize) -> usize
    requires { at + 2 ≤ length bytes.now }
    ensures value { result ≡ word_at at bytes.now }
    ensures fits { layout.FitsTwoBytes result }
{
    LittleEndian::read_u16(&bytes[at..]) as usize
}

/// The two bytes of a number, the low one first; what does not fit is dropped.
pub fn word_bytes(word: usize) -> [u8; 2]
    ensures { result ≡ layout.number_bytes Format.Legacy word }
{
    let mut bytes = [0; 2];
    LittleEndian::write_u16(&mut bytes, (word % 65_536) as u16);
    bytes
}

/// The number of a format at an offset, its low byte first.
pub fn number(bytes: &[u8], at: usize, format: Format) -> u32
    requires { at + layout.width format ≤ length bytes.now }
    ensures value { result ≡ number_at format at bytes.now }
    ensures fits { result ≤ layout.absent_mark format }
{
    let rest = &bytes[at..];
    match format {
        Format::Legacy => u32::from(LittleEndian::read_u16(rest)),
        Format::Extended => LittleEndian::read_u32(rest),
    }
}
