//! The sections of a compiled entry: cut by the header's numbers, and each looked through once.
ghost use Rattle.std.specs.Prelude.{◌≡◌, ◌<◌, length, MatchBool, IfOk, IfErr};
ghost use Rattle.ti_layout.specs.Layout as layout;
ghost use Rattle.ti_layout.specs.Reading.{FailsToRead, HasBadNames, HasBadFlag, HasBadNumber, HasBadOffset};
ghost use Rattle.ti_layout.specs.Sections.{HasHeader, IsCutIntoSections, AreNames, AreFlags, AreStoredNumbers, AreOffsets};

use crate::fault::ReadError;
use crate::header::{HEADER_SIZE, Header};
use crate::layout::{CANCELLED_WORD, Format, NEGATIVE_WORD, number, word};
use memchr::{memchr, memrchr};
use ti_caps::{FLAG_COUNT, NUMBER_COUNT, TEXT_COUNT};

/// The sections of an entry, as they are in its bytes; the names with their NUL.
#[derive(Clone, Copy)]
pub struct Sections<'a> {
    pub format: Format,
    pub names: &'a [u8],
    pub flags: &'a [u8],
    pub numbers: &'a [u8],
    pub offsets: &'a [u8],
    pub strings: &'a [u8],
}

// The header's numbers, or the first of Short, Magic and Counts that holds.
fn read_header(bytes: &[u8]) -> Result<Header, ReadError>
    ensures found { IfOk result (λ h. HasHeader bytes.now h) }
    ensures refused { IfErr result (λ e. FailsToRead bytes.now e) }
{
    if bytes.len() < HEADER_SIZE {
        return Err(ReadError::Short);
    }
    let header = Header::read(bytes);
    if word(bytes, 0) != header.format.magic() as usize {
        return Err(ReadError::Magic);
    }
    if header.names >= NEGATIVE_WORD
        || header.flags > FLAG_COUNT
        || header.numbers > NUMBER_COUNT
        || header.texts > TEXT_COUNT
        || header.strings >= NEGATIVE_WORD
    {
        return Err(ReadError::Counts);
    }
    Ok(header)
}

/// The sections, or the first of Short, Magic, Counts and Truncated that holds.
pub fn cut(bytes: &[u8]) -> Result<Sections<'_>, ReadError>
    ensures found { IfOk result (λ s. IsCutIntoSections bytes.now s) }
    ensures refused { IfErr result (λ e. FailsToRead bytes.now e) }
{
    let header = read_header(bytes)?;
    let end = header.size();
    if bytes.len() < end {
        return Err(ReadError::Truncated);
    }
    let flags = header.flags_offset();
    let numbers = header.numbers_offset();
    let offsets = header.offsets_offset();
    let strings = header.strings_offset();
    Ok(Sections {
        format: header.format,
        names: &bytes[HEADER_SIZE..flags],
        flags: &bytes[flags..flags + header.flags],
        numbers: &bytes[numbers..offsets],
        offsets: &bytes[offsets..strings],
        strings: &bytes[strings..end],
    })
}

/// Whether a section is names: at least a byte, and then its only NUL.
pub fn are_names(names: &[u8]) -> bool
    ensures { MatchBool result (AreNames names.now) (HasBadNames names.now) }
{
    names.len() >= 2 && memchr(0, names) == Some(names.len() - 1)
}

/// Whether each byte of a section is a boolean: 0 or 1, or the byte of a cancelled or absent one.
pub fn are_flags(flags: &[u8]) -> bool
    ensures { MatchBool result (AreFlags flags.now) (HasBadFlag flags.now) }
{
    for flag in flags {
        if *flag >= 2 && *flag < 0xfe {
            return false;
        }
    }
    true
}

/// Whether each number of a section is one, cancelled or absent.
pub fn are_numbers(numbers: &[u8], format: Format) -> bool
    ensures { MatchBool result (AreStoredNumbers format numbers.now) (HasBadNumber format numbers.now) }
{
    let width = format.width();
    for index in 0..numbers.len() / width {
        let number = number(numbers, width * index, format);
        if number >= format.first_negative() && number < format.cancelled_mark() {
            return false;
        }
    }
    true
}

/// Whether each offset is void or leads to a string with its NUL. One search serves them all: an
/// offset does so exactly if it is not past the table's last NUL.
pub fn are_offsets(offsets: &[u8], strings: &[u8]) -> bool
    requires { length strings.now < layout.first_negative Format.Legacy }
    ensures { MatchBool result (AreOffsets offsets.now strings.now) (HasBadOffset offsets.now strings.now) }
{
    let ends = memrchr(0, strings).map_or(0, |last| last + 1);
    for index in 0..offsets.len() / 2 {
        let offset = word(offsets, 2 * index);
        if offset >= ends && offset < CANCELLED_WORD {
            return false;
        }
    }
    true
}
