//! Where a file says of a capability without a value whether it is absent or cancelled.
ghost use Rattle.std.specs.Prelude.{◌≡◌, ◌≤◌, ◌<◌, ◌^◌, length};
ghost use Rattle.ti_layout.specs.Layout as layout;
ghost use Rattle.ti_layout.specs.Reading as entry;
ghost use Rattle.everyday_initializers.specs.Marks as spec;
ghost use Rattle.everyday_initializers.specs.inside.Marks.{marks_seen, section_seen};

use ti_layout::{Format, HEADER_SIZE, Header, word};

// The bytes of the header of an extension.
const EXTENSION_HEADER_SIZE: usize = 10;

/// A section of a file: how many it has of something, and the bytes from where it begins.
#[derive(Clone, Copy)]
pub(crate) struct Section<'a> {
    pub count: u16,
    pub rest: &'a [u8],
}

/// The booleans, the numbers by the width of the format, and the offsets of the strings.
#[derive(Clone, Copy)]
pub(crate) struct Marks<'a> {
    pub format: Format,
    pub flags: Section<'a>,
    pub numbers: Section<'a>,
    pub texts: Section<'a>,
}

// The section of so many that begins at an offset.
fn section_at(bytes: &[u8], count: u16, at: usize) -> Section<'_>
    ensures { section_seen result ≡ spec.section_at bytes.now count at }
{
    Section {
        count,
        rest: &bytes[at.min(bytes.len())..],
    }
}

/// No section has anything.
pub(crate) fn no_marks<'a>() -> Marks<'a>
    ensures { marks_seen result ≡ spec.no_marks }
{
    let none = section_at(&[], 0, 0);
    Marks {
        format: Format::Legacy,
        flags: none,
        numbers: none,
        texts: none,
    }
}

/// Those of an entry, if the bytes are long enough for its header.
pub(crate) fn entry_marks(bytes: &[u8]) -> Marks<'_>
    ensures { marks_seen result ≡ spec.entry_marks bytes.now }
{
    if bytes.len() < HEADER_SIZE {
        return no_marks();
    }
    let format = Header::read(bytes).format;
    let (names, flags, numbers) = (word(bytes, 2), word(bytes, 4), word(bytes, 6));
    let flags_begin = HEADER_SIZE + names;
    let numbers_begin = flags_begin + flags + (names + flags) % 2;
    let offsets_begin = numbers_begin + format.width() * numbers;
    Marks {
        format,
        flags: section_at(bytes, flags as u16, flags_begin),
        numbers: section_at(bytes, numbers as u16, numbers_begin),
        texts: section_at(bytes, word(bytes, 8) as u16, offsets_begin),
    }
}

// Those of an extension of a format, if the bytes are long enough for its header.
fn extension_marks(format: Format, rest: &[u8]) -> Marks<'_>
    ensures { marks_seen result ≡ spec.extension_marks format rest.now }
{
    if rest.len() < EXTENSION_HEADER_SIZE {
        return no_marks();
    }
    let (flags, numbers) = (word(rest, 0), word(rest, 2));
    let numbers_begin = EXTENSION_HEADER_SIZE + flags + flags % 2;
    let values_begin = numbers_begin + format.width() * numbers;
    Marks {
        format,
        flags: section_at(rest, flags as u16, EXTENSION_HEADER_SIZE),
        numbers: section_at(rest, numbers as u16, numbers_begin),
        texts: section_at(rest, word(rest, 4) as u16, values_begin),
    }
}

// Where an entry ends, by its header.
fn entry_end(bytes: &[u8], format: Format) -> usize
    requires long { layout.header_size ≤ length bytes.now }
    requires format { format ≡ entry.format_in bytes.now }
    ensures end { result ≡ entry.entry_end bytes.now }
    ensures small { result < 2 ^ 32 }
{
    let (names, flags) = (word(bytes, 2), word(bytes, 4));
    let numbers = HEADER_SIZE + names + flags + (names + flags) % 2;
    numbers + format.width() * word(bytes, 6) + 2 * word(bytes, 8) + word(bytes, 10)
}

/// Those of the extension that follows an entry.
pub(crate) fn extra_marks(bytes: &[u8]) -> Marks<'_>
    ensures { marks_seen result ≡ spec.extra_marks bytes.now }
{
    if bytes.len() < HEADER_SIZE {
        return no_marks();
    }
    let format = Header::read(bytes).format;
    let end = entry_end(bytes, format);
    let begin = end + end % 2;
    extension_marks(format, &bytes[begin.min(bytes.len())..])
}

/// The byte of the boolean at an index, if the section is that long.
pub(crate) fn flag_byte(marks: &Marks<'_>, index: usize) -> Option<u8>
    ensures { result ≡ spec.flag_byte (marks_seen marks.now) index }
{
    if index >= usize::from(marks.flags.count) {
        return None;
    }
    marks.flags.rest.get(index).copied()
}

// The bytes of -2, by the width of the format.
fn cancelled_bytes(format: Format) -> &'static [u8]
    ensures { result.now ≡ spec.cancelled_bytes format }
{
    match format {
        Format::Legacy => &[254, 255],
        Format::Extended => &[254, 255, 255, 255],
    }
}

// Whether the number of a section at an index is -2.
fn is_cancelled_in(format: Format, section: Section<'_>, index: usize) -> bool
    ensures { result ≡ spec.is_cancelled_in format (section_seen section.entry) index }
{
    if index >= usize::from(section.count) {
        return false;
    }
    let at = format.width().saturating_mul(index).min(section.rest.len());
    section.rest[at..].starts_with(cancelled_bytes(format))
}

/// Whether the number at an index is cancelled.
pub(crate) fn is_cancelled_number(marks: &Marks<'_>, index: usize) -> bool
    ensures { result ≡ spec.is_cancelled_number (marks_seen marks.now) index }
{
    is_cancelled_in(marks.format, marks.numbers, index)
}

/// Whether the string at an index is cancelled.
pub(crate) fn is_cancelled_text(marks: &Marks<'_>, index: usize) -> bool
    ensures { result ≡ spec.is_cancelled_text (marks_seen marks.now) index }
{
    is_cancelled_in(Format::Legacy, marks.texts, index)
}
