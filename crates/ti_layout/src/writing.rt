//! An entry written as term(5) lays it out.
//!
//! The entries of a table are in the order of the entry, so each section is written in one walk
//! over them: what is absent before a value is filled up in one step, and what is absent after the
//! last value is not written.
ghost use Rattle.std.specs.Prelude.{◌≡◌, ◌≢◌, ◌<◌, ◌≤◌, ◌↔◌, ◌+◌, ◌*◌, ◌++◌, [], length, replicate, Some, IfOk, IsErrOf, OnOk};
ghost use Rattle.ti_text.specs.Limits.{extended_entry_max, names_max};
ghost use Rattle.ti_caps.specs.declared.capability.Kind.TheVariants.{Flag, Number, Text};
ghost use Rattle.ti_layout.specs.Image.{is_wide as is_wide_content};
ghost use Rattle.ti_layout.specs.Image.{image, image_in, format_of, image_limit, written_count, flags_below, numbers_below, texts_below, offsets_below, HasNoNul};
ghost use Rattle.ti_layout.specs.Layout as layout;
ghost use Rattle.ti_layout.specs.Layout.{FitsTwoBytes, number_section, number_bytes};
ghost use Rattle.ti_layout.specs.Sizes.{HasSizes, HasSizesIn};
ghost use Rattle.ti_layout.specs.Values.{contents, content_of, entries_of, IsSorted};
ghost use Rattle.ti_layout.specs.declared.writing.WriteError.TheVariants.{Memory};

use crate::header::Header;
use crate::layout::{ABSENT_BYTE, Format};
use crate::values::{Table, Value};
use byteorder::{ByteOrder, LittleEndian};
use std::alloc::{AllocError, Global};
use thiserror::Error;
use ti_caps::Cap;
use ti_text::limits::{LEGACY_NUMBER_MAX, NAMES_MAX};

/// Why an entry is not written: the first of these that holds, in this order.
#[derive(Clone, Copy, PartialEq, Eq, Debug, Error)]
pub enum WriteError {
    /// The names take more than 127 bytes.
    #[error("NamesTooLong")]
    NamesTooLong,
    /// The entry would take more bytes than its limit: 32,768 if a number is over 32,767, else
    /// 4,096.
    #[error("TooLarge")]
    TooLarge,
    /// There is no memory for the entry.
    #[error("Memory")]
    Memory,
}

impl From<AllocError> for WriteError {
    ghost from_gives = { λ _ e. e ≡ Memory };

    fn from(_e: AllocError) -> WriteError {
        WriteError::Memory
    }
}

/// The compiled entry of a names field and a table.
///
/// If a number is over 32,767, the numbers take 32 bits, else 16. Each count ends with the last
/// capability that is there. A boolean is 1 or 0; a number or an offset is -1 if the capability is
/// absent or cancelled. The strings are in table order, none shared, the first at offset 0. All
/// sizes are known before memory is asked for.
///
/// # Errors
/// `NamesTooLong` for names over 127 bytes, then `TooLarge` for an entry over its limit, which is
/// 4,096 bytes, or 32,768 with numbers of 32 bits, then `Memory`.
pub fn write(alloc: Global, names: &[u8], table: &Table) -> Result<Vec<u8>, WriteError>
    requires present { names.now ≢ [] }
    requires no_nul { HasNoNul names.now }
    ensures ok { IfOk result (λ v. (v.items ≡ image names.now (contents table.now))
        × (length names.now ≤ names_max) × (length v.items ≤ image_limit (contents table.now))) }

    // The first refusal that holds; `Memory` only if no other does.
    ensures names_too_long { IsErrOf result WriteError.NamesTooLong ↔ (names_max < length names.now) }
    ensures too_large { IsErrOf result WriteError.TooLarge
        ↔ ((length names.now ≤ names_max) × (image_limit (contents table.now) < length (image names.now (contents table.now)))) }
    ensures memory { IsErrOf result WriteError.Memory → (length names.now ≤ names_max)
        × (length (image names.now (contents table.now)) ≤ image_limit (contents table.now)) }
{
    if names.len() > NAMES_MAX {
        return Err(WriteError::NamesTooLong);
    }
    let entries = table.entries();
    let header = own_header(names, entries);
    if header.size() > header.format.limit() {
        return Err(WriteError::TooLarge);
    }
    Ok(entry_bytes(alloc, names, entries, &header)?)
}

// Whether a number is over the greatest of the legacy format.
fn is_wide(value: &Value) -> bool
    ensures { result ≡ is_wide_content (Some (content_of value.now)) }
{
    matches!(value, Value::Number(number) if *number > LEGACY_NUMBER_MAX)
}

/// The format of the entry with these values, which are in the order of the entry: the extended one
/// if a number is over 32,767.
pub fn format_wanted(entries: &[(Cap, Value)]) -> Format
    requires { IsSorted (entries_of entries.now) }
    ensures { result ≡ format_of (contents (entries_of entries.now)) }
{
    for entry in entries {
        if is_wide(&entry.1) {
            return Format::Extended;
        }
    }
    Format::Legacy
}

// The header in the format that the values need.
fn own_header(names: &[u8], entries: &[(Cap, Value)]) -> Header
    requires names { length names.now ≤ names_max }
    requires sorted { IsSorted (entries_of entries.now) }
    ensures { HasSizes names.now (contents (entries_of entries.now)) result }
{
    header_of(names, entries, format_wanted(entries))
}

/// The header of an entry in a format, of names that are short.
pub fn header_in(names: &[u8], table: &Table, format: Format) -> Header
    requires { length names.now ≤ names_max }
    ensures { HasSizesIn format names.now (contents table.now) result }
{
    header_of(names, table.entries(), format)
}

/// The entry in the format of its header, whose sizes are known. What does not fit the format is
/// cut.
pub fn write_in(
    alloc: Global,
    names: &[u8],
    table: &Table,
    header: &Header,
) -> Result<Vec<u8>, AllocError>
    requires names { length names.now ≤ names_max }
    requires sizes { HasSizesIn header.now.format names.now (contents table.now) header.now }
    requires small { length (image_in header.now.format names.now (contents table.now)) ≤ extended_entry_max }
    ensures { IfOk result (λ v. v.items ≡ image_in header.now.format names.now (contents table.now)) }
{
    entry_bytes(alloc, names, table.entries(), header)
}

// The numbers of the header. A size of the string table that no number holds is the greatest
// number.
fn header_of(names: &[u8], entries: &[(Cap, Value)], format: Format) -> Header
    requires names { length names.now ≤ names_max }
    requires sorted { IsSorted (entries_of entries.now) }
    ensures { HasSizesIn format names.now (contents (entries_of entries.now)) result }
{
    let mut header = Header {
        format,
        names: names.len() + 1,
        flags: 0,
        numbers: 0,
        texts: 0,
        strings: 0,
    };
    for entry in entries {
        let count = entry.0.index() + 1;
        match &entry.1 {
            Value::True => header.flags = count,
            Value::Number(_) => header.numbers = count,
            Value::Text(text) => {
                header.texts = count;
                header.strings = header.strings.saturating_add(text.len()).saturating_add(1);
            }
            Value::Cancelled => {}
        }
    }
    header
}

// The entry, of sizes that are known.
fn entry_bytes(
    alloc: Global,
    names: &[u8],
    entries: &[(Cap, Value)],
    header: &Header,
) -> Result<Vec<u8>, AllocError>
    requires names { length names.now ≤ names_max }
    requires sorted { IsSorted (entries_of entries.now) }
    requires sizes { HasSizesIn header.now.format names.now (contents (entries_of entries.now)) header.now }
    requires small { length (image_in header.now.format names.now (contents (entries_of entries.now))) ≤ extended_entry_max }
    ensures { IfOk result (λ v. v.items ≡ image_in header.now.format names.now (contents (entries_of entries.now))) }
{
    let mut image = Vec::with_capacity(alloc, header.size())?;
    image.extend_from_slice(&header.to_bytes())?;
    image.extend_from_slice(names)?;
    image.push(0)?;
    push_flags(&mut image, entries)?;
    push_fill(&mut image, header.gap(), 0)?;
    push_numbers(&mut image, entries, header.format)?;
    push_offsets(&mut image, entries)?;
    push_texts(&mut image, entries)?;
    Ok(image)
}

/// Adds a byte the given number of times.
pub fn push_fill(image: &mut Vec<u8>, count: usize, byte: u8) -> Result<(), AllocError>
    ensures { OnOk result (image.new.items ≡ image.old.items ++ replicate count byte) }
{
    let len = image.len();
    image.resize(len.saturating_add(count), byte)
}

/// Adds a number of a format, its low byte first.
pub fn push_number(image: &mut Vec<u8>, number: u32, format: Format) -> Result<(), AllocError>
    ensures { OnOk result (image.new.items ≡ image.old.items ++ number_bytes format number) }
{
    let mut bytes = [0; 4];
    LittleEndian::write_u32(&mut bytes, number);
    image.extend_from_slice(&bytes[..format.width()])
}

// Adds a byte for each boolean up to the last that is there.
fn push_flags(image: &mut Vec<u8>, entries: &[(Cap, Value)]) -> Result<(), AllocError>
    requires { IsSorted (entries_of entries.now) }
    ensures { OnOk result (image.new.items
        ≡ image.old.items ++ flags_below (contents (entries_of entries.now)) (written_count (contents (entries_of entries.now)) Flag)) }
{
    let mut written = 0;
    for entry in entries {
        if let Value::True = &entry.1 {
            push_fill(image, entry.0.index() - written, 0)?;
            image.push(1)?;
            written = entry.0.index() + 1;
        }
    }
    Ok(())
}

// Adds the numbers up to the last that is there.
fn push_numbers(
    image: &mut Vec<u8>,
    entries: &[(Cap, Value)],
    format: Format,
) -> Result<(), AllocError>
    requires { IsSorted (entries_of entries.now) }
    ensures { OnOk result (image.new.items
        ≡ image.old.items
        ++ number_section format (numbers_below format (contents (entries_of entries.now)) (written_count (contents (entries_of entries.now)) Number))) }
{
    let mut written = 0;
    for entry in entries {
        if let Value::Number(number) = &entry.1 {
            push_fill(
                image,
                format.width() * (entry.0.index() - written),
                ABSENT_BYTE,
            )?;
            push_number(image, *number, format)?;
            written = entry.0.index() + 1;
        }
    }
    Ok(())
}

// Adds where each string begins in the string table, up to the last that is there.
fn push_offsets(image: &mut Vec<u8>, entries: &[(Cap, Value)]) -> Result<(), AllocError>
    requires sorted { IsSorted (entries_of entries.now) }
    requires fits { FitsTwoBytes (length (texts_below (contents (entries_of entries.now)) (written_count (contents (entries_of entries.now)) Text))) }
    ensures { OnOk result (image.new.items
        ≡ image.old.items
        ++ number_section Format.Legacy (offsets_below (contents (entries_of entries.now)) (written_count (contents (entries_of entries.now)) Text))) }
{
    let mut written = 0;
    let mut offset = 0;
    for entry in entries {
        if let Value::Text(text) = &entry.1 {
            push_fill(image, 2 * (entry.0.index() - written), ABSENT_BYTE)?;
            push_number(image, offset as u32, Format::Legacy)?;
            written = entry.0.index() + 1;
            offset += text.len() + 1;
        }
    }
    Ok(())
}

// Adds the string table: each text with the NUL that ends it.
fn push_texts(image: &mut Vec<u8>, entries: &[(Cap, Value)]) -> Result<(), AllocError>
    requires { IsSorted (entries_of entries.now) }
    ensures { OnOk result (image.new.items
        ≡ image.old.items ++ texts_below (contents (entries_of entries.now)) (written_count (contents (entries_of entries.now)) Text)) }
{
    for entry in entries {
        if let Value::Text(text) = &entry.1 {
            image.extend_from_slice(text.as_slice())?;
            image.push(0)?;
        }
    }
    Ok(())
}
