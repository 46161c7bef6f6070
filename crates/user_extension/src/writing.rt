//! An entry with user-defined capabilities, written as term(5) lays it out.
ghost use Rattle.std.specs.Prelude.{◌≡◌, ◌≢◌, ◌<◌, ◌≤◌, ◌↔◌, ◌+◌, ◌∷◌, ◌++◌, ◌^◌, ◌-◌, min, [], length, Some, IfOk, IsErrOf, OnOk, OnSome, IfSome, IfNone, IsTrue};
ghost use Rattle.ti_text.specs.Limits.{names_max, extended_entry_max};
ghost use Rattle.ti_layout.specs.Image.{is_wide as is_wide_content};
ghost use Rattle.ti_text.specs.Texts.{HasNoNul};
ghost use Rattle.ti_layout.specs.Layout as layout;
ghost use Rattle.ti_layout.specs.Layout.{FitsTwoBytes, number_section};
ghost use Rattle.ti_layout.specs.Sizes as header_has;
ghost use Rattle.ti_layout.specs.Values.{contents, content_seen};
ghost use Rattle.user_extension.specs.UserDefined.{AreUserDefined, rows_of};
ghost use Rattle.user_extension.specs.Extension.{Fits, FitsAfter, IsTooLarge, at_most_max, extension_size, HasSizes, entry, entry_format, entry_limit, extension, extension_after, some_wide as some_wide_of, flags, numbers, texts, names as names_of, table as table_of, places};

use crate::user_defined::UserDefined;
use std::alloc::{AllocError, Global};
use ti_layout::{
    Content, Format, Header, Table, WriteError, header_in, push_fill, push_number, write_in,
};
use ti_text::limits::{LEGACY_NUMBER_MAX, NAMES_MAX};

// Adds a byte for each boolean.
fn push_flags(image: &mut Vec<u8>, rows: &[UserDefined<'_>]) -> Result<(), AllocError>
    ensures { OnOk result (image.new.items ≡ image.old.items ++ flags (rows_of rows.now)) }
{
    for row in rows {
        if let Content::True = row.value {
            image.push(1)?;
        }
    }
    Ok(())
}

// Adds the numbers.
fn push_numbers(
    image: &mut Vec<u8>,
    rows: &[UserDefined<'_>],
    format: Format,
) -> Result<(), AllocError>
    ensures { OnOk result (image.new.items ≡ image.old.items ++ number_section format (numbers (rows_of rows.now))) }
{
    for row in rows {
        if let Content::Number(number) = row.value {
            push_number(image, number, format)?;
        }
    }
    Ok(())
}

// Adds where each value begins.
fn push_value_places(image: &mut Vec<u8>, rows: &[UserDefined<'_>]) -> Result<(), AllocError>
    requires { FitsTwoBytes (length (table_of (texts (rows_of rows.now)))) }
    ensures { OnOk result (image.new.items ≡ image.old.items ++ number_section Format.Legacy (places 0 (texts (rows_of rows.now)))) }
{
    let mut offset = 0;
    for row in rows {
        if let Content::Text(text) = row.value {
            push_number(image, offset as u32, Format::Legacy)?;
            offset += text.len() + 1;
        }
    }
    Ok(())
}

// Adds where each name begins.
fn push_name_places(image: &mut Vec<u8>, rows: &[UserDefined<'_>]) -> Result<(), AllocError>
    requires { FitsTwoBytes (length (table_of (names_of (rows_of rows.now)))) }
    ensures { OnOk result (image.new.items ≡ image.old.items ++ number_section Format.Legacy (places 0 (names_of (rows_of rows.now)))) }
{
    let mut offset = 0;
    for row in rows {
        push_number(image, offset as u32, Format::Legacy)?;
        offset += row.name.len() + 1;
    }
    Ok(())
}

// Adds the values, each with its NUL.
fn push_values(image: &mut Vec<u8>, rows: &[UserDefined<'_>]) -> Result<(), AllocError>
    ensures { OnOk result (image.new.items ≡ image.old.items ++ table_of (texts (rows_of rows.now))) }
{
    for row in rows {
        if let Content::Text(text) = row.value {
            image.extend_from_slice(text)?;
            image.push(0)?;
        }
    }
    Ok(())
}

// Adds the names, each with its NUL.
fn push_names(image: &mut Vec<u8>, rows: &[UserDefined<'_>]) -> Result<(), AllocError>
    ensures { OnOk result (image.new.items ≡ image.old.items ++ table_of (names_of (rows_of rows.now))) }
{
    for row in rows {
        image.extend_from_slice(row.name)?;
        image.push(0)?;
    }
    Ok(())
}

// How many booleans, numbers and strings, and the bytes of the table.
#[derive(Clone, Copy)]
struct Sizes {
    flags: usize,
    numbers: usize,
    texts: usize,
    table: usize,
}

// The sizes; bytes of the table that no number holds are the greatest number.
fn sizes_of(rows: &[UserDefined<'_>]) -> Sizes
    ensures { HasSizes (rows_of rows.now) result }
{
    let mut sizes = Sizes {
        flags: 0,
        numbers: 0,
        texts: 0,
        table: 0,
    };
    for row in rows {
        sizes.table = sizes.table.saturating_add(row.name.len()).saturating_add(1);
        match row.value {
            Content::True => sizes.flags += 1,
            Content::Number(_) => sizes.numbers += 1,
            Content::Text(text) => {
                sizes.texts += 1;
                sizes.table = sizes.table.saturating_add(text.len()).saturating_add(1);
            }
            Content::Cancelled => {}
        }
    }
    sizes
}

// The bytes of the extension; the greatest number if they are more.
fn size(format: Format, sizes: &Sizes, count: usize) -> usize
    requires count { count ≤ extended_entry_max }
    requires flags { sizes.now.flags ≤ count }
    requires numbers { sizes.now.numbers ≤ count }
    requires texts { sizes.now.texts ≤ count }
    ensures { result ≡ at_most_max (extension_size format sizes.now count) }
{
    let sections = format.width() * sizes.numbers + 2 * sizes.texts + 2 * count;
    (10 + sizes.flags + sizes.flags % 2 + sections).saturating_add(sizes.table)
}

// Adds the five numbers of the extension's header.
fn push_header(image: &mut Vec<u8>, sizes: &Sizes, count: usize) -> Result<(), AllocError>
    requires flags { sizes.now.flags ≤ extended_entry_max }
    requires numbers { sizes.now.numbers ≤ extended_entry_max }
    requires texts { sizes.now.texts ≤ extended_entry_max }
    requires count { count ≤ extended_entry_max }
    requires table { sizes.now.table ≤ extended_entry_max }
    ensures { OnOk result (image.new.items ≡ image.old.items ++ number_section Format.Legacy
        (sizes.now.flags ∷ sizes.now.numbers ∷ sizes.now.texts ∷ (sizes.now.texts + count) ∷ sizes.now.table ∷ [])) }
{
    push_number(image, sizes.flags as u32, Format::Legacy)?;
    push_number(image, sizes.numbers as u32, Format::Legacy)?;
    push_number(image, sizes.texts as u32, Format::Legacy)?;
    push_number(image, (sizes.texts + count) as u32, Format::Legacy)?;
    push_number(image, sizes.table as u32, Format::Legacy)?;
    Ok(())
}

// Adds the extension, whose sizes are known.
fn push_extension(
    image: &mut Vec<u8>,
    format: Format,
    rows: &[UserDefined<'_>],
    sizes: &Sizes,
) -> Result<(), AllocError>
    requires sizes { HasSizes (rows_of rows.now) sizes.now }
    requires small { length (extension format (rows_of rows.now)) ≤ extended_entry_max }
    ensures { OnOk result (image.new.items ≡ image.old.items ++ extension format (rows_of rows.now)) }
{
    push_header(image, sizes, rows.len())?;
    push_flags(image, rows)?;
    push_fill(image, sizes.flags % 2, 0)?;
    push_numbers(image, rows, format)?;
    push_value_places(image, rows)?;
    push_name_places(image, rows)?;
    push_values(image, rows)?;
    push_names(image, rows)?;
    Ok(())
}

// Whether a number is over 32,767.
fn some_wide(rows: &[UserDefined<'_>]) -> bool
    ensures { result ≡ some_wide_of (rows_of rows.now) }
{
    for row in rows {
        if is_wide(row.value) {
            return true;
        }
    }
    false
}

// Whether it is a number over 32,767.
fn is_wide(value: Content<'_>) -> bool
    ensures { result ≡ is_wide_content (Some (content_seen value.entry)) }
{
    matches!(value, Content::Number(number) if number > LEGACY_NUMBER_MAX)
}

// The format of the entry: the extended one if any number is over 32,767.
fn format_wanted(table: &Table, rows: &[UserDefined<'_>]) -> Format
    ensures { result ≡ entry_format (contents table.now) (rows_of rows.now) }
{
    if some_wide(rows) {
        return Format::Extended;
    }
    ti_layout::format_wanted(table.entries())
}

/// The compiled entry of a names field, of a table and of user-defined capabilities, which are in
/// the order of their kinds and names. The extension follows the image of the table; without
/// user-defined capabilities there is none. Numbers take 32 bits if any number, of the table or
/// user-defined, is over 32,767.
///
/// # Errors
/// `NamesTooLong` for names over 127 bytes, then `TooLarge` for an entry over its limit, then
/// `Memory`.
pub fn write(
    alloc: Global,
    names: &[u8],
    table: &Table,
    rows: &[UserDefined<'_>],
) -> Result<Vec<u8>, WriteError>
    requires present { names.now ≢ [] }
    requires no_nul { HasNoNul names.now }
    ensures ok { IfOk result (λ v. (v.items ≡ entry names.now (contents table.now) (rows_of rows.now))
        × (length names.now ≤ names_max) × (length v.items ≤ entry_limit (contents table.now) (rows_of rows.now))) }

    // The first refusal that holds; `Memory` only if no other does.
    ensures names_too_long { IsErrOf result WriteError.NamesTooLong ↔ (names_max < length names.now) }
    ensures too_large { IsErrOf result WriteError.TooLarge
        ↔ ((length names.now ≤ names_max) × IsTooLarge names.now (contents table.now) (rows_of rows.now)) }
    ensures memory { IsErrOf result WriteError.Memory → (length names.now ≤ names_max) × Fits names.now (contents table.now) (rows_of rows.now) }
{
    if names.len() > NAMES_MAX {
        return Err(WriteError::NamesTooLong);
    }
    match plan(names, table, rows) {
        None => Err(WriteError::TooLarge),
        Some((header, sizes)) => Ok(entry_bytes(alloc, names, table, &header, rows, &sizes)?),
    }
}

// The sizes of an entry, if it is within its limit.
fn plan(names: &[u8], table: &Table, rows: &[UserDefined<'_>]) -> Option<(Header, Sizes)>
    requires { length names.now ≤ names_max }
    ensures too_large { IfNone result (IsTooLarge names.now (contents table.now) (rows_of rows.now)) }
    ensures fits { OnSome result (Fits names.now (contents table.now) (rows_of rows.now)) }
    ensures header { IfSome result (λ p. header_has.HasSizesIn (entry_format (contents table.now) (rows_of rows.now)) names.now (contents table.now) p.0) }
    ensures sizes { IfSome result (λ p. HasSizes (rows_of rows.now) p.1) }
{
    let header = header_in(names, table, format_wanted(table, rows));
    let sizes = sizes_of(rows);
    if fits(&header, &sizes, rows.len()) {
        Some((header, sizes))
    } else {
        None
    }
}

// Whether an entry with these sizes is within its limit.
fn fits(header: &Header, sizes: &Sizes, count: usize) -> bool
    requires names { layout.FitsTwoBytes header.now.names }
    requires header_flags { layout.FitsTwoBytes header.now.flags }
    requires header_numbers { layout.FitsTwoBytes header.now.numbers }
    requires header_texts { layout.FitsTwoBytes header.now.texts }
    requires flags { sizes.now.flags ≤ count }
    requires numbers { sizes.now.numbers ≤ count }
    requires texts { sizes.now.texts ≤ count }
    ensures { IsTrue result ↔ FitsAfter header.now.format sizes.now count
        (layout.entry_size header.now.format header.now.names header.now.flags header.now.numbers header.now.texts header.now.strings) }
{
    let at = header.size();
    let limit = header.format.limit();
    if count == 0 {
        return at <= limit;
    }
    at <= limit
        && count <= limit
        && at + at % 2 <= limit
        && size(header.format, sizes, count) <= limit - (at + at % 2)
}

// The entry, of sizes that are known.
fn entry_bytes(
    alloc: Global,
    names: &[u8],
    table: &Table,
    header: &Header,
    rows: &[UserDefined<'_>],
    sizes: &Sizes,
) -> Result<Vec<u8>, AllocError>
    requires names { length names.now ≤ names_max }
    requires header { header_has.HasSizesIn (entry_format (contents table.now) (rows_of rows.now)) names.now (contents table.now) header.now }
    requires sizes { HasSizes (rows_of rows.now) sizes.now }
    requires small { Fits names.now (contents table.now) (rows_of rows.now) }
    ensures { IfOk result (λ v. v.items ≡ entry names.now (contents table.now) (rows_of rows.now)) }
{
    let mut image = write_in(alloc, names, table, header)?;
    if !rows.is_empty() {
        let odd = image.len() % 2;
        push_fill(&mut image, odd, 0)?;
        push_extension(&mut image, header.format, rows, sizes)?;
    }
    Ok(image)
}
