//! User-defined capabilities read where they are.
ghost use Rattle.std.specs.Prelude.{◌≡◌, ◌≢◌, ◌<◌, ◌≤◌, ◌*◌, ◌+◌, ◌-◌, ℕ, [], length, option_map, take, drop, slice_index, slice_get, OnSome, IfSome, IfNone, IsTrue};
ghost use Rattle.ti_layout.specs.Layout.{first_negative, width};
ghost use Rattle.ti_layout.specs.declared.layout.Format.TheVariants.{Legacy};
ghost use Rattle.ti_layout.specs.Reading.{count_in, number_at as number_of, word_at, stored_flag, stored_number, stored_text};
ghost use Rattle.ti_layout.specs.Values.{content_seen};
ghost use Rattle.ti_layout.specs.inside.View.{OffsetsEnd};
ghost use Rattle.user_extension.specs.Reading.{IsExtension, name_table, name_in, parts_in, rows_in, value_in, said};
ghost use Rattle.user_extension.specs.inside.View.{LeadInto, EachIsNamed, AreUserDefinedNames, RiseByKind};

use crate::checks::{NEGATIVE_WORD, are_names, cut, values_size};
use crate::extension_parts::ExtensionParts;
use crate::texts::text;
use std::cmp::Ordering;
use ti_layout::{Content, Format, are_flags, are_numbers, number, word};

/// The user-defined capabilities of an entry, read where they are. It holds slices of the bytes
/// that it was read from, so it takes no memory.
#[derive(Clone, Copy)]
pub struct Extension<'a> {
    format: Format,
    flags: &'a [u8],
    numbers: &'a [u8],
    values: &'a [u8],
    names: &'a [u8],
    table: &'a [u8],
    // the names: the table after the values
    tail: &'a [u8],
    // each offset of a value that is there leads into the table
    ghost ends: { OffsetsEnd values.now table.now },
    // the names are in the rest of the table
    ghost rest: { tail.now ≡ name_table values.now table.now },
    // each offset of a name leads into it
    ghost lead: { LeadInto names.now tail.now },
    // each name is user-defined
    ghost user_defined: { AreUserDefinedNames names.now tail.now },
    // the names of a kind rise
    ghost rise: { RiseByKind (length flags.now) (length flags.now + count_in format numbers.now) names.now tail.now },
    // there are no more than a header can say
    ghost few: { count_in Legacy names.now < first_negative Legacy },
    // each capability has a name
    ghost named: { EachIsNamed format flags.now numbers.now values.now names.now },
}

impl<'a> Extension<'a> {
    ghost use Rattle.ti_text.specs.Texts.{HasNoNul};
    ghost use Rattle.ti_layout.specs.View.{shown_flag, shown_number, shown_text};
    ghost use Rattle.std.specs.Option.{option_copied};
    ghost use Rattle.user_extension.specs.UserDefined.{IsValue};
    ghost use Rattle.user_extension.specs.View.{parts_of, read_rows};
    ghost use Rattle.user_extension.specs.ExtensionParts.{parts_rows};
    ghost use Rattle.user_extension.specs.inside.View.{IsOfOneKind};
    ghost use Rattle.user_items.specs.Names.{is_user_defined_name};

    /// The user-defined capabilities that the bytes after an entry say, or `None` if they are not
    /// an extension.
    pub fn of(rest: &'a [u8], format: Format) -> Option<Extension<'a>>
        ensures found { OnSome result (IsExtension format rest.now) }
        ensures rows { IfSome result (λ e. read_rows e ≡ rows_in format (parts_in format rest.now)) }
        ensures none { IfNone result (¬ IsExtension format rest.now) }
    {
        let sections = cut(rest, format)?;
        if !are_flags(sections.flags) {
            return None;
        }
        if !are_numbers(sections.numbers, format) {
            return None;
        }
        let size = values_size(sections.values, sections.table)?;
        let tail = &sections.table[size..];
        let second = sections.flags.len();
        let third = second + sections.numbers.len() / format.width();
        if !are_names(sections.names, tail, second, third) {
            return None;
        }
        Some(Extension {
            format,
            flags: sections.flags,
            numbers: sections.numbers,
            values: sections.values,
            names: sections.names,
            table: sections.table,
            tail,
        })
    }

    /// No user-defined capabilities.
    pub fn none(format: Format) -> Extension<'a>
        ensures { read_rows result ≡ [] }
    {
        Extension {
            format,
            flags: no_bytes(),
            numbers: no_bytes(),
            values: no_bytes(),
            names: no_bytes(),
            table: no_bytes(),
            tail: no_bytes(),
        }
    }

    /// How many rows there are: each has a name, and a value if it is present. They are in the
    /// order of booleans, numbers and strings, and of the names of each.
    pub fn len(&self) -> usize
        ensures { result ≡ length (read_rows self.now) }
    {
        self.names.len() / 2
    }

    /// The name of the row at a place. The name is user-defined.
    pub fn name(&self, place: usize) -> &'a [u8]
        requires { place < length (read_rows self.now) }
        ensures name { Some result.now ≡ option_map (λ row. row.0) (slice_get (read_rows self.now) place) }
        ensures user_defined { IsTrue (is_user_defined_name result.now) }
    {
        self.name_at(place)
    }

    /// The value of the row at a place; `None` if it is absent or cancelled. A number is at most
    /// 2,147,483,647, and a string holds no NUL.
    pub fn value(&self, place: usize) -> Option<Content<'a>>
        requires { place < length (read_rows self.now) }
        ensures value { Some (option_map content_seen result) ≡ option_map (λ row. row.1) (slice_get (read_rows self.now) place) }
        ensures sound { IfSome result (λ value. IsValue (content_seen value)) }
    {
        self.value_at(place)
    }

    /// The value of a name, that of the first row of the name that is present; `None` if none is.
    /// It takes a binary search for each kind.
    pub fn get(&self, name: &[u8]) -> Option<Content<'a>>
        ensures value { option_map content_seen result ≡ said (read_rows self.now) name.now }
        ensures sound { IfSome result (λ value. IsValue (content_seen value)) }
    {
        let second = self.flags.len();
        let third = second + self.numbers.len() / self.format.width();
        if let Some(flag) = self.get_between(name, 0, second) {
            return Some(flag);
        }
        if let Some(number) = self.get_between(name, second, third) {
            return Some(number);
        }
        self.get_between(name, third, self.len())
    }

    /// The extension as its sections, for a caller that holds it in another struct.
    pub fn parts(&self) -> ExtensionParts<'a>
        ensures { parts_rows result ≡ read_rows self.now }
    {
        ExtensionParts {
            format: self.format,
            flags: self.flags,
            numbers: self.numbers,
            values: self.values,
            names: self.names,
            table: self.table,
            tail: self.tail,
        }
    }

    /// The extension with such sections. Nothing is looked through again.
    pub fn of_parts(parts: ExtensionParts<'a>) -> Extension<'a>
        ensures { read_rows result ≡ parts_rows parts.entry }
    {
        Extension {
            format: parts.format,
            flags: parts.flags,
            numbers: parts.numbers,
            values: parts.values,
            names: parts.names,
            table: parts.table,
            tail: parts.tail,
        }
    }

    // The name at a place.
    fn name_at(&self, place: usize) -> &'a [u8]
        requires { place < count_in Legacy self.now.names.now }
        ensures { result.now ≡ name_in self.now.names.now self.now.tail.now place }
    {
        text(self.tail, word(self.names, 2 * place))
    }

    // The value at a place.
    fn value_at(&self, place: usize) -> Option<Content<'a>>
        requires { place < count_in Legacy self.now.names.now }
        ensures { option_map content_seen result ≡ value_in self.now.format (parts_of self.now) place }
    {
        if place < self.flags.len() {
            return flag_at(self.flags, place);
        }
        let numbers = self.flags.len() + self.numbers.len() / self.format.width();
        if place < numbers {
            return number_at(self.numbers, self.format, place - self.flags.len());
        }
        text_at(self.values, self.table, place - numbers)
    }

    // The value of a name among the rows between two places, which are of one kind.
    fn get_between(&self, name: &[u8], low: usize, high: usize) -> Option<Content<'a>>
        requires within { high ≤ count_in Legacy self.now.names.now }
        requires kind { IsOfOneKind (length self.now.flags.now) (length self.now.flags.now + count_in self.now.format self.now.numbers.now) low high }
        ensures value { option_map content_seen result ≡ said (take (high - low) (drop low (read_rows self.now))) name.now }
        ensures sound { IfSome result (λ value. IsValue (content_seen value)) }
    {
        match self.find_between(name, low, high) {
            Some(place) => self.value_at(place),
            None => None,
        }
    }

    // The place of a name among the rows between two places, which are of one kind.
    fn find_between(&self, name: &[u8], low: usize, high: usize) -> Option<usize>
        requires within { high ≤ count_in Legacy self.now.names.now }
        requires kind { IsOfOneKind (length self.now.flags.now) (length self.now.flags.now + count_in self.now.format self.now.numbers.now) low high }
        ensures found { IfSome result (λ place. (low ≤ place) × (place < high) × (name_in self.now.names.now self.now.tail.now place ≡ name.now)) }
        ensures none { IfNone result ((k : ℕ) → low ≤ k → k < high → name_in self.now.names.now self.now.tail.now k ≢ name.now) }
    {
        let mut first = low;
        let mut end = high;
        while first < end {
            let middle = first + (end - first) / 2;
            match self.name_at(middle).cmp(name) {
                Ordering::Less => first = middle + 1,
                Ordering::Equal => return Some(middle),
                Ordering::Greater => end = middle,
            }
        }
        None
    }

    /// Whether a boolean of that name is set.
    pub fn flag(&self, name: &[u8]) -> bool
        ensures { result ≡ shown_flag (said (read_rows self.now) name.now) }
    {
        matches!(self.get(name), Some(Content::True))
    }

    /// The number of that name.
    pub fn number(&self, name: &[u8]) -> Option<u32>
        ensures { result ≡ shown_number (said (read_rows self.now) name.now) }
    {
        match self.get(name) {
            Some(Content::Number(number)) => Some(number),
            _ => None,
        }
    }

    /// The string of that name.
    pub fn text(&self, name: &[u8]) -> Option<&'a [u8]>
        ensures no_nul { IfSome result (λ text. HasNoNul text.now) }
        ensures text { option_copied result ≡ shown_text (said (read_rows self.now) name.now) }
    {
        match self.get(name) {
            Some(Content::Text(text)) => Some(text),
            _ => None,
        }
    }
}

// No bytes.
fn no_bytes<'a>() -> &'a [u8]
    ensures { result.now ≡ [] }
{
    &[]
}

// What a boolean's byte says.
fn flag_at(flags: &[u8], place: usize) -> Option<Content<'_>>
    requires { place < length flags.now }
    ensures { option_map content_seen result ≡ stored_flag (slice_index flags.now place) }
{
    if flags[place] == 1 {
        Some(Content::True)
    } else {
        None
    }
}

// What a number says.
fn number_at(numbers: &[u8], format: Format, place: usize) -> Option<Content<'_>>
    requires { place < count_in format numbers.now }
    ensures { option_map content_seen result ≡ stored_number format (number_of format (width format * place) numbers.now) }
{
    let number = number(numbers, format.width() * place, format);
    if number < format.first_negative() {
        Some(Content::Number(number))
    } else {
        None
    }
}

// What an offset says.
fn text_at<'a>(values: &[u8], table: &'a [u8], place: usize) -> Option<Content<'a>>
    requires within { place < count_in Legacy values.now }
    requires ends { OffsetsEnd values.now table.now }
    ensures { option_map content_seen result ≡ stored_text table.now (word_at (2 * place) values.now) }
{
    let offset = word(values, 2 * place);
    if offset < NEGATIVE_WORD {
        Some(Content::Text(text(table, offset)))
    } else {
        None
    }
}
