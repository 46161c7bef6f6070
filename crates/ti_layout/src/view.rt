//! A compiled entry read where it is: each name and value is a slice of the caller's bytes.
ghost use Rattle.std.specs.Prelude.{◌≡◌, ◌==◌, ◌<◌, length, option_map, IfOk, IfErr};
ghost use Rattle.std.specs.List.{before_first};
ghost use Rattle.std.specs.Option.{option_copied};
ghost use Rattle.ti_caps.specs.declared.capability.Kind.TheVariants.{Flag, Number, Text};
ghost use Rattle.ti_layout.specs.Layout.{first_negative};
ghost use Rattle.ti_layout.specs.declared.layout.Format.TheVariants.{Legacy};
ghost use Rattle.ti_layout.specs.Reading.{Reads, FailsToRead};
ghost use Rattle.ti_layout.specs.Values.{content_seen};
ghost use Rattle.ti_layout.specs.inside.View.{OffsetsEnd};

use crate::fault::ReadError;
use crate::layout::{Format, NEGATIVE_WORD, number, word};
use crate::sections::{are_flags, are_names, are_numbers, are_offsets, cut};
use crate::values::Content;
use crate::view_parts::ViewParts;
use memchr::memchr;
use ti_caps::{Cap, Kind};

/// A compiled entry of term(5), in the legacy storage format or the extended number format, read
/// where it is. It holds slices of the bytes that it was read from, so it takes no memory.
/// Contracts see its names and what each capability has. The names and strings that it returns live
/// as long as those bytes, and not only as long as the view.
#[derive(Clone, Copy)]
pub struct View<'a> {
    format: Format,
    names: &'a [u8],
    flags: &'a [u8],
    numbers: &'a [u8],
    offsets: &'a [u8],
    strings: &'a [u8],
    // each plain offset leads into the string table
    ghost ends: { OffsetsEnd offsets.now strings.now },
    /// the string table is no longer than a header can say
    pub ghost short: { length strings.now < first_negative Legacy },
}

impl<'a> View<'a> {
    ghost use Rattle.ti_text.specs.Ascii as ascii;
    ghost use Rattle.ti_layout.specs.ViewParts.{parts_contents};
    ghost use Rattle.ti_layout.specs.View.{names_of, view_contents, shown_flag, shown_number, shown_text};

    /// Reads an entry. One pass goes over the sections and one search over the string table: the
    /// time is linear in the bytes, however many offsets lead to the same string.
    ///
    /// # Errors
    /// The first of the refusals of [`ReadError`], in its order, that holds of the bytes.
    pub fn read(bytes: &'a [u8]) -> Result<View<'a>, ReadError>
        ensures found { IfOk result (λ v. Reads bytes.now (names_of v) (view_contents v)) }
        ensures refused { IfErr result (λ e. FailsToRead bytes.now e) }
    {
        let sections = cut(bytes)?;
        if !are_names(sections.names) {
            return Err(ReadError::BadNames);
        }
        if !are_flags(sections.flags) {
            return Err(ReadError::BadFlag);
        }
        if !are_numbers(sections.numbers, sections.format) {
            return Err(ReadError::BadNumber);
        }
        if !are_offsets(sections.offsets, sections.strings) {
            return Err(ReadError::BadOffset);
        }
        Ok(View {
            format: sections.format,
            names: &sections.names[..sections.names.len() - 1],
            flags: sections.flags,
            numbers: sections.numbers,
            offsets: sections.offsets,
            strings: sections.strings,
        })
    }

    /// The names field, without its NUL.
    pub fn names(&self) -> &'a [u8]
        ensures { result.now ≡ names_of self.now }
    {
        self.names
    }

    /// The first name: the names field up to its first `|`, or the whole field if it has none.
    pub fn first_name(&self) -> &'a [u8]
        ensures { result.now ≡ before_first (λ b. b == ascii.bar) (names_of self.now) }
    {
        match memchr(b'|', self.names) {
            Some(end) => &self.names[..end],
            None => self.names,
        }
    }

    /// What the entry has of a capability; `None` if it is absent or cancelled.
    // (inlined, since most callers know the kind, so that the other two cases fold away; written
    // out, since by callgrind a listing takes half the instructions that it would by `?`)
    #[inline(always)]
    pub fn get(&self, cap: Cap) -> Option<Content<'a>>
        ensures { option_map content_seen result ≡ view_contents self.now cap }
    {
        match cap.kind() {
            Kind::Flag => {
                if self.flag(cap) {
                    Some(Content::True)
                } else {
                    None
                }
            }
            Kind::Number => match self.number(cap) {
                Some(number) => Some(Content::Number(number)),
                None => None,
            },
            Kind::Text => match self.text(cap) {
                Some(text) => Some(Content::Text(text)),
                None => None,
            },
        }
    }

    /// Whether a boolean is set. An absent or cancelled boolean is not.
    pub fn flag(&self, cap: Cap) -> bool
        requires { cap.kind ≡ Flag }
        ensures { result ≡ shown_flag (view_contents self.now cap) }
    {
        self.flags.get(cap.index()) == Some(&1)
    }

    /// The value of a number; `None` if it is absent or cancelled.
    pub fn number(&self, cap: Cap) -> Option<u32>
        requires { cap.kind ≡ Number }
        ensures { result ≡ shown_number (view_contents self.now cap) }
    {
        let width = self.format.width();
        if cap.index() >= self.numbers.len() / width {
            return None;
        }
        let number = number(self.numbers, width * cap.index(), self.format);
        if number < self.format.first_negative() {
            Some(number)
        } else {
            None
        }
    }

    /// The value of a string, without its NUL; `None` if it is absent or cancelled.
    pub fn text(&self, cap: Cap) -> Option<&'a [u8]>
        requires { cap.kind ≡ Text }
        ensures { option_copied result ≡ shown_text (view_contents self.now cap) }
    {
        if cap.index() >= self.offsets.len() / 2 {
            return None;
        }
        let offset = word(self.offsets, 2 * cap.index());
        if offset >= NEGATIVE_WORD {
            return None;
        }
        let rest = &self.strings[offset..];
        match memchr(0, rest) {
            Some(len) => Some(&rest[..len]),
            None => Some(rest),
        }
    }

    /// The entry as its sections, for a caller that holds it in another struct.
    pub fn parts(&self) -> ViewParts<'a>
        ensures names { result.names.now ≡ names_of self.now }
        ensures contents { parts_contents result ≡ view_contents self.now }
    {
        ViewParts {
            format: self.format,
            names: self.names,
            flags: self.flags,
            numbers: self.numbers,
            offsets: self.offsets,
            strings: self.strings,
        }
    }

    /// The entry with such sections. Nothing is looked through again.
    pub fn of_parts(parts: ViewParts<'a>) -> View<'a>
        ensures names { names_of result ≡ parts.entry.names.now }
        ensures contents { view_contents result ≡ parts_contents parts.entry }
    {
        View {
            format: parts.format,
            names: parts.names,
            flags: parts.flags,
            numbers: parts.numbers,
            offsets: parts.offsets,
            strings: parts.strings,
        }
    }
}
